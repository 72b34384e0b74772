//! The summary of a session that ran a workload.
ghost use Rattle.std.specs.Prelude.{◌≡◌, ◌≤◌, ◌++◌, length, OnOk};
ghost use Rattle.std.specs.List.{count_by};
ghost use Rattle.std.specs.String.{string_bytes};
ghost use Rattle.session_report.specs.bulk.Summary.{is_ok, is_file, summary_text};

use crate::text::put_count;
use host_answers::{Entry, EntryKind};
use std::alloc::AllocError;
use tree_model::{Node, Reply, Tree};

/// The numbers of a summary.
#[derive(Clone, Copy, PartialEq, Eq, Debug)]
pub struct Summary {
    /// The number that the workload was made of.
    pub number: u32,
    /// Steps of the device.
    pub steps: u64,
    /// Requests that were submitted.
    pub requests: u64,
    /// Transactions that were closed.
    pub closed: u64,
    /// Transactions that were found when the image was recovered.
    pub found: u64,
    /// Calls that were answered with `ok`.
    pub ok: u64,
    /// Files of the tree that was recovered.
    pub files: u64,
}

/// How many calls of a history were answered with `ok`.
pub fn count_ok(history: &[Entry]) -> u64
    ensures { result ≡ count_by is_ok history.now }
{
    let mut count = 0;
    for entry in history {
        if matches!(entry.what, EntryKind::End(Reply::Ok)) {
            count += 1;
        }
    }
    count
}

/// How many files a tree has.
pub fn count_files(tree: &Tree) -> u64
    ensures { result ≡ count_by is_file tree.now }
{
    let mut count = 0;
    for (_, node) in tree.as_map() {
        if matches!(node, Node::File(_)) {
            count += 1;
        }
    }
    count
}

/// Appends the seven lines of a summary.
#[tactic(auto, using(std::proofs::lemmas::List::append_assoc), unfolding(crate::specs::bulk::Summary::summary_text))]
pub fn put_summary(out: &mut String, summary: &Summary) -> Result<(), AllocError>
    ensures { OnOk result (string_bytes out.new ≡ string_bytes out.old ++ summary_text summary.now) }
{
    put_count(out, "bulk", summary.number.into())?;
    put_count(out, "steps", summary.steps)?;
    put_count(out, "requests", summary.requests)?;
    put_count(out, "closed", summary.closed)?;
    put_count(out, "found", summary.found)?;
    put_count(out, "ok", summary.ok)?;
    put_count(out, "files", summary.files)
}
