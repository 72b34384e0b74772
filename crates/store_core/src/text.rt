//! The text of a store's session.
ghost use Rattle.std.specs.Prelude.{◌≡◌, ◌++◌, OnOk};
ghost use Rattle.std.specs.List.{All};
ghost use Rattle.std.specs.String.{string_bytes};
ghost use Rattle.session_report.specs.text.Lines.{is_ascii};
ghost use Rattle.store_core.specs.Runs.{ArePairs};
ghost use Rattle.store_core.specs.SummaryText.{pair_line, pair_lines, summary_text};

use crate::report::StoreSummary;
use session_report::text::put_count;
use std::alloc::AllocError;
use wal_store::{Pairs, Text};

// Appends bytes of ASCII as they are.
fn put_ascii(out: &mut String, bytes: &[u8]) -> Result<(), AllocError>
    requires { All is_ascii bytes.now }
    ensures { OnOk result (string_bytes out.new ≡ string_bytes out.old ++ bytes.now) }
{
    for b in bytes {
        out.push(*b as char)?;
    }
    Ok(())
}

#[tactic(auto, using(std::proofs::lemmas::List::append_assoc))]
fn put_pair(out: &mut String, key: &Text, value: &Text) -> Result<(), AllocError>
    requires key { All is_ascii key.now }
    requires value { All is_ascii value.now }
    ensures { OnOk result (string_bytes out.new ≡ string_bytes out.old ++ pair_line key.now value.now) }
{
    put_ascii(out, key.as_slice())?;
    out.push_str(" ")?;
    put_ascii(out, value.as_slice())?;
    out.push_str("\n")
}

fn put_pairs(out: &mut String, pairs: &Pairs) -> Result<(), AllocError>
    requires { ArePairs pairs.now }
    ensures { OnOk result (string_bytes out.new ≡ string_bytes out.old ++ pair_lines pairs.now) }
{
    for (key, value) in pairs.as_map() {
        put_pair(out, key, value)?;
    }
    Ok(())
}

/// Appends four lines of counts, and a line for each key with its value.
#[tactic(auto, using(std::proofs::lemmas::List::append_assoc), unfolding(crate::specs::SummaryText::summary_text))]
pub fn put_store(out: &mut String, summary: &StoreSummary) -> Result<(), AllocError>
    requires { ArePairs summary.now.held.pairs }
    ensures { OnOk result (string_bytes out.new ≡ string_bytes out.old ++ summary_text summary.now) }
{
    put_count(out, "steps", summary.steps)?;
    put_count(out, "requests", summary.requests)?;
    put_count(out, "acknowledged", summary.acknowledged)?;
    put_count(out, "held", summary.held.count.into())?;
    put_pairs(out, &summary.held.pairs)
}
