//! What is kept of a host.
ghost use Rattle.std.specs.Prelude.{◌≡◌, length, map};
ghost use Rattle.host_core.specs.Entries.{entry_in, ArePlaced};

use crate::host::Host;
use host_answers::Entry;
use order_model::Trail;
use std::marker::Model;

/// What is kept of a host once its session has ended: what was noted of calls, the cuts, and how many requests there were.
/// Its volume, its pages and its journal are let go; contracts alone see them.
#[derive(Drop)]
pub struct HostTrace {
    history: Vec<Entry>,
    cuts: Vec<u64>,
    submitted: u64,
    host: Trail<Host>,
}

impl Model for HostTrace {
    ghost use Rattle.host_core.specs.Now.{HostNow};
    ghost use Rattle.host_core.specs.code.HostTraces.{IsHostTrace, first_host};

    ghost Value = { HostNow };

    ghost view = { λ t. first_host t.host.items };

    ghost invariant = { λ t. IsHostTrace (first_host t.host.items) t.history.items t.cuts.items t.submitted };
}

impl Host {
    /// What is kept of it once its session has ended.
    pub fn into_trace(self) -> HostTrace
        ensures { result ≡ self }
    {
        let submitted = self.submitted();
        let host = Trail::new().and(&self);
        let Host {
            parts,
            history,
            cuts,
            threads,
        } = self;
        drop(parts);
        drop(threads);
        HostTrace {
            history,
            cuts,
            submitted,
            host,
        }
    }
}

impl HostTrace {
    /// What was noted of calls.
    pub fn history(&self) -> &[Entry]
        ensures noted { self.now.host.history ≡ map (entry_in self.now.programs) result.now }
        ensures placed { ArePlaced self.now.programs result.now }
    {
        &self.history
    }

    /// The number of the last entry of each closed transaction.
    pub fn cuts(&self) -> &[u64]
        ensures { result.now ≡ self.now.host.cuts }
    {
        &self.cuts
    }

    /// How many requests were submitted.
    pub fn submitted(&self) -> u64
        ensures { result ≡ length self.now.host.journal.flush.requests }
    {
        self.submitted
    }
}
