//! The run of a store's script.
ghost use Rattle.std.specs.Prelude.{◌≡◌, ◌^◌, ◌<◌, length, IfOk};
ghost use Rattle.session_core.specs.Core.{core};
ghost use Rattle.session_core.specs.Headline.{Headline};
ghost use Rattle.session_core.specs.Report.{IsCoreReport};
ghost use Rattle.store_grammar.specs.Made.{volume_script};
ghost use Rattle.store_grammar.specs.WellFormed.{IsWellFormed};
ghost use Rattle.store_core.specs.Runs.{ArePairs, IsHeldAfter, IsHeldOn};
ghost use Rattle.store_core.specs.Stores.{acknowledged_in};

use crate::counting::count_acknowledged;
use crate::reading::log_blocks;
use crate::report::{StoreReport, StoreSummary};
use blk_base::NoMemory;
use session_core::{SessionReport, core_run};
use session_grammar::SessionScript;
use std::alloc::Global;
use store_grammar::{StoreScript, made_scripts_are_well_formed, volume_script};
use volume_ops::Volume;
use wal_store::{LogContents, read_log};

// What the log on a volume holds, of so many blocks at most.
fn held_on(alloc: Global, room: u32, volume: &Volume) -> Result<LogContents, NoMemory>
    requires { room < 2 ^ 32 }
    ensures held { IfOk result (IsHeldOn room volume.now) }
    ensures pairs { IfOk result (λ h. ArePairs h.pairs) }
{
    let tree = volume.tree(alloc)?;
    let blocks = log_blocks(alloc, &tree, room)?;
    read_log(alloc, &blocks)
}

// How many puts were acknowledged.
fn acknowledged(script: &SessionScript, session: &SessionReport) -> u64
    requires { IsCoreReport script.now session.now }
    ensures { result ≡ acknowledged_in (core script.now) }
{
    count_acknowledged(&script.programs, session.host.history())
}

// What is told of the session of a store with a log of so many blocks. Its volume script is this.
fn summary_of(
    alloc: Global,
    room: u32,
    script: &SessionScript,
    session: &SessionReport,
) -> Result<StoreSummary, NoMemory>
    requires room { room < 2 ^ 32 }
    requires report { IsCoreReport script.now session.now }
    ensures steps { IfOk result (λ s. s.steps ≡ session.now.cut.trace.steps) }
    ensures requests { IfOk result (λ s. s.requests ≡ length session.now.host.host.journal.flush.requests) }
    ensures acknowledged { IfOk result (λ s. s.acknowledged ≡ acknowledged_in (core script.now)) }
    ensures held { IfOk result (λ s. IsHeldAfter room session.now s.held) }
    ensures pairs { IfOk result (λ s. ArePairs s.held.pairs) }
{
    let held = held_on(alloc, room, &session.volume)?;
    Ok(StoreSummary {
        steps: session.cut.trace.steps(),
        requests: session.host.submitted(),
        acknowledged: acknowledged(script, session),
        held,
    })
}

/// Runs the volume script of a store, counts the puts that were acknowledged, and reads what the log holds once what the
/// power cut left was recovered.
pub fn run_store(alloc: Global, script: &StoreScript) -> Result<StoreReport, NoMemory>
    requires { IsWellFormed script.now }
    ensures report { IfOk result (λ r. IsCoreReport (volume_script script.now) r.session) }
    ensures headline { IfOk result (λ r. Headline (volume_script script.now) r.session) }
    ensures steps { IfOk result (λ r. r.summary.steps ≡ r.session.cut.trace.steps) }
    ensures requests { IfOk result (λ r. r.summary.requests ≡ length r.session.host.host.journal.flush.requests) }
    ensures acknowledged { IfOk result (λ r. r.summary.acknowledged ≡ acknowledged_in (core (volume_script script.now))) }
    ensures held { IfOk result (λ r. IsHeldAfter script.now.room r.session r.summary.held) }
    ensures pairs { IfOk result (λ r. ArePairs r.summary.held.pairs) }
{
    // This call tells that the volume script is well-formed.
    made_scripts_are_well_formed();
    let volume = volume_script(alloc, script)?;
    let session = core_run(alloc, &volume)?;
    match summary_of(alloc, script.room, &volume, &session) {
        Ok(summary) => Ok(StoreReport { session, summary }),
        // By a call: a drop that is written out in place is dear to prove.
        Err(NoMemory) => {
            drop(session);
            Err(NoMemory)
        }
    }
}
