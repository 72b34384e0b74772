//! The sessions of stores.
ghost use Rattle.std.specs.Prelude.{◌≡◌, ◌≤◌, length, IfOk, IfErr};
ghost use Rattle.std.specs.String.{string_bytes};
ghost use Rattle.script_grammar.specs.declared.limits.TheConstants.{MOST_SCRIPT_BYTES};
ghost use Rattle.store_core.specs.Runs.{ArePairs};
ghost use Rattle.store_core.specs.SummaryText.{summary_text};
ghost use Rattle.barrierfs_top.specs.declared.command_line.InputTask.{InputTask};
ghost use Rattle.barrierfs_top.specs.Stores.{IsStoreRun};
ghost use Rattle.barrierfs_top.specs.Text.{output_bytes};
ghost use Rattle.barrierfs_top.specs.Top.{IsInputFault};

use crate::fault::TopFault;
use crate::output::Output;
use crate::run_report::RunReport;
use crate::top::{Printed, fault_of};
use blk_base::NoMemory;
use std::alloc::Global;
use store_core::{StoreReport, StoreSummary, put_store, run_store};
use store_grammar::read_store;

// The text of a store's session.
fn text_of(alloc: Global, summary: &StoreSummary) -> Result<String, NoMemory>
    requires { ArePairs summary.now.held.pairs }
    ensures { IfOk result (λ text. string_bytes text ≡ summary_text summary.now) }
{
    let mut text = String::new(alloc);
    put_store(&mut text, summary)?;
    Ok(text)
}

/// Runs the store's script of these bytes, and makes its text.
pub fn run_store_text(alloc: Global, bytes: &[u8]) -> Result<Printed, TopFault>
    requires { length bytes.now ≤ MOST_SCRIPT_BYTES }
    ensures ok { IfOk result (λ p. IsStoreRun bytes.now p.report (output_bytes p.output)) }
    ensures err { IfErr result (IsInputFault InputTask.Kv bytes.now) }
{
    let script = match read_store(alloc, bytes) {
        Ok(script) => script,
        Err(error) => return Err(fault_of(error)),
    };
    let Ok(StoreReport { session, summary }) = run_store(alloc, &script) else {
        return Err(TopFault::NoMemory);
    };
    match text_of(alloc, &summary) {
        Ok(text) => Ok(Printed {
            report: Some(RunReport::Session(session)),
            output: Output::Text(text),
        }),
        Err(_) => {
            drop(session);
            Err(TopFault::NoMemory)
        }
    }
}
