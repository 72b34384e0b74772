//! The sessions of generated workloads.
ghost use Rattle.std.specs.Prelude.{◌≡◌, ◌<◌, ◌≤◌, IfOk, IfErr};
ghost use Rattle.std.specs.String.{string_bytes};
ghost use Rattle.session_report.specs.bulk.Workload.{bulk_of};
ghost use Rattle.session_report.specs.declared.bulk.limits.TheConstants.{MOST_GENERATED};
ghost use Rattle.session_core.specs.Headline.{Headline};
ghost use Rattle.session_core.specs.Report.{IsCoreReport};
ghost use Rattle.barrierfs_top.specs.Bulk.{HasFiles, IsSummaryOf, IsWorkload};
ghost use Rattle.barrierfs_top.specs.Text.{output_bytes};

use crate::fault::TopFault;
use crate::output::Output;
use crate::run_report::RunReport;
use crate::session::{figures_of, noted};
use crate::top::Printed;
use blk_base::NoMemory;
use session_core::{SessionReport, core_run};
use session_grammar::SessionScript;
use session_report::bulk::{Summary, count_files, count_ok, put_summary, script_of_bulk};
use std::alloc::Global;
use volume_ops::Volume;

/// Runs the workload of a number, and makes its summary.
pub fn run_workload(alloc: Global, number: u32) -> Result<Printed, TopFault>
    requires some { 0 < number }
    requires most { number ≤ MOST_GENERATED }
    ensures ok { IfOk result (λ p. IsWorkload number p.report (output_bytes p.output)) }
    ensures err { IfErr result (λ fault. fault ≡ TopFault.NoMemory) }
{
    let Ok((script, report)) = session_of(alloc, number) else {
        return Err(TopFault::NoMemory);
    };
    match summary_of(alloc, number, &script, &report) {
        Ok(text) => Ok(Printed {
            report: Some(RunReport::Session(report)),
            output: Output::Text(text),
        }),
        Err(_) => {
            drop(report);
            Err(TopFault::NoMemory)
        }
    }
}

// The script of a workload, and what its session left.
fn session_of(alloc: Global, number: u32) -> Result<(SessionScript, SessionReport), NoMemory>
    requires some { 0 < number }
    requires most { number ≤ MOST_GENERATED }
    ensures script { IfOk result (λ r. r.0 ≡ bulk_of number) }
    ensures core { IfOk result (λ r. IsCoreReport r.0 r.1) }
    ensures headline { IfOk result (λ r. Headline r.0 r.1) }
{
    let script = script_of_bulk(alloc, number)?;
    match core_run(alloc, &script) {
        Ok(report) => Ok((script, report)),
        Err(_) => Err(NoMemory),
    }
}

// The summary of a session, whose script this is. It is that of a workload of this number.
fn summary_of(
    alloc: Global,
    number: u32,
    script: &SessionScript,
    report: &SessionReport,
) -> Result<String, NoMemory>
    requires { IsCoreReport script.now report.now }
    ensures { IfOk result (λ text. IsSummaryOf number script.now report.now (string_bytes text)) }
{
    let figures = figures_of(report);
    let ok = count_ok(noted(report, script));
    let files = files_of(alloc, &report.volume)?;
    let summary = Summary {
        number,
        steps: figures.steps,
        requests: figures.requests,
        closed: figures.closed,
        found: figures.found,
        ok,
        files,
    };
    let mut text = String::new(alloc);
    put_summary(&mut text, &summary)?;
    Ok(text)
}

// How many files the tree of a volume has.
fn files_of(alloc: Global, volume: &Volume) -> Result<u64, NoMemory>
    ensures { IfOk result (HasFiles volume.now) }
{
    let tree = volume.tree(alloc)?;
    Ok(count_files(&tree))
}
