//! The laws, each a public function that does nothing when it is called.
ghost use Rattle.std.specs.Prelude.{◌≡◌, ℕ, Option, length};
ghost use Rattle.session_grammar.specs.declared.session_script.SessionScript.{SessionScript};
ghost use Rattle.session_core.specs.CallEnds.{RanFreely};
ghost use Rattle.session_threads.specs.Ran.{IsThreadsReport, IsUnstopped};
ghost use Rattle.session_threads.specs.declared.report.ThreadsReport.{ThreadsReport};

/// A law, which does nothing when it is called: where nothing stopped a run, its report has as many found transactions as closed
/// ones. So it is with every script that has neither a line `cut` nor a line `fail`, below its limit.
pub fn unstopped_runs_find_all_that_they_closed()
    ensures unstopped { (s : SessionScript) (flash : Option ℕ) (r : ThreadsReport) (is : IsThreadsReport s flash r) → IsUnstopped s is.end → r.report.found ≡ length is.end.host.cuts }
    ensures free { (s : SessionScript) (flash : Option ℕ) (r : ThreadsReport) (is : IsThreadsReport s flash r) → RanFreely s is.end → r.report.found ≡ length is.end.host.cuts }
{}
