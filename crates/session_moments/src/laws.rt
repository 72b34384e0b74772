//! The laws, each a public function that does nothing when it is called.
ghost use Rattle.std.specs.Prelude.{◌≡◌, ◌+◌, ◌≤◌, ◌++◌, ◌∷◌, [], ℕ, List, length, take, slice_get, Some};
ghost use Rattle.order_model.specs.Machine.{machine_of};
ghost use Rattle.line_grammar.specs.declared.events.event.CoreEvent.{CoreEvent};
ghost use Rattle.session_grammar.specs.declared.session_script.SessionScript.{SessionScript};
ghost use Rattle.session_grammar.specs.WellFormed.{IsWellFormed};
ghost use Rattle.session_core.specs.run.machine.Machine.{happens};
ghost use Rattle.host_core.specs.Now.{HostNow};
ghost use Rattle.session_core.specs.declared.run.session.SessionEnd.{SessionEnd};
ghost use Rattle.session_core.specs.run.Beginning.{IsMadeFor};
ghost use Rattle.session_core.specs.run.End.{IsEndOf};
ghost use Rattle.session_core.specs.Core.{HasSetup, ended, opening_of, start_of};
ghost use Rattle.session_core.specs.code.Ends.{session_on, IsEndOfScript};
ghost use Rattle.session_moments.specs.Moments.{Outcome, Span, Tells, script_events, front, moment, outcome_at, outcomes_before, told_by};
ghost use Rattle.session_core.specs.Report.{IsCoreReport};
ghost use Rattle.session_core.specs.declared.report.SessionReport.{SessionReport};

use order_model::OrderedDev;
use schedulers::reassign::Scheduler;
use session_core::run::machine::{
    hosts_of_sessions_take_their_steps, parts_of_sessions_fit, sessions_keep_order_to_the_medium,
};

/// A law, which does nothing when it is called: a script with its first i events alone is a script that is read, on which all
/// that is promised of a script holds; its session ends where the script's session stands at moment i; each event leads from one
/// moment to the next, and the last moment is the script's end.
pub fn fronts_are_scripts<S: Scheduler, D: OrderedDev>()
    ensures formed { (s : SessionScript) (i : ℕ) → IsWellFormed s → IsWellFormed (front s i) }
    ensures ends { (s : SessionScript) (i : ℕ) (sched : S.State) (dev : D.State) →
        session_on (front s i) S.steps (machine_of D.OrderedDev) sched dev ≡ moment s S.steps (machine_of D.OrderedDev) sched dev i }
    ensures next { (s : SessionScript) (i : ℕ) (sched : S.State) (dev : D.State) (e : CoreEvent) → slice_get (script_events s) i ≡ Some e →
        moment s S.steps (machine_of D.OrderedDev) sched dev (i + 1) ≡ happens (opening_of s) S.steps (machine_of D.OrderedDev) (moment s S.steps (machine_of D.OrderedDev) sched dev i) e }
    ensures last { (s : SessionScript) (i : ℕ) (sched : S.State) (dev : D.State) → length (script_events s) ≤ i →
        moment s S.steps (machine_of D.OrderedDev) sched dev i ≡ session_on s S.steps (machine_of D.OrderedDev) sched dev }
{}

/// A law, which does nothing when it is called: where a script's session stands at its end, what a power cut leaves of it is an end of
/// the script, whether its parts are still there or not; so its report and all that is promised of it can be made of a session that
/// goes on. The device is only looked at.
pub fn what_is_left_is_an_end<S: Scheduler, D: OrderedDev>(dev: &D)
    ensures { (s : SessionScript) (h : HostNow) (sched : S.State) (first : D.State) (left : SessionEnd) →
        IsMadeFor S.Scheduler D.OrderedDev (opening_of s) (start_of s) h s.header.queue (length s.programs) sched first → HasSetup s (D.seen first) →
        (session_on s S.steps (machine_of D.OrderedDev) sched first).dev ≡ D.state dev.now →
        IsEndOf S.steps (machine_of D.OrderedDev) (session_on s S.steps (machine_of D.OrderedDev) sched first) left → left.host.programs ≡ s.programs →
        IsEndOfScript s (ended S.steps (machine_of D.OrderedDev) (session_on s S.steps (machine_of D.OrderedDev) sched first)) left }
{
    hosts_of_sessions_take_their_steps::<S, D>();
    parts_of_sessions_fit::<S, D>();
    sessions_keep_order_to_the_medium::<S, D>(dev);
}

/// A law, which does nothing when it is called: what is told of moment i is what the report of the script with its first i events
/// alone says: the steps of the device, the answers, the flushes that were submitted, the transactions that were found, and the tree.
pub fn outcomes_are_reported()
    ensures { (s : SessionScript) (i : ℕ) (r : SessionReport) → IsCoreReport (front s i) r → Tells r (outcome_at s i) }
{}

/// A law, which does nothing when it is called: spans tell the outcomes of moments one behind the other, so one more moment makes the
/// last span longer by one where its outcome is the same, or else begins a span.
pub fn spans_go_on()
    ensures longer { (xs : List Span) (x : Span) → told_by (xs ++ record x { count = x.count + 1 } ∷ []) ≡ told_by (xs ++ x ∷ []) ++ x.outcome ∷ [] }
    ensures begun { (xs : List Span) (i : ℕ) (o : Outcome) → told_by (xs ++ record { first = i; count = 1; outcome = o } ∷ []) ≡ told_by xs ++ o ∷ [] }
    ensures all { (s : SessionScript) (i : ℕ) → outcomes_before s (i + 1) ≡ outcomes_before s i ++ outcome_at s i ∷ [] }
{}
