//! Laws of what sessions come to. Each does nothing when it is called.
ghost use Rattle.minix_layout.specs.declared.limits.TheConstants.{LEAST_JOURNAL, MOST_JOURNAL};
ghost use Rattle.std.specs.Prelude.{◌≡◌, ◌≤◌, ◌<◌, ◌+◌, ◌^◌, ℕ, Bool, true, List, length, None};
ghost use Rattle.minix_layout.specs.declared.division.Geometry.{Geometry};
ghost use Rattle.minix_layout.specs.Geometry.{IsSound, geometry_made};
ghost use Rattle.mount_make.specs.Made.{made_image};
ghost use Rattle.line_grammar.specs.declared.events.event.CoreEvent.{CoreEvent};
ghost use Rattle.order_model.specs.Machine.{machine_of};
ghost use Rattle.tree_model.specs.declared.call.Call.{Call};
ghost use Rattle.journal_ring.specs.running.Running.{fresh, fits_in};
ghost use Rattle.call_sessions.specs.power_cuts.calls.CallImages.{opening_on};
ghost use Rattle.session_grammar.specs.declared.session_script.SessionScript.{SessionScript};
ghost use Rattle.session_grammar.specs.WellFormed.{IsWellFormed};
ghost use Rattle.session_core.specs.run.machine.MadeStart.{IsNew};
ghost use Rattle.session_core.specs.CallEnds.{RanFreely};
ghost use Rattle.session_core.specs.Core.{EndState};
ghost use Rattle.session_core.specs.Headline.{HeadlineOn};
ghost use Rattle.session_core.specs.declared.report.SessionReport.{SessionReport};
ghost use Rattle.system_laws.specs.answered.Rounds.{HaveEnded, RoundsFinish, session_host};
ghost use Rattle.system_laws.specs.answered.Scripts.{AreAnswered, RoundsEnd};
ghost use Rattle.system_laws.specs.transaction_size.Sizes.{HaveLines};

use call_sessions::calls_of_scripts_write_bytes;
use device_epochs::EpochDevice;
use flog_device::FlogDevice;
use minix_host::new_volumes_are_in_use;
use order_model::OrderedDev;
use schedulers::elevator::Elevator;
use schedulers::epochs::Sched;
use schedulers::reassign::Scheduler;
use session_core::calls_end_as_their_script_says;
use session_core::run::parts::ended_threads_did_their_programs;

/// A law, which only calls laws: no session gets stuck. From wherever a session on an image that was made stands, on any
/// scheduler and on any device that stays on and of which nothing fails, rounds enough leave no thread a call, and more rounds
/// leave it so; also where the session has as many requests as it may have, which ends calls by `session full`. In a round each
/// thread takes a step, and then each other part. Scheduler and queues hold a request or more.
///
/// `room` says that an empty transaction fits any call, where the map of zones has at most twelve blocks, as that of each volume
/// that is made has (`few_blocks`).
pub fn sessions_never_get_stuck<S: Scheduler, D: OrderedDev>()
    ensures rounds { (g : Geometry) (journal : ℕ) (wide : Bool) (limit capacity : ℕ) (programs : List (List Call)) (sched : S.State) (dev : D.State) (events : List CoreEvent) →
        IsSound g → LEAST_JOURNAL ≤ journal → journal ≤ MOST_JOURNAL → limit + journal < 4294967296 → HaveLines programs →
        1 ≤ capacity → S.valid sched → 1 ≤ (S.steps.seen sched).capacity → D.valid dev → D.stays_on dev → D.sound dev → IsNew (made_image g journal wide) limit (S.steps.seen sched) (D.seen dev) →
        RoundsFinish (session_host g journal wide limit capacity programs S.steps (machine_of D.OrderedDev) sched dev) events (length programs) }
    ensures room { (g : Geometry) (journal : ℕ) (wide : Bool) → LEAST_JOURNAL ≤ journal → g.zmap ≤ 12 → (n : ℕ) →
        fits_in (opening_on g journal wide).writers g.zmap (opening_on g journal wide).quota (fresh n) ≡ true }
    ensures few_blocks { (inodes zones width : ℕ) → zones < 2 ^ 16 → (geometry_made inodes zones width).zmap ≤ 12 }
{
    new_volumes_are_in_use();
    calls_of_scripts_write_bytes();
}

/// A law, which only calls laws: with rounds enough behind its events, a script that has neither a line `cut` nor a line `fail`
/// ends with no thread that has a call left. It is of the scheduler and the device that the script says. Where it ends so below
/// its limit, each thread did its whole program, and each call ended with the reply that the tree of calls has for it.
pub fn scripts_come_to_their_end()
    ensures rounds { (s : SessionScript) → IsWellFormed s → s.header.cut ≡ None → s.header.fail ≡ None → RoundsEnd s }
    ensures answers { (s : SessionScript) (end : EndState) (r : SessionReport) → HeadlineOn s end r → RanFreely s end → HaveEnded end.host → AreAnswered s end }
{
    calls_end_as_their_script_says();
    ended_threads_did_their_programs();
    sessions_never_get_stuck::<Sched, EpochDevice>();
    sessions_never_get_stuck::<Elevator, EpochDevice>();
    sessions_never_get_stuck::<Sched, FlogDevice>();
    sessions_never_get_stuck::<Elevator, FlogDevice>();
}
