//! The laws, each a public function that does nothing when it is called.
ghost use Rattle.std.specs.Prelude.{◌≡◌, ◌≤◌, ◌+◌, ℕ, List, [], Some, length, slice_get};
ghost use Rattle.order_model.specs.declared.completion.Completion.{Completion};
ghost use Rattle.order_model.specs.declared.request.Request.{Request};
ghost use Rattle.order_model.specs.Carrying.{SchedSeen, Carries, AreAtIds};
ghost use Rattle.order_model.specs.Device.{Seen, completed, origin_ids};
ghost use Rattle.blk_base.specs.Members.{In};
ghost use Rattle.stack_core.specs.Headline.{KeepsOrder};
ghost use Rattle.stack_core.specs.RequestPath.{AreRequests};
ghost use Rattle.tree_model.specs.declared.call.Call.{Call};
ghost use Rattle.journal_ring.specs.LogRing.{LogRing};
ghost use Rattle.volume_steps.specs.Now.{VolumeNow};
ghost use Rattle.crash_laws.specs.LegalHistory.{of_thread};
ghost use Rattle.host_machine.specs.State.{Thread};
ghost use Rattle.host_machine.specs.runs.Runs.{Event};
ghost use Rattle.host_machine.specs.runs.laws.Written.{AreWritten};
ghost use Rattle.minix_host.specs.Runs.{IsOpenedVolume, HasEmptyJournal};
ghost use Rattle.minix_host.specs.Sessions.{Opening};
ghost use Rattle.call_sessions.specs.Sessions.{WriteBytes, host_behind};
ghost use Rattle.call_sessions.specs.promises.Legal.{events_in, program_of};
ghost use Rattle.session_core.specs.run.parts.Joined.{IsLawful, PartsFit};
ghost use Rattle.session_core.specs.run.parts.Whole.{IsWhole};

use order_model::OrderedDev;
use schedulers::reassign::Scheduler;

/// A law, which does nothing when it is called: whatever steps a host of a session took, its requests have their places as
/// ids and go to blocks that are there, a barrier keeps the order and a flush is a barrier; and there are no more than the
/// session may have.
pub fn hosts_number_their_requests()
    ensures requests { (s : Opening) (v : VolumeNow) (ring : LogRing) (limit : ℕ) (programs : List (List Call)) (events : List Event) →
        AreWritten s.format s.writers → IsOpenedVolume s v → HasEmptyJournal s ring limit → WriteBytes programs → s.geometry.zones + ring.places.past ≤ length s.image →
        AreRequests (length s.image) (host_behind s v ring limit programs events).journal.flush.requests }
    ensures few { (s : Opening) (v : VolumeNow) (ring : LogRing) (limit : ℕ) (programs : List (List Call)) (events : List Event) →
        AreWritten s.format s.writers → IsOpenedVolume s v → HasEmptyJournal s ring limit → WriteBytes programs → s.geometry.zones + ring.places.past ≤ length s.image →
        length (host_behind s v ring limit programs events).journal.flush.requests ≤ limit }
{}

/// A law, which does nothing when it is called: what every scheduler and every device keep, in whatever valid state.
pub fn parts_are_lawful<S: Scheduler, D: OrderedDev>()
    ensures carries { (sched : S.State) → S.valid sched → Carries (S.steps.seen sched) }
    ensures lawful { (dev : D.State) → D.valid dev → IsLawful (D.seen dev) }
{}

/// A law, which does nothing when it is called: where host, scheduler and device fit, what a power cut leaves is order-closed
/// for what the host submitted, and where a flush completed all before it is kept; and each completion that the host took,
/// the device sent.
pub fn joined_parts_keep_the_order()
    ensures order { (requests : List Request) (taken : List Completion) (p : SchedSeen) (d : Seen) → AreAtIds requests → Carries p → IsLawful d → PartsFit requests taken p d →
        KeepsOrder d.base requests d.surface (origin_ids d.took d.origins) (completed d) }
    ensures taken { (requests : List Request) (taken : List Completion) (p : SchedSeen) (d : Seen) (c : Completion) → PartsFit requests taken p d → In c taken → In c (completed d) }
{}

/// A law, which does nothing when it is called: in every session the entries of a thread that has no call left are its whole
/// program, with an end for every call.
pub fn ended_threads_did_their_programs()
    ensures { (s : Opening) (v : VolumeNow) (ring : LogRing) (limit : ℕ) (programs : List (List Call)) (events : List Event) (t : ℕ) →
        ((th : Thread Call) → slice_get (host_behind s v ring limit programs events).threads t ≡ Some th → th.calls ≡ []) →
        IsWhole (of_thread t (events_in (host_behind s v ring limit programs events).history)) (program_of programs t) }
{}
