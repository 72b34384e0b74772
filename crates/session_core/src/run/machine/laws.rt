//! The laws, each a public function that does nothing when it is called.
ghost use Rattle.std.specs.Prelude.{◌≡◌, ◌≤◌, ◌⊎◌, ◌++◌, ℕ, Bool, true, false, List, [], Option};
ghost use Rattle.blk_base.specs.Members.{In};
ghost use Rattle.order_model.specs.declared.completion.Completion.{Completion};
ghost use Rattle.minix_layout.specs.declared.division.Geometry.{Geometry};
ghost use Rattle.order_model.specs.Carrying.{SchedSeen, AreAtIds, Carries, Fits};
ghost use Rattle.order_model.specs.Device.{Seen, completed, origin_ids};
ghost use Rattle.order_model.specs.Machine.{machine_of};
ghost use Rattle.order_model.specs.Steps.{IsMadeAs};
ghost use Rattle.stack_core.specs.Core.{times};
ghost use Rattle.stack_core.specs.Headline.{KeepsOrder};
ghost use Rattle.line_grammar.specs.declared.events.event.CoreEvent.{CoreEvent};
ghost use Rattle.tree_model.specs.declared.call.Call.{Call};
ghost use Rattle.mount_make.specs.Made.{made_image};
ghost use Rattle.host_machine.specs.Host as machine;
ghost use Rattle.host_machine.specs.Model.{Model};
ghost use Rattle.host_machine.specs.State.{Host, Setup};
ghost use Rattle.host_machine.specs.runs.Runs.{steps};
ghost use Rattle.host_machine.specs.runs.laws.Written.{AreWritten};
ghost use Rattle.minix_host.specs.Runs.{IsOpenedVolume, HasEmptyJournal};
ghost use Rattle.minix_host.specs.Sessions.{Opening};
ghost use Rattle.call_sessions.specs.Sessions.{WriteBytes, made_opening, call_over, host_behind, KeepsCalls};
ghost use Rattle.session_core.specs.run.machine.Machine.{SessionState, Start, opened_session, run_events, host_events, repeated};
ghost use Rattle.session_core.specs.run.machine.Fits.{SessionFits, CanStart, IsDevice, SubmitsOne};
ghost use Rattle.session_core.specs.run.machine.MadeStart.{made_start, IsNew};

use order_model::{OrderedDev, keeps_order_to_the_medium};
use schedulers::reassign::Scheduler;

/// A law, which does nothing when it is called: in a session on a volume and journal that can be opened, whatever events
/// happen, the parts fit on any scheduler and any device: the host's requests have their places as ids and go to blocks
/// that are there; what was accepted is a prefix of what was submitted, what the device took one of what was sent out, and
/// what the host took one of what the device sent; no queue holds more than it can; and what the device was made with stays.
pub fn parts_of_sessions_fit<S: Scheduler, D: OrderedDev>()
    ensures device { IsDevice (machine_of D.OrderedDev) D.valid }
    ensures fit { (s : Opening) (b : Start) (sched : S.State) (dev : D.State) (es : List CoreEvent) →
        AreWritten s.format s.writers → IsOpenedVolume s b.volume → HasEmptyJournal s b.ring b.limit → WriteBytes b.programs →
        S.valid sched → D.valid dev → CanStart s b (S.steps.seen sched) (D.seen dev) →
        SessionFits S.steps (machine_of D.OrderedDev) (run_events s S.steps (machine_of D.OrderedDev) (opened_session s b sched dev) es) }
    ensures valid { (s : Opening) (b : Start) (sched : S.State) (dev : D.State) (es : List CoreEvent) →
        AreWritten s.format s.writers → IsOpenedVolume s b.volume → HasEmptyJournal s b.ring b.limit → WriteBytes b.programs →
        S.valid sched → D.valid dev → CanStart s b (S.steps.seen sched) (D.seen dev) →
        let r = run_events s S.steps (machine_of D.OrderedDev) (opened_session s b sched dev) es in S.valid r.sched × D.valid r.dev × ((D.seen r.dev).base ≡ s.image) }
    ensures made { (s : Opening) (b : Start) (sched : S.State) (dev : D.State) (es : List CoreEvent) →
        AreWritten s.format s.writers → IsOpenedVolume s b.volume → HasEmptyJournal s b.ring b.limit → WriteBytes b.programs →
        S.valid sched → D.valid dev → CanStart s b (S.steps.seen sched) (D.seen dev) →
        IsMadeAs (D.seen dev) (D.seen (run_events s S.steps (machine_of D.OrderedDev) (opened_session s b sched dev) es).dev) }
{}

/// A law, which does nothing when it is called: the host of a session takes just the steps that its events say, each with
/// whether the submission queue was full; so all that is kept by whatever steps of the host is kept by every session.
pub fn hosts_of_sessions_take_their_steps<S: Scheduler, D: OrderedDev>()
    ensures steps { (s : Opening) (r : SessionState S.State D.State) (es : List CoreEvent) →
        (run_events s S.steps (machine_of D.OrderedDev) r es).host ≡ steps (call_over s) r.host (host_events s S.steps (machine_of D.OrderedDev) r es) }
    ensures kept { (s : Opening) (b : Start) (sched : S.State) (dev : D.State) (es : List CoreEvent) →
        AreWritten s.format s.writers → IsOpenedVolume s b.volume → HasEmptyJournal s b.ring b.limit → WriteBytes b.programs →
        KeepsCalls s (run_events s S.steps (machine_of D.OrderedDev) (opened_session s b sched dev) es).host }
{}

/// A law, which does nothing when it is called: in such a session the commands that the device took carry the requests
/// that the host submitted; so what a power cut leaves is order-closed for these requests, and where a flush completed all
/// before it is kept; and each completion that the host took, the device sent.
pub fn sessions_keep_order_to_the_medium<S: Scheduler, D: OrderedDev>(dev: &D)
    ensures carries { (s : Opening) (b : Start) (sched : S.State) (first : D.State) (es : List CoreEvent) →
        AreWritten s.format s.writers → IsOpenedVolume s b.volume → HasEmptyJournal s b.ring b.limit → WriteBytes b.programs →
        S.valid sched → D.valid first → CanStart s b (S.steps.seen sched) (D.seen first) →
        let r = run_events s S.steps (machine_of D.OrderedDev) (opened_session s b sched first) es in
        AreAtIds r.host.journal.flush.requests × Carries (S.steps.seen r.sched) × Fits r.host.journal.flush.requests (S.steps.seen r.sched) (D.seen r.dev) }
    ensures order { (s : Opening) (b : Start) (sched : S.State) (first : D.State) (es : List CoreEvent) →
        AreWritten s.format s.writers → IsOpenedVolume s b.volume → HasEmptyJournal s b.ring b.limit → WriteBytes b.programs →
        S.valid sched → D.valid first → CanStart s b (S.steps.seen sched) (D.seen first) →
        let r = run_events s S.steps (machine_of D.OrderedDev) (opened_session s b sched first) es in
        r.dev ≡ D.state dev.now →
        KeepsOrder s.image r.host.journal.flush.requests (D.seen r.dev).surface (origin_ids (D.seen r.dev).took (D.seen r.dev).origins) (completed (D.seen r.dev)) }
    ensures taken { (s : Opening) (b : Start) (sched : S.State) (first : D.State) (es : List CoreEvent) (c : Completion) →
        AreWritten s.format s.writers → IsOpenedVolume s b.volume → HasEmptyJournal s b.ring b.limit → WriteBytes b.programs →
        S.valid sched → D.valid first → CanStart s b (S.steps.seen sched) (D.seen first) →
        let r = run_events s S.steps (machine_of D.OrderedDev) (opened_session s b sched first) es in
        In c r.host.journal.flush.taken → In c (completed (D.seen r.dev)) }
{
    keeps_order_to_the_medium(dev);
}

/// A law, which does nothing when it is called: a session can start on an image that was made, with a scheduler that accepted
/// nothing and a device that took nothing, which allow as many requests as the session has.
pub fn sessions_can_start_on_made_images()
    ensures { (g : Geometry) (journal : ℕ) (wide : Bool) (quota limit capacity : ℕ) (programs : List (List Call)) (p : SchedSeen) (d : Seen) → 1 ≤ journal →
        IsNew (made_image g journal wide) limit p d → CanStart (made_opening g journal wide quota) (made_start g journal limit capacity programs) p d }
{}

/// A law, which does nothing when it is called: whether the submission queue is full matters to a step of the host only
/// where it would submit a request. So code that met no full queue took the step of the queue as it is.
pub fn full_queues_stop_requests_alone<T, V, C, R>()
    ensures call { (m : Model T V C R) (u : Setup) (h : Host V C R) (t : ℕ) →
        (machine.advance m u true h t ≡ machine.advance m u false h t) ⊎ SubmitsOne h (machine.advance m u false h t).host }
    ensures commit { (m : Model T V C R) (u : Setup) (h : Host V C R) →
        (machine.commit_step m u true h ≡ machine.commit_step m u false h) ⊎ SubmitsOne h (machine.commit_step m u false h).host }
    ensures writeback { (m : Model T V C R) (u : Setup) (h : Host V C R) (pick : ℕ) →
        (machine.writeback m u true h pick ≡ machine.writeback m u false h pick) ⊎ SubmitsOne h (machine.writeback m u false h pick).host }
    ensures flush { (m : Model T V C R) (u : Setup) (h : Host V C R) (next : Option Completion) →
        (machine.flush_step m u true h next ≡ machine.flush_step m u false h next) ⊎ SubmitsOne h (machine.flush_step m u false h next).host }
{}

/// A law, which does nothing when it is called: events happen one after the other, also those of lines that are repeated.
pub fn event_lines_go_in_order<S: Scheduler, D: OrderedDev>()
    ensures one_behind_another { (s : Opening) (r : SessionState S.State D.State) (first more : List CoreEvent) →
        run_events s S.steps (machine_of D.OrderedDev) r (first ++ more) ≡ run_events s S.steps (machine_of D.OrderedDev) (run_events s S.steps (machine_of D.OrderedDev) r first) more }
    ensures repeats { (s : Opening) (r : SessionState S.State D.State) (n : ℕ) (es : List CoreEvent) →
        run_events s S.steps (machine_of D.OrderedDev) r (repeated n es) ≡ times n (λ x. run_events s S.steps (machine_of D.OrderedDev) x es) r }
{}
