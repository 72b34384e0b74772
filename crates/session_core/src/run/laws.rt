//! Which sessions can be run, and that the code's host stays in its session. The public functions do nothing when they are
//! called: each is a law, and its clauses say it.
ghost use Rattle.minix_layout.specs.declared.limits.TheConstants.{LEAST_JOURNAL, MOST_JOURNAL};
ghost use Rattle.std.specs.Prelude.{◌≡◌, ℕ, ◌+◌, ◌<◌, ◌≤◌, Bool, List, [], ◌∷◌, ◌++◌, length, Option};
ghost use Rattle.order_model.specs.declared.completion.Completion.{Completion};
ghost use Rattle.minix_layout.specs.declared.division.Geometry.{Geometry};
ghost use Rattle.minix_layout.specs.Geometry.{IsSound};
ghost use Rattle.tree_model.specs.declared.call.Call.{Call};
ghost use Rattle.page_cache.specs.Pages.{Cache};
ghost use Rattle.journal_ring.specs.Journal.{JournalRing};
ghost use Rattle.journal_ring.specs.Journal as new_ring;
ghost use Rattle.journal_ring.specs.LogRing.{LogRing};
ghost use Rattle.journal_ring.specs.running.Open.{quota};
ghost use Rattle.volume_steps.specs.Now.{VolumeNow};
ghost use Rattle.mount_make.specs.Made.{made_image, new_journal};
ghost use Rattle.host_machine.specs.Host as machine;
ghost use Rattle.host_machine.specs.runs.Runs.{Event};
ghost use Rattle.host_machine.specs.runs.Runs as runs;
ghost use Rattle.host_machine.specs.runs.laws.Written.{AreWritten};
ghost use Rattle.minix_host.specs.Runs.{IsNewOpening, IsOpenedVolume, HasEmptyJournal};
ghost use Rattle.minix_host.specs.Sessions.{Opening};
ghost use Rattle.host_core.specs.Now.{HostNow, with_host, host_made, model_now, setup_now};
ghost use Rattle.call_sessions.specs.Sessions.{WriteBytes, made_now, made_opening, call_over, KeepsCalls};
ghost use Rattle.session_core.specs.run.machine.MadeStart.{made_start, IsNew};
ghost use Rattle.session_core.specs.run.CodeHosts.{HasJournal, IsInSession};
ghost use Rattle.session_core.specs.run.Beginning.{IsMadeFor};

use crate::run::machine::sessions_can_start_on_made_images;
use call_sessions::sessions_of_calls_on_made_images;
use order_model::OrderedDev;
use schedulers::reassign::Scheduler;

/// A law, which does nothing when it is called: a host as code makes it is in the session of its new volume and journal,
/// with no step done; each step of its callers and actors, as code states it, is the session's next one; and all that the
/// session keeps is kept by it.
pub fn hosts_of_code_stay_in_session()
    ensures made { (s : Opening) (v : VolumeNow) (ps : Cache) (r : JournalRing) (programs : List (List Call)) →
        IsNewOpening s → v.geometry ≡ s.geometry → HasJournal s r.made_with → IsInSession s v r.ring r.limit programs [] (host_made v ps r programs) }
    ensures model { (s : Opening) (v : VolumeNow) (ring : LogRing) (limit : ℕ) (programs : List (List Call)) (events : List Event) (h : HostNow) →
        AreWritten s.format s.writers → IsOpenedVolume s v → HasEmptyJournal s ring limit → WriteBytes programs → IsInSession s v ring limit programs events h →
        (model_now h ≡ (call_over s).model) × (setup_now h ≡ (call_over s).setup) }
    ensures call { (s : Opening) (v : VolumeNow) (ring : LogRing) (limit : ℕ) (programs : List (List Call)) (events : List Event) (h new : HostNow) (full : Bool) (t : ℕ) →
        AreWritten s.format s.writers → IsOpenedVolume s v → HasEmptyJournal s ring limit → WriteBytes programs → IsInSession s v ring limit programs events h →
        new ≡ with_host h (machine.advance (model_now h) (setup_now h) full h.host t).host → IsInSession s v ring limit programs (events ++ runs.Call full t ∷ []) new }
    ensures commit { (s : Opening) (v : VolumeNow) (ring : LogRing) (limit : ℕ) (programs : List (List Call)) (events : List Event) (h new : HostNow) (full : Bool) →
        AreWritten s.format s.writers → IsOpenedVolume s v → HasEmptyJournal s ring limit → WriteBytes programs → IsInSession s v ring limit programs events h →
        new ≡ with_host h (machine.commit_step (model_now h) (setup_now h) full h.host).host → IsInSession s v ring limit programs (events ++ runs.Commit full ∷ []) new }
    ensures writeback { (s : Opening) (v : VolumeNow) (ring : LogRing) (limit : ℕ) (programs : List (List Call)) (events : List Event) (h new : HostNow) (full : Bool) (pick : ℕ) →
        AreWritten s.format s.writers → IsOpenedVolume s v → HasEmptyJournal s ring limit → WriteBytes programs → IsInSession s v ring limit programs events h →
        new ≡ with_host h (machine.writeback (model_now h) (setup_now h) full h.host pick).host → IsInSession s v ring limit programs (events ++ runs.WriteBack full pick ∷ []) new }
    ensures flush { (s : Opening) (v : VolumeNow) (ring : LogRing) (limit : ℕ) (programs : List (List Call)) (events : List Event) (h new : HostNow) (full : Bool) (next : Option Completion) →
        AreWritten s.format s.writers → IsOpenedVolume s v → HasEmptyJournal s ring limit → WriteBytes programs → IsInSession s v ring limit programs events h →
        new ≡ with_host h (machine.flush_step (model_now h) (setup_now h) full h.host next).host → IsInSession s v ring limit programs (events ++ runs.FlushStep full next ∷ []) new }
    ensures take { (s : Opening) (v : VolumeNow) (ring : LogRing) (limit : ℕ) (programs : List (List Call)) (events : List Event) (h new : HostNow) (next : Option Completion) →
        AreWritten s.format s.writers → IsOpenedVolume s v → HasEmptyJournal s ring limit → WriteBytes programs → IsInSession s v ring limit programs events h →
        new ≡ with_host h (machine.take_step (model_now h) (setup_now h) h.host next).host → IsInSession s v ring limit programs (events ++ runs.TakeStep next ∷ []) new }
    ensures kept { (s : Opening) (v : VolumeNow) (ring : LogRing) (limit : ℕ) (programs : List (List Call)) (events : List Event) (h : HostNow) →
        AreWritten s.format s.writers → IsOpenedVolume s v → HasEmptyJournal s ring limit → WriteBytes programs → IsInSession s v ring limit programs events h →
        KeepsCalls s h.host }
{}

/// A law, which does nothing when it is called: on an image that was made, a session of programs that write bytes can be
/// run: with the host that code makes on it, and with a scheduler and a device that are new.
pub fn sessions_on_made_images_can_be_run<S: Scheduler, D: OrderedDev>()
    ensures { (g : Geometry) (journal : ℕ) (wide : Bool) (limit capacity : ℕ) (ps : Cache) (programs : List (List Call)) (sched : S.State) (dev : D.State) →
        IsSound g → LEAST_JOURNAL ≤ journal → journal ≤ MOST_JOURNAL → limit + 2 < 4294967296 → WriteBytes programs →
        S.valid sched → D.valid dev → IsNew (made_image g journal wide) limit (S.steps.seen sched) (D.seen dev) →
        IsMadeFor S.Scheduler D.OrderedDev (made_opening g journal wide (quota (new_journal journal wide))) (made_start g journal limit capacity programs)
        (host_made (made_now g) ps (new_ring.made (new_journal journal wide) limit) programs) capacity (length programs) sched dev }
{
    sessions_of_calls_on_made_images();
    sessions_can_start_on_made_images();
}
