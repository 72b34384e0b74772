//! The laws, each a public function that does nothing when it is called.
ghost use Rattle.minix_layout.specs.declared.limits.TheConstants.{LEAST_JOURNAL, MOST_JOURNAL};
ghost use Rattle.std.specs.Prelude.{◌≡◌, ◌<◌, ◌≤◌, ◌+◌, ℕ, Bool, List, length, slice_get, Option, Some};
ghost use Rattle.minix_layout.specs.declared.division.Geometry.{Geometry};
ghost use Rattle.minix_layout.specs.Geometry.{IsSound};
ghost use Rattle.order_model.specs.declared.completion.Completion.{Completion};
ghost use Rattle.tree_model.specs.declared.call.Call.{Call};
ghost use Rattle.tree_model.specs.declared.call.Reply.{Reply};
ghost use Rattle.tree_model.specs.declared.call.Reply.TheVariants as replies;
ghost use Rattle.journal_ring.specs.LogRing.{LogRing};
ghost use Rattle.volume_steps.specs.Now.{VolumeNow};
ghost use Rattle.line_grammar.specs.calls.WellFormed.{IsWellFormed};
ghost use Rattle.host_machine.specs.Host as machine;
ghost use Rattle.host_machine.specs.Outcomes.{Done};
ghost use Rattle.host_machine.specs.State.{Begun, Thread, Host};
ghost use Rattle.host_machine.specs.runs.Promises.{IsAnswered};
ghost use Rattle.host_machine.specs.runs.Runs.{Event, steps};
ghost use Rattle.host_machine.specs.runs.laws.Written.{AreWritten};
ghost use Rattle.minix_host.specs.ByteCalls.{ByteCall, HasBytes};
ghost use Rattle.minix_host.specs.Runs.{IsOpenedVolume, HasEmptyJournal};
ghost use Rattle.minix_host.specs.Sessions.{Opening, over, Stands};
ghost use Rattle.call_sessions.specs.made.MadeSessions.{made_now, made_opening, made_ring};
ghost use Rattle.call_sessions.specs.CallsAs.{stepped_as, turned_as};
ghost use Rattle.call_sessions.specs.Sessions.{WriteBytes, plain_call, plain_host, call_over, host_behind, KeepsCalls};

use minix_host::new_volumes_are_in_use;

/// A law, which does nothing when it is called: each step on a host whose calls are seen without their proofs is the step
/// on the host, seen without them, and answers the same; and so is each list of steps.
pub fn forgetting_proofs_changes_no_step()
    ensures call { (s : Opening) (full : Bool) (h : Host VolumeNow ByteCall Reply) (t : ℕ) →
        machine.advance (call_over s).model (call_over s).setup full (plain_host h) t ≡ stepped_as plain_call (machine.advance (over s).model (over s).setup full h t) }
    ensures commit { (s : Opening) (full : Bool) (h : Host VolumeNow ByteCall Reply) →
        machine.commit_step (call_over s).model (call_over s).setup full (plain_host h) ≡ turned_as plain_call (machine.commit_step (over s).model (over s).setup full h) }
    ensures writeback { (s : Opening) (full : Bool) (h : Host VolumeNow ByteCall Reply) (pick : ℕ) →
        machine.writeback (call_over s).model (call_over s).setup full (plain_host h) pick ≡ turned_as plain_call (machine.writeback (over s).model (over s).setup full h pick) }
    ensures flush { (s : Opening) (full : Bool) (h : Host VolumeNow ByteCall Reply) (next : Option Completion) →
        machine.flush_step (call_over s).model (call_over s).setup full (plain_host h) next ≡ turned_as plain_call (machine.flush_step (over s).model (over s).setup full h next) }
    ensures take { (s : Opening) (h : Host VolumeNow ByteCall Reply) (next : Option Completion) →
        machine.take_step (call_over s).model (call_over s).setup (plain_host h) next ≡ turned_as plain_call (machine.take_step (over s).model (over s).setup h next) }
    ensures run { (s : Opening) (h : Host VolumeNow ByteCall Reply) (events : List Event) →
        steps (call_over s) (plain_host h) events ≡ plain_host (steps (over s) h events) }
{}

/// A law, which does nothing when it is called: a call that is read from a script writes bytes.
pub fn calls_of_scripts_write_bytes()
    ensures { (c : Call) → IsWellFormed c → HasBytes c }
{}

/// A law, which does nothing when it is called: whatever callers and actors do in a session whose programs write bytes,
/// on a plain volume of the root alone with an empty journal behind it, the submitted list keeps all order rules, a power
/// cut leaves the tree after a prefix of the calls, with all that answered barrier and sync calls promise, and at most as
/// many flushes were submitted as sync calls have begun. What an answered call covers is held whatever the host does
/// after it.
pub fn sessions_of_calls_keep_rules_and_trees()
    ensures kept { (s : Opening) (v : VolumeNow) (ring : LogRing) (limit : ℕ) (programs : List (List Call)) (events : List Event) →
        AreWritten s.format s.writers → IsOpenedVolume s v → HasEmptyJournal s ring limit → WriteBytes programs →
        KeepsCalls s (host_behind s v ring limit programs events) }
    ensures answered { (s : Opening) (v : VolumeNow) (ring : LogRing) (limit : ℕ) (programs : List (List Call)) (events more : List Event)
        (full : Bool) (t : ℕ) (th : Thread Call) (b : Begun) →
        AreWritten s.format s.writers → IsOpenedVolume s v → HasEmptyJournal s ring limit → WriteBytes programs →
        slice_get (host_behind s v ring limit programs events).threads t ≡ Some th → th.begun ≡ Some b →
        (machine.advance (call_over s).model (call_over s).setup full (host_behind s v ring limit programs events) t).step ≡ Done replies.Ok →
        IsAnswered (call_over s) (Stands s) (steps (call_over s) (host_behind s v ring limit programs events) more)
        (length (host_behind s v ring limit programs events).history + 1) b }
{}

/// A law, which does nothing when it is called: a session on an image that was made asks for nothing but sizes and for
/// programs that write bytes.
pub fn sessions_of_calls_on_made_images()
    ensures volume { (g : Geometry) (journal : ℕ) (wide : Bool) (quota : ℕ) → IsSound g → LEAST_JOURNAL ≤ journal → journal ≤ MOST_JOURNAL → IsOpenedVolume (made_opening g journal wide quota) (made_now g) }
    ensures journal { (g : Geometry) (journal : ℕ) (wide : Bool) (quota limit : ℕ) → IsSound g → LEAST_JOURNAL ≤ journal → journal ≤ MOST_JOURNAL → limit + 2 < 4294967296 →
        HasEmptyJournal (made_opening g journal wide quota) (made_ring journal) limit × AreWritten (made_opening g journal wide quota).format (made_opening g journal wide quota).writers }
    ensures kept { (g : Geometry) (journal : ℕ) (wide : Bool) (quota limit : ℕ) (programs : List (List Call)) (events : List Event) →
        IsSound g → LEAST_JOURNAL ≤ journal → journal ≤ MOST_JOURNAL → limit + 2 < 4294967296 → WriteBytes programs →
        KeepsCalls (made_opening g journal wide quota) (host_behind (made_opening g journal wide quota) (made_now g) (made_ring journal) limit programs events) }
{
    new_volumes_are_in_use();
}
