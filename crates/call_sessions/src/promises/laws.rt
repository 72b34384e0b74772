//! The laws, each a public function that does nothing when it is called.
ghost use Rattle.std.specs.Prelude.{◌≡◌, ℕ, ◌+◌, ◌≤◌, ◌++◌, false, true, List, length};
ghost use Rattle.tree_model.specs.declared.call.Call.{Call};
ghost use Rattle.tree_model.specs.declared.call.Reply.{Reply};
ghost use Rattle.volume_steps.specs.Now.{VolumeNow, room_of};
ghost use Rattle.tree_model.specs.Plain.{AreBornBefore};
ghost use Rattle.crash_laws.specs.LegalHistory.{is_turned_away, tree_up_to, IsLegal};
ghost use Rattle.journal_ring.specs.LogRing.{LogRing};
ghost use Rattle.flush_actor.specs.Kinds.{is_data};
ghost use Rattle.flush_actor.specs.Part.{has_stopped};
ghost use Rattle.host_machine.specs.State.{Answered, Host};
ghost use Rattle.host_machine.specs.Views.{tree_after};
ghost use Rattle.host_machine.specs.runs.Flushes.{AreWaitedFor};
ghost use Rattle.host_machine.specs.runs.Runs.{Event};
ghost use Rattle.host_machine.specs.runs.laws.Written.{AreWritten};
ghost use Rattle.minix_host.specs.Calls.{kind_of};
ghost use Rattle.minix_host.specs.Runs.{IsOpenedVolume, HasEmptyJournal};
ghost use Rattle.minix_host.specs.Sessions.{Opening};
ghost use Rattle.call_sessions.specs.Sessions.{WriteBytes, call_over, host_behind};
ghost use Rattle.call_sessions.specs.promises.Answers.{AnsweredAt, HasOkCause, KeepsPromises};
ghost use Rattle.call_sessions.specs.promises.Causes.{HadCome, HaveCauses};
ghost use Rattle.call_sessions.specs.promises.Entries.{EndsAt};
ghost use Rattle.call_sessions.specs.promises.Legal.{events_in, program_of, FollowsTree};
ghost use Rattle.call_sessions.specs.promises.Trees.{tree_at};

/// A law, which does nothing when it is called: in every session a call ends with Down only where the power's completion
/// was taken before the entry was made; with ReadOnly only by the first failed request of all that were taken by then; and
/// with SessionFull only where all requests that there may be were submitted by then. No call that only reads ends by the last two. Behind a Down every call ends so,
/// and behind a ReadOnly every one but those that only read ends so or by Down. No answer of a call reads as one of these.
pub fn calls_end_for_a_cause()
    ensures causes { (s : Opening) (v : VolumeNow) (ring : LogRing) (limit : ℕ) (programs : List (List Call)) (events : List Event) →
        HaveCauses kind_of limit (HadCome (host_behind s v ring limit programs) events) (host_behind s v ring limit programs events) }
    ensures answers { (s : Opening) (v : VolumeNow) (ring : LogRing) (limit : ℕ) (programs : List (List Call)) (events : List Event) (e t : ℕ) (c : Call) (r : Reply) →
        EndsAt (host_behind s v ring limit programs events).history e t c (Answered r) → is_turned_away r ≡ false }
{}

/// A law, which does nothing when it is called: in every session each flush goes out while a sync call that has begun waits
/// for it, and no flush before it serves that call.
pub fn flushes_of_sessions_are_waited_for()
    ensures { (s : Opening) (v : VolumeNow) (ring : LogRing) (limit : ℕ) (programs : List (List Call)) (events : List Event) →
        AreWaitedFor kind_of (host_behind s v ring limit programs) events }
{}

/// A law, which does nothing when it is called: once the host of a session took the completion of the power cut, or of a
/// request that failed, it submits nothing more, whatever its callers and its actors do.
pub fn nothing_is_submitted_behind_a_failure()
    ensures { (s : Opening) (v : VolumeNow) (ring : LogRing) (limit : ℕ) (programs : List (List Call)) (events more : List Event) →
        has_stopped (host_behind s v ring limit programs events).journal.flush.taken ≡ true →
        (host_behind s v ring limit programs (events ++ more)).journal.flush.requests ≡ (host_behind s v ring limit programs events).journal.flush.requests }
{}

/// A law, which does nothing when it is called: in a session that was opened on a plain volume of the root alone with an
/// empty journal behind it, each barrier or sync call that was answered Ok began at a place before, on the node to which its
/// path led there. What it covers survives every power cut or was superseded: of a barrier call where a write behind its
/// answer survived, of a sync call in any case, since all that it covers stands below a flush that was answered, if it
/// covers anything. Of a call that covers metadata a commit block was submitted whose transaction ends between the Begin
/// and the End.
pub fn answered_calls_keep_their_promises()
    ensures promises { (s : Opening) (v : VolumeNow) (ring : LogRing) (limit : ℕ) (programs : List (List Call)) (events : List Event) →
        AreWritten s.format s.writers → IsOpenedVolume s v → HasEmptyJournal s ring limit → WriteBytes programs →
        KeepsPromises s (host_behind s v ring limit programs events) }
    ensures causes { (s : Opening) (v : VolumeNow) (ring : LogRing) (limit : ℕ) (programs : List (List Call)) (events : List Event) (e t : ℕ) (c : Call) →
        AreWritten s.format s.writers → IsOpenedVolume s v → HasEmptyJournal s ring limit → WriteBytes programs →
        AnsweredAt (host_behind s v ring limit programs events) e t c → is_data (kind_of c) ≡ false →
        HasOkCause (host_behind s v ring limit programs events) e t c }
{}

/// A law, which does nothing when it is called: in such a session the entries of each thread are its program, in order, and
/// each answer is what the tree model says of the tree after the entries before; so the history is legal.
pub fn histories_follow_the_tree()
    ensures follows { (s : Opening) (v : VolumeNow) (ring : LogRing) (limit : ℕ) (programs : List (List Call)) (events : List Event) →
        AreWritten s.format s.writers → IsOpenedVolume s v → HasEmptyJournal s ring limit → WriteBytes programs →
        FollowsTree s programs (host_behind s v ring limit programs events) }
    ensures legal { (s : Opening) (v : VolumeNow) (ring : LogRing) (limit : ℕ) (programs : List (List Call)) (events : List Event) →
        AreWritten s.format s.writers → IsOpenedVolume s v → HasEmptyJournal s ring limit → WriteBytes programs →
        IsLegal (room_of s.geometry) s.tree.tree s.first (program_of programs) (events_in (host_behind s v ring limit programs events).history) }
{}

/// A law, which does nothing when it is called: three spellings of the trees of a session are one. The tree that its
/// history is read over, for which blocks are mapped and what they have, is that which the tree model has after the calls
/// that were answered; and so is the tree of the events, over which `crash_laws` says what is legal.
pub fn trees_of_sessions_are_one()
    ensures told { (s : Opening) → AreBornBefore (s.first + 1) s.tree.tree → (h : Host VolumeNow Call Reply) (n : ℕ) → (tree_after (call_over s).model h.history n).tree ≡ tree_at s h n }
    ensures legal { (s : Opening) (v : VolumeNow) (ring : LogRing) (limit : ℕ) (programs : List (List Call)) (events : List Event) (n : ℕ) →
        let h = host_behind s v ring limit programs events in
        n ≤ length h.history → tree_up_to (room_of s.geometry) s.tree.tree s.first (events_in h.history) n ≡ tree_at s h n }
{}
