//! Laws of the answers of barrier and sync calls, and of flushes.
ghost use Rattle.std.specs.Prelude.{◌≡◌, ℕ, ◌+◌, ◌≤◌, Bool, List, length, slice_get, Option, Some};
ghost use Rattle.host_machine.specs.Host.{advance, opened};
ghost use Rattle.host_machine.specs.Outcomes.{Done};
ghost use Rattle.host_machine.specs.State.{Begun, Thread, Host};
ghost use Rattle.flush_actor.specs.Part.{is_flush_note};
ghost use Rattle.journal_ring.specs.LogRing.{LogRing};
ghost use Rattle.host_machine.specs.laws.Contract.{Over, Contract, StandsAs};
ghost use Rattle.host_machine.specs.runs.Promises.{IsAnswered};
ghost use Rattle.host_machine.specs.runs.Runs.{Event, steps, FitsWords, HasBlocks};
ghost use Rattle.host_machine.specs.runs.Flushes.{count, is_sync_begin, AreWaitedFor};
ghost use Rattle.host_machine.specs.runs.laws.Kept.{IsSound};
ghost use Rattle.host_machine.specs.runs.laws.Written.{AreWritten};

/// A law, which does nothing when it is called: when a barrier or sync call is answered Ok, what it covers stands in the
/// submitted list at or before a barrier, or below a flush that was answered; that of a call which covers metadata has a
/// commit block between its Begin and its End as its cause. It has it whatever the host does after it.
pub fn answers_keep_their_promises<A, T, V, C, R>()
    ensures now { (o : Over A T V C R) (tree : V → Option T) (contract : Contract o (StandsAs tree)) (s : Host V C R) (full : Bool) (t : ℕ) (th : Thread C) (b : Begun) →
        IsSound contract s → slice_get s.threads t ≡ Some th → th.begun ≡ Some b → (advance o.model o.setup full s t).step ≡ Done o.model.ok →
        IsAnswered o (StandsAs tree) s (length s.history + 1) b }
    ensures later { (o : Over A T V C R) (tree : V → Option T) (contract : Contract o (StandsAs tree)) (s : Host V C R) (es : List Event) (e : ℕ) (b : Begun) →
        AreWritten o.format o.setup.writers → HasBlocks o (StandsAs tree) → IsSound contract s → FitsWords o s → b.begin ≤ length s.history →
        IsAnswered o (StandsAs tree) s e b → IsAnswered o (StandsAs tree) (steps o s es) e b }
{}

/// A law, which does nothing when it is called: at most as many flushes were submitted as sync calls have begun.
pub fn flushes_are_charged_to_sync_calls<A, T, V, C, R>()
    ensures charged { (o : Over A T V C R) (tree : V → Option T) (contract : Contract o (StandsAs tree)) (s : Host V C R) →
        IsSound contract s → count is_flush_note s.journal.flush.notes ≤ count (is_sync_begin o.model.kind) s.history }
{}

/// A law, which does nothing when it is called: whatever the volume is and whatever is done, each flush goes out while a
/// sync call that has begun waits for it, and no flush before it serves that call. So a barrier call costs none.
pub fn flushes_are_waited_for<A, T, V, C, R>()
    ensures waited { (o : Over A T V C R) (v : V) (ring : LogRing) (zones limit : ℕ) (programs : List (List C)) (events : List Event) →
        AreWaitedFor o.model.kind (steps o (opened o.model o.setup v ring zones limit programs)) events }
{}
