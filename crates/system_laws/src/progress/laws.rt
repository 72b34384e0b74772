//! Laws of what gets on in a session. Each does nothing when it is called.
ghost use Rattle.minix_layout.specs.declared.limits.TheConstants.{LEAST_JOURNAL, MOST_JOURNAL};
ghost use Rattle.std.specs.Prelude.{◌≡◌, ◌⊎◌, ◌≤◌, ◌<◌, ◌+◌, ◌++◌, ℕ, Bool, true, false, List, [], ◌∷◌, length, replicate, codes};
ghost use Rattle.minix_layout.specs.declared.division.Geometry.{Geometry};
ghost use Rattle.minix_layout.specs.Geometry.{IsSound, geometry_made};
ghost use Rattle.tree_model.specs.declared.call.Call.{Call};
ghost use Rattle.tree_model.specs.declared.call.Call.TheVariants.{Fbarrier, Fdatabarrier};
ghost use Rattle.tree_model.specs.declared.call.Reply.{Reply};
ghost use Rattle.tree_model.specs.declared.call.Reply.TheVariants as replies;
ghost use Rattle.flush_actor.specs.Part.{is_over};
ghost use Rattle.host_machine.specs.State.{Answered};
ghost use Rattle.host_machine.specs.runs.Runs.{Event, Commit};
ghost use Rattle.host_machine.specs.runs.Runs.Event.{Call as CallStep};
ghost use Rattle.call_sessions.specs.power_cuts.calls.CallImages.{made_session};
ghost use Rattle.call_sessions.specs.promises.Entries.{EndsAt};
ghost use Rattle.system_laws.specs.progress.Commits.{IsUnderWay, IsThrough, IsNext, IsInBarrier, IsBarrierWaiting, BarrierOutcome, host_moves};
ghost use Rattle.system_laws.specs.transaction_size.Sizes.{HaveLines};

use call_sessions::calls_of_scripts_write_bytes;
use minix_host::new_volumes_are_in_use;

/// A law, which only calls laws: wherever a session on an image that was made stands, with no cut and no failure reported, a
/// transaction that is under way comes to its commit block by steps of the commit actor alone, if the submission queue takes
/// what it submits; or the session comes to its limit on requests. So a commit waits for no caller, for no room in the log,
/// and for nothing that the device does.
pub fn transactions_under_way_are_committed()
    ensures { (g : Geometry) (journal : ℕ) (wide : Bool) (limit : ℕ) (programs : List (List Call)) (events : List Event) (k : ℕ) →
        IsSound g → LEAST_JOURNAL ≤ journal → journal ≤ MOST_JOURNAL → limit + journal < 4294967296 → HaveLines programs →
        is_over (made_session g journal wide limit programs events).journal.flush ≡ false →
        IsUnderWay (made_session g journal wide limit programs events) k →
        (n : ℕ) × IsThrough (made_session g journal wide limit programs (events ++ replicate n (Commit false))) k }
{
    new_volumes_are_in_use();
    calls_of_scripts_write_bytes();
}

/// A law, which only calls laws: from wherever a session on an image that was made stands, with no cut and no failure reported, a
/// barrier call that has begun is answered Ok by steps of its own thread and of the commit actor, if the submission queue takes
/// what they submit, and by none of the device. Or the session comes to its limit on requests; or the call waits for the
/// running transaction, which nobody may close while an earlier one holds a block that it changed.
pub fn barrier_calls_wait_for_held_blocks_alone()
    ensures { (g : Geometry) (journal : ℕ) (wide : Bool) (limit : ℕ) (programs : List (List Call)) (events : List Event) (t : ℕ) (c : Call) →
        IsSound g → LEAST_JOURNAL ≤ journal → journal ≤ MOST_JOURNAL → limit + journal < 4294967296 → HaveLines programs →
        is_over (made_session g journal wide limit programs events).journal.flush ≡ false →
        IsInBarrier (made_session g journal wide limit programs events) t c →
        BarrierOutcome (made_session g journal wide limit programs) replies.Ok events t c }
{
    new_volumes_are_in_use();
    calls_of_scripts_write_bytes();
}

/// A law, which only calls laws: from wherever a session on an image that was made stands, with no cut and no failure reported,
/// one step of its thread lets `fbarrier` or `fdatabarrier` begin, where that is the thread's next call, or ends it by what the
/// tree says.
pub fn barrier_calls_begin_at_once()
    ensures { (g : Geometry) (journal : ℕ) (wide : Bool) (limit : ℕ) (programs : List (List Call)) (events : List Event) (t : ℕ) (c : Call) (path : List ℕ) →
        IsSound g → LEAST_JOURNAL ≤ journal → journal ≤ MOST_JOURNAL → limit + journal < 4294967296 → HaveLines programs →
        is_over (made_session g journal wide limit programs events).journal.flush ≡ false →
        IsNext (made_session g journal wide limit programs events) t c → (c ≡ Fbarrier path) ⊎ (c ≡ Fdatabarrier path) →
        IsInBarrier (made_session g journal wide limit programs (events ++ CallStep false t ∷ [])) t c
        ⊎ ((reply : Reply) × EndsAt (made_session g journal wide limit programs (events ++ CallStep false t ∷ [])).history
        (length (made_session g journal wide limit programs events).history) t c (Answered reply)) }
{
    new_volumes_are_in_use();
    calls_of_scripts_write_bytes();
}

/// A law, which does nothing when it is called: there is a call that waits so, and it is answered. In a session of one thread,
/// whose call is `fbarrier /`, the thread's second step lets it wait for transaction 1, which is under way then; the commit
/// actor's next four steps and one of the thread answer it.
pub fn a_barrier_call_waits()
    ensures waits { IsBarrierWaiting (made_session (geometry_made 32 64 14) 128 false 100 ((Fbarrier (codes "/") ∷ []) ∷ []) (CallStep false 0 ∷ CallStep false 0 ∷ [])) 0 (Fbarrier (codes "/")) 1 }
    ensures under_way { IsUnderWay (made_session (geometry_made 32 64 14) 128 false 100 ((Fbarrier (codes "/") ∷ []) ∷ []) (CallStep false 0 ∷ CallStep false 0 ∷ [])) 1 }
    ensures answered { EndsAt (made_session (geometry_made 32 64 14) 128 false 100 ((Fbarrier (codes "/") ∷ []) ∷ []) ((CallStep false 0 ∷ CallStep false 0 ∷ []) ++ (host_moves 0 0 4 ++ CallStep false 0 ∷ []))).history 1 0 (Fbarrier (codes "/")) (Answered replies.Ok) }
{}
