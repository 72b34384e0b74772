//! What the plain scheduler sends and accepts, in words of the requests that wait. Each is a law alone: the calls do nothing.
ghost use Rattle.std.specs.Prelude.{◌≡◌, ◌<◌, ◌↔◌, ℕ, Bool, true, Some};
ghost use Rattle.order_model.specs.declared.command.Command.{Command};
ghost use Rattle.schedulers.specs.reassign.MayLeave.{MayLeave, LeavesAsBarrier, HasNotLeft};
ghost use Rattle.schedulers.specs.reassign.Sched.{SchedState, seen_of, sched_steps};
ghost use Rattle.schedulers.specs.reassign.laws.Valid.{IsValid};
ghost use Rattle.schedulers.specs.epochs.Picks.{IsSentBy};

/// There is a pick for each request that may leave and for no other, in order of acceptance. What leaves carries
/// the barrier flag exactly where it is a flush or the last of an epoch that a barrier closed.
pub fn sends_what_may_leave()
    ensures may { (s : SchedState) (i : ℕ) → IsValid s → MayLeave (seen_of s) i ↔ ((pick : ℕ) × (flagged : Bool) × IsSentBy s pick i flagged) }
    ensures each { (s : SchedState) (pick : ℕ) (c : Command) → IsValid s → sched_steps.command s pick ≡ Some c → (i : ℕ) × (flagged : Bool) × IsSentBy s pick i flagged }
    ensures order { (s : SchedState) (p q i j : ℕ) (f g : Bool) → IsValid s → IsSentBy s p i f → IsSentBy s q j g → (p < q) ↔ (i < j) }
    ensures flag { (s : SchedState) (pick i : ℕ) (flagged : Bool) → IsValid s → IsSentBy s pick i flagged → (flagged ≡ true) ↔ LeavesAsBarrier (seen_of s) i }
{}

/// It is blocked exactly while the epoch of a barrier that it accepted, or a flush, has not left.
pub fn blocks_while_an_epoch_leaves()
    ensures { (s : SchedState) → IsValid s → ((seen_of s).blocked ≡ true) ↔ HasNotLeft (seen_of s) }
{}
