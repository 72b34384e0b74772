//! What the elevator sends, in words of the requests that wait. Each is a law alone: the calls do nothing.
ghost use Rattle.std.specs.Prelude.{◌≡◌, ℕ, ◌+◌, ◌<◌, ◌≤◌, ◌↔◌, ◌++◌, ◌∷◌, true, List, [], length, Some, None, slice_get};
ghost use Rattle.order_model.specs.declared.command.Command.{Command};
ghost use Rattle.order_model.specs.declared.part.Part.{Part};
ghost use Rattle.order_model.specs.declared.request.Request.{Request};
ghost use Rattle.order_model.specs.OrderClosed.{IsPutOf};
ghost use Rattle.schedulers.specs.reassign.MayLeave.{MayLeave, HasNotLeft};
ghost use Rattle.schedulers.specs.elevator.Elevator.{ElevatorState, accepted, dispatched, seen_of, elevator_steps};
ghost use Rattle.schedulers.specs.elevator.Picks.{IsSentBy, IsPartFor, CanJoin};
ghost use Rattle.schedulers.specs.elevator.laws.List.{Meets};
ghost use Rattle.schedulers.specs.elevator.laws.Valid.{IsElevator};

/// There is a pick for each request that may leave and for no other, each before those that the head meets later.
pub fn picks_what_may_leave()
    ensures may { (s : ElevatorState) (i : ℕ) → IsElevator s → MayLeave (seen_of s) i ↔ ((pick : ℕ) × (c : Command) × IsSentBy s pick i c) }
    ensures each { (s : ElevatorState) (pick : ℕ) (c : Command) → IsElevator s → elevator_steps.command s pick ≡ Some c → (i : ℕ) × IsSentBy s pick i c }
    ensures order { (s : ElevatorState) (p q i j a b : ℕ) (c d : Command) → IsElevator s → IsSentBy s p i c → IsSentBy s q j d → IsPutOf s.accepted i a → IsPutOf s.accepted j b → (p < q) ↔ Meets s.head a b }
{}

/// A command has puts of consecutive blocks and of one class, from the put that was picked on: each such put that
/// may leave joins as long as there is one for the next block, up to 16 in all, and nothing else does.
pub fn gathers_puts_of_consecutive_blocks()
    ensures parts { (s : ElevatorState) (pick i block k : ℕ) (c : Command) (p : Part) → IsElevator s → (sent : IsSentBy s pick i c) → IsPutOf s.accepted i block → slice_get c.parts k ≡ Some p →
        (j : ℕ) × IsPartFor s.accepted j p × CanJoin (seen_of s) sent.request.ordered (block + k) j }
    ensures joins { (s : ElevatorState) (pick i block k : ℕ) (c : Command) → IsElevator s → (sent : IsSentBy s pick i c) → IsPutOf s.accepted i block → k < 16 →
        (k < length c.parts) ↔ ((m : ℕ) → m ≤ k → (j : ℕ) × CanJoin (seen_of s) sent.request.ordered (block + m) j) }
    ensures few { (s : ElevatorState) (pick : ℕ) (c : Command) → IsElevator s → elevator_steps.command s pick ≡ Some c → length c.parts ≤ 16 }
{}

/// The head goes to the block after the last part that is sent. A flush, which has none, a pick for which no command
/// comes, and an acceptance leave it where it is.
pub fn head_goes_behind_the_last_part()
    ensures moves { (s : ElevatorState) (pick : ℕ) (c : Command) (front : List Part) (last : Part) → elevator_steps.command s pick ≡ Some c → c.parts ≡ front ++ last ∷ [] → (dispatched s pick).head ≡ last.block + 1 }
    ensures flush { (s : ElevatorState) (pick id : ℕ) (c : Command) → IsElevator s → elevator_steps.command s pick ≡ Some c → c.flush ≡ Some id → (dispatched s pick).head ≡ s.head }
    ensures none { (s : ElevatorState) (pick : ℕ) → elevator_steps.command s pick ≡ None → (dispatched s pick).head ≡ s.head }
    ensures accepts { (s : ElevatorState) (r : Request) → (accepted s r).head ≡ s.head }
{}

/// It is blocked exactly while the epoch of a barrier that it accepted, or a flush, has not left; and a command is a
/// barrier exactly where the last of it leaves with that command.
pub fn blocks_while_an_epoch_leaves()
    ensures blocked { (s : ElevatorState) → IsElevator s → ((seen_of s).blocked ≡ true) ↔ HasNotLeft (seen_of s) }
    ensures barrier { (s : ElevatorState) (pick : ℕ) (c : Command) → IsElevator s → elevator_steps.command s pick ≡ Some c → (c.barrier ≡ true) ↔ (HasNotLeft (seen_of s) × (HasNotLeft (seen_of (dispatched s pick)) → ⊥)) }
{}
