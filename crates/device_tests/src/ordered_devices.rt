//! Laws of every ordered device, in words of what is seen of it: once a transfer failed, before anything was asked of it, and
//! which epoch a part has. Each does nothing when it is called.
ghost use Rattle.std.specs.Prelude.{◌≡◌, ◌⊎◌, ◌<◌, ◌≤◌, ◌+◌, ◌++◌, ℕ, true, false, List, [], ◌∷◌, length, Option, Some, None, slice_get};
ghost use Rattle.blk_base.specs.Members.{In};
ghost use Rattle.order_model.specs.declared.command.Command.{Command};
ghost use Rattle.order_model.specs.declared.completion.Completion.{Completion};
ghost use Rattle.order_model.specs.declared.completion.Completion.TheVariants.{Failed, Cut};
ghost use Rattle.order_model.specs.Received.{first_part, ids_of, epoch_of, IsBarrier};
ghost use Rattle.order_model.specs.Device.{IsMoved, IsPartKept};
ghost use Rattle.order_model.specs.Steps.{FailsNext};
ghost use Rattle.stack_core.specs.Fresh.{IsFresh};
ghost use Rattle.device_tests.specs.Writing.{after_writes};

use order_model::OrderedDev;

/// A law, which does nothing when it is called: whether or not a transfer failed, a device takes commands exactly while its
/// power is on and fewer wait than its queue has places. A command that was transferred, or whose transfer failed, waits no more,
/// so it leaves a place.
pub fn failed_devices_take_commands<D: OrderedDev>()
    ensures room { (s : D.State) → D.valid s → (D.seen s).off ≡ false →
        length (D.seen s).took < (D.seen s).depth + (D.seen s).transfers_made → D.has_room s ≡ true }
    ensures full { (s : D.State) → D.valid s →
        (D.seen s).depth + (D.seen s).transfers_made ≤ length (D.seen s).took → D.has_room s ≡ false }
    ensures place { (s : D.State) (pick : ℕ) → D.valid s → pick < D.can_transfer s →
        length (D.seen s).took ≤ (D.seen s).depth + (D.seen s).transfers_made →
        (D.seen (D.transferred s pick)).off ≡ false → D.has_room (D.transferred s pick) ≡ true }
{}

/// A law, which does nothing when it is called: whether or not a transfer failed, what was transferred before still goes to the
/// medium. While a part of it is not there and the power is on, something can be written; and where the power stays on, some
/// number of writes, each the first of those that may be next, brings all of it there.
pub fn failed_devices_write_what_they_have<D: OrderedDev>()
    ensures next { (s : D.State) (place : ℕ) → D.valid s → (D.seen s).off ≡ false → IsMoved (D.seen s) place →
        (IsPartKept (D.seen s) place → ⊥) → 0 < D.can_persist s }
    ensures all { (s : D.State) → D.valid s → D.stays_on s →
        (n : ℕ) × ((place : ℕ) → IsMoved (D.seen s) place → IsPartKept (D.seen (after_writes D.persisted n s)) place) }
{}

/// A law, which does nothing when it is called: a transfer that fails moves nothing and tells each id of its command as failed,
/// behind the completions that wait. These are handed out as ever, the first one first. From then on no command moves, and a
/// write brings no completion but that of the power cut.
pub fn failed_devices_tell_what_they_did<D: OrderedDev>()
    ensures told { (s : D.State) (pick : ℕ) → D.valid s → pick < D.can_transfer s → FailsNext (D.seen s) →
        (k : ℕ) × (c : Command) × (slice_get (D.seen s).took k ≡ Some c) × ((D.seen (D.transferred s pick)).moved ≡ (D.seen s).moved)
        × ((id : ℕ) → In id (ids_of c) → In (Failed id) (D.seen (D.transferred s pick)).waiting) }
    ensures behind { (s : D.State) (pick : ℕ) → D.valid s → pick < D.can_transfer s →
        (rest : List Completion) × ((D.seen (D.transferred s pick)).waiting ≡ (D.seen s).waiting ++ rest) }
    ensures handed { (s : D.State) (answer : Completion) (rest : List Completion) → D.valid s → (D.seen s).waiting ≡ answer ∷ rest →
        (D.next_answer s ≡ Some answer) × ((D.seen (D.answered s)).waiting ≡ rest) × ((D.seen (D.answered s)).sent ≡ (D.seen s).sent ++ answer ∷ []) }
    ensures stops { (s : D.State) (pick : ℕ) → D.valid s → (D.seen s).failed ≡ true → D.transferred s pick ≡ s }
    ensures none_more { (s : D.State) (pick : ℕ) (answer : Completion) → D.valid s → pick < D.can_persist s →
        In answer (D.seen (D.persisted s pick)).waiting → In answer (D.seen s).waiting ⊎ (answer ≡ Cut) }
{}

/// A law, which does nothing when it is called: a device that a recovery is given fresh is on, no transfer of it failed, no
/// completion waits, and its medium is the image that it was made over, of no part.
pub fn fresh_devices_have_done_nothing<D: OrderedDev>()
    ensures on { (image : List (List ℕ)) (s : D.State) → D.valid s → IsFresh image (D.seen s) → (D.seen s).off ≡ false }
    ensures sound { (image : List (List ℕ)) (s : D.State) → D.valid s → IsFresh image (D.seen s) → (D.seen s).failed ≡ false }
    ensures silent { (image : List (List ℕ)) (s : D.State) → D.valid s → IsFresh image (D.seen s) → (D.seen s).waiting ≡ [] }
    ensures medium { (image : List (List ℕ)) (s : D.State) → D.valid s → IsFresh image (D.seen s) → (D.seen s).surface ≡ image }
    ensures origins { (image : List (List ℕ)) (s : D.State) (block : ℕ) (origin : Option ℕ) → D.valid s → IsFresh image (D.seen s) →
        slice_get (D.seen s).origins block ≡ Some origin → origin ≡ None }
{}

/// A law, which does nothing when it is called: two commands are of one epoch exactly where no barrier stands at or behind the
/// first and before the second, and a transfer notes each part with the epoch of its command.
pub fn parts_have_the_epoch_of_their_command<D: OrderedDev>()
    ensures first { (took : List Command) → epoch_of took 0 ≡ 0 }
    ensures same { (took : List Command) (k m : ℕ) → k ≤ m → m ≤ length took →
        ((b : ℕ) → k ≤ b → b < m → IsBarrier took b → ⊥) → epoch_of took k ≡ epoch_of took m }
    ensures later { (took : List Command) (k b m : ℕ) → k ≤ b → b < m → IsBarrier took b → epoch_of took k < epoch_of took m }
    ensures noted { (s : D.State) (pick : ℕ) → D.valid s → pick < D.can_transfer s → (FailsNext (D.seen s) → ⊥) →
        (k : ℕ) × (c : Command) × (slice_get (D.seen s).took k ≡ Some c) × ((i : ℕ) → i < length c.parts →
        slice_get (D.seen (D.transferred s pick)).moved (length (D.seen s).moved + i)
        ≡ Some (record { epoch = epoch_of (D.seen s).took k; part = first_part (D.seen s).took k + i })) }
{}
