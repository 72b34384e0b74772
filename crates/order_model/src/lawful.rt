//! What a caller may know of any ordered device.
ghost use Rattle.std.specs.Prelude.{◌≡◌, ℕ, ◌<◌, true, false, None, length};
ghost use Rattle.order_model.specs.declared.command.Command.{Command};
ghost use Rattle.order_model.specs.Device.{IsSettled, IsSurface, KeepsEpochOrder, KeepsFlush, Completes, TellsCut, TellsFailure, Grows, has_free_slot};
ghost use Rattle.order_model.specs.Steps.{Progresses};

use crate::OrderedDev;

/// How many blocks the device has; and what is known of the state that it is in.
pub fn lawful_blocks<D: OrderedDev>(dev: &D) -> u32
    ensures count { result ≡ length (D.seen (D.state dev.now)).surface }
    ensures surface { IsSurface (D.seen (D.state dev.now)) }
    ensures epoch_order { KeepsEpochOrder (D.seen (D.state dev.now)) }
    ensures flush { KeepsFlush (D.seen (D.state dev.now)) }
    ensures completion { Completes (D.seen (D.state dev.now)) }
    ensures power_cut { TellsCut (D.seen (D.state dev.now)) }
    ensures failure { TellsFailure (D.seen (D.state dev.now)) }
    ensures stops { (D.seen (D.state dev.now)).failed ≡ true → D.can_transfer (D.state dev.now) ≡ 0 }
    ensures free_slot { D.has_room (D.state dev.now) ≡ has_free_slot (D.seen (D.state dev.now)) }
    ensures settles { (D.seen (D.state dev.now)).off ≡ false → D.can_persist (D.state dev.now) ≡ 0 → IsSettled (D.seen (D.state dev.now)) }
    ensures progress { (D.seen (D.state dev.now)).off ≡ false → (D.seen (D.state dev.now)).failed ≡ false → Progresses (D.seen (D.state dev.now)) (D.work_left (D.state dev.now)) (D.has_room (D.state dev.now)) (D.can_transfer (D.state dev.now)) (D.can_persist (D.state dev.now)) }
    ensures on { D.stays_on (D.state dev.now) → (D.seen (D.state dev.now)).off ≡ false }
    ensures stays_received { (c : Command) → D.stays_on (D.state dev.now) → D.stays_on (D.received (D.state dev.now) c) }
    ensures stays { (n : ℕ) → D.stays_on (D.state dev.now) → D.stays_on (D.transferred (D.state dev.now) n) × D.stays_on (D.persisted (D.state dev.now) n) × D.stays_on (D.answered (D.state dev.now)) × D.stays_on (D.after_read (D.state dev.now) n) }
    ensures works { D.sound (D.state dev.now) → ((D.seen (D.state dev.now)).failed ≡ false) × (D.read_fails (D.state dev.now) ≡ false) }
    ensures sound_received { (c : Command) → D.sound (D.state dev.now) → D.sound (D.received (D.state dev.now) c) }
    ensures stays_sound { (n : ℕ) → D.sound (D.state dev.now) → D.sound (D.transferred (D.state dev.now) n) × D.sound (D.persisted (D.state dev.now) n) × D.sound (D.answered (D.state dev.now)) × D.sound (D.after_read (D.state dev.now) n) }
    ensures no_fault { (n : ℕ) → D.sound (D.state dev.now) → ((D.seen (D.transferred (D.state dev.now) n)).faults ≡ (D.seen (D.state dev.now)).faults) × ((D.seen (D.after_read (D.state dev.now) n)).faults ≡ (D.seen (D.state dev.now)).faults) }
    ensures monotone { (pick : ℕ) → Grows (D.seen (D.state dev.now)) (D.seen (D.transferred (D.state dev.now) pick)) × Grows (D.seen (D.state dev.now)) (D.seen (D.persisted (D.state dev.now) pick)) }
    ensures falls { (pick : ℕ) → (pick < D.can_transfer (D.state dev.now) → D.work_left (D.transferred (D.state dev.now) pick) < D.work_left (D.state dev.now)) × (pick < D.can_persist (D.state dev.now) → D.work_left (D.persisted (D.state dev.now) pick) < D.work_left (D.state dev.now)) × (D.work_left (D.answered (D.state dev.now)) ≡ D.work_left (D.state dev.now)) × (D.work_left (D.after_read (D.state dev.now) pick) ≡ D.work_left (D.state dev.now)) }
    ensures no_answer { D.next_answer (D.state dev.now) ≡ None → D.answered (D.state dev.now) ≡ D.state dev.now }
{
    dev.blocks()
}
