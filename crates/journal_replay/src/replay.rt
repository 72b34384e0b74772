//! An attempt of recovery, from what was read of the log.
ghost use Rattle.std.specs.Prelude.{◌≡◌, ℕ, ◌+◌, ◌≤◌, ◌<◌, ◌^◌, [], List, length, replicate, true, false, vec_len};
ghost use Rattle.blk_base.specs.Members.{In};
ghost use Rattle.blk_base.specs.Streams.{Rose};
ghost use Rattle.order_model.specs.Device.{IsQuiet};
ghost use Rattle.order_model.specs.Machine.{machine_of};
ghost use Rattle.journal_replay.specs.declared.choice.Choice.{Choice};
ghost use Rattle.journal_replay.specs.Driving.{Driven, all_choices, driven, end_of, is_running};
ghost use Rattle.journal_replay.specs.Commands.{for_block, sends};
ghost use Rattle.journal_replay.specs.Recovered.{recovered, IsRecoverable, AreBetween};
ghost use Rattle.journal_replay.specs.code.Homes.{logged_of};
ghost use Rattle.journal_replay.specs.code.Runs.{HasLog, EndsAs};

use crate::Repeated;
use crate::drive::{finish, follow};
use crate::end::End;
use crate::home::Home;
use crate::plan::Plan;
use blk_base::Block;
use order_model::OrderedDev;

// Writes the bodies of a log to their homes, empties the log and flushes. It makes the steps of a list, and then, unless it
// is to be cut there, steps by default until the flush is answered or a command has failed.
pub(crate) fn write_back<D: OrderedDev>(
    dev: &mut D,
    homes: Vec<Home>,
    base: u32,
    superblock: Block,
    steer: &[Repeated],
    cut: bool,
) -> End
    requires fresh { (D.seen (D.state dev.old)).took ≡ [] }
    requires on { D.stays_on (D.state dev.old) }
    requires room { length (D.seen (D.state dev.old)).surface + 2 ≤ (D.seen (D.state dev.old)).limit }
    requires image { IsRecoverable base (D.seen (D.state dev.old)).surface }
    requires log { HasLog base (D.seen (D.state dev.old)).surface (logged_of homes.items) superblock }
    requires few { vec_len homes < 2 ^ 32 }
    ensures attempt { recovered base (D.seen (D.state dev.new)).surface ≡ recovered base (D.seen (D.state dev.old)).surface }
    ensures whole { result ≡ End.Flushed → ((D.seen (D.state dev.new)).surface ≡ recovered base (D.seen (D.state dev.old)).surface) × IsQuiet (D.seen (D.state dev.new)) }
    ensures ended { cut ≡ false → is_running result ≡ false }
    ensures cut_run { let start : Driven D.State = record { dev = D.state dev.old; rest = sends (logged_of homes.items) (for_block base superblock) } in
        cut ≡ true → D.state dev.new ≡ (driven (machine_of D.OrderedDev) (all_choices steer.now) start).dev }
    ensures whole_run { let start : Driven D.State = record { dev = D.state dev.old; rest = sends (logged_of homes.items) (for_block base superblock) } in
        cut ≡ false → (k : ℕ) × (D.state dev.new ≡ (driven (machine_of D.OrderedDev) (replicate k Choice.Default) (driven (machine_of D.OrderedDev) (all_choices steer.now) start)).dev) }
    ensures failed { (id : ℕ) → result ≡ End.Failed id → Rose (D.seen (D.state dev.old)).faults (D.seen (D.state dev.new)).faults }
    ensures counts { (D.seen (D.state dev.old)).faults ≤ (D.seen (D.state dev.new)).faults }
    ensures told { result ≡ end_of (D.seen (D.state dev.new)) }
    ensures ends { EndsAs (logged_of homes.items) base superblock (D.seen (D.state dev.old)) (D.seen (D.state dev.new)) result }
    ensures valid { D.valid (D.state dev.new) }
    ensures between { AreBetween (D.seen (D.state dev.old)).surface (recovered base (D.seen (D.state dev.old)).surface) (D.seen (D.state dev.new)).surface }
    ensures sound { D.sound (D.state dev.old) → D.sound (D.state dev.new) × ((D.seen (D.state dev.new)).faults ≡ (D.seen (D.state dev.old)).faults) }
{
    // For the proof alone: the answer brings the laws of the device.
    let _ = dev.blocks();
    let mut plan = Plan::make(homes, base, superblock);
    let end = follow(dev, &mut plan, steer);
    if cut {
        return end;
    }
    finish(dev, &mut plan, end)
}
