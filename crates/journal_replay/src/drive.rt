//! The run of a recovery on a device.
ghost use Rattle.std.specs.Prelude.{◌≡◌, ℕ, ◌++◌, ◌<◌, ◌⊎◌, [], List, replicate, take, true, false, Some};
ghost use Rattle.journal_replay.specs.declared.choice.Choice.{Choice};
ghost use Rattle.order_model.specs.declared.command.Command.{Command};
ghost use Rattle.order_model.specs.Device.{Seen};
ghost use Rattle.order_model.specs.Machine.{machine_of};
ghost use Rattle.journal_replay.specs.Driving.{Driven, all_choices, sent, chosen, drained, turned, driven, end_of, is_running};
ghost use Rattle.journal_replay.specs.code.Sending.{CanSend, KeepsAll};
ghost use Rattle.journal_replay.specs.code.Runs.{StepKeeps, DrainKeeps, RunKeeps, IsAhead, IsDrivenBy, IsFlushedLast};

use crate::end::End;
use crate::plan::Plan;
use crate::{Choice, Repeated};
use order_model::OrderedDev;

// Sends commands while there is room.
fn send<D: OrderedDev>(dev: &mut D, plan: &mut Plan)
    requires valid { D.valid (D.state dev.old) }
    requires can { CanSend (D.seen (D.state dev.old)) plan.old }
    ensures sent { record { dev = D.state dev.new; rest = plan.new } ≡ sent (machine_of D.OrderedDev) (D.state dev.old) plan.old }
    ensures valid { D.valid (D.state dev.new) }
    ensures kept { KeepsAll (D.seen (D.state dev.old)) plan.old (D.seen (D.state dev.new)) plan.new }
    ensures others { D.seen (D.state dev.new) ≡ record (D.seen (D.state dev.old)) { took = (D.seen (D.state dev.new)).took } }
    ensures on { D.stays_on (D.state dev.old) → D.stays_on (D.state dev.new) }
    ensures sound { D.sound (D.state dev.old) → D.sound (D.state dev.new) × ((D.seen (D.state dev.new)).faults ≡ (D.seen (D.state dev.old)).faults) }
{
    while dev.room() {
        let Some(command) = plan.next() else {
            return;
        };
        // There is room.
        let _ = dev.receive(command);
    }
}

// One device step.
fn step<D: OrderedDev>(dev: &mut D, choice: Choice)
    requires valid { D.valid (D.state dev.old) }
    ensures chosen { D.state dev.new ≡ chosen (machine_of D.OrderedDev) choice (D.state dev.old) }
    ensures valid { D.valid (D.state dev.new) }
    ensures kept { StepKeeps (D.seen (D.state dev.old)) (D.seen (D.state dev.new)) }
    ensures falls { choice ≡ Choice.Default → (0 < D.can_transfer (D.state dev.old)) ⊎ (0 < D.can_persist (D.state dev.old)) → D.work_left (D.state dev.new) < D.work_left (D.state dev.old) }
    ensures on { D.stays_on (D.state dev.old) → D.stays_on (D.state dev.new) }
    ensures sound { D.sound (D.state dev.old) → D.sound (D.state dev.new) × ((D.seen (D.state dev.new)).faults ≡ (D.seen (D.state dev.old)).faults) }
{
    match choice {
        Choice::Transfer(pick) => {
            dev.transfer(pick);
        }
        Choice::Persist(pick) => {
            dev.persist(pick);
        }
        Choice::Default => {
            if dev.can_transfer() > 0 {
                dev.transfer(0);
            } else {
                dev.persist(0);
            }
        }
    }
}

// Takes every completion that waits.
fn drain<D: OrderedDev>(dev: &mut D, end: End) -> End
    requires valid { D.valid (D.state dev.old) }
    requires end { end ≡ end_of (D.seen (D.state dev.old)) }
    ensures drained { D.state dev.new ≡ drained (machine_of D.OrderedDev) (D.state dev.old) }
    ensures valid { D.valid (D.state dev.new) }
    ensures end { result ≡ end_of (D.seen (D.state dev.new)) }
    ensures kept { DrainKeeps (D.seen (D.state dev.old)) (D.seen (D.state dev.new)) }
    ensures empty { (D.seen (D.state dev.new)).waiting ≡ [] }
    ensures on { D.stays_on (D.state dev.old) → D.stays_on (D.state dev.new) }
    ensures sound { D.sound (D.state dev.old) → D.sound (D.state dev.new) × ((D.seen (D.state dev.new)).faults ≡ (D.seen (D.state dev.old)).faults) }
    ensures left { D.work_left (D.state dev.new) ≡ D.work_left (D.state dev.old) }
{
    let mut end = end;
    while let Some(completion) = dev.answer() {
        end = end.and(completion);
    }
    end
}
// One turn: sends what there is room for, makes a step, and takes what was told of it.
fn turn<D: OrderedDev>(dev: &mut D, plan: &mut Plan, choice: Choice, end: End) -> End
    requires valid { D.valid (D.state dev.old) }
    requires can { CanSend (D.seen (D.state dev.old)) plan.old }
    requires end { end ≡ end_of (D.seen (D.state dev.old)) }
    requires empty { (D.seen (D.state dev.old)).waiting ≡ [] }
    ensures turned { record { dev = D.state dev.new; rest = plan.new } ≡ turned (machine_of D.OrderedDev) choice (record { dev = D.state dev.old; rest = plan.old }) }
    ensures valid { D.valid (D.state dev.new) }
    ensures can { CanSend (D.seen (D.state dev.new)) plan.new }
    ensures kept { RunKeeps (D.seen (D.state dev.old)) plan.old (D.seen (D.state dev.new)) plan.new }
    ensures end { result ≡ end_of (D.seen (D.state dev.new)) }
    ensures empty { (D.seen (D.state dev.new)).waiting ≡ [] }
    ensures on { D.stays_on (D.state dev.old) → D.stays_on (D.state dev.new) }
    ensures sound { D.sound (D.state dev.old) → D.sound (D.state dev.new) × ((D.seen (D.state dev.new)).faults ≡ (D.seen (D.state dev.old)).faults) }
    ensures unsent { (D.has_room (D.state dev.old) ≡ false) ⊎ (plan.old ≡ []) → plan.new ≡ plan.old }
    ensures falls { (D.has_room (D.state dev.old) ≡ false) ⊎ (plan.old ≡ []) → is_running end ≡ true → choice ≡ Choice.Default → (0 < D.can_transfer (D.state dev.old)) ⊎ (0 < D.can_persist (D.state dev.old)) → D.work_left (D.state dev.new) < D.work_left (D.state dev.old) }
{
    if !end.is_running() {
        return end;
    }
    send(dev, plan);
    step(dev, choice);
    drain(dev, end)
}

// Turns by this choice as often as it says, or until the end, behind which no turn does anything.
fn repeat_turn<D: OrderedDev>(dev: &mut D, plan: &mut Plan, repeated: Repeated, end: End) -> End
    requires valid { D.valid (D.state dev.old) }
    requires can { CanSend (D.seen (D.state dev.old)) plan.old }
    requires end { end ≡ end_of (D.seen (D.state dev.old)) }
    requires empty { (D.seen (D.state dev.old)).waiting ≡ [] }
    ensures driven { (later : List Choice) → driven (machine_of D.OrderedDev) later (record { dev = D.state dev.new; rest = plan.new }) ≡
        driven (machine_of D.OrderedDev) (replicate repeated.times repeated.choice ++ later) (record { dev = D.state dev.old; rest = plan.old }) }
    ensures valid { D.valid (D.state dev.new) }
    ensures can { CanSend (D.seen (D.state dev.new)) plan.new }
    ensures kept { RunKeeps (D.seen (D.state dev.old)) plan.old (D.seen (D.state dev.new)) plan.new }
    ensures end { result ≡ end_of (D.seen (D.state dev.new)) }
    ensures empty { (D.seen (D.state dev.new)).waiting ≡ [] }
    ensures on { D.stays_on (D.state dev.old) → D.stays_on (D.state dev.new) }
    ensures sound { D.sound (D.state dev.old) → D.sound (D.state dev.new) × ((D.seen (D.state dev.new)).faults ≡ (D.seen (D.state dev.old)).faults) }
{
    let mut reached = end;
    for _ in 0..repeated.times {
        if !reached.is_running() {
            return reached;
        }
        reached = turn(dev, plan, repeated.choice, reached);
    }
    reached
}

// Follows these choices, one turn each, and sends what there is room for behind them.
pub(crate) fn follow<D: OrderedDev>(dev: &mut D, plan: &mut Plan, steer: &[Repeated]) -> End
    requires valid { D.valid (D.state dev.old) }
    requires can { CanSend (D.seen (D.state dev.old)) plan.old }
    requires running { end_of (D.seen (D.state dev.old)) ≡ End.Running }
    requires empty { (D.seen (D.state dev.old)).waiting ≡ [] }
    ensures driven { record { dev = D.state dev.new; rest = plan.new } ≡ driven (machine_of D.OrderedDev) (all_choices steer.now) (record { dev = D.state dev.old; rest = plan.old }) }
    ensures valid { D.valid (D.state dev.new) }
    ensures can { CanSend (D.seen (D.state dev.new)) plan.new }
    ensures kept { RunKeeps (D.seen (D.state dev.old)) plan.old (D.seen (D.state dev.new)) plan.new }
    ensures end { result ≡ end_of (D.seen (D.state dev.new)) }
    ensures empty { (D.seen (D.state dev.new)).waiting ≡ [] }
    ensures on { D.stays_on (D.state dev.old) → D.stays_on (D.state dev.new) }
    ensures sound { D.sound (D.state dev.old) → D.sound (D.state dev.new) × ((D.seen (D.state dev.new)).faults ≡ (D.seen (D.state dev.old)).faults) }
{
    let mut end = End::Running;
    for repeated in steer {
        end = repeat_turn(dev, plan, *repeated, end);
    }
    if end.is_running() {
        send(dev, plan);
    }
    end
}

// Turns by default, until there is room or the end is there.
fn await_room<D: OrderedDev>(dev: &mut D, plan: &mut Plan, end: End) -> End
    requires valid { D.valid (D.state dev.old) }
    requires can { CanSend (D.seen (D.state dev.old)) plan.old }
    requires end { end ≡ end_of (D.seen (D.state dev.old)) }
    requires empty { (D.seen (D.state dev.old)).waiting ≡ [] }
    requires on { D.stays_on (D.state dev.old) }
    ensures ahead { IsAhead (machine_of D.OrderedDev) (record { dev = D.state dev.old; rest = plan.old }) (record { dev = D.state dev.new; rest = plan.new }) }
    ensures valid { D.valid (D.state dev.new) }
    ensures can { CanSend (D.seen (D.state dev.new)) plan.new }
    ensures kept { RunKeeps (D.seen (D.state dev.old)) plan.old (D.seen (D.state dev.new)) plan.new }
    ensures end { result ≡ end_of (D.seen (D.state dev.new)) }
    ensures empty { (D.seen (D.state dev.new)).waiting ≡ [] }
    ensures on { D.stays_on (D.state dev.new) }
    ensures sound { D.sound (D.state dev.old) → D.sound (D.state dev.new) × ((D.seen (D.state dev.new)).faults ≡ (D.seen (D.state dev.old)).faults) }
    ensures unsent { plan.new ≡ plan.old }
    ensures room { is_running result ≡ true → D.has_room (D.state dev.new) ≡ true }
{
    let mut end = end;
    while end.is_running() && !dev.room() {
        end = turn(dev, plan, Choice::Default, end);
    }
    end
}

// Turns by default, until the end.
pub(crate) fn finish<D: OrderedDev>(dev: &mut D, plan: &mut Plan, end: End) -> End
    requires valid { D.valid (D.state dev.old) }
    requires can { CanSend (D.seen (D.state dev.old)) plan.old }
    requires end { end ≡ end_of (D.seen (D.state dev.old)) }
    requires empty { (D.seen (D.state dev.old)).waiting ≡ [] }
    requires on { D.stays_on (D.state dev.old) }
    requires flush { IsFlushedLast ((D.seen (D.state dev.old)).took ++ plan.old) }
    ensures driven { IsDrivenBy (machine_of D.OrderedDev) (record { dev = D.state dev.old; rest = plan.old }) (record { dev = D.state dev.new; rest = plan.new }) }
    ensures valid { D.valid (D.state dev.new) }
    ensures kept { RunKeeps (D.seen (D.state dev.old)) plan.old (D.seen (D.state dev.new)) plan.new }
    ensures end { result ≡ end_of (D.seen (D.state dev.new)) }
    ensures empty { (D.seen (D.state dev.new)).waiting ≡ [] }
    ensures over { is_running result ≡ false }
    ensures sound { D.sound (D.state dev.old) → D.sound (D.state dev.new) × ((D.seen (D.state dev.new)).faults ≡ (D.seen (D.state dev.old)).faults) }
{
    let mut end = end;
    while !plan.is_done() {
        end = await_room(dev, plan, end);
        if !end.is_running() {
            return end;
        }
        send(dev, plan);
    }
    while end.is_running() {
        end = turn(dev, plan, Choice::Default, end);
    }
    end
}
