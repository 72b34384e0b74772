//! The steps of the flush actor.
ghost use Rattle.std.specs.Prelude.{◌≡◌, ◌≢◌, ◌≤◌, ◌++◌, length, drop};
ghost use Rattle.order_model.specs.declared.turn.Turn.TheVariants.{Idle, QueueFull};
ghost use Rattle.flush_actor.specs.Outcomes.{is_queue_full, sent_between, first_since};
ghost use Rattle.flush_actor.specs.Steps.{flush_turn, take_turn};

use crate::FlushPart;
use order_model::{Completion, Inlet, Kind, Note, Outlet, Request, Turn};

/// Submits a flush where one is due, or else takes a completion. It takes no memory.
pub fn flush_step<O: Outlet<Request>, I: Inlet<Completion>>(
    part: &mut FlushPart,
    out: &mut O,
    from: &mut I,
) -> Turn
    requires { length part.old.part.taken ≤ part.old.part.limit }
    ensures step { record { part = part.new.part; turn = result } ≡
        flush_turn (is_queue_full result) (first_since (I.taken from.old) (I.taken from.new)) part.old.part }
    ensures blocks { part.new.blocks ≡ part.old.blocks }
    ensures sent { O.sent out.new ≡ O.sent out.old ++ sent_between part.old.part part.new.part }
    ensures taken { I.taken from.new ≡ I.taken from.old ++ drop (length part.old.part.taken) part.new.part.taken }
    ensures full { result ≡ QueueFull → O.was_full out.old out.new }
    ensures empty { result ≡ Idle → I.was_empty from.old from.new }
    ensures out { O.rest out.new ≡ O.rest out.old }
    ensures from { I.rest from.new ≡ I.rest from.old }
{
    if part.flush_due() {
        return part.submit(Kind::Flush, true, true, Note::Flush, out);
    }
    take_step(part, from)
}

/// Takes a completion, though a flush may be due: for where none can go out. It takes no memory.
pub fn take_step<I: Inlet<Completion>>(part: &mut FlushPart, from: &mut I) -> Turn
    requires { length part.old.part.taken ≤ part.old.part.limit }
    ensures step { record { part = part.new.part; turn = result } ≡ take_turn (first_since (I.taken from.old) (I.taken from.new)) part.old.part }
    ensures blocks { part.new.blocks ≡ part.old.blocks }
    ensures requests { part.new.part.requests ≡ part.old.part.requests }
    ensures taken { I.taken from.new ≡ I.taken from.old ++ drop (length part.old.part.taken) part.new.part.taken }
    ensures empty { result ≡ Idle → I.was_empty from.old from.new }
    ensures full { result ≢ QueueFull }
    ensures from { I.rest from.new ≡ I.rest from.old }
{
    match from.take() {
        None => Turn::Idle,
        Some(completion) => {
            part.take(completion);
            Turn::Did
        }
    }
}
