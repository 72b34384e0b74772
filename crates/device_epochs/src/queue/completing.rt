//! What a device notes of a command that it transfers, and tells of it.
ghost use Rattle.std.specs.Prelude.{◌≡◌, ℕ, ◌+◌, ◌^◌, ◌<◌, ◌≤◌, ◌++◌, List, length, map, Option, Some, None};
ghost use Rattle.std.specs.List.{list_any};
ghost use Rattle.std.specs.Option.{option_map, option_and_then};
ghost use Rattle.circular_buffer.specs.Buffer.{buffer};
ghost use Rattle.order_model.specs.declared.part.Part.{Part};
ghost use Rattle.order_model.specs.Received.{all_parts, completions_of, transfers};
ghost use Rattle.device_epochs.specs.queue.Faults.{is_number, is_next, counted};
ghost use Rattle.device_epochs.specs.queue.Told.{is_flushed, told_failed, id_at};

use circular_buffer::HeapCircularBuffer;
use order_model::{Command, Commands, Completion, Part, Transfer, Transfers};

/// Notes that parts were transferred. The first of them stands at this place among all parts taken.
pub fn note_transfers(moved: &mut Transfers, epoch: u64, first: u64, parts: &[Part])
    requires room { length moved.old.items + length parts.now ≤ moved.old.room }
    requires places { first + length parts.now < 2 ^ 64 }
    ensures { moved.new ≡ record { items = moved.old.items ++ transfers epoch first parts.now; room = moved.old.room } }
{
    let mut place = first;
    for _ in parts {
        moved.push(Transfer { epoch, part: place });
        place += 1;
    }
}

/// Appends what the command completes with, which there is room for.
pub fn complete(waiting: &mut HeapCircularBuffer<Completion>, c: &Command)
    requires { length waiting.old.items + length (completions_of c.now) ≤ waiting.old.capacity }
    ensures { waiting.new ≡ buffer (waiting.old.items ++ completions_of c.now) waiting.old.capacity }
{
    for part in c.parts.as_slice() {
        let _ = waiting.try_push_back(Completion::Moved(part.id));
    }
    if let Some(id) = c.flush {
        let _ = waiting.try_push_back(Completion::Flushed(id));
    }
}

/// Appends what the command completes with where it was not done, which there is room for.
pub fn complete_failed(waiting: &mut HeapCircularBuffer<Completion>, c: &Command)
    requires { length waiting.old.items + length (told_failed c.now) ≤ waiting.old.capacity }
    ensures { waiting.new ≡ buffer (waiting.old.items ++ told_failed c.now) waiting.old.capacity }
{
    for part in c.parts.as_slice() {
        let _ = waiting.try_push_back(Completion::Failed(part.id));
    }
    if let Some(id) = c.flush {
        let _ = waiting.try_push_back(Completion::Failed(id));
    }
}

/// Counts a call down to the one with this number, and tells whether it is that one.
pub fn count_down(number: &mut Option<u64>) -> bool
    ensures next { result ≡ is_next number.old }
    ensures rest { number.new ≡ counted number.old }
{
    let Some(n) = *number else {
        return false;
    };
    *number = Some(n.saturating_sub(1));
    n == 1
}

/// A number is given, and it is this one.
pub fn is_number(at: Option<u64>, n: u64) -> bool
    ensures { result ≡ is_number at n }
{
    match at {
        Some(given) => n == given,
        None => false,
    }
}

fn is_flushed(c: Completion) -> bool
    ensures { result ≡ is_flushed c }
{
    match c {
        Completion::Flushed(_) => true,
        Completion::Moved(_) | Completion::Failed(_) | Completion::Cut => false,
    }
}

/// Whether the completion of a flush has not been handed out.
pub fn holds_flush(waiting: &HeapCircularBuffer<Completion>) -> bool
    ensures { result ≡ list_any is_flushed waiting.now.items }
{
    waiting.iter().any(|c| is_flushed(*c))
}

// The id of the part at this place.
fn id_at(took: &Commands, place: Option<u64>) -> Option<u64>
    ensures { result ≡ id_at (all_parts took.now.items) place }
{
    took.part_id(place? as usize)
}

/// The places of parts, turned into their ids where they stand.
pub fn read_ids(places: Vec<Option<u64>>, took: &Commands) -> Vec<Option<u64>>
    ensures { result.items ≡ map (id_at (all_parts took.now.items)) places.items }
{
    let mut ids = places;
    for i in 0..ids.len() {
        ids[i] = id_at(took, ids[i]);
    }
    ids
}
