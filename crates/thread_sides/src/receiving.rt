//! What a device may be given.
ghost use Rattle.std.specs.Prelude.{◌≡◌, ◌+◌, ◌++◌, ◌^◌, ◌<◌, ◌≤◌, true, false, length, map, Some, None, is_some};
ghost use Rattle.order_model.specs.declared.part.Part.{Part};
ghost use Rattle.thread_sides.specs.Admitted.{take_new, is_well_formed, is_fit, all_within, may_take, flags_behind};
ghost use Rattle.order_model.specs.Received.{ids_of};

use crate::id_flags::IdFlags;
use order_model::{Command, Priority};

// The ids of the parts come, if none of them did.
fn take_parts(flags: &mut IdFlags, command: &Command) -> bool
    ensures yes { result ≡ true → take_new flags.old (map (λ (p : Part). p.id) command.now.parts) ≡ Some flags.new }
    ensures no { result ≡ false → take_new flags.old (map (λ (p : Part). p.id) command.now.parts) ≡ None }
{
    for part in command.parts.as_slice() {
        if !flags.is_new(part.id) {
            return false;
        }
        flags.mark(part.id);
    }
    true
}

// The ids come, if none of them did.
fn take_ids(flags: &mut IdFlags, command: &Command) -> bool
    ensures yes { result ≡ true → take_new flags.old (ids_of command.now) ≡ Some flags.new }
    ensures no { result ≡ false → take_new flags.old (ids_of command.now) ≡ None }
{
    if !take_parts(flags, command) {
        return false;
    }
    if let Some(id) = command.flush {
        if !flags.is_new(id) {
            return false;
        }
        flags.mark(id);
    }
    true
}

// All parts go to blocks below this one.
fn are_within(blocks: u32, command: &Command) -> bool
    ensures { result ≡ all_within blocks command.now.parts }
{
    for part in command.parts.as_slice() {
        if part.block >= blocks {
            return false;
        }
    }
    true
}

// It is a flush or has parts, and a barrier or a flush is ORDERED.
fn keeps_form(command: &Command) -> bool
    ensures { result ≡ is_well_formed command.now }
{
    let is_flush = command.flush.is_some();
    let is_ordered = matches!(command.priority, Priority::Ordered);
    is_flush == command.parts.is_empty() && (is_ordered || !(command.barrier || is_flush))
}

// Whatever its ids are, a device of so many blocks may be given it.
fn is_fitting(blocks: u32, command: &Command) -> bool
    ensures { result ≡ is_fit blocks command.now }
{
    command.parts.len() <= 16 && keeps_form(command) && are_within(blocks, command)
}

/// Whether a device of so many blocks may be given this command. Its ids come then; else nothing is said of the flags.
pub fn take_receivable(flags: &mut IdFlags, blocks: u32, command: &Command) -> bool
    ensures value { result ≡ may_take flags.old blocks command.now }
    ensures flags { result ≡ true → flags.new ≡ flags_behind flags.old command.now }
{
    is_fitting(blocks, command) && take_ids(flags, command)
}
