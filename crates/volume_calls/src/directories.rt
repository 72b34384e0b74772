//! The slots of a directory, beside its names.
ghost use Rattle.std.specs.Prelude.{◌≡◌, ◌≤◌, ◌==◌, ◌+◌, List, ℕ, None, length};
ghost use Rattle.minix_tables.specs.directories.Slots.{used_count};
ghost use Rattle.tree_model.specs.Calls.{needs_slot, is_full, directory_zones, one_if, slots_with};
ghost use Rattle.tree_model.specs.Maps.{at_name};
ghost use Rattle.volume_model.specs.Trees.{directory_from};

use minix_layout::{most_slots, slots_a_block};
use volume_model::DirectoryPart;

// No slot is free for one name more.
fn needs_slot(directory: &DirectoryPart) -> bool
    requires { used_count directory.now.slots ≡ 2 + length directory.now.names }
    ensures { result ≡ needs_slot (directory_from directory.now) }
{
    directory.slots.room() == directory.slots.len()
}

// One name more would make it too big.
pub fn is_full(directory: &DirectoryPart) -> bool
    requires { used_count directory.now.slots ≡ 2 + length directory.now.names }
    ensures { result ≡ is_full (directory_from directory.now) }
{
    needs_slot(directory) && directory.slots.len() >= most_slots(directory.width) as usize
}

// It has no names but for `.` and `..`.
pub fn has_no_names(directory: &DirectoryPart) -> bool
    ensures { result ≡ (length directory.now.names == 0) }
{
    directory.names.len() == 0
}

pub fn one_if(test: bool) -> u32
    ensures { result ≡ one_if test }
{
    u32::from(test)
}

// The zones that a directory takes for one name more.
pub fn slot_zones(directory: &DirectoryPart) -> u32
    requires { used_count directory.now.slots ≡ 2 + length directory.now.names }
    ensures more { (name : List ℕ) → at_name directory.now.names name ≡ None →
        directory_zones directory.now.width (length directory.now.slots) + result ≡ directory_zones directory.now.width (slots_with (directory_from directory.now) name) }
    ensures most { result ≤ 2 }
{
    if !needs_slot(directory) {
        return 0;
    }
    let slots = directory.slots.len();
    let per = slots_a_block(directory.width) as usize;
    one_if(slots % per == 0) + one_if(slots == 7 * per)
}
