//! A name comes into a directory, or goes, before its blocks are written.
ghost use Rattle.std.specs.Prelude.{◌≡◌, ◌≤◌, ◌<◌, ◌+◌, ◌%◌, ◌&&◌, nat_eq, ℕ, length, IfOk, OnErr, Some, None};
ghost use Rattle.minix_tables.specs.directories.Slots.{place_of};
ghost use Rattle.tree_model.specs.Maps.{at_name};
ghost use Rattle.volume_model.specs.Moves.{with_name};
ghost use Rattle.volume_names.specs.code.NewSlot.{new_slot};

use blk_base::NoMemory;
use minix_layout::{Name, Slot, slots_a_block};
use volume_model::DirectoryPart;

/// Where a slot came: its place, whether a block of the directory begins with it, and how many slots there are then.
#[derive(Clone, Copy)]
pub struct NewSlot {
    pub at: usize,
    pub begins: bool,
    pub slots: usize,
}

/// A name comes with its slot.
pub fn add_name(directory: &mut DirectoryPart, slot: Slot, birth: u64) -> Result<NewSlot, NoMemory>
    requires slot { place_of directory.old.slots slot.name ≡ None }
    requires name { at_name directory.old.names slot.name ≡ None }
    ensures ok { IfOk result (λ new. (new ≡ new_slot directory.old slot) × (directory.new ≡ with_name directory.old slot birth)) }
    ensures err { OnErr result (directory.new ≡ directory.old) }
{
    let before = directory.slots.len();
    let name = slot.name.copy();
    directory.names.put(slot.name.copy(), birth)?;
    match directory.slots.add(slot) {
        Ok(at) => Ok(NewSlot {
            at,
            begins: at == before && before % slots_a_block(directory.width) as usize == 0,
            slots: directory.slots.len(),
        }),
        Err(_) => {
            directory.names.remove(&name);
            Err(NoMemory)
        }
    }
}

/// The slot of a name.
pub fn slot_of(number: u16, name: &Name) -> Slot
    ensures { result ≡ record { inode = number; name = name.now } }
{
    Slot {
        inode: number,
        name: name.copy(),
    }
}
