//! A name comes in memory, before the blocks are written. Where memory is refused all is as before.
ghost use Rattle.std.specs.Prelude.{◌≡◌, ◌<◌, ℕ, length, OnOk, OnErr, Some, None};
ghost use Rattle.minix_tables.specs.directories.Slots.{place_of, room};
ghost use Rattle.tree_model.specs.Maps.{at_number};
ghost use Rattle.volume_model.specs.declared.placed.Placed.{Placed};
ghost use Rattle.volume_model.specs.declared.placed.Part.TheVariants as parts;
ghost use Rattle.volume_model.specs.declared.placed.DirectoryPart.{DirectoryPart};
ghost use Rattle.volume_names.specs.code.NewSlot.{new_slot};
ghost use Rattle.volume_names.specs.renames.code.Parts.{node_put, name_put, slot_put_in};

use crate::NewSlot;
use blk_base::NoMemory;
use minix_layout::{Name, Slot};
use std::collections::BTreeMap;
use volume_model::{DirectoryPart, Part, Placed};

/// A name of a directory leads to a node, in place of the one that had it, if there was one. Its slot is left as it is.
pub fn put_name(
    nodes: &mut BTreeMap<u64, Placed>,
    n: u64,
    name: Name,
    birth: u64,
) -> Result<(), NoMemory>
    ensures nodes { OnOk result ((p : Placed) (d : DirectoryPart) → at_number nodes.old.entries n ≡ Some p → p.part ≡ parts.Directory d →
        nodes.new.entries ≡ node_put nodes.old.entries n p (parts.Directory (name_put d name birth))) }
    ensures err { OnErr result (nodes.new.entries ≡ nodes.old.entries) }
{
    let Some(placed) = nodes.get_mut(&n) else {
        return Ok(());
    };
    match &mut placed.part {
        Part::Directory(directory) => directory.names.put(name, birth),
        Part::File(_) => Ok(()),
    }
}

/// A slot comes into a directory that has a free one, which takes no memory.
pub fn add_slot(nodes: &mut BTreeMap<u64, Placed>, n: u64, slot: Slot) -> NewSlot
    requires directory { (p : Placed) → at_number nodes.old.entries n ≡ Some p → (d : DirectoryPart) × (p.part ≡ parts.Directory d) }
    requires there { at_number nodes.old.entries n ≡ None → ⊥ }
    requires free { (p : Placed) (d : DirectoryPart) → at_number nodes.old.entries n ≡ Some p → p.part ≡ parts.Directory d → room d.slots < length d.slots }
    requires new { (p : Placed) (d : DirectoryPart) → at_number nodes.old.entries n ≡ Some p → p.part ≡ parts.Directory d → place_of d.slots slot.name ≡ None }
    ensures place { (p : Placed) (d : DirectoryPart) → at_number nodes.old.entries n ≡ Some p → p.part ≡ parts.Directory d → result ≡ new_slot d slot }
    ensures nodes { (p : Placed) (d : DirectoryPart) → at_number nodes.old.entries n ≡ Some p → p.part ≡ parts.Directory d →
        nodes.new.entries ≡ node_put nodes.old.entries n p (parts.Directory (slot_put_in d slot)) }
{
    let Some(placed) = nodes.get_mut(&n) else {
        unreachable!();
    };
    match &mut placed.part {
        Part::Directory(directory) => fill_slot(directory, slot),
        Part::File(_) => unreachable!(),
    }
}

// A slot comes where one is free, so that no block of the directory begins with it.
fn fill_slot(directory: &mut DirectoryPart, slot: Slot) -> NewSlot
    requires free { room directory.old.slots < length directory.old.slots }
    requires new { place_of directory.old.slots slot.name ≡ None }
    ensures place { result ≡ new_slot directory.old slot }
    ensures directory { directory.new ≡ slot_put_in directory.old slot }
{
    let Ok(at) = directory.slots.add(slot) else {
        unreachable!();
    };
    NewSlot {
        at,
        begins: false,
        slots: directory.slots.len(),
    }
}
