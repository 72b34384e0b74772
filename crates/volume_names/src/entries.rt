//! Names and nodes come and go in memory, before the blocks are written. What takes memory and is refused leaves all as
//! it was.
ghost use Rattle.std.specs.Prelude.{◌≡◌, ℕ, IfOk, OnErr, Some, None};
ghost use Rattle.minix_tables.specs.directories.Slots.{place_of};
ghost use Rattle.tree_model.specs.Maps.{at_number, at_name, put_number};
ghost use Rattle.volume_model.specs.declared.placed.Placed.{Placed};
ghost use Rattle.volume_model.specs.declared.placed.Part.TheVariants as parts;
ghost use Rattle.volume_model.specs.declared.placed.DirectoryPart.{DirectoryPart};
ghost use Rattle.volume_names.specs.code.NewSlot.{new_slot};
ghost use Rattle.volume_names.specs.code.Steps.{entered};

use crate::directories::{NewSlot, add_name};
use blk_base::NoMemory;
use minix_layout::Slot;
use std::collections::BTreeMap;
use volume_model::{Part, Placed};

// Where no directory has this birth.
const NOWHERE: NewSlot = NewSlot {
    at: 0,
    begins: false,
    slots: 0,
};

/// A name comes with its slot into the directory with this birth; where there is none, nothing does.
pub fn enter(
    nodes: &mut BTreeMap<u64, Placed>,
    parent: u64,
    slot: Slot,
    birth: u64,
) -> Result<NewSlot, NoMemory>
    requires slot { (p : Placed) (d : DirectoryPart) → at_number nodes.old.entries parent ≡ Some p → p.part ≡ parts.Directory d → place_of d.slots slot.name ≡ None }
    requires name { (p : Placed) (d : DirectoryPart) → at_number nodes.old.entries parent ≡ Some p → p.part ≡ parts.Directory d → at_name d.names slot.name ≡ None }
    ensures place { IfOk result (λ new. (p : Placed) (d : DirectoryPart) → at_number nodes.old.entries parent ≡ Some p → p.part ≡ parts.Directory d → new ≡ new_slot d slot) }
    ensures nodes { IfOk result (λ new. (p : Placed) (d : DirectoryPart) → at_number nodes.old.entries parent ≡ Some p → p.part ≡ parts.Directory d →
        nodes.new.entries ≡ entered nodes.old.entries parent p d slot birth) }
    ensures err { OnErr result (nodes.new.entries ≡ nodes.old.entries) }
{
    let Some(placed) = nodes.get_mut(&parent) else {
        return Ok(NOWHERE);
    };
    match &mut placed.part {
        Part::Directory(directory) => add_name(directory, slot, birth),
        Part::File(_) => Ok(NOWHERE),
    }
}

/// A node comes under a new birth, with a name of it.
pub fn enter_new(
    nodes: &mut BTreeMap<u64, Placed>,
    n: u64,
    placed: Placed,
    parent: u64,
    slot: Slot,
) -> Result<NewSlot, NoMemory>
    requires birth { at_number nodes.old.entries n ≡ None }
    requires slot { (p : Placed) (d : DirectoryPart) → at_number nodes.old.entries parent ≡ Some p → p.part ≡ parts.Directory d → place_of d.slots slot.name ≡ None }
    requires name { (p : Placed) (d : DirectoryPart) → at_number nodes.old.entries parent ≡ Some p → p.part ≡ parts.Directory d → at_name d.names slot.name ≡ None }
    requires apart { parent ≡ n → ⊥ }
    ensures place { IfOk result (λ new. (p : Placed) (d : DirectoryPart) → at_number nodes.old.entries parent ≡ Some p → p.part ≡ parts.Directory d → new ≡ new_slot d slot) }
    ensures nodes { IfOk result (λ new. (p : Placed) (d : DirectoryPart) → at_number nodes.old.entries parent ≡ Some p → p.part ≡ parts.Directory d →
        nodes.new.entries ≡ entered (put_number nodes.old.entries n placed) parent p d slot n) }
    ensures err { OnErr result (nodes.new.entries ≡ nodes.old.entries) }
{
    nodes.insert(n, placed)?;
    match enter(nodes, parent, slot, n) {
        Ok(new) => Ok(new),
        Err(NoMemory) => {
            let _ = nodes.remove(&n);
            Err(NoMemory)
        }
    }
}
