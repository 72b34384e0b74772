//! Inodes and slots of new nodes.
ghost use Rattle.std.specs.Prelude.{◌≡◌, [], IfOk};
ghost use Rattle.minix_layout.specs.Inodes.{new_directory_inode};
ghost use Rattle.volume_model.specs.declared.placed.Part.TheVariants as parts;
ghost use Rattle.volume_steps.specs.Steps.{dot_slots, new_file_inode};

use blk_base::NoMemory;
use minix_layout::{Inode, Zones};
use minix_tables::directories::Slots;
use std::alloc::Global;
use tree_model::Names;
use volume_in_use::now::{dot, dots};
use volume_model::{DirectoryPart, Part, Placed};

/// A regular file with the rights 644, of no bytes, with one link.
pub fn new_file_inode() -> Inode
    ensures { result ≡ new_file_inode }
{
    Inode {
        mode: 0o100_644,
        uid: 0,
        size: 0,
        time: 0,
        gid: 0,
        links: 1,
        zones: Zones::of([0; 9]),
    }
}

/// A directory without names, before it has a zone.
pub fn new_directory(
    alloc: Global,
    number: u16,
    width: u16,
    parent: u64,
    above: u16,
) -> Result<Placed, NoMemory>
    ensures { IfOk result (λ p. p ≡ record {
      number = number;
      inode = new_directory_inode width 0;
      part = parts.Directory (record { parent = parent; width = width; names = []; slots = dot_slots number above });
    }) }
{
    let slots = Vec::from_array(alloc, [Some(dot(number)), Some(dots(above))])?;
    Ok(Placed {
        number,
        inode: Inode::new_directory(width, 0),
        part: Part::Directory(DirectoryPart {
            parent,
            width,
            names: Names::new(alloc),
            slots: Slots::of(slots),
        }),
    })
}
