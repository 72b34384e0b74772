//! A file comes into a directory.
ghost use Rattle.std.specs.Prelude.{◌≡◌, IfOk, OnErr};
ghost use Rattle.volume_steps.specs.Calls.{create_in};
ghost use Rattle.volume_steps.specs.Zones.{new_number};
ghost use Rattle.volume_names.specs.May.{MayCreate};

use crate::directories::slot_of;
use crate::entries::enter_new;
use crate::inodes::new_file_inode;
use crate::names::{write_file, write_name};
use blk_base::NoMemory;
use minix_layout::Name;
use std::alloc::Global;
use volume_in_use::now::{Touched, VolumeNow};
use volume_model::{FileZones, Part, Placed};

/// Makes an empty file with birth `n` in the lowest free inode, under this name in the directory with birth `parent`.
pub fn create(
    alloc: Global,
    v: &mut VolumeNow,
    n: u64,
    number: u16,
    parent: u64,
    name: &Name,
) -> Result<Touched, NoMemory>
    requires may { MayCreate v.old n parent name.now }
    requires number { number ≡ new_number v.old.geometry v.old.contents.nodes }
    ensures done { IfOk result (λ t. record { volume = v.new; touched = t.touched } ≡ create_in v.old n parent name.now) }
    ensures memory { OnErr result (v.new ≡ v.old) }
{
    let mut touched = Touched::with_room(alloc, 14)?;
    let file = Placed {
        number,
        inode: new_file_inode(),
        part: Part::File(FileZones::new(alloc)),
    };
    let slot = slot_of(number, name);
    let new = enter_new(&mut v.nodes, n, file, parent, slot_of(number, name))?;
    write_file(v, n, number, &mut touched);
    write_name(v, parent, &slot, new, &mut touched);
    Ok(touched)
}
