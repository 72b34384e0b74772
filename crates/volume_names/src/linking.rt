//! A file gets a name more.
ghost use Rattle.std.specs.Prelude.{◌≡◌, IfOk, OnErr};
ghost use Rattle.volume_steps.specs.Calls.{link_in};
ghost use Rattle.volume_names.specs.May.{MayLink};

use crate::directories::slot_of;
use crate::entries::enter;
use crate::names::write_name;
use crate::nodes::{add_link, number_of};
use blk_base::NoMemory;
use minix_layout::Name;
use std::alloc::Global;
use volume_in_use::now::{Touched, VolumeNow};

/// Gives the file with this birth another name, in the directory with birth `parent`.
pub fn link(
    alloc: Global,
    v: &mut VolumeNow,
    birth: u64,
    parent: u64,
    name: &Name,
) -> Result<Touched, NoMemory>
    requires { MayLink v.old birth parent name.now }
    ensures done { IfOk result (λ t. record { volume = v.new; touched = t.touched } ≡ link_in v.old birth parent name.now) }
    ensures memory { OnErr result (v.new ≡ v.old) }
{
    let mut touched = Touched::with_room(alloc, 12)?;
    let number = number_of(&v.nodes, birth);
    let slot = slot_of(number, name);
    let new = enter(&mut v.nodes, parent, slot_of(number, name), birth)?;
    add_link(v, birth, &mut touched);
    write_name(v, parent, &slot, new, &mut touched);
    Ok(touched)
}
