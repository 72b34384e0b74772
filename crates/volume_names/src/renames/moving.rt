//! A node gets a name that no node has.
ghost use Rattle.std.specs.Prelude.{◌≡◌, IfOk, OnErr};
ghost use Rattle.volume_steps.specs.Calls.{move_in, move_below};
ghost use Rattle.volume_names.specs.renames.May.{MayMoveWithin, MayMoveAcross, MayMoveBelow};

use crate::removals::{take_link, take_name};
use crate::renames::entries::{add_slot, put_name};
use crate::renames::site::Site;
use crate::renames::slots::set_parent;
use crate::{add_link, enter, number_of, slot_of, write_name};
use blk_base::NoMemory;
use minix_layout::Name;
use std::alloc::Global;
use volume_in_use::now::{Touched, VolumeNow};

/// Gives the node with this birth another name in its directory, and tells what that touched. Memory is asked for before
/// the first write, and where it is refused all is as before.
pub fn move_within(
    alloc: Global,
    v: &mut VolumeNow,
    from: &Site,
    name: &Name,
    birth: u64,
) -> Result<Touched, NoMemory>
    requires { MayMoveWithin v.old from.now.parent from.now.name name.now birth }
    ensures done { IfOk result (λ t. record { volume = v.new; touched = t.touched } ≡ move_in v.old from.now.parent from.now.name from.now.parent name.now birth) }
    ensures memory { OnErr result (v.new ≡ v.old) }
{
    let mut touched = Touched::with_room(alloc, 13)?;
    let number = number_of(&v.nodes, birth);
    let slot = slot_of(number, name);
    put_name(&mut v.nodes, from.parent, name.copy(), birth)?;
    take_name(v, from.parent, &from.name, &mut touched);
    let new = add_slot(&mut v.nodes, from.parent, slot_of(number, name));
    write_name(v, from.parent, &slot, new, &mut touched);
    Ok(touched)
}

/// Gives the node with this birth a name in another directory, in place of its own, and tells what that touched. A
/// directory keeps its parent as it is written: `move_below` does both.
pub fn move_across(
    alloc: Global,
    v: &mut VolumeNow,
    from: &Site,
    to: &Site,
    birth: u64,
) -> Result<Touched, NoMemory>
    requires { MayMoveAcross v.old from.now.parent from.now.name to.now.parent to.now.name birth }
    ensures done { IfOk result (λ t. record { volume = v.new; touched = t.touched } ≡ move_in v.old from.now.parent from.now.name to.now.parent to.now.name birth) }
    ensures memory { OnErr result (v.new ≡ v.old) }
{
    let mut touched = Touched::with_room(alloc, 13)?;
    let number = number_of(&v.nodes, birth);
    let slot = slot_of(number, &to.name);
    let new = enter(&mut v.nodes, to.parent, slot_of(number, &to.name), birth)?;
    take_name(v, from.parent, &from.name, &mut touched);
    write_name(v, to.parent, &slot, new, &mut touched);
    Ok(touched)
}

/// Moves the directory with this birth below another parent, under a name that none has there, and tells what that
/// touched.
pub fn move_below(
    alloc: Global,
    v: &mut VolumeNow,
    from: &Site,
    to: &Site,
    birth: u64,
) -> Result<Touched, NoMemory>
    requires { MayMoveBelow v.old from.now.parent from.now.name to.now.parent to.now.name birth }
    ensures done { IfOk result (λ t. record { volume = v.new; touched = t.touched } ≡ move_below v.old from.now.parent from.now.name to.now.parent to.now.name birth) }
    ensures memory { OnErr result (v.new ≡ v.old) }
{
    let mut touched = Touched::with_room(alloc, 17)?;
    let number = number_of(&v.nodes, birth);
    let above = number_of(&v.nodes, to.parent);
    let slot = slot_of(number, &to.name);
    let new = enter(&mut v.nodes, to.parent, slot_of(number, &to.name), birth)?;
    take_name(v, from.parent, &from.name, &mut touched);
    take_link(v, from.parent, &mut touched);
    set_parent(v, birth, to.parent, above, &mut touched);
    add_link(v, to.parent, &mut touched);
    write_name(v, to.parent, &slot, new, &mut touched);
    Ok(touched)
}
