//! A file gets the name of another file, which loses a link, and goes with its last name.
ghost use Rattle.std.specs.Prelude.{◌≡◌, ◌≤◌, ◌+◌, ℕ, IfOk, OnOk, OnErr};
ghost use Rattle.volume_steps.specs.Calls.{replace_in};
ghost use Rattle.volume_steps.specs.Now.{followed_by};
ghost use Rattle.volume_steps.specs.Steps.{take_name, lead_name};
ghost use Rattle.volume_names.specs.code.Steps.{After};
ghost use Rattle.volume_names.specs.renames.May.{MayReplace};

use crate::removals::{blocks_of, drop_node, links_of, metadata_of, room, take_link, take_name};
use crate::renames::entries::put_name;
use crate::renames::site::Site;
use crate::renames::slots::lead_slot;
use crate::{number_of, slot_of};
use blk_base::NoMemory;
use std::alloc::Global;
use volume_in_use::now::{Touched, VolumeNow};

/// Gives the file with this birth the name of the file `gone`, in place of its own, in transaction `tx`, and tells what
/// that touched. With its last name the file `gone` goes, and its zones wait for the transaction. Memory is asked for
/// before the first write, and where it is refused all is as before.
pub fn replace(
    alloc: Global,
    v: &mut VolumeNow,
    tx: u32,
    from: &Site,
    to: &Site,
    birth: u64,
    gone: u64,
) -> Result<Touched, NoMemory>
    requires { MayReplace v.old from.now.parent from.now.name to.now.parent to.now.name birth gone }
    ensures done { IfOk result (λ t. record { volume = v.new; touched = t.touched } ≡ replace_in v.old tx from.now.parent from.now.name to.now.parent to.now.name birth gone) }
    ensures memory { OnErr result (v.new ≡ v.old) }
{
    if links_of(&v.nodes, gone) > 1 {
        let mut touched = Touched::with_room(alloc, 5)?;
        take_over(v, from, to, birth, &mut touched)?;
        take_link(v, gone, &mut touched);
        return Ok(touched);
    }
    let metadata = metadata_of(alloc, v, gone)?;
    let mut touched = Touched::with_room(alloc, room(blocks_of(v, gone), &metadata) + 2)?;
    take_over(v, from, to, birth, &mut touched)?;
    drop_node(v, tx, gone, &metadata, &mut touched);
    Ok(touched)
}

// The node's own name goes, and the other one leads to it.
fn take_over(
    v: &mut VolumeNow,
    from: &Site,
    to: &Site,
    birth: u64,
    touched: &mut Touched,
) -> Result<(), NoMemory>
    requires may { (gone : ℕ) × MayReplace v.old from.now.parent from.now.name to.now.parent to.now.name birth gone }
    requires room { 4 ≤ touched.old.spare }
    ensures done { OnOk result (After touched.old.touched
        (followed_by (take_name v.old from.now.parent from.now.name) (λ u. lead_name u to.now.parent to.now.name birth)) v.new touched.new.touched) }
    ensures spare { OnOk result (touched.new.spare + 4 ≡ touched.old.spare) }
    ensures memory { OnErr result (v.new ≡ v.old) }
{
    let slot = slot_of(number_of(&v.nodes, birth), &to.name);
    put_name(&mut v.nodes, to.parent, to.name.copy(), birth)?;
    take_name(v, from.parent, &from.name, touched);
    lead_slot(v, to.parent, &slot, touched);
    Ok(())
}
