//! A directory without names goes.
ghost use Rattle.std.specs.Prelude.{◌≡◌, IfOk, OnErr};
ghost use Rattle.volume_steps.specs.Calls.{rmdir_in};
ghost use Rattle.volume_names.specs.removals.May.{MayRmdir};

use crate::removals::gone::metadata_of;
use crate::removals::names::take_name;
use crate::removals::nodes::{drop_node, take_link};
use blk_base::NoMemory;
use minix_layout::Name;
use std::alloc::Global;
use volume_in_use::now::{Touched, VolumeNow};

/// Removes the directory with this birth, with its name in the directory with birth `parent`, in transaction `tx`, and
/// tells what that touched. Its zones wait for the transaction. Memory is asked for before the first write, and where it
/// is refused all is as before.
pub fn rmdir(
    alloc: Global,
    v: &mut VolumeNow,
    tx: u32,
    birth: u64,
    parent: u64,
    name: &Name,
) -> Result<Touched, NoMemory>
    requires { MayRmdir v.old birth parent name.now }
    ensures done { IfOk result (λ t. record { volume = v.new; touched = t.touched } ≡ rmdir_in v.old tx parent name.now birth) }
    ensures memory { OnErr result (v.new ≡ v.old) }
{
    let metadata = metadata_of(alloc, v, birth)?;
    let mut touched = Touched::with_room(alloc, 3 * metadata.len() + 6)?;
    take_name(v, parent, name, &mut touched);
    take_link(v, parent, &mut touched);
    drop_node(v, tx, birth, &metadata, &mut touched);
    Ok(touched)
}
