//! A name of a file goes, and with its last name the file.
ghost use Rattle.std.specs.Prelude.{◌≡◌, ◌+◌, ◌*◌, length, IfOk, OnErr};
ghost use Rattle.volume_steps.specs.Calls.{unlink_in};
ghost use Rattle.volume_names.specs.removals.May.{MayUnlink};

use crate::removals::gone::{blocks_of, metadata_of};
use crate::removals::names::take_name;
use crate::removals::nodes::{drop_node, links_of, take_link};
use blk_base::NoMemory;
use minix_layout::Name;
use std::alloc::Global;
use volume_in_use::now::{Touched, VolumeNow};
use volume_ops::Mapped;

/// Takes this name of the file with this birth out of the directory with birth `parent`, in transaction `tx`, and tells
/// what that touched. With its last name the file goes, and its zones wait for the transaction. Memory is asked for before
/// the first write, and where it is refused all is as before.
pub fn unlink(
    alloc: Global,
    v: &mut VolumeNow,
    tx: u32,
    birth: u64,
    parent: u64,
    name: &Name,
) -> Result<Touched, NoMemory>
    requires { MayUnlink v.old birth parent name.now }
    ensures done { IfOk result (λ t. record { volume = v.new; touched = t.touched } ≡ unlink_in v.old tx parent name.now birth) }
    ensures memory { OnErr result (v.new ≡ v.old) }
{
    if links_of(&v.nodes, birth) > 1 {
        let mut touched = Touched::with_room(alloc, 3)?;
        take_name(v, parent, name, &mut touched);
        take_link(v, birth, &mut touched);
        return Ok(touched);
    }
    let metadata = metadata_of(alloc, v, birth)?;
    let mut touched = Touched::with_room(alloc, room(blocks_of(v, birth), &metadata))?;
    take_name(v, parent, name, &mut touched);
    drop_node(v, tx, birth, &metadata, &mut touched);
    Ok(touched)
}

/// Room for the notes of a file that goes: three for each zone, three for its inode and two for its name.
pub fn room(blocks: &[Mapped], metadata: &[u16]) -> usize
    ensures { result ≡ 3 * (length blocks.now + length metadata.now) + 5 }
{
    3 * (blocks.len() + metadata.len()) + 5
}
