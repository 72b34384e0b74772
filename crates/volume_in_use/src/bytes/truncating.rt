//! Truncates a file: sets its size and frees the blocks past it.
ghost use Rattle.std.specs.Prelude.{◌≡◌, ◌+◌, ◌*◌, IfOk, OnErr, length};
ghost use Rattle.volume_steps.specs.Calls.{truncate_at};
ghost use Rattle.volume_in_use.specs.bytes.MayWrite.{IsFileOf, MayTruncate};
ghost use Rattle.volume_in_use.specs.bytes.code.Listed.{IsListed};

use crate::bytes::blocks::set_size;
use crate::bytes::cutting::{clear_tail, cut_blocks};
use crate::bytes::open::{close_file, open_file};
use crate::now::{Touched, VolumeNow};
use blk_base::NoMemory;
use std::alloc::Global;
use volume_model::Part;
use volume_model::editing::{CutZones, WrittenZones, zones_cut, zones_written};

/// Gives the file with this birth a size, in transaction `tx`, and tells what that touched: blocks behind it go, and the
/// bytes behind it in its last block are zeros. Where it grows, it grows by a hole. Memory is asked for before the first
/// write, and where it is refused all is as before.
pub fn truncate(
    alloc: Global,
    v: &mut VolumeNow,
    tx: u32,
    birth: u64,
    size: u32,
) -> Result<Touched, NoMemory>
    requires { MayTruncate v.old birth size }
    ensures done { IfOk result (λ t. record { volume = v.new; touched = t.touched } ≡ truncate_at v.old tx birth size) }
    ensures memory { OnErr result (v.new ≡ v.old) }
{
    let from = size.div_ceil(1024);
    let (gone, written) = listed(alloc, v, birth, from)?;
    let mut touched = Touched::with_room(alloc, room(&gone))?;
    let mut file = open_file(alloc, v, birth);
    cut_blocks(v, &mut file, tx, from, &gone, written, &mut touched);
    clear_tail(v, &file, size, &mut touched);
    set_size(v, &mut file, size, &mut touched);
    close_file(v, file);
    Ok(touched)
}

// What a cut at block `from` lets go, and in which zones of numbers it changes a number.
fn listed(
    alloc: Global,
    v: &VolumeNow,
    birth: u64,
    from: u32,
) -> Result<(CutZones, WrittenZones), NoMemory>
    requires { IsFileOf v.now birth }
    ensures { IfOk result (λ l. IsListed v.now birth from l.0 l.1) }
{
    let Some(node) = v.nodes.get(&birth) else {
        unreachable!();
    };
    let Part::File(zones) = &node.part else {
        unreachable!();
    };
    let gone = zones_cut(alloc, &v.blocks, &node.inode, zones.as_slice(), from)?;
    let written = zones_written(&v.blocks, &node.inode, zones.as_slice(), from);
    Ok((gone, written))
}

// Room for the notes of a cut: three for each zone that goes, and those of the inode, of two zones of numbers, of the
// last block and of the size.
fn room(gone: &CutZones) -> usize
    ensures { result ≡ 3 * (length gone.now.blocks.items + length gone.now.numbers.items) + 7 }
{
    let (blocks, numbers) = (gone.blocks.as_slice(), gone.numbers.as_slice());
    3 * (blocks.len() + numbers.len()) + 7
}
