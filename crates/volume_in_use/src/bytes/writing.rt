//! Bytes are written to a file.
ghost use Rattle.std.specs.Prelude.{◌≡◌, ◌≤◌, ◌<◌, ◌+◌, ◌*◌, ◌/◌, ◌^◌, length, IfOk, OnErr};
ghost use Rattle.std.specs.List.{range_with_len};
ghost use Rattle.minix_layout.specs.Geometry.{IsSound};
ghost use Rattle.tree_model.specs.Calls.{largest_size, touched_blocks};
ghost use Rattle.volume_steps.specs.Calls.{write_at};
ghost use Rattle.volume_in_use.specs.bytes.Contents.{bytes_of};
ghost use Rattle.volume_in_use.specs.bytes.MayWrite.{MayWrite};
ghost use Rattle.volume_in_use.specs.bytes.code.Work.{blocks_work};

use crate::bytes::Content;
use crate::bytes::blocks::{set_size, write_block};
use crate::bytes::open::{OpenFile, close_file, open_file};
use crate::now::{Touched, VolumeNow};
use blk_base::NoMemory;
use std::alloc::Global;

/// Writes bytes to the file with this birth, from `off` on, and tells what that touched. What it costs grows with the
/// blocks that it writes. Memory is asked for before the first write, and where it is refused all is as before.
pub fn write(
    alloc: Global,
    v: &mut VolumeNow,
    birth: u64,
    off: u32,
    content: &Content<'_>,
) -> Result<Touched, NoMemory>
    requires { MayWrite v.old birth off (length (bytes_of content.now)) }
    ensures done { IfOk result (λ t. record { volume = v.new; touched = t.touched } ≡
        write_at v.old birth off (bytes_of content.now)) }
    ensures memory { OnErr result (v.new ≡ v.old) }
{
    let end = off + content.count();
    let count = block_count(off, content.count());
    let mut touched = Touched::with_room(alloc, 10 * count as usize + 2)?;
    let mut file = open_file(alloc, v, birth);
    if file.zones.add_holes(off / 1024, count).is_err() {
        close_file(v, file);
        return Err(NoMemory);
    }
    write_blocks(v, &mut file, off, content, count, &mut touched);
    let size = end.max(file.inode.size);
    set_size(v, &mut file, size, &mut touched);
    close_file(v, file);
    Ok(touched)
}

// How many blocks these bytes touch.
pub fn block_count(off: u32, len: u32) -> u32
    requires { off + len ≤ largest_size }
    ensures blocks { range_with_len (off / 1024) result ≡ touched_blocks off len }
    ensures ends { 1024 * (off / 1024 + result) < off + len + 1024 }
{
    if len == 0 {
        0
    } else {
        (off + len - 1) / 1024 - off / 1024 + 1
    }
}

// Writes the bytes to so many blocks.
pub fn write_blocks(
    v: &mut VolumeNow,
    file: &mut OpenFile,
    off: u32,
    content: &Content<'_>,
    count: u32,
    touched: &mut Touched,
)
    requires sound { IsSound v.old.geometry }
    requires number { 0 < file.old.number }
    requires ends { 1024 * (off / 1024 + count) < off + length (bytes_of content.now) + 1024 }
    requires fits { off + length (bytes_of content.now) ≤ largest_size }
    requires room { 10 * count ≤ touched.old.spare }
    ensures work { record { volume = v.new; file = file.new; touched = touched.new.touched } ≡
        blocks_work off (bytes_of content.now) (range_with_len (off / 1024) count)
        (record { volume = v.old; file = file.old; touched = touched.old.touched }) }
    ensures spare { touched.old.spare ≤ touched.new.spare + 10 * count }
{
    let first = off / 1024;
    for index in first..first + count {
        write_block(v, file, off, content, index, touched);
    }
}
