//! An inode that a call may change is written where it did. No call takes memory.
ghost use Rattle.std.specs.Prelude.{◌≡◌, ◌≤◌, ◌<◌, ◌+◌};
ghost use Rattle.volume_model.specs.Moves.{same_inode, inode_written, inode_told};
ghost use Rattle.volume_model.specs.Touched.{and_then};
ghost use Rattle.volume_steps.specs.Now.{tells_blocks};

use crate::now::Touched;
use blk_base::Image;
use minix_layout::{Geometry, Inode, Zones};
use volume_model::editing::{put_inode, table_block};

/// The same inode once more.
pub fn copy_inode(inode: &Inode) -> Inode
    ensures { result ≡ inode.now }
{
    let mut numbers = [0; 9];
    numbers.copy_from_slice(inode.zones.as_slice());
    Inode {
        mode: inode.mode,
        uid: inode.uid,
        size: inode.size,
        time: inode.time,
        gid: inode.gid,
        links: inode.links,
        zones: Zones::of(numbers),
    }
}

// Two inodes have the same fields.
fn same_inode(a: &Inode, b: &Inode) -> bool
    ensures { result ≡ same_inode a.now b.now }
{
    a.mode == b.mode
        && a.uid == b.uid
        && a.size == b.size
        && a.time == b.time
        && a.gid == b.gid
        && a.links == b.links
        && a.zones.as_slice() == b.zones.as_slice()
}

/// Writes an inode where a field of it changed, and notes its block of the table then.
#[tactic(auto, unfolding(volume_model::specs::Moves::inode_written, volume_model::specs::Moves::inode_told))]
pub fn write_inode(
    blocks: &mut Image,
    g: &Geometry,
    number: u16,
    before: &Inode,
    after: &Inode,
    touched: &mut Touched,
)
    requires number { 0 < number }
    requires room { 1 ≤ touched.old.spare }
    ensures blocks { blocks.new ≡ inode_written g.now blocks.old number before.now after.now }
    ensures touched { touched.new.touched ≡
        and_then touched.old.touched (tells_blocks (inode_told g.now number before.now after.now)) }
    ensures spare { touched.old.spare ≤ touched.new.spare + 1 }
{
    if !same_inode(after, before) {
        put_inode(blocks, g, number, after);
        touched.note_block(table_block(g, number));
    }
}
