//! Writes to single blocks of an open file. No call takes memory.
ghost use Rattle.std.specs.Prelude.{◌≡◌, ◌≤◌, ◌<◌, ◌+◌, ◌*◌, length};
ghost use Rattle.minix_layout.specs.Geometry.{IsSound};
ghost use Rattle.tree_model.specs.Calls.{largest_size};
ghost use Rattle.volume_in_use.specs.bytes.Contents.{bytes_of};
ghost use Rattle.volume_in_use.specs.bytes.code.Work.{map_work, put_work, block_work, size_work};

use crate::bytes::Content;
use crate::bytes::bodies::{patched, patched_zone};
use crate::bytes::numbers::note_numbers;
use crate::bytes::open::OpenFile;
use crate::now::{Page, Touched, VolumeNow, block_zone, copy_inode, take_zones, write_inode};
use blk_base::Block;
use volume_model::editing::{map_block, put_body};

// A hole gets a zone with these bytes.
#[tactic(auto, unfolding(crate::specs::bytes::code::Work::map_work))]
fn map_new(
    v: &mut VolumeNow,
    file: &mut OpenFile,
    index: u32,
    content: &Block,
    touched: &mut Touched,
)
    requires sound { IsSound v.old.geometry }
    requires number { 0 < file.old.number }
    requires within { index < 262663 }
    requires room { 10 ≤ touched.old.spare }
    ensures work { record { volume = v.new; file = file.new; touched = touched.new.touched } ≡
        map_work content.now index (record { volume = v.old; file = file.old; touched = touched.old.touched }) }
    ensures spare { touched.old.spare ≤ touched.new.spare + 10 }
{
    let g = &v.geometry;
    let taken = take_zones(&mut v.zones, &mut v.blocks, g, &file.inode, index, touched);
    note_numbers(&v.blocks, &file.inode, &taken, index, touched);
    let before = copy_inode(&file.inode);
    map_block(&mut v.blocks, g, &mut file.inode, index, &taken, content);
    let (number, after) = (file.number, &file.inode);
    write_inode(&mut v.blocks, g, number, &before, after, touched);
    file.zones.set_zone(index, taken.data_zone);
    touched.note_page(Page {
        birth: file.birth,
        index,
        zone: taken.data_zone,
    });
    touched.note_node(file.birth);
}

// A block that has a zone gets these bytes.
#[tactic(auto, unfolding(crate::specs::bytes::code::Work::put_work))]
pub fn put_page(
    v: &mut VolumeNow,
    file: &OpenFile,
    index: u32,
    zone: u16,
    content: &Block,
    touched: &mut Touched,
)
    requires { 1 ≤ touched.old.spare }
    ensures work { record { volume = v.new; file = file.now; touched = touched.new.touched } ≡
        put_work content.now index zone (record { volume = v.old; file = file.now; touched = touched.old.touched }) }
    ensures spare { touched.old.spare ≤ touched.new.spare + 1 }
{
    put_body(&mut v.blocks, &v.geometry, zone, content);
    touched.note_page(Page {
        birth: file.birth,
        index,
        zone,
    });
}

// Those of the bytes from `off` on that lie in this block are written.
pub fn write_block(
    v: &mut VolumeNow,
    file: &mut OpenFile,
    off: u32,
    content: &Content<'_>,
    index: u32,
    touched: &mut Touched,
)
    requires sound { IsSound v.old.geometry }
    requires number { 0 < file.old.number }
    requires within { index < 262663 }
    requires reaches { off < 1024 * index + 1024 }
    requires begins { 1024 * index < off + length (bytes_of content.now) }
    requires fits { off + length (bytes_of content.now) ≤ largest_size }
    requires room { 10 ≤ touched.old.spare }
    ensures work { record { volume = v.new; file = file.new; touched = touched.new.touched } ≡
        block_work off (bytes_of content.now) index (record { volume = v.old; file = file.old; touched = touched.old.touched }) }
    ensures spare { touched.old.spare ≤ touched.new.spare + 10 }
{
    let zone = block_zone(&v.blocks, &file.inode, index);
    if zone == 0 {
        let body = patched(&Block::fill(0), index, off, content);
        map_new(v, file, index, &body, touched);
    } else {
        let body = patched_zone(&v.blocks, zone, index, off, content);
        put_page(v, file, index, zone, &body, touched);
    }
}

// The file has this size.
#[tactic(auto, unfolding(crate::specs::bytes::code::Work::size_work))]
pub fn set_size(v: &mut VolumeNow, file: &mut OpenFile, size: u32, touched: &mut Touched)
    requires number { 0 < file.old.number }
    requires room { 2 ≤ touched.old.spare }
    ensures { record { volume = v.new; file = file.new; touched = touched.new.touched } ≡
        size_work size (record { volume = v.old; file = file.old; touched = touched.old.touched }) }
{
    if size == file.inode.size {
        return;
    }
    let before = copy_inode(&file.inode);
    file.inode.size = size;
    let (number, after) = (file.number, &file.inode);
    write_inode(&mut v.blocks, &v.geometry, number, &before, after, touched);
    touched.note_node(file.birth);
}
