//! Bodies of blocks, each made anew.
ghost use Rattle.std.specs.Prelude.{◌≡◌, ◌≢◌, ◌≤◌, ◌<◌, ◌+◌, ◌*◌, ◌-◌, ◌/◌, ◌%◌, length, take, drop, replicate, ◌++◌};
ghost use Rattle.tree_model.specs.Calls.{patched, cut_body, largest_size};
ghost use Rattle.volume_ops.specs.Volume.{disk_of};
ghost use Rattle.volume_in_use.specs.bytes.Contents.{bytes_of};

use crate::bytes::Content;
use blk_base::{Block, Image};

// A block with those of the bytes from `off` on that lie in it. Of the old bytes only those are read that stay.
pub fn patched(old: &Block, index: u32, off: u32, content: &Content<'_>) -> Block
    requires reaches { off < 1024 * index + 1024 }
    requires begins { 1024 * index < off + length (bytes_of content.now) }
    requires fits { off + length (bytes_of content.now) ≤ largest_size }
    ensures { result ≡ patched index off (bytes_of content.now) old.now }
{
    let start = 1024 * index;
    let from = off.saturating_sub(start) as usize;
    let skip = start.saturating_sub(off);
    let count = (content.count() - skip).min(1024 - from as u32) as usize;
    let end = from + count;
    let mut bytes = [0; 1024];
    copy_front(&mut bytes, old.as_slice(), from);
    copy_part(&mut bytes, content, skip as usize, from, end);
    copy_back(&mut bytes, old.as_slice(), end);
    Block::of(&bytes)
}

// Copies the bytes before place `n`.
fn copy_front(bytes: &mut [u8], from: &[u8], n: usize)
    requires inside { n ≤ length bytes.old }
    requires there { n ≤ length from.now }
    ensures { bytes.new ≡ take n from.now ++ drop n bytes.old }
{
    bytes[..n].copy_from_slice(&from[..n]);
}

// Copies the bytes from place `n` on.
fn copy_back(bytes: &mut [u8], from: &[u8], n: usize)
    requires inside { n ≤ length bytes.old }
    requires there { length bytes.old ≡ length from.now }
    ensures { bytes.new ≡ take n bytes.old ++ drop n from.now }
{
    bytes[n..].copy_from_slice(&from[n..]);
}

// Copies what is written, from `skip` on, to the places from `start` up to `end`.
fn copy_part(bytes: &mut [u8], content: &Content<'_>, skip: usize, start: usize, end: usize)
    requires order { start ≤ end }
    requires inside { end ≤ length bytes.old }
    requires there { skip + (end - start) ≤ length (bytes_of content.now) }
    ensures { bytes.new ≡
        take start bytes.old ++ (take (end - start) (drop skip (bytes_of content.now)) ++ drop end bytes.old) }
{
    content.copy_to(skip, &mut bytes[start..end]);
}

// A block whose bytes from `keep` on are zeros.
pub fn cut_off(old: &Block, keep: usize) -> Block
    requires { keep ≤ 1024 }
    ensures { result ≡ take keep old.now ++ replicate (1024 - keep) 0 }
{
    let mut bytes = [0; 1024];
    copy_front(&mut bytes, old.as_slice(), keep);
    Block::of(&bytes)
}

// The block of a zone with those bytes that lie in block `index`.
pub fn patched_zone(blocks: &Image, zone: u16, index: u32, off: u32, content: &Content<'_>) -> Block
    requires reaches { off < 1024 * index + 1024 }
    requires begins { 1024 * index < off + length (bytes_of content.now) }
    requires fits { off + length (bytes_of content.now) ≤ largest_size }
    ensures { result ≡ patched index off (bytes_of content.now) (disk_of blocks.now zone) }
{
    if u32::from(zone) < blocks.len() {
        patched(blocks.block(zone.into()), index, off, content)
    } else {
        patched(&Block::fill(0), index, off, content)
    }
}

// The block of a zone in which a size ends, with zeros behind that.
pub fn cut_zone(blocks: &Image, zone: u16, size: u32) -> Block
    requires { size % 1024 ≢ 0 }
    ensures { result ≡ cut_body size (size / 1024) (disk_of blocks.now zone) }
{
    let keep = (size % 1024) as usize;
    if u32::from(zone) < blocks.len() {
        cut_off(blocks.block(zone.into()), keep)
    } else {
        cut_off(&Block::fill(0), keep)
    }
}
