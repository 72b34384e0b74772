//! The blocks of a new volume.
ghost use Rattle.std.specs.Prelude.{◌≡◌, ◌+◌, ◌<◌, ◌≤◌, IsTrue};
ghost use Rattle.minix_layout.specs.Geometry.{IsSound};
ghost use Rattle.minix_layout.specs.Words.{is_name};
ghost use Rattle.minix_layout.specs.Widths.{IsWidth};
ghost use Rattle.mount_make.specs.Made.{map_byte, map_block, made_block};
ghost use Rattle.mount_make.specs.code.Making.{root_table, root_zone};

use blk_base::Block;
use minix_layout::{Geometry, Inode, Name, Slot, write_inode, write_slot, write_super};

// A block of a new volume: its superblock, a block of a map, the root's inode or its slots, or zeros.
pub(crate) fn volume_block(g: &Geometry, block: u32) -> Block
    requires sound { IsSound g.now }
    ensures { result ≡ made_block g.now block }
{
    let zones_map = 2 + u32::from(g.imap);
    let table = zones_map + u32::from(g.zmap);
    if block == 1 {
        return write_super(g);
    }
    if block < 2 {
        return Block::fill(0);
    }
    if block < zones_map {
        return map_block(u32::from(g.inodes), 8192 * (block - 2));
    }
    if block < table {
        return map_block(u32::from(g.zones - g.first), 8192 * (block - zones_map));
    }
    if block == table {
        return root_table(g);
    }
    if block == u32::from(g.first) {
        return root_zone(g);
    }
    Block::fill(0)
}

// A block of a map, from this bit on. The last thing that the map is for has the bit `last`.
fn map_block(last: u32, from: u32) -> Block
    requires some { 1 ≤ last }
    requires fits { last + from + 8200 < 4294967296 }
    ensures { result ≡ map_block last from }
{
    let mut block = Block::fill(0);
    for k in 0..1024 {
        block.set(k, map_byte(last, from + 8 * k as u32));
    }
    block
}

// The byte with the eight bits from this one on: bits 0 and 1 are taken, and those past the last.
fn map_byte(last: u32, from: u32) -> u8
    requires some { 1 ≤ last }
    requires fits { last < 4294967295 }
    ensures { result ≡ map_byte last from }
{
    let free = (last + 1).saturating_sub(from).min(8);
    let past = 256 - (1u32 << free);
    let first = if from == 0 { 3 } else { 0 };
    (past + first) as u8
}

// The first block of the table, where the root has its inode.
#[tactic(auto, unfolding(crate::specs::code::Making::root_table))]
fn root_table(g: &Geometry) -> Block
    ensures { result ≡ root_table g.now }
{
    let mut table = Block::fill(0);
    write_inode(&mut table, 0, &Inode::new_directory(g.width, g.first));
    table
}

// The root's zone, with . and .. alone.
#[tactic(auto, unfolding(crate::specs::code::Making::root_zone))]
fn root_zone(g: &Geometry) -> Block
    requires { IsWidth g.now.width }
    ensures { result ≡ root_zone g.now }
{
    let mut zone = Block::fill(0);
    write_slot(&mut zone, 0, Some(&root_slot(b".")), g.width);
    write_slot(&mut zone, 1, Some(&root_slot(b"..")), g.width);
    zone
}

// A slot that names the root.
fn root_slot(name: &[u8]) -> Slot
    requires { IsTrue (is_name name.now) }
    ensures { result ≡ record { inode = 1; name = name.now } }
{
    match Name::of(name) {
        Some(name) => Slot { inode: 1, name },
        None => unreachable!(),
    }
}
