//! A node loses a link, or goes. No call takes memory.
ghost use Rattle.std.specs.Prelude.{◌≡◌, ◌≤◌, ◌<◌, ◌+◌, ◌-◌, ◌*◌, ℕ, length, Some};
ghost use Rattle.tree_model.specs.Maps.{at_number};
ghost use Rattle.volume_model.specs.declared.placed.Placed.{Placed};
ghost use Rattle.volume_steps.specs.Steps.{set_links, drop_node};
ghost use Rattle.volume_names.specs.code.Steps.{After};
ghost use Rattle.volume_names.specs.removals.code.Dropping.{MayDrop, blocks_in};

use crate::mark_inode;
use crate::removals::gone::blocks_in;
use minix_layout::{Geometry, Inode};
use std::collections::BTreeMap;
use volume_in_use::bytes::{free_blocks, free_numbers};
use volume_in_use::now::{Touched, VolumeNow, copy_inode, write_inode};
use volume_model::Placed;
use volume_model::editing::{put_inode, table_block};

/// The links of a node; 0 where there is no such node.
pub fn links_of(nodes: &BTreeMap<u64, Placed>, n: u64) -> u8
    ensures { (p : Placed) → at_number nodes.now.entries n ≡ Some p → result ≡ p.inode.links }
{
    match nodes.get(&n) {
        Some(placed) => placed.inode.links,
        None => 0,
    }
}

/// Takes a link from a node.
pub fn take_link(v: &mut VolumeNow, n: u64, touched: &mut Touched)
    requires numbers { (p : Placed) → at_number v.old.contents.nodes n ≡ Some p → 0 < p.number }
    requires room { 1 ≤ touched.old.spare }
    ensures done { After touched.old.touched (set_links v.old n (λ links. links - 1)) v.new touched.new.touched }
    ensures spare { touched.old.spare ≤ touched.new.spare + 1 }
{
    let Some(placed) = v.nodes.get_mut(&n) else {
        return;
    };
    let before = copy_inode(&placed.inode);
    placed.inode.links = placed.inode.links.saturating_sub(1);
    write_inode(
        &mut v.blocks,
        &v.geometry,
        placed.number,
        &before,
        &placed.inode,
        touched,
    );
}

/// A node goes in transaction `tx`: its inode becomes zeros, and its zones wait for the transaction. `metadata` are those
/// of them that are no blocks of a file.
pub fn drop_node(v: &mut VolumeNow, tx: u32, n: u64, metadata: &[u16], touched: &mut Touched)
    requires may { MayDrop v.old tx n metadata.now }
    requires room { (p : Placed) → at_number v.old.contents.nodes n ≡ Some p →
        3 * (length (blocks_in p.part) + length metadata.now) + 3 ≤ touched.old.spare }
    ensures done { After touched.old.touched (drop_node v.old tx n) v.new touched.new.touched }
{
    let Some(node) = v.nodes.remove(&n) else {
        unreachable!();
    };
    mark_inode(&mut v.blocks, &v.geometry, false, node.number, touched);
    free_blocks(v, tx, n, blocks_in(&node.part), touched);
    free_numbers(v, tx, metadata, touched);
    put_inode(&mut v.blocks, &v.geometry, node.number, &Inode::zeros());
    touched.note_block(table_block(&v.geometry, node.number));
    touched.note_node(n);
}
