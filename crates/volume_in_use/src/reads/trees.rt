//! The tree that a volume in use stands for.
ghost use Rattle.std.specs.Prelude.{◌≡◌, IfOk};
ghost use Rattle.tree_model.specs.Maps.{at_number};
ghost use Rattle.volume_ops.specs.Volume.{bodies_of, disk_of};
ghost use Rattle.volume_model.specs.Trees.{node_now};
ghost use Rattle.volume_model.specs.Volume.{IsPart, IsRising};
ghost use Rattle.volume_steps.specs.Now.{tree_of_now};
ghost use Rattle.volume_steps.specs.Plain.{IsPlainNow};

use crate::now::VolumeNow;
use blk_base::{Block, Image, NoMemory};
use minix_layout::{Geometry, slot_size};
use std::alloc::Global;
use tree_model::{Directory, File, FileBlocks, Node, Tree};
use volume_model::{FileZones, Part, Placed};

// The bytes of a zone; zeros behind the last block.
fn body_at(blocks: &Image, zone: u16) -> Block
    ensures { result ≡ disk_of blocks.now zone }
{
    if u32::from(zone) < blocks.len() {
        blocks.block(zone.into()).copy()
    } else {
        Block::fill(0)
    }
}

// The bodies of a file's blocks.
fn bodies(alloc: Global, blocks: &Image, zones: &FileZones) -> Result<FileBlocks, NoMemory>
    requires { IsRising zones.now }
    ensures { IfOk result (λ bodies. bodies ≡ bodies_of blocks.now zones.now) }
{
    let mut bodies = FileBlocks::new(alloc);
    for mapped in zones.as_slice() {
        bodies.put(mapped.index, body_at(blocks, mapped.zone))?;
    }
    Ok(bodies)
}

fn node(alloc: Global, g: &Geometry, blocks: &Image, placed: &Placed) -> Result<Node, NoMemory>
    requires { IsPart g.now blocks.now placed.now.inode placed.now.part }
    ensures { IfOk result (λ node. node ≡ node_now blocks.now placed.now) }
{
    match &placed.part {
        Part::Directory(directory) => Ok(Node::Directory(Directory {
            parent: directory.parent,
            width: g.width,
            slots: placed.inode.size / slot_size(g.width),
            names: directory.names.copy(alloc)?,
        })),
        Part::File(zones) => Ok(Node::File(File {
            size: placed.inode.size,
            links: placed.inode.links,
            blocks: bodies(alloc, blocks, zones)?,
        })),
    }
}

/// The tree that a plain volume stands for, with the bytes of its files.
pub fn tree(alloc: Global, v: &VolumeNow) -> Result<Tree, NoMemory>
    requires { IsPlainNow v.now }
    ensures { IfOk result (λ tree. tree ≡ tree_of_now v.now) }
{
    let blocks = &v.blocks;
    let mut tree = Tree::new(alloc);
    for (birth, placed) in &v.nodes {
        tree.put(*birth, node(alloc, &v.geometry, blocks, placed)?)?;
    }
    Ok(tree)
}
