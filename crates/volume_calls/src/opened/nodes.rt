//! The nodes that a walk found, each with its place in the volume.
ghost use Rattle.std.specs.Prelude.{◌≡◌, [], IfOk, OnOk};
ghost use Rattle.blk_base.specs.Members.{In};
ghost use Rattle.minix_layout.specs.Widths.{IsWidth};
ghost use Rattle.tree_model.specs.Maps.{put_number};
ghost use Rattle.volume_ops.specs.declared.found.FoundNode.{FoundNode};
ghost use Rattle.volume_model.specs.ImageNodes.{part_found};
ghost use Rattle.volume_calls.specs.opened.code.Placing.{HasOrder, IsNodeFound, placed_found, put_all};

use blk_base::NoMemory;
use minix_layout::{Geometry, Inode};
use std::alloc::Global;
use std::collections::BTreeMap;
use volume_model::{DirectoryPart, FileZones, Part, Placed, slots_in};
use volume_ops::{Disk, Found, FoundNode, inode_at, inode_of_birth};

fn part_found(
    alloc: Global,
    g: &Geometry,
    disk: &Disk,
    inode: &Inode,
    found: Found,
) -> Result<Part, NoMemory>
    requires width { IsWidth g.now.width }
    requires order { HasOrder found }
    ensures { IfOk result (λ part. part ≡ part_found g.now disk.now inode.now found) }
{
    match found {
        Found::Directory(directory) => Ok(Part::Directory(DirectoryPart {
            parent: directory.parent,
            width: directory.width,
            names: directory.names,
            slots: slots_in(alloc, disk, g, inode)?,
        })),
        Found::File(file) => Ok(Part::File(FileZones::of(file.zones.into_vec()))),
        Found::Other(_) => Ok(Part::File(FileZones::new(alloc))),
    }
}

fn placed_found(
    alloc: Global,
    g: &Geometry,
    disk: &Disk,
    node: FoundNode,
) -> Result<Placed, NoMemory>
    requires width { IsWidth g.now.width }
    requires node { IsNodeFound node }
    ensures { IfOk result (λ placed. placed ≡ placed_found g.now disk.now node) }
{
    let number = inode_of_birth(node.birth);
    let inode = inode_at(disk, g, number);
    let part = part_found(alloc, g, disk, &inode, node.found)?;
    Ok(Placed {
        number,
        inode,
        part,
    })
}

fn put_node(nodes: &mut BTreeMap<u64, Placed>, birth: u64, placed: Placed) -> Result<(), NoMemory>
    ensures { OnOk result (nodes.new.entries ≡ put_number nodes.old.entries birth placed) }
{
    match nodes.insert(birth, placed) {
        Ok(_) => Ok(()),
        Err(_) => Err(NoMemory),
    }
}

/// The nodes by birth. What is no directory and no file becomes a file without blocks.
pub fn placed_nodes(
    alloc: Global,
    g: &Geometry,
    disk: &Disk,
    found: Vec<FoundNode>,
) -> Result<BTreeMap<u64, Placed>, NoMemory>
    requires width { IsWidth g.now.width }
    requires nodes { (n : FoundNode) → In n found.items → IsNodeFound n }
    ensures { IfOk result (λ nodes. nodes.entries ≡ put_all (placed_found g.now disk.now) found.items []) }
{
    let mut nodes = BTreeMap::new(alloc);
    for node in found {
        let birth = node.birth;
        put_node(&mut nodes, birth, placed_found(alloc, g, disk, node)?)?;
    }
    Ok(nodes)
}
