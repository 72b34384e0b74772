//! The answers of nodes.
ghost use Rattle.std.specs.Prelude.{◌≡◌, ◌++◌, IfOk};
ghost use Rattle.std.specs.Map.{keys_of};
ghost use Rattle.tree_model.specs.Calls.{bytes_from, reply_from};
ghost use Rattle.volume_model.specs.Trees.{node_now};
ghost use Rattle.volume_model.specs.Volume.{IsRising};
ghost use Rattle.volume_steps.specs.Now.{tree_of_now};
ghost use Rattle.volume_in_use.specs.reads.Replies.{IsNodeIn, read_at, list_at, stat_at};
ghost use Rattle.volume_in_use.specs.reads.code.Pieces.{file_of};

use crate::now::VolumeNow;
use crate::reads::pieces::bytes_between;
use blk_base::{Image, NoMemory};
use minix_layout::Inode;
use std::alloc::Global;
use tree_model::{ByteList, NameList, Names, Reply};
use volume_model::{FileZones, Part, Placed};

// The bytes of a file, up to its size.
fn file_bytes(
    alloc: Global,
    blocks: &Image,
    inode: &Inode,
    zones: &FileZones,
    off: u32,
    len: u32,
) -> Result<ByteList, NoMemory>
    requires { IsRising zones.now }
    ensures { IfOk result (λ bytes. bytes ≡ bytes_from (file_of blocks.now inode.now zones.now) off len) }
{
    let end = off.saturating_add(len).min(inode.size);
    let bytes = bytes_between(alloc, blocks, zones.as_slice(), off, end)?;
    Ok(ByteList::of(bytes))
}

// The names in order.
fn names_in_order(alloc: Global, names: &Names) -> Result<NameList, NoMemory>
    ensures { IfOk result (λ list. list ≡ keys_of names.now) }
{
    let mut list = NameList::new(alloc);
    for (name, _) in names.as_map() {
        list.push(ByteList::of(name.as_slice().to_vec(alloc)?))?;
    }
    Ok(list)
}

/// What a node of the volume answers to a read of `len` bytes from `off` on.
pub fn read(
    alloc: Global,
    v: &VolumeNow,
    placed: &Placed,
    off: u32,
    len: u32,
) -> Result<Reply, NoMemory>
    requires { IsNodeIn v.now placed.now }
    ensures { IfOk result (λ reply. reply ≡ reply_from (read_at (tree_of_now v.now) off len (node_now v.now.contents.blocks placed.now))) }
{
    match &placed.part {
        Part::Directory(_) => Ok(Reply::IsDir),
        Part::File(zones) => {
            let bytes = file_bytes(alloc, &v.blocks, &placed.inode, zones, off, len)?;
            Ok(Reply::Bytes(bytes))
        }
    }
}

/// What a node of the volume answers where it is asked for its names.
pub fn list(alloc: Global, v: &VolumeNow, placed: &Placed) -> Result<Reply, NoMemory>
    requires { IsNodeIn v.now placed.now }
    ensures { IfOk result (λ reply. reply ≡ reply_from (list_at (tree_of_now v.now) (node_now v.now.contents.blocks placed.now))) }
{
    match &placed.part {
        Part::Directory(directory) => {
            let names = names_in_order(alloc, &directory.names)?;
            Ok(Reply::Names(names))
        }
        Part::File(_) => Ok(Reply::NotDir),
    }
}

/// What a node of the volume is. It takes no memory.
pub fn stat(v: &VolumeNow, placed: &Placed) -> Reply
    requires { IsNodeIn v.now placed.now }
    ensures { result ≡ reply_from (stat_at (tree_of_now v.now) (node_now v.now.contents.blocks placed.now)) }
{
    let _ = &v.geometry;
    Reply::Stat {
        dir: matches!(&placed.part, Part::Directory(_)),
        size: placed.inode.size,
        links: placed.inode.links.into(),
    }
}
