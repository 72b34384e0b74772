//! A file's node is taken out of the nodes while its blocks change, and put back.
ghost use Rattle.std.specs.Prelude.{◌≡◌, Some};
ghost use Rattle.tree_model.specs.Maps.{at_number, put_number};
ghost use Rattle.volume_model.specs.declared.placed.Placed.{Placed};
ghost use Rattle.volume_in_use.specs.bytes.MayWrite.{IsFileOf};
ghost use Rattle.volume_in_use.specs.bytes.code.Work.{blank, node_of, with_nodes};

use crate::now::VolumeNow;
use minix_layout::Inode;
use std::alloc::Global;
use volume_model::{FileZones, Part, Placed};

// A file whose node was taken out.
#[derive(Drop)]
pub struct OpenFile {
    pub birth: u64,
    pub number: u16,
    pub inode: Inode,
    pub zones: FileZones,
}

// A node that stands for one that was taken out.
fn blank(alloc: Global) -> Placed
    ensures { result ≡ blank }
{
    Placed {
        number: 0,
        inode: Inode::zeros(),
        part: Part::File(FileZones::new(alloc)),
    }
}

// Takes a file's node out. Another one stands for it, so that putting it back takes no memory.
pub fn open_file(alloc: Global, v: &mut VolumeNow, birth: u64) -> OpenFile
    requires { IsFileOf v.old birth }
    ensures birth { result.birth ≡ birth }
    ensures node { at_number v.old.contents.nodes birth ≡ Some (node_of result) }
    ensures volume { v.new ≡ with_nodes v.old (put_number v.old.contents.nodes birth blank) }
{
    let Ok(Some(node)) = v.nodes.insert(birth, blank(alloc)) else {
        unreachable!();
    };
    let Placed {
        number,
        inode,
        part,
    } = node;
    let Part::File(zones) = part else {
        unreachable!();
    };
    OpenFile {
        birth,
        number,
        inode,
        zones,
    }
}

// Puts a file's node back.
pub fn close_file(v: &mut VolumeNow, file: OpenFile)
    requires { at_number v.old.contents.nodes file.birth ≡ Some blank }
    ensures { v.new ≡ with_nodes v.old (put_number v.old.contents.nodes file.birth (node_of file)) }
{
    let node = Placed {
        number: file.number,
        inode: file.inode,
        part: Part::File(file.zones),
    };
    let Ok(_) = v.nodes.insert(file.birth, node) else {
        unreachable!();
    };
}
