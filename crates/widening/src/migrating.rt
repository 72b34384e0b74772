//! Widening an image.
ghost use Rattle.std.specs.Prelude.{◌≡◌, ◌≢◌, ℕ, ◌+◌, ◌<◌, ◌≤◌, ◌^◌, false, List, [], length, Ok, Err, IfOk, IfErr, OnOk, IsErrOf};
ghost use Rattle.std.specs.List.{All};
ghost use Rattle.blk_base.specs.Members.{In};
ghost use Rattle.blk_base.specs.Streams.{Rose};
ghost use Rattle.order_model.specs.declared.completion.Completion.{Completion};
ghost use Rattle.order_model.specs.Device.{IsQuiet};
ghost use Rattle.order_model.specs.Steps.{OnlyReads};
ghost use Rattle.minix_layout.specs.declared.division.Geometry.{Geometry};
ghost use Rattle.minix_layout.specs.Geometry.{IsSound};
ghost use Rattle.mount_make.specs.Images.{divided, has_journal, recovered_image};
ghost use Rattle.widening.specs.Widened.{IsTold, widened, widened_image};
ghost use Rattle.widening.specs.code.Faults.{IsToldBy, IsOutside};
ghost use Rattle.widening.specs.code.Steps.{FitNode, FitEntry, node_written, nodes_written};

use crate::WidenFault;
use crate::bodies::WIDE;
use crate::directory::widen_directory;
use crate::fault::of_mount;
use crate::zones::FreeZones;
use blk_base::Image;
use minix_layout::Geometry;
use mount_make::mount;
use order_model::OrderedDev;
use std::alloc::Global;
use tree_model::{Node, Tree};
use volume_model::editing::put_entry;
use volume_ops::{Disk, Volume, inode_of_birth};

// The magic number of names of 30 bytes.
const MAGIC: u16 = 0x138F;

// Its place in the superblock, in numbers of two bytes.
const MAGIC_AT: u16 = 8;

/// Mounts the image on a device, and answers it with directories for names of 30 bytes. The device is changed by
/// the recovery alone.
///
/// An image that has names of 30 bytes already is answered as it was recovered. Else each directory is written anew, in
/// its own zones as far as it needs them, and then in the lowest free ones.
pub fn widen<D: OrderedDev>(alloc: Global, dev: &mut D) -> Result<Image, WidenFault>
    requires quiet { IsQuiet (D.seen (D.state dev.old)) }
    requires fresh { (D.seen (D.state dev.old)).took ≡ [] }
    requires on { D.stays_on (D.state dev.old) }
    requires room { length (D.seen (D.state dev.old)).surface + 2 ≤ (D.seen (D.state dev.old)).limit }
    ensures image { IfOk result (λ image. widened_image (D.seen (D.state dev.old)).surface ≡ Ok image) }
    ensures fault { IfErr result (IsTold (widened_image (D.seen (D.state dev.old)).surface)) }
    ensures recovered { IfOk result (λ _. (D.seen (D.state dev.new)).surface ≡ recovered_image (D.seen (D.state dev.old)).surface) }
    ensures quiet { IfOk result (λ _. IsQuiet (D.seen (D.state dev.new))) }
    ensures attempt { recovered_image (D.seen (D.state dev.new)).surface ≡ recovered_image (D.seen (D.state dev.old)).surface }
    ensures reads { (g : Geometry) → divided (D.seen (D.state dev.old)).surface ≡ Ok g → has_journal g.zones (D.seen (D.state dev.old)).surface ≡ false →
        OnlyReads (D.seen (D.state dev.old)) (D.seen (D.state dev.new)) }
    ensures read_fault { IsErrOf result WidenFault.ReadFault → Rose (D.seen (D.state dev.old)).faults (D.seen (D.state dev.new)).faults }
    ensures device_failed { (id : ℕ) → result ≡ Err (WidenFault.DeviceFailed id) →
        Rose (D.seen (D.state dev.old)).faults (D.seen (D.state dev.new)).faults × In (Completion.Failed id) (D.seen (D.state dev.new)).sent }
    ensures no_fault { D.sound (D.state dev.old) → D.sound (D.state dev.new) × ((D.seen (D.state dev.new)).faults ≡ (D.seen (D.state dev.old)).faults) }
{
    let volume = match mount(alloc, dev) {
        Ok(mounted) => mounted.volume,
        Err(fault) => return Err(of_mount(fault)),
    };
    let image = read_image(alloc, dev)?;
    widen_volume(alloc, &volume, image)
}

// The blocks of a device.
fn read_image<D: OrderedDev>(alloc: Global, dev: &mut D) -> Result<Image, WidenFault>
    requires quiet { IsQuiet (D.seen (D.state dev.old)) }
    ensures image { IfOk result (λ image. image ≡ (D.seen (D.state dev.old)).surface) }
    ensures fault { IfErr result IsOutside }
    ensures read_fault { IsErrOf result WidenFault.ReadFault → Rose (D.seen (D.state dev.old)).faults (D.seen (D.state dev.new)).faults }
    ensures reads { OnlyReads (D.seen (D.state dev.old)) (D.seen (D.state dev.new)) }
    ensures no_fault { D.sound (D.state dev.old) → D.sound (D.state dev.new) × ((D.seen (D.state dev.new)).faults ≡ (D.seen (D.state dev.old)).faults) }
{
    let blocks = dev.blocks();
    let mut image = Image::zeroed(alloc, blocks)?;
    for block in 0..blocks {
        let Ok(body) = dev.read(block) else {
            return Err(WidenFault::ReadFault);
        };
        image.put(block, body);
    }
    Ok(image)
}

// The image that a volume stands in, widened.
fn widen_volume(alloc: Global, volume: &Volume, mut image: Image) -> Result<Image, WidenFault>
    ensures image { IfOk result (λ wide. widened volume.now image ≡ Ok wide) }
    ensures fault { IfErr result (IsToldBy (widened volume.now image)) }
{
    if volume.geometry().width == WIDE {
        return Ok(image);
    }
    widen_directories(alloc, volume, &mut image)?;
    Ok(image)
}

// The same of one with names of 14 bytes.
fn widen_directories(alloc: Global, volume: &Volume, image: &mut Image) -> Result<(), WidenFault>
    requires { volume.now.geometry.width ≢ 30 }
    ensures image { OnOk result (widened volume.now image.old ≡ Ok image.new) }
    ensures fault { IfErr result (IsToldBy (widened volume.now image.old)) }
{
    let g = Geometry {
        width: WIDE,
        ..*volume.geometry()
    };
    let tree = volume.tree(alloc)?;
    let mut free = FreeZones::of(alloc, volume)?;
    put_entry(image, &g, 1, MAGIC_AT, MAGIC);
    widen_nodes(alloc, volume.disk(), &g, &tree, &mut free, image)
}

// Writes the directories of a tree, in rising order of their births.
fn widen_nodes(
    alloc: Global,
    disk: &Disk,
    g: &Geometry,
    tree: &Tree,
    free: &mut FreeZones,
    image: &mut Image,
) -> Result<(), WidenFault>
    requires sound { IsSound g.now }
    requires fits { All FitEntry tree.now }
    ensures ok { OnOk result (nodes_written g.now disk.now tree.now (record { image = image.old; free = free.old }) ≡ Ok (record { image = image.new; free = free.new })) }
    ensures fault { IfErr result (IsToldBy (nodes_written g.now disk.now tree.now (record { image = image.old; free = free.old }))) }
{
    for (birth, node) in tree.as_map() {
        widen_node(alloc, disk, g, *birth, node, free, image)?;
    }
    Ok(())
}

// A node of the tree; only a directory is written.
fn widen_node(
    alloc: Global,
    disk: &Disk,
    g: &Geometry,
    birth: u64,
    node: &Node,
    free: &mut FreeZones,
    image: &mut Image,
) -> Result<(), WidenFault>
    requires sound { IsSound g.now }
    requires small { birth < 2 ^ 16 }
    requires fits { FitNode node.now }
    ensures ok { OnOk result (node_written g.now disk.now birth node.now (record { image = image.old; free = free.old }) ≡ Ok (record { image = image.new; free = free.new })) }
    ensures fault { IfErr result (IsToldBy (node_written g.now disk.now birth node.now (record { image = image.old; free = free.old }))) }
{
    match node {
        Node::Directory(d) => {
            widen_directory(alloc, disk, g, inode_of_birth(birth), d, free, image)
        }
        Node::File(_) | Node::Other(_) => Ok(()),
    }
}
