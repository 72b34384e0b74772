//! Volumes that were read: their zones and their tree.
ghost use Rattle.std.specs.Prelude.{◌≡◌, ◌≢◌, ◌≤◌, ◌↔◌, true, Ok, Err, length, take, IfOk, IfErr, IsOk, IsErrOf};
ghost use Rattle.blk_base.specs.Streams.{Rose};
ghost use Rattle.order_model.specs.Device.{IsQuiet};
ghost use Rattle.order_model.specs.Steps.{OnlyReads};
ghost use Rattle.minix_layout.specs.Geometry.{IsSound};
ghost use Rattle.volume_ops.specs.Faultless.{IsUsed};
ghost use Rattle.volume_ops.specs.Faults.{IsOutside};
ghost use Rattle.volume_ops.specs.laws.Rising.{IsRising, HasRising};
ghost use Rattle.volume_ops.specs.Volume.{walked, bodies_of, node_of, tree_of, IsFaultOf};

use crate::disk::Disk;
use crate::visit::Walked;
use crate::walk::walk_volume;
use crate::{Found, FoundNode, Mapped, VolumeFault};
use blk_base::{Image, NoMemory};
use minix_layout::Geometry;
use order_model::OrderedDev;
use std::alloc::Global;
use std::marker::Model;
use tree_model::{Directory, File, FileBlocks, Node, Tree};

/// The parts of a volume that was read: how it is divided, its blocks, and its nodes in the order in which the walk met
/// them.
#[derive(Drop)]
pub struct WalkedVolume {
    pub geometry: Geometry,
    pub blocks: Image,
    pub nodes: Vec<FoundNode>,
}

/// A volume that was read, with all its blocks, those of files too.
#[derive(Drop)]
pub struct Volume {
    geometry: Geometry,
    disk: Disk,
    found: Walked,
}

impl Model for Volume {
    ghost use Rattle.std.specs.Prelude.{◌≡◌, Ok, length};
    ghost use Rattle.minix_layout.specs.Geometry.{IsSound};
    ghost use Rattle.volume_ops.specs.Volume.{VolumeState, walked};

    ghost Value = { VolumeState };

    ghost view = { λ v. record { geometry = v.geometry; blocks = v.disk } };

    ghost invariant = { λ v. IsSound v.geometry × (length v.disk ≡ v.geometry.zones) × (walked v.geometry v.disk ≡ Ok v.found) };
}

impl Volume {
    /// Reads the blocks of a volume from a device, and walks through them.
    pub fn read_all<D: OrderedDev>(
        alloc: Global,
        dev: &mut D,
        g: Geometry,
    ) -> Result<Volume, VolumeFault>
        requires quiet { IsQuiet (D.seen (D.state dev.old)) }
        requires whole { g.zones ≤ length (D.seen (D.state dev.old)).surface }
        requires sound { IsSound g }
        ensures volume { IfOk result (λ v. v ≡ record { geometry = g; blocks = take g.zones (D.seen (D.state dev.old)).surface }) }
        ensures readable { IfOk result (λ _. IsOk (walked g (take g.zones (D.seen (D.state dev.old)).surface))) }
        ensures fault { IfErr result (IsFaultOf g (take g.zones (D.seen (D.state dev.old)).surface)) }
        ensures read_fault { IsErrOf result VolumeFault.ReadFault → Rose (D.seen (D.state dev.old)).faults (D.seen (D.state dev.new)).faults }
        ensures reads { OnlyReads (D.seen (D.state dev.old)) (D.seen (D.state dev.new)) }
        ensures no_fault { D.sound (D.state dev.old) → D.sound (D.state dev.new) × ((D.seen (D.state dev.new)).faults ≡ (D.seen (D.state dev.old)).faults) }
    {
        // For the proof alone: the answer brings the laws of the device.
        let _ = dev.blocks();
        let blocks = read_blocks(alloc, dev, g.zones)?;
        let disk = Disk::new(blocks);
        let found = walk_volume(alloc, &disk, &g)?;
        Ok(Volume {
            geometry: g,
            disk,
            found,
        })
    }

    /// Takes the volume that stands in the first blocks of an image, and walks through it. No device is read.
    pub fn of_image(alloc: Global, image: &Image, g: Geometry) -> Result<Volume, VolumeFault>
        requires whole { g.zones ≤ length image.now }
        requires sound { IsSound g }
        ensures volume { IfOk result (λ v. v ≡ record { geometry = g; blocks = take g.zones image.now }) }
        ensures readable { IfOk result (λ _. IsOk (walked g (take g.zones image.now))) }
        ensures fault { IfErr result (IsFaultOf g (take g.zones image.now)) }
        ensures no_read_fault { result ≢ Err VolumeFault.ReadFault }
    {
        let disk = Disk::new(image.front(alloc, g.zones.into())?);
        let found = walk_volume(alloc, &disk, &g)?;
        Ok(Volume {
            geometry: g,
            disk,
            found,
        })
    }

    /// How the volume is divided.
    pub fn geometry(&self) -> &Geometry
        ensures { result.now ≡ self.now.geometry }
    {
        &self.geometry
    }

    /// The blocks, with zeros behind them.
    pub fn disk(&self) -> &Disk
        ensures blocks { result.now ≡ self.now.blocks }
        ensures sound { IsSound self.now.geometry }
    {
        &self.disk
    }

    /// What the walk found: the nodes in the order in which it met them.
    pub fn nodes(&self) -> &[FoundNode]
        ensures readable { IsOk (walked self.now.geometry self.now.blocks) }
        ensures nodes { IfOk (walked self.now.geometry self.now.blocks) (λ w. result.now ≡ w.nodes) }
    {
        &self.found.nodes
    }

    /// Hands out the parts, for a volume that is to change.
    pub fn into_parts(self) -> WalkedVolume
        ensures geometry { result.geometry ≡ self.geometry }
        ensures blocks { result.blocks ≡ self.blocks }
        ensures sound { IsSound self.geometry }
        ensures size { length self.blocks ≡ self.geometry.zones }
        ensures readable { IsOk (walked self.geometry self.blocks) }
        ensures nodes { IfOk (walked self.geometry self.blocks) (λ w. result.nodes.items ≡ w.nodes) }
    {
        WalkedVolume {
            geometry: self.geometry,
            blocks: self.disk.into_blocks(),
            nodes: self.found.nodes,
        }
    }

    /// Whether the volume's tree has this zone: for a block of a file or a directory, or for numbers of zones.
    pub fn uses_zone(&self, zone: u16) -> bool
        ensures { (result ≡ true) ↔ IsUsed self.now.geometry self.now.blocks zone }
    {
        self.found.zones.is_marked(usize::from(zone))
    }

    /// The tree that the volume stands for, with the bytes of its files. A node's birth is the number of its
    /// inode, and the root's is 0.
    pub fn tree(&self, alloc: Global) -> Result<Tree, NoMemory>
        ensures { IfOk result (λ t. tree_of self.now.geometry self.now.blocks ≡ Ok t) }
    {
        let mut tree = Tree::new(alloc);
        for node in &self.found.nodes {
            tree.put(node.birth, node_of(alloc, &self.disk, &node.found)?)?;
        }
        Ok(tree)
    }
}

// The first so many blocks of a device.
fn read_blocks<D: OrderedDev>(alloc: Global, dev: &mut D, blocks: u16) -> Result<Image, VolumeFault>
    requires valid { D.valid (D.state dev.old) }
    requires quiet { IsQuiet (D.seen (D.state dev.old)) }
    requires whole { blocks ≤ length (D.seen (D.state dev.old)).surface }
    ensures image { IfOk result (λ i. i ≡ take blocks (D.seen (D.state dev.old)).surface) }
    ensures no_layout { IfErr result IsOutside }
    ensures read_fault { IsErrOf result VolumeFault.ReadFault → Rose (D.seen (D.state dev.old)).faults (D.seen (D.state dev.new)).faults }
    ensures reads { OnlyReads (D.seen (D.state dev.old)) (D.seen (D.state dev.new)) }
    ensures no_fault { D.sound (D.state dev.old) → D.sound (D.state dev.new) × ((D.seen (D.state dev.new)).faults ≡ (D.seen (D.state dev.old)).faults) }
{
    let mut image = Image::zeroed(alloc, blocks.into())?;
    for block in 0..u32::from(blocks) {
        let Ok(body) = dev.read(block) else {
            return Err(VolumeFault::ReadFault);
        };
        image.put(block, body);
    }
    Ok(image)
}

// A node with the bodies of its file.
fn node_of(alloc: Global, disk: &Disk, found: &Found) -> Result<Node, NoMemory>
    requires { HasRising found.now }
    ensures { IfOk result (λ n. n ≡ node_of disk.now found.now) }
{
    match found {
        Found::Directory(d) => Ok(Node::Directory(Directory {
            parent: d.parent,
            width: d.width,
            slots: d.slots,
            names: d.names.copy(alloc)?,
        })),
        Found::File(f) => Ok(Node::File(File {
            size: f.size,
            links: f.links,
            blocks: bodies_of(alloc, disk, f.zones.as_slice())?,
        })),
        Found::Other(mode) => Ok(Node::Other(*mode)),
    }
}

// The bodies of mapped blocks.
fn bodies_of(alloc: Global, disk: &Disk, mapped: &[Mapped]) -> Result<FileBlocks, NoMemory>
    requires { IsRising mapped.now }
    ensures { IfOk result (λ b. b ≡ bodies_of disk.now mapped.now) }
{
    let mut bodies = FileBlocks::new(alloc);
    for block in mapped {
        bodies.put(block.index, disk.body(block.zone.into()).copy())?;
    }
    Ok(bodies)
}
