//! A plain volume that is in use.
ghost use Rattle.std.specs.Prelude.{◌≡◌, IfOk};
ghost use Rattle.volume_ops.specs.Volume.{disk_of};
ghost use Rattle.volume_steps.specs.Calls.{after_release};
ghost use Rattle.volume_steps.specs.Now.{tree_of_now};
ghost use Rattle.volume_steps.specs.Plain.{IsPlainNow};

use blk_base::{Block, BodySource, NoMemory};
use minix_layout::Geometry;
use minix_tables::zones::ZoneMap;
use std::alloc::Global;
use std::marker::Model;
use tree_model::Tree;
use volume_in_use::now::VolumeNow;
use volume_names::InodeMap;

/// A plain volume that is in use: its blocks, its nodes by birth, what each zone of data is, and which inodes
/// are in use.
#[derive(Drop)]
pub struct PlainVolume {
    pub(crate) parts: VolumeNow,
    // The inodes that its nodes have.
    pub(crate) inodes: InodeMap,
}

impl Model for PlainVolume {
    ghost use Rattle.volume_steps.specs.Now as volumes;
    ghost use Rattle.volume_calls.specs.code.MarkedVolume.{IsMarkedVolume};

    ghost Value = { volumes.VolumeNow };

    ghost view = { λ v. v.parts };

    ghost invariant = { λ v. IsMarkedVolume v.parts v.inodes };
}

impl PlainVolume {
    /// The volume of these parts.
    pub fn of(alloc: Global, parts: VolumeNow) -> Result<PlainVolume, NoMemory>
        requires { IsPlainNow parts }
        ensures { IfOk result (λ v. v ≡ parts) }
    {
        let inodes = InodeMap::of(alloc, &parts.geometry, &parts.nodes)?;
        Ok(PlainVolume { parts, inodes })
    }

    /// How the volume is divided.
    pub fn geometry(&self) -> &Geometry
        ensures { result.now ≡ self.now.geometry }
    {
        &self.parts.geometry
    }

    /// What each zone of data is.
    pub fn zones(&self) -> &ZoneMap
        ensures { result.now ≡ self.now.zones }
    {
        &self.parts.zones
    }

    /// The bytes of a block, of metadata or of a file; zeros behind the last one.
    pub fn block_bytes(&self, block: u32) -> Block
        ensures { result ≡ disk_of self.now.contents.blocks block }
    {
        if block < self.parts.blocks.len() {
            self.parts.blocks.block(block).copy()
        } else {
            Block::fill(0)
        }
    }

    /// The tree that the volume stands for, with the bytes of its files. A node has the birth that it has in the volume,
    /// and the bytes are copied once, from their blocks.
    pub fn tree(&self, alloc: Global) -> Result<Tree, NoMemory>
        ensures { IfOk result (λ t. t ≡ tree_of_now self.now) }
    {
        let _ = &self.parts;
        volume_in_use::reads::tree(alloc, &self.parts)
    }

    /// The zones that waited for transaction `tx` are free.
    pub fn release(&mut self, tx: u32)
        ensures { self.new ≡ after_release self.old tx }
    {
        let parts = &mut self.parts;
        parts.zones.release(tx);
    }
}

impl BodySource for PlainVolume {
    ghost bodies = { λ v b. disk_of v.contents.blocks b };

    fn block_bytes(&self, b: u32) -> Block {
        PlainVolume::block_bytes(self, b)
    }
}
