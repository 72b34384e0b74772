//! What the walk finds: the nodes of a volume, with the zones of files in place of their bytes.
ghost use Rattle.std.specs.Prelude.{◌≡◌, [], ◌∷◌, ◌++◌, OnOk, OnErr};

use blk_base::NoMemory;
use std::alloc::Global;
use std::marker::Model;
use tree_model::Directory;

/// A mapped block of a file.
#[derive(Clone, Copy, PartialEq, Eq, Debug)]
pub struct Mapped {
    /// Its place in the file, counted from 0.
    pub index: u32,
    pub zone: u16,
}

/// The mapped blocks of a file, in order.
#[derive(Drop, Debug)]
pub struct MappedZones {
    items: Vec<Mapped>,
}

impl Model for MappedZones {
    ghost use Rattle.std.specs.Prelude.{List};
    ghost use Rattle.volume_ops.specs.declared.found.Mapped.{Mapped};

    ghost Value = { List Mapped };

    ghost view = { λ m. m.items.items };
}

impl MappedZones {
    /// No blocks. It takes no memory.
    pub fn new(alloc: Global) -> MappedZones
        ensures { result ≡ [] }
    {
        MappedZones {
            items: Vec::new(alloc),
        }
    }

    pub fn push(&mut self, block: Mapped) -> Result<(), NoMemory>
        ensures pushed { OnOk result (self.new ≡ self.old ++ block ∷ []) }
        ensures kept { OnErr result (self.new ≡ self.old) }
    {
        self.items.push(block)?;
        Ok(())
    }

    /// The blocks as a vector, for a file that is to change.
    pub fn into_vec(self) -> Vec<Mapped>
        ensures { result.items ≡ self }
    {
        self.items
    }

    pub fn as_slice(&self) -> &[Mapped]
        ensures { result.now ≡ self.now }
    {
        &self.items
    }
}

/// A file, with the zones of its blocks.
#[derive(Drop)]
pub struct FoundFile {
    /// The size in bytes.
    pub size: u32,
    /// How many names it has, as its inode says.
    pub links: u8,
    pub zones: MappedZones,
}

/// A node as the walk finds it.
#[derive(Drop)]
pub enum Found {
    Directory(Directory),
    File(FoundFile),
    /// Anything else, with its mode.
    Other(u16),
}

/// A node with its birth: 0 for the root, and else the number of its inode.
#[derive(Drop)]
pub struct FoundNode {
    pub birth: u64,
    pub found: Found,
}
