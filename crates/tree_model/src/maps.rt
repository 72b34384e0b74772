//! The maps in a tree. Contracts see each as the list of its entries, in the order of the keys.
ghost use Rattle.std.specs.Prelude.{◌≡◌, ◌<◌, ◌^◌, [], length, IfOk, OnOk, OnErr};
ghost use Rattle.std.specs.BTreeMap.{is_at};
ghost use Rattle.std.specs.Map.{remove_entry};
ghost use Rattle.std.specs.Option.{option_copied};
ghost use Rattle.tree_model.specs.Maps.{at_name, at_number, name_cmp, put_name, put_number};

use blk_base::{Block, NoMemory};
use minix_layout::Name;
use std::alloc::Global;
use std::collections::BTreeMap;
use std::marker::Model;

/// The names in a directory, each with the birth of its node.
#[derive(Drop)]
pub struct Names {
    map: BTreeMap<Name, u64>,
}

impl Model for Names {
    ghost use Rattle.std.specs.Prelude.{List, ℕ};

    ghost Value = { List (List ℕ × ℕ) };

    ghost view = { λ n. n.map.entries };
}

impl Names {
    /// No names. It takes no memory.
    pub fn new(alloc: Global) -> Names
        ensures { result ≡ [] }
    {
        Names {
            map: BTreeMap::new(alloc),
        }
    }

    /// The birth of the node with this name.
    pub fn get(&self, name: &Name) -> Option<u64>
        ensures { result ≡ at_name self.now name.now }
    {
        self.map.get(name).copied()
    }

    /// Gives a name to a node, in place of the one that had it, if there was one.
    pub fn put(&mut self, name: Name, birth: u64) -> Result<(), NoMemory>
        ensures put { OnOk result (self.new ≡ put_name self.old name birth) }
        ensures kept { OnErr result (self.new ≡ self.old) }
    {
        match self.map.insert(name, birth) {
            Ok(_) => Ok(()),
            Err(_) => Err(NoMemory),
        }
    }

    /// How many names there are.
    pub fn len(&self) -> usize
        ensures len { result ≡ length self.now }
        ensures small { result < 2 ^ 63 }
    {
        self.map.len()
    }

    /// Takes a name away, if it is there.
    pub fn remove(&mut self, name: &Name)
        ensures { self.new ≡ remove_entry (is_at (name_cmp name.now)) self.old }
    {
        let _ = self.map.remove(name);
    }

    /// The names in the order of their bytes.
    pub fn as_map(&self) -> &BTreeMap<Name, u64>
        ensures { result.now.entries ≡ self.now }
    {
        &self.map
    }

    /// The same names again.
    pub fn copy(&self, alloc: Global) -> Result<Names, NoMemory>
        ensures { IfOk result (λ n. n ≡ self.now) }
    {
        let mut copy = Names::new(alloc);
        for (name, birth) in &self.map {
            copy.put(name.copy(), *birth)?;
        }
        Ok(copy)
    }
}

/// The body of a mapped block. It moves without its 1,024 bytes: a map of few blocks keeps no room for the bodies of more.
#[derive(Drop)]
pub struct Body {
    block: Box<Block>,
}

impl Model for Body {
    ghost use Rattle.std.specs.Prelude.{List, ℕ};

    ghost Value = { List ℕ };

    ghost view = { λ b. b.block.value };
}

impl Body {
    fn make(alloc: Global, block: Block) -> Result<Body, NoMemory>
        ensures { IfOk result (λ b. b ≡ block) }
    {
        Ok(Body {
            block: Box::new(alloc, block)?,
        })
    }

    /// Its 1,024 bytes.
    pub fn block(&self) -> &Block
        ensures { result.now ≡ self.now }
    {
        &self.block
    }
}

/// The mapped blocks of a file by their places in it, counted from 0.
#[derive(Drop)]
pub struct FileBlocks {
    alloc: Global,
    map: BTreeMap<u32, Body>,
}

impl Model for FileBlocks {
    ghost use Rattle.std.specs.Prelude.{List, ℕ};

    ghost Value = { List (ℕ × List ℕ) };

    ghost view = { λ b. b.map.entries };
}

impl FileBlocks {
    /// No blocks. It takes no memory.
    pub fn new(alloc: Global) -> FileBlocks
        ensures { result ≡ [] }
    {
        FileBlocks {
            alloc,
            map: BTreeMap::new(alloc),
        }
    }

    /// The block at this place, if it is mapped.
    pub fn get(&self, index: u32) -> Option<&Block>
        ensures { option_copied result ≡ at_number self.now index }
    {
        let body = self.map.get(&index)?;
        Some(body.block())
    }

    /// Maps a block of the file.
    pub fn put(&mut self, index: u32, block: Block) -> Result<(), NoMemory>
        ensures put { OnOk result (self.new ≡ put_number self.old index block) }
        ensures kept { OnErr result (self.new ≡ self.old) }
    {
        let body = Body::make(self.alloc, block)?;
        match self.map.insert(index, body) {
            Ok(_) => Ok(()),
            Err(_) => Err(NoMemory),
        }
    }

    /// The blocks in rising order.
    pub fn as_map(&self) -> &BTreeMap<u32, Body>
        ensures { result.now.entries ≡ self.now }
    {
        &self.map
    }

    /// The same blocks again.
    pub fn copy(&self, alloc: Global) -> Result<FileBlocks, NoMemory>
        ensures { IfOk result (λ b. b ≡ self.now) }
    {
        let mut copy = FileBlocks::new(alloc);
        for (index, body) in &self.map {
            copy.put(*index, body.block().copy())?;
        }
        Ok(copy)
    }
}
