//! The parts of a tree: directories, files and other nodes.
ghost use Rattle.std.specs.Prelude.{◌≡◌, ◌<◌, ◌^◌, [], length, IfOk, OnOk, OnErr};
ghost use Rattle.std.specs.Option.{option_copied};
ghost use Rattle.tree_model.specs.Maps.{at_number, put_number, without_number};

use crate::{FileBlocks, Names};
use blk_base::NoMemory;
use std::alloc::Global;
use std::collections::BTreeMap;
use std::marker::Model;

/// A directory.
#[derive(Drop)]
pub struct Directory {
    /// The birth of the directory that has it; the root has itself.
    pub parent: u64,
    /// The bytes that a name may have, 14 or 30: those of the whole tree.
    pub width: u16,
    /// The slots, those of `.` and `..` and free ones too.
    pub slots: u32,
    /// Its names, but for `.` and `..`.
    pub names: Names,
}

/// A file.
#[derive(Drop)]
pub struct File {
    /// The size in bytes.
    pub size: u32,
    /// How many names it has.
    pub links: u8,
    /// Its mapped blocks; all others are holes.
    pub blocks: FileBlocks,
}

/// What a name leads to.
#[derive(Drop)]
pub enum Node {
    Directory(Directory),
    File(File),
    /// A device or another thing, with its mode.
    Other(u16),
}

impl Directory {
    /// The same directory again.
    pub fn copy(&self, alloc: Global) -> Result<Directory, NoMemory>
        ensures { IfOk result (λ d. d ≡ self.now) }
    {
        Ok(Directory {
            parent: self.parent,
            width: self.width,
            slots: self.slots,
            names: self.names.copy(alloc)?,
        })
    }
}

impl File {
    /// The same file again.
    pub fn copy(&self, alloc: Global) -> Result<File, NoMemory>
        ensures { IfOk result (λ f. f ≡ self.now) }
    {
        Ok(File {
            size: self.size,
            links: self.links,
            blocks: self.blocks.copy(alloc)?,
        })
    }
}

impl Node {
    /// The same node again.
    pub fn copy(&self, alloc: Global) -> Result<Node, NoMemory>
        ensures { IfOk result (λ n. n ≡ self.now) }
    {
        match self {
            Node::Directory(directory) => Ok(Node::Directory(directory.copy(alloc)?)),
            Node::File(file) => Ok(Node::File(file.copy(alloc)?)),
            Node::Other(mode) => Ok(Node::Other(*mode)),
        }
    }
}

/// The nodes of a tree by their births. The root has birth 0.
#[derive(Drop)]
pub struct Tree {
    pub(crate) nodes: BTreeMap<u64, Node>,
}

impl Model for Tree {
    ghost use Rattle.std.specs.Prelude.{List, ℕ};
    ghost use Rattle.tree_model.specs.declared.node.Node.{Node};

    ghost Value = { List (ℕ × Node) };

    ghost view = { λ t. t.nodes.entries };
}

impl Tree {
    /// No nodes. It takes no memory.
    pub fn new(alloc: Global) -> Tree
        ensures { result ≡ [] }
    {
        Tree {
            nodes: BTreeMap::new(alloc),
        }
    }

    /// Puts a node into the tree, in place of the one of this birth, if there was one.
    pub fn put(&mut self, birth: u64, node: Node) -> Result<(), NoMemory>
        ensures put { OnOk result (self.new ≡ put_number self.old birth node) }
        ensures kept { OnErr result (self.new ≡ self.old) }
    {
        match self.nodes.insert(birth, node) {
            Ok(_) => Ok(()),
            Err(_) => Err(NoMemory),
        }
    }

    /// The node of this birth.
    pub fn get(&self, birth: u64) -> Option<&Node>
        ensures { option_copied result ≡ at_number self.now birth }
    {
        self.nodes.get(&birth)
    }

    /// Takes a node away, if it is there.
    pub fn remove(&mut self, birth: u64)
        ensures { self.new ≡ without_number self.old birth }
    {
        let _ = self.nodes.remove(&birth);
    }

    /// How many nodes there are.
    pub fn len(&self) -> usize
        ensures len { result ≡ length self.now }
        ensures small { result < 2 ^ 63 }
    {
        self.nodes.len()
    }

    /// The nodes in rising order of their births.
    pub fn as_map(&self) -> &BTreeMap<u64, Node>
        ensures { result.now.entries ≡ self.now }
    {
        &self.nodes
    }

    /// The same nodes again.
    pub fn copy(&self, alloc: Global) -> Result<Tree, NoMemory>
        ensures { IfOk result (λ t. t ≡ self.now) }
    {
        let mut copy = Tree::new(alloc);
        for (birth, node) in &self.nodes {
            copy.put(*birth, node.copy(alloc)?)?;
        }
        Ok(copy)
    }
}
