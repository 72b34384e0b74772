//! The blocks of the log in a tree.
ghost use Rattle.std.specs.Prelude.{◌≡◌, ◌≤◌, length, IfOk};
ghost use Rattle.std.specs.Option.{option_copied};
ghost use Rattle.store_core.specs.Stores.{log_in};
ghost use Rattle.store_core.specs.code.LogNodes.{file_blocks, front_of, log_file, log_node};

use blk_base::{Block, NoMemory};
use minix_layout::Name;
use std::alloc::Global;
use tree_model::{FileBlocks, Node, Tree};

// The name of the log in the root.
const LOG_NAME: [u8; 3] = *b"log";

// The node to which the path of the log leads.
fn log_node(tree: &Tree) -> Option<&Node>
    ensures { option_copied result ≡ log_node tree.now }
{
    let Some(Node::Directory(root)) = tree.get(0) else {
        return None;
    };
    if usize::from(root.width) < LOG_NAME.len() {
        return None;
    }
    let name = Name::of(&LOG_NAME)?;
    let birth = root.names.get(&name)?;
    tree.get(birth)
}

// The blocks of a file, up to the first that is not mapped, so many at most.
fn front_of(alloc: Global, blocks: &FileBlocks, room: u32) -> Result<Vec<Block>, NoMemory>
    ensures front { IfOk result (λ v. v.items ≡ front_of blocks.now 0 room) }
    ensures few { IfOk result (λ v. length v.items ≤ room) }
{
    let mut front = Vec::new(alloc);
    for place in 0..room {
        let Some(block) = blocks.get(place) else {
            return Ok(front);
        };
        front.push(block.copy())?;
    }
    Ok(front)
}

// The blocks of a node, where it is a file.
fn file_blocks(node: &Node) -> Option<&FileBlocks>
    ensures { option_copied result ≡ file_blocks node.now }
{
    match node {
        Node::File(file) => Some(&file.blocks),
        Node::Directory(_) | Node::Other(_) => None,
    }
}

// Those of the log.
fn log_file(tree: &Tree) -> Option<&FileBlocks>
    ensures { option_copied result ≡ log_file tree.now }
{
    file_blocks(log_node(tree)?)
}

/// The blocks of the log, up to the first that is not mapped, so many at most. There are none where the tree has no log.
pub fn log_blocks(alloc: Global, tree: &Tree, room: u32) -> Result<Vec<Block>, NoMemory>
    ensures blocks { IfOk result (λ v. v.items ≡ log_in room tree.now) }
    ensures few { IfOk result (λ v. length v.items ≤ room) }
{
    match log_file(tree) {
        Some(blocks) => front_of(alloc, blocks, room),
        None => Ok(Vec::new(alloc)),
    }
}
