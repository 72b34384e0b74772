//! What the log has for the volume.
ghost use Rattle.std.specs.Prelude.{◌≡◌, IfOk};

use blk_base::{Block, NoMemory};
use std::alloc::Global;
use std::marker::Model;

/// A block that moves without its 1,024 bytes. So a body that was read of a log is held once, until it is sent home.
#[derive(Drop)]
pub struct BoxedBlock {
    block: Box<Block>,
}

impl Model for BoxedBlock {
    ghost use Rattle.std.specs.Prelude.{List, ℕ};

    ghost Value = { List ℕ };

    ghost view = { λ b. b.block.value };
}

impl BoxedBlock {
    pub fn make(alloc: Global, block: Block) -> Result<BoxedBlock, NoMemory>
        ensures { IfOk result (λ b. b ≡ block) }
    {
        Ok(BoxedBlock {
            block: Box::new(alloc, block)?,
        })
    }

    pub fn as_block(&self) -> &Block
        ensures { result.now ≡ self.now }
    {
        &self.block
    }

    pub fn into_block(self) -> Block
        ensures { result ≡ self }
    {
        Box::into_inner(self.block)
    }
}

/// A block of the volume, and a body that the log has for it.
#[derive(Drop)]
pub struct Home {
    pub block: u32,
    pub body: BoxedBlock,
}

/// A body that the log has for a block, which need not be one of the volume.
#[derive(Drop)]
pub struct LogBody {
    pub block: u64,
    pub body: BoxedBlock,
}

/// A whole transaction of the log: its bodies in their order, and the blocks that it revokes.
#[derive(Drop)]
pub struct LogTransaction {
    pub bodies: Vec<LogBody>,
    pub revokes: Vec<u64>,
}
