//! A body that the log has, and the bodies and revokes of a transaction.
ghost use Rattle.std.specs.Prelude.{◌≡◌, IfOk};

use blk_base::{Block, NoMemory};
use std::alloc::Global;
use std::marker::Model;

/// A block, and the body that the log has of it. It moves without its 1,024 bytes.
#[derive(Drop)]
pub struct LoggedBody {
    block: u32,
    body: Box<Block>,
}

impl Model for LoggedBody {
    ghost use Rattle.log_model.specs.Marks.{Logged};

    ghost Value = { Logged };

    ghost view = { λ l. record { block = l.block; body = l.body.value } };
}

impl LoggedBody {
    pub fn make(alloc: Global, block: u32, body: Block) -> Result<LoggedBody, NoMemory>
        ensures { IfOk result (λ l. l ≡ record { block = block; body = body }) }
    {
        Ok(LoggedBody {
            block,
            body: Box::new(alloc, body)?,
        })
    }

    /// The block that the body is of.
    pub fn block(&self) -> u32
        ensures { result ≡ self.now.block }
    {
        self.block
    }

    pub fn body(&self) -> &Block
        ensures { result.now ≡ self.now.body }
    {
        &self.body
    }
}

/// What a transaction logged: blocks with their bodies, and the blocks that it revokes.
#[derive(Drop)]
pub struct Bodies {
    pub pairs: Vec<LoggedBody>,
    pub revoked: Vec<u32>,
}
