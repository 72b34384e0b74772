//! The log blocks of a transaction, before they have their places.
ghost use Rattle.std.specs.Prelude.{◌≡◌, ◌∷◌, ◌++◌, [], IfOk, OnErr, length, drop};
ghost use Rattle.std.specs.Option.{option_copied};
ghost use Rattle.journal_ring.specs.running.Plan.{first_of};

use blk_base::{Block, NoMemory};
use order_model::Note;
use std::alloc::Global;
use std::collections::VecDeque;
use std::marker::Model;

/// A log block before it has its place: what it is, and its bytes.
#[derive(Drop)]
pub struct UnplacedBlock {
    pub note: Note,
    pub body: Block,
}

/// The log blocks of a transaction, in the order in which they are submitted.
#[derive(Drop)]
pub struct Pieces {
    blocks: VecDeque<UnplacedBlock>,
}

impl Model for Pieces {
    ghost use Rattle.std.specs.Prelude.{List};
    ghost use Rattle.journal_ring.specs.declared.running.pieces.UnplacedBlock.{UnplacedBlock};

    ghost Value = { List UnplacedBlock };

    ghost view = { λ p. p.blocks.items };
}

impl Pieces {
    pub fn new(alloc: Global) -> Pieces
        ensures { result ≡ [] }
    {
        Pieces {
            blocks: VecDeque::new(alloc),
        }
    }

    pub fn push(&mut self, note: Note, body: Block) -> Result<(), NoMemory>
        ensures ok { IfOk result (λ u. self.new ≡ self.old ++ record { note = note; body = body } ∷ []) }
        ensures err { OnErr result (self.new ≡ self.old) }
    {
        self.blocks.push_back(UnplacedBlock { note, body })?;
        Ok(())
    }

    pub fn len(&self) -> usize
        ensures { result ≡ length self.now }
    {
        self.blocks.len()
    }

    /// The first block, if one is left.
    pub fn first(&self) -> Option<&UnplacedBlock>
        ensures { option_copied result ≡ first_of self.now }
    {
        self.blocks.front()
    }

    /// Takes the first block out, if one is left. It takes no memory.
    pub fn take_first(&mut self) -> Option<UnplacedBlock>
        ensures first { result ≡ first_of self.old }
        ensures rest { self.new ≡ drop 1 self.old }
    {
        self.blocks.pop_front()
    }
}
