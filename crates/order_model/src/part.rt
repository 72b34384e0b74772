//! The parts of a command.
ghost use Rattle.std.specs.Prelude.{◌≡◌, ◌<◌, ◌≤◌, ◌+◌, ◌↔◌, List, [], ◌∷◌, ◌++◌, length, Some, IsOk, OnOk, IfErr, slice_get, ◌==◌};
ghost use Rattle.std.specs.Option.{option_copied};
ghost use Rattle.order_model.specs.Parts.{Follows, block_follows};

use arrayvec::ArrayVec;
use blk_base::Block;
use std::marker::Model;

/// One block of a command, with the id of the request that it carries.
#[derive(Drop, PartialEq, Eq, Debug)]
pub struct Part {
    pub id: u64,
    pub block: u32,
    pub body: Block,
}

impl Part {
    /// A copy. It takes no memory.
    pub fn copy(&self) -> Part
        ensures { result ≡ self.now }
    {
        Part {
            id: self.id,
            block: self.block,
            body: self.body.copy(),
        }
    }
}

impl Default for Part {
    fn default() -> Part {
        Part {
            id: 0,
            block: 0,
            body: Block::fill(0),
        }
    }
}

/// At most 16 parts of consecutive blocks, stored in place.
#[derive(Drop)]
pub struct Parts {
    items: ArrayVec<Part, 16>,
}

impl Model for Parts {
    ghost use Rattle.std.specs.Prelude.{List, length, ◌≤◌};
    ghost use Rattle.order_model.specs.declared.part.Part.{Part};

    ghost Value = { List Part };

    ghost use Rattle.order_model.specs.Parts.{IsConsecutive};

    ghost view = { λ p. p.items.items };

    ghost invariant = { λ p. (length p.items.items ≤ 16) × IsConsecutive p.items.items };
}

impl Parts {
    /// No part. Every block follows it.
    pub fn none() -> Parts
        ensures { result ≡ [] }
    {
        Parts {
            items: ArrayVec::new(),
        }
    }

    pub fn one(p: Part) -> Parts
        ensures { result ≡ p ∷ [] }
    {
        let mut items = ArrayVec::new();
        items.push(p);
        Parts { items }
    }

    /// Appends a part, or hands it back where 16 are held or its block does not follow.
    pub fn push(&mut self, p: Part) -> Result<(), Part>
        ensures ok { IsOk result ↔ ((length self.old < 16) × Follows self.old p) }
        ensures pushed { OnOk result (self.new ≡ self.old ++ p ∷ []) }
        ensures back { IfErr result (λ q. (q ≡ p) × (self.new ≡ self.old)) }
    {
        if self.items.is_full() || !follows(self.items.as_slice(), p.block) {
            return Err(p);
        }
        self.items.push(p);
        Ok(())
    }

    /// All parts go. What is in their places stays there and does not count.
    pub fn clear(&mut self)
        ensures { self.new ≡ [] }
    {
        self.items.clear();
    }

    /// This part takes the place of all that are held, where it stands.
    pub fn set_one(&mut self, p: Part)
        ensures { self.new ≡ p ∷ [] }
    {
        self.items.clear();
        self.items.push(p);
    }

    /// The parts of another list take the place of these, where they stand.
    pub fn refill(&mut self, from: &Parts)
        ensures { self.new ≡ from.now }
    {
        refill(&mut self.items, from.items.as_slice());
    }

    pub fn len(&self) -> u32
        ensures { result ≡ length self.now }
    {
        self.items.len() as u32
    }

    pub fn is_empty(&self) -> bool
        ensures { result ≡ (length self.now == 0) }
    {
        self.items.is_empty()
    }

    /// The part at this place. None exactly past the last.
    pub fn get(&self, at: u32) -> Option<&Part>
        ensures { option_copied result ≡ slice_get self.now at }
    {
        self.items.as_slice().get(at as usize)
    }

    pub fn as_slice(&self) -> &[Part]
        ensures { result.now ≡ self.now }
    {
        self.items.as_slice()
    }
}

// Copies of these parts take the place of what is there.
fn refill(items: &mut ArrayVec<Part, 16>, from: &[Part])
    requires { length from.now ≤ 16 }
    ensures { items.new.items ≡ from.now }
{
    items.clear();
    for part in from {
        items.push(part.copy());
    }
}

// The block is the one after the last part's, or there is no part.
fn follows(parts: &[Part], block: u32) -> bool
    ensures { result ≡ block_follows parts.now block }
{
    match parts.last() {
        None => true,
        Some(last) => last.block < u32::MAX && last.block + 1 == block,
    }
}
