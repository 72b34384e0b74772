//! Which blocks are held, and which of these are wanted.
ghost use Rattle.std.specs.Prelude.{◌≡◌, ◌<◌, ◌∷◌, [], IfOk, is_none};
ghost use Rattle.std.specs.Option.{option_map};
ghost use Rattle.flush_actor.specs.conflicts.Commits.{is_committed};
ghost use Rattle.flush_actor.specs.conflicts.Conflicts.{with_conflicts, hold, want, unhold, unhold_by, least, holder};

use crate::conflicts::held::{end_committed, end_holds, holder, is_held, keep_held, put_held};
use crate::conflicts::{Commits, Held};
use blk_base::NoMemory;
use number_sets::add_u32;
use std::alloc::Global;
use std::marker::Model;

/// The blocks that transactions hold, and those of them that the running transaction wants. No call but `make` takes
/// memory, and none goes through all blocks of the volume: `hold` and `want` search by halves and move what stands
/// behind the place, `is_clear` and `least` look at one entry, and `release` goes once through what is held and wanted.
#[derive(Drop)]
pub struct Conflicts {
    blocks: u32,
    held: Vec<Held>,
    wanted: Vec<u32>,
}

impl Model for Conflicts {
    ghost use Rattle.flush_actor.specs.conflicts.Conflicts.{ConflictTable};
    ghost use Rattle.flush_actor.specs.conflicts.code.Table.{IsTable};
    ghost use Rattle.std.specs.Prelude.{vec_capacity};

    ghost Value = { ConflictTable };

    ghost view = { λ t. record { blocks = t.blocks; conflicts = record { held = t.held.items; wanted = t.wanted.items } } };

    ghost invariant = { λ t. IsTable t.blocks t.held.items t.wanted.items (vec_capacity t.held) (vec_capacity t.wanted) };
}

impl Conflicts {
    /// Nothing is held of the blocks below `blocks`. What the calls need is reserved: some twelve bytes a block.
    pub fn make(alloc: Global, blocks: u32) -> Result<Conflicts, NoMemory>
        ensures { IfOk result (λ t. t ≡ record { blocks = blocks; conflicts = record { held = []; wanted = [] } }) }
    {
        // Room for one more, so that there is room before a block is looked for.
        let room = blocks as usize + 1;
        Ok(Conflicts {
            blocks,
            held: Vec::with_capacity(alloc, room)?,
            wanted: Vec::with_capacity(alloc, room)?,
        })
    }

    /// Transaction `tx` holds a block. Where another one held it, that one holds it no longer.
    pub fn hold(&mut self, tx: u32, block: u32)
        requires { block < self.old.blocks }
        ensures { self.new ≡ with_conflicts self.old (hold tx (block ∷ []) self.old.conflicts) }
    {
        put_held(&mut self.held, tx, block);
    }

    /// The running transaction wants a block. It is listed exactly where it is held.
    pub fn want(&mut self, block: u32)
        requires { block < self.old.blocks }
        ensures { self.new ≡ with_conflicts self.old (want (block ∷ []) self.old.conflicts) }
    {
        if is_held(&self.held, block) {
            add_u32(&mut self.wanted, block);
        }
    }

    /// The holds of transaction `tx` end, and what is wanted of them is wanted no longer.
    pub fn release(&mut self, tx: u32)
        ensures { self.new ≡ with_conflicts self.old (unhold tx self.old.conflicts) }
    {
        end_holds(&mut self.held, tx);
        keep_held(&mut self.wanted, &self.held);
    }

    /// The holds of each transaction end whose commit block stands before request `before`, and what is wanted of them is
    /// wanted no longer.
    pub fn release_before(&mut self, commits: &Commits, before: u64)
        ensures { self.new ≡ with_conflicts self.old (unhold_by (λ k. is_committed before k commits.now.commits) self.old.conflicts) }
    {
        end_committed(&mut self.held, commits, before);
        keep_held(&mut self.wanted, &self.held);
    }

    /// Whether no block that is held is wanted.
    pub fn is_clear(&self) -> bool
        ensures { result ≡ is_none (least self.now.conflicts) }
    {
        self.wanted.is_empty()
    }

    /// The lowest block that is wanted, with the transaction that holds it.
    pub fn least(&self) -> Option<(u32, u32)>
        ensures { result ≡ option_map (λ b. (b, holder self.now.conflicts.held b)) (least self.now.conflicts) }
    {
        let block = *self.wanted.first()?;
        Some((block, holder(&self.held, block)))
    }
}
