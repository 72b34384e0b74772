//! Blocks that transactions hold, in rising order of block.
ghost use Rattle.std.specs.Prelude.{◌≡◌, ◌≢◌, ◌<◌, ◌==◌, not, length, vec_capacity};
ghost use Rattle.std.specs.List.{filter, list_any};
ghost use Rattle.blk_base.specs.Members.{IsAscending};
ghost use Rattle.flush_actor.specs.conflicts.Commits.{is_committed};
ghost use Rattle.flush_actor.specs.conflicts.Conflicts.{holder, put_held};
ghost use Rattle.flush_actor.specs.declared.conflicts.held.Held.{Held};
ghost use Rattle.number_sets.specs.laws.Keyed.{IsKeyPlace};

use crate::conflicts::Commits;

/// A block, and the transaction that holds it.
#[derive(Clone, Copy, Debug, PartialEq, Eq)]
pub struct Held {
    pub block: u32,
    pub transaction: u32,
}

// The place of a block, or else the place where it would stand.
fn place_of(held: &[Held], block: u32) -> Result<usize, usize>
    requires { IsAscending (λ (h : Held). h.block) held.now }
    ensures { IsKeyPlace (λ (h : Held). h.block) held.now block result }
{
    held.binary_search_by_key(&block, |h| h.block)
}

// Whether a block is held.
pub fn is_held(held: &[Held], block: u32) -> bool
    requires { IsAscending (λ (h : Held). h.block) held.now }
    ensures { result ≡ list_any (λ (h : Held). h.block == block) held.now }
{
    place_of(held, block).is_ok()
}

// The transaction that holds a block, or 0.
pub fn holder(held: &[Held], block: u32) -> u32
    requires { IsAscending (λ (h : Held). h.block) held.now }
    ensures { result ≡ holder held.now block }
{
    match place_of(held, block) {
        Ok(at) => held[at].transaction,
        Err(_) => 0,
    }
}

// A transaction holds one block more.
pub fn put_held(held: &mut Vec<Held>, transaction: u32, block: u32)
    requires rising { IsAscending (λ (h : Held). h.block) held.old.items }
    requires room { length held.old.items < vec_capacity held.old }
    ensures held { held.new.items ≡ put_held held.old.items transaction block }
    ensures capacity { vec_capacity held.new ≡ vec_capacity held.old }
{
    let hold = Held { block, transaction };
    match place_of(held, block) {
        Ok(at) => held[at] = hold,
        Err(at) => {
            let _ = held.insert(at, hold);
        }
    }
}

// Keeps the blocks that are held.
pub fn keep_held(blocks: &mut Vec<u32>, held: &[Held])
    requires { IsAscending (λ (h : Held). h.block) held.now }
    ensures blocks { blocks.new.items ≡ filter (λ b. list_any (λ (h : Held). h.block == b) held.now) blocks.old.items }
    ensures capacity { vec_capacity blocks.new ≡ vec_capacity blocks.old }
{
    blocks.retain(|block| is_held(held, *block));
}

// Ends the holds of a transaction.
pub fn end_holds(held: &mut Vec<Held>, transaction: u32)
    ensures held { held.new.items ≡ filter (λ (h : Held). not (h.transaction == transaction)) held.old.items }
    ensures capacity { vec_capacity held.new ≡ vec_capacity held.old }
{
    held.retain(|h| h.transaction != transaction);
}

// Ends the holds of the transactions whose commit block stands before request `before`.
pub fn end_committed(held: &mut Vec<Held>, commits: &Commits, before: u64)
    ensures held { held.new.items ≡ filter (λ (h : Held). not (is_committed before h.transaction commits.now.commits)) held.old.items }
    ensures capacity { vec_capacity held.new ≡ vec_capacity held.old }
{
    held.retain(|h| !commits.is_before(h.transaction, before));
}
