//! Where the commit blocks of transactions stand.
ghost use Rattle.std.specs.Prelude.{◌≡◌, ◌<◌, [], IfOk, length, vec_capacity};
ghost use Rattle.blk_base.specs.Members.{IsAscending};
ghost use Rattle.flush_actor.specs.conflicts.Commits.{has_commit, is_committed, with_commit, with_commits};
ghost use Rattle.flush_actor.specs.declared.conflicts.commits.CommitBlock.{CommitBlock};
ghost use Rattle.number_sets.specs.laws.Keyed.{IsKeyPlace};

use blk_base::NoMemory;
use std::alloc::Global;
use std::marker::Model;

/// A transaction, and the request that is its commit block.
#[derive(Clone, Copy, Debug, PartialEq, Eq)]
pub struct CommitBlock {
    pub transaction: u32,
    pub id: u64,
}

/// For each transaction the first request that is its commit block. No call but `make` takes memory, and each searches
/// by halves.
#[derive(Drop)]
pub struct Commits {
    room: u32,
    commits: Vec<CommitBlock>,
}

impl Model for Commits {
    ghost use Rattle.flush_actor.specs.conflicts.Commits.{CommitTable};
    ghost use Rattle.flush_actor.specs.conflicts.code.Table.{IsCommitTable};
    ghost use Rattle.std.specs.Prelude.{vec_capacity};

    ghost Value = { CommitTable };

    ghost view = { λ t. record { room = t.room; commits = t.commits.items } };

    ghost invariant = { λ t. IsCommitTable t.room t.commits.items (vec_capacity t.commits) };
}

impl Commits {
    /// None is known, and there is room for so many.
    pub fn make(alloc: Global, room: u32) -> Result<Commits, NoMemory>
        ensures { IfOk result (λ t. t ≡ record { room = room; commits = [] }) }
    {
        Ok(Commits {
            room,
            commits: Vec::with_capacity(alloc, room as usize)?,
        })
    }

    /// Request `id` is the commit block of transaction `tx`. Where an earlier one is known, that one stays.
    pub fn note(&mut self, tx: u32, id: u64)
        requires { length self.old.commits < self.old.room }
        ensures { self.new ≡ with_commits self.old (with_commit tx id self.old.commits) }
    {
        put_commit(&mut self.commits, tx, id);
    }

    /// Whether transaction `tx` has its commit block before request `id`.
    pub fn is_before(&self, tx: u32, id: u64) -> bool
        ensures { result ≡ is_committed id tx self.now.commits }
    {
        is_committed(&self.commits, tx, id)
    }
}

// The place of a transaction, or else the place where it would stand.
fn place_of(commits: &[CommitBlock], tx: u32) -> Result<usize, usize>
    requires { IsAscending (λ (c : CommitBlock). c.transaction) commits.now }
    ensures { IsKeyPlace (λ (c : CommitBlock). c.transaction) commits.now tx result }
{
    commits.binary_search_by_key(&tx, |c| c.transaction)
}

// Whether a transaction has its commit block before request `id`.
fn is_committed(commits: &[CommitBlock], tx: u32, id: u64) -> bool
    requires { IsAscending (λ (c : CommitBlock). c.transaction) commits.now }
    ensures { result ≡ is_committed id tx commits.now }
{
    match place_of(commits, tx) {
        Ok(at) => commits[at].id < id,
        Err(_) => false,
    }
}

// A transaction has its commit block, if it has none yet.
fn put_commit(commits: &mut Vec<CommitBlock>, transaction: u32, id: u64)
    requires rising { IsAscending (λ (c : CommitBlock). c.transaction) commits.old.items }
    requires room { length commits.old.items < vec_capacity commits.old }
    ensures commits { commits.new.items ≡ with_commit transaction id commits.old.items }
    ensures capacity { vec_capacity commits.new ≡ vec_capacity commits.old }
{
    match place_of(commits, transaction) {
        Ok(_) => {}
        Err(at) => {
            let _ = commits.insert(at, CommitBlock { transaction, id });
        }
    }
}
