//! The table of the revokes of a log.
ghost use Rattle.std.specs.Prelude.{◌≡◌, ℕ, Some, map, IfOk, OnOk, if◌then◌else◌};
ghost use Rattle.journal_replay.specs.Revokes.{is_revoked, last_revoke, place_of, with_place, cancels};
ghost use Rattle.journal_replay.specs.code.Scans.{transaction_of};

use crate::{Log, LogTransaction};
use blk_base::NoMemory;
use std::alloc::Global;
use std::collections::BTreeMap;
use std::marker::Model;

/// For each block that a log revokes the place of the last transaction that does, counted from 0.
#[derive(Drop)]
pub struct RevokeMap {
    map: BTreeMap<u64, usize>,
}

impl Model for RevokeMap {
    ghost use Rattle.std.specs.Prelude.{List, ℕ};

    ghost Value = { List (ℕ × ℕ) };

    ghost view = { λ m. m.map.entries };
}

impl RevokeMap {
    /// Whether a body of the block in the transaction at this place is cancelled.
    pub fn cancels(&self, block: u64, at: usize) -> bool
        ensures { result ≡ cancels (place_of self.now block) at }
    {
        match self.map.get(&block) {
            None => false,
            Some(last) => at <= *last,
        }
    }
}

/// The table of the revokes of a log.
pub fn revokes(alloc: Global, log: &Log) -> Result<RevokeMap, NoMemory>
    ensures { IfOk result (λ m. (b : ℕ) → place_of m b ≡ last_revoke 0 log.now b) }
{
    revokes_of(alloc, log.as_slice())
}

// The table of the revokes of these transactions.
fn revokes_of(alloc: Global, log: &[LogTransaction]) -> Result<RevokeMap, NoMemory>
    ensures { IfOk result (λ m. (b : ℕ) → place_of m b ≡ last_revoke 0 (map transaction_of log.now) b) }
{
    let mut map = BTreeMap::new(alloc);
    for at in 0..log.len() {
        put_all(&mut map, &log[at].revokes, at)?;
    }
    Ok(RevokeMap { map })
}

// The transaction at this place revokes these blocks.
fn put_all(map: &mut BTreeMap<u64, usize>, blocks: &[u64], at: usize) -> Result<(), NoMemory>
    ensures { IfOk result (λ _. (b : ℕ) → place_of map.new.entries b ≡ (if is_revoked blocks.now b then Some at else place_of map.old.entries b)) }
{
    for block in blocks {
        put(map, *block, at)?;
    }
    Ok(())
}

// The transaction at this place revokes this block.
fn put(map: &mut BTreeMap<u64, usize>, block: u64, at: usize) -> Result<(), NoMemory>
    ensures { OnOk result (map.new.entries ≡ with_place map.old.entries block at) }
{
    match map.insert(block, at) {
        Ok(_) => Ok(()),
        Err(_) => Err(NoMemory),
    }
}
