//! The bodies that a log leaves, by their homes. They are moved from the log to the homes, and those that a later body
//! or a revoke takes the place of are let go.
ghost use Rattle.std.specs.Prelude.{◌≡◌, ℕ, ◌<◌, ◌++◌, ◌&&◌, ◌^◌, [], Some, None, List, map, length, replicate, slice_get, slice_set, nat_lt, not, Option, if◌then◌else◌, IfOk};
ghost use Rattle.log_model.specs.Marks.{mark_in};
ghost use Rattle.log_model.specs.LastLogged.{bodies_of, last_of};
ghost use Rattle.journal_replay.specs.Revokes.{last_revoke, place_of, cancels, or_else, replayed_by};
ghost use Rattle.journal_replay.specs.Commands.{homes};
ghost use Rattle.journal_replay.specs.code.Homes.{logged_of, logged_bodies, listed, entry};
ghost use Rattle.journal_replay.specs.code.Scans.{transaction_of};

use crate::home::Home;
use crate::{BoxedBlock, Log, LogBody, LogTransaction, RevokeMap};
use blk_base::NoMemory;
use std::alloc::Global;

// The bodies that a log leaves for the first so many blocks, in rising order of block.
pub(crate) fn homes_of(
    alloc: Global,
    log: Log,
    revokes: &RevokeMap,
    zones: u32,
) -> Result<Vec<Home>, NoMemory>
    requires { (b : ℕ) → place_of revokes.now b ≡ last_revoke 0 log b }
    ensures { IfOk result (λ v. logged_of v.items ≡ homes (mark_in log) 0 zones) }
{
    let mut table = blank(alloc, zones)?;
    put_log(&mut table, revokes, log.into_transactions());
    collect(alloc, table)
}

// So many blocks without a body.
fn blank(alloc: Global, blocks: u32) -> Result<Vec<Option<BoxedBlock>>, NoMemory>
    ensures { IfOk result (λ v. v.items ≡ replicate blocks None) }
{
    let mut table = Vec::with_capacity(alloc, blocks as usize)?;
    for _ in 0..blocks {
        table.push_reserved(None);
    }
    Ok(table)
}

// The bodies of these transactions, but for those that are cancelled.
fn put_log(table: &mut Vec<Option<BoxedBlock>>, revokes: &RevokeMap, log: Vec<LogTransaction>)
    ensures len { length table.new.items ≡ length table.old.items }
    ensures bodies { (b : ℕ) (o : Option (List ℕ)) → slice_get table.old.items b ≡ Some o →
        slice_get table.new.items b ≡ Some (replayed_by (place_of revokes.now b) 0 (map transaction_of log.items) b o) }
{
    let mut at = 0;
    for transaction in log {
        put_bodies(table, revokes, transaction.bodies, at);
        at += 1;
    }
}

// The bodies of the transaction at this place, but for those that are cancelled.
fn put_bodies(
    table: &mut Vec<Option<BoxedBlock>>,
    revokes: &RevokeMap,
    bodies: Vec<LogBody>,
    at: usize,
)
    ensures len { length table.new.items ≡ length table.old.items }
    ensures bodies { (b : ℕ) (o : Option (List ℕ)) → slice_get table.old.items b ≡ Some o →
        slice_get table.new.items b ≡ Some (if cancels (place_of revokes.now b) at then o else or_else (last_of (bodies_of (logged_bodies bodies.items) b)) o) }
{
    for body in bodies {
        put_body(table, revokes, body, at);
    }
}

// One body, if its block is in the table.
fn put_body(table: &mut Vec<Option<BoxedBlock>>, revokes: &RevokeMap, body: LogBody, at: usize)
    ensures { table.new.items ≡ (if nat_lt body.block (length table.old.items) && not (cancels (place_of revokes.now body.block) at) then slice_set table.old.items body.block (Some body.body) else table.old.items) }
{
    if body.block < table.len() as u64 && !revokes.cancels(body.block, at) {
        table[body.block as usize] = Some(body.body);
    }
}

// The bodies in a table, in rising order of block.
fn collect(alloc: Global, table: Vec<Option<BoxedBlock>>) -> Result<Vec<Home>, NoMemory>
    requires { length table.items < 2 ^ 32 }
    ensures { IfOk result (λ v. logged_of v.items ≡ listed 0 table.items) }
{
    let mut homes = Vec::new(alloc);
    let mut block = 0;
    for slot in table {
        push_home(&mut homes, block, slot)?;
        block += 1;
    }
    Ok(homes)
}

// The body of a block, if it has one.
fn push_home(homes: &mut Vec<Home>, block: u32, slot: Option<BoxedBlock>) -> Result<(), NoMemory>
    ensures { IfOk result (λ _. logged_of homes.new.items ≡ logged_of homes.old.items ++ entry block slot) }
{
    let Some(body) = slot else {
        return Ok(());
    };
    homes.push(Home { block, body })?;
    Ok(())
}
