//! What all threads' calls wait for.
ghost use Rattle.std.specs.Prelude.{◌≡◌, IfOk, map, replicate};
ghost use Rattle.std.specs.List.{list_any};
ghost use Rattle.flush_actor.specs.Waits.{no_wait, awaits, need_commit};

use crate::Wait;
use blk_base::NoMemory;
use std::alloc::Global;

// No thread waits.
pub fn no_waits(alloc: Global, threads: u32) -> Result<Vec<Wait>, NoMemory>
    ensures { IfOk result (λ v. v.items ≡ replicate threads no_wait) }
{
    Ok(vec![in alloc; Wait::none(); threads as usize]?)
}

// Whether a durability call waits for a transaction.
pub fn any_awaits(waits: &[Wait], tx: u32) -> bool
    ensures { result ≡ list_any (awaits tx) waits.now }
{
    for wait in waits {
        if wait.awaits(u64::from(tx)) {
            return true;
        }
    }
    false
}

// Request `id` is the commit block of a transaction.
pub fn note_commit(waits: &mut Vec<Wait>, tx: u64, id: u64)
    ensures { waits.new.items ≡ map (need_commit tx id) waits.old.items }
{
    for at in 0..waits.len() {
        waits[at] = waits[at].after_commit(tx, id);
    }
}
