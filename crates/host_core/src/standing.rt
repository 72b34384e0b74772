//! How callers stand.
ghost use Rattle.std.specs.Prelude.{◌≡◌, ◌≤◌, ◌^◌, ◌-◌, IfOk, OnErr, slice_index_or};
ghost use Rattle.flush_actor.specs.Waits.{no_wait};
ghost use Rattle.host_core.specs.Standings as standings;
ghost use Rattle.host_core.specs.Standings.{standing_of, IsTooGreat};

use crate::Host;
use crate::begun::Begun;
use blk_base::NoMemory;
use commit_actor::JournalPart;
use flush_actor::Wait;
use host_answers::{Stand, Standing};

impl Host {
    /// How a thread stands, if it is there; they are counted from 1. It takes no memory: `NoMemory` stands for a
    /// transaction whose number has more than 32 bits.
    pub fn standing(&self, thread: u32) -> Result<Option<Standing>, NoMemory>
        requires { 1 ≤ thread }
        ensures ok { IfOk result (λ s. s ≡ standing_of self.now thread) }
        ensures err { OnErr result (IsTooGreat (slice_index_or self.now.host.journal.flush.waits (thread - 1) no_wait)) }
    {
        let at = (thread - 1) as usize;
        let Some(caller) = self.threads.get(at) else {
            return Ok(None);
        };
        let journal = &self.parts.journal;
        let wait = journal.flush().wait(thread - 1).unwrap_or(Wait::none());
        let state = stand_of(journal, wait, &caller.begun)?;
        Ok(Some(Standing {
            answered: caller.ended,
            calls: caller.program.len() as u32,
            state,
        }))
    }
}

// How a call stands that waits for this, where it has begun.
fn stand_of(journal: &JournalPart, wait: Wait, begun: &Option<Begun>) -> Result<Stand, NoMemory>
    ensures ok { IfOk result (λ s. s ≡ standings.stand_of journal.now.part wait begun.now) }
    ensures err { OnErr result (IsTooGreat wait) }
{
    match begun {
        None => Ok(Stand::Fresh),
        Some(_) => begun_stand(journal, wait),
    }
}

// How a call stands that has begun and waits for this.
fn begun_stand(journal: &JournalPart, wait: Wait) -> Result<Stand, NoMemory>
    ensures ok { IfOk result (λ s. s ≡ standings.begun_stand journal.now.part wait) }
    ensures err { OnErr result (IsTooGreat wait) }
{
    if let Some(id) = wait.need {
        return Ok(Stand::Durable(id));
    }
    match wait.target {
        Some(k) => for_commit(journal, k),
        None => Ok(Stand::Sending),
    }
}

// How a call stands that waits for transaction `k`.
fn for_commit(journal: &JournalPart, k: u64) -> Result<Stand, NoMemory>
    ensures ok { IfOk result (λ s. s ≡ standings.for_commit journal.now.part k) }
    ensures err { OnErr result (2 ^ 32 ≤ k) }
{
    if k == journal.running().number()
        && let Some((block, holder)) = journal.flush().least_conflict()
    {
        return Ok(Stand::Conflict(block, holder));
    }
    match u32::try_from(k) {
        Ok(tx) => Ok(Stand::Commit(tx)),
        Err(_) => Err(NoMemory),
    }
}
