//! What a begun call does once no page is left: it waits, or is answered.
ghost use Rattle.std.specs.Prelude.{◌≡◌, ℕ, ◌<◌, ◌≤◌, ◌^◌, false, List, Some, None, IfOk, OnErr, length, slice_index_or};
ghost use Rattle.flush_actor.specs.Waits.{no_wait};
ghost use Rattle.flush_actor.specs.declared.wait.Wait.{Wait};
ghost use Rattle.host_machine.specs.Host as machine;
ghost use Rattle.host_core.specs.begun.Causes.{cause_is};
ghost use Rattle.host_core.specs.begun.Steps.{waits_durable, waits_for_put, waits_for_commit, pursues, keeps_all, IsGreatGoal};
ghost use Rattle.host_core.specs.begun.code.Told.{went_by, goal_is, found_queue_full};
ghost use Rattle.host_core.specs.declared.begun.waiting.BegunProgress.TheVariants as told;

use crate::begun::Begun;
use blk_base::NoMemory;
use commit_actor::JournalPart;
use flush_actor::{CallKind, Wait};
use host_answers::Cause;

/// How far a begun call came.
#[derive(Clone, Copy)]
pub enum BegunProgress {
    /// It is answered: what it asked for holds.
    Answered,
    /// The session may have no more requests.
    Full,
    /// It sent a page, as the request with this number. So many more pages of its list are passed, and it has sent a
    /// barrier or not.
    Sent {
        id: u64,
        passed: usize,
        barrier: bool,
    },
    Waiting(Cause),
}

// What a call does when no page is left.
#[derive(Clone, Copy)]
pub enum Goal {
    AwaitCommit(u64),
    AnswerOk,
    AwaitLastPut,
}

// Of what a call waits for transaction `k`.
fn cause_of(journal: &JournalPart, k: u64) -> Result<Cause, NoMemory>
    ensures cause { IfOk result (λ c. cause_is c ≡ machine.cause_of journal.now.part k) }
    ensures great { OnErr result (2 ^ 32 ≤ k) }
    ensures waits { IfOk result (λ c. found_queue_full (told.Waiting c) ≡ false) }
{
    if k == journal.running().number()
        && let Some((block, holder)) = journal.flush().least_conflict()
    {
        return Ok(Cause::Conflict(block, holder));
    }
    match u32::try_from(k) {
        Ok(tx) => Ok(Cause::Commit(tx)),
        Err(_) => Err(NoMemory),
    }
}

// It needs this request durable, which was submitted.
pub fn await_durable(journal: &mut JournalPart, thread: u32, wait: Wait, id: u64) -> BegunProgress
    requires thread { thread < length journal.old.part.flush.waits }
    requires id { id < length journal.old.part.flush.requests }
    ensures step { (list : List (ℕ × ℕ)) → went_by list journal.new.part result ≡ waits_durable journal.old.part thread wait id }
    ensures same { keeps_all journal.old journal.new }
    ensures silent { journal.new.part.flush.requests ≡ journal.old.part.flush.requests }
    ensures waits { found_queue_full result ≡ false }
{
    let flush = journal.flush();
    if flush.has_flushed_after(id) {
        return BegunProgress::Answered;
    }
    if flush.at_limit() && !flush.has_flush_above(id) {
        return BegunProgress::Full;
    }
    let needing = Wait {
        need: Some(id),
        ..wait
    };
    journal.set_wait(thread, needing);
    BegunProgress::Waiting(Cause::Durable(id))
}

// It has needed this request durable before.
pub fn still_durable(journal: &JournalPart, id: u64) -> BegunProgress
    ensures step { (list : List (ℕ × ℕ)) (t : ℕ) (w : Wait) → w ≡ slice_index_or journal.now.part.flush.waits t no_wait → w.need ≡ Some id →
        went_by list journal.now.part result ≡ waits_durable journal.now.part t w id }
    ensures waits { found_queue_full result ≡ false }
{
    let flush = journal.flush();
    if flush.has_flushed_after(id) {
        return BegunProgress::Answered;
    }
    if flush.at_limit() && !flush.has_flush_above(id) {
        return BegunProgress::Full;
    }
    BegunProgress::Waiting(Cause::Durable(id))
}

// It needs the last put durable.
fn await_last_put(journal: &mut JournalPart, thread: u32, wait: Wait) -> BegunProgress
    requires thread { thread < length journal.old.part.flush.waits }
    ensures step { (list : List (ℕ × ℕ)) → went_by list journal.new.part result ≡ waits_for_put journal.old.part thread wait }
    ensures same { keeps_all journal.old journal.new }
    ensures silent { journal.new.part.flush.requests ≡ journal.old.part.flush.requests }
    ensures waits { found_queue_full result ≡ false }
{
    match journal.flush().last_put() {
        None => BegunProgress::Answered,
        Some(id) => await_durable(journal, thread, wait, id),
    }
}

// It waits for transaction `k`.
pub fn await_commit(
    journal: &mut JournalPart,
    thread: u32,
    wait: Wait,
    k: u64,
) -> Result<BegunProgress, NoMemory>
    requires thread { thread < length journal.old.part.flush.waits }
    ensures ok { (list : List (ℕ × ℕ)) → IfOk result (λ p. went_by list journal.new.part p ≡ waits_for_commit journal.old.part thread wait k) }
    ensures err { OnErr result (journal.new ≡ journal.old) }
    ensures great { OnErr result (2 ^ 32 ≤ k) }
    ensures same { keeps_all journal.old journal.new }
    ensures silent { journal.new.part.flush.requests ≡ journal.old.part.flush.requests }
    ensures waits { IfOk result (λ p. found_queue_full p ≡ false) }
{
    if journal.is_submitted(k) {
        if !wait.kind.is_durable() {
            return Ok(BegunProgress::Answered);
        }
        return Ok(await_last_put(journal, thread, wait));
    }
    if journal.flush().at_limit() {
        return Ok(BegunProgress::Full);
    }
    Ok(BegunProgress::Waiting(cause_of(journal, k)?))
}

// What it does when no page is left.
fn goal_of(journal: &JournalPart, begun: &Begun) -> Goal
    ensures { goal_is result ≡ machine.goal_of journal.now.part begun.now }
{
    let running = journal.running().number();
    if !begun.kind.is_data() {
        return Goal::AwaitCommit(running);
    }
    if let Some(k) = journal.latest_change(begun.file) {
        return Goal::AwaitCommit(k);
    }
    if begun.kind == CallKind::DataSync {
        return Goal::AwaitLastPut;
    }
    if begun.sent_barrier {
        return Goal::AnswerOk;
    }
    Goal::AwaitCommit(running)
}

// It fixes a transaction that it waits for.
fn fix_target(
    journal: &mut JournalPart,
    thread: u32,
    wait: Wait,
    k: u64,
) -> Result<BegunProgress, NoMemory>
    requires thread { thread < length journal.old.part.flush.waits }
    requires need { wait.need ≡ None }
    ensures ok { (list : List (ℕ × ℕ)) → IfOk result (λ p. went_by list journal.new.part p ≡ pursues journal.old.part thread wait (machine.AwaitCommit k)) }
    ensures err { OnErr result (journal.new ≡ journal.old) }
    ensures great { OnErr result (2 ^ 32 ≤ k) }
    ensures same { keeps_all journal.old journal.new }
    ensures silent { journal.new.part.flush.requests ≡ journal.old.part.flush.requests }
    ensures waits { IfOk result (λ p. found_queue_full p ≡ false) }
{
    if journal.flush().at_limit() {
        return Ok(BegunProgress::Full);
    }
    let cause = cause_of(journal, k)?;
    let fixed = Wait {
        target: Some(k),
        ..wait
    };
    let runs = k == journal.running().number();
    journal.set_wait(thread, fixed);
    if runs {
        journal.want_closed();
    }
    Ok(BegunProgress::Waiting(cause))
}

// No page is left on its list.
pub fn pursue(
    journal: &mut JournalPart,
    thread: u32,
    wait: Wait,
    begun: &Begun,
) -> Result<BegunProgress, NoMemory>
    requires thread { thread < length journal.old.part.flush.waits }
    requires need { wait.need ≡ None }
    ensures ok { (list : List (ℕ × ℕ)) → IfOk result (λ p. went_by list journal.new.part p ≡ pursues journal.old.part thread wait (machine.goal_of journal.old.part begun.now)) }
    ensures err { OnErr result (journal.new ≡ journal.old) }
    ensures great { OnErr result (IsGreatGoal (machine.goal_of journal.old.part begun.now)) }
    ensures same { keeps_all journal.old journal.new }
    ensures silent { journal.new.part.flush.requests ≡ journal.old.part.flush.requests }
    ensures waits { IfOk result (λ p. found_queue_full p ≡ false) }
{
    match goal_of(journal, begun) {
        Goal::AnswerOk => Ok(BegunProgress::Answered),
        Goal::AwaitLastPut => Ok(await_last_put(journal, thread, wait)),
        Goal::AwaitCommit(k) => fix_target(journal, thread, wait, k),
    }
}
