//! The flush actor's part of the host.
ghost use Rattle.std.specs.Prelude.{◌≡◌, ◌+◌, ◌<◌, ◌≤◌, ◌^◌, ℕ, true, false, Some, None, is_none, if◌then◌else◌, [], ◌∷◌, ◌++◌, IfOk, IfSome, length, map, set, slice_get};
ghost use Rattle.std.specs.List.{list_any};
ghost use Rattle.std.specs.Option.{option_map};
ghost use Rattle.order_model.specs.declared.turn.Turn.TheVariants.{QueueFull};
ghost use Rattle.flush_actor.specs.conflicts.Conflicts as holds;
ghost use Rattle.flush_actor.specs.conflicts.Conflicts.{least, holder};
ghost use Rattle.flush_actor.specs.Actor.{made, with_part, with_conflicts};
ghost use Rattle.flush_actor.specs.Outcomes.{is_queue_full, sent_between};
ghost use Rattle.flush_actor.specs.Part.{is_cut, first_failed, is_over, at_limit, is_flushed_after, flush_above, last_put};
ghost use Rattle.blk_base.specs.Members.{In};
ghost use Rattle.flush_actor.specs.Steps.{submit_turn, after_submit, is_due_in, flush_due, after_moved, after_completion, take_completion};
ghost use Rattle.flush_actor.specs.declared.wait.Wait.{Wait};
ghost use Rattle.flush_actor.specs.Waits.{need_commit};

use crate::Wait;
use crate::completed::Completed;
use crate::conflicts::Conflicts;
use crate::submission::Submission;
use crate::waits::{any_awaits, no_waits, note_commit};
use blk_base::NoMemory;
use order_model::{Completion, Kind, Note, Outlet, Request, Turn};
use std::alloc::Global;
use std::marker::Model;

/// What was submitted and completed, which blocks are held, and what the threads' calls wait for. No call but `make` takes
/// memory. A step takes as long as there are threads and held blocks; none goes through all requests.
#[derive(Drop)]
pub struct FlushPart {
    submission: Submission,
    completed: Completed,
    blocks: u32,
    conflicts: Conflicts,
    waits: Vec<Wait>,
}

impl Model for FlushPart {
    ghost use Rattle.flush_actor.specs.Actor.{FlushActor};
    ghost use Rattle.flush_actor.specs.code.Fields.{IsFlushPart};

    ghost Value = { FlushActor };

    ghost view = { λ f. record {
      blocks = f.blocks;
      part = record {
        requests = f.submission.requests;
        notes = f.submission.notes;
        limit = f.submission.limit;
        taken = f.completed.taken;
        conflicts = f.conflicts.conflicts;
        waits = f.waits.items;
      };
    } };

    ghost invariant = { λ f. IsFlushPart f.submission f.completed f.blocks f.conflicts f.waits.items };
}

impl FlushPart {
    /// Nothing is submitted, and no thread waits. `limit` is how many requests the session may submit, and `blocks` how
    /// many blocks there are. All memory is reserved: some fifty bytes for a request, and twelve for a block.
    pub fn make(alloc: Global, limit: u64, blocks: u32, threads: u32) -> Result<FlushPart, NoMemory>
        requires { limit < 2 ^ 32 }
        ensures { IfOk result (λ f. f ≡ made limit blocks threads) }
    {
        Ok(FlushPart {
            submission: Submission::make(alloc, limit)?,
            completed: Completed::make(alloc, limit)?,
            blocks,
            conflicts: Conflicts::make(alloc, blocks)?,
            waits: no_waits(alloc, threads)?,
        })
    }

    // ---- what was submitted

    /// How many requests were submitted: the id of the next one.
    pub fn submitted(&self) -> u64
        ensures { result ≡ length self.now.part.requests }
    {
        self.submission.len()
    }

    /// What each of them carries.
    pub fn notes(&self) -> &[Note]
        ensures { result.now ≡ self.now.part.notes }
    {
        self.submission.notes()
    }

    /// How many there may be.
    pub fn limit(&self) -> u64
        ensures { result ≡ self.now.part.limit }
    {
        self.submission.limit()
    }

    pub fn at_limit(&self) -> bool
        ensures { result ≡ at_limit self.now.part }
    {
        self.submission.limit() <= self.submission.len()
    }

    /// Whether a flush with a greater id was submitted.
    pub fn has_flush_above(&self, id: u64) -> bool
        ensures { result ≡ flush_above id 0 self.now.part.notes }
    {
        self.submission.has_flush_above(id)
    }

    /// The id of the last put.
    pub fn last_put(&self) -> Option<u64>
        ensures put { result ≡ last_put 0 self.now.part.notes None }
        ensures within { IfSome result (λ id. id < length self.now.part.requests) }
    {
        self.submission.last_put()
    }

    /// Submits a request. Where the session has submitted as many as it may, or the queue is full, nothing is changed.
    pub fn submit<O: Outlet<Request>>(
        &mut self,
        kind: Kind,
        ordered: bool,
        barrier: bool,
        note: Note,
        out: &mut O,
    ) -> Turn
        ensures turn { result ≡ submit_turn (is_queue_full result) self.old.part }
        ensures part { self.new ≡ with_part self.old (after_submit result
            (record { id = length self.old.part.requests; kind = kind; ordered = ordered; barrier = barrier }) note self.old.part) }
        ensures sent { O.sent out.new ≡ O.sent out.old ++ sent_between self.old.part self.new.part }
        ensures full { result ≡ QueueFull → O.was_full out.old out.new }
        ensures rest { O.rest out.new ≡ O.rest out.old }
    {
        if self.at_limit() {
            return Turn::SessionFull;
        }
        let request = Request {
            id: self.submission.len(),
            kind,
            ordered,
            barrier,
        };
        let requests = self.submission.with(&request);
        match out.put(request) {
            Err(_) => Turn::QueueFull,
            Ok(()) => {
                self.submission.push(requests, note);
                Turn::Did
            }
        }
    }

    // ---- what was completed

    /// How many completions were taken.
    pub fn taken(&self) -> u64
        ensures { result ≡ length self.now.part.taken }
    {
        self.completed.count()
    }

    /// Whether the power went.
    pub fn is_cut(&self) -> bool
        ensures { result ≡ list_any is_cut self.now.part.taken }
    {
        self.completed.is_cut()
    }

    /// The first request that failed.
    pub fn first_failed(&self) -> Option<u64>
        ensures { result ≡ first_failed self.now.part.taken }
    {
        self.completed.first_failed()
    }

    /// Whether nothing more is submitted, since the power went or a request failed.
    pub fn is_over(&self) -> bool
        ensures { result ≡ is_over self.now.part }
    {
        self.completed.has_stopped()
    }

    /// Whether a flush with a greater id is answered.
    pub fn has_flushed_after(&self, id: u64) -> bool
        ensures { result ≡ list_any (is_flushed_after id) self.now.part.taken }
    {
        self.completed.has_flushed_after(id)
    }

    /// Takes a completion.
    pub fn take(&mut self, completion: Completion)
        requires { length self.old.part.taken ≤ self.old.part.limit }
        ensures { self.new ≡ with_part self.old (take_completion completion self.old.part) }
    {
        self.end_holds(completion);
        self.completed.take(completion);
    }

    // Ends the holds that a completion ends.
    fn end_holds(&mut self, completion: Completion)
        ensures { self.new ≡ with_conflicts self.old (after_completion completion self.old.part) }
    {
        match completion {
            Completion::Moved(id) => self.end_committed(id),
            Completion::Flushed(id) => {
                self.conflicts.release_before(self.submission.commits(), id);
            }
            Completion::Failed(_) | Completion::Cut => {}
        }
    }

    // A request was moved. Where it is a commit block, and no call waits for its transaction, its holds end.
    fn end_committed(&mut self, id: u64)
        ensures { self.new ≡ with_conflicts self.old (after_moved (slice_get self.old.part.notes id) self.old.part.waits self.old.part.conflicts) }
    {
        if let Some(Note::Commit { tx }) = self.submission.note(id)
            && !any_awaits(&self.waits, tx)
        {
            self.conflicts.release(tx);
        }
    }

    // ---- what is held

    /// How many blocks there are.
    pub fn blocks(&self) -> u32
        ensures { result ≡ self.now.blocks }
    {
        self.blocks
    }

    /// Transaction `tx` holds a block.
    pub fn hold(&mut self, tx: u32, block: u32)
        requires { block < self.old.blocks }
        ensures { self.new ≡ with_conflicts self.old (holds.hold tx (block ∷ []) self.old.part.conflicts) }
    {
        self.conflicts.hold(tx, block);
    }

    /// The running transaction wants a block.
    pub fn want(&mut self, block: u32)
        requires { block < self.old.blocks }
        ensures { self.new ≡ with_conflicts self.old (holds.want (block ∷ []) self.old.part.conflicts) }
    {
        self.conflicts.want(block);
    }

    /// Whether no block that is held is wanted.
    pub fn is_clear(&self) -> bool
        ensures { result ≡ is_none (least self.now.part.conflicts) }
    {
        self.conflicts.is_clear()
    }

    /// The lowest block that is wanted, with the transaction that holds it.
    pub fn least_conflict(&self) -> Option<(u32, u32)>
        ensures { result ≡ option_map (λ b. (b, holder self.now.part.conflicts.held b)) (least self.now.part.conflicts) }
    {
        self.conflicts.least()
    }

    // ---- what is waited for

    /// How many threads there are.
    pub fn threads(&self) -> usize
        ensures { result ≡ length self.now.part.waits }
    {
        self.waits.len()
    }

    /// What the call of a thread waits for.
    pub fn wait(&self, thread: u32) -> Option<Wait>
        ensures { result ≡ slice_get self.now.part.waits thread }
    {
        self.waits.get(thread as usize).copied()
    }

    /// The call of a thread waits for this from now on.
    pub fn set_wait(&mut self, thread: u32, wait: Wait)
        requires thread { thread < length self.old.part.waits }
        requires need { (id : ℕ) → wait.need ≡ Some id → id < length self.old.part.requests }
        ensures { self.new ≡ with_part self.old (record self.old.part { waits = set self.old.part.waits thread wait }) }
    {
        self.waits[thread as usize] = wait;
    }

    /// Request `id` is the commit block of transaction `tx`: the calls need it that the transaction is to make durable.
    pub fn note_commit(&mut self, tx: u64, id: u64)
        requires { id < length self.old.part.requests }
        ensures { self.new ≡ with_part self.old (record self.old.part { waits = map (need_commit tx id) self.old.part.waits }) }
    {
        note_commit(&mut self.waits, tx, id);
    }

    /// Whether a flush is due: a call needs a request that was moved, and no flush behind it was submitted.
    pub fn flush_due(&self) -> bool
        ensures { result ≡ flush_due self.now.part }
    {
        !self.completed.has_stopped() && any_due(&self.waits, &self.submission, &self.completed)
    }
}

// Whether a call needs a request durable that was moved, and no flush behind it was submitted.
fn any_due(waits: &[Wait], submission: &Submission, completed: &Completed) -> bool
    requires { (w : Wait) (id : ℕ) → In w waits.now → w.need ≡ Some id → id < completed.now.known }
    ensures { result ≡ list_any (is_due_in submission.now.notes completed.now.taken) waits.now }
{
    for wait in waits {
        if let Some(id) = wait.need
            && completed.has_moved(id)
            && !submission.has_flush_above(id)
        {
            return true;
        }
    }
    false
}
