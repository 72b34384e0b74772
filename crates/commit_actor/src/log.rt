//! What the commit actor writes to, without its phase.
ghost use Rattle.std.specs.Prelude.{◌≡◌, ◌≢◌, ℕ, ◌+◌, ◌-◌, ◌≤◌, ◌<◌, ◌^◌, ◌++◌, ◌∷◌, [], false, Some, None, nat_lt, is_none, ◌&&◌, IfOk, OnErr, drop, length, map, set};
ghost use Rattle.std.specs.Option.{option_map};
ghost use Rattle.blk_base.specs.Members.{In};
ghost use Rattle.order_model.specs.declared.turn.Turn.TheVariants.{Idle, QueueFull};
ghost use Rattle.number_sets.specs.Sets.{IsRising};
ghost use Rattle.log_model.specs.Marks.{Logged};
ghost use Rattle.log_model.specs.Ring.{IsPlace};
ghost use Rattle.flush_actor.specs.conflicts.Conflicts.{hold, want, least};
ghost use Rattle.journal_blocks.specs.Super.{IsSound};
ghost use Rattle.journal_ring.specs.Journal as new_ring;
ghost use Rattle.journal_ring.specs.LogRing.{ring_free};
ghost use Rattle.journal_ring.specs.running.Closing.{writers};
ghost use Rattle.journal_ring.specs.running.Running.{log_needs, touched_one, revoked_one, changed_one, wanted_one};
ghost use Rattle.journal_ring.specs.running.Open.{reserved, noted, with_running};
ghost use Rattle.flush_actor.specs.Actor.{with_conflicts};
ghost use Rattle.flush_actor.specs.Outcomes.{is_did, is_queue_full, sent_between, first_since};
ghost use Rattle.flush_actor.specs.Part.{is_over};
ghost use Rattle.flush_actor.specs.Steps.{submit_turn, after_submit, flush_turn, take_turn};
ghost use Rattle.commit_actor.specs.Actor.{made_log, part_of, with_parts, with_flush, with_open, open_of, if_did};
ghost use Rattle.commit_actor.specs.Journal.{Closing, Committing};
ghost use Rattle.commit_actor.specs.Steps.{page_sent, planned_out, checkpoint, plan_built, committed};
ghost use Rattle.commit_actor.specs.code.Sending.{plan_left, rest_of, planned_of, first_planned, sent_one};

use crate::sending::{PlannedPut, Sending};
use blk_base::{BodySource, NoMemory};
use flush_actor::{FlushPart, Wait, flush_step, take_step};
use journal_blocks::write_super;
use journal_ring::running::Running;
use journal_ring::{Bodies, LoggedBody, Ring};
use order_model::{Completion, Inlet, Kind, Note, Outlet, Request, Turn};
use page_cache::CachedPage;
use std::alloc::Global;
use std::marker::Model;

/// What was submitted, the ring of the log, and the running transaction.
#[derive(Drop)]
pub struct Log {
    journal: u32,
    flush: FlushPart,
    ring: Ring,
    running: Running,
}

impl Model for Log {
    ghost use Rattle.commit_actor.specs.Actor.{LogState};
    ghost use Rattle.commit_actor.specs.code.Fields.{IsLog};

    ghost Value = { LogState };

    ghost view = { λ l. record {
      made_with = l.ring.made_with;
      journal = l.journal;
      blocks = l.flush.blocks;
      spare = l.running.spare;
      flush = l.flush.part;
      ring = l.ring.ring;
      running = l.running.running;
    } };

    ghost invariant = { λ l. IsLog l.flush l.ring l.running l.journal };
}

impl Log {
    pub fn make(
        alloc: Global,
        ring: Ring,
        limit: u64,
        journal: u32,
        blocks: u32,
        threads: u32,
    ) -> Result<Log, NoMemory>
        requires ring { ring ≡ new_ring.made ring.made_with limit }
        requires sound { IsSound ring.made_with }
        requires empty { ring.made_with.start ≡ 0 }
        requires first { ring.made_with.first ≡ 1 }
        requires places { journal + ring.made_with.maxlen ≤ 2 ^ 32 }
        requires sequences { ring.made_with.sequence + limit + 1 < 2 ^ 32 }
        ensures { IfOk result (λ l. l ≡ made_log ring journal blocks threads) }
    {
        Ok(Log {
            journal,
            flush: FlushPart::make(alloc, limit, blocks, threads)?,
            running: Running::make(alloc, &ring.made_with())?,
            ring,
        })
    }

    pub fn flush(&self) -> &FlushPart
        ensures { result.now ≡ record { blocks = self.now.blocks; part = self.now.flush } }
    {
        &self.flush
    }

    pub fn running(&self) -> &Running
        ensures { result.now ≡ record { made_with = self.now.made_with; spare = self.now.spare; running = self.now.running } }
    {
        &self.running
    }

    // Submits a request.
    pub fn submit<O: Outlet<Request>>(
        &mut self,
        kind: Kind,
        ordered: bool,
        barrier: bool,
        note: Note,
        out: &mut O,
    ) -> Turn
        ensures turn { result ≡ submit_turn (is_queue_full result) self.old.flush }
        ensures log { self.new ≡ with_flush self.old (after_submit result
            (record { id = length self.old.flush.requests; kind = kind; ordered = ordered; barrier = barrier }) note self.old.flush) }
        ensures sent { O.sent out.new ≡ O.sent out.old ++ sent_between self.old.flush self.new.flush }
        ensures full { result ≡ QueueFull → O.was_full out.old out.new }
        ensures rest { O.rest out.new ≡ O.rest out.old }
    {
        self.flush.submit(kind, ordered, barrier, note, out)
    }

    // A step of the flush actor.
    pub fn flush_step<O: Outlet<Request>, I: Inlet<Completion>>(
        &mut self,
        out: &mut O,
        from: &mut I,
    ) -> Turn
        requires { length self.old.flush.taken ≤ self.old.flush.limit }
        ensures step { record { part = self.new.flush; turn = result } ≡
            flush_turn (is_queue_full result) (first_since (I.taken from.old) (I.taken from.new)) self.old.flush }
        ensures same { self.new ≡ with_flush self.old self.new.flush }
        ensures sent { O.sent out.new ≡ O.sent out.old ++ sent_between self.old.flush self.new.flush }
        ensures taken { I.taken from.new ≡ I.taken from.old ++ drop (length self.old.flush.taken) self.new.flush.taken }
        ensures full { result ≡ QueueFull → O.was_full out.old out.new }
        ensures empty { result ≡ Idle → I.was_empty from.old from.new }
        ensures out { O.rest out.new ≡ O.rest out.old }
        ensures from { I.rest from.new ≡ I.rest from.old }
    {
        flush_step(&mut self.flush, out, from)
    }

    // A completion is taken, though a flush may be due.
    pub fn take_step<I: Inlet<Completion>>(&mut self, from: &mut I) -> Turn
        requires { length self.old.flush.taken ≤ self.old.flush.limit }
        ensures step { record { part = self.new.flush; turn = result } ≡ take_turn (first_since (I.taken from.old) (I.taken from.new)) self.old.flush }
        ensures same { self.new ≡ with_flush self.old self.new.flush }
        ensures taken { I.taken from.new ≡ I.taken from.old ++ drop (length self.old.flush.taken) self.new.flush.taken }
        ensures empty { result ≡ Idle → I.was_empty from.old from.new }
        ensures from { I.rest from.new ≡ I.rest from.old }
    {
        take_step(&mut self.flush, from)
    }

    // The call of a thread waits for this.
    pub fn set_wait(&mut self, thread: u32, wait: Wait)
        requires thread { thread < length self.old.flush.waits }
        requires need { (id : ℕ) → wait.need ≡ Some id → id < length self.old.flush.requests }
        ensures { self.new ≡ with_flush self.old (record self.old.flush { waits = set self.old.flush.waits thread wait }) }
    {
        self.flush.set_wait(thread, wait);
    }

    // The running transaction wants a block.
    pub fn want_block(&mut self, block: u32)
        requires { block < self.old.blocks }
        ensures { self.new ≡ with_flush self.old (record self.old.flush { conflicts = want (block ∷ []) self.old.flush.conflicts }) }
    {
        self.flush.want(block);
    }

    // Makes room for notes of the running transaction.
    pub fn reserve(&mut self, alloc: Global, more: u32) -> Result<(), NoMemory>
        ensures ok { IfOk result (λ u. self.new ≡ with_open self.old (reserved more (open_of self.old))) }
        ensures err { OnErr result (self.new ≡ self.old) }
    {
        self.running.reserve(alloc, more)?;
        Ok(())
    }

    // A call changed a block.
    pub fn touch(&mut self, block: u32)
        requires spare { self.old.spare ≢ 0 }
        requires block { block < self.old.blocks }
        ensures { self.new ≡ with_open self.old (noted (touched_one block self.old.running) (open_of self.old)) }
    {
        self.running.touch(block);
    }

    // A call freed a block of metadata.
    pub fn revoke(&mut self, block: u32)
        requires { self.old.spare ≢ 0 }
        ensures { self.new ≡ with_open self.old (noted (revoked_one block self.old.running) (open_of self.old)) }
    {
        self.running.revoke(block);
    }

    // A call changed a node.
    pub fn change(&mut self, birth: u64)
        requires { self.old.spare ≢ 0 }
        ensures { self.new ≡ with_open self.old (noted (changed_one birth self.old.running) (open_of self.old)) }
    {
        self.running.change(birth);
    }

    // Somebody wants the running transaction closed.
    pub fn want_closed(&mut self)
        ensures { self.new ≡ with_open self.old (with_running (open_of self.old) (wanted_one self.old.running)) }
    {
        self.running.want();
    }

    // Sends a page of a changed file.
    pub fn send_page<O: Outlet<Request>>(&mut self, page: CachedPage, out: &mut O) -> Turn
        ensures turn { result ≡ submit_turn (is_queue_full result) self.old.flush }
        ensures log { self.new ≡ if_did result (with_parts self.old (page_sent (part_of self.old Closing) page)) self.old }
        ensures sent { O.sent out.new ≡ O.sent out.old ++ sent_between self.old.flush self.new.flush }
        ensures full { result ≡ QueueFull → O.was_full out.old out.new }
        ensures rest { O.rest out.new ≡ O.rest out.old }
    {
        let note = Note::Page {
            birth: page.birth,
            index: page.index,
            call: page.version,
        };
        let kind = Kind::Put {
            block: page.block,
            body: page.body,
        };
        self.flush.submit(kind, true, false, note, out)
    }

    // Sends a request of a plan.
    pub fn send_planned<O: Outlet<Request>>(&mut self, put: PlannedPut, out: &mut O) -> Turn
        ensures turn { result ≡ submit_turn (is_queue_full result) self.old.flush }
        ensures log { self.new ≡ if_did result (with_parts self.old (planned_out (part_of self.old Closing) (planned_of put))) self.old }
        ensures sent { O.sent out.new ≡ O.sent out.old ++ sent_between self.old.flush self.new.flush }
        ensures full { result ≡ QueueFull → O.was_full out.old out.new }
        ensures rest { O.rest out.new ≡ O.rest out.old }
    {
        let PlannedPut {
            note,
            block,
            body,
            barrier,
        } = put;
        self.flush
            .submit(Kind::Put { block, body }, true, barrier, note, out)
    }

    // The births of the nodes that the running transaction changed.
    pub fn changed_births(&self) -> &[u64]
        ensures births { result.now ≡ self.now.running.changed }
        ensures rising { IsRising result.now }
    {
        self.running.changed_births()
    }

    // Whether the log has too little room for the running transaction.
    pub fn is_short(&self) -> bool
        ensures { result ≡ nat_lt (ring_free self.now.ring) (log_needs (writers self.now.made_with) self.now.running) }
    {
        u64::from(self.ring.free()) < self.running.needs()
    }

    // One step of a checkpoint.
    pub fn checkpoint<O: Outlet<Request>>(&mut self, out: &mut O) -> Turn
        requires { self.old.running.number ≤ length self.old.flush.requests + 1 }
        ensures turn { result ≡ submit_turn (is_queue_full result) self.old.flush }
        ensures log { self.new ≡ if_did result (with_parts self.old
            (checkpoint (writers self.old.made_with) self.old.journal self.old.made_with.sequence (part_of self.old Closing) self.old.ring.homes)) self.old }
        ensures sent { O.sent out.new ≡ O.sent out.old ++ sent_between self.old.flush self.new.flush }
        ensures full { result ≡ QueueFull → O.was_full out.old out.new }
        ensures rest { O.rest out.new ≡ O.rest out.old }
    {
        match self.ring.next_home() {
            Some((block, body)) => {
                let last = self.ring.homes_left() == 1;
                let kind = Kind::Put { block, body };
                let turn = self
                    .flush
                    .submit(kind, true, last, Note::Home { block }, out);
                if !did(turn) {
                    return turn;
                }
                self.ring.home_sent();
                turn
            }
            None => {
                let sequence = self.ring.made_with().sequence + (self.running.number() as u32 - 1);
                let kind = Kind::Put {
                    block: self.journal,
                    body: write_super(&self.ring.tail(sequence)),
                };
                let turn = self.flush.submit(kind, true, true, Note::Super, out);
                if !did(turn) {
                    return turn;
                }
                self.ring.all_home(sequence);
                turn
            }
        }
    }

    // The transaction before the running one.
    pub fn last_closed(&self) -> u32
        requires first { 2 ≤ self.now.running.number }
        requires number { self.now.running.number ≤ length self.now.flush.requests + 2 }
        ensures { result ≡ self.now.running.number - 1 }
    {
        (self.running.number() - 1) as u32
    }

    // Whether nothing more is submitted.
    pub fn is_over(&self) -> bool
        ensures { result ≡ is_over self.now.flush }
    {
        self.flush.is_over()
    }

    // Whether the running transaction is to be closed now.
    pub fn is_due(&self) -> bool
        ensures { result ≡ (self.now.running.wanted && is_none (least self.now.flush.conflicts)) }
    {
        self.running.is_wanted() && self.flush.is_clear()
    }

    // Builds the plan of the running transaction, and the next one runs.
    pub fn build<B: BodySource>(&mut self, alloc: Global, bodies: &B) -> Result<Sending, NoMemory>
        requires number { self.old.running.number ≤ length self.old.flush.requests + 1 }
        requires room { nat_lt (ring_free self.old.ring) (log_needs (writers self.old.made_with) self.old.running) ≡ false }
        ensures ok { IfOk result (λ s. part_of self.new (Committing (plan_left self.old.journal self.old.made_with self.old.ring.places s)) ≡
            plan_built (writers self.old.made_with) self.old.journal self.old.made_with.sequence (B.bodies bodies.now) (part_of self.old Closing)) }
        ensures same { IfOk result (λ s. self.new ≡ with_parts self.old (part_of self.new Closing)) }
        ensures pieces { IfOk result (λ s. length s.homes.pairs.items + 1 ≤ length s.pieces) }
        ensures place { IfOk result (λ s. IsPlace self.old.ring.places s.place) }
        ensures err { OnErr result (self.new ≡ self.old) }
    {
        let needs = self.running.needs() as u32;
        let tx = self.running.number() as u32;
        let plan = self.running.close(alloc, bodies)?;
        hold_all(&mut self.flush, tx, &plan.homes.pairs);
        let super_left = !self.ring.has_started();
        let place = self.ring.place(needs);
        self.ring.start();
        Ok(Sending {
            sequence: plan.sequence,
            place,
            super_left,
            pieces: plan.pieces,
            homes: plan.homes,
            changed: plan.changed,
        })
    }

    // The next put of a plan.
    pub fn next_put(&self, sending: &Sending) -> Option<PlannedPut>
        requires { IsPlace self.now.ring.places sending.now.place }
        ensures { option_map planned_of result ≡ first_planned (rest_of self.now.journal self.now.made_with self.now.ring.places sending.now) }
    {
        sending.first(self.journal, &self.ring.made_with())
    }

    // The next put of a plan was submitted.
    pub fn advance(&self, sending: &mut Sending)
        requires { IsPlace self.now.ring.places sending.old.place }
        ensures { sending.new ≡ sent_one self.now.ring.places sending.old }
    {
        sending.sent(&self.ring);
    }

    // The last request is the commit block of the transaction before the running one.
    pub fn commit(&mut self, homes: Bodies)
        requires closed { 2 ≤ self.old.running.number }
        requires number { self.old.running.number ≤ length self.old.flush.requests + 1 }
        requires waiting { length self.old.ring.homes + length homes.pairs.items ≤ length self.old.flush.requests }
        ensures { self.new ≡ with_parts self.old (committed (part_of self.old Closing) (self.old.running.number - 1) (length self.old.flush.requests - 1)
            (record { rest = []; bodies = homes.pairs.items; revokes = homes.revoked.items; changed = [] })) }
    {
        let tx = self.running.number() - 1;
        let id = self.flush.submitted() - 1;
        self.flush.note_commit(tx, id);
        self.ring.commit_bodies(tx as u32, homes);
    }
}

pub fn did(turn: Turn) -> bool
    ensures { result ≡ is_did turn }
{
    matches!(turn, Turn::Did)
}

// A transaction holds the blocks of its bodies.
fn hold_all(flush: &mut FlushPart, tx: u32, bodies: &[LoggedBody])
    requires { (l : Logged) → In l bodies.now → l.block < flush.old.blocks }
    ensures { flush.new ≡ with_conflicts flush.old (hold tx (map (λ (l : Logged). l.block) bodies.now) flush.old.part.conflicts) }
{
    for body in bodies {
        flush.hold(tx, body.block());
    }
}
