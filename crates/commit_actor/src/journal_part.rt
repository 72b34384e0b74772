//! The journal's part of the host.
ghost use Rattle.std.specs.Prelude.{◌≡◌, ◌≢◌, ◌==◌, ◌+◌, ◌≤◌, ◌<◌, ◌^◌, ◌++◌, ◌∷◌, [], true, false, nat_lt, Some, None, ℕ, List, IfOk, OnErr, IfSome, IfNone, drop, length, set};
ghost use Rattle.order_model.specs.declared.turn.Turn.TheVariants as turns;
ghost use Rattle.log_model.specs.Ring.{IsPlace};
ghost use Rattle.page_cache.specs.Pages.{with_pages, unsent_of};
ghost use Rattle.page_cache.specs.declared.cached_page.CachedPage.{CachedPage};
ghost use Rattle.std.specs.List.{list_any};
ghost use Rattle.journal_blocks.specs.Super.{IsSound};
ghost use Rattle.journal_ring.specs.Journal as new_ring;
ghost use Rattle.journal_ring.specs.LogRing.{ring_free};
ghost use Rattle.journal_ring.specs.running.Closing.{writers};
ghost use Rattle.journal_ring.specs.running.Running.{log_needs, touched_one, revoked_one, changed_one, wanted_one};
ghost use Rattle.journal_ring.specs.running.Open.{reserved, noted, with_running};
ghost use Rattle.flush_actor.specs.conflicts.Conflicts.{want};
ghost use Rattle.flush_actor.specs.Steps.{submit_turn, after_submit, flush_turn, take_turn};
ghost use Rattle.flush_actor.specs.Outcomes.{is_queue_full, sent_between, first_since};
ghost use Rattle.commit_actor.specs.Actor.{made, with_part, with_parts, part_of, builds_plan};
ghost use Rattle.commit_actor.specs.Calls.{with_flush, open_of, with_open};
ghost use Rattle.commit_actor.specs.Journal as model;
ghost use Rattle.commit_actor.specs.Steps.{idle_turn, plan_turn, close_turn, commit_turn, planned_done};
ghost use Rattle.commit_actor.specs.code.Fields.{IsAtRest, IsInPhase, IsOnItsWay, phase_of};
ghost use Rattle.commit_actor.specs.code.Sending.{plan_left, rest_of};
ghost use Rattle.commit_actor.specs.declared.phase.Phase.TheVariants as phases;

use crate::log::{Log, did};
use crate::phase::Phase;
use crate::sending::Sending;
use blk_base::{BodySource, NoMemory};
use flush_actor::{FlushPart, Wait};
use journal_ring::Ring;
use journal_ring::running::Running;
use order_model::{Completion, Inlet, Kind, Note, Outlet, Request, Turn};
use page_cache::{PageState, Pages};
use std::alloc::Global;
use std::marker::Model;
use std::mem;

/// What was submitted, the ring of the log, the running transaction, and how far it is closed. Only a step that builds a
/// plan takes memory, and `reserve`.
#[derive(Drop)]
pub struct JournalPart {
    log: Log,
    phase: Phase,
}

impl Model for JournalPart {
    ghost use Rattle.commit_actor.specs.Actor.{CommitActor, actor_of};
    ghost use Rattle.commit_actor.specs.code.Fields.{IsInPhase, phase_of};

    ghost Value = { CommitActor };

    ghost view = { λ j. actor_of j.log (phase_of j.log j.phase) };

    ghost invariant = { λ j. IsInPhase j.log j.phase };
}

impl JournalPart {
    /// The part of a session that may submit `limit` requests, of a volume with so many blocks, whose journal's superblock
    /// stands at block `journal`. The ring is one of an empty log.
    pub fn make(
        alloc: Global,
        ring: Ring,
        limit: u64,
        journal: u32,
        blocks: u32,
        threads: u32,
    ) -> Result<JournalPart, NoMemory>
        requires ring { ring ≡ new_ring.made ring.made_with limit }
        requires sound { IsSound ring.made_with }
        requires empty { ring.made_with.start ≡ 0 }
        requires first { ring.made_with.first ≡ 1 }
        requires places { journal + ring.made_with.maxlen ≤ 2 ^ 32 }
        requires sequences { ring.made_with.sequence + limit + 1 < 2 ^ 32 }
        ensures { IfOk result (λ j. j ≡ made ring journal blocks threads) }
    {
        Ok(JournalPart {
            log: Log::make(alloc, ring, limit, journal, blocks, threads)?,
            phase: Phase::Idle,
        })
    }

    /// What was submitted and completed.
    pub fn flush(&self) -> &FlushPart
        ensures { result.now ≡ record { blocks = self.now.blocks; part = self.now.part.flush } }
    {
        self.log.flush()
    }

    /// The running transaction.
    pub fn running(&self) -> &Running
        ensures { result.now ≡ record { made_with = self.now.made_with; spare = self.now.spare; running = self.now.part.running } }
    {
        self.log.running()
    }

    /// Whether the running transaction is being closed.
    pub fn is_closing(&self) -> bool
        ensures { result ≡ model.is_closing self.now.part.phase }
    {
        matches!(self.phase, Phase::Closing)
    }

    /// The closed transaction whose log blocks are still to be submitted, if there is one.
    pub fn committing(&self) -> Option<u32>
        ensures { result ≡ model.committing self.now.part }
    {
        match &self.phase {
            Phase::Committing(_) => Some(self.log.last_closed()),
            Phase::Idle | Phase::Closing => None,
        }
    }

    /// Whether a step of the commit actor would build a plan.
    pub fn builds_plan(&self, pages: &Pages) -> bool
        ensures { result ≡ builds_plan (writers self.now.made_with) self.now.part pages.now.pages }
    {
        !self.log.is_over()
            && self.is_closing()
            && pages.unsent_of(self.log.changed_births()).is_none()
            && !self.log.is_short()
    }

    /// Whether the commit block of a transaction was submitted.
    pub fn is_submitted(&self, tx: u64) -> bool
        ensures { result ≡ model.is_submitted self.now.part tx }
    {
        let number = self.log.running().number();
        match &self.phase {
            Phase::Committing(_) => tx < number - 1,
            Phase::Idle | Phase::Closing => tx < number,
        }
    }

    /// The latest transaction whose commit block was not submitted and that changed the node with this birth.
    pub fn latest_change(&self, birth: u64) -> Option<u64>
        ensures { result ≡ model.latest_change self.now.part birth }
    {
        let running = self.log.running();
        if has(running.changed_births(), birth) {
            return Some(running.number());
        }
        match &self.phase {
            Phase::Committing(sending) if has(&sending.changed, birth) => {
                Some(running.number() - 1)
            }
            _ => None,
        }
    }

    /// Submits a request.
    pub fn submit<O: Outlet<Request>>(
        &mut self,
        kind: Kind,
        ordered: bool,
        barrier: bool,
        note: Note,
        out: &mut O,
    ) -> Turn
        ensures turn { result ≡ submit_turn (is_queue_full result) self.old.part.flush }
        ensures part { self.new ≡ with_flush self.old (after_submit result
            (record { id = length self.old.part.flush.requests; kind = kind; ordered = ordered; barrier = barrier }) note self.old.part.flush) }
        ensures sent { O.sent out.new ≡ O.sent out.old ++ sent_between self.old.part.flush self.new.part.flush }
        ensures full { result ≡ turns.QueueFull → O.was_full out.old out.new }
        ensures rest { O.rest out.new ≡ O.rest out.old }
    {
        self.log.submit(kind, ordered, barrier, note, out)
    }

    /// A step of the flush actor.
    pub fn flush_step<O: Outlet<Request>, I: Inlet<Completion>>(
        &mut self,
        out: &mut O,
        from: &mut I,
    ) -> Turn
        requires { length self.old.part.flush.taken ≤ self.old.part.flush.limit }
        ensures step { record { part = self.new.part.flush; turn = result } ≡
            flush_turn (is_queue_full result) (first_since (I.taken from.old) (I.taken from.new)) self.old.part.flush }
        ensures same { self.new ≡ with_flush self.old self.new.part.flush }
        ensures sent { O.sent out.new ≡ O.sent out.old ++ sent_between self.old.part.flush self.new.part.flush }
        ensures taken { I.taken from.new ≡ I.taken from.old ++ drop (length self.old.part.flush.taken) self.new.part.flush.taken }
        ensures full { result ≡ turns.QueueFull → O.was_full out.old out.new }
        ensures empty { result ≡ turns.Idle → I.was_empty from.old from.new }
        ensures out { O.rest out.new ≡ O.rest out.old }
        ensures from { I.rest from.new ≡ I.rest from.old }
    {
        self.log.flush_step(out, from)
    }

    /// Takes a completion, though a flush may be due.
    pub fn take_step<I: Inlet<Completion>>(&mut self, from: &mut I) -> Turn
        requires { length self.old.part.flush.taken ≤ self.old.part.flush.limit }
        ensures step { record { part = self.new.part.flush; turn = result } ≡ take_turn (first_since (I.taken from.old) (I.taken from.new)) self.old.part.flush }
        ensures same { self.new ≡ with_flush self.old self.new.part.flush }
        ensures taken { I.taken from.new ≡ I.taken from.old ++ drop (length self.old.part.flush.taken) self.new.part.flush.taken }
        ensures empty { result ≡ turns.Idle → I.was_empty from.old from.new }
        ensures from { I.rest from.new ≡ I.rest from.old }
    {
        self.log.take_step(from)
    }

    /// The call of a thread waits for this from now on.
    pub fn set_wait(&mut self, thread: u32, wait: Wait)
        requires thread { thread < length self.old.part.flush.waits }
        requires need { (id : ℕ) → wait.need ≡ Some id → id < length self.old.part.flush.requests }
        ensures { self.new ≡ with_flush self.old (record self.old.part.flush { waits = set self.old.part.flush.waits thread wait }) }
    {
        self.log.set_wait(thread, wait);
    }

    /// The running transaction wants a block.
    pub fn want_block(&mut self, block: u32)
        requires { block < self.old.blocks }
        ensures { self.new ≡ with_flush self.old (record self.old.part.flush { conflicts = want (block ∷ []) self.old.part.flush.conflicts }) }
    {
        self.log.want_block(block);
    }

    /// Makes room for at least `more` notes of the running transaction.
    pub fn reserve(&mut self, alloc: Global, more: u32) -> Result<(), NoMemory>
        ensures ok { IfOk result (λ u. self.new ≡ with_open self.old (reserved more (open_of self.old))) }
        ensures err { OnErr result (self.new ≡ self.old) }
    {
        self.log.reserve(alloc, more)?;
        Ok(())
    }

    /// A call changed a block: its body is to be logged.
    pub fn touch(&mut self, block: u32)
        requires spare { self.old.spare ≢ 0 }
        requires block { block < self.old.blocks }
        ensures { self.new ≡ with_open self.old (noted (touched_one block self.old.part.running) (open_of self.old)) }
    {
        self.log.touch(block);
    }

    /// A call freed a block of metadata: it is revoked, and no body of it is logged.
    pub fn revoke(&mut self, block: u32)
        requires { self.old.spare ≢ 0 }
        ensures { self.new ≡ with_open self.old (noted (revoked_one block self.old.part.running) (open_of self.old)) }
    {
        self.log.revoke(block);
    }

    /// A call changed the size, the zones or the slots of the node with this birth.
    pub fn change(&mut self, birth: u64)
        requires { self.old.spare ≢ 0 }
        ensures { self.new ≡ with_open self.old (noted (changed_one birth self.old.part.running) (open_of self.old)) }
    {
        self.log.change(birth);
    }

    /// Somebody wants the running transaction closed.
    pub fn want_closed(&mut self)
        ensures { self.new ≡ with_open self.old (with_running (open_of self.old) (wanted_one self.old.part.running)) }
    {
        self.log.want_closed();
    }

    // One step.
    pub fn step<B: BodySource, O: Outlet<Request>>(
        &mut self,
        alloc: Global,
        pages: &mut Pages,
        bodies: &B,
        out: &mut O,
    ) -> Turn
        ensures step { result ≢ turns.NoMemory → record { part = self.new.part; pages = pages.new.pages; turn = result } ≡
            commit_turn (writers self.old.made_with) self.old.journal self.old.made_with.sequence (is_queue_full result) (B.bodies bodies.now) self.old.part pages.old.pages }
        ensures memory { result ≡ turns.NoMemory → (builds_plan (writers self.old.made_with) self.old.part pages.old.pages ≡ true) × (self.new ≡ self.old) × (pages.new ≡ pages.old) }
        ensures same { self.new ≡ with_part self.old self.new.part }
        ensures pages { pages.new ≡ with_pages pages.old pages.new.pages }
        ensures sent { O.sent out.new ≡ O.sent out.old ++ sent_between self.old.part.flush self.new.part.flush }
        ensures full { result ≡ turns.QueueFull → O.was_full out.old out.new }
        ensures rest { O.rest out.new ≡ O.rest out.old }
    {
        if self.log.is_over() {
            return Turn::Idle;
        }
        match mem::replace(&mut self.phase, Phase::Idle) {
            Phase::Idle => {
                if !self.log.is_due() {
                    return Turn::Idle;
                }
                self.phase = Phase::Closing;
                Turn::Did
            }
            Phase::Closing => {
                let (phase, turn) = close(&mut self.log, alloc, pages, bodies, out);
                self.phase = phase;
                turn
            }
            Phase::Committing(sending) => {
                let (phase, turn) = send_planned(&mut self.log, sending, out);
                self.phase = phase;
                turn
            }
        }
    }
}

// Whether a birth is among these.
fn has(births: &[u64], birth: u64) -> bool
    ensures { result ≡ list_any (λ g. g == birth) births.now }
{
    births.contains(&birth)
}

// Sends a page of a changed file, or does a step of the checkpoint, or builds the plan.
fn close<B: BodySource, O: Outlet<Request>>(
    log: &mut Log,
    alloc: Global,
    pages: &mut Pages,
    bodies: &B,
    out: &mut O,
) -> (Phase, Turn)
    requires { IsAtRest log.old }
    ensures step { result.1 ≢ turns.NoMemory → record { part = part_of log.new (phase_of log.new result.0); pages = pages.new.pages; turn = result.1 } ≡
        close_turn (writers log.old.made_with) log.old.journal log.old.made_with.sequence (is_queue_full result.1) (B.bodies bodies.now) (part_of log.old model.Closing) pages.old.pages }
    ensures memory { result.1 ≡ turns.NoMemory → (unsent_of pages.old.pages log.old.running.changed ≡ None) × (nat_lt (ring_free log.old.ring) (log_needs (writers log.old.made_with) log.old.running) ≡ false) ×
        (log.new ≡ log.old) × (phase_of log.new result.0 ≡ model.Closing) × (pages.new ≡ pages.old) }
    ensures same { log.new ≡ with_parts log.old (part_of log.new model.Closing) }
    ensures phase { IsInPhase log.new result.0 }
    ensures pages { pages.new ≡ with_pages pages.old pages.new.pages }
    ensures sent { O.sent out.new ≡ O.sent out.old ++ sent_between log.old.flush log.new.flush }
    ensures full { result.1 ≡ turns.QueueFull → O.was_full out.old out.new }
    ensures rest { O.rest out.new ≡ O.rest out.old }
{
    if let Some(turn) = send_changed(log, pages, out) {
        return (Phase::Closing, turn);
    }
    if log.is_short() {
        return (Phase::Closing, log.checkpoint(out));
    }
    match log.build(alloc, bodies) {
        Ok(sending) => (Phase::Committing(sending), Turn::Did),
        Err(_) => (Phase::Closing, Turn::NoMemory),
    }
}

// Sends a page of a changed file, if one is to be sent.
fn send_changed<O: Outlet<Request>>(log: &mut Log, pages: &mut Pages, out: &mut O) -> Option<Turn>
    ensures none { IfNone result ((unsent_of pages.old.pages log.old.running.changed ≡ None) × (log.new ≡ log.old) × (pages.new ≡ pages.old) × (out.new ≡ out.old)) }
    ensures step { IfSome result (λ t. (bodies : ℕ → List ℕ) → record { part = part_of log.new model.Closing; pages = pages.new.pages; turn = t } ≡
        close_turn (writers log.old.made_with) log.old.journal log.old.made_with.sequence (is_queue_full t) bodies (part_of log.old model.Closing) pages.old.pages) }
    ensures turn { IfSome result (λ t. t ≡ submit_turn (is_queue_full t) log.old.flush) }
    ensures same { log.new ≡ with_parts log.old (part_of log.new model.Closing) }
    ensures phase { IsAtRest log.old → IsAtRest log.new }
    ensures pages { pages.new ≡ with_pages pages.old pages.new.pages }
    ensures sent { O.sent out.new ≡ O.sent out.old ++ sent_between log.old.flush log.new.flush }
    ensures full { result ≡ Some turns.QueueFull → O.was_full out.old out.new }
    ensures rest { O.rest out.new ≡ O.rest out.old }
{
    let page = pages.unsent_of(log.changed_births())?;
    let (birth, index) = (page.birth, page.index);
    let turn = log.send_page(page, out);
    if did(turn) {
        pages.mark(birth, index, PageState::Firm);
    }
    Some(turn)
}

// Submits the next request of a plan.
fn send_planned<O: Outlet<Request>>(log: &mut Log, sending: Sending, out: &mut O) -> (Phase, Turn)
    requires { IsOnItsWay log.old sending }
    ensures memory { result.1 ≢ turns.NoMemory }
    ensures step { (ps : List CachedPage) → record { part = part_of log.new (phase_of log.new result.0); pages = ps; turn = result.1 } ≡
        plan_turn (is_queue_full result.1) (part_of log.old (model.Committing (plan_left log.old.journal log.old.made_with log.old.ring.places sending))) ps
        (plan_left log.old.journal log.old.made_with log.old.ring.places sending) }
    ensures same { log.new ≡ with_parts log.old (part_of log.new model.Closing) }
    ensures phase { IsInPhase log.new result.0 }
    ensures sent { O.sent out.new ≡ O.sent out.old ++ sent_between log.old.flush log.new.flush }
    ensures full { result.1 ≡ turns.QueueFull → O.was_full out.old out.new }
    ensures rest { O.rest out.new ≡ O.rest out.old }
{
    let Some(put) = log.next_put(&sending) else {
        return (Phase::Committing(sending), Turn::Idle);
    };
    let turn = log.send_planned(put, out);
    if !did(turn) {
        return (Phase::Committing(sending), turn);
    }
    (planned_sent(log, sending), turn)
}

// The first request of a plan was submitted.
fn planned_sent(log: &mut Log, sending: Sending) -> Phase
    requires first { 2 ≤ log.old.running.number }
    requires number { log.old.running.number ≤ length log.old.flush.requests + 1 }
    requires waiting { length log.old.ring.homes + length sending.homes.pairs.items + 1 ≤ length log.old.flush.requests + length sending.pieces }
    requires left { 1 ≤ length sending.pieces }
    requires place { IsPlace log.old.ring.places sending.place }
    ensures part { part_of log.new (phase_of log.new result) ≡ planned_done
        (part_of log.old (model.Committing (plan_left log.old.journal log.old.made_with log.old.ring.places sending)))
        (plan_left log.old.journal log.old.made_with log.old.ring.places sending)
        (rest_of log.old.journal log.old.made_with log.old.ring.places sending) }
    ensures same { log.new ≡ with_parts log.old (part_of log.new model.Closing) }
    ensures phase { IsInPhase log.new result }
{
    let mut sending = sending;
    log.advance(&mut sending);
    if sending.pieces.len() > 0 {
        return Phase::Committing(sending);
    }
    log.commit(sending.homes);
    Phase::Idle
}
