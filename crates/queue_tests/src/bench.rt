//! A scheduler, with requests that are numbered from 0 on and the commands that come out.
ghost use Rattle.std.specs.Prelude.{◌≡◌, [], true};
ghost use Rattle.queue_tests.specs.Numbered.{IsNumbered, IsAsked};

use crate::steps::Answer::{self, Count, Is, Refused, Sent};
use crate::steps::{Player, expect, plays};
use blk_base::Block;
use order_model::{Command, Kind, Priority, Request};
use schedulers::reassign::{Held, Scheduler, lawful_eligible};
use std::process::Abort;

pub const LIMIT: u64 = 200;

/// Requests that a host may submit: puts to a block, and a flush.
#[derive(Clone, Copy)]
pub enum Ask {
    Orderless(u32),
    Ordered(u32),
    Barrier(u32),
    Flush,
}

fn put(id: u64, block: u32, ordered: bool, barrier: bool) -> Request
    requires { barrier ≡ true → ordered ≡ true }
    ensures { IsAsked result id }
{
    let body = Block::fill(0);
    let kind = Kind::Put { block, body };
    Request {
        id,
        kind,
        ordered,
        barrier,
    }
}

/// The request that is asked for, under this id.
pub fn request(id: u64, ask: Ask) -> Request
    ensures { IsAsked result id }
{
    match ask {
        Ask::Orderless(block) => put(id, block, false, false),
        Ask::Ordered(block) => put(id, block, true, false),
        Ask::Barrier(block) => put(id, block, true, true),
        Ask::Flush => Request {
            id,
            kind: Kind::Flush,
            ordered: true,
            barrier: true,
        },
    }
}

/// What a test does with a scheduler.
#[derive(Clone, Copy)]
pub enum Step {
    /// A request is submitted.
    Submit(Ask),
    /// So many orderless puts are submitted, to blocks 0, 1 and so on. The first that is refused ends it.
    Fill(u32),
    /// The command at this place of the list is sent.
    Send(u32),
    /// The same, into a command that is kept from step to step; and whether one was sent.
    SendInto(u32),
    /// The command that is kept.
    Kept,
    /// How many commands may be sent.
    Eligible,
    CanAccept,
}

/// The steps of a new scheduler; and how many requests it then accepted and how many commands it sent.
pub struct Row {
    pub name: &'static str,
    pub steps: &'static [(Step, Answer)],
    pub accepted: usize,
    pub sent: usize,
}

/// A scheduler whose requests are numbered from 0 on.
#[derive(Drop)]
pub struct Bench<S: Scheduler> {
    sched: S,
    kept: Command,
    count: u64,
    ghost numbered: { IsNumbered (S.steps.seen (S.state sched)) count },
}

impl<S: Scheduler> Bench<S> {
    pub fn over(sched: S) -> Bench<S>
        requires limit { (S.steps.seen (S.state sched)).limit ≡ 200 }
        requires new { (S.steps.seen (S.state sched)).accepted ≡ [] }
    {
        Bench {
            sched,
            kept: Command::blank(),
            count: 0,
        }
    }

    /// Why the request was refused.
    fn submit(&mut self, ask: Ask) -> Option<Held> {
        if self.count >= LIMIT {
            return Some(Held::Full);
        }
        let _ = self.sched.can_accept();
        if let Err((_, held)) = self.sched.accept(request(self.count, ask)) {
            return Some(held);
        }
        self.count += 1;
        None
    }

    // Why the first put of these blocks that was refused was.
    fn fill(&mut self, blocks: u32) -> Option<Held> {
        for block in 0..blocks {
            let held = self.submit(Ask::Orderless(block));
            if held.is_some() {
                return held;
            }
        }
        None
    }

    fn send(&mut self, pick: u32) -> Answer {
        let _ = self.sched.can_accept();
        match self.sched.dispatch(pick) {
            Some(command) => sent_of(&command),
            None => Sent(None),
        }
    }

    fn send_into(&mut self, pick: u32) -> bool {
        let _ = self.sched.can_accept();
        self.sched.dispatch_into(pick, &mut self.kept)
    }
}

impl<S: Scheduler> Player<Step> for Bench<S> {
    fn done(&mut self, step: Step) -> Answer {
        match step {
            Step::Submit(ask) => Refused(self.submit(ask)),
            Step::Fill(blocks) => Refused(self.fill(blocks)),
            Step::Send(pick) => self.send(pick),
            Step::SendInto(pick) => Is(self.send_into(pick)),
            Step::Kept => sent_of(&self.kept),
            Step::Eligible => Count(lawful_eligible(&self.sched)),
            Step::CanAccept => Is(self.sched.can_accept()),
        }
    }
}

/// Does the row's steps. Then so much was accepted and sent, as the scheduler's trace and then its record tell.
pub fn plays_row<S: Scheduler>(rt: &impl Abort, mut bench: Bench<S>, row: &Row) {
    plays(rt, &mut bench, row.name, row.steps);
    let Bench { sched, kept, count } = bench;
    drop(kept);
    let traced = sched.trace().sent_out.len();
    let record = sched.into_trace();
    let passed = (record.accepted.len(), record.sent_out.len());
    drop(record);
    let wanted = (row.accepted as u64, row.sent, (row.accepted, row.sent));
    expect(
        rt,
        row.name,
        row.steps.len(),
        &(count, traced, passed),
        &wanted,
    );
}

fn id_at(c: &Command, at: usize) -> u64 {
    match c.parts.as_slice().get(at) {
        Some(part) => part.id,
        None => c.flush.unwrap_or(u64::MAX),
    }
}

fn sent_of(c: &Command) -> Answer {
    let parts = c.parts.len();
    let first = id_at(c, 0);
    let last = id_at(c, (parts as usize).saturating_sub(1));
    let is_flush = c.flush.is_some();
    let form = match (c.barrier, c.priority) {
        (false, Priority::Simple) if !is_flush => "plain",
        (true, Priority::Ordered) if is_flush == (parts == 0) => "fence",
        _ => "odd",
    };
    Sent(Some((first, last, parts, form)))
}
