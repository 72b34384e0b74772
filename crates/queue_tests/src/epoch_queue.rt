//! One queue of requests: what leaves it, and with which flag.
ghost use Rattle.std.specs.Prelude.{◌≡◌, ◌+◌, ◌<◌, ◌≤◌, true};

use crate::bench::Ask::{self, Barrier, Flush, Ordered, Orderless};
use crate::bench::request;
use crate::steps::Answer::{self, Count, Is, Left, Number, Refused};
use crate::steps::{Player, expect, plays};
use order_model::{Kind, Request, Tally};
use schedulers::reassign::{EpochQueue, Held};

// What a test does with a queue.
#[derive(Clone, Copy)]
enum Step {
    // A request comes under this id.
    Accept(u64, Ask),
    Leave(u32),
    // The id of the request at this place.
    Peek(u32),
    Eligible,
    CanAccept,
}

use Step::{Accept, CanAccept, Eligible, Leave, Peek};

// The steps of a new queue of so many places.
struct Row {
    name: &'static str,
    places: u32,
    steps: &'static [(Step, Answer)],
}

// A queue that has numbered no more requests than it was asked to accept.
#[derive(Drop)]
struct Bench {
    queue: EpochQueue,
    count: u64,
    ghost few: { queue.next ≤ count },
}

impl Player<Step> for Bench {
    fn done(&mut self, step: Step) -> Answer {
        match step {
            Accept(id, ask) => Refused(self.accept(id, ask)),
            Leave(pick) => Left(leave(&mut self.queue, pick)),
            Peek(pick) => Number(peeked(&self.queue, pick)),
            Eligible => Count(self.queue.eligible()),
            CanAccept => Is(self.queue.can_accept()),
        }
    }
}

impl Bench {
    fn accept(&mut self, id: u64, ask: Ask) -> Option<Held> {
        if self.count >= 1000 {
            return Some(Held::Full);
        }
        let held = accept(&mut self.queue, request(id, ask));
        self.count += 1;
        held
    }
}

// Why the request was refused.
fn accept(q: &mut EpochQueue, r: Request) -> Option<Held>
    requires barrier { r.barrier ≡ true → r.ordered ≡ true }
    requires flush { r.kind ≡ Kind.Flush → (r.ordered ≡ true) × (r.barrier ≡ true) }
    requires next { q.old.next < 1000 }
    ensures { q.new.next ≤ q.old.next + 1 }
{
    Some(q.accept(r).err()?.1)
}

#[tactic(auto, using(schedulers::proofs::ReassignLemmas::Leaving::departed_next))]
fn leave(q: &mut EpochQueue, pick: u32) -> Option<(u64, bool, bool)>
    ensures { q.new.next ≡ q.old.next }
{
    let (r, flagged) = q.leave(pick)?;
    Some((r.id, r.barrier, flagged))
}

fn peeked(q: &EpochQueue, pick: u32) -> Option<u64> {
    Some(q.peek(pick)?.id)
}

static ROWS: [Row; 5] = [
    Row {
        name: "only ordered one carries the flag",
        places: 8,
        steps: &[
            (Accept(0, Orderless(0)), Refused(None)),
            (Accept(1, Orderless(1)), Refused(None)),
            (Accept(2, Barrier(2)), Refused(None)),
            (CanAccept, Is(false)),
            (Accept(3, Orderless(3)), Refused(Some(Held::Blocked))),
            (Peek(2), Number(Some(2))),
            (Leave(2), Left(Some((2, false, true)))),
            (CanAccept, Is(true)),
            (Accept(3, Orderless(3)), Refused(None)),
            (Eligible, Count(3)),
            (Peek(0), Number(Some(0))),
            (Peek(1), Number(Some(1))),
            (Peek(2), Number(Some(3))),
            (Peek(3), Number(None)),
            (Leave(3), Left(None)),
        ],
    },
    // A later request leaves first, and an earlier one is then the last order-preserving one.
    Row {
        name: "flag moves",
        places: 8,
        steps: &[
            (Accept(0, Ordered(0)), Refused(None)),
            (Accept(1, Barrier(1)), Refused(None)),
            (Leave(1), Left(Some((1, false, false)))),
            (CanAccept, Is(false)),
            (Leave(0), Left(Some((0, false, true)))),
            (CanAccept, Is(true)),
        ],
    },
    // 0 and 2 are puts of block 7. The last of them is the barrier, but 1 leaves last.
    Row {
        name: "keeps puts of one block in order",
        places: 8,
        steps: &[
            (Accept(0, Orderless(7)), Refused(None)),
            (Accept(1, Ordered(8)), Refused(None)),
            (Accept(2, Barrier(7)), Refused(None)),
            (Eligible, Count(2)),
            (Peek(1), Number(Some(1))),
            (Leave(0), Left(Some((0, false, false)))),
            (Eligible, Count(2)),
            (Leave(1), Left(Some((2, false, false)))),
            (Leave(0), Left(Some((1, false, true)))),
            (Eligible, Count(0)),
        ],
    },
    Row {
        name: "flush leaves alone",
        places: 8,
        steps: &[
            (Accept(0, Ordered(0)), Refused(None)),
            (Accept(1, Flush), Refused(None)),
            (Accept(2, Orderless(2)), Refused(Some(Held::Blocked))),
            (Eligible, Count(1)),
            (Leave(1), Left(None)),
            (Leave(0), Left(Some((0, false, false)))),
            (Accept(2, Flush), Refused(Some(Held::Blocked))),
            (Leave(0), Left(Some((1, true, true)))),
            (Accept(2, Orderless(2)), Refused(None)),
        ],
    },
    Row {
        name: "holds capacity",
        places: 2,
        steps: &[
            (Accept(0, Orderless(0)), Refused(None)),
            (Accept(1, Orderless(1)), Refused(None)),
            (CanAccept, Is(false)),
            (Accept(2, Barrier(9)), Refused(Some(Held::Full))),
            (Leave(0), Left(Some((0, false, false)))),
            (Accept(2, Barrier(9)), Refused(None)),
            (Accept(3, Orderless(3)), Refused(Some(Held::Blocked))),
        ],
    },
];

#[test]
fn lets_go_what_its_rows_tell(rt: HostRuntime) {
    for row in &ROWS {
        let queue = EpochQueue::make(rt.alloc(), row.places).expect(&rt, "no queue");
        let mut bench = Bench { queue, count: 0 };
        plays(&rt, &mut bench, row.name, row.steps);
        drop(bench);
    }
}

// The record has nothing of a request that came back.
#[test]
fn records_what_it_accepts(rt: HostRuntime) {
    let mut q = EpochQueue::make(rt.alloc(), 8).expect(&rt, "no queue");
    let mut history = Tally::make(2);
    let accepted = q
        .accept_recorded(&mut history, request(7, Barrier(3)))
        .is_ok();
    let blocked = q
        .accept_recorded(&mut history, request(8, Orderless(4)))
        .is_err();
    let left = leave(&mut q, 0);
    drop(q);
    let came = (accepted, blocked, history.len(), left);
    drop(history);
    let wanted = (true, true, 1, Some((7, false, true)));
    expect(&rt, "records what it accepts", 0, &came, &wanted);
}
