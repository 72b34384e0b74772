//! Tests of the flush actor.
ghost use Rattle.std.specs.Prelude.{◌≡◌};

use crate::same::expect;
use blk_base::Block;
use flush_actor::{CallKind, FlushPart, Wait, flush_step, take_step};
use order_model::{Completion, Inlet, Kind, ListQueue, Note, Outlet, Request, Turn};
use std::alloc::Global;
use std::process::Abort;

// A part of four requests and one thread, with its two queues.
#[derive(Drop)]
struct Setting {
    part: FlushPart,
    out: ListQueue<Request>,
    from: ListQueue<Completion>,
}

// What is done, with the turn that is wanted.
#[derive(Clone, Copy)]
enum Act {
    // The commit block of transaction 1 is sent.
    Commit(Turn),
    // The journal superblock is sent.
    Super(Turn),
    // The device tells this, and the flush actor takes a step.
    Tell(Completion, Turn),
    // It tells nothing, and the flush actor takes a step.
    Step(Turn),
    // What the device told is taken, whatever is due.
    Take(Turn),
    // A request is taken from the queue, where one is there.
    Send(bool),
}

// What is asked, with the answer that is wanted.
#[derive(Clone, Copy)]
enum Ask {
    // What the call needs durable.
    Need(u64),
    // Whether a flush is due.
    Due(bool),
    // Whether a flush is due, was submitted and is done.
    Flush(bool, bool, bool),
    LastPut(u64),
    LeastConflict(u32, u32),
    FirstFailed(u64),
    // Whether it was cut off, is over and is at its limit.
    Ends(bool, bool, bool),
    // Whether it was cut off.
    Cut(bool),
}

// A call of this kind waits for the commit block of transaction 1, while this is done and then asked.
struct Row {
    name: &'static str,
    kind: CallKind,
    steps: &'static [(Act, &'static [Ask])],
}

static ROWS: [Row; 3] = [
    Row {
        name: "one flush serves a sync call",
        kind: CallKind::FileSync,
        steps: &[
            (Act::Commit(Turn::Did), &[Ask::Need(0), Ask::Due(false)]),
            (
                Act::Tell(Completion::Moved(0), Turn::Did),
                &[Ask::Flush(true, false, false)],
            ),
            (Act::Step(Turn::Did), &[Ask::Flush(false, true, false)]),
            (
                Act::Tell(Completion::Flushed(1), Turn::Did),
                &[Ask::Flush(false, true, true)],
            ),
            (
                Act::Step(Turn::Idle),
                &[
                    Ask::Flush(false, true, true),
                    Ask::LastPut(0),
                    Ask::LeastConflict(5, 2),
                ],
            ),
        ],
    },
    // Behind a power cut nothing leaves the queue: the cut is heard of though a flush is due and finds no room.
    Row {
        name: "a power cut is heard while a flush finds no room",
        kind: CallKind::FileSync,
        steps: &[
            (Act::Commit(Turn::Did), &[]),
            (Act::Super(Turn::Did), &[]),
            (Act::Tell(Completion::Moved(0), Turn::Did), &[]),
            (Act::Tell(Completion::Cut, Turn::QueueFull), &[]),
            (Act::Step(Turn::QueueFull), &[]),
            (Act::Take(Turn::Did), &[Ask::Cut(true), Ask::Due(false)]),
            (Act::Take(Turn::Idle), &[]),
            (Act::Step(Turn::Idle), &[]),
        ],
    },
    Row {
        name: "nothing is due once it is over",
        kind: CallKind::WholeSync,
        steps: &[
            (Act::Commit(Turn::Did), &[]),
            (Act::Tell(Completion::Moved(0), Turn::Did), &[]),
            (Act::Tell(Completion::Failed(0), Turn::Did), &[]),
            (Act::Step(Turn::Did), &[]),
            (Act::Step(Turn::Idle), &[]),
            (
                Act::Tell(Completion::Cut, Turn::Did),
                &[Ask::FirstFailed(0), Ask::Ends(true, true, false)],
            ),
            (Act::Send(true), &[]),
        ],
    },
];

// A part of which a call of this kind waits for the commit block of transaction 1.
fn waiting(rt: &impl Abort, alloc: Global, kind: CallKind) -> FlushPart {
    let mut part = FlushPart::make(alloc, 4, 10, 1).expect(rt, "no part");
    part.hold(1, 7);
    part.hold(2, 5);
    part.want(7);
    part.want(5);
    let wait = Wait {
        kind,
        target: Some(1),
        need: None,
    };
    if part.threads() > 0 {
        part.set_wait(0, wait);
    }
    part
}

impl Setting {
    // A block that is filled with a byte is sent in order.
    fn put(&mut self, block: u32, byte: u8, barrier: bool, note: Note) -> Turn {
        let kind = Kind::Put {
            block,
            body: Block::fill(byte),
        };
        self.part.submit(kind, true, barrier, note, &mut self.out)
    }

    // The flush actor takes a step, or takes what the device told.
    fn step(&mut self, takes: bool) -> Turn {
        if self.part.taken() > self.part.limit() {
            return Turn::NoMemory;
        }
        if takes {
            take_step(&mut self.part, &mut self.from)
        } else {
            flush_step(&mut self.part, &mut self.out, &mut self.from)
        }
    }

    // Does this, and tells whether it came as wanted.
    fn does(&mut self, act: Act) -> bool {
        match act {
            Act::Commit(turn) => {
                let came = self.put(3, 1, true, Note::Commit { tx: 1 });
                if self.part.submitted() > 0 {
                    self.part.note_commit(1, 0);
                }
                came == turn
            }
            Act::Super(turn) => self.put(4, 2, false, Note::Super) == turn,
            Act::Tell(completion, turn) => {
                let _ = self.from.put(completion);
                self.step(false) == turn
            }
            Act::Step(turn) => self.step(false) == turn,
            Act::Take(turn) => self.step(true) == turn,
            Act::Send(has) => self.out.take().is_some() == has,
        }
    }
}

fn has_flush(part: &FlushPart) -> [bool; 3] {
    [
        part.flush_due(),
        part.has_flush_above(0),
        part.has_flushed_after(0),
    ]
}

fn needs(part: &FlushPart, id: u64) -> bool {
    match part.wait(0) {
        Some(wait) => wait.need == Some(id),
        None => false,
    }
}

// Whether this is so of the part.
fn tells(part: &FlushPart, ask: Ask) -> bool {
    match ask {
        Ask::Need(id) => needs(part, id),
        Ask::Due(due) => part.flush_due() == due,
        Ask::Flush(due, sent, done) => has_flush(part) == [due, sent, done],
        Ask::LastPut(id) => part.last_put() == Some(id),
        Ask::LeastConflict(block, tx) => part.least_conflict() == Some((block, tx)),
        Ask::FirstFailed(id) => part.first_failed() == Some(id),
        Ask::Ends(cut, over, limit) => {
            [part.is_cut(), part.is_over(), part.at_limit()] == [cut, over, limit]
        }
        Ask::Cut(cut) => part.is_cut() == cut,
    }
}

fn plays(rt: &impl Abort, alloc: Global, row: &Row) {
    let mut session = Setting {
        part: waiting(rt, alloc, row.kind),
        out: ListQueue::make(alloc, 2).expect(rt, "no queue"),
        from: ListQueue::make(alloc, 3).expect(rt, "no queue"),
    };
    for (at, (act, asks)) in row.steps.iter().enumerate() {
        expect(rt, row.name, at, session.does(*act));
        for ask in *asks {
            expect(rt, row.name, at, tells(&session.part, *ask));
        }
    }
    drop(session);
}

#[test]
fn flushes_go_as_calls_wait(rt: HostRuntime) {
    for row in &ROWS {
        plays(&rt, rt.alloc(), row);
    }
    expect(&rt, "kinds", 0, CallKind::FileSync.is_begun());
    expect(&rt, "kinds", 1, CallKind::DataSync.is_data());
    expect(&rt, "kinds", 2, CallKind::Reading.is_reading());
    expect(&rt, "kinds", 3, CallKind::WholeSync.is_whole());
}
