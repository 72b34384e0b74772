//! Commands that wait: which may go next in a device, and the ring of those that are on their way to it.
ghost use Rattle.std.specs.Prelude.{◌≤◌};

use crate::steps::Answer::{self, Count, Is, Number, Parts};
use crate::steps::{Player, plays};
use blk_base::Block;
use device_epochs::queue::{CommandQueue, CommandRing};
use order_model::Priority::{Ordered, Simple};
use order_model::{Command, Part, Priority};

// What a test does with a queue.
#[derive(Clone, Copy)]
enum Step {
    // Whether the queue takes a command of so many blocks from this one on.
    Receive(Priority, u8, u8),
    // The parts of the command at this place, which leaves.
    Take(u32),
    // The parts of the command at this place, which then leaves by `leave`.
    Leave(u32),
    // The number of the command at this place.
    NumberAt(u32),
    // The parts of the command at this place.
    Peek(u32),
    Eligible,
    Room,
    IsEmpty,
}

use Step::{Eligible, IsEmpty, Leave, NumberAt, Peek, Receive, Room, Take};

// The steps of a new queue of this depth, from 1 to 64.
struct Row {
    name: &'static str,
    depth: u32,
    steps: &'static [(Step, Answer)],
}

// A queue that has numbered no more commands than were sent to it.
#[derive(Drop)]
struct Bench {
    queue: CommandQueue,
    count: u64,
    ghost few: { queue.next ≤ count },
}

impl Player<Step> for Bench {
    fn done(&mut self, step: Step) -> Answer {
        match step {
            Receive(priority, first, blocks) => Is(self.receive(command(priority, first, blocks))),
            Take(pick) => Parts(parts_of(self.queue.take(pick).as_ref())),
            Leave(pick) => {
                let parts = parts_of(self.queue.peek(pick));
                self.queue.leave(pick);
                Parts(parts)
            }
            NumberAt(pick) => Number(self.queue.number(pick)),
            Peek(pick) => Parts(parts_of(self.queue.peek(pick))),
            Eligible => Count(self.queue.eligible()),
            Room => Is(self.queue.room()),
            IsEmpty => Is(self.queue.is_empty()),
        }
    }
}

impl Bench {
    fn receive(&mut self, c: Command) -> bool {
        if self.count >= 1000 {
            return false;
        }
        let taken = self.queue.receive(c).is_ok();
        self.count += 1;
        taken
    }
}

// A command of so many blocks from `first` on, at most 16.
fn command(priority: Priority, first: u8, blocks: u8) -> Command {
    let mut command = Command::blank();
    command.priority = priority;
    for at in 0..u32::from(blocks) {
        let block = u32::from(first) + at;
        let _ = command.parts.push(Part {
            id: u64::from(block),
            block,
            body: Block::fill(0),
        });
    }
    command
}

// The first block of a command, and how many it has.
fn parts_of(c: Option<&Command>) -> Option<(u32, u32)> {
    let parts = &c?.parts;
    Some((parts.get(0)?.block, parts.len()))
}

static ROWS: [Row; 3] = [
    Row {
        name: "holds depth",
        depth: 2,
        steps: &[
            (Receive(Simple, 1, 1), Is(true)),
            (Room, Is(true)),
            (Receive(Simple, 2, 1), Is(true)),
            (Room, Is(false)),
            (Receive(Ordered, 3, 2), Is(false)),
            (Eligible, Count(2)),
            (Take(1), Parts(Some((2, 1)))),
            (Room, Is(true)),
            (IsEmpty, Is(false)),
            (Leave(0), Parts(Some((1, 1)))),
            (IsEmpty, Is(true)),
        ],
    },
    // 0: SIMPLE at block 1; 1: SIMPLE at block 1; 2: SIMPLE at block 2; 3: ORDERED; 4: SIMPLE.
    Row {
        name: "keeps ordered ones in order",
        depth: 8,
        steps: &[
            (Receive(Simple, 1, 1), Is(true)),
            (Receive(Simple, 1, 1), Is(true)),
            (Receive(Simple, 2, 1), Is(true)),
            (Receive(Ordered, 9, 1), Is(true)),
            (Receive(Simple, 3, 1), Is(true)),
            (Eligible, Count(2)),
            (NumberAt(0), Number(Some(0))),
            (Peek(0), Parts(Some((1, 1)))),
            (NumberAt(2), Number(None)),
            (Peek(2), Parts(None)),
            (NumberAt(1), Number(Some(2))),
            (Peek(1), Parts(Some((2, 1)))),
            (Take(1), Parts(Some((2, 1)))),
            (Eligible, Count(1)),
            (NumberAt(0), Number(Some(0))),
            (Peek(0), Parts(Some((1, 1)))),
            (Take(0), Parts(Some((1, 1)))),
            (Eligible, Count(1)),
            (NumberAt(0), Number(Some(1))),
            (Peek(0), Parts(Some((1, 1)))),
            (Take(0), Parts(Some((1, 1)))),
            (Eligible, Count(1)),
            (NumberAt(0), Number(Some(3))),
            (Peek(0), Parts(Some((9, 1)))),
            (Take(0), Parts(Some((9, 1)))),
            (Eligible, Count(1)),
            (NumberAt(0), Number(Some(4))),
            (Peek(0), Parts(Some((3, 1)))),
            (Take(0), Parts(Some((3, 1)))),
            (Eligible, Count(0)),
            (Take(0), Parts(None)),
        ],
    },
    // Blocks 5 to 7, 7 and 8, and 8 and 9: the third has no block of the first, but waits for the second.
    Row {
        name: "keeps blocks in order",
        depth: 3,
        steps: &[
            (Receive(Simple, 5, 3), Is(true)),
            (Receive(Simple, 7, 2), Is(true)),
            (Receive(Simple, 8, 2), Is(true)),
            (Eligible, Count(1)),
            (Take(0), Parts(Some((5, 3)))),
            (Eligible, Count(1)),
            (Take(0), Parts(Some((7, 2)))),
            (Eligible, Count(1)),
            (Take(0), Parts(Some((8, 2)))),
        ],
    },
];

#[test]
fn lets_go_what_its_rows_tell(rt: HostRuntime) {
    for row in &ROWS {
        assert!(rt; 1 <= row.depth && row.depth <= 64);
        let queue = CommandQueue::make(rt.alloc(), row.depth).expect(&rt, "no queue");
        let mut bench = Bench { queue, count: 0 };
        plays(&rt, &mut bench, row.name, row.steps);
        drop(bench);
    }
}

// What a test does with a ring.
#[derive(Clone, Copy)]
enum Turn {
    // A command of so many blocks from this one on goes in where there is room; and whether the ring is full then.
    Push(u8, u8),
    // The parts of the first command, which leaves.
    Remove,
    IsFull,
}

use Turn::{IsFull, Push, Remove};

impl Player<Turn> for CommandRing {
    fn done(&mut self, turn: Turn) -> Answer {
        match turn {
            Push(first, blocks) => {
                if !self.is_full() {
                    self.push(&command(Simple, first, blocks));
                }
                Is(self.is_full())
            }
            Remove => {
                let first = parts_of(self.first());
                self.remove_first();
                Parts(first)
            }
            IsFull => Is(self.is_full()),
        }
    }
}

// The steps of new rings of so many slots.
static RINGS: [(&str, u32, &[(Turn, Answer)]); 2] = [
    // The commands at blocks 40 and 50 lie where those at 10 and 20 lay.
    (
        "three slots",
        3,
        &[
            (Remove, Parts(None)),
            (Push(10, 2), Is(false)),
            (Push(20, 3), Is(false)),
            (Push(30, 1), Is(true)),
            (Remove, Parts(Some((10, 2)))),
            (Push(40, 1), Is(true)),
            (Remove, Parts(Some((20, 3)))),
            (Push(50, 4), Is(true)),
            (Remove, Parts(Some((30, 1)))),
            (Remove, Parts(Some((40, 1)))),
            (Remove, Parts(Some((50, 4)))),
            (Remove, Parts(None)),
        ],
    ),
    ("no slots", 0, &[(IsFull, Is(true)), (Remove, Parts(None))]),
];

#[test]
fn rings_do_what_their_rows_tell(rt: HostRuntime) {
    for row in &RINGS {
        let (name, slots, steps) = *row;
        let mut ring = CommandRing::make(rt.alloc(), slots).expect(&rt, "no ring");
        plays(&rt, &mut ring, name, steps);
        drop(ring);
    }
}
