//! Tests: parts, commands, lists and queues of a few items.
ghost use Rattle.std.specs.Prelude.{◌≡◌, ◌≤◌, ◌<◌, length};

use crate::steps::expect;
use blk_base::Block;
use order_model::{
    Command, Commands, Completion, History, Inlet, Kind, ListQueue, Outlet, Part, Parts, Priority,
    Request, Tally,
};
use std::process::Abort;

// A part whose body is its block's number, over and over, but for the last byte.
fn part(id: u64, block: u8, last: u8) -> Part {
    let mut body = Block::fill(block);
    body.set(1023, last);
    Part {
        id,
        block: u32::from(block),
        body,
    }
}

// Puts two numbers by the bounds alone, and takes one.
fn passes<Q: Outlet<u32> + Inlet<u32>>(
    queue: &mut Q,
) -> (Result<(), u32>, Result<(), u32>, Option<u32>) {
    (queue.put(7), queue.put(8), queue.take())
}

#[test]
fn queue_by_its_bounds(rt: HostRuntime) {
    let mut queue = ListQueue::make(rt.alloc(), 1).expect(&rt, "no queue");
    let came = passes(&mut queue);
    expect(&rt, "row", 0, &came, &(Ok(()), Err(8), Some(7)));
}

// The number that is put, if one is, or else one is taken; and the number that comes back.
static STEPS: [(Option<u32>, Option<u32>); 12] = [
    (None, None),
    (Some(10), None),
    (Some(20), None),
    (Some(30), None),
    (Some(40), Some(40)),
    (None, Some(10)),
    (Some(50), None),
    (Some(60), Some(60)),
    (None, Some(20)),
    (None, Some(30)),
    (None, Some(50)),
    (None, None),
];

#[test]
fn queue_keeps_order(rt: HostRuntime) {
    let mut queue = ListQueue::<u32>::make(rt.alloc(), 3).expect(&rt, "no queue");
    for (step, (put, back)) in STEPS.iter().enumerate() {
        let came = match put {
            Some(number) => queue.put(*number).err(),
            None => queue.take(),
        };
        expect(&rt, "row", step, &came, back);
    }
}

// The id and the block of each part that is pushed, and whether it comes back as it was.
fn push_all(rt: &impl Abort, parts: &mut Parts, pushes: &[(u64, u8, bool)]) {
    for (row, (id, block, back)) in pushes.iter().enumerate() {
        let came = parts.push(part(*id, *block, *block)) == Err(part(*id, *block, *block));
        expect(rt, "row", row, &came, back);
    }
}

// Sixteen parts go in, and the next comes back.
static SEVENTEEN: [(u64, u8, bool); 17] = [
    (100, 3, false),
    (101, 4, false),
    (102, 5, false),
    (103, 6, false),
    (104, 7, false),
    (105, 8, false),
    (106, 9, false),
    (107, 10, false),
    (108, 11, false),
    (109, 12, false),
    (110, 13, false),
    (111, 14, false),
    (112, 15, false),
    (113, 16, false),
    (114, 17, false),
    (115, 18, false),
    (116, 19, true),
];

static IDS: [(u32, Option<u64>); 4] = [
    (0, Some(100)),
    (15, Some(115)),
    (16, None),
    (u32::MAX, None),
];

#[test]
fn holds_sixteen_parts(rt: HostRuntime) {
    let mut parts = Parts::none();
    push_all(&rt, &mut parts, &SEVENTEEN);
    for (at, id) in &IDS {
        let came = match parts.get(*at) {
            Some(part) => Some(part.id),
            None => None,
        };
        expect(&rt, "row", *at as usize, &came, id);
    }
    expect(
        &rt,
        "row",
        0,
        &(parts.len(), parts.is_empty()),
        &(16, false),
    );
}

// Parts of the same block, of one further on and of one before come back.
static FOLLOWING: [(u64, u8, bool); 4] = [(2, 5, true), (2, 7, true), (2, 4, true), (2, 6, false)];

#[test]
fn parts_follow(rt: HostRuntime) {
    let mut parts = Parts::one(part(1, 5, 5));
    push_all(&rt, &mut parts, &FOLLOWING);
    let follows = parts.as_slice() == [part(1, 5, 5), part(2, 6, 6)].as_slice();
    expect(&rt, "row", 0, &follows, &true);
}

#[test]
fn commands_of_one_request(rt: HostRuntime) {
    let command = Command::of_request(put(part(3, 9, 9)), true);
    let is_whole = command.parts.as_slice() == [part(3, 9, 9)].as_slice();
    let flags = (command.priority, command.barrier, command.flush);
    drop(command);
    let wanted = (true, (Priority::Ordered, true, None));
    expect(&rt, "row", 0, &(is_whole, flags), &wanted);
}

// A command of these parts, or a flush.
fn command(parts: Parts, flush: Option<u64>) -> Command
    ensures { result.parts ≡ parts }
{
    Command {
        parts,
        priority: Priority::Ordered,
        barrier: false,
        flush,
    }
}

// Two parts, of blocks 5 and 6.
fn pair(rt: &impl Abort) -> Parts
    ensures { length result ≡ 2 }
{
    let mut parts = Parts::one(part(0, 5, 5));
    assert!(rt; parts.push(part(1, 6, 6)).is_ok());
    parts
}

// At each place the part, by its id, its block and its last byte, and the place of the first part of the command of that
// number.
static PLACES: [(Option<(u64, u8, u8)>, usize); 4] = [
    (Some((0, 5, 5)), 0),
    (Some((1, 6, 6)), 2),
    (Some((3, 9, 200)), 2),
    (None, 3),
];

fn expect_places(rt: &impl Abort, commands: &Commands) {
    for (at, (wanted, first)) in PLACES.iter().enumerate() {
        assert!(rt; at <= commands.len());
        let (id, part) = match wanted {
            Some((id, block, last)) => (Some(*id), Some(part(*id, *block, *last))),
            None => (None, None),
        };
        let came = (commands.part_id(at), commands.first_part(at));
        expect(
            rt,
            "row",
            at,
            &(came, commands.part(at) == part),
            &((id, *first), true),
        );
    }
}

// A put of blocks 5 and 6, a flush, and a put of block 9.
#[test]
fn commands_in_order(rt: HostRuntime) {
    let mut commands = Commands::make(rt.alloc(), 3).expect(&rt, "no commands");
    commands.push(&command(pair(&rt), None));
    commands.push(&command(Parts::none(), Some(2)));
    commands.push(&command(Parts::one(part(3, 9, 200)), None));
    let counts = (commands.len(), commands.count_parts(), commands.is_empty());
    expect(&rt, "row", 0, &counts, &(3, 3, false));
    expect_places(&rt, &commands);
}

// A put of these bytes, ordered, without a barrier.
fn put(part: Part) -> Request {
    Request {
        id: part.id,
        kind: Kind::Put {
            block: part.block,
            body: part.body,
        },
        ordered: true,
        barrier: false,
    }
}

#[test]
fn tallies_count(rt: HostRuntime) {
    let mut tally = Tally::make(2);
    let was_empty = tally.is_empty();
    tally.push(&put(part(0, 5, 200)));
    tally.push(&put(part(1, 6, 6)));
    let counts = (was_empty, tally.len(), tally.is_empty());
    expect(&rt, "row", 0, &counts, &(true, 2, false));
}

static GROWN: [Completion; 2] = [Completion::Moved(4), Completion::Cut];

#[test]
fn history_grows(rt: HostRuntime) {
    let mut history = History::make(rt.alloc(), 2).expect(&rt, "no history");
    history.push(Completion::Moved(4));
    history.push(Completion::Cut);
    expect(&rt, "row", 0, &history.as_slice(), &GROWN.as_slice());
}
