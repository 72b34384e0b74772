//! Tests of the device: worked rows, power cuts, and transfers and reads that fail.
ghost use Rattle.std.specs.Prelude.{◌≡◌, ◌+◌, ◌<◌, ◌≤◌};
ghost use Rattle.device_tests.specs.Asked.{HasTaken, IsNext};

use crate::steps::Answer::{self, Count, Counts, Fault, Is, Told};
use crate::steps::Give::{self, Flush, Lent, Put, Two};
use crate::steps::Step::{
    self, Blocks, CanPersist, CanTransfer, Next, Persist, Persists, Quiet, Read, Room, Trace,
    Transfer, Transfers,
};
use crate::steps::{Left, Sending, asked, expect, leaves, plays, put};
use blk_base::Image;
use device_epochs::{DeviceSetup, EpochDevice};
use order_model::Completion::{Cut, Failed, Flushed, Moved};
use order_model::{Command, OrderedDev};
use std::alloc::Global;
use std::process::Abort;

// What is given to a new device, what it then does, and what is left once its power goes off.
struct Row {
    name: &'static str,
    // The transfer that fails, the read that fails, and the steps after which the power is off.
    fail_at: Option<u64>,
    bad_read: Option<u64>,
    cut_at: Option<u64>,
    gives: &'static [Give],
    steps: &'static [(Step, Answer)],
    left: Left,
}

// A device that took the ids below `count`.
#[derive(Drop)]
struct Bench {
    device: EpochDevice,
    count: u64,
    ghost taken: { HasTaken device count },
}

// A device of four blocks of zeros, for sixteen ids.
fn device(
    rt: &impl Abort,
    alloc: Global,
    fail_at: Option<u64>,
    bad_read: Option<u64>,
    cut_at: Option<u64>,
) -> EpochDevice
    ensures { HasTaken result 0 }
{
    let image = Image::zeroed(alloc, 4).expect(rt, "no image");
    let setup = DeviceSetup {
        depth: 4,
        limit: 16,
        fail_at,
        bad_read,
        cut_at,
    };
    EpochDevice::make(alloc, image, setup).expect(rt, "no device")
}

// The device takes the command, which has the ids `from` to `to`.
fn give(rt: &impl Abort, device: &mut EpochDevice, from: u64, to: u64, c: Command)
    requires taken { HasTaken device.old from }
    requires next { IsNext from to c }
    requires few { to ≤ 16 }
    ensures { HasTaken device.new to }
{
    assert!(rt; device.receive(c).is_ok());
}

// The same by the call that copies the command.
fn lend(rt: &impl Abort, device: &mut EpochDevice, from: u64, to: u64, c: &Command)
    requires taken { HasTaken device.old from }
    requires next { IsNext from to c.now }
    requires few { to ≤ 16 }
    ensures { HasTaken device.new to }
{
    assert!(rt; device.room());
    device.take_in(c);
}

// Whether the device hands the command back.
fn refuses(device: &mut EpochDevice, from: u64, to: u64, c: Command) -> bool
    requires taken { HasTaken device.old from }
    requires next { IsNext from to c }
    requires few { to ≤ 16 }
{
    device.receive(c).is_err()
}

fn moves(device: &mut EpochDevice, taken: u64, pick: u32) -> bool
    requires { HasTaken device.old taken }
    ensures { HasTaken device.new taken }
{
    device.transfer(pick)
}

impl Bench {
    fn takes(&mut self, rt: &impl Abort, what: Give) {
        assert!(rt; self.count < 16);
        let Sending { from, to, command } = asked(rt, self.count, what);
        assert!(rt; to <= 16);
        if let Lent(_) = what {
            lend(rt, &mut self.device, from, to, &command);
            drop(command);
        } else {
            give(rt, &mut self.device, from, to, command);
        }
        self.count = to;
    }
}

fn plays_row(rt: &impl Abort, alloc: Global, row: &Row) {
    let device = device(rt, alloc, row.fail_at, row.bad_read, row.cut_at);
    let mut bench = Bench { device, count: 0 };
    for what in row.gives {
        bench.takes(rt, *what);
    }
    let Bench { mut device, .. } = bench;
    plays(rt, row.name, &mut device, row.steps);
    leaves(rt, row.name, row.steps.len(), device, &row.left);
}

static ROWS: [Row; 13] = [
    // The first epoch, puts 0 and 1, is on the medium before put 2.
    Row {
        name: "epochs in order",
        fail_at: None,
        bad_read: None,
        cut_at: None,
        gives: &[Put(0, 0x11, false), Put(1, 0x22, true), Put(2, 0x33, false)],
        steps: &[
            (CanTransfer, Count(1)),
            (Transfer(1), Is(false)),
            (Trace, Counts(3, 0, 0, 0)),
            (Transfer(0), Is(true)),
            (Transfer(0), Is(true)),
            (Transfer(0), Is(true)),
            (CanPersist, Count(2)),
            (Persist(2), Is(false)),
            (Trace, Counts(3, 3, 0, 3)),
            (Persist(0), Is(true)),
            (Persist(0), Is(true)),
            (CanPersist, Count(1)),
        ],
        left: Left {
            steps: 5,
            fills: [0x11, 0x22, 0, 0],
            origins: &[Some(0), Some(1), None, None],
        },
    },
    // A flush goes once the cache is empty, and then the device is quiet.
    Row {
        name: "flush waits for the cache",
        fail_at: None,
        bad_read: None,
        cut_at: None,
        gives: &[Put(1, 0x11, false), Flush],
        steps: &[
            (Blocks, Count(4)),
            (Transfer(0), Is(true)),
            (Transfer(0), Is(false)),
            (CanTransfer, Count(0)),
            (Persist(0), Is(true)),
            (Transfer(0), Is(true)),
            (Quiet, Is(false)),
            (Next, Told(Some(Moved(0)))),
            (Next, Told(Some(Flushed(1)))),
            (Next, Told(None)),
            (Trace, Counts(2, 1, 2, 3)),
            (Quiet, Is(true)),
            (Read(1, 0x11), Is(true)),
        ],
        left: Left {
            steps: 3,
            fills: [0, 0x11, 0, 0],
            origins: &[None, Some(0), None, None],
        },
    },
    // Of two puts of one block in one epoch, the later one takes the place of the earlier one.
    Row {
        name: "later put takes the place",
        fail_at: None,
        bad_read: None,
        cut_at: None,
        gives: &[
            Put(0, 0x11, false),
            Put(1, 0x22, false),
            Put(0, 0x33, false),
        ],
        steps: &[
            (Transfer(0), Is(true)),
            (Transfer(0), Is(true)),
            (Transfer(0), Is(true)),
            (CanPersist, Count(2)),
            (Persist(0), Is(true)),
        ],
        left: Left {
            steps: 4,
            fills: [0x33, 0, 0, 0],
            origins: &[Some(2), None, None, None],
        },
    },
    // Two epochs have puts of block 0, the first one two of them.
    Row {
        name: "first epoch writes its newest put",
        fail_at: None,
        bad_read: None,
        cut_at: None,
        gives: &[
            Put(0, 0x01, false),
            Put(0, 0x02, false),
            Put(1, 0x03, true),
            Put(0, 0x04, false),
        ],
        steps: &[
            (Transfers(4), Is(true)),
            (CanPersist, Count(2)),
            (Persists(2), Is(true)),
        ],
        left: Left {
            steps: 6,
            fills: [0x02, 0x03, 0, 0],
            origins: &[Some(1), Some(2), None, None],
        },
    },
    Row {
        name: "second epoch writes its own put",
        fail_at: None,
        bad_read: None,
        cut_at: None,
        gives: &[
            Put(0, 0x01, false),
            Put(0, 0x02, false),
            Put(1, 0x03, true),
            Put(0, 0x04, false),
        ],
        steps: &[
            (Transfers(4), Is(true)),
            (CanPersist, Count(2)),
            (Persists(3), Is(true)),
        ],
        left: Left {
            steps: 7,
            fills: [0x04, 0x03, 0, 0],
            origins: &[Some(3), Some(2), None, None],
        },
    },
    // A put finds the entry that it replaces where others stood before that one and left.
    Row {
        name: "put finds its entry once others left",
        fail_at: None,
        bad_read: None,
        cut_at: None,
        gives: &[
            Put(0, 0x11, false),
            Put(1, 0x22, false),
            Put(1, 0x33, false),
        ],
        steps: &[
            (Transfer(0), Is(true)),
            (Transfer(0), Is(true)),
            (Persist(0), Is(true)),
            (Transfer(0), Is(true)),
            (CanPersist, Count(1)),
            (Persist(0), Is(true)),
        ],
        left: Left {
            steps: 5,
            fills: [0x11, 0x33, 0, 0],
            origins: &[Some(0), Some(2), None, None],
        },
    },
    // The parts of one command go to the cache together, and to the medium one by one.
    Row {
        name: "command of two parts",
        fail_at: None,
        bad_read: None,
        cut_at: None,
        gives: &[Lent(1)],
        steps: &[
            (Trace, Counts(1, 0, 0, 0)),
            (Transfer(0), Is(true)),
            (CanPersist, Count(2)),
            (Persist(1), Is(true)),
            (Next, Told(Some(Moved(0)))),
            (Next, Told(Some(Moved(1)))),
        ],
        left: Left {
            steps: 2,
            fills: [0, 0, 0x22, 0],
            origins: &[None, None, Some(1), None],
        },
    },
    // Its command is gone, both ids are told, and nothing is transferred behind it.
    Row {
        name: "first transfer fails",
        fail_at: Some(1),
        bad_read: None,
        cut_at: None,
        gives: &[Two(1), Put(0, 0x33, false)],
        steps: &[
            (Transfer(0), Is(true)),
            (CanTransfer, Count(0)),
            (CanPersist, Count(0)),
            (Transfer(0), Is(false)),
            (Next, Told(Some(Failed(0)))),
            (Next, Told(Some(Failed(1)))),
            (Next, Told(None)),
            (Room, Is(true)),
            (Quiet, Is(false)),
            (Trace, Counts(2, 0, 2, 1)),
        ],
        left: Left {
            steps: 1,
            fills: [0, 0, 0, 0],
            origins: &[None, None, None, None],
        },
    },
    // Of three transfers the second fails. What the first one moved is written all the same.
    Row {
        name: "writes go on after a failed transfer",
        fail_at: Some(2),
        bad_read: None,
        cut_at: None,
        gives: &[Put(0, 0x11, false), Put(1, 0x22, true), Put(2, 0x33, false)],
        steps: &[
            (Transfer(0), Is(true)),
            (Transfer(0), Is(true)),
            (Transfer(0), Is(false)),
            (CanPersist, Count(1)),
            (Persist(0), Is(true)),
            (Next, Told(Some(Moved(0)))),
            (Next, Told(Some(Failed(1)))),
            (Next, Told(None)),
            (Trace, Counts(3, 1, 2, 3)),
        ],
        left: Left {
            steps: 3,
            fills: [0x11, 0, 0, 0],
            origins: &[Some(0), None, None, None],
        },
    },
    // A flush that fails is not told as done, though all before it is on the medium.
    Row {
        name: "flush fails",
        fail_at: Some(2),
        bad_read: None,
        cut_at: None,
        gives: &[Put(1, 0x11, false), Flush],
        steps: &[
            (Transfer(0), Is(true)),
            (Persist(0), Is(true)),
            (Transfer(0), Is(true)),
            (Next, Told(Some(Moved(0)))),
            (Next, Told(Some(Failed(1)))),
            (Next, Told(None)),
            (Quiet, Is(false)),
            (Trace, Counts(2, 1, 2, 3)),
        ],
        left: Left {
            steps: 3,
            fills: [0, 0x11, 0, 0],
            origins: &[None, Some(0), None, None],
        },
    },
    // The transfer that fails is the step at which the power goes off.
    Row {
        name: "fails and goes off",
        fail_at: Some(1),
        bad_read: None,
        cut_at: Some(1),
        gives: &[Put(0, 0x11, false)],
        steps: &[
            (Transfer(0), Is(true)),
            (Room, Is(false)),
            (Next, Told(Some(Failed(0)))),
            (Next, Told(Some(Cut))),
            (Next, Told(None)),
            (Trace, Counts(1, 0, 2, 1)),
        ],
        left: Left {
            steps: 1,
            fills: [0, 0, 0, 0],
            origins: &[None, None, None, None],
        },
    },
    Row {
        name: "first read fails",
        fail_at: None,
        bad_read: Some(1),
        cut_at: None,
        gives: &[],
        steps: &[
            (Blocks, Count(4)),
            (Read(0, 0), Fault),
            (Read(0, 0), Is(true)),
        ],
        left: Left {
            steps: 0,
            fills: [0, 0, 0, 0],
            origins: &[None, None, None, None],
        },
    },
    Row {
        name: "second read fails",
        fail_at: None,
        bad_read: Some(2),
        cut_at: None,
        gives: &[],
        steps: &[
            (Read(0, 0), Is(true)),
            (Read(0, 0), Fault),
            (Read(0, 0), Is(true)),
        ],
        left: Left {
            steps: 0,
            fills: [0, 0, 0, 0],
            origins: &[None, None, None, None],
        },
    },
];

#[test]
fn does_what_its_rows_tell(rt: HostRuntime) {
    for row in &ROWS {
        plays_row(&rt, rt.alloc(), row);
    }
}

static CUT: [(Step, Answer); 8] = [
    (Room, Is(false)),
    (Persist(0), Is(false)),
    (CanTransfer, Count(0)),
    (CanPersist, Count(0)),
    (Next, Told(Some(Moved(0)))),
    (Next, Told(Some(Cut))),
    (Next, Told(None)),
    (Trace, Counts(1, 1, 2, 1)),
];

static CUT_LEFT: Left = Left {
    steps: 1,
    fills: [0, 0, 0, 0],
    origins: &[None, None, None, None],
};

// The power goes off by the first step, and then no command is taken.
#[test]
fn cut_after_one_step(rt: HostRuntime) {
    let row = "cut after one step";
    let mut device = device(&rt, rt.alloc(), None, None, Some(1));
    give(&rt, &mut device, 0, 1, put(0, 0, 0x11, false));
    let moved = moves(&mut device, 1, 0);
    let refused = refuses(&mut device, 1, 2, put(1, 1, 0x22, false));
    plays(&rt, row, &mut device, &CUT);
    leaves(&rt, row, CUT.len(), device, &CUT_LEFT);
    expect(&rt, row, 0, &(moved, refused), &(true, true));
}
