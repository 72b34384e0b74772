//! Tests of the device: worked rows, full logs, power cuts, and transfers that fail.
ghost use Rattle.std.specs.Prelude.{◌≡◌, ◌+◌, ◌<◌, ◌≤◌};
ghost use Rattle.device_tests.specs.Asked.{IsNext};
ghost use Rattle.device_tests.specs.flash_log.Asked.{HasTaken};

use crate::steps::Answer::{self, Count, Counts, Is, Told};
use crate::steps::Give::{self, Flush, Lent, Put};
use crate::steps::Step::{
    self, CanPersist, CanTransfer, Next, Persist, Persists, Quiet, Read, Room, Trace, Transfer,
    Transfers,
};
use crate::steps::{Left, Sending, asked, expect, leaves, plays, put, put_two};
use blk_base::Image;
use flog_device::{FlogDevice, FlogSetup};
use order_model::Completion::{Cut, Failed, Flushed, Moved};
use order_model::{Command, OrderedDev};
use std::alloc::Global;
use std::process::Abort;

// What is given to a new device, what it then does, and what is left once its power goes off.
struct Row {
    name: &'static str,
    // From 1 to 64.
    depth: u32,
    // The transfer that fails, and the steps after which the power is off.
    fail_at: Option<u64>,
    cut_at: Option<u64>,
    gives: &'static [Give],
    steps: &'static [(Step, Answer)],
    left: Left,
}

// A device that took the ids below `count`.
#[derive(Drop)]
struct Bench {
    device: FlogDevice,
    count: u64,
    ghost taken: { HasTaken device count },
}

// A device of four blocks of zeros and three segments, for 64 ids.
fn device(
    rt: &impl Abort,
    alloc: Global,
    depth: u32,
    fail_at: Option<u64>,
    cut_at: Option<u64>,
) -> FlogDevice
    requires { (1 ≤ depth) × (depth ≤ 64) }
    ensures { HasTaken result 0 }
{
    let image = Image::zeroed(alloc, 4).expect(rt, "no image");
    let setup = FlogSetup {
        depth,
        limit: 64,
        segments: 3,
        fail_at,
        cut_at,
    };
    FlogDevice::make(alloc, image, setup).expect(rt, "no device")
}

// The device takes the command, which has the ids `from` to `to`.
fn give(rt: &impl Abort, device: &mut FlogDevice, from: u64, to: u64, c: Command)
    requires taken { HasTaken device.old from }
    requires next { IsNext from to c }
    requires few { to ≤ 64 }
    ensures { HasTaken device.new to }
{
    assert!(rt; device.receive(c).is_ok());
}

// The device takes a put of this block, filled with this byte and maybe a barrier, under the next id.
fn give_put(rt: &impl Abort, device: &mut FlogDevice, id: u64, row: (u32, u8, bool))
    requires taken { HasTaken device.old id }
    requires few { id < 64 }
    ensures { HasTaken device.new (id + 1) }
{
    let (block, fill, barrier) = row;
    assert!(rt; block < 4);
    give(rt, device, id, id + 1, put(id, block, fill, barrier));
}

// The same by the call that copies the command.
fn lend(rt: &impl Abort, device: &mut FlogDevice, from: u64, to: u64, c: &Command)
    requires taken { HasTaken device.old from }
    requires next { IsNext from to c.now }
    requires few { to ≤ 64 }
    requires small { to ≤ from + 16 }
    ensures { HasTaken device.new to }
{
    assert!(rt; device.room());
    device.take_in(c);
}

// Whether the device hands the command back.
fn refuses(device: &mut FlogDevice, from: u64, to: u64, c: Command) -> bool
    requires taken { HasTaken device.old from }
    requires next { IsNext from to c }
    requires few { to ≤ 64 }
{
    device.receive(c).is_err()
}

// The device takes 47 puts: of the blocks 0 to 3 in turn, each filled with the number of puts up to it.
fn give_many(rt: &impl Abort, device: &mut FlogDevice)
    requires { HasTaken device.old 0 }
    ensures { HasTaken device.new 47 }
{
    for id in 0..47u64 {
        let fill = id as u8 + 1;
        give_put(rt, device, id, ((id % 4) as u32, fill, false));
    }
}

impl Bench {
    fn takes(&mut self, rt: &impl Abort, what: Give) {
        assert!(rt; self.count < 62);
        let Sending { from, to, command } = asked(rt, self.count, what);
        assert!(rt; to <= 64);
        give(rt, &mut self.device, from, to, command);
        self.count = to;
    }
}

fn plays_row(rt: &impl Abort, alloc: Global, row: &Row) {
    assert!(rt; 1 <= row.depth && row.depth <= 64);
    let device = device(rt, alloc, row.depth, row.fail_at, row.cut_at);
    let mut bench = Bench { device, count: 0 };
    for what in row.gives {
        bench.takes(rt, *what);
    }
    let Bench { mut device, .. } = bench;
    plays(rt, row.name, &mut device, row.steps);
    leaves(rt, row.name, row.steps.len(), device, &row.left);
}

static ROWS: [Row; 7] = [
    // Puts of the blocks 0, 1 and 2 are transferred, and the pages of the last two programmed.
    Row {
        name: "pages behind a gap are dropped",
        depth: 32,
        fail_at: None,
        cut_at: None,
        gives: &[
            Put(0, 0x11, false),
            Put(1, 0x22, false),
            Put(2, 0x33, false),
        ],
        steps: &[
            (CanTransfer, Count(1)),
            (Transfer(1), Is(false)),
            (Transfer(0), Is(true)),
            (Transfer(0), Is(true)),
            (Transfer(0), Is(true)),
            (CanPersist, Count(3)),
            (Persist(3), Is(false)),
            (Persist(1), Is(true)),
            (Persist(1), Is(true)),
            (CanPersist, Count(1)),
            (Trace, Counts(3, 3, 0, 5)),
        ],
        left: Left {
            steps: 5,
            fills: [0, 0, 0, 0],
            origins: &[None, None, None, None],
        },
    },
    Row {
        name: "pages are kept once the gap is filled",
        depth: 32,
        fail_at: None,
        cut_at: None,
        gives: &[
            Put(0, 0x11, false),
            Put(1, 0x22, false),
            Put(2, 0x33, false),
        ],
        steps: &[
            (CanTransfer, Count(1)),
            (Transfer(1), Is(false)),
            (Transfer(0), Is(true)),
            (Transfer(0), Is(true)),
            (Transfer(0), Is(true)),
            (CanPersist, Count(3)),
            (Persist(3), Is(false)),
            (Persist(1), Is(true)),
            (Persist(1), Is(true)),
            (CanPersist, Count(1)),
            (Trace, Counts(3, 3, 0, 5)),
            (Persist(0), Is(true)),
            (CanPersist, Count(1)),
        ],
        left: Left {
            steps: 6,
            fills: [0x11, 0x22, 0x33, 0],
            origins: &[Some(0), Some(1), Some(2), None],
        },
    },
    // A flush goes once each page is programmed. What was put is then read from the log.
    Row {
        name: "flush waits for the pages",
        depth: 4,
        fail_at: None,
        cut_at: None,
        gives: &[Put(1, 0x11, false), Flush],
        steps: &[
            (Transfer(0), Is(true)),
            (Transfer(0), Is(false)),
            (CanTransfer, Count(0)),
            (Persist(0), Is(true)),
            (Transfer(0), Is(true)),
            (Quiet, Is(false)),
            (Next, Told(Some(Moved(0)))),
            (Next, Told(Some(Flushed(1)))),
            (Next, Told(None)),
            (Trace, Counts(2, 1, 2, 3)),
            (Quiet, Is(true)),
            (CanPersist, Count(1)),
            (Read(0, 0), Is(true)),
            (Read(1, 0x11), Is(true)),
        ],
        left: Left {
            steps: 3,
            fills: [0, 0x11, 0, 0],
            origins: &[None, Some(0), None, None],
        },
    },
    // Two puts of block 0: the fold of the first one leaves what the second one wrote.
    Row {
        name: "fold leaves a later page of the block",
        depth: 4,
        fail_at: None,
        cut_at: None,
        gives: &[
            Put(0, 0x11, false),
            Put(0, 0x22, false),
            Put(1, 0x33, false),
        ],
        steps: &[
            (Transfers(3), Is(true)),
            (Persist(0), Is(true)),
            (Persist(0), Is(true)),
            (CanPersist, Count(2)),
            (Persist(1), Is(true)),
            (CanPersist, Count(2)),
        ],
        left: Left {
            steps: 6,
            fills: [0x22, 0, 0, 0],
            origins: &[Some(1), None, None, None],
        },
    },
    // A page behind a gap has the block of the page that is folded, and does not count.
    Row {
        name: "fold passes over a page behind a gap",
        depth: 4,
        fail_at: None,
        cut_at: None,
        gives: &[
            Put(0, 0x11, false),
            Put(1, 0x22, false),
            Put(0, 0x33, false),
        ],
        steps: &[
            (Transfers(3), Is(true)),
            (Persist(0), Is(true)),
            (CanPersist, Count(3)),
            (Persist(1), Is(true)),
            (CanPersist, Count(2)),
            (Persist(1), Is(true)),
            (CanPersist, Count(1)),
        ],
        left: Left {
            steps: 6,
            fills: [0x11, 0, 0, 0],
            origins: &[Some(0), None, None, None],
        },
    },
    Row {
        name: "power goes off after two steps",
        depth: 4,
        fail_at: None,
        cut_at: Some(2),
        gives: &[Put(0, 0x11, false), Put(1, 0x22, false)],
        steps: &[
            (Transfer(0), Is(true)),
            (Persist(0), Is(true)),
            (Room, Is(false)),
            (CanTransfer, Count(0)),
            (Transfer(0), Is(false)),
            (CanPersist, Count(0)),
            (Persist(0), Is(false)),
            (Next, Told(Some(Moved(0)))),
            (Next, Told(Some(Cut))),
            (Next, Told(None)),
            (Trace, Counts(2, 1, 2, 2)),
        ],
        left: Left {
            steps: 2,
            fills: [0x11, 0, 0, 0],
            origins: &[Some(0), None, None, None],
        },
    },
    // Of three transfers the second fails. What the first one moved is programmed and folded all the same.
    Row {
        name: "writes go on after a failed transfer",
        depth: 4,
        fail_at: Some(2),
        cut_at: None,
        gives: &[Put(0, 0x11, false), Put(1, 0x22, true), Put(2, 0x33, false)],
        steps: &[
            (Transfer(0), Is(true)),
            (Transfer(0), Is(true)),
            (Transfer(0), Is(false)),
            (CanTransfer, Count(0)),
            (CanPersist, Count(1)),
            (Persist(0), Is(true)),
            (Persist(0), Is(true)),
            (CanPersist, Count(0)),
            (Next, Told(Some(Moved(0)))),
            (Next, Told(Some(Failed(1)))),
            (Next, Told(None)),
            (Room, Is(true)),
            (Quiet, Is(false)),
            (Trace, Counts(3, 1, 2, 4)),
        ],
        left: Left {
            steps: 4,
            fills: [0x11, 0, 0, 0],
            origins: &[Some(0), None, None, None],
        },
    },
];

#[test]
fn does_what_its_rows_tell(rt: HostRuntime) {
    for row in &ROWS {
        plays_row(&rt, rt.alloc(), row);
    }
}

#[test]
fn one_command_fills_a_queue_of_depth_one(rt: HostRuntime) {
    let mut device = device(&rt, rt.alloc(), 1, None, None);
    let before = device.room();
    give_put(&rt, &mut device, 0, (0, 0x11, false));
    let behind = device.room();
    let refused = refuses(&mut device, 1, 2, put(1, 1, 0x22, false));
    drop(device);
    let came = [before, behind, refused];
    expect(&rt, "depth one", 0, &came, &[true, false, true]);
}

static FULL_LOG: [(Step, Answer); 15] = [
    (Transfers(47), Is(true)),
    (CanTransfer, Count(0)),
    (CanPersist, Count(47)),
    (Persists(47), Is(true)),
    (Persists(15), Is(true)),
    (CanTransfer, Count(0)),
    (Transfer(0), Is(false)),
    (Persist(0), Is(true)),
    (CanTransfer, Count(1)),
    (Transfer(0), Is(true)),
    (CanPersist, Count(3)),
    (Persists(35), Is(true)),
    (CanPersist, Count(0)),
    (Quiet, Is(true)),
    (Read(3, 44), Is(true)),
];

static FULL_LOG_LEFT: Left = Left {
    steps: 146,
    fills: [45, 0x11, 0x22, 44],
    origins: &[Some(44), Some(47), Some(48), Some(43)],
};

// 47 puts leave one place, so a command of two parts waits until a segment is erased. It then gets places
// of a segment that was used before.
#[test]
fn full_log_goes_on_once_a_segment_is_erased(rt: HostRuntime) {
    let mut device = device(&rt, rt.alloc(), 64, None, None);
    give_many(&rt, &mut device);
    lend(&rt, &mut device, 47, 49, &put_two(&rt, 47, 1));
    plays(&rt, "full log", &mut device, &FULL_LOG);
    leaves(&rt, "full log", FULL_LOG.len(), device, &FULL_LOG_LEFT);
}
