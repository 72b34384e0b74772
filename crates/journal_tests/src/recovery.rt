//! Tests of recovery on the model device: a volume of 64 blocks with a journal of 128 behind it.
ghost use Rattle.std.specs.Prelude.{◌≡◌, ◌<◌, ◌^◌, All, length};
ghost use Rattle.journal_tests.specs.Ready.{IsReady};

use crate::log_blocks::block_of;
use crate::logs::{Came, EMPTY, Log, LogPart, MISSING, SUPER_FAULTS, Way, logs};
use crate::made_images::is_block;
use blk_base::{Block, Image};
use device_epochs::{DeviceSetup, EpochDevice};
use journal_blocks::{
    JournalSuper, Tag, escape, read_super, write_commit, write_descriptor, write_revoke,
    write_super,
};
use journal_replay::{
    BoxedBlock, Choice, RecoverFault, Recovered, Repeated, attempts_keep_the_recovered_image,
    recover, replays_by_revokes_are_exact,
};
use order_model::OrderedDev;
use std::alloc::Global;
use std::process::Abort;

const BASE: u32 = 64;

// The superblock of a log that starts at its first block with sequence 4.
const FOUR: JournalSuper = JournalSuper {
    maxlen: 128,
    first: 1,
    sequence: 4,
    start: 1,
    incompat: 1,
};

// Tags for these blocks, of which the first may be escaped.
fn tags_for(rt: &impl Abort, alloc: Global, blocks: &[u32], escaped: bool) -> Vec<Tag>
    ensures { All (λ t. t.block < 2 ^ 32) result.items }
{
    let mut tags = Vec::new(alloc);
    for block in blocks {
        let tag = Tag {
            block: u64::from(*block),
            escaped: escaped && tags.len() == 0,
        };
        let pushed: Result<_, _> = tags.push(tag);
        pushed.expect(rt, "no tag");
    }
    tags
}

// The body that begins with the magic number.
fn magic_body() -> Block {
    let mut body = Block::fill(5);
    body.set(0, 0xC0);
    body.set(1, 0x3B);
    body.set(2, 0x39);
    body.set(3, 0x98);
    body
}

fn log_block(rt: &impl Abort, alloc: Global, part: &LogPart, wide: bool) -> Block {
    match part {
        LogPart::Commit(sequence) => write_commit(*sequence),
        LogPart::Bodies(sequence, blocks, escaped) => {
            let tags = tags_for(rt, alloc, blocks, *escaped);
            assert!(rt; tags.len() > 0 && tags.len() < 10);
            write_descriptor(*sequence, tags.as_slice(), wide)
        }
        LogPart::Revoke(sequence, blocks) => {
            assert!(rt; blocks.len() > 0 && blocks.len() < 10);
            write_revoke(*sequence, blocks, wide)
        }
        LogPart::BadRevoke(sequence) => {
            let mut block = write_revoke(*sequence, &[9], wide);
            block.set(15, 15);
            block
        }
        LogPart::Body(byte) => Block::fill(*byte),
        LogPart::Magic => escape(&magic_body()).0,
        LogPart::Bytes(front) => block_of(front),
    }
}

// Writes a block that is there.
pub(crate) fn put(image: &mut Image, at: u32, body: Block) {
    if at < image.len() {
        image.put(at, body);
    }
}

fn device(
    rt: &impl Abort,
    alloc: Global,
    image: Image,
    fail_at: Option<u64>,
    bad_read: Option<u64>,
) -> EpochDevice
    ensures { IsReady (length image) result }
{
    let limit = u64::from(image.len()) + 2;
    let setup = DeviceSetup {
        depth: 4,
        limit,
        fail_at,
        bad_read,
        cut_at: None,
    };
    EpochDevice::make(alloc, image, setup).expect(rt, "no device")
}

// One recovery on a device of its own, with what a power cut leaves behind it.
fn attempt(
    rt: &impl Abort,
    alloc: Global,
    image: Image,
    way: &Way,
    steer: &[Repeated],
) -> (Result<Recovered, RecoverFault>, Image) {
    assert!(rt; image.len() > BASE);
    let (fail_at, bad_read, cut) = match way {
        Way::Whole => (None, None, false),
        Way::Cut => (None, None, true),
        Way::FailAt(transfer) => (Some(*transfer), None, false),
        Way::BadRead(read) => (None, Some(*read), false),
    };
    let mut dev = device(rt, alloc, image, fail_at, bad_read);
    let result = recover(alloc, &mut dev, BASE, steer, cut);
    (result, dev.cut().image)
}

fn body(image: &Image, at: u32) -> Option<&Block> {
    if at < image.len() {
        Some(image.block(at))
    } else {
        None
    }
}

fn are_same(a: &Image, b: &Image) -> bool {
    for at in 0..192 {
        if body(a, at) != body(b, at) {
            return false;
        }
    }
    a.len() == b.len()
}

fn ended(replayed: u32, next: u32, ended: bool) -> Result<Recovered, RecoverFault> {
    Ok(Recovered {
        replayed,
        next,
        ended,
    })
}

#[test]
fn boxed_blocks_have_their_bytes(rt: HostRuntime) {
    let boxed = BoxedBlock::make(rt.alloc(), magic_body()).expect(&rt, "no box");
    assert!(rt; boxed.as_block() == &magic_body());
    assert!(rt; boxed.into_block() == magic_body());
}

// Makes a recovery of the image. The row has the name of the log, its features, and which recovery of it this is.
fn expect_came(
    rt: &impl Abort,
    alloc: Global,
    row: &(&str, u32, usize),
    image: &Image,
    way: &Way,
    wanted: &Came,
) {
    let copy = image.copy(alloc).expect(rt, "no copy");
    let (result, after) = attempt(rt, alloc, copy, way, &[]);
    let ends = match wanted {
        Came::Ended(replayed, next, _) => ended(*replayed, *next, true),
        Came::Begun(replayed, next) => ended(*replayed, *next, false),
        Came::Faulty(fault, block) => Err(RecoverFault::BadJournal(*fault, *block)),
        Came::Failed(fault) => Err(*fault),
    };
    assert_eq!(rt; result, ends, "{row:?}");
    if let Came::Ended(_, _, bodies) = wanted {
        for (at, front, rest) in *bodies {
            let found = body(&after, *at).expect(rt, "no block");
            assert!(rt; is_block(found, front, *rest), "{row:?}: {at}");
        }
    }
    if let Came::Begun(..) | Came::Faulty(..) = wanted {
        assert!(rt; are_same(image, &after), "{row:?}");
    }
}

// The image of the log with these features.
fn image_of(rt: &impl Abort, alloc: Global, log: &Log, incompat: u32) -> Image {
    let (maxlen, sequence, start) = log.places;
    let superblock = JournalSuper {
        maxlen,
        first: 1,
        sequence,
        start,
        incompat,
    };
    let mut image = Image::zeroed(alloc, 192).expect(rt, "no image");
    put(&mut image, 9, Block::fill(log.byte));
    put(&mut image, BASE, write_super(&superblock));
    let mut at = BASE;
    for part in log.parts {
        at = at.saturating_add(1);
        put(
            &mut image,
            at,
            log_block(rt, alloc, part, superblock.is_wide()),
        );
    }
    image
}

fn expect_runs(rt: &impl Abort, alloc: Global, logs: &[Log]) {
    for log in logs {
        for incompat in log.features {
            let image = image_of(rt, alloc, log, *incompat);
            for (run, (way, wanted)) in log.runs.iter().enumerate() {
                let row = (log.name, *incompat, run);
                expect_came(rt, alloc, &row, &image, way, wanted);
            }
        }
    }
}

#[test]
fn tells_what_comes_of_a_log(rt: HostRuntime) {
    for table in logs() {
        expect_runs(&rt, rt.alloc(), table);
    }
    attempts_keep_the_recovered_image();
    replays_by_revokes_are_exact();
}

#[test]
fn empties_the_log(rt: HostRuntime) {
    let image = image_of(&rt, rt.alloc(), &MISSING[0], 1);
    let (_, after) = attempt(&rt, rt.alloc(), image, &Way::Whole, &[]);
    let found = body(&after, BASE).expect(&rt, "no superblock");
    let empty = JournalSuper {
        maxlen: 128,
        first: 1,
        sequence: 6,
        start: 0,
        incompat: 1,
    };
    assert!(rt; read_super(found) == Ok(empty));
}

// The next number of a fixed row that looks like chance.
fn next(state: &mut u32) -> u32 {
    *state = (u64::from(*state) * 48_271 % 2_147_483_647) as u32;
    *state
}

// So many steps by default.
const fn defaults(times: u32) -> Repeated {
    Repeated {
        choice: Choice::Default,
        times,
    }
}

// A step by such a number. Its place may be past what is there.
fn drawn(state: &mut u32) -> Repeated {
    let n = next(state);
    let choice = match n % 3 {
        0 => Choice::Transfer(n / 3 % 5),
        1 => Choice::Persist(n / 3 % 5),
        _ => Choice::Default,
    };
    Repeated { choice, times: 1 }
}

// What is left of a recovery that is cut behind up to eight steps by such numbers.
fn cut_by_chance(rt: &impl Abort, alloc: Global, image: Image, state: &mut u32) -> Image {
    let mut list = [defaults(1); 8];
    for choice in &mut list {
        *choice = drawn(state);
    }
    let length = (next(state) % 9) as usize;
    let steer = list.get(..length).unwrap_or(&[]);
    attempt(rt, alloc, image, &Way::Cut, steer).1
}

// Cuts a recovery behind so many steps, which ends by then or not, cuts three others behind it, and then recovers to
// the end.
fn try_cut(
    rt: &impl Abort,
    alloc: Global,
    image: Image,
    count: u32,
    ends: bool,
    state: &mut u32,
) -> Image {
    let (result, mut left) = attempt(rt, alloc, image, &Way::Cut, &[defaults(count)]);
    assert!(rt; result.is_ok_and(|r| r.ended == ends), "{count}");
    for _ in 0..3 {
        left = cut_by_chance(rt, alloc, left, state);
    }
    let (result, last) = attempt(rt, alloc, left, &Way::Whole, &[]);
    assert!(rt; result.is_ok(), "{count}");
    last
}

// After how many steps recoveries are cut. No step is made behind the end, so that the last number takes no time.
const CUTS: [u32; 15] = [0, 1, 2, 3, 4, 5, 6, 7, 8, 9, 10, 11, 12, 13, u32::MAX];

// Recoveries that are cut behind each number of steps lead to one image. It takes `needed` steps to have ended.
fn try_attempts(rt: &impl Abort, alloc: Global, image: &Image, needed: u32, state: &mut u32) {
    let copy = image.copy(alloc).expect(rt, "no copy");
    let (_, whole) = attempt(rt, alloc, copy, &Way::Whole, &[]);
    for count in CUTS {
        let copy = image.copy(alloc).expect(rt, "no copy");
        let last = try_cut(rt, alloc, copy, count, count >= needed, state);
        assert!(rt; are_same(&last, &whole), "{count} of {needed}");
    }
}

#[test]
fn tells_what_is_wrong_with_a_superblock(rt: HostRuntime) {
    for (row, (at, value, wanted)) in SUPER_FAULTS.iter().enumerate() {
        let mut image = image_of(&rt, rt.alloc(), &EMPTY[0], 1);
        let mut superblock = write_super(&FOUR);
        assert!(rt; *at < 1024);
        superblock.set(*at, *value);
        put(&mut image, BASE, superblock);
        let row = ("superblock", 1, row);
        expect_came(&rt, rt.alloc(), &row, &image, &Way::Whole, wanted);
    }
}

// The same of each of these logs whose attempts are cut.
fn try_logs(rt: &impl Abort, alloc: Global, logs: &[Log], state: &mut u32) {
    for log in logs {
        if let Some(needed) = log.steps
            && let Some(incompat) = log.features.first()
        {
            let image = image_of(rt, alloc, log, *incompat);
            try_attempts(rt, alloc, &image, needed, state);
        }
    }
}

#[test]
fn attempts_lead_to_one_image(rt: HostRuntime) {
    let mut state = 1;
    for table in logs() {
        try_logs(&rt, rt.alloc(), table, &mut state);
    }
}
