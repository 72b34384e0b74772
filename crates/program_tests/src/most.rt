//! Scripts with as many lines, words and digits as there may be, and one more, and an input of as many bytes.
use crate::told::ended;
use barrierfs_top::TopFault;
use script_grammar::ScriptKind::{Number, Word};
use std::alloc::Global;
use std::process::Abort;

/// What stands before a piece, the piece, how often it stands there, and what stands behind it.
type Text = (&'static str, &'static str, u32, &'static str);

const THREAD: &str = "volume inodes 32 zones 64 journal 128\nthread 1\n";

const EVENTS: &str = "volume inodes 32 zones 64 journal 128\nevents\n";

const RECOVER: &str = "volume inodes 32 zones 64 journal 128\nevents\nrecover";

const BYTES: &str = "volume inodes 32 zones 64 journal 128\nthread 1\nbytes /a 0 ";

// Scripts, each with its fault.
static SCRIPTS: [(Text, Option<TopFault>); 11] = [
    (("device 4\n", "put 0 1a free\n", 10_000, "events\n"), None),
    (
        ("device 4\n", "put 0 1a free\n", 10_000, "flush\n"),
        Some(TopFault::Script(10_002, Number)),
    ),
    // The limit is one of each thread.
    ((THREAD, "sync\n", 10_000, "thread 2\nsync\nevents\n"), None),
    (
        (THREAD, "sync\n", 10_001, ""),
        Some(TopFault::Script(10_003, Number)),
    ),
    ((EVENTS, "recover t0\n", 100, ""), None),
    (
        (EVENTS, "recover t0\n", 101, ""),
        Some(TopFault::Script(103, Number)),
    ),
    ((RECOVER, " t0", 1_000, "\n"), None),
    (
        (RECOVER, " t0", 1_001, "\n"),
        Some(TopFault::Script(3, Word)),
    ),
    ((BYTES, "61", 1_024, "\nevents\n"), None),
    (
        (BYTES, "61", 1_025, "\nevents\n"),
        Some(TopFault::Script(3, Word)),
    ),
    // 4,194,304 bytes.
    (("device 1\nevents\n#", "#", 4_194_287, ""), None),
];

// One byte more.
static TOO_LONG: Text = ("device 1\nevents\n#", "#", 4_194_288, "");

fn put(rt: &impl Abort, text: &mut Vec<u8>, piece: &str) {
    let pushed: Result<(), _> = text.extend_from_slice(piece.as_bytes());
    pushed.expect(rt, "no memory");
}

fn made(rt: &impl Abort, alloc: Global, text: &Text) -> Vec<u8> {
    let (head, piece, count, rest) = *text;
    let mut made = Vec::new(alloc);
    put(rt, &mut made, head);
    for _ in 0..count {
        put(rt, &mut made, piece);
    }
    put(rt, &mut made, rest);
    made
}

// How a replay of such a text ends: its fault, and whether a script was run.
fn end_of(rt: &impl Abort, alloc: Global, text: &Text) -> (Option<TopFault>, bool) {
    let script = made(rt, alloc, text);
    let (ended, _) = ended(rt, alloc, &["replay"], &script);
    (ended.fault, ended.reported)
}

#[test]
fn takes_just_so_much(rt: HostRuntime) {
    for (text, fault) in &SCRIPTS {
        let found = end_of(&rt, rt.alloc(), text);
        assert_eq!(rt; found, (*fault, fault.is_none()), "{text:?}");
    }
    let found = end_of(&rt, rt.alloc(), &TOO_LONG);
    assert_eq!(rt; found, (Some(TopFault::TooLong), false));
}
