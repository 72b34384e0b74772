//! Runs of which one thread is refused: all others end, and nothing is written.
use crate::gates::Without;
use crate::told::{sink_of, source_of, words_of};
use barrierfs_top::do_words;
use std::alloc::Global;
use std::process::Abort;
use std::sync::Wait;
use std::thread::Threads;

const SCRIPT: &[u8] =
    b"volume inodes 32 zones 64 journal 128\nthread 1\ncreate /a\nwrite /a 0 1000 61\nfsync /a\nthread 2\ncreate /b\nsync\nevents\n";

// With which status the program ends, and whether it writes anything, where the thread of this worker is refused.
fn ends_without<H: Threads + Wait + Sync + Abort>(rt: &H, alloc: Global, who: u32) -> (u8, bool) {
    let words = words_of(rt, alloc, &["run"]);
    let mut source = source_of(rt, alloc, SCRIPT, &[]);
    let mut sink = sink_of(rt, alloc, &[]);
    let ended = do_words(rt, alloc, &words, &mut source, &mut sink, &Without { who });
    (ended.status, !sink.bytes().is_empty())
}

// Each of the eight workers in turn: the first is refused before any other has begun, the last once all others are at work.
#[test]
fn a_thread_that_is_refused_ends_the_run(rt: HostRuntime) {
    for who in [1, 2, 101, 102, 103, 104, 105, 106] {
        assert_eq!(rt;
            ends_without(&rt, rt.alloc(), who),
            (8, false),
            "worker {who}"
        );
    }
}

#[test]
fn a_run_without_a_refusal_ends_well(rt: HostRuntime) {
    assert_eq!(rt; ends_without(&rt, rt.alloc(), 3), (0, true));
}
