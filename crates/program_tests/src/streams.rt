//! Each read of the source and each write of the sink fails in turn, for each command; and sinks that take a byte a call, or
//! nothing.
ghost use Rattle.std.specs.Prelude.{None};

use crate::told::{end_of, sink_of, source_of, told};
use blk_base::{Failed, PlainSink, PlainSource, Sink};
use std::alloc::Global;
use std::process::Abort;

const BLOCKS: &[u8] = b"device 1\nput 0 11 free\nevents\nreceive\ntransfer 0\npersist 0\n";

const SESSION: &[u8] =
    b"volume inodes 32 zones 64 journal 128\nthread 1\ncreate /a\nsync\nevents\nround 60\n";

// Words, and the scripts that they read.
static OF_SCRIPTS: [(&[&str], &[u8]); 3] = [
    (&["replay"], BLOCKS),
    (&["replay"], SESSION),
    (&["replay", "--raw"], SESSION),
];

// Words that read an image.
static OF_IMAGES: [&[&str]; 3] = [&["show"], &["widen"], &["widen", "--raw"]];

// A sink that takes one byte a call.
#[derive(Drop)]
struct Trickle {
    bytes: Vec<u8>,
    faults: u64,
}

impl Sink for Trickle {
    ghost taken = { λ _. None };

    ghost faults = { λ s. s.faults };

    fn write(&mut self, buf: &[u8]) -> Result<usize, Failed> {
        let Some(byte) = buf.first() else {
            return Ok(0);
        };
        if self.bytes.push(*byte).is_err() {
            self.faults = self.faults.saturating_add(1);
            return Err(Failed);
        }
        Ok(1)
    }
}

// The status where this read fails, counted from 1, and how much was written.
fn with_failed_read(
    rt: &impl Abort,
    alloc: Global,
    words: &[&str],
    input: &[u8],
    read: u64,
) -> (u8, usize) {
    let mut source = source_of(rt, alloc, input, &[read]);
    let mut sink = sink_of(rt, alloc, &[]);
    let status = end_of(rt, alloc, words, &mut source, &mut sink).status;
    (status, sink.bytes().len())
}

// Lets each read fail in turn, until there are no more.
fn expect_source_faults(rt: &impl Abort, alloc: Global, words: &[&str], input: &[u8]) {
    for read in 1..1000 {
        let (status, written) = with_failed_read(rt, alloc, words, input, read);
        if status == 0 {
            assert!(rt; read > 1, "{words:?}");
            return;
        }
        assert_eq!(rt; (status, written), (5, 0), "{words:?}: read {read}");
    }
    panic!(rt; "{words:?} does not end")
}

// The status where this write fails, whether a front of the whole output went out, and how much.
fn with_failed_write(
    rt: &impl Abort,
    alloc: Global,
    words: &[&str],
    input: &[u8],
    whole: &[u8],
    write: u64,
) -> (u8, bool, usize) {
    let mut source = source_of(rt, alloc, input, &[]);
    let mut sink = sink_of(rt, alloc, &[write]);
    let status = end_of(rt, alloc, words, &mut source, &mut sink).status;
    (status, whole.starts_with(sink.bytes()), sink.bytes().len())
}

// Lets each write fail in turn, until there are no more: a front of the output went out.
fn expect_sink_faults(rt: &impl Abort, alloc: Global, words: &[&str], input: &[u8], whole: &[u8]) {
    for write in 1..1000 {
        let (status, is_front, written) = with_failed_write(rt, alloc, words, input, whole, write);
        if status == 0 {
            assert!(rt;
                write > 1 && is_front && written == whole.len(),
                "{words:?}"
            );
            return;
        }
        assert_eq!(rt; (status, is_front), (6, true), "{words:?}: write {write}");
    }
    panic!(rt; "{words:?} does not end")
}

// A sink that takes one byte a call gets the same output.
fn expect_all_by_bytes(rt: &impl Abort, alloc: Global, words: &[&str], input: &[u8], whole: &[u8]) {
    let mut source = source_of(rt, alloc, input, &[]);
    let mut sink = Trickle {
        bytes: Vec::new(alloc),
        faults: 0,
    };
    let status = end_of(rt, alloc, words, &mut source, &mut sink).status;
    assert_eq!(rt; (status, sink.bytes.as_slice()), (0, whole), "{words:?}");
}

// What goes out where a write fails, and where a call takes one byte, beside the whole output.
fn expect_writes(rt: &impl Abort, alloc: Global, words: &[&str], input: &[u8]) {
    let whole = told(rt, alloc, words, input);
    expect_sink_faults(rt, alloc, words, input, &whole);
    expect_all_by_bytes(rt, alloc, words, input, &whole);
}

// Each way to read this image, with each read that fails.
fn expect_source_faults_of_images(rt: &impl Abort, alloc: Global, image: &[u8]) {
    for words in &OF_IMAGES {
        expect_source_faults(rt, alloc, words, image);
    }
}

#[test]
fn tells_of_each_read_that_fails(rt: HostRuntime) {
    let alloc = rt.alloc();
    for (words, input) in &OF_SCRIPTS {
        expect_source_faults(&rt, alloc, words, input);
    }
    let image = told(&rt, alloc, &["make", "32", "64", "128"], b"");
    expect_source_faults_of_images(&rt, alloc, &image);
}

// Each way to read this image, with each write that fails.
fn expect_writes_of_images(rt: &impl Abort, alloc: Global, image: &[u8]) {
    for words in &OF_IMAGES {
        expect_writes(rt, alloc, words, image);
    }
}

#[test]
fn tells_of_each_write_that_fails(rt: HostRuntime) {
    let alloc = rt.alloc();
    for (words, input) in &OF_SCRIPTS {
        expect_writes(&rt, alloc, words, input);
    }
    expect_writes(&rt, alloc, &["make", "32", "64", "128"], b"");
    let image = told(&rt, alloc, &["make", "32", "64", "128"], b"");
    expect_writes_of_images(&rt, alloc, &image);
}

// A sink that takes nothing.
#[derive(Drop)]
struct Stuck {
    faults: u64,
}

impl Sink for Stuck {
    ghost taken = { λ _. None };

    ghost faults = { λ s. s.faults };

    fn write(&mut self, buf: &[u8]) -> Result<usize, Failed> {
        if !buf.is_empty() {
            self.faults = self.faults.saturating_add(1);
        }
        Ok(0)
    }
}

#[test]
fn tells_of_a_sink_that_takes_nothing(rt: HostRuntime) {
    let alloc = rt.alloc();
    let mut source = source_of(&rt, alloc, b"device 1\nevents\n", &[]);
    let mut sink = Stuck { faults: 0 };
    let status = end_of(&rt, alloc, &["replay"], &mut source, &mut sink).status;
    assert_eq!(rt; (status, sink.faults), (6, 1));
}

#[test]
fn reads_and_writes_plainly(rt: HostRuntime) {
    let mut source = PlainSource::new(b"device 1\nevents\n");
    let ended = end_of(&rt, rt.alloc(), &["replay"], &mut source, &mut PlainSink);
    assert_eq!(rt; ended.status, 0);
}
