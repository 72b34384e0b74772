//! What the top call makes of some words and an input, over sources and sinks in memory.
use barrierfs_top::{Ended, Words, run_words};
use blk_base::{MemSink, MemSource, Sink, Source};
use std::alloc::Global;
use std::process::Abort;

/// The words of a command line.
pub fn words_of(rt: &impl Abort, alloc: Global, list: &[&str]) -> Words {
    let mut words = Words::make(alloc);
    for word in list {
        let pushed: Result<_, _> = words.push(alloc, word);
        pushed.expect(rt, "no memory");
    }
    words
}

/// How the program ends with these words.
pub fn end_of<R: Source, W: Sink>(
    rt: &impl Abort,
    alloc: Global,
    list: &[&str],
    src: &mut R,
    out: &mut W,
) -> Ended {
    let words = words_of(rt, alloc, list);
    run_words(alloc, &words, src, out)
}

/// A source of these bytes, and the numbers of its reads that fail, counted from 1.
pub fn source_of(rt: &impl Abort, alloc: Global, bytes: &[u8], fails: &[u64]) -> MemSource {
    MemSource::new(
        bytes.to_vec(alloc).expect(rt, "no memory"),
        fails.to_vec(alloc).expect(rt, "no memory"),
    )
}

/// An empty sink, and the numbers of its writes that fail.
pub fn sink_of(rt: &impl Abort, alloc: Global, fails: &[u64]) -> MemSink {
    MemSink::new(Vec::new(alloc), fails.to_vec(alloc).expect(rt, "no memory"))
}

/// How these words end on the input, and what they write.
pub fn ended(rt: &impl Abort, alloc: Global, list: &[&str], input: &[u8]) -> (Ended, Vec<u8>) {
    let mut source = source_of(rt, alloc, input, &[]);
    let mut sink = sink_of(rt, alloc, &[]);
    let ended = end_of(rt, alloc, list, &mut source, &mut sink);
    let written = sink.bytes().to_vec(alloc).expect(rt, "no memory");
    (ended, written)
}

/// What these words write of the input, which they end well on.
pub fn told(rt: &impl Abort, alloc: Global, list: &[&str], input: &[u8]) -> Vec<u8> {
    let (ended, written) = ended(rt, alloc, list, input);
    assert_eq!(rt; ended.status, 0, "{list:?}");
    written
}
