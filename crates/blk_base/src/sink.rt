//! Sinks of bytes: the trait, one in memory, one over std's writers.
ghost use Rattle.std.specs.Prelude.{◌≡◌, ℕ, ◌<◌, ◌≤◌, ◌⊎◌, List, [], length, Option, Some, None, Ok, IfOk, OnErr};
ghost use Rattle.std.specs.Io.KnownBytes.{WriteAppends};
ghost use Rattle.blk_base.specs.Streams.{Rose};

use crate::Failed;
use std::io::Write;
use std::marker::Model;

/// Something to write bytes to.
pub trait Sink {
    /// The bytes that were taken, where they are told.
    ghost taken: { Self → Option (List ℕ) };

    /// How often a write failed, or took nothing of a piece that is not empty, and nothing else. The count
    /// stands still at the end of a `u64`.
    ghost faults: { Self → ℕ };

    /// Takes some bytes from the front of `buf`.
    fn write(&mut self, buf: &[u8]) -> Result<usize, Failed>
        ensures within { IfOk result (λ n. n ≤ length buf.now) }
        ensures content { WriteAppends (taken self.old) (taken self.new) result buf.now }
        ensures failed { OnErr result (Rose (faults self.old) (faults self.new)) }
        ensures nothing { 0 < length buf.now → result ≡ Ok 0 → Rose (faults self.old) (faults self.new) }
        ensures steady { IfOk result (λ n. (length buf.now ≡ 0) ⊎ (0 < n) → faults self.new ≡ faults self.old) }
        ensures never_falls { faults self.old ≤ faults self.new };
}

/// A sink in memory, some of whose calls fail. A refused allocation is a fault too.
#[derive(Drop)]
pub struct MemSink {
    bytes: Vec<u8>,
    calls: u64,
    fails: Vec<u64>,
    faults: u64,
}

impl Model for MemSink {
    ghost use Rattle.blk_base.specs.Memory.{MemSinkState};

    ghost Value = { MemSinkState };

    ghost view = { λ s. record { taken = s.bytes.items; calls = s.calls; fails = s.fails.items; faults = s.faults } };
}

impl MemSink {
    /// An empty sink. `fails` has the numbers of the writes that are to fail, counted from 1.
    pub fn new(bytes: Vec<u8>, fails: Vec<u64>) -> MemSink
        ensures { result ≡ record { taken = bytes.items; calls = 0; fails = fails.items; faults = 0 } }
    {
        MemSink {
            bytes,
            calls: 0,
            fails,
            faults: 0,
        }
    }

    /// What was taken so far.
    pub fn bytes(&self) -> &[u8]
        ensures { result.now ≡ self.now.taken }
    {
        &self.bytes
    }
}

impl Sink for MemSink {
    ghost taken = { λ s. Some s.taken };

    ghost faults = { λ s. s.faults };

    fn write(&mut self, buf: &[u8]) -> Result<usize, Failed> {
        self.calls = self.calls.saturating_add(1);
        if self.fails.contains(&self.calls) || self.bytes.extend_from_slice(buf).is_err() {
            self.faults = self.faults.saturating_add(1);
            return Err(Failed);
        }
        Ok(buf.len())
    }
}

/// A sink that never fails and keeps nothing.
#[derive(Drop, Default)]
pub struct PlainSink;

impl Sink for PlainSink {
    ghost taken = { λ _. None };

    ghost faults = { λ _. 0 };

    fn write(&mut self, buf: &[u8]) -> Result<usize, Failed> {
        Ok(buf.len())
    }
}

/// A sink over a writer of std, and what was taken is what the writer tells of. A terminal or a file tells nothing.
#[derive(Drop)]
pub struct StdSink<W> {
    writer: W,
    faults: u64,
}

impl<W> StdSink<W> {
    pub fn new(writer: W) -> StdSink<W>
        ensures { result ≡ record { writer = writer; faults = 0 } }
    {
        StdSink { writer, faults: 0 }
    }
}

impl<W: Write> Sink for StdSink<W> {
    ghost taken = { λ s. W.contents s.writer };

    ghost faults = { λ s. s.faults };

    fn write(&mut self, buf: &[u8]) -> Result<usize, Failed> {
        match self.writer.write(buf) {
            Ok(n) => {
                if n == 0 && !buf.is_empty() {
                    self.faults = self.faults.saturating_add(1);
                }
                Ok(n)
            }
            Err(_) => {
                self.faults = self.faults.saturating_add(1);
                Err(Failed)
            }
        }
    }
}
