//! Sources of bytes: the trait, one in memory, one over std's readers.
ghost use Rattle.std.specs.Prelude.{◌≡◌, ℕ, ◌≤◌, List, [], length, Option, Some, IfOk, OnOk, OnErr, None, min, take};
ghost use Rattle.std.specs.Io.KnownBytes.{ReadConsumes};
ghost use Rattle.blk_base.specs.Streams.{Rose};

use std::io::Read;
use std::marker::Model;

/// A read or a write failed.
#[derive(Clone, Copy, Debug, PartialEq, Eq)]
pub struct Failed;

/// Something to read bytes from.
pub trait Source {
    /// The bytes that are left, where they are told.
    ghost left: { Self → Option (List ℕ) };

    /// How often a read failed, and nothing else. The count stands still at the end of a `u64`.
    ghost faults: { Self → ℕ };

    /// Reads some bytes to the front of `buf`. No byte for a buffer that is not empty is the end of the input.
    fn read(&mut self, buf: &mut [u8]) -> Result<usize, Failed>
        ensures within { IfOk result (λ n. n ≤ length buf.old) }
        ensures content { ReadConsumes (left self.old) (left self.new) result buf.new }
        ensures failed { OnErr result (Rose (faults self.old) (faults self.new)) }
        ensures steady { OnOk result (faults self.new ≡ faults self.old) }
        ensures never_falls { faults self.old ≤ faults self.new };
}

/// A source over bytes in memory, some of whose calls fail.
#[derive(Drop)]
pub struct MemSource {
    bytes: Vec<u8>,
    at: usize,
    calls: u64,
    fails: Vec<u64>,
    faults: u64,
}

impl Model for MemSource {
    ghost use Rattle.std.specs.Prelude.{◌≤◌, drop, vec_len};
    ghost use Rattle.blk_base.specs.Memory.{MemSourceState};

    ghost Value = { MemSourceState };

    ghost view = { λ s. record { left = drop s.at s.bytes.items; calls = s.calls; fails = s.fails.items; faults = s.faults } };

    ghost invariant = { λ s. s.at ≤ vec_len s.bytes };
}

impl MemSource {
    /// `fails` has the numbers of the reads that are to fail, counted from 1.
    pub fn new(bytes: Vec<u8>, fails: Vec<u64>) -> MemSource
        ensures { result ≡ record { left = bytes.items; calls = 0; fails = fails.items; faults = 0 } }
    {
        MemSource {
            bytes,
            at: 0,
            calls: 0,
            fails,
            faults: 0,
        }
    }
}

impl Source for MemSource {
    ghost left = { λ s. Some s.left };

    ghost faults = { λ s. s.faults };

    fn read(&mut self, buf: &mut [u8]) -> Result<usize, Failed> {
        self.calls = self.calls.saturating_add(1);
        if self.fails.contains(&self.calls) {
            self.faults = self.faults.saturating_add(1);
            return Err(Failed);
        }
        let n = copy_front(buf, &self.bytes[self.at..]);
        self.at += n;
        Ok(n)
    }
}

/// A source over bytes that never fails.
#[derive(Drop)]
pub struct PlainSource<'a> {
    bytes: &'a [u8],
}

impl<'a> PlainSource<'a> {
    pub fn new(bytes: &'a [u8]) -> PlainSource<'a>
        ensures left { ⟦<PlainSource<'a> as Source>⟧.left result ≡ Some bytes.entry.now }
        ensures faults { ⟦<PlainSource<'a> as Source>⟧.faults result ≡ 0 }
    {
        PlainSource { bytes }
    }
}

impl Source for PlainSource<'_> {
    ghost left = { λ s. Some s.bytes.now };

    ghost faults = { λ _. 0 };

    fn read(&mut self, buf: &mut [u8]) -> Result<usize, Failed> {
        let n = copy_front(buf, self.bytes);
        let (_, rest) = self.bytes.split_at(n);
        self.bytes = rest;
        Ok(n)
    }
}

/// A source over a reader of std. What is left to read is known only of a reader in memory: a terminal or a file tells nothing.
#[derive(Drop)]
pub struct StdSource<R> {
    reader: R,
    faults: u64,
}

impl<R> StdSource<R> {
    pub fn new(reader: R) -> StdSource<R>
        ensures { result ≡ record { reader = reader; faults = 0 } }
    {
        StdSource { reader, faults: 0 }
    }
}

impl<R: Read> Source for StdSource<R> {
    ghost left = { λ s. R.remaining s.reader };

    ghost faults = { λ s. s.faults };

    fn read(&mut self, buf: &mut [u8]) -> Result<usize, Failed> {
        match self.reader.read(buf) {
            Ok(n) => Ok(n),
            Err(_) => {
                self.faults = self.faults.saturating_add(1);
                Err(Failed)
            }
        }
    }
}

// Copies as many bytes as fit to the front of `buf`, and says how many.
fn copy_front(buf: &mut [u8], bytes: &[u8]) -> usize
    ensures count { result ≡ min (length buf.old) (length bytes.now) }
    ensures copied { take result buf.new ≡ take result bytes.now }
{
    let n = buf.len().min(bytes.len());
    buf[..n].copy_from_slice(&bytes[..n]);
    n
}
