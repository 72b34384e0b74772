//! A block that is written from its front, in zeros.
ghost use Rattle.std.specs.Prelude.{◌≡◌, ◌+◌, ◌-◌, ◌<◌, ◌≤◌, ◌^◌, ◌++◌, [], length};
ghost use Rattle.byte_fields.specs.Fields.{zeros, bytes_of};
ghost use Rattle.byte_fields.specs.Fields.Order.{big};

use crate::numbers::put_u64_be;
use blk_base::Block;
use byte_fields::{put_u16_be, put_u32_be, zeroed};
use std::marker::Model;

/// The front of a block, as far as it is written.
#[derive(Drop)]
pub(crate) struct Cursor {
    bytes: [u8; 1024],
    at: usize,
}

impl Model for Cursor {
    ghost use Rattle.std.specs.Prelude.{List, ℕ, take};
    ghost use Rattle.journal_blocks.specs.code.{IsFront};

    ghost Value = { List ℕ };

    ghost view = { λ c. take c.at c.bytes };

    ghost invariant = { λ c. IsFront c.at c.bytes };
}

impl Cursor {
    pub(crate) fn new() -> Cursor
        ensures { result ≡ [] }
    {
        Cursor {
            bytes: zeroed::<1024>(),
            at: 0,
        }
    }

    pub(crate) fn put_u16(&mut self, n: u16)
        requires { length self.old + 2 ≤ 1024 }
        ensures value { self.new ≡ self.old ++ bytes_of big 2 n }
        ensures len { length self.new ≡ length self.old + 2 }
    {
        put_u16_be(&mut self.bytes, self.at, n);
        self.at += 2;
    }

    pub(crate) fn put_u32(&mut self, n: u32)
        requires { length self.old + 4 ≤ 1024 }
        ensures value { self.new ≡ self.old ++ bytes_of big 4 n }
        ensures len { length self.new ≡ length self.old + 4 }
        ensures fits { n < 2 ^ 32 }
    {
        put_u32_be(&mut self.bytes, self.at, n);
        self.at += 4;
    }

    pub(crate) fn put_u64(&mut self, n: u64)
        requires { length self.old + 8 ≤ 1024 }
        ensures value { self.new ≡ self.old ++ bytes_of big 8 n }
        ensures len { length self.new ≡ length self.old + 8 }
    {
        put_u64_be(&mut self.bytes, self.at, n);
        self.at += 8;
    }

    /// Leaves so many bytes of 0.
    pub(crate) fn skip(&mut self, n: usize)
        requires { length self.old + n ≤ 1024 }
        ensures value { self.new ≡ self.old ++ zeros n }
        ensures len { length self.new ≡ length self.old + n }
    {
        self.at += n;
    }

    /// The whole block, with zeros behind what is written.
    pub(crate) fn block(self) -> Block
        ensures value { result ≡ self ++ zeros (1024 - length self) }
    {
        Block::of(&self.bytes)
    }
}
