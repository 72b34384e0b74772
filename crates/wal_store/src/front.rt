//! A block that is written from its front, in zeros.
ghost use Rattle.std.specs.Prelude.{◌≡◌, ◌+◌, ◌-◌, ◌≤◌, ◌++◌, [], length};
ghost use Rattle.byte_fields.specs.Fields.{zeros};

use blk_base::Block;
use byte_fields::zeroed;
use std::marker::Model;

/// The front of a block, as far as it is written.
#[derive(Drop)]
pub(crate) struct Front {
    bytes: [u8; 1024],
    at: usize,
}

impl Model for Front {
    ghost use Rattle.std.specs.Prelude.{List, ℕ, take};
    ghost use Rattle.wal_store.specs.code.{IsFront};

    ghost Value = { List ℕ };

    ghost view = { λ f. take f.at f.bytes };

    ghost invariant = { λ f. IsFront f.at f.bytes };
}

impl Front {
    pub(crate) fn new() -> Front
        ensures { result ≡ [] }
    {
        Front {
            bytes: zeroed::<1024>(),
            at: 0,
        }
    }

    /// Writes these bytes behind what is written.
    pub(crate) fn put(&mut self, more: &[u8])
        requires { length self.old + length more.now ≤ 1024 }
        ensures value { self.new ≡ self.old ++ more.now }
        ensures len { length self.new ≡ length self.old + length more.now }
    {
        let end = self.at + more.len();
        self.bytes[self.at..end].copy_from_slice(more);
        self.at = end;
    }

    /// The whole block, with zeros behind what is written.
    pub(crate) fn block(self) -> Block
        ensures { result ≡ self ++ zeros (1024 - length self) }
    {
        Block::of(&self.bytes)
    }
}
