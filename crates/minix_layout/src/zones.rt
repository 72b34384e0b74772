//! The zones of an inode.
ghost use Rattle.std.specs.Prelude.{◌≡◌, ◌<◌, length, slice_index, slice_set};

use std::marker::Model;

/// The nine zones of an inode, as their numbers.
#[derive(Drop, Debug, PartialEq, Eq)]
pub struct Zones {
    numbers: [u16; 9],
}

impl Model for Zones {
    ghost use Rattle.std.specs.Prelude.{◌≡◌, List, ℕ, length};

    ghost Value = { List ℕ };

    ghost view = { λ z. z.numbers };

    ghost invariant = { λ z. length z.numbers ≡ 9 };

    ghost inverse = { λ numbers. record { numbers = numbers } };
}

impl Zones {
    /// These nine zones.
    pub fn of(numbers: [u16; 9]) -> Zones
        ensures { result ≡ numbers }
    {
        Zones { numbers }
    }

    /// The nine zones in order.
    pub fn as_slice(&self) -> &[u16]
        ensures value { result.now ≡ self.now }
        ensures len { length result.now ≡ 9 }
    {
        &self.numbers
    }

    /// The zone at place `k` of nine.
    pub fn zone(&self, k: usize) -> u16
        requires { k < 9 }
        ensures { result ≡ slice_index self.now k }
    {
        self.numbers[k]
    }

    /// Writes the zone at place `k` of nine.
    pub fn set(&mut self, k: usize, zone: u16)
        requires { k < 9 }
        ensures { self.new ≡ slice_set self.old k zone }
    {
        self.numbers[k] = zone;
    }
}
