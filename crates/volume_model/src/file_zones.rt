//! The mapped blocks of a file that changes.
ghost use Rattle.std.specs.Prelude.{◌≡◌, ◌+◌, ◌^◌, ◌<◌, ◌≤◌, nat_lt, [], OnOk, OnErr, length, take, vec_capacity, filter};
ghost use Rattle.std.specs.List.{range_with_len};
ghost use Rattle.volume_ops.specs.declared.found.Mapped.{Mapped};
ghost use Rattle.number_sets.specs.laws.Keyed.{IsKeyPlace};
ghost use Rattle.volume_model.specs.Holes.{IsRising, with_hole, with_holes, with_zone};

use blk_base::NoMemory;
use std::alloc::Global;
use std::marker::Model;
use volume_ops::Mapped;

/// The mapped blocks of a file, in rising order of index. Each call looks for an index by halves.
#[derive(Drop)]
pub struct FileZones {
    items: Vec<Mapped>,
}

impl Model for FileZones {
    ghost use Rattle.std.specs.Prelude.{List};
    ghost use Rattle.volume_ops.specs.declared.found.Mapped.{Mapped};
    ghost use Rattle.volume_model.specs.Holes.{IsRising};

    ghost Value = { List Mapped };

    ghost view = { λ z. z.items.items };

    ghost invariant = { λ z. IsRising z.items.items };
}

impl FileZones {
    /// No blocks. It takes no memory.
    pub fn new(alloc: Global) -> FileZones
        ensures { result ≡ [] }
    {
        FileZones {
            items: Vec::new(alloc),
        }
    }

    /// The blocks that a walk found.
    pub fn of(items: Vec<Mapped>) -> FileZones
        requires { IsRising items.items }
        ensures { result ≡ items.items }
    {
        FileZones { items }
    }

    pub fn as_slice(&self) -> &[Mapped]
        ensures { result.now ≡ self.now }
    {
        &self.items
    }

    /// Puts in the blocks from `first` on that are not there, `count` in all, with zone 0. A file that ends before them
    /// is not moved.
    pub fn add_holes(&mut self, first: u32, count: u32) -> Result<(), NoMemory>
        requires { first + count < 2 ^ 32 }
        ensures ok { OnOk result (self.new ≡ with_holes self.old (range_with_len first count)) }
        ensures err { OnErr result (self.new ≡ self.old) }
    {
        self.items.reserve(count as usize)?;
        put_holes(&mut self.items, first, count);
        Ok(())
    }

    /// Gives the block with this index another zone, if it is there.
    pub fn set_zone(&mut self, index: u32, zone: u16)
        ensures { self.new ≡ with_zone self.old index zone }
    {
        if let Ok(at) = place_of(&self.items, index) {
            self.items[at] = Mapped { index, zone };
        }
    }

    /// Takes out all blocks from an index on.
    pub fn cut(&mut self, from: u32)
        ensures { self.new ≡ filter (λ m. nat_lt m.index from) self.old }
    {
        let at = first_from(&self.items, from);
        self.items.truncate(at);
    }
}

// The place of the block with this index, or else the place where it would stand.
fn place_of(items: &[Mapped], index: u32) -> Result<usize, usize>
    requires { IsRising items.now }
    ensures { IsKeyPlace (λ (m : Mapped). m.index) items.now index result }
{
    items.binary_search_by_key(&index, |m| m.index)
}

// The place of the first block from an index on.
fn first_from(items: &[Mapped], from: u32) -> usize
    requires { IsRising items.now }
    ensures { take result items.now ≡ filter (λ m. nat_lt m.index from) items.now }
{
    items.partition_point(|m| m.index < from)
}

// Puts in blocks with zone 0, each if it is not there.
fn put_holes(items: &mut Vec<Mapped>, first: u32, count: u32)
    requires rising { IsRising items.old.items }
    requires room { length items.old.items + count ≤ vec_capacity items.old }
    requires high { first + count < 2 ^ 32 }
    ensures { items.new.items ≡ with_holes items.old.items (range_with_len first count) }
{
    for index in first..first + count {
        put_hole(items, index);
    }
}

// Puts in a block with zone 0, if it is not there.
fn put_hole(items: &mut Vec<Mapped>, index: u32)
    requires rising { IsRising items.old.items }
    requires room { length items.old.items < vec_capacity items.old }
    ensures items { items.new.items ≡ with_hole items.old.items index }
    ensures capacity { vec_capacity items.old ≤ vec_capacity items.new }
{
    if let Err(at) = place_of(items, index) {
        let _ = items.insert(at, Mapped { index, zone: 0 });
    }
}
