//! The device's cache: its entries in order, in which a put finds the entry that it replaces by its block.
ghost use Rattle.std.specs.Prelude.{◌≡◌, ℕ, ◌+◌, ◌^◌, ◌<◌, ◌≤◌, ◌==◌, ◌++◌, ◌∷◌, true, false, List, [], length, Some, None, IfOk, MatchOption, slice_get, slice_set};
ghost use Rattle.std.specs.List.{All, list_any};
ghost use Rattle.order_model.specs.declared.part.Part.{Part};
ghost use Rattle.device_epochs.specs.Cache.{same_place, put_entry, entries, put_all, oldest, without_entry};
ghost use Rattle.device_epochs.specs.code.Helpers.{IsPlain, EndsAt, IsPlaceOf};
ghost use Rattle.device_epochs.specs.code.Newest.{newest_place, HasBlockAt};

use blk_base::NoMemory;
use order_model::Part;
use std::alloc::Global;
use std::collections::VecDeque;
use std::marker::Model;

/// A part in the cache, by its place among all parts taken, with its epoch and its block.
#[derive(Clone, Copy, PartialEq, Eq, Debug)]
pub struct Entry {
    pub epoch: u64,
    pub block: u32,
    pub part: u64,
}

/// The entries in order, and the newest one of each block.
///
/// The place of an entry changes when one before it leaves. Its key does not, so that the table by block
/// stays as it is then.
#[derive(Drop)]
pub(crate) struct Cache {
    entries: VecDeque<Entry>,
    // The key of each entry. Keys rise along the list.
    keys: VecDeque<u64>,
    // For each block the key of its newest entry, or what that was once it has none.
    newest_keys: Vec<u64>,
    // How many entries were appended, which is the next key.
    appended: u64,
}

impl Model for Cache {
    ghost use Rattle.device_epochs.specs.code.Newest.{CacheState, cache_of, IsCache};

    ghost Value = { CacheState };

    ghost view = { cache_of };

    ghost invariant = { IsCache };
}

impl Cache {
    /// No entry yet, with room for so many entries, of so many blocks. No other call takes memory.
    pub(crate) fn make(alloc: Global, room: usize, blocks: u32) -> Result<Cache, NoMemory>
        ensures { IfOk result (λ c. c ≡ record { items = []; blocks = blocks; room = room; appended = 0 }) }
    {
        Ok(Cache {
            entries: VecDeque::with_capacity(alloc, room)?,
            keys: VecDeque::with_capacity(alloc, room)?,
            newest_keys: Vec::from_elem(alloc, 0, blocks as usize)?,
            appended: 0,
        })
    }

    pub(crate) fn is_empty(&self) -> bool
        ensures { result ≡ (length self.now.items == 0) }
    {
        self.entries.is_empty()
    }

    // The place of the newest entry of this block. What stands at the place that its key leads to tells
    // whether there is one.
    fn newest(&self, block: u32) -> Option<usize>
        requires { block < self.now.blocks }
        ensures { result ≡ newest_place self.now.items block }
    {
        let key = self.newest_keys[block as usize];
        let place = self.keys.partition_point(|k| *k < key);
        if place < self.entries.len() && self.entries[place].block == block {
            Some(place)
        } else {
            None
        }
    }

    // The place of the entry of the epoch and block of `e`. No entry is of a later epoch, so it is the newest
    // one of its block.
    fn find_place(&self, e: Entry) -> Option<usize>
        requires block { e.block < self.now.blocks }
        requires plain { IsPlain self.now.items }
        requires last { EndsAt e.epoch self.now.items }
        ensures { MatchOption result (list_any (same_place e) self.now.items ≡ false) (IsPlaceOf e self.now.items) }
    {
        let place = self.newest(e.block)?;
        if self.entries[place].epoch == e.epoch {
            Some(place)
        } else {
            None
        }
    }

    // An entry takes the place of another one of its block.
    fn replace(&mut self, place: usize, e: Entry)
        requires { HasBlockAt e.block self.old.items place }
        ensures { self.new ≡ record { items = slice_set self.old.items place e; blocks = self.old.blocks; room = self.old.room; appended = self.old.appended } }
    {
        self.entries[place] = e;
    }

    // An entry goes to the end, as the newest one of its block.
    fn append(&mut self, e: Entry)
        requires room { length self.old.items < self.old.room }
        requires block { e.block < self.old.blocks }
        requires appended { self.old.appended + 1 < 2 ^ 64 }
        ensures { self.new ≡ record { items = self.old.items ++ e ∷ []; blocks = self.old.blocks; room = self.old.room; appended = self.old.appended + 1 } }
    {
        self.entries.push_back_reserved(e);
        self.keys.push_back_reserved(self.appended);
        self.newest_keys[e.block as usize] = self.appended;
        self.appended += 1;
    }

    // An entry goes in, where one may be of its epoch and block, or at the end.
    fn put_entry(&mut self, e: Entry)
        requires room { length self.old.items < self.old.room }
        requires block { e.block < self.old.blocks }
        requires appended { self.old.appended + 1 < 2 ^ 64 }
        requires plain { IsPlain self.old.items }
        requires last { EndsAt e.epoch self.old.items }
        ensures items { self.new.items ≡ put_entry e self.old.items }
        ensures blocks { self.new.blocks ≡ self.old.blocks }
        ensures room { self.new.room ≡ self.old.room }
        ensures appended { self.new.appended ≤ self.old.appended + 1 }
    {
        match self.find_place(e) {
            Some(place) => self.replace(place, e),
            None => self.append(e),
        }
    }

    /// The parts of one command go in, as entries of this epoch. The first of them stands at this place among
    /// all parts taken.
    pub(crate) fn put_parts(&mut self, epoch: u64, first: u64, parts: &[Part])
        requires room { length self.old.items + length parts.now ≤ self.old.room }
        requires blocks { All (λ (p : Part). p.block < self.old.blocks) parts.now }
        requires appended { self.old.appended + length parts.now < 2 ^ 64 }
        requires plain { IsPlain self.old.items }
        requires last { EndsAt epoch self.old.items }
        requires places { first + length parts.now < 2 ^ 64 }
        ensures items { self.new.items ≡ put_all (entries epoch first parts.now) self.old.items }
        ensures blocks { self.new.blocks ≡ self.old.blocks }
        ensures room { self.new.room ≡ self.old.room }
        ensures appended { self.new.appended ≤ self.old.appended + length parts.now }
    {
        let mut place = first;
        for part in parts {
            self.put_entry(Entry {
                epoch,
                block: part.block,
                part: place,
            });
            place += 1;
        }
    }

    /// How many entries may be written next: those of the oldest epoch, which stand at the front.
    pub(crate) fn count_oldest(&self) -> usize
        requires { IsPlain self.now.items }
        ensures count { result ≡ length (oldest self.now.items) }
        ensures within { result ≤ length self.now.items }
    {
        let Some(first) = self.entries.front() else {
            return 0;
        };
        let epoch = first.epoch;
        self.entries.partition_point(|e| e.epoch <= epoch)
    }

    /// Takes out the entry at place `pick` of those that may be written next.
    pub(crate) fn take_entry(&mut self, pick: usize) -> Option<Entry>
        requires { IsPlain self.old.items }
        ensures entry { result ≡ slice_get (oldest self.old.items) pick }
        ensures rest { MatchOption result (self.new.items ≡ self.old.items) (λ e. self.new.items ≡ without_entry e self.old.items) }
        ensures blocks { self.new.blocks ≡ self.old.blocks }
        ensures room { self.new.room ≡ self.old.room }
        ensures appended { self.new.appended ≡ self.old.appended }
    {
        if pick >= self.entries.len() {
            return None;
        }
        let entry = self.entries[pick];
        if entry.epoch != self.entries[0].epoch {
            return None;
        }
        self.keys.remove(pick);
        self.entries.remove(pick)
    }
}
