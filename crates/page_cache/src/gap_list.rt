//! A list in which changes that stand close together cost little.
ghost use Rattle.std.specs.Prelude.{◌≡◌, ◌+◌, ◌≤◌, ◌<◌, ◌⊎◌, [], length, slice_index_or, IfOk, OnOk};
ghost use Rattle.std.specs.List.{insert, remove, slice_get};
ghost use Rattle.std.specs.VecDeque.{deque_capacity};
ghost use Rattle.page_cache.specs.code.Gap.{turned};

use blk_base::NoMemory;
use std::alloc::Global;
use std::collections::VecDeque;
use std::marker::Model;

/// A list with a gap, at which an item comes or goes without moving others. The gap is where the last change was; a
/// change elsewhere moves what stands between.
#[derive(Drop)]
pub struct GapList<T> {
    // What stands behind the gap, and then what stands before it.
    ring: VecDeque<T>,
    behind: usize,
}

impl<T> Model for GapList<T> {
    ghost use Rattle.std.specs.Prelude.{◌≤◌, length};
    ghost use Rattle.std.specs.VecDeque.{deque_capacity};
    ghost use Rattle.page_cache.specs.code.Gap.{Listed, turned};

    ghost Value = { Listed T };

    ghost view = { λ l. record { items = turned l.behind l.ring.items; capacity = deque_capacity l.ring } };

    ghost invariant = { λ l. l.behind ≤ length l.ring.items };
}

// How far the ring turns until the gap is at this place.
fn distance(len: usize, behind: usize, at: usize) -> usize
    requires behind { behind ≤ len }
    requires place { at ≤ len }
    ensures within { result ≤ len }
    ensures far { (result ≡ behind + at) ⊎ (result + len ≡ behind + at) }
{
    let before = len - behind;
    if at < before {
        behind + at
    } else {
        at - before
    }
}

// The gap moves to this place, by the shorter way round. What is left of the list stands behind it.
fn turn<T>(ring: &mut VecDeque<T>, behind: usize, at: usize) -> usize
    requires behind { behind ≤ length ring.old.items }
    requires place { at ≤ length ring.old.items }
    ensures items { turned result ring.new.items ≡ turned behind ring.old.items }
    ensures behind { result + at ≡ length ring.old.items }
    ensures len { length ring.new.items ≡ length ring.old.items }
    ensures capacity { deque_capacity ring.new ≡ deque_capacity ring.old }
{
    let len = ring.len();
    ring.rotate_left(distance(len, behind, at));
    len - at
}

impl<T: Copy> GapList<T> {
    /// An empty list with room for so many items.
    pub fn with_capacity(alloc: Global, capacity: usize) -> Result<GapList<T>, NoMemory>
        ensures items { IfOk result (λ l. l.items ≡ []) }
        ensures capacity { IfOk result (λ l. capacity ≤ l.capacity) }
    {
        Ok(GapList {
            ring: VecDeque::with_capacity(alloc, capacity)?,
            behind: 0,
        })
    }

    /// Makes room for so many items besides those that are there.
    pub fn reserve(&mut self, more: usize) -> Result<(), NoMemory>
        ensures items { self.new.items ≡ self.old.items }
        ensures capacity { self.old.capacity ≤ self.new.capacity }
        ensures ok { OnOk result (length self.new.items + more ≤ self.new.capacity) }
    {
        Ok(self.ring.reserve(more)?)
    }

    pub fn len(&self) -> usize
        ensures { result ≡ length self.now.items }
    {
        self.ring.len()
    }

    /// The item at this place.
    pub fn at(&self, at: usize) -> T
        requires { at < length self.now.items }
        ensures { result ≡ slice_index_or self.now.items at result }
    {
        let before = self.ring.len() - self.behind;
        if at < before {
            self.ring[self.behind + at]
        } else {
            self.ring[at - before]
        }
    }

    /// The item at this place, if there is one.
    pub fn get(&self, at: usize) -> Option<T>
        ensures { result ≡ slice_get self.now.items at }
    {
        if at < self.len() {
            Some(self.at(at))
        } else {
            None
        }
    }

    /// An item comes to this place, and takes no memory.
    pub fn insert(&mut self, at: usize, item: T)
        requires place { at ≤ length self.old.items }
        requires room { length self.old.items < self.old.capacity }
        ensures items { self.new.items ≡ insert self.old.items at item }
        ensures capacity { self.new.capacity ≡ self.old.capacity }
    {
        self.behind = turn(&mut self.ring, self.behind, at);
        self.ring.push_back_reserved(item);
    }

    /// The item at this place goes.
    pub fn remove(&mut self, at: usize)
        requires { at < length self.old.items }
        ensures items { self.new.items ≡ remove self.old.items at }
        ensures capacity { self.new.capacity ≡ self.old.capacity }
    {
        self.behind = turn(&mut self.ring, self.behind, at) - 1;
        self.ring.pop_front();
    }
}
