//! The slots of a directory.
ghost use Rattle.std.specs.Prelude.{◌≡◌, ◌↔◌, ◌+◌, [], ◌∷◌, ◌++◌, ◌<◌, ◌≤◌, OnOk, OnErr, IfOk, IsOk, Some, None, length, take, drop};
ghost use Rattle.std.specs.Option.{option_copied};
ghost use Rattle.minix_layout.specs.declared.slot.Slot.{Slot};
ghost use Rattle.minix_tables.specs.directories.Slots.{room, with_slot, reserved, slot_at, has_name, place_of, slot_found, slots_without, slots_led};

use super::index::{Index, forget, note};
use blk_base::NoMemory;
use minix_layout::{Name, Slot};
use std::alloc::Global;
use std::marker::Model;

/// The slots of a directory as its blocks have them, of any width; None is a free one.
#[derive(Drop)]
pub struct Slots {
    items: Vec<Option<Slot>>,
    // The place of the first free slot, or how many there are: a name that comes looks for none.
    first_free: usize,
    // Where the names of a long directory stand, once one of them was taken out. Else a name is searched for.
    index: Option<Index>,
}

// A directory with more slots gets an index when a name is taken out.
const FEW: usize = 64;

impl Model for Slots {
    ghost use Rattle.std.specs.Prelude.{List, Option};
    ghost use Rattle.minix_layout.specs.declared.slot.Slot.{Slot};

    ghost Value = { List (Option Slot) };

    ghost use Rattle.std.specs.Prelude.{◌≡◌};
    ghost use Rattle.minix_tables.specs.directories.Slots.{room};
    ghost use Rattle.minix_tables.specs.directories.Told.{AreTold};

    ghost view = { λ s. s.items.items };

    ghost invariant = { λ s. (s.first_free ≡ room s.items.items) × AreTold s.items.items s.index };
}

impl Slots {
    /// No slots.
    pub fn new(alloc: Global) -> Slots
        ensures { result ≡ [] }
    {
        Slots {
            items: Vec::new(alloc),
            first_free: 0,
            index: None,
        }
    }

    /// The slots that were read from the blocks of a directory.
    pub fn of(items: Vec<Option<Slot>>) -> Slots
        ensures { result ≡ items.items }
    {
        let first_free = free_from(&items, 0);
        Slots {
            items,
            first_free,
            index: None,
        }
    }

    /// How many slots there are, free ones too.
    pub fn len(&self) -> usize
        ensures { result ≡ length self.now }
    {
        self.items.len()
    }

    /// The slot at a place, if it is in use.
    pub fn get(&self, at: usize) -> Option<&Slot>
        ensures { option_copied result ≡ slot_at self.now at }
    {
        self.items.get(at)?.as_ref()
    }

    /// The place of a name, if it is there.
    pub fn find(&self, name: &Name) -> Option<usize>
        ensures { result ≡ place_of self.now name.now }
    {
        match &self.index {
            Some(index) => index.get(name),
            None => self.items.iter().position(|slot| has_name(slot, name)),
        }
    }

    /// The place that `add` uses: the first free slot, or one more at the end.
    pub fn room(&self) -> usize
        ensures { result ≡ room self.now }
    {
        self.first_free
    }

    /// Makes a free slot at the end, where none is free, so that the next `add` takes no memory.
    #[tactic(auto, unfolding(crate::specs::directories::Slots::reserved))]
    pub fn reserve(&mut self) -> Result<(), NoMemory>
        ensures ok { OnOk result (self.new ≡ reserved self.old) }
        ensures err { OnErr result (self.new ≡ self.old) }
    {
        if self.room() >= self.items.len() {
            self.items.push(None)?;
        }
        Ok(())
    }

    /// Leaves the first `len` slots alone, so that what `reserve` made can be undone.
    pub fn truncate(&mut self, len: usize)
        ensures { self.new ≡ take len self.old }
    {
        self.index = None;
        self.items.truncate(len);
        if len < self.first_free {
            self.first_free = len;
        }
    }

    /// Puts a slot at the place that `room` gives, and says which. It needs memory only where no slot is free.
    pub fn add(&mut self, slot: Slot) -> Result<usize, NoMemory>
        requires { place_of self.old slot.name ≡ None }
        ensures ok { IfOk result (λ at. (at ≡ room self.old) × (self.new ≡ with_slot self.old at slot)) }
        ensures reserved { room self.old < length self.old → IsOk result }
        ensures err { OnErr result (self.new ≡ self.old) }
    {
        let at = self.first_free;
        let name = slot.name.copy();
        self.first_free = fill(&mut self.items, at, slot)?;
        note(&mut self.index, name, at);
        Ok(at)
    }

    // Names that go from a long directory one after the other are searched for only where memory is short.
    fn make_index(&mut self)
        ensures { self.new ≡ self.old }
    {
        if self.index.is_none() && self.items.len() > FEW {
            self.index = Index::of(&self.items);
        }
    }

    /// Takes a name away with its slot, which is free then; the directory keeps its length. It needs no memory.
    pub fn remove(&mut self, name: &Name) -> Option<Slot>
        ensures value { result ≡ slot_found self.old (place_of self.old name.now) }
        ensures none { (result ≡ None) ↔ (place_of self.old name.now ≡ None) }
        ensures slots { self.new ≡ slots_without self.old name.now }
    {
        self.make_index();
        let at = self.find(name)?;
        let slot = self.items[at].take();
        forget(&mut self.index, name);
        if at < self.first_free {
            self.first_free = at;
        }
        slot
    }

    /// Leads the slot at a place to another inode, under the name that it has. It takes no memory.
    pub fn lead(&mut self, at: usize, inode: u16)
        ensures { self.new ≡ slots_led self.old at inode }
    {
        let Some(item) = self.items.get_mut(at) else {
            return;
        };
        if let Some(slot) = item {
            slot.inode = inode;
        }
    }
}

// A slot comes to the first free place, or to the end. The answer is what is first free then.
#[tactic(auto, unfolding(crate::specs::directories::Slots::with_slot))]
fn fill(items: &mut Vec<Option<Slot>>, at: usize, slot: Slot) -> Result<usize, NoMemory>
    requires { at ≡ room items.old.items }
    ensures slots { OnOk result (items.new.items ≡ with_slot items.old.items at slot) }
    ensures room { IfOk result (λ next. next ≡ room items.new.items) }
    ensures reserved { at < length items.old.items → IsOk result }
    ensures err { OnErr result (items.new.items ≡ items.old.items) }
{
    if at < items.len() {
        items[at] = Some(slot);
        return Ok(free_from(items, at + 1));
    }
    items.push(Some(slot))?;
    Ok(items.len())
}

// The place of the first free slot from one on, or how many there are.
fn free_from(slots: &[Option<Slot>], from: usize) -> usize
    requires { from ≤ length slots.now }
    ensures { result ≡ from + room (drop from slots.now) }
{
    for at in from..slots.len() {
        if slots[at].is_none() {
            return at;
        }
    }
    slots.len()
}

// Whether a slot is in use under this name.
fn has_name(slot: &Option<Slot>, name: &Name) -> bool
    ensures { result ≡ has_name name.now slot.now }
{
    match slot {
        Some(slot) => slot.name == *name,
        None => false,
    }
}
