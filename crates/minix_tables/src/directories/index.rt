//! Where the names of a long directory stand.
ghost use Rattle.std.specs.Prelude.{◌≡◌, ℕ, List, Option, IfSome, IsTrue, Some, None, [], ◌∷◌, ◌++◌, cond, length, slice_set};
ghost use Rattle.std.specs.BTreeMap.{is_at};
ghost use Rattle.std.specs.Cmp.Lexicographic.{slice_cmp};
ghost use Rattle.std.specs.Ordering.{nat_cmp};
ghost use Rattle.minix_layout.specs.declared.slot.Slot.{Slot};
ghost use Rattle.minix_tables.specs.directories.Slots.{place_of, room, with_slot};
ghost use Rattle.minix_tables.specs.directories.Told.{AreTold, IsTold, told};

use minix_layout::{Name, Slot};
use std::collections::BTreeMap;
use std::marker::Model;

/// The place of each name among slots.
#[derive(Drop)]
pub(crate) struct Index {
    map: BTreeMap<Name, usize>,
}

impl Model for Index {
    ghost use Rattle.std.specs.Prelude.{List, ℕ};

    ghost Value = { List (List ℕ × ℕ) };

    ghost view = { λ i. i.map.entries };
}

impl Index {
    /// None where a name stands twice, or memory is short.
    pub(crate) fn of(slots: &Vec<Option<Slot>>) -> Option<Index>
        ensures { IfSome result (λ i. IsTold slots.now.items (told i)) }
    {
        let mut index = Index {
            map: BTreeMap::new(*slots.allocator()),
        };
        for at in 0..slots.len() {
            if !index.read(&slots[at], at) {
                return None;
            }
        }
        Some(index)
    }

    /// The place of a name.
    pub(crate) fn get(&self, name: &Name) -> Option<usize>
        ensures { result ≡ told self.now name.now }
    {
        self.map.get(name).copied()
    }

    // The next slot is read. False where its name was there, or memory is short.
    fn read(&mut self, slot: &Option<Slot>, at: usize) -> bool
        ensures { IsTrue result → (slots : List (Option Slot)) → at ≡ length slots →
            IsTold slots (told self.old) → IsTold (slots ++ slot.now ∷ []) (told self.new) }
    {
        match slot {
            Some(slot) => self.put(slot.name.copy(), at),
            None => true,
        }
    }

    // A new name comes. False where it was there, or memory is short.
    fn put(&mut self, name: Name, at: usize) -> bool
        ensures new { IsTrue result → told self.old name ≡ None }
        ensures put { IsTrue result → (q : List ℕ) → told self.new q ≡ cond (is_at (slice_cmp nat_cmp name) q) (Some at) (told self.old q) }
    {
        match self.map.insert(name, at) {
            Ok(None) => true,
            _ => false,
        }
    }

    // A name goes.
    fn remove(&mut self, name: &Name)
        ensures { (q : List ℕ) → told self.new q ≡ cond (is_at (slice_cmp nat_cmp name.now) q) None (told self.old q) }
    {
        let _ = self.map.remove(name);
    }
}

/// A name came among slots. Where there is no memory to note it, there is no index any more.
pub(crate) fn note(index: &mut Option<Index>, name: Name, at: usize)
    ensures { (slots : List (Option Slot)) (s : Slot) → s.name ≡ name → at ≡ room slots → place_of slots s.name ≡ None →
        AreTold slots index.old → AreTold (with_slot slots (room slots) s) index.new }
{
    let Some(names) = index else {
        return;
    };
    if !names.put(name, at) {
        *index = None;
    }
}

/// A name went, with its slot.
pub(crate) fn forget(index: &mut Option<Index>, name: &Name)
    ensures { (slots : List (Option Slot)) (at : ℕ) → place_of slots name.now ≡ Some at →
        AreTold slots index.old → AreTold (slice_set slots at None) index.new }
{
    if let Some(names) = index {
        names.remove(name);
    }
}
