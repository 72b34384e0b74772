//! Laws of the slots of a directory. Each does nothing when it is called.
ghost use Rattle.std.specs.Prelude.{◌≡◌, ◌≢◌, ◌↔◌, ℕ, suc, ◌+◌, ◌<◌, ◌≤◌, List, length, take, Option, Some, None};
ghost use Rattle.std.specs.List.{slice_get};
ghost use Rattle.minix_layout.specs.declared.slot.Slot.{Slot};
ghost use Rattle.minix_tables.specs.directories.Slots.{room, with_slot, reserved, used_count, slot_at, place_of, slots_without, slots_led, NamesStandOnce};

/// A law, which does nothing when it is called: a name is found at a slot in use that has it, and is not found exactly
/// where no slot has it.
pub fn names_are_found()
    ensures found { (slots : List (Option Slot)) (name : List ℕ) (at : ℕ) → place_of slots name ≡ Some at →
        (s : Slot) × (slice_get slots at ≡ Some (Some s)) × (s.name ≡ name) }
    ensures none { (slots : List (Option Slot)) (name : List ℕ) → (place_of slots name ≡ None) ↔
        ((at : ℕ) (s : Slot) → slice_get slots at ≡ Some (Some s) → s.name ≢ name) }
{}

/// A law, which does nothing when it is called: a new slot goes to the first free place, or to one more at the end.
/// A place that was reserved is this place, so a slot goes there as it would without.
pub fn room_is_the_least_free_place()
    ensures within { (slots : List (Option Slot)) → room slots ≤ length slots }
    ensures free { (slots : List (Option Slot)) → slot_at slots (room slots) ≡ None }
    ensures least { (slots : List (Option Slot)) (at : ℕ) → at < room slots → slot_at slots at ≢ None }
    ensures reserved { (slots : List (Option Slot)) → room (reserved slots) < length (reserved slots) }
    ensures same_room { (slots : List (Option Slot)) → room (reserved slots) ≡ room slots }
    ensures same_slots { (slots : List (Option Slot)) (s : Slot) →
        with_slot (reserved slots) (room slots) s ≡ with_slot slots (room slots) s }
    ensures undone { (slots : List (Option Slot)) → take (length slots) (reserved slots) ≡ slots }
{}

/// A law, which does nothing when it is called: a name that was added is found where its slot was put, each other name
/// as before, and each other place has what it had. Names stand once as before, and one slot more is in use.
pub fn added_names_are_found()
    ensures here { (slots : List (Option Slot)) (s : Slot) → place_of slots s.name ≡ None →
        place_of (with_slot slots (room slots) s) s.name ≡ Some (room slots) }
    ensures others { (slots : List (Option Slot)) (s : Slot) (name : List ℕ) → name ≢ s.name →
        place_of (with_slot slots (room slots) s) name ≡ place_of slots name }
    ensures places { (slots : List (Option Slot)) (s : Slot) (at : ℕ) → at ≢ room slots →
        slot_at (with_slot slots (room slots) s) at ≡ slot_at slots at }
    ensures once { (slots : List (Option Slot)) (s : Slot) → place_of slots s.name ≡ None → NamesStandOnce slots →
        NamesStandOnce (with_slot slots (room slots) s) }
    ensures counted { (slots : List (Option Slot)) (s : Slot) →
        used_count (with_slot slots (room slots) s) ≡ 1 + used_count slots }
{}

/// A law, which does nothing when it is called: where names stand once, a name that was removed is not found, each
/// other name is found as before, and each other place has what it had. The directory keeps its length, and one slot
/// less is in use.
pub fn removed_names_are_gone()
    ensures gone { (slots : List (Option Slot)) (name : List ℕ) → NamesStandOnce slots →
        place_of (slots_without slots name) name ≡ None }
    ensures others { (slots : List (Option Slot)) (name other : List ℕ) → other ≢ name →
        place_of (slots_without slots name) other ≡ place_of slots other }
    ensures places { (slots : List (Option Slot)) (name : List ℕ) (at : ℕ) → place_of slots name ≢ Some at →
        slot_at (slots_without slots name) at ≡ slot_at slots at }
    ensures free { (slots : List (Option Slot)) (name : List ℕ) (at : ℕ) → place_of slots name ≡ Some at →
        slice_get (slots_without slots name) at ≡ Some None }
    ensures once { (slots : List (Option Slot)) (name : List ℕ) → NamesStandOnce slots →
        NamesStandOnce (slots_without slots name) }
    ensures length { (slots : List (Option Slot)) (name : List ℕ) → length (slots_without slots name) ≡ length slots }
    ensures counted { (slots : List (Option Slot)) (name : List ℕ) (at : ℕ) → place_of slots name ≡ Some at →
        1 + used_count (slots_without slots name) ≡ used_count slots }
{}

/// A law, which does nothing when it is called: a slot that is led elsewhere has the other inode under its name, and each
/// other place has what it had. Each name is found where it was, names stand once as before, and as many slots are in
/// use. Where no slot is in use nothing changes.
pub fn led_names_stay()
    ensures here { (slots : List (Option Slot)) (at inode : ℕ) (s : Slot) → slot_at slots at ≡ Some s →
        slot_at (slots_led slots at inode) at ≡ Some (record { inode = inode; name = s.name }) }
    ensures places { (slots : List (Option Slot)) (at inode other : ℕ) → other ≢ at →
        slot_at (slots_led slots at inode) other ≡ slot_at slots other }
    ensures names { (slots : List (Option Slot)) (at inode : ℕ) (name : List ℕ) →
        place_of (slots_led slots at inode) name ≡ place_of slots name }
    ensures free { (slots : List (Option Slot)) (at inode : ℕ) → slot_at slots at ≡ None → slots_led slots at inode ≡ slots }
    ensures once { (slots : List (Option Slot)) (at inode : ℕ) → NamesStandOnce slots → NamesStandOnce (slots_led slots at inode) }
    ensures length { (slots : List (Option Slot)) (at inode : ℕ) → length (slots_led slots at inode) ≡ length slots }
    ensures counted { (slots : List (Option Slot)) (at inode : ℕ) → used_count (slots_led slots at inode) ≡ used_count slots }
{}
