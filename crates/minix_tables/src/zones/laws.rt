//! Laws of the map, over any list of its calls. Each does nothing when it is called.
ghost use Rattle.std.specs.Prelude.{◌≡◌, ◌≢◌, ℕ, ◌+◌, List, length, Some, None, ◌↔◌, count_by};
ghost use Rattle.blk_base.specs.Members.{In};
ghost use Rattle.minix_tables.specs.declared.zones.zone_state.ZoneState.TheVariants as states;
ghost use Rattle.minix_tables.specs.zones.Zones.{Zones, state_of, lowest_free, IsLowestFree, taken, given, released, is_free, is_used, is_quarantined, is_quarantined_for};
ghost use Rattle.minix_tables.specs.zones.Events.{ZoneEvent, give, release, AreAllowed, after};

/// A law, which does nothing when it is called: the lowest free zone is the free zone below which no zone is free,
/// and there is none exactly where no zone is free.
pub fn lowest_is_found()
    ensures some { (m : Zones) (zone : ℕ) → (lowest_free m ≡ Some zone) ↔ IsLowestFree m zone }
    ensures none { (m : Zones) → (lowest_free m ≡ None) ↔ ((zone : ℕ) → state_of m zone ≢ Some states.Free) }
{}

/// A law, which does nothing when it is called: whatever is done, a zone in use stays in use until it is given back,
/// and a zone in quarantine stays there until its transaction is released. A release frees the zones of that
/// transaction, and leaves all others as they were.
pub fn zones_last()
    ensures used { (m : Zones) (events : List ZoneEvent) (zone : ℕ) → state_of m zone ≡ Some states.Used →
        AreAllowed m events → ((tx : ℕ) → In (give zone tx) events → ⊥) →
        state_of (after m events) zone ≡ Some states.Used }
    ensures quarantined { (m : Zones) (events : List ZoneEvent) (zone tx : ℕ) →
        state_of m zone ≡ Some (states.Quarantined tx) → AreAllowed m events → (In (release tx) events → ⊥) →
        state_of (after m events) zone ≡ Some (states.Quarantined tx) }
    ensures frees { (m : Zones) (zone tx : ℕ) →
        state_of m zone ≡ Some (states.Quarantined tx) → state_of (released m tx) zone ≡ Some states.Free }
    ensures others { (m : Zones) (zone tx : ℕ) →
        state_of m zone ≢ Some (states.Quarantined tx) → state_of (released m tx) zone ≡ state_of m zone }
{}

/// A law, which does nothing when it is called: free zones, zones in use and zones in quarantine are together all
/// zones of data, and each call moves as many from one count to another as it says.
pub fn zones_are_counted()
    ensures all { (m : Zones) →
        count_by is_free m.states + count_by is_used m.states + count_by is_quarantined m.states ≡ length m.states }
    ensures taken { (m : Zones) (zone : ℕ) → lowest_free m ≡ Some zone →
        (count_by is_free (taken m).states + 1 ≡ count_by is_free m.states) ×
        (count_by is_quarantined (taken m).states ≡ count_by is_quarantined m.states) }
    ensures given { (m : Zones) (zone tx : ℕ) → state_of m zone ≡ Some states.Used →
        (count_by is_free (given m zone tx).states ≡ count_by is_free m.states) ×
        (count_by is_quarantined (given m zone tx).states ≡ count_by is_quarantined m.states + 1) }
    ensures released { (m : Zones) (tx : ℕ) →
        (count_by is_free (released m tx).states ≡ count_by is_free m.states + count_by (is_quarantined_for tx) m.states) ×
        (count_by is_quarantined (released m tx).states + count_by (is_quarantined_for tx) m.states ≡
        count_by is_quarantined m.states) }
{}
