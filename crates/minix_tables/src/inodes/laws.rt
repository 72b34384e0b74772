//! The law of the map of a file, which does nothing when it is called.
ghost use Rattle.std.specs.Prelude.{◌≡◌, ◌≢◌, ℕ, ◌+◌, ◌*◌, ◌<◌, ◌≤◌, List, slice_index};
ghost use Rattle.minix_tables.specs.inodes.Map.{zone_at};

/// A law, which does nothing when it is called: what the map of a file gives at each level.
pub fn map_is_by_levels()
    ensures direct { (entries : ℕ → ℕ → ℕ) (zones : List ℕ) (index : ℕ) →
        index < 7 → zone_at entries zones index ≡ slice_index zones index }
    ensures no_indirect { (entries : ℕ → ℕ → ℕ) (zones : List ℕ) (index : ℕ) →
        slice_index zones 7 ≡ 0 → 7 ≤ index → index ≤ 518 → zone_at entries zones index ≡ 0 }
    ensures indirect { (entries : ℕ → ℕ → ℕ) (zones : List ℕ) (k : ℕ) →
        slice_index zones 7 ≢ 0 → k < 512 →
        zone_at entries zones (7 + k) ≡ entries (slice_index zones 7) k }
    ensures no_double { (entries : ℕ → ℕ → ℕ) (zones : List ℕ) (j k : ℕ) →
        slice_index zones 8 ≡ 0 → j < 512 → k < 512 →
        zone_at entries zones (519 + 512 * j + k) ≡ 0 }
    ensures no_inner { (entries : ℕ → ℕ → ℕ) (zones : List ℕ) (j k : ℕ) →
        entries (slice_index zones 8) j ≡ 0 → j < 512 → k < 512 →
        zone_at entries zones (519 + 512 * j + k) ≡ 0 }
    ensures double { (entries : ℕ → ℕ → ℕ) (zones : List ℕ) (j k : ℕ) →
        slice_index zones 8 ≢ 0 → entries (slice_index zones 8) j ≢ 0 → j < 512 → k < 512 →
        zone_at entries zones (519 + 512 * j + k) ≡ entries (entries (slice_index zones 8) j) k }
    ensures past { (entries : ℕ → ℕ → ℕ) (zones : List ℕ) (index : ℕ) →
        262663 ≤ index → zone_at entries zones index ≡ 0 }
{}
