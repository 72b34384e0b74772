//! The law that this device has besides those of the trait, and a small run worked out.
ghost use Rattle.std.specs.Prelude.{◌≡◌, [], ◌∷◌, Some, None};
ghost use Rattle.flog_device.specs.Device.{FlogState, seen, free_places, persistable, Program, Fold};
ghost use Rattle.flog_device.specs.Rows.{zeros, bodies, gap, filled, folded};
ghost use Rattle.flog_device.specs.laws.Valid.{IsValid};
ghost use Rattle.flog_device.specs.laws.OrderLaws.{KeepsLogOrder};

/// In-order recovery: where a part is on the medium, so is each part that was transferred before it, or a
/// later one of its block.
pub fn recovery_is_in_order()
    ensures { (s : FlogState) → IsValid s → KeepsLogOrder (seen s) }
{}

/// Of three pages the second and the third are programmed: five steps, and all three blocks are as at the
/// start. Once the first one is programmed too, each block has its put.
pub fn pages_behind_a_gap_are_dropped()
    ensures gap_steps { gap.steps ≡ 5 }
    ensures gap_surface { (seen gap).surface ≡ zeros }
    ensures gap_origins { (seen gap).origins ≡ None ∷ None ∷ None ∷ [] }
    ensures gap_places { free_places gap ≡ 45 }
    ensures gap_writes { persistable gap ≡ Program 0 ∷ [] }
    ensures filled_steps { filled.steps ≡ 6 }
    ensures filled_surface { (seen filled).surface ≡ bodies }
    ensures filled_origins { (seen filled).origins ≡ Some 0 ∷ Some 1 ∷ Some 2 ∷ [] }
    ensures filled_area { filled.data_area ≡ zeros }
    ensures filled_writes { persistable filled ≡ Fold ∷ [] }
    ensures folded_surface { (seen folded).surface ≡ bodies }
    ensures folded_area { folded.data_area ≡ bodies }
    ensures folded_writes { persistable folded ≡ [] }
{}
