//! The law of what a cut lets go, which does nothing when it is called.
ghost use Rattle.std.specs.Prelude.{◌≡◌, ℕ, Bool, List, ◌++◌, map};
ghost use Rattle.minix_layout.specs.declared.division.Geometry.{Geometry};
ghost use Rattle.volume_ops.specs.declared.found.Mapped.{Mapped};
ghost use Rattle.volume_model.specs.declared.placed.Placed.{Placed};
ghost use Rattle.volume_model.specs.Volume.{Place};
ghost use Rattle.volume_model.specs.Touched.{Contents};
ghost use Rattle.volume_model.specs.Moves.{page_of, file_cut_touches};
ghost use Rattle.volume_model.specs.editing.Zones.{blocks_cut, numbers_cut};

/// A law, which does nothing when it is called: what `zones_cut` lists is what a cut of a file tells as freed, revoked
/// and dropped.
pub fn cut_zones_are_told()
    ensures freed { (g : Geometry) (v : Contents) (n : ℕ) (p : Placed) (zones : List Mapped) (keeps : Place → Bool) (from : ℕ) →
        (file_cut_touches g v n p zones keeps from).freed ≡
        map (λ m. m.zone) (blocks_cut zones from) ++ numbers_cut v.blocks p.inode keeps }
    ensures revoked { (g : Geometry) (v : Contents) (n : ℕ) (p : Placed) (zones : List Mapped) (keeps : Place → Bool) (from : ℕ) →
        (file_cut_touches g v n p zones keeps from).revoked ≡ numbers_cut v.blocks p.inode keeps }
    ensures dropped { (g : Geometry) (v : Contents) (n : ℕ) (p : Placed) (zones : List Mapped) (keeps : Place → Bool) (from : ℕ) →
        (file_cut_touches g v n p zones keeps from).dropped ≡ map (page_of n) (blocks_cut zones from) }
{}
