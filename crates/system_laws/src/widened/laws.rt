//! Laws of widened volumes that are clean. Each does nothing when it is called.
ghost use Rattle.std.specs.Prelude.{◌≡◌, ℕ, List, take, Ok};
ghost use Rattle.volume_ops.specs.Volume.{VolumeState};
ghost use Rattle.mount_make.specs.Images.{mounted};
ghost use Rattle.vol_check.specs.Clean.{IsClean};
ghost use Rattle.widening.specs.Widened.{wide};
ghost use Rattle.widening.specs.WideTrees.{IsWidening};

/// A law, which does nothing when it is called: where the volume of an image is clean, once the image is recovered, that of
/// the widened image is clean, as it is mounted and as the first blocks of the image.
pub fn widened_volumes_are_clean()
    ensures mounted { (blocks image : List (List ℕ)) (v w : VolumeState) → IsWidening blocks image v → IsClean v.geometry v.blocks →
        mounted image ≡ Ok w → IsClean w.geometry w.blocks }
    ensures written { (blocks image : List (List ℕ)) (v : VolumeState) → IsWidening blocks image v → IsClean v.geometry v.blocks →
        IsClean (wide v.geometry) (take v.geometry.zones image) }
{}
