//! Laws of clean volumes and of verdicts. Each does nothing when it is called.
ghost use Rattle.std.specs.Prelude.{◌≡◌, ℕ, ◌<◌, ◌↔◌, List};
ghost use Rattle.minix_layout.specs.declared.division.Geometry.{Geometry};
ghost use Rattle.minix_layout.specs.Geometry.{IsSound};
ghost use Rattle.tree_model.specs.declared.node.Node.{Node};
ghost use Rattle.volume_ops.specs.Faultless.{IsFaultless};
ghost use Rattle.volume_ops.specs.Metadata.{AgreeOnMetadata};
ghost use Rattle.volume_ops.specs.VolumeTrees.{IsVolumeTree};
ghost use Rattle.vol_check.specs.declared.verdict.Verdict.{Verdict};
ghost use Rattle.vol_check.specs.Clean.{IsClean};
ghost use Rattle.vol_check.specs.CleanTrees.{AgreesWith};
ghost use Rattle.vol_check.specs.Verdicts.{IsVerdict};

/// A law, which does nothing when it is called: of a volume one verdict is told at most, so a clean volume has no fault
/// of any kind, and of the others there is one first fault.
pub fn one_verdict_is_told()
    ensures { (g : Geometry) (blocks : List (List ℕ)) (v w : Verdict) → IsVerdict g blocks v → IsVerdict g blocks w → v ≡ w }
{}

/// A law, which does nothing when it is called: a volume is clean just where it agrees with its tree. The bit of each
/// inode is set where the tree has its node and clear where it has none, that of each zone where the tree uses the zone
/// and clear where it does not; files have as many links as names, directories 2 and one for each of theirs; and `.` and
/// `..` lead to the directory and its parent.
pub fn clean_volumes_agree_with_their_trees()
    ensures { (g : Geometry) (blocks : List (List ℕ)) (tree : List (ℕ × Node)) → 0 < g.inodes → IsVolumeTree g blocks tree →
        IsClean g blocks ↔ AgreesWith g blocks tree }
{}

/// A law, which does nothing when it is called: whether a volume is clean is said by its metadata, so one with the same
/// metadata as a clean one is clean, whatever the blocks of its files are.
pub fn same_metadata_is_clean()
    ensures { (g : Geometry) (blocks other : List (List ℕ)) → IsSound g → IsFaultless g blocks → AgreeOnMetadata g blocks other →
        IsClean g blocks → IsClean g other }
{}
