//! Laws of widened images. Each does nothing when it is called.
ghost use Rattle.std.specs.Prelude.{◌≡◌, ◌≢◌, ℕ, ◌<◌, ◌≤◌, ◌⊎◌, ◌↔◌, true, List, [], length, Ok};
ghost use Rattle.blk_base.specs.Members.{In};
ghost use Rattle.minix_layout.specs.declared.division.Geometry.{Geometry};
ghost use Rattle.tree_model.specs.declared.node.Directory.{Directory};
ghost use Rattle.tree_model.specs.declared.node.Node.{Node};
ghost use Rattle.volume_ops.specs.Volume.{VolumeState, disk_of, put_nodes, walked, tree_of};
ghost use Rattle.volume_ops.specs.Walk.{Walked};
ghost use Rattle.mount_make.specs.Images.{divided, recovered_image, mounted};
ghost use Rattle.widening.specs.Changed.{IsWritten};
ghost use Rattle.widening.specs.Directories.{zones_needed, free_zones, all_beyond, has_no_room};
ghost use Rattle.widening.specs.Widened.{wide, widened};
ghost use Rattle.widening.specs.WideTrees.{wide_tree, IsWidening};

/// A law, which does nothing when it is called: an image whose volume has names of 30 bytes already stays as it is.
pub fn wide_images_stay()
    ensures { (v : VolumeState) (image : List (List ℕ)) → v.geometry.width ≡ 30 → widened v image ≡ Ok image }
{}

/// A law, which does nothing when it is called: there is no room just where some directory needs more than 519 zones of
/// data, or where all of them need more zones beyond their own than are free.
pub fn no_room_has_two_causes()
    ensures { (g : Geometry) (blocks : List (List ℕ)) (es : List (ℕ × Directory)) (free : List ℕ) →
        (has_no_room g blocks es free ≡ true) ↔
        (((e : ℕ × Directory) × In e es × (519 < zones_needed (length e.1.names))) ⊎ (length free < all_beyond g blocks es)) }
{}

/// A law, which does nothing when it is called: the widened image of a volume is divided as it was, for names of 30 bytes,
/// and has no fault; and its tree is the volume's, where each directory has the width and the slots of such names. Files
/// keep their bytes, and each node its birth.
pub fn widened_images_keep_trees()
    ensures divided { (blocks image : List (List ℕ)) (v : VolumeState) → IsWidening blocks image v → divided image ≡ Ok (wide v.geometry) }
    ensures mounted { (blocks image : List (List ℕ)) (v : VolumeState) → IsWidening blocks image v →
        (w : VolumeState) × (mounted image ≡ Ok w) × (w.geometry ≡ wide v.geometry) }
    ensures tree { (blocks image : List (List ℕ)) (v w : VolumeState) (tree : List (ℕ × Node)) → IsWidening blocks image v → v.geometry.width ≢ 30 →
        mounted image ≡ Ok w → tree_of v.geometry v.blocks ≡ Ok tree → tree_of w.geometry w.blocks ≡ Ok (wide_tree tree) }
    ensures as_it_was { (blocks image : List (List ℕ)) (v : VolumeState) → IsWidening blocks image v → v.geometry.width ≡ 30 → mounted image ≡ Ok v }
{}

/// A law, which does nothing when it is called: a widened image is as long as the recovered one, and has its bytes in each
/// block that is not one of those which are written: the superblock, the map of zones, the inodes of directories and the
/// zones that these had or get. The blocks behind the volume, which are the journal's, keep theirs.
pub fn other_blocks_stay()
    ensures length { (blocks image : List (List ℕ)) (v : VolumeState) → IsWidening blocks image v → length image ≡ length (recovered_image blocks) }
    ensures bytes { (blocks image : List (List ℕ)) (v : VolumeState) (all : Walked) (b : ℕ) → IsWidening blocks image v → walked v.geometry v.blocks ≡ Ok all →
        (IsWritten v.geometry v.blocks (put_nodes v.blocks all.nodes []) (free_zones v.geometry v.blocks all.zones) b → ⊥) →
        disk_of image b ≡ disk_of (recovered_image blocks) b }
    ensures behind { (blocks image : List (List ℕ)) (v : VolumeState) (b : ℕ) → IsWidening blocks image v → v.geometry.zones ≤ b →
        disk_of image b ≡ disk_of (recovered_image blocks) b }
{}
