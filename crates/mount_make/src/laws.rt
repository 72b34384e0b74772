//! Laws of the trees of images.
ghost use Rattle.minix_layout.specs.declared.limits.TheConstants.{LEAST_JOURNAL, MOST_JOURNAL};
ghost use Rattle.std.specs.Prelude.{◌≡◌, ◌≢◌, ℕ, Bool, ◌+◌, ◌<◌, ◌≤◌, ◌==◌, ◌↔◌, if◌then◌else◌, List, length, true, Some, None, Ok, Err};
ghost use Rattle.minix_layout.specs.declared.division.Geometry.{Geometry};
ghost use Rattle.minix_layout.specs.declared.fault.LayoutFault.{LayoutFault};
ghost use Rattle.tree_model.specs.declared.node.Node.{Node};
ghost use Rattle.tree_model.specs.Maps.{at_number};
ghost use Rattle.tree_model.specs.Trees.{AreAlike};
ghost use Rattle.volume_ops.specs.laws.Alike.{SameMetadataAtOrNone};
ghost use Rattle.volume_ops.specs.Defects.{IsDefect};
ghost use Rattle.volume_ops.specs.FirstFault.{IsFirstFault};
ghost use Rattle.mount_make.specs.declared.fault.ImageFault.{ImageFault};
ghost use Rattle.mount_make.specs.Images.{divided, image_fault, fault_in_journal, volume_in, journal_at, recovered_image, mounted, image_tree};
ghost use Rattle.mount_make.specs.ImageTrees.{IsImageTree, AgreeOnImage};
ghost use Rattle.mount_make.specs.Made.{new_journal, made_image};
ghost use Rattle.byte_fields.specs.Fields.{number_at};
ghost use Rattle.byte_fields.specs.Fields.Order.{big};
ghost use Rattle.journal_blocks.specs.Super.{is_wide};
ghost use Rattle.minix_layout.specs.declared.bits.BitPlace.{BitPlace};
ghost use Rattle.minix_layout.specs.Geometry.{IsSound};
ghost use Rattle.minix_layout.specs.Bits.{inode_bit, zone_bit, has_bit};
ghost use Rattle.volume_ops.specs.Volume.{disk_of};
ghost use Rattle.volume_model.specs.Plain.{IsPlainVolume};
ghost use Rattle.volume_model.specs.NewVolume.{new_blocks, root_alone};

use volume_model::{new_volumes_are_plain, plain_volumes_are_read_back};

/// A law, which does nothing when it is called: an image has a tree just where it is whole, its journal has no
/// fault and neither has its recovered volume, by its fields and in no order, and it has one only.
pub fn images_have_one_tree()
    ensures both_ways { (blocks : List (List ℕ)) (tree : List (ℕ × Node)) → (image_tree blocks ≡ Ok tree) ↔ IsImageTree blocks tree }
    ensures one { (blocks : List (List ℕ)) (tree other : List (ℕ × Node)) →
        IsImageTree blocks tree → IsImageTree blocks other → tree ≡ other }
{}

/// A law, which does nothing when it is called: images of one length that have the same bytes in the metadata have
/// trees that are alike, with the same metadata at each birth.
pub fn image_metadata_gives_trees()
    ensures alike { (g : Geometry) (blocks other : List (List ℕ)) → length other ≡ length blocks → AgreeOnImage g blocks other → divided blocks ≡ Ok g →
        (tree : List (ℕ × Node)) → image_tree blocks ≡ Ok tree →
        (changed : List (ℕ × Node)) × (image_tree other ≡ Ok changed) × AreAlike tree changed ×
        ((birth : ℕ) → SameMetadataAtOrNone (at_number tree birth) (at_number changed birth)) }
{}

/// A law, which does nothing when it is called: the first fault of an image that is whole is that of its journal, and
/// behind this the first fault of its recovered volume in the order of the tests, which is a defect that stands at the
/// block told.
pub fn image_faults_are_first_defects()
    ensures journal { (blocks : List (List ℕ)) (g : Geometry) (fault : ImageFault) (block : ℕ) → divided blocks ≡ Ok g →
        fault_in_journal g.zones blocks ≡ Some (fault, block) → mounted blocks ≡ Err (fault, block) }
    ensures first { (blocks : List (List ℕ)) (g : Geometry) (fault : ImageFault) (block : ℕ) → divided blocks ≡ Ok g →
        fault_in_journal g.zones blocks ≡ None → mounted blocks ≡ Err (fault, block) →
        (kind : LayoutFault) × (image_fault kind ≡ fault) × IsDefect g (volume_in g blocks) kind block × IsFirstFault g (volume_in g blocks) kind block }
    ensures told { (blocks : List (List ℕ)) (g : Geometry) (kind : LayoutFault) (block : ℕ) → divided blocks ≡ Ok g →
        fault_in_journal g.zones blocks ≡ None → IsFirstFault g (volume_in g blocks) kind block → mounted blocks ≡ Err (image_fault kind, block) }
{}

/// A law, which only calls laws: an image that was made has no fault, its tree is the root alone, its journal is empty,
/// stays so by recovery and has wide tags just where they were asked for, and its volume is plain, with the blocks of a new volume behind the superblock and the maps.
pub fn made_images_are_plain()
    ensures tree { (g : Geometry) (journal : ℕ) (wide : Bool) → IsSound g → LEAST_JOURNAL ≤ journal → journal ≤ MOST_JOURNAL → image_tree (made_image g journal wide) ≡ Ok (root_alone g.width) }
    ensures journal { (g : Geometry) (journal : ℕ) (wide : Bool) → IsSound g → LEAST_JOURNAL ≤ journal → journal ≤ MOST_JOURNAL →
        (journal_at g.zones (made_image g journal wide) ≡ Some (new_journal journal wide)) × (recovered_image (made_image g journal wide) ≡ made_image g journal wide) }
    ensures features { (g : Geometry) (journal : ℕ) (wide : Bool) → IsSound g → LEAST_JOURNAL ≤ journal → journal ≤ MOST_JOURNAL →
        (number_at big 4 0x28 (disk_of (made_image g journal wide) g.zones) ≡ (if wide then 3 else 1)) × (is_wide (new_journal journal wide) ≡ wide) }
    ensures plain { (g : Geometry) (journal : ℕ) (wide : Bool) → IsSound g → LEAST_JOURNAL ≤ journal → journal ≤ MOST_JOURNAL →
        (divided (made_image g journal wide) ≡ Ok g) × IsPlainVolume g (volume_in g (made_image g journal wide)) (root_alone g.width) }
    ensures new { (g : Geometry) (journal : ℕ) (wide : Bool) (b : ℕ) → IsSound g → LEAST_JOURNAL ≤ journal → journal ≤ MOST_JOURNAL → 2 + g.imap + g.zmap ≤ b →
        disk_of (volume_in g (made_image g journal wide)) b ≡ disk_of (new_blocks g) b }
{
    new_volumes_are_plain();
    plain_volumes_are_read_back();
}

/// A law, which does nothing when it is called: in an image that was made the maps mark the root alone. Of all inodes
/// just the first is in use, of all zones of data just the first, and the bits that stand for none are set.
pub fn made_maps_mark_the_root()
    ensures inodes { (g : Geometry) (journal : ℕ) (wide : Bool) (inode : ℕ) → IsSound g → 1 ≤ inode → inode ≤ g.inodes →
        has_bit (made_image g journal wide) (inode_bit g inode) ≡ (inode == 1) }
    ensures zones { (g : Geometry) (journal : ℕ) (wide : Bool) (zone : ℕ) → IsSound g → g.first ≤ zone → zone < g.zones →
        has_bit (made_image g journal wide) (zone_bit g zone) ≡ (zone == g.first) }
    ensures others { (g : Geometry) (journal : ℕ) (wide : Bool) (p : BitPlace) → IsSound g → 2 ≤ p.block → p.block < 2 + g.imap + g.zmap → p.at < 8192 →
        ((inode : ℕ) → 1 ≤ inode → inode ≤ g.inodes → p ≢ inode_bit g inode) →
        ((zone : ℕ) → g.first ≤ zone → zone < g.zones → p ≢ zone_bit g zone) →
        has_bit (made_image g journal wide) p ≡ true }
{}
