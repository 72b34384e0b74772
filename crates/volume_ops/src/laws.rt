//! Laws of the walk: what it reads, what it tells, and the tree that it finds.
ghost use Rattle.std.specs.Prelude.{◌≡◌, ℕ, ◌<◌, ◌≤◌, ◌↔◌, true, List, Some, option_map, Ok, Err};
ghost use Rattle.blk_base.specs.Members.{In};
ghost use Rattle.minix_layout.specs.declared.division.Geometry.{Geometry};
ghost use Rattle.minix_layout.specs.Geometry.{IsSound};
ghost use Rattle.minix_layout.specs.declared.fault.LayoutFault.{LayoutFault};
ghost use Rattle.tree_model.specs.declared.node.File.{File};
ghost use Rattle.tree_model.specs.declared.node.Node.{Node};
ghost use Rattle.tree_model.specs.declared.node.Node.TheVariants as nodes;
ghost use Rattle.tree_model.specs.Rooted.{IsRooted};
ghost use Rattle.tree_model.specs.Maps.{at_number};
ghost use Rattle.tree_model.specs.Trees.{AreAlike};
ghost use Rattle.volume_ops.specs.Reads.{AgreeOn};
ghost use Rattle.volume_ops.specs.Volume.{disk_of, walked, metadata, tree_of};
ghost use Rattle.volume_ops.specs.VolumeFields.{IsTreeOf};
ghost use Rattle.volume_ops.specs.laws.Alike.{SameMetadataAtOrNone};
ghost use Rattle.volume_ops.specs.Defects.{IsDefect};
ghost use Rattle.volume_ops.specs.Faultless.{IsFaultless, IsUsed};
ghost use Rattle.volume_ops.specs.FirstFault.{IsFirstFault};
ghost use Rattle.volume_ops.specs.Marks.{is_marked};
ghost use Rattle.volume_ops.specs.Metadata.{IsMetadata, AgreeOnMetadata, zone_of_block};
ghost use Rattle.volume_ops.specs.VolumeTrees.{IsVolumeTree};
ghost use Rattle.volume_ops.specs.Walk.{Walked};

/// A law, which does nothing when it is called: what the walk through a volume finds, and which blocks
/// it reads, depends on the blocks that it reads alone.
pub fn walks_read_metadata_alone()
    ensures same { (g : Geometry) (blocks other : List (List ℕ)) →
        AgreeOn (metadata g blocks) (disk_of blocks) (disk_of other) →
        (walked g other ≡ walked g blocks) × (metadata g other ≡ metadata g blocks) }
{}

/// A law, which does nothing when it is called: the tree of a volume by its fields.
pub fn trees_have_fields()
    ensures fields { (g : Geometry) (blocks : List (List ℕ)) (tree : List (ℕ × Node)) →
        tree_of g blocks ≡ Ok tree → IsTreeOf g blocks tree }
{}

/// A law, which does nothing when it is called: the tree of a volume hangs together, so that its text has the lines
/// of each of its paths once (`tree_model::texts_list_paths`).
pub fn trees_are_rooted()
    ensures rooted { (g : Geometry) (blocks : List (List ℕ)) (tree : List (ℕ × Node)) →
        tree_of g blocks ≡ Ok tree → IsRooted tree }
{}

/// A law, which does nothing when it is called: two volumes that agree in the metadata of the one have trees
/// that are alike, with the same metadata at each birth.
pub fn same_metadata_gives_alike_trees()
    ensures alike { (g : Geometry) (blocks other : List (List ℕ)) (tree : List (ℕ × Node)) →
        AgreeOn (metadata g blocks) (disk_of blocks) (disk_of other) → tree_of g blocks ≡ Ok tree →
        (changed : List (ℕ × Node)) × (tree_of g other ≡ Ok changed) × AreAlike tree changed }
    ensures same_births { (g : Geometry) (blocks other : List (List ℕ)) (tree : List (ℕ × Node)) →
        AgreeOn (metadata g blocks) (disk_of blocks) (disk_of other) → tree_of g blocks ≡ Ok tree →
        (changed : List (ℕ × Node)) × (tree_of g other ≡ Ok changed) ×
        ((birth : ℕ) → SameMetadataAtOrNone (at_number tree birth) (at_number changed birth)) }
{}

/// A law, which does nothing when it is called: the walk through a volume ends well just where the volume has no
/// fault, by its fields and in no order, and it meets just the zones that the volume uses.
pub fn walks_end_well_without_fault()
    ensures no_fault { (g : Geometry) (blocks : List (List ℕ)) (found : Walked) →
        0 < g.inodes → walked g blocks ≡ Ok found → IsFaultless g blocks }
    ensures ends_well { (g : Geometry) (blocks : List (List ℕ)) →
        0 < g.inodes → IsFaultless g blocks → (found : Walked) × (walked g blocks ≡ Ok found) }
    ensures zones { (g : Geometry) (blocks : List (List ℕ)) (found : Walked) →
        0 < g.inodes → walked g blocks ≡ Ok found → (zone : ℕ) → (is_marked found.zones zone ≡ true) ↔ IsUsed g blocks zone }
{}

/// A law, which does nothing when it is called: the walk tells just the first fault in the order of the tests, and
/// this is a defect of the volume that stands at the block told. A volume without a fault has no defect.
pub fn faults_are_first_defects()
    ensures defect { (g : Geometry) (blocks : List (List ℕ)) (fault : LayoutFault) (block : ℕ) →
        0 < g.inodes → walked g blocks ≡ Err (fault, block) → IsDefect g blocks fault block }
    ensures first { (g : Geometry) (blocks : List (List ℕ)) (fault : LayoutFault) (block : ℕ) →
        0 < g.inodes → walked g blocks ≡ Err (fault, block) → IsFirstFault g blocks fault block }
    ensures told { (g : Geometry) (blocks : List (List ℕ)) (fault : LayoutFault) (block : ℕ) →
        0 < g.inodes → IsFirstFault g blocks fault block → walked g blocks ≡ Err (fault, block) }
    ensures none { (g : Geometry) (blocks : List (List ℕ)) (fault : LayoutFault) (block : ℕ) →
        IsFaultless g blocks → IsDefect g blocks fault block → ⊥ }
{}

/// A law, which does nothing when it is called: a volume without a fault has one tree by its fields, which is the
/// one that the walk gives.
pub fn volumes_have_one_tree()
    ensures by_fields { (g : Geometry) (blocks : List (List ℕ)) (tree : List (ℕ × Node)) →
        0 < g.inodes → tree_of g blocks ≡ Ok tree → IsVolumeTree g blocks tree }
    ensures by_walk { (g : Geometry) (blocks : List (List ℕ)) (tree : List (ℕ × Node)) →
        0 < g.inodes → IsVolumeTree g blocks tree → tree_of g blocks ≡ Ok tree }
    ensures one { (g : Geometry) (blocks : List (List ℕ)) (tree other : List (ℕ × Node)) →
        IsVolumeTree g blocks tree → IsVolumeTree g blocks other → tree ≡ other }
{}

/// A law, which does nothing when it is called: each block of a file that is no hole has a zone of data of its own,
/// outside the metadata, whose bytes are the block's.
pub fn file_blocks_have_zones()
    ensures bytes { (g : Geometry) (blocks : List (List ℕ)) (tree : List (ℕ × Node)) → IsVolumeTree g blocks tree →
        (birth index : ℕ) (f : File) → at_number tree birth ≡ Some (nodes.File f) →
        at_number f.blocks index ≡ option_map (disk_of blocks) (zone_of_block g blocks birth index) }
    ensures within { (g : Geometry) (blocks : List (List ℕ)) (tree : List (ℕ × Node)) → IsVolumeTree g blocks tree →
        (birth index zone : ℕ) (f : File) → at_number tree birth ≡ Some (nodes.File f) →
        zone_of_block g blocks birth index ≡ Some zone → (g.first ≤ zone) × (zone < g.zones) }
    ensures one_place { (g : Geometry) (blocks : List (List ℕ)) (tree : List (ℕ × Node)) → IsVolumeTree g blocks tree →
        (birth index other at zone : ℕ) (f more : File) → at_number tree birth ≡ Some (nodes.File f) → at_number tree other ≡ Some (nodes.File more) →
        zone_of_block g blocks birth index ≡ Some zone → zone_of_block g blocks other at ≡ Some zone → (birth ≡ other) × (index ≡ at) }
    ensures outside { (g : Geometry) (blocks : List (List ℕ)) (tree : List (ℕ × Node)) → IsVolumeTree g blocks tree → IsSound g →
        (birth index zone : ℕ) (f : File) → at_number tree birth ≡ Some (nodes.File f) →
        zone_of_block g blocks birth index ≡ Some zone → IsMetadata g blocks zone → ⊥ }
    ensures kept { (g : Geometry) (blocks other : List (List ℕ)) → 0 < g.inodes → AgreeOnMetadata g blocks other →
        (tree : List (ℕ × Node)) → IsVolumeTree g blocks tree →
        (birth index : ℕ) (f : File) → at_number tree birth ≡ Some (nodes.File f) →
        zone_of_block g other birth index ≡ zone_of_block g blocks birth index }
{}

/// A law, which does nothing when it is called: the walk reads metadata alone, so volumes with the same metadata
/// have trees that are alike, with the same metadata at each birth; and which blocks the metadata are is said by
/// the metadata.
pub fn metadata_gives_trees()
    ensures read { (g : Geometry) (blocks : List (List ℕ)) → 0 < g.inodes →
        (block : ℕ) → In block (metadata g blocks) → IsMetadata g blocks block }
    ensures walk { (g : Geometry) (blocks other : List (List ℕ)) → 0 < g.inodes → AgreeOnMetadata g blocks other →
        walked g other ≡ walked g blocks }
    ensures alike { (g : Geometry) (blocks other : List (List ℕ)) (tree : List (ℕ × Node)) → 0 < g.inodes → AgreeOnMetadata g blocks other →
        tree_of g blocks ≡ Ok tree →
        (changed : List (ℕ × Node)) × (tree_of g other ≡ Ok changed) × AreAlike tree changed ×
        ((birth : ℕ) → SameMetadataAtOrNone (at_number tree birth) (at_number changed birth)) }
    ensures stays { (g : Geometry) (blocks other : List (List ℕ)) → 0 < g.inodes → AgreeOnMetadata g blocks other → IsFaultless g blocks →
        (block : ℕ) → IsMetadata g other block ↔ IsMetadata g blocks block }
{}
