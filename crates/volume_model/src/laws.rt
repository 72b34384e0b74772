//! Laws of a changeable volume. Each does nothing when it is called.
ghost use Rattle.std.specs.Prelude.{◌≡◌, ◌≢◌, ℕ, ◌+◌, ◌*◌, ◌/◌, ◌%◌, ◌^◌, ◌<◌, ◌≤◌, ◌⊎◌, ◌↔◌, nat_eq, nat_lt, Bool, true, false, List, [], ◌∷◌, filter, length, slice_index_or, slice_set, Option, Some, None, Ok, IfSome};
ghost use Rattle.std.specs.List.{slice_get};
ghost use Rattle.std.specs.List.Sorted.{IsStrictlySortedBy};
ghost use Rattle.std.specs.Map.{keys_of};
ghost use Rattle.blk_base.specs.Members.{In};
ghost use Rattle.byte_fields.specs.Fields.{record_at};
ghost use Rattle.minix_layout.specs.declared.division.Geometry.{Geometry};
ghost use Rattle.minix_layout.specs.declared.inode.Inode.{Inode};
ghost use Rattle.minix_layout.specs.declared.slot.Slot.{Slot};
ghost use Rattle.minix_layout.specs.Geometry.{IsSound};
ghost use Rattle.minix_layout.specs.Widths.{IsWidth, slot_size, slots_a_block};
ghost use Rattle.minix_layout.specs.Inodes.{FitInode};
ghost use Rattle.minix_layout.specs.Slots.{slot_of, IsEntry};
ghost use Rattle.tree_model.specs.declared.node.Node.{Node};
ghost use Rattle.tree_model.specs.Trees.{IsSameButBirths};
ghost use Rattle.tree_model.specs.Maps.{at_number, at_name, put_number, name_cmp};
ghost use Rattle.tree_model.specs.Paths.{is_dot};
ghost use Rattle.volume_ops.specs.declared.found.FoundNode.{FoundNode};
ghost use Rattle.volume_ops.specs.declared.found.Mapped.{Mapped};
ghost use Rattle.volume_ops.specs.VolumeFields.{inode_at};
ghost use Rattle.volume_ops.specs.Places.{inode_of_birth, table_block, zone_number};
ghost use Rattle.volume_ops.specs.Volume.{disk_of, walked, tree_of};
ghost use Rattle.volume_ops.specs.Marks.{is_marked};
ghost use Rattle.volume_ops.specs.Walk.{Walked};
ghost use Rattle.volume_ops.specs.Faultless.{IsFaultless};
ghost use Rattle.volume_model.specs.declared.placed.Placed.{Placed};
ghost use Rattle.volume_model.specs.declared.placed.Part.TheVariants as parts;
ghost use Rattle.volume_model.specs.declared.placed.DirectoryPart.{DirectoryPart};
ghost use Rattle.volume_model.specs.Edits.{Edit, put_inode, put_slot, put_entry, clear_from, edited, edited_all, touched_by_all};
ghost use Rattle.volume_model.specs.Volume.{Place, block, zone_in, IsWhole, IsOfNumbers, IsStored, HasNumber, IsVolumeOf};
ghost use Rattle.volume_model.specs.Ways.{way, IsJust};
ghost use Rattle.volume_model.specs.MapBlock.{TakenZones};
ghost use Rattle.volume_model.specs.Cut.{has_numbers};
ghost use Rattle.volume_model.specs.Counts.{keeps_below, zones_of_file, indices_of};
ghost use Rattle.volume_model.specs.Touched.{Contents, Touched, Tells, Follows, and_then};
ghost use Rattle.volume_model.specs.Moves.{IsVolume, inode_back, back_told, AreJust, MayAdd, MayChange, AreFree, added, node_removed, with_mapped, file_mapped, directory_mapped, file_mapped_touches, file_cut, file_cut_touches, name_added, name_removed};
ghost use Rattle.minix_tables.specs.directories.Slots.{room};
ghost use Rattle.volume_model.specs.Trees.{tree_now};
ghost use Rattle.volume_model.specs.Plain.{inode_born, HasZone, IsPlainVolume, IsPlainContents};
ghost use Rattle.volume_model.specs.ImageNodes.{IsImage, part_found, contents_in};
ghost use Rattle.volume_model.specs.NewVolume.{new_volume};

/// A law, which does nothing when it is called: where the zones of numbers of an inode keep their bytes, each of its
/// places has the zone that it had; and where its other zones and its inode do too, its node is stored as before.
pub fn nodes_stay()
    ensures zones { (blocks after : List (List ℕ)) (i : Inode) →
        ((x : Place) → IsOfNumbers x → zone_in blocks i x ≢ 0 →
        disk_of after (zone_in blocks i x) ≡ disk_of blocks (zone_in blocks i x)) →
        (x : Place) → zone_in after i x ≡ zone_in blocks i x }
    ensures node { (g : Geometry) (blocks after : List (List ℕ)) (p : Placed) → IsStored g blocks p →
        inode_at g after p.number ≡ inode_at g blocks p.number →
        ((x : Place) → zone_in blocks p.inode x ≢ 0 →
        disk_of after (zone_in blocks p.inode x) ≡ disk_of blocks (zone_in blocks p.inode x)) →
        IsStored g after p }
{}

/// A law, which does nothing when it is called: a block that no write of a list touches keeps its bytes, and an inode
/// or a slot that was written is read back, while each other one is read as before.
pub fn writes_are_read()
    ensures untouched { (g : Geometry) (es : List Edit) (blocks : List (List ℕ)) (b : ℕ) →
        (In b (touched_by_all g es) → ⊥) → disk_of (edited_all g blocks es) b ≡ disk_of blocks b }
    ensures inode { (g : Geometry) (blocks : List (List ℕ)) (n : ℕ) (i : Inode) →
        IsWhole blocks → table_block g n < length blocks → FitInode i →
        inode_at g (edited g blocks (put_inode n i)) n ≡ i }
    ensures other_inode { (g : Geometry) (blocks : List (List ℕ)) (n m : ℕ) (i : Inode) →
        IsWhole blocks → table_block g n < length blocks → 0 < n → 0 < m → m ≢ n →
        inode_at g (edited g blocks (put_inode n i)) m ≡ inode_at g blocks m }
    ensures slot { (g : Geometry) (blocks : List (List ℕ)) (zone at : ℕ) (s : Option Slot) →
        IsWidth g.width → IsWhole blocks → zone < length blocks → at < slots_a_block g.width → IfSome s (λ e. IsEntry g.width e) →
        slot_of g.width (record_at (slot_size g.width) at (disk_of (edited g blocks (put_slot zone at s)) zone)) ≡ Ok s }
    ensures other_slot { (g : Geometry) (blocks : List (List ℕ)) (zone at other place : ℕ) (s : Option Slot) →
        IsWidth g.width → IsWhole blocks → zone < length blocks → at < slots_a_block g.width → place < slots_a_block g.width → IfSome s (λ e. IsEntry g.width e) →
        ((other ≡ zone) → (place ≡ at) → ⊥) →
        slot_of g.width (record_at (slot_size g.width) place (disk_of (edited g blocks (put_slot zone at s)) other)) ≡
        slot_of g.width (record_at (slot_size g.width) place (disk_of blocks other)) }
{}

/// A law, which does nothing when it is called: of a node's inode that is written back, and of a zone of numbers that is
/// cleared from one of them on. What is told has other bytes than before, and what is not told has the same.
pub fn changed_blocks_are_told()
    ensures inode { (g : Geometry) (v : Contents) (n : ℕ) (p : Placed) (i : Inode) (b : ℕ) →
        IsSound g → IsVolume g v → at_number v.nodes n ≡ Some p → FitInode i →
        In b (back_told g p i) ↔ (disk_of (inode_back g v.blocks p i) b ≢ disk_of v.blocks b) }
    ensures numbers { (g : Geometry) (blocks : List (List ℕ)) (zone at : ℕ) →
        IsWhole blocks → zone < length blocks → at ≤ 512 →
        (has_numbers blocks zone at ≡ true) ↔
        (disk_of (edited g blocks (clear_from zone at)) zone ≢ disk_of blocks zone) }
{}

/// A law, which does nothing when it is called: a volume to which a node without zones is added, under a new birth
/// and in an inode that no node has, is a volume with that node; and one that loses a node that no directory names,
/// whose inode becomes zeros, is a volume without it.
pub fn nodes_come_and_go()
    ensures added { (g : Geometry) (v : Contents) (n : ℕ) (q : Placed) →
        IsVolume g v → MayAdd g v.blocks v.nodes n q → IsVolume g (added g v n q) }
    ensures removed { (g : Geometry) (v : Contents) (n : ℕ) (p : Placed) → IsSound g → IsVolume g v →
        at_number v.nodes n ≡ Some p →
        ((a : ℕ) (q : Placed) (d : DirectoryPart) (name : List ℕ) → at_number v.nodes a ≡ Some q →
        q.part ≡ parts.Directory d → at_name d.names name ≢ Some n) →
        IsVolume g (node_removed g v n p) }
{}

/// A law, which does nothing when it is called: a volume of which one node changes, where no write touched a zone of
/// another node and the node has none of theirs, is a volume with the changed node.
pub fn changed_node_stands()
    ensures stands { (g : Geometry) (v : Contents) (after : List (List ℕ)) (n : ℕ) (p q : Placed) (written : List ℕ) →
        IsVolumeOf g v.blocks v.nodes → MayChange g v.blocks after v.nodes n p q (λ z. In z written) →
        IsVolumeOf g after (put_number v.nodes n q) }
    ensures just { (g : Geometry) (v : Contents) (after : List (List ℕ)) (n : ℕ) (p q : Placed) (written : List ℕ) →
        IsVolumeOf g v.blocks v.nodes → MayChange g v.blocks after v.nodes n p q (λ z. In z written) →
        AreJust v.blocks v.nodes → IsJust (λ x. zone_in after q.inode x) → AreJust after (put_number v.nodes n q) }
{}

/// A law, which does nothing when it is called: a volume in whose directory a new name and its slot are written, for
/// a node that is there and in a block that is mapped, is a volume with that name; and one whose name goes, with its
/// slot, is a volume without it.
pub fn names_come_and_go()
    ensures added { (g : Geometry) (v : Contents) (n : ℕ) (p : Placed) (d : DirectoryPart) (s : Slot) (birth : ℕ) →
        IsSound g → IsVolume g v → at_number v.nodes n ≡ Some p → p.part ≡ parts.Directory d →
        zone_in v.blocks p.inode (block (room d.slots / slots_a_block g.width)) ≢ 0 → IsEntry g.width s → is_dot s.name ≡ false →
        at_name d.names s.name ≡ None → HasNumber v.nodes birth s.inode → slot_size g.width * (length d.slots + 1) < 2 ^ 32 →
        IsVolume g (name_added g v n p d s birth) }
    ensures removed { (g : Geometry) (v : Contents) (n : ℕ) (p : Placed) (d : DirectoryPart) (k : ℕ) (s : Slot) →
        IsSound g → IsVolume g v → at_number v.nodes n ≡ Some p → p.part ≡ parts.Directory d →
        IsStrictlySortedBy name_cmp (keys_of d.names) → slice_get d.slots k ≡ Some (Some s) → is_dot s.name ≡ false →
        IsVolume g (name_removed g v n p d k s) }
{}

/// A law, which does nothing when it is called: a volume in which a block of a file or a directory is mapped, to zones
/// that no node has, is a volume with that block; what was written is told; and the file uses as many zones more as
/// there were holes on the way to the block.
pub fn mapped_block_stands()
    ensures file { (g : Geometry) (v : Contents) (n : ℕ) (p : Placed) (zones : List Mapped) (t : TakenZones)
        (content : List ℕ) (index : ℕ) → IsSound g → IsVolume g v → at_number v.nodes n ≡ Some p →
        p.part ≡ parts.File zones → length content ≡ 1024 → index < 262663 →
        zone_in v.blocks p.inode (block index) ≡ 0 → AreFree g v.blocks v.nodes p.inode t (way index) →
        IsVolume g (file_mapped g v n p zones t content index) }
    ensures directory { (g : Geometry) (v : Contents) (n : ℕ) (p : Placed) (d : DirectoryPart) (t : TakenZones)
        (content : List ℕ) (index : ℕ) → IsSound g → IsVolume g v → at_number v.nodes n ≡ Some p →
        p.part ≡ parts.Directory d → length content ≡ 1024 → index < 262663 →
        AreFree g v.blocks v.nodes p.inode t (way index) →
        IsVolume g (directory_mapped g v n p d t content index) }
    ensures told { (g : Geometry) (v : Contents) (n : ℕ) (p : Placed) (zones : List Mapped) (t : TakenZones)
        (content : List ℕ) (index : ℕ) → IsSound g → IsVolume g v → at_number v.nodes n ≡ Some p →
        p.part ≡ parts.File zones → length content ≡ 1024 → index < 262663 →
        zone_in v.blocks p.inode (block index) ≡ 0 → AreFree g v.blocks v.nodes p.inode t (way index) →
        Tells g v (file_mapped g v n p zones t content index) (file_mapped_touches g v n p t content index)
        (λ birth at. (birth ≡ n) × (at ≡ index)) }
    ensures counted { (g : Geometry) (v : Contents) (n : ℕ) (p : Placed) (zones : List Mapped) (index zone : ℕ) →
        IsVolume g v → at_number v.nodes n ≡ Some p → p.part ≡ parts.File zones → index < 262663 →
        zone_in v.blocks p.inode (block index) ≡ 0 →
        zones_of_file (indices_of (with_mapped zones index zone)) ≡ zones_of_file (indices_of zones) +
        length (filter (λ x. nat_eq (zone_in v.blocks p.inode x) 0) (way index)) }
{}

/// A law, which does nothing when it is called: a volume in which the blocks of a file from an index on go is a volume
/// with the blocks below it; what was written and freed is told.
pub fn cut_file_stands()
    ensures file { (g : Geometry) (v : Contents) (n : ℕ) (p : Placed) (zones : List Mapped) (from : ℕ) →
        IsSound g → IsVolume g v → at_number v.nodes n ≡ Some p → p.part ≡ parts.File zones →
        IsVolume g (file_cut g v n p zones (keeps_below (indices_of zones) from) from) }
    ensures told { (g : Geometry) (v : Contents) (n : ℕ) (p : Placed) (zones : List Mapped) (from : ℕ) →
        IsSound g → IsVolume g v → at_number v.nodes n ≡ Some p → p.part ≡ parts.File zones →
        Tells g v (file_cut g v n p zones (keeps_below (indices_of zones) from) from)
        (file_cut_touches g v n p zones (keeps_below (indices_of zones) from) from) (λ birth index. ⊥) }
{}

/// A law, which does nothing when it is called: what two calls tell, one after the other, is what they tell as one,
/// where the second takes nothing that the first freed.
pub fn calls_are_told_as_one()
    ensures { (g : Geometry) (u v w : Contents) (s t : Touched) (first second : List (ℕ × ℕ)) →
        Tells g u v s (λ birth index. In (birth, index) first) →
        Tells g v w t (λ birth index. In (birth, index) second) → Follows w s t →
        Tells g u w (and_then s t) (λ birth index. In (birth, index) first ⊎ In (birth, index) second) }
{}

/// A law, which does nothing when it is called: the blocks of a plain volume that changes are a plain image without a
/// fault, and whoever reads this image finds the volume's tree, but for the births of its nodes, and its zones.
pub fn plain_volumes_are_read_back()
    ensures no_fault { (g : Geometry) (v : Contents) → IsPlainContents g v → IsFaultless g v.blocks }
    ensures tree { (g : Geometry) (v : Contents) → IsPlainContents g v →
        (tree : List (ℕ × Node)) × (tree_of g v.blocks ≡ Ok tree) × IsSameButBirths (tree_now v.blocks v.nodes) tree }
    ensures plain { (g : Geometry) (v : Contents) (tree : List (ℕ × Node)) → IsPlainContents g v →
        tree_of g v.blocks ≡ Ok tree → IsPlainVolume g v.blocks tree }
    ensures zones { (g : Geometry) (v : Contents) (found : Walked) → IsPlainContents g v → walked g v.blocks ≡ Ok found →
        (zone : ℕ) → (is_marked found.zones zone ≡ true) ↔ HasZone v zone }
{}

/// A law, which does nothing when it is called: a plain image that was read is a plain volume that can change, with
/// the nodes that the walk found, and it stands for the image's own tree.
pub fn plain_images_can_change()
    ensures stands { (g : Geometry) (blocks : List (List ℕ)) (tree : List (ℕ × Node)) → IsImage g blocks → 0 < g.inodes →
        IsPlainVolume g blocks tree → IsPlainContents g (contents_in g blocks tree) }
    ensures tree { (g : Geometry) (blocks : List (List ℕ)) (tree : List (ℕ × Node)) → IsImage g blocks → 0 < g.inodes →
        IsPlainVolume g blocks tree → tree_now blocks (contents_in g blocks tree).nodes ≡ tree }
    ensures found { (g : Geometry) (blocks : List (List ℕ)) (tree : List (ℕ × Node)) (all : Walked) → 0 < g.inodes →
        IsPlainVolume g blocks tree → walked g blocks ≡ Ok all → (n : FoundNode) → In n all.nodes →
        at_number (contents_in g blocks tree).nodes n.birth ≡ Some (record {
          number = inode_of_birth n.birth;
          inode = inode_born g blocks n.birth;
          part = part_found g blocks (inode_born g blocks n.birth) n.found;
        }) }
{}

/// A law, which does nothing when it is called: there are plain volumes of every size, since a new volume with its
/// root alone is one.
pub fn new_volumes_are_plain()
    ensures { (g : Geometry) → IsSound g → IsPlainContents g (new_volume g) }
{}
