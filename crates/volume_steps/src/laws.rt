//! Laws of calls on a volume, and of releases. Each does nothing when it is called.
ghost use Rattle.std.specs.Prelude.{◌≡◌, ◌≢◌, ◌≤◌, ◌<◌, ◌↔◌, ℕ, ◌+◌, false, true, List, [], ◌∷◌, length, Some, Ok, Err, count_by};
ghost use Rattle.blk_base.specs.Members.{In};
ghost use Rattle.minix_layout.specs.declared.bits.BitPlace.{BitPlace};
ghost use Rattle.minix_layout.specs.Bits.{has_bit, inode_bit, zone_bit};
ghost use Rattle.tree_model.specs.declared.call.Call.{Call};
ghost use Rattle.tree_model.specs.declared.call.Reply.{Reply};
ghost use Rattle.tree_model.specs.Calls.{Done, outcome, tree_after, needs, used_zones};
ghost use Rattle.tree_model.specs.Histories.{same_file, writes};
ghost use Rattle.tree_model.specs.Maps.{at_number};
ghost use Rattle.minix_tables.specs.declared.zones.zone_state.ZoneState.TheVariants as states;
ghost use Rattle.minix_tables.specs.zones.Zones.{state_of, is_free, is_quarantined};
ghost use Rattle.volume_ops.specs.declared.found.Mapped.{Mapped};
ghost use Rattle.volume_model.specs.declared.placed.Placed.{Placed};
ghost use Rattle.volume_model.specs.declared.placed.Part.TheVariants as parts;
ghost use Rattle.volume_steps.specs.Now.{VolumeNow, tree_of_now, room_of, unchanged};
ghost use Rattle.volume_steps.specs.Plain.{IsPlainNow, is_of_bytes};
ghost use Rattle.volume_steps.specs.Calls.{called, after_release};
ghost use Rattle.volume_steps.specs.NewNow.{new_now};
ghost use Rattle.minix_layout.specs.Geometry.{IsSound};
ghost use Rattle.minix_layout.specs.declared.division.Geometry.{Geometry};
ghost use Rattle.volume_steps.specs.Called.{FindsRoom};
ghost use Rattle.volume_steps.specs.laws.Steady.{IsSteady, TakesLowest, shape_at};
ghost use Rattle.volume_steps.specs.UsedInodes.{IsInodeUsed};
ghost use Rattle.volume_steps.specs.laws.Sample.{small_volume, after_calls, touched_in, count_once, numbers_of, first_zones, first_session, removing_session, renaming_session, ten_directories};

use volume_model::new_volumes_are_plain;

/// A law, which does nothing when it is called: a new volume, whose root has the first zone of data, is plain in use,
/// however it is divided.
pub fn new_volumes_are_in_use()
    ensures { (g : Geometry) → IsSound g → IsPlainNow (new_now g) }
{
    new_volumes_are_plain();
}

/// A law, which does nothing when it is called: a call that the tree refuses changes nothing and touches nothing.
pub fn refused_calls_change_nothing()
    ensures { (v : VolumeNow) (n tx : ℕ) (c : Call) (why : Reply) → outcome (room_of v.geometry) (tree_of_now v) n c ≡ Err why →
        called v n tx c ≡ record { change = unchanged v; reply = why } }
{}

/// A law, which does nothing when it is called: examples of calls on a small volume, of 64 zones with 32 inodes. A
/// directory, a file in it and a first byte in that touch the two maps, the table, the root and the new directory, but
/// not the block of the file; inodes are taken from the lowest on. What is removed then waits for its transaction, the
/// file's zone first. A file that moves touches both directories; a directory that moves besides its own first zone, for
/// its `..`; and a file that takes another one's name the map of inodes, where that was its last. Ten directories touch
/// fourteen blocks: the maps, the table, the root, and a new one each.
pub fn examples_of_changes()
    ensures blocks { (touched_in 1 1 small_volume first_session).blocks ≡
        2 ∷ 3 ∷ 6 ∷ 6 ∷ 6 ∷ 4 ∷ 5 ∷ 4 ∷ 4 ∷ 2 ∷ 4 ∷ 6 ∷ 4 ∷ 3 ∷ 4 ∷ 4 ∷ [] }
    ensures numbers { numbers_of (after_calls 1 1 small_volume first_session) ≡ 1 ∷ 2 ∷ 3 ∷ [] }
    ensures freed { (touched_in 1 1 small_volume removing_session).freed ≡ 7 ∷ 6 ∷ [] }
    ensures wait { first_zones (after_calls 1 1 small_volume removing_session) ≡ states.Used ∷ states.Quarantined 1 ∷ states.Quarantined 1 ∷ [] }
    ensures renames { (touched_in 1 1 small_volume renaming_session).blocks ≡
        2 ∷ 3 ∷ 6 ∷ 6 ∷ 6 ∷ 4 ∷ 5 ∷ 4 ∷ 4 ∷ 2 ∷ 4 ∷ 6 ∷ 4 ∷ 6 ∷ 5 ∷ 4 ∷ 2 ∷ 3 ∷ 7 ∷ 7 ∷ 7 ∷ 4 ∷ 5 ∷ 4 ∷ 4 ∷
        5 ∷ 4 ∷ 6 ∷ 4 ∷ 7 ∷ 4 ∷ 2 ∷ 4 ∷ 5 ∷ 5 ∷ 5 ∷ 2 ∷ 4 ∷ [] }
    ensures left { numbers_of (after_calls 1 1 small_volume renaming_session) ≡ 1 ∷ 2 ∷ 4 ∷ 5 ∷ [] }
    ensures directories { count_once (touched_in 1 1 small_volume ten_directories).blocks ≡ 14 }
{}

/// A law, which does nothing when it is called: a call leaves a plain volume plain. So it is where no node has the call's
/// number or a higher one, and as many zones are free as it needs; else it waits.
pub fn calls_keep_volumes_plain()
    ensures { (v : VolumeNow) (n tx : ℕ) (c : Call) → FindsRoom v n c → IsPlainNow (called v n tx c).change.volume }
{}

/// A law, which does nothing when it is called: the volume then stands for the tree that the call makes of its tree.
pub fn calls_do_the_tree_step()
    ensures { (v : VolumeNow) (n tx : ℕ) (c : Call) → FindsRoom v n c →
        tree_of_now (called v n tx c).change.volume ≡ tree_after (room_of v.geometry) (tree_of_now v) n c }
{}

/// A law, which does nothing when it is called: what a call touched is told. Its pages are the blocks of files that it
/// writes; only calls that write or cut a file have any. A node that comes or goes, or whose size, mapped blocks or slots
/// change, is among the nodes; and where one of these is a file that is there afterwards, a block before the zones is among
/// the blocks: that of the table which has its inode, or one of the map of zones.
pub fn calls_tell_what_they_touch()
    ensures told { (v : VolumeNow) (n tx : ℕ) (c : Call) → FindsRoom v n c →
        IsSteady tx v (called v n tx c).change
        (λ birth index. writes (room_of v.geometry) (tree_of_now v) n c birth index ≡ true) }
    ensures no_pages { (v : VolumeNow) (n tx : ℕ) (c : Call) → FindsRoom v n c → is_of_bytes c ≡ false →
        (called v n tx c).change.touched.pages ≡ [] }
    ensures nodes { (v : VolumeNow) (n tx : ℕ) (c : Call) → FindsRoom v n c → (birth : ℕ) →
        shape_at (called v n tx c).change.volume.contents.nodes birth ≢ shape_at v.contents.nodes birth →
        In birth (called v n tx c).change.touched.nodes }
    ensures files { (v : VolumeNow) (n tx : ℕ) (c : Call) → FindsRoom v n c → (birth : ℕ) →
        same_file (at_number (tree_of_now v) birth) (at_number (tree_of_now (called v n tx c).change.volume) birth) ≡ false →
        In birth (called v n tx c).change.touched.nodes }
    ensures tables { (v : VolumeNow) (n tx : ℕ) (c : Call) → FindsRoom v n c → (birth : ℕ) (p : Placed) (zones : List Mapped) →
        In birth (called v n tx c).change.touched.nodes →
        at_number (called v n tx c).change.volume.contents.nodes birth ≡ Some p → p.part ≡ parts.File zones →
        (b : ℕ) × In b (called v n tx c).change.touched.blocks × (b < v.geometry.first) }
{}

/// A law, which does nothing when it is called: a call that is done takes as many free zones as it needs, from the lowest
/// on: none becomes free by it, and those that it took lie below all that are free afterwards. What it frees waits, so
/// that each zone that the tree uses more was free before.
pub fn calls_take_what_they_need()
    ensures taken { (v : VolumeNow) (n tx : ℕ) (c : Call) (d : Done) → FindsRoom v n c →
        outcome (room_of v.geometry) (tree_of_now v) n c ≡ Ok d →
        count_by is_free (called v n tx c).change.volume.zones.states + needs (tree_of_now v) n c ≡
        count_by is_free v.zones.states }
    ensures lowest { (v : VolumeNow) (n tx : ℕ) (c : Call) → FindsRoom v n c →
        TakesLowest v.zones (called v n tx c).change.volume.zones }
    ensures waiting { (v : VolumeNow) (n tx : ℕ) (c : Call) → FindsRoom v n c →
        count_by is_quarantined (called v n tx c).change.volume.zones.states ≡
        count_by is_quarantined v.zones.states + length (called v n tx c).change.touched.freed }
    ensures balance { (v : VolumeNow) (n tx : ℕ) (c : Call) → FindsRoom v n c →
        count_by is_free (called v n tx c).change.volume.zones.states +
        used_zones (tree_of_now (called v n tx c).change.volume) + length (called v n tx c).change.touched.freed ≡
        count_by is_free v.zones.states + used_zones (tree_of_now v) }
{}

/// A law, which does nothing when it is called: a call keeps both maps. The bit of each zone and of each inode that it
/// took is set, that of each that it freed is clear, and no other bit changes.
pub fn calls_mark_what_is_in_use()
    ensures taken_zones { (v : VolumeNow) (n tx : ℕ) (c : Call) → FindsRoom v n c → (zone : ℕ) →
        state_of v.zones zone ≢ Some states.Used →
        state_of (called v n tx c).change.volume.zones zone ≡ Some states.Used →
        has_bit (called v n tx c).change.volume.contents.blocks (zone_bit v.geometry zone) ≡ true }
    ensures freed_zones { (v : VolumeNow) (n tx : ℕ) (c : Call) → FindsRoom v n c → (zone : ℕ) →
        In zone (called v n tx c).change.touched.freed →
        has_bit (called v n tx c).change.volume.contents.blocks (zone_bit v.geometry zone) ≡ false }
    ensures other_zones { (v : VolumeNow) (n tx : ℕ) (c : Call) → FindsRoom v n c → (zone : ℕ) →
        v.geometry.first ≤ zone → zone < v.geometry.zones →
        (state_of (called v n tx c).change.volume.zones zone ≡ Some states.Used) ↔ (state_of v.zones zone ≡ Some states.Used) →
        has_bit (called v n tx c).change.volume.contents.blocks (zone_bit v.geometry zone) ≡
        has_bit v.contents.blocks (zone_bit v.geometry zone) }
    ensures taken_inodes { (v : VolumeNow) (n tx : ℕ) (c : Call) → FindsRoom v n c → (number : ℕ) →
        (IsInodeUsed v.contents.nodes number → ⊥) → IsInodeUsed (called v n tx c).change.volume.contents.nodes number →
        has_bit (called v n tx c).change.volume.contents.blocks (inode_bit v.geometry number) ≡ true }
    ensures freed_inodes { (v : VolumeNow) (n tx : ℕ) (c : Call) → FindsRoom v n c → (number : ℕ) →
        IsInodeUsed v.contents.nodes number → (IsInodeUsed (called v n tx c).change.volume.contents.nodes number → ⊥) →
        has_bit (called v n tx c).change.volume.contents.blocks (inode_bit v.geometry number) ≡ false }
    ensures other_inodes { (v : VolumeNow) (n tx : ℕ) (c : Call) → FindsRoom v n c → (number : ℕ) →
        0 < number → number ≤ v.geometry.inodes →
        IsInodeUsed (called v n tx c).change.volume.contents.nodes number ↔ IsInodeUsed v.contents.nodes number →
        has_bit (called v n tx c).change.volume.contents.blocks (inode_bit v.geometry number) ≡
        has_bit v.contents.blocks (inode_bit v.geometry number) }
    ensures other_bits { (v : VolumeNow) (n tx : ℕ) (c : Call) → FindsRoom v n c → (p : BitPlace) →
        2 ≤ p.block → p.block < 2 + v.geometry.imap + v.geometry.zmap → p.at < 8192 →
        ((number : ℕ) → 0 < number → number ≤ v.geometry.inodes → p ≢ inode_bit v.geometry number) →
        ((zone : ℕ) → v.geometry.first ≤ zone → zone < v.geometry.zones → p ≢ zone_bit v.geometry zone) →
        has_bit (called v n tx c).change.volume.contents.blocks p ≡ has_bit v.contents.blocks p }
{}

/// A law, which does nothing when it is called: a release keeps a plain volume plain, with its tree and all its blocks.
/// It frees the zones that waited for its transaction, and no others.
pub fn releases_only_free()
    ensures plain { (v : VolumeNow) (tx : ℕ) → IsPlainNow v → IsPlainNow (after_release v tx) }
    ensures tree { (v : VolumeNow) (tx : ℕ) → tree_of_now (after_release v tx) ≡ tree_of_now v }
    ensures contents { (v : VolumeNow) (tx : ℕ) → (after_release v tx).contents ≡ v.contents }
    ensures frees { (v : VolumeNow) (tx zone : ℕ) → state_of v.zones zone ≡ Some (states.Quarantined tx) →
        state_of (after_release v tx).zones zone ≡ Some states.Free }
    ensures others { (v : VolumeNow) (tx zone : ℕ) → state_of v.zones zone ≢ Some (states.Quarantined tx) →
        state_of (after_release v tx).zones zone ≡ state_of v.zones zone }
{}
