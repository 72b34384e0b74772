//! Laws of the layout: what is written is read back.
ghost use Rattle.std.specs.Prelude.{◌≡◌, ◌≢◌, ℕ, ◌*◌, ◌+◌, ◌/◌, ◌<◌, ◌≤◌, Bool, List, length, Option, Ok, IfSome, slice_index, slice_index_or};
ghost use Rattle.blk_base.specs.Block.{filled};
ghost use Rattle.byte_fields.specs.Fields.{Apart, record_at, put_record};
ghost use Rattle.minix_layout.specs.declared.division.Geometry.{Geometry};
ghost use Rattle.minix_layout.specs.declared.inode.Inode.{Inode};
ghost use Rattle.minix_layout.specs.declared.slot.Slot.{Slot};
ghost use Rattle.minix_layout.specs.Geometry.{IsSound};
ghost use Rattle.minix_layout.specs.Super.{super_of, super_block};
ghost use Rattle.minix_layout.specs.Inodes.{inode_of, inode_bytes, FitInode};
ghost use Rattle.minix_layout.specs.declared.bits.BitPlace.{BitPlace};
ghost use Rattle.minix_layout.specs.Bits.{bit_of, put_bit, inode_bit, zone_bit, has_bit, with_bit};
ghost use Rattle.minix_layout.specs.Slots.{slot_of, slot_bytes, IsEntry, IsNamed};
ghost use Rattle.minix_layout.specs.Widths.{IsWidth, slot_size, slots_a_block};

/// A law, which does nothing when it is called: what `write_super` writes of a sound geometry is read
/// back as that geometry.
pub fn super_is_read()
    ensures { (g : Geometry) → IsSound g → super_of (super_block g) ≡ Ok g }
{}

/// A law, which does nothing when it is called: what `write_inode` writes at a place is read back
/// there, other places are read as before, and no other byte changes.
pub fn inodes_are_read()
    ensures read { (b : List ℕ) (at : ℕ) (i : Inode) →
        length b ≡ 1024 → at < 32 → FitInode i →
        inode_of (record_at 32 at (put_record 32 at (inode_bytes i) b)) ≡ i }
    ensures other { (b : List ℕ) (at other : ℕ) (i : Inode) →
        length b ≡ 1024 → at < 32 → other < 32 → at ≢ other →
        inode_of (record_at 32 other (put_record 32 at (inode_bytes i) b)) ≡ inode_of (record_at 32 other b) }
    ensures bytes { (b : List ℕ) (at k : ℕ) (i : Inode) →
        length b ≡ 1024 → at < 32 → Apart 1 k 32 (32 * at) →
        slice_index (put_record 32 at (inode_bytes i) b) k ≡ slice_index b k }
{}

/// A law, which does nothing when it is called: what `write_slot` writes at a place is read back
/// there, other places are read as before, and no other byte changes.
pub fn slots_are_read()
    ensures read { (width : ℕ) (b : List ℕ) (at : ℕ) (s : Option Slot) →
        IsWidth width → length b ≡ 1024 → at < slots_a_block width → IfSome s (λ e. IsEntry width e) →
        slot_of width (record_at (slot_size width) at (put_record (slot_size width) at (slot_bytes width s) b)) ≡ Ok s }
    ensures other { (width : ℕ) (b : List ℕ) (at other : ℕ) (s : Option Slot) →
        IsWidth width → length b ≡ 1024 → at < slots_a_block width → other < slots_a_block width → at ≢ other →
        IfSome s (λ e. length e.name ≤ width) →
        slot_of width (record_at (slot_size width) other (put_record (slot_size width) at (slot_bytes width s) b)) ≡
        slot_of width (record_at (slot_size width) other b) }
    ensures bytes { (width : ℕ) (b : List ℕ) (at k : ℕ) (s : Option Slot) →
        IsWidth width → length b ≡ 1024 → at < slots_a_block width → IfSome s (λ e. length e.name ≤ width) →
        Apart 1 k (slot_size width) (slot_size width * at) →
        slice_index (put_record (slot_size width) at (slot_bytes width s) b) k ≡ slice_index b k }
    ensures fit { (width : ℕ) → IsWidth width → (slot_size width ≡ width + 2) × (slots_a_block width ≡ 1024 / (width + 2)) }
{}

/// A law, which does nothing when it is called: what `write_bit` writes is read back, other bits of the block are
/// read as before, and no other byte changes.
pub fn bits_are_read()
    ensures read { (b : List ℕ) (at : ℕ) (value : Bool) →
        length b ≡ 1024 → at < 8192 → bit_of (put_bit b at value) at ≡ value }
    ensures other { (b : List ℕ) (at other : ℕ) (value : Bool) →
        length b ≡ 1024 → at < 8192 → at ≢ other → bit_of (put_bit b at value) other ≡ bit_of b other }
    ensures bytes { (b : List ℕ) (at k : ℕ) (value : Bool) →
        k ≢ at / 8 → slice_index (put_bit b at value) k ≡ slice_index b k }
{}

/// A law, which does nothing when it is called: in the blocks of a volume a bit that was written is read back, and
/// any other bit is read as before, whichever block it stands in. Each inode and each zone of data has a bit of its
/// own.
pub fn maps_are_read()
    ensures read { (blocks : List (List ℕ)) (p : BitPlace) (value : Bool) →
        p.block < length blocks → length (slice_index_or blocks p.block (filled 0)) ≡ 1024 → p.at < 8192 →
        has_bit (with_bit blocks p value) p ≡ value }
    ensures other { (blocks : List (List ℕ)) (p q : BitPlace) (value : Bool) →
        p.block < length blocks → length (slice_index_or blocks p.block (filled 0)) ≡ 1024 → p.at < 8192 → p ≢ q →
        has_bit (with_bit blocks p value) q ≡ has_bit blocks q }
    ensures inodes_apart { (g : Geometry) (n m : ℕ) → inode_bit g n ≡ inode_bit g m → n ≡ m }
    ensures zones_apart { (g : Geometry) (z w : ℕ) →
        g.first ≤ z → g.first ≤ w → zone_bit g z ≡ zone_bit g w → z ≡ w }
    ensures maps_apart { (g : Geometry) (n z : ℕ) → IsSound g → n ≤ g.inodes → inode_bit g n ≢ zone_bit g z }
{}
