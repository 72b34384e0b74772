//! Directories by the width of their names.
ghost use Rattle.std.specs.Prelude.{◌≡◌};
ghost use Rattle.minix_layout.specs.Widths.{slot_size, slots_a_block, most_slots};

/// The bytes of a slot: the number of an inode, and a name of `width` bytes.
pub fn slot_size(width: u16) -> u32
    ensures { result ≡ slot_size width }
{
    if width == 30 { 32 } else { 16 }
}

/// The slots of a block of a directory.
pub fn slots_a_block(width: u16) -> u32
    ensures { result ≡ slots_a_block width }
{
    if width == 30 { 32 } else { 64 }
}

/// The most slots of a directory: 519 blocks, so that it needs no doubly indirect zone.
pub fn most_slots(width: u16) -> u32
    ensures { result ≡ most_slots width }
{
    519 * slots_a_block(width)
}
