//! A zone of numbers as a block: 512 numbers of two bytes, the lowest byte first.
ghost use Rattle.std.specs.Prelude.{◌≡◌, ℕ, ◌*◌, ◌<◌, length, slice_index};
ghost use Rattle.byte_fields.specs.Fields.{number_at};
ghost use Rattle.byte_fields.specs.Fields.Order.{little};

use blk_base::Block;
use byte_fields::put_u16_le;

/// The block of these 512 numbers. Each is read back, and they are all of its 1,024 bytes.
pub fn encode_zone_block(entries: &[u16]) -> Block
    requires { length entries.now ≡ 512 }
    ensures { (k : ℕ) → k < 512 → number_at little 2 (2 * k) result ≡ slice_index entries.now k }
{
    let mut bytes = [0; 1024];
    for (k, entry) in entries.iter().enumerate() {
        put_u16_le(&mut bytes, 2 * k, *entry);
    }
    Block::of(&bytes)
}
