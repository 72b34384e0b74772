//! Runs of bytes in a block.
ghost use Rattle.std.specs.Prelude.{◌≡◌, ◌+◌, ◌≤◌, length};
ghost use Rattle.byte_fields.specs.Fields.{bytes_at, put_bytes};

use blk_base::Block;

// So many bytes of a block from place `start`.
pub fn part(b: &Block, start: usize, len: usize) -> &[u8]
    requires { start + len ≤ 1024 }
    ensures value { result.now ≡ bytes_at len start b.now }
    ensures len { length result.now ≡ len }
{
    &b.as_slice()[start..start + len]
}

// Writes these bytes into a block from place `start`.
pub fn put_part(b: &mut Block, start: usize, bytes: &[u8])
    requires { start + length bytes.now ≤ 1024 }
    ensures value { b.new ≡ put_bytes start bytes.now b.old }
    ensures size { length b.old ≡ 1024 }
{
    let size = b.as_slice().len();
    prove!(start + bytes.len() <= size);
    for (k, byte) in bytes.iter().enumerate() {
        b.set(start + k, *byte);
    }
}
