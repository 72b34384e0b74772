//! What stands in the blocks of a volume: whole bodies of bytes.
ghost use Rattle.std.specs.Prelude.{◌≡◌, ◌≤◌, ◌<◌, ℕ, length, slice_index};
ghost use Rattle.volume_ops.specs.Volume.{disk_of};
ghost use Rattle.volume_model.specs.Volume.{IsWhole};

use blk_base::Block;
use volume_ops::Disk;

// A body is whole, and has bytes.
fn is_whole(body: &Block)
    ensures whole { length body.now ≡ 1024 }
    ensures bytes { (k : ℕ) → slice_index body.now k < 256 }
{
    are_bytes(body.as_slice());
}

// They are bytes.
fn are_bytes(bytes: &[u8])
    ensures { (k : ℕ) → slice_index bytes.now k < 256 }
{
    let _ = bytes.len();
}

/// A law of the first `count` blocks, which are all: each is whole, and has bytes. It reads none of them.
pub fn blocks_are_whole(disk: &Disk, count: u16)
    requires { length disk.now ≤ count }
    ensures whole { IsWhole disk.now }
    ensures bytes { (b k : ℕ) → slice_index (disk_of disk.now b) k < 256 }
{
    for b in 0..u32::from(count) {
        is_whole(disk.body(b));
    }
}
