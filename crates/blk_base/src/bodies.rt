//! What has a present body for each block.
ghost use Rattle.std.specs.Prelude.{◌≡◌, ℕ, List};

use crate::Block;

/// Something that has a present body for each block number.
pub trait BodySource {
    ghost bodies: { Self → ℕ → List ℕ };

    fn block_bytes(&self, b: u32) -> Block
        ensures { result ≡ bodies self.now b };
}
