//! A list that is kept in proofs alone.
ghost use Rattle.std.specs.Prelude.{◌≡◌, List, [], ◌∷◌, ◌++◌};
ghost use Rattle.std.specs.Borrow.{ftrue};

use blk_base::{Block, Image};
use std::marker::{Model, PhantomData};

/// A history that contracts alone read, as its `items`. It takes no memory, and nothing of it is there at run
/// time.
#[derive(Drop)]
pub struct Trail<T> {
    of: PhantomData<T>,
    pub ghost items: { List T },
}

impl<T> Model for Trail<T> {
    ghost also_owns = { λ _. ftrue };
}

// It owns nothing.
unsafe impl<T: Send> Send for Trail<T> {}

impl<T> Trail<T> {
    pub fn new() -> Trail<T>
        ensures { result.items ≡ [] }
    {
        Trail { of: PhantomData }
    }

    /// This history with one item more. The item itself is not kept.
    pub fn and(&self, item: &T) -> Trail<T>
        ensures { result.items ≡ self.now.items ++ item.now ∷ [] }
    {
        Trail { of: PhantomData }
    }
}

impl Trail<Block> {
    /// The blocks of an image, in order.
    pub fn of_image(image: &Image) -> Trail<Block>
        ensures { result.items ≡ image.now }
    {
        let mut trail = Trail::new();
        for b in 0..image.len() {
            trail = trail.and(image.block(b));
        }
        trail
    }
}
