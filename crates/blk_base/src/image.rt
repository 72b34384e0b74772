//! Images: blocks numbered from 0.
ghost use Rattle.std.specs.Prelude.{◌≡◌, ℕ, ◌+◌, ◌<◌, ◌≤◌, ◌++◌, ◌∷◌, [], List, length, take, IfOk, OnOk, OnErr, slice_get, slice_set, Some, true, vec_len, ◌/◌, ◌==◌, ◌^◌};
ghost use Rattle.blk_base.specs.Block.{filled};
ghost use Rattle.blk_base.specs.Image.{zeros, whole_blocks, bytes_at};

use crate::{BLOCK_BYTES, Block, NoMemory};
use std::alloc::Global;
use std::marker::Model;

/// A list of blocks, numbered from 0. One that is not seen to be zeros has a body of its own, for which there is room from
/// the first; only what is written takes memory of the machine.
#[derive(Drop, Debug)]
pub struct Image {
    // For each block the place of its body.
    places: Vec<u32>,
    // Zeros, and the bodies of blocks.
    bodies: Vec<Block>,
}

impl Model for Image {
    ghost use Rattle.std.specs.Prelude.{ℕ, List, ◌^◌, ◌<◌, vec_len};
    ghost use Rattle.std.specs.Vec.{vec_capacity};
    ghost use Rattle.blk_base.specs.code.Bodies.{blocks_of, IsKept};

    ghost Value = { List (List ℕ) };

    ghost view = { λ i. blocks_of i.bodies.items i.places.items };

    ghost invariant = { λ i. IsKept i.bodies.items i.places.items × (vec_len i.places < 2 ^ 32) × (vec_len i.places < vec_capacity i.bodies) };
}

impl Image {
    /// An image of `blocks` blocks of zeros.
    pub fn zeroed(alloc: Global, blocks: u32) -> Result<Image, NoMemory>
        ensures { IfOk result (λ i. i ≡ zeros blocks) }
    {
        let places = Vec::from_elem(alloc, 0, blocks as usize)?;
        let mut bodies = Vec::with_capacity(alloc, blocks as usize + 1)?;
        bodies.push_reserved(Block::fill(0));
        Ok(Image { places, bodies })
    }

    /// The blocks of these bytes. A last part that is no whole block is left out.
    pub fn from_bytes(alloc: Global, bytes: &[u8]) -> Result<Image, NoMemory>
        ensures { IfOk result (λ i. i ≡ whole_blocks bytes.now) }
    {
        let mut image = Image::zeroed(alloc, 0)?;
        image.push_blocks(bytes)?;
        Ok(image)
    }

    pub fn len(&self) -> u32
        ensures { result ≡ length self.now }
    {
        self.places.len() as u32
    }

    pub fn is_empty(&self) -> bool
        ensures { result ≡ (length self.now == 0) }
    {
        self.places.is_empty()
    }

    pub fn block(&self, b: u32) -> &Block
        requires { b < length self.now }
        ensures { slice_get self.now b ≡ Some result.now }
    {
        &self.bodies[self.places[b as usize] as usize]
    }

    /// Whether block `b` has no body of its own, and so is zeros.
    fn is_zeros(&self, b: u32) -> bool
        requires { b < length self.now }
        ensures { result ≡ true → slice_get self.now b ≡ Some (filled 0) }
    {
        self.places[b as usize] == 0
    }

    /// Writes the body of block `b`. It takes no memory.
    pub fn put(&mut self, b: u32, body: Block)
        requires { b < length self.old }
        ensures { self.new ≡ slice_set self.old b body }
    {
        let place = self.places[b as usize];
        if place != 0 {
            self.bodies[place as usize] = body;
        } else if !body.is_zeros() {
            self.places[b as usize] = self.bodies.len() as u32;
            self.bodies.push_reserved(body);
        }
    }

    /// Appends a block. Room grows by doubling, so blocks are seldom moved. More than 2^32 - 1 blocks are refused as for
    /// want of memory.
    pub fn push(&mut self, body: Block) -> Result<(), NoMemory>
        ensures pushed { OnOk result (self.new ≡ self.old ++ body ∷ []) }
        ensures kept { OnErr result (self.new ≡ self.old) }
    {
        let len = self.places.len();
        if len >= u32::MAX as usize {
            return Err(NoMemory);
        }
        self.places.reserve(1)?;
        let room = len + 2 - self.bodies.len();
        self.bodies.reserve(room)?;
        if body.is_zeros() {
            self.places.push_reserved(0);
        } else {
            self.places.push_reserved(self.bodies.len() as u32);
            self.bodies.push_reserved(body);
        }
        Ok(())
    }

    /// Appends the whole blocks of these bytes.
    pub(crate) fn push_blocks(&mut self, bytes: &[u8]) -> Result<(), NoMemory>
        ensures { OnOk result (self.new ≡ self.old ++ whole_blocks bytes.now) }
    {
        for b in 0..bytes.len() / BLOCK_BYTES {
            self.push(Block::of(block_at(bytes, b)))?;
        }
        Ok(())
    }

    /// The first so many blocks. Those without a body of their own take no time.
    pub fn front(&self, alloc: Global, blocks: u32) -> Result<Image, NoMemory>
        requires { blocks ≤ length self.now }
        ensures { IfOk result (λ i. i ≡ take blocks self.now) }
    {
        let mut image = Image::zeroed(alloc, blocks)?;
        for b in 0..blocks {
            if !self.is_zeros(b) {
                image.put(b, self.block(b).copy());
            }
        }
        Ok(image)
    }

    pub fn copy(&self, alloc: Global) -> Result<Image, NoMemory>
        ensures { IfOk result (λ i. i ≡ self.now) }
    {
        self.front(alloc, self.len())
    }
}

// The bytes of block `b`.
fn block_at(bytes: &[u8], b: usize) -> &[u8]
    requires { b < length bytes.now / BLOCK_BYTES }
    ensures value { result.now ≡ bytes_at bytes.now b }
    ensures len { length result.now ≡ BLOCK_BYTES }
{
    let start = BLOCK_BYTES * b;
    &bytes[start..start + BLOCK_BYTES]
}
