//! Reading a source to its end.
ghost use Rattle.std.specs.Prelude.{◌≡◌, ℕ, ◌<◌, ◌≤◌, ◌++◌, List, length, take, IfOk, OnOk, IsErrOf, vec_len};
ghost use Rattle.std.specs.Io.KnownBytes.{Consumes};
ghost use Rattle.blk_base.specs.Image.{whole_blocks, last_part, IsImageRead};
ghost use Rattle.blk_base.specs.declared.block.TheConstants.{BLOCK_BYTES};
ghost use Rattle.blk_base.specs.Streams.{Rose, Drained};

use crate::{BLOCK_BYTES, Image, NoMemory, Source};
use std::alloc::{AllocError, Global};

/// Why a source was not read to its end.
#[derive(Clone, Copy, Debug, PartialEq, Eq)]
pub enum ReadEnd {
    Fault,
    TooLong,
    NoMemory,
}

impl From<AllocError> for ReadEnd {
    ghost use Rattle.std.specs.Prelude.{◌≡◌};
    ghost use Rattle.blk_base.specs.declared.reading.ReadEnd.TheVariants as ends;

    ghost from_gives = { λ _ e. e ≡ ends.NoMemory };

    fn from(_: AllocError) -> Self {
        ReadEnd::NoMemory
    }
}

impl From<NoMemory> for ReadEnd {
    ghost use Rattle.std.specs.Prelude.{◌≡◌};
    ghost use Rattle.blk_base.specs.declared.reading.ReadEnd.TheVariants as ends;

    ghost from_gives = { λ _ e. e ≡ ends.NoMemory };

    fn from(_: NoMemory) -> Self {
        ReadEnd::NoMemory
    }
}

// How many bytes are asked of a source at a time.
const PIECE_BYTES: usize = 4_096;

/// Reads a source to its end, at most `most` bytes.
pub fn read_all<S: Source>(alloc: Global, src: &mut S, most: u64) -> Result<Vec<u8>, ReadEnd>
    ensures all { IfOk result (λ v. Drained (S.left src.old) (S.left src.new) v.items) }
    ensures short { IfOk result (λ v. vec_len v ≤ most) }
    ensures too_long { IsErrOf result ReadEnd.TooLong → (bytes : List ℕ) × (most < length bytes) × Consumes (S.left src.old) (S.left src.new) bytes }
    ensures fault { IsErrOf result ReadEnd.Fault → Rose (S.faults src.old) (S.faults src.new) }
    ensures steady { (IsErrOf result ReadEnd.Fault → ⊥) → S.faults src.new ≡ S.faults src.old }
    ensures never_falls { S.faults src.old ≤ S.faults src.new }
{
    let mut bytes = Vec::new(alloc);
    let mut buf = [0u8; PIECE_BYTES];
    while bytes.len() as u64 <= most {
        let Ok(n) = src.read(&mut buf) else {
            return Err(ReadEnd::Fault);
        };
        if n == 0 {
            return Ok(bytes);
        }
        bytes.extend_from_slice(&buf[..n])?;
    }
    Err(ReadEnd::TooLong)
}

/// Reads a source to its end, at most `most` bytes, and cuts what it reads into blocks. No byte is held beside the image but
/// those of one piece, and a block of zeros has no body.
pub fn read_image<S: Source>(alloc: Global, src: &mut S, most: u64) -> Result<Image, ReadEnd>
    ensures all { IfOk result (IsImageRead most (S.left src.old) (S.left src.new)) }
    ensures too_long { IsErrOf result ReadEnd.TooLong → (bytes : List ℕ) × (most < length bytes) × Consumes (S.left src.old) (S.left src.new) bytes }
    ensures fault { IsErrOf result ReadEnd.Fault → Rose (S.faults src.old) (S.faults src.new) }
    ensures steady { (IsErrOf result ReadEnd.Fault → ⊥) → S.faults src.new ≡ S.faults src.old }
    ensures never_falls { S.faults src.old ≤ S.faults src.new }
{
    let mut image = Image::zeroed(alloc, 0)?;
    let mut buf = [0u8; PIECE_BYTES];
    // How many bytes at the front of the buffer are in no block yet.
    let mut held = 0;
    let mut room = most;
    'reads: loop {
        let Ok(n) = src.read(&mut buf[held..]) else {
            return Err(ReadEnd::Fault);
        };
        if n == 0 {
            return Ok(image);
        }
        if n as u64 > room {
            return Err(ReadEnd::TooLong);
        }
        room -= n as u64;
        held = take_blocks(&mut image, &mut buf, held + n)?;
    }
}

// Appends the whole blocks of the first so many bytes of a buffer to an image, and moves the bytes behind these blocks to
// the front. Answers how many these are.
fn take_blocks(image: &mut Image, buf: &mut [u8], held: usize) -> Result<usize, NoMemory>
    requires { held ≤ length buf.old }
    ensures appended { OnOk result (image.new ≡ image.old ++ whole_blocks (take held buf.old)) }
    ensures rest { IfOk result (λ rest. take rest buf.new ≡ last_part (take held buf.old)) }
    ensures short { IfOk result (λ rest. rest < BLOCK_BYTES) }
    ensures len { length buf.new ≡ length buf.old }
{
    image.push_blocks(&buf[..held])?;
    let whole = BLOCK_BYTES * (held / BLOCK_BYTES);
    buf.copy_within(whole..held, 0);
    Ok(held - whole)
}
