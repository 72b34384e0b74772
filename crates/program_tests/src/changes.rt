//! Changes of an image, a line each: `length N` cuts it off or fills it up with zeros, `at N HEX` writes these bytes from byte N
//! on, and `fill N COUNT HEX` so many bytes of this value.
use blk_base::NoMemory;
use script_words::{hex_byte, numeral};
use std::alloc::{AllocError, AllocFailed, Global};

/// Why a row is not played.
#[derive(Clone, Copy, PartialEq, Eq, Debug)]
pub enum RowFault {
    /// Its text is no row, or a line of it no change.
    Text,
    NoMemory,
}

impl From<NoMemory> for RowFault {
    fn from(_: NoMemory) -> RowFault {
        RowFault::NoMemory
    }
}

impl From<AllocError> for RowFault {
    fn from(_: AllocError) -> RowFault {
        RowFault::NoMemory
    }
}

impl<T: Drop> From<AllocFailed<T>> for RowFault {
    fn from(_: AllocFailed<T>) -> RowFault {
        RowFault::NoMemory
    }
}

/// The bytes of a text; where its first line is `image` or `base` those of the image, with the changes of the other lines.
pub fn changed(alloc: Global, image: &[u8], text: &str) -> Result<Vec<u8>, RowFault> {
    let lines = text.strip_prefix("image\n");
    let Some(lines) = lines.or(text.strip_prefix("base\n")) else {
        return Ok(text.as_bytes().to_vec(alloc)?);
    };
    let mut bytes = image.to_vec(alloc)?;
    for line in lines.lines() {
        change(&mut bytes, line)?;
    }
    Ok(bytes)
}

fn number(word: &str) -> Result<usize, RowFault> {
    let number = numeral(word.as_bytes()).ok_or(RowFault::Text)?;
    usize::try_from(number).map_err(|_| RowFault::Text)
}

fn change(bytes: &mut Vec<u8>, line: &str) -> Result<(), RowFault> {
    let (verb, rest) = line.split_once(' ').ok_or(RowFault::Text)?;
    let (place, rest) = rest.split_once(' ').unwrap_or((rest, ""));
    let place = number(place)?;
    match verb {
        "length" => Ok(bytes.resize(place, 0)?),
        "at" => put(bytes.as_mut_slice(), place, rest),
        "fill" => fill(bytes.as_mut_slice(), place, rest),
        _ => Err(RowFault::Text),
    }
}

// Writes these bytes from a place on.
fn put(bytes: &mut [u8], place: usize, hex: &str) -> Result<(), RowFault> {
    for (slot, digits) in bytes.iter_mut().skip(place).zip(hex.as_bytes().chunks(2)) {
        *slot = hex_byte(digits).ok_or(RowFault::Text)?;
    }
    Ok(())
}

// Fills so many bytes from a place on with one value.
fn fill(bytes: &mut [u8], place: usize, rest: &str) -> Result<(), RowFault> {
    let (count, hex) = rest.split_once(' ').ok_or(RowFault::Text)?;
    let value = hex_byte(hex.as_bytes()).ok_or(RowFault::Text)?;
    for slot in bytes.iter_mut().skip(place).take(number(count)?) {
        *slot = value;
    }
    Ok(())
}
