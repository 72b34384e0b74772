//! Writes the line of a script that says a call.
ghost use Rattle.std.specs.Prelude.{◌≡◌, ◌++◌, ◌∷◌, [], codes, IfOk, OnOk};
ghost use Rattle.std.specs.Fmt.{decimal};
ghost use Rattle.std.specs.List.{join_with_byte};
ghost use Rattle.byte_text.specs.Hex.{hex_text};
ghost use Rattle.hex.specs.Hex.{encode_lower};
ghost use Rattle.wal_store.specs.calls.CallText.{call_line};

use blk_base::NoMemory;
use byte_text::put_hex;
use std::alloc::Global;
use std::marker::Model;
use tree_model::{ByteList, Call};

// A line, as far as it is written.
#[derive(Drop)]
struct Line {
    bytes: Vec<u8>,
}

impl Model for Line {
    ghost use Rattle.std.specs.Prelude.{List, ℕ};

    ghost Value = { List ℕ };

    ghost view = { λ l. l.bytes.items };
}

impl Line {
    fn of(alloc: Global, word: &[u8]) -> Result<Line, NoMemory>
        ensures { IfOk result (λ l. l ≡ word.now) }
    {
        Ok(Line {
            bytes: word.to_vec(alloc)?,
        })
    }

    // A space, and a word.
    fn put(&mut self, word: &[u8]) -> Result<(), NoMemory>
        ensures { OnOk result (self.new ≡ self.old ++ 32 ∷ word.now) }
    {
        self.put_byte(b' ')?;
        self.put_bytes(word)
    }

    fn put_byte(&mut self, byte: u8) -> Result<(), NoMemory>
        ensures { OnOk result (self.new ≡ self.old ++ byte ∷ []) }
    {
        match self.bytes.push(byte) {
            Ok(()) => Ok(()),
            Err(_) => Err(NoMemory),
        }
    }

    fn put_bytes(&mut self, bytes: &[u8]) -> Result<(), NoMemory>
        ensures { OnOk result (self.new ≡ self.old ++ bytes.now) }
    {
        match self.bytes.extend_from_slice(bytes) {
            Ok(()) => Ok(()),
            Err(_) => Err(NoMemory),
        }
    }

    fn put_number(&mut self, alloc: Global, number: u32) -> Result<(), NoMemory>
        ensures { OnOk result (self.new ≡ self.old ++ 32 ∷ decimal number) }
    {
        let text = number.to_string(alloc)?;
        self.put(text.as_bytes())
    }

    fn into_bytes(self) -> ByteList
        ensures { result ≡ self }
    {
        ByteList::of(self.bytes)
    }
}

fn path_line(alloc: Global, word: &[u8], path: &ByteList) -> Result<Line, NoMemory>
    ensures { IfOk result (λ l. l ≡ join_with_byte 32 (word.now ∷ path.now ∷ [])) }
{
    let mut line = Line::of(alloc, word)?;
    line.put(path.as_slice())?;
    Ok(line)
}

fn pair_line(
    alloc: Global,
    word: &[u8],
    path: &ByteList,
    other: &ByteList,
) -> Result<Line, NoMemory>
    ensures { IfOk result (λ l. l ≡ join_with_byte 32 (word.now ∷ path.now ∷ other.now ∷ [])) }
{
    let mut line = path_line(alloc, word, path)?;
    line.put(other.as_slice())?;
    Ok(line)
}

fn place_line(alloc: Global, word: &[u8], path: &ByteList, place: u32) -> Result<Line, NoMemory>
    ensures { IfOk result (λ l. l ≡ join_with_byte 32 (word.now ∷ path.now ∷ decimal place ∷ [])) }
{
    let mut line = path_line(alloc, word, path)?;
    line.put_number(alloc, place)?;
    Ok(line)
}

fn range_line(
    alloc: Global,
    word: &[u8],
    path: &ByteList,
    off: u32,
    len: u32,
) -> Result<Line, NoMemory>
    ensures { IfOk result (λ l. l ≡ join_with_byte 32 (word.now ∷ path.now ∷ decimal off ∷ decimal len ∷ [])) }
{
    let mut line = place_line(alloc, word, path, off)?;
    line.put_number(alloc, len)?;
    Ok(line)
}

fn write_line(
    alloc: Global,
    path: &ByteList,
    off: u32,
    len: u32,
    value: u8,
) -> Result<Line, NoMemory>
    ensures { IfOk result (λ l. l ≡ join_with_byte 32 (codes "write" ∷ path.now ∷ decimal off ∷ decimal len ∷ hex_text value ∷ [])) }
{
    let mut line = range_line(alloc, b"write", path, off, len)?;
    let mut digits = String::new(alloc);
    put_hex(&mut digits, value)?;
    line.put(digits.as_bytes())?;
    Ok(line)
}

fn bytes_line(alloc: Global, path: &ByteList, off: u32, bytes: &ByteList) -> Result<Line, NoMemory>
    ensures { IfOk result (λ l. l ≡ join_with_byte 32 (codes "bytes" ∷ path.now ∷ decimal off ∷ encode_lower bytes.now ∷ [])) }
{
    let mut line = place_line(alloc, b"bytes", path, off)?;
    let digits = hex::encode(alloc, bytes.as_slice())?;
    line.put(digits.as_bytes())?;
    Ok(line)
}

fn line_of(alloc: Global, call: &Call) -> Result<Line, NoMemory>
    ensures { IfOk result (λ l. l ≡ call_line call.now) }
{
    match call {
        Call::Mkdir(path) => path_line(alloc, b"mkdir", path),
        Call::Rmdir(path) => path_line(alloc, b"rmdir", path),
        Call::Create(path) => path_line(alloc, b"create", path),
        Call::Unlink(path) => path_line(alloc, b"unlink", path),
        Call::Link(path, other) => pair_line(alloc, b"link", path, other),
        Call::Rename(path, other) => pair_line(alloc, b"rename", path, other),
        Call::Truncate(path, size) => place_line(alloc, b"truncate", path, *size),
        Call::Write {
            path,
            off,
            len,
            value,
        } => write_line(alloc, path, *off, *len, *value),
        Call::Bytes { path, off, bytes } => bytes_line(alloc, path, *off, bytes),
        Call::Read { path, off, len } => range_line(alloc, b"read", path, *off, *len),
        Call::List(path) => path_line(alloc, b"list", path),
        Call::Stat(path) => path_line(alloc, b"stat", path),
        Call::Fsync(path) => path_line(alloc, b"fsync", path),
        Call::Fdatasync(path) => path_line(alloc, b"fdatasync", path),
        Call::Fbarrier(path) => path_line(alloc, b"fbarrier", path),
        Call::Fdatabarrier(path) => path_line(alloc, b"fdatabarrier", path),
        Call::Sync => Line::of(alloc, b"sync"),
    }
}

/// The line of a script that says a call.
pub fn write_call(alloc: Global, call: &Call) -> Result<ByteList, NoMemory>
    ensures { IfOk result (λ l. l ≡ call_line call.now) }
{
    let line = line_of(alloc, call)?;
    Ok(line.into_bytes())
}
