//! The call that one word of the generator says, and its line.
ghost use Rattle.std.specs.Prelude.{◌≡◌, ◌++◌, ◌∷◌, IfOk, OnOk};
ghost use Rattle.std.specs.String.{string_bytes};
ghost use Rattle.session_report.specs.declared.bulk.limits.TheConstants.{CALL_BYTES};
ghost use Rattle.session_report.specs.bulk.Workload.{file_of, offset_of, value_of, path_of, word_call, call_line};

use crate::bulk::limits::CALL_BYTES;
use blk_base::NoMemory;
use byte_text::put_hex;
use std::alloc::{AllocError, Global};
use tree_model::{ByteList, Call};

fn file_of(word: u32) -> u32
    ensures { result ≡ file_of word }
{
    word / 8 % 64
}

fn offset_of(word: u32) -> u32
    ensures { result ≡ offset_of word }
{
    CALL_BYTES * (word / 512 % 16)
}

fn value_of(word: u32) -> u8
    ensures { result ≡ value_of word }
{
    (word / 8192 % 256) as u8
}

#[tactic(auto, unfolding(crate::specs::bulk::Workload::path_of))]
fn put_path(out: &mut String, word: u32) -> Result<(), AllocError>
    ensures { OnOk result (string_bytes out.new ≡ string_bytes out.old ++ path_of word) }
{
    let file = file_of(word);
    write!(out, "/f{file}")
}

fn path_of(alloc: Global, word: u32) -> Result<ByteList, NoMemory>
    ensures { IfOk result (λ p. p ≡ path_of word) }
{
    let mut path = String::new(alloc);
    put_path(&mut path, word)?;
    Ok(ByteList::of(path.into_bytes()))
}

/// The call that a word says.
pub fn call_of(alloc: Global, word: u32) -> Result<Call, NoMemory>
    ensures { IfOk result (λ c. c ≡ word_call word) }
{
    let path = path_of(alloc, word)?;
    Ok(match word % 8 {
        0 => Call::Create(path),
        1 | 2 => Call::Write {
            path,
            off: offset_of(word),
            len: CALL_BYTES,
            value: value_of(word),
        },
        3 => Call::Fbarrier(path),
        4 => Call::Fdatabarrier(path),
        5 => Call::Fsync(path),
        6 => Call::Truncate(path, offset_of(word)),
        _ => Call::Unlink(path),
    })
}

// A call of a path alone.
#[tactic(auto, using(std::proofs::lemmas::List::append_assoc))]
fn put_named(out: &mut String, name: &str, word: u32) -> Result<(), AllocError>
    ensures { OnOk result (string_bytes out.new ≡ string_bytes out.old ++ (name.now ++ 32 ∷ path_of word)) }
{
    out.push_str(name)?;
    out.push_str(" ")?;
    put_path(out, word)
}

#[tactic(auto, using(std::proofs::lemmas::List::append_assoc))]
fn put_write(out: &mut String, word: u32) -> Result<(), AllocError>
    ensures { OnOk result (string_bytes out.new ≡ string_bytes out.old ++ call_line (Call.Write (path_of word) (offset_of word) CALL_BYTES (value_of word))) }
{
    put_named(out, "write", word)?;
    let offset = offset_of(word);
    let len = CALL_BYTES;
    write!(out, " {offset} {len} ")?;
    put_hex(out, value_of(word))
}

#[tactic(auto, using(std::proofs::lemmas::List::append_assoc))]
fn put_truncate(out: &mut String, word: u32) -> Result<(), AllocError>
    ensures { OnOk result (string_bytes out.new ≡ string_bytes out.old ++ call_line (Call.Truncate (path_of word) (offset_of word))) }
{
    put_named(out, "truncate", word)?;
    let size = offset_of(word);
    write!(out, " {size}")
}

fn put_line(out: &mut String, word: u32) -> Result<(), AllocError>
    ensures { OnOk result (string_bytes out.new ≡ string_bytes out.old ++ call_line (word_call word)) }
{
    match word % 8 {
        0 => put_named(out, "create", word),
        1 | 2 => put_write(out, word),
        3 => put_named(out, "fbarrier", word),
        4 => put_named(out, "fdatabarrier", word),
        5 => put_named(out, "fsync", word),
        6 => put_truncate(out, word),
        _ => put_named(out, "unlink", word),
    }
}

/// The line of the call that a word says.
pub fn line_of(alloc: Global, word: u32) -> Result<ByteList, NoMemory>
    ensures { IfOk result (λ l. l ≡ call_line (word_call word)) }
{
    let mut line = String::new(alloc);
    put_line(&mut line, word)?;
    Ok(ByteList::of(line.into_bytes()))
}
