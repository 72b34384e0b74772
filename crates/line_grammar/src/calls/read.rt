//! Reads the words of calls.
ghost use Rattle.std.specs.Prelude.{◌≡◌, ◌==◌, ◌≤◌, ◌&&◌, not, map, length, Some, IfOk};
ghost use Rattle.std.specs.List.{list_all};
ghost use Rattle.std.specs.Option.{option_map};
ghost use Rattle.line_grammar.specs.calls.CallLines.{is_printed, is_path_text, hex_text, path_call, pair_call, length_fits, call_taken, call_of, path_spelled, pair_spelled, truncate_spelled, place_spelled, call_at, write_at, bytes_at, read_at, sync_spelled};
ghost use Rattle.script_words.specs.code.Readers.{IsReadAs};

use crate::calls::limits::{MOST_DIGITS, MOST_LENGTH, OFFSETS};
use crate::calls::words::{CallWord, PairWord, PathWord, PlaceWord};
use blk_base::NoMemory;
use hex::FromHexError;
use script_words::{LineFault, WordsError, hex_byte, numeral};
use std::alloc::Global;
use tree_model::{ByteList, Call};

const SPELLING: WordsError = WordsError::Fault(LineFault::Spelling);

const NUMBER: WordsError = WordsError::Fault(LineFault::Number);

/// Reads the words behind the first as a call, or says what is wrong with them.
pub fn read_call(alloc: Global, word: CallWord, words: &[&[u8]]) -> Result<Call, WordsError>
    ensures { IsReadAs result (call_of word (map (λ x. x.now) words.now)) }
{
    match word {
        CallWord::OfPath(word) => read_path_call(alloc, word, words),
        CallWord::OfPair(word) => read_pair_call(alloc, word, words),
        CallWord::Truncate => read_truncate(alloc, words),
        CallWord::OfPlace(word) => read_place_call(alloc, word, words),
        CallWord::Sync => read_sync(words),
    }
}

fn is_printed(b: u8) -> bool
    ensures { result ≡ is_printed b }
{
    b >= b'!' && b <= b'~'
}

fn are_printed(word: &[u8]) -> bool
    ensures { result ≡ list_all is_printed word.now }
{
    word.iter().all(|b| is_printed(*b))
}

fn is_path_text(word: &[u8]) -> bool
    ensures { result ≡ is_path_text word.now }
{
    !word.is_empty() && are_printed(word)
}

fn length_fits(len: u64) -> bool
    ensures { result ≡ length_fits len }
{
    len >= 1 && len <= MOST_LENGTH
}

fn list_of(alloc: Global, bytes: &[u8]) -> Result<ByteList, NoMemory>
    ensures { IfOk result (λ b. b ≡ bytes.now) }
{
    Ok(ByteList::of(bytes.to_vec(alloc)?))
}

// The bytes of hexadecimal digits, where the word is of these.
fn read_hex(alloc: Global, word: &[u8]) -> Result<Option<ByteList>, NoMemory>
    ensures { IfOk result (λ o. o ≡ hex_text word.now) }
{
    if word.len() < 2 || word.len() > MOST_DIGITS {
        return Ok(None);
    }
    match hex::decode(alloc, word) {
        Ok(bytes) => Ok(Some(ByteList::of(bytes))),
        Err(FromHexError::OutOfMemory) => Err(NoMemory),
        Err(_) => Ok(None),
    }
}

fn path_call(word: PathWord, path: ByteList) -> Call
    ensures { result ≡ path_call word path }
{
    match word {
        PathWord::Mkdir => Call::Mkdir(path),
        PathWord::Rmdir => Call::Rmdir(path),
        PathWord::Create => Call::Create(path),
        PathWord::Unlink => Call::Unlink(path),
        PathWord::List => Call::List(path),
        PathWord::Stat => Call::Stat(path),
        PathWord::Fsync => Call::Fsync(path),
        PathWord::Fdatasync => Call::Fdatasync(path),
        PathWord::Fbarrier => Call::Fbarrier(path),
        PathWord::Fdatabarrier => Call::Fdatabarrier(path),
    }
}

fn read_path_call(alloc: Global, word: PathWord, words: &[&[u8]]) -> Result<Call, WordsError>
    ensures { IsReadAs result (call_taken (path_spelled word (map (λ x. x.now) words.now))) }
{
    let [path] = words else {
        return Err(SPELLING);
    };
    if !is_path_text(path) {
        return Err(SPELLING);
    }
    Ok(path_call(word, list_of(alloc, path)?))
}

fn pair_call(word: PairWord, path: ByteList, other: ByteList) -> Call
    ensures { result ≡ pair_call word path other }
{
    match word {
        PairWord::Link => Call::Link(path, other),
        PairWord::Rename => Call::Rename(path, other),
    }
}

fn read_pair_call(alloc: Global, word: PairWord, words: &[&[u8]]) -> Result<Call, WordsError>
    ensures { IsReadAs result (call_taken (pair_spelled word (map (λ x. x.now) words.now))) }
{
    let [path, other] = words else {
        return Err(SPELLING);
    };
    if !is_path_text(path) || !is_path_text(other) {
        return Err(SPELLING);
    }
    let path = list_of(alloc, path)?;
    let other = list_of(alloc, other)?;
    Ok(pair_call(word, path, other))
}

fn read_truncate(alloc: Global, words: &[&[u8]]) -> Result<Call, WordsError>
    ensures { IsReadAs result (call_taken (truncate_spelled (map (λ x. x.now) words.now))) }
{
    let [path, size] = words else {
        return Err(SPELLING);
    };
    if !is_path_text(path) {
        return Err(SPELLING);
    }
    let Some(size) = numeral(size) else {
        return Err(SPELLING);
    };
    if size >= OFFSETS {
        return Err(NUMBER);
    }
    Ok(Call::Truncate(list_of(alloc, path)?, size as u32))
}

#[tactic(auto, using(crate::proofs::CallsLemmas::Others::place_of_few))]
fn read_place_call(alloc: Global, word: PlaceWord, words: &[&[u8]]) -> Result<Call, WordsError>
    ensures { IsReadAs result (call_taken (place_spelled word (map (λ x. x.now) words.now))) }
{
    let [path, off, rest @ ..] = words else {
        return Err(SPELLING);
    };
    if !is_path_text(path) {
        return Err(SPELLING);
    }
    let Some(off) = numeral(off) else {
        return Err(SPELLING);
    };
    match word {
        PlaceWord::Write => read_write(alloc, path, off, rest),
        PlaceWord::Bytes => read_bytes(alloc, path, off, rest),
        PlaceWord::Read => read_read(alloc, path, off, rest),
    }
}

fn read_write(alloc: Global, path: &[u8], off: u64, words: &[&[u8]]) -> Result<Call, WordsError>
    ensures { IsReadAs result (call_taken (write_at path.now off (map (λ x. x.now) words.now))) }
{
    let [len, value] = words else {
        return Err(SPELLING);
    };
    let (Some(len), Some(value)) = (numeral(len), hex_byte(value)) else {
        return Err(SPELLING);
    };
    if off >= OFFSETS || !length_fits(len) {
        return Err(NUMBER);
    }
    Ok(Call::Write {
        path: list_of(alloc, path)?,
        off: off as u32,
        len: len as u32,
        value,
    })
}

fn read_bytes(alloc: Global, path: &[u8], off: u64, words: &[&[u8]]) -> Result<Call, WordsError>
    ensures { IsReadAs result (call_taken (bytes_at path.now off (map (λ x. x.now) words.now))) }
{
    let [digits] = words else {
        return Err(SPELLING);
    };
    let Some(bytes) = read_hex(alloc, digits)? else {
        return Err(SPELLING);
    };
    if off >= OFFSETS {
        return Err(NUMBER);
    }
    Ok(Call::Bytes {
        path: list_of(alloc, path)?,
        off: off as u32,
        bytes,
    })
}

fn read_read(alloc: Global, path: &[u8], off: u64, words: &[&[u8]]) -> Result<Call, WordsError>
    ensures { IsReadAs result (call_taken (read_at path.now off (map (λ x. x.now) words.now))) }
{
    let [len] = words else {
        return Err(SPELLING);
    };
    let Some(len) = numeral(len) else {
        return Err(SPELLING);
    };
    if off >= OFFSETS || !length_fits(len) {
        return Err(NUMBER);
    }
    Ok(Call::Read {
        path: list_of(alloc, path)?,
        off: off as u32,
        len: len as u32,
    })
}

fn read_sync(words: &[&[u8]]) -> Result<Call, WordsError>
    ensures { IsReadAs result (call_taken (sync_spelled (map (λ x. x.now) words.now))) }
{
    match words {
        [] => Ok(Call::Sync),
        _ => Err(SPELLING),
    }
}
