//! The words that begin lines of calls.
ghost use Rattle.std.specs.Prelude.{◌≡◌};
ghost use Rattle.line_grammar.specs.calls.CallLines.{naming_word, syncing_word, path_word, pair_word, place_word, own_word, call_word};

use crate::calls::words::{CallWord, PairWord, PathWord, PlaceWord};

/// The word that begins a call's line, where it is known.
pub fn read_call_word(w: &[u8]) -> Option<CallWord>
    ensures { result ≡ call_word w.now }
{
    if let Some(word) = read_path_word(w) {
        return Some(CallWord::OfPath(word));
    }
    if let Some(word) = read_pair_word(w) {
        return Some(CallWord::OfPair(word));
    }
    if let Some(word) = read_place_word(w) {
        return Some(CallWord::OfPlace(word));
    }
    read_own_word(w)
}

fn read_path_word(w: &[u8]) -> Option<PathWord>
    ensures { result ≡ path_word w.now }
{
    if let Some(word) = read_naming_word(w) {
        return Some(word);
    }
    read_syncing_word(w)
}

fn read_naming_word(w: &[u8]) -> Option<PathWord>
    ensures { result ≡ naming_word w.now }
{
    if w == b"mkdir".as_slice() {
        Some(PathWord::Mkdir)
    } else if w == b"rmdir".as_slice() {
        Some(PathWord::Rmdir)
    } else if w == b"create".as_slice() {
        Some(PathWord::Create)
    } else if w == b"unlink".as_slice() {
        Some(PathWord::Unlink)
    } else if w == b"list".as_slice() {
        Some(PathWord::List)
    } else if w == b"stat".as_slice() {
        Some(PathWord::Stat)
    } else {
        None
    }
}

fn read_syncing_word(w: &[u8]) -> Option<PathWord>
    ensures { result ≡ syncing_word w.now }
{
    if w == b"fsync".as_slice() {
        Some(PathWord::Fsync)
    } else if w == b"fdatasync".as_slice() {
        Some(PathWord::Fdatasync)
    } else if w == b"fbarrier".as_slice() {
        Some(PathWord::Fbarrier)
    } else if w == b"fdatabarrier".as_slice() {
        Some(PathWord::Fdatabarrier)
    } else {
        None
    }
}

fn read_pair_word(w: &[u8]) -> Option<PairWord>
    ensures { result ≡ pair_word w.now }
{
    if w == b"link".as_slice() {
        Some(PairWord::Link)
    } else if w == b"rename".as_slice() {
        Some(PairWord::Rename)
    } else {
        None
    }
}

fn read_place_word(w: &[u8]) -> Option<PlaceWord>
    ensures { result ≡ place_word w.now }
{
    if w == b"write".as_slice() {
        Some(PlaceWord::Write)
    } else if w == b"bytes".as_slice() {
        Some(PlaceWord::Bytes)
    } else if w == b"read".as_slice() {
        Some(PlaceWord::Read)
    } else {
        None
    }
}

fn read_own_word(w: &[u8]) -> Option<CallWord>
    ensures { result ≡ own_word w.now }
{
    if w == b"truncate".as_slice() {
        Some(CallWord::Truncate)
    } else if w == b"sync".as_slice() {
        Some(CallWord::Sync)
    } else {
        None
    }
}
