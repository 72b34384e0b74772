//! What is said of words that ask for nothing.
use crate::command::barrierfs;
use clap::Error;
use clap::error::ErrorKind;
use std::alloc::Global;
use std::convert::AsStr;

/// The text of `clap` for words that it refuses. There is none where a word begins with a hyphen: the tip would be to put `--`
/// before it, and no list with that word asks for anything.
pub fn refusal<'a, S: AsStr>(alloc: Global, words: &'a [S]) -> Option<String> {
    if has_hyphen(words) {
        return None;
    }
    let command = barrierfs(alloc).ok()?;
    let command = command.bin_name("barrierfs").ok()?;
    match command.try_get_matches_from(words) {
        Ok(_matches) => None,
        Err(error) => text_of(alloc, &error),
    }
}

// A word begins with a hyphen.
fn has_hyphen<S: AsStr>(words: &[S]) -> bool {
    words.iter().any(|word| word.as_str().starts_with('-'))
}

fn text_of(alloc: Global, error: &Error) -> Option<String> {
    if matches!(error.kind(), ErrorKind::OutOfMemory) {
        return None;
    }
    format!(in alloc; "{error}").ok()
}
