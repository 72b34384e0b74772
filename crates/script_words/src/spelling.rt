//! Lines, words and numbers.
ghost use Rattle.std.specs.Prelude.{◌≡◌, ◌+◌, ◌-◌, ◌^◌, ◌==◌, ◌<◌, ◌≤◌, min, map, length, IfOk, IfSome, vec_len};
ghost use Rattle.std.specs.List.{slice_split, list_all};
ghost use Rattle.script_words.specs.Spelling.{without_last_feed, lines_of, is_skipped, words_of, is_digit, is_numeral, value_after, numeral, hex_digit, hex_byte, count_of};

use blk_base::NoMemory;
use std::alloc::{AllocError, Global};

/// The lines, with no line feeds. The last line feed may be missing.
pub fn lines(alloc: Global, bytes: &[u8]) -> Result<Vec<&[u8]>, NoMemory>
    ensures lines { IfOk result (λ v. map (λ x. x.now) v.items ≡ lines_of bytes.now) }
    ensures few { IfOk result (λ v. vec_len v ≤ length bytes.now + 1) }
{
    if bytes.is_empty() {
        return Ok(Vec::new(alloc));
    }
    Ok(split(alloc, without_last_feed(bytes), b'\n')?)
}

/// The words of a line. Two spaces in a row have an empty word between them.
pub fn words(alloc: Global, line: &[u8]) -> Result<Vec<&[u8]>, NoMemory>
    ensures { IfOk result (λ v. map (λ x. x.now) v.items ≡ words_of line.now) }
{
    Ok(split(alloc, line, b' ')?)
}

fn split(alloc: Global, bytes: &[u8], at: u8) -> Result<Vec<&[u8]>, AllocError>
    ensures { IfOk result (λ v. map (λ x. x.now) v.items ≡ slice_split (λ b. b == at) bytes.now) }
{
    bytes.split(|b| *b == at).collect(alloc)
}

fn without_last_feed(bytes: &[u8]) -> &[u8]
    ensures value { result.now ≡ without_last_feed bytes.now }
    ensures shorter { length result.now ≤ length bytes.now }
{
    if bytes.last().is_some_and(|b| *b == b'\n') {
        &bytes[..bytes.len() - 1]
    } else {
        bytes
    }
}

/// The line is empty or a comment.
pub fn is_skipped(line: &[u8]) -> bool
    ensures { result ≡ is_skipped line.now }
{
    match line {
        [] => true,
        [first, ..] => *first == b'#',
    }
}

fn is_numeral(word: &[u8]) -> bool
    ensures { result ≡ is_numeral word.now }
{
    match word {
        [] => false,
        [digit] => is_digit(*digit),
        [first, _, ..] => *first != b'0' && are_digits(word),
    }
}

fn are_digits(word: &[u8]) -> bool
    ensures { result ≡ list_all is_digit word.now }
{
    word.iter().all(|b| is_digit(*b))
}

fn is_digit(b: u8) -> bool
    ensures { result ≡ is_digit b }
{
    b >= b'0' && b <= b'9'
}

/// The value of a decimal number. It stands still at the end of a `u64`.
pub fn numeral(word: &[u8]) -> Option<u64>
    ensures { result ≡ numeral word.now }
{
    if is_numeral(word) {
        Some(value(word))
    } else {
        None
    }
}

fn value(digits: &[u8]) -> u64
    ensures { result ≡ min (value_after 0 digits.now) (2 ^ 64 - 1) }
{
    let mut value = 0u64;
    for digit in digits {
        let units = digit.saturating_sub(b'0');
        value = value.saturating_mul(10).saturating_add(u64::from(units));
    }
    value
}

fn hex_digit(b: u8) -> Option<u8>
    ensures value { result ≡ hex_digit b }
    ensures small { IfSome result (λ d. d < 16) }
{
    match b {
        b'0'..=b'9' => Some(b - b'0'),
        b'a'..=b'f' => Some(b - (b'a' - 10)),
        _ => None,
    }
}

/// The value of two hexadecimal digits in lower case.
pub fn hex_byte(word: &[u8]) -> Option<u8>
    ensures { result ≡ hex_byte word.now }
{
    match word {
        [high, low] => {
            let high = hex_digit(*high)?;
            let low = hex_digit(*low)?;
            Some(16 * high + low)
        }
        _ => None,
    }
}

/// How often something is done, by the words that say it: none says once, or `x` and a number.
pub fn count_of(words: &[&[u8]]) -> Option<u64>
    ensures { result ≡ count_of (map (λ x. x.now) words.now) }
{
    match words {
        [] => Some(1),
        [x, count] if *x == b"x".as_slice() => numeral(count),
        _ => None,
    }
}
