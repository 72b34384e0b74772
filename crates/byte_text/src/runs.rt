//! Bytes as runs of equal ones.
ghost use Rattle.std.specs.Prelude.{◌≡◌, ℕ, ◌==◌, ◌++◌, List, OnOk};
ghost use Rattle.std.specs.List.{list_all};
ghost use Rattle.std.specs.String.{string_bytes};
ghost use Rattle.byte_text.specs.Runs.{runs_of, bytes_of, AreMaximal, run_text, runs_text};

use crate::put_hex;
use std::alloc::AllocError;

#[tactic(auto, using(std::proofs::lemmas::List::append_assoc))]
fn put_run(out: &mut String, len: usize, value: u8) -> Result<(), AllocError>
    ensures { OnOk result (string_bytes out.new ≡ string_bytes out.old ++ run_text (record { len = len; value = value })) }
{
    write!(out, "{len}x")?;
    put_hex(out, value)
}

// Whether each byte is this one. It reads them all, so that they can be compared many at a time.
fn are_all(bytes: &[u8], value: u8) -> bool
    ensures { result ≡ list_all (λ b. b == value) bytes.now }
{
    let mut all = true;
    for b in bytes {
        all &= *b == value;
    }
    all
}

#[tactic(auto, unfolding(crate::specs::Runs::runs_text))]
/// Appends the runs of these bytes, each `LENxVV` with the byte in hexadecimal, joined by `+`; `-` for no
/// bytes. The runs are as long as can be.
pub fn put_runs(out: &mut String, bytes: &[u8]) -> Result<(), AllocError>
    ensures { OnOk result (string_bytes out.new ≡ string_bytes out.old ++ runs_text bytes.now) }
{
    let Some((first, rest)) = bytes.split_first() else {
        return out.push_str("-");
    };
    if are_all(rest, *first) {
        return put_run(out, bytes.len(), *first);
    }
    let mut value = *first;
    let mut len = 1;
    for b in rest {
        if *b == value {
            len += 1;
        } else {
            put_run(out, len, value)?;
            out.push_str("+")?;
            value = *b;
            len = 1;
        }
    }
    put_run(out, len, value)
}

/// A law, which does nothing when it is called: runs have the bytes that they were made of, none is empty,
/// and each has another byte than the one before it.
pub fn runs_are_maximal()
    ensures whole { (bytes : List ℕ) → bytes_of (runs_of bytes) ≡ bytes }
    ensures maximal { (bytes : List ℕ) → AreMaximal (runs_of bytes) }
{}
