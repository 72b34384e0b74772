//! Reads the scripts of runs in threads, in which a line `flash` is out of order.
ghost use Rattle.std.specs.Prelude.{◌≡◌, ℕ, ◌+◌, ◌^◌, ◌<◌, ◌≤◌, length, map, None, Result, Err, IfOk};
ghost use Rattle.script_words.specs.Spelling.{lines_of, words_of};
ghost use Rattle.script_grammar.specs.code.Readers.{IsTextReadAs};
ghost use Rattle.script_grammar.specs.declared.limits.TheConstants.{MOST_SCRIPT_BYTES};
ghost use Rattle.session_grammar.specs.WellFormed.{IsWellFormed};
ghost use Rattle.barrierfs_top.specs.Runs.{flash_line, names_flash, out_of_order, threads_script_of};

use blk_base::NoMemory;
use script_grammar::{ScriptError, ScriptKind};
use script_words::{lines, words};
use session_grammar::{SessionScript, read_session};
use std::alloc::Global;

// The words of a line begin with `flash`.
fn names_flash(alloc: Global, line: &[u8]) -> Result<bool, NoMemory>
    ensures { IfOk result (λ is. is ≡ names_flash (words_of line.now)) }
{
    let words = words(alloc, line)?;
    Ok(match words.first() {
        Some(word) => *word == b"flash".as_slice(),
        None => false,
    })
}

// The number of the first of these lines that begins with `flash`; lines are counted from 1.
fn flash_line(alloc: Global, lines: &[&[u8]]) -> Result<Option<u32>, NoMemory>
    requires { length lines.now + 1 < 2 ^ 32 }
    ensures { IfOk result (λ at. at ≡ flash_line 1 (map (λ x. x.now) lines.now)) }
{
    let mut number = 1;
    for line in lines {
        if names_flash(alloc, line)? {
            return Ok(Some(number));
        }
        number += 1;
    }
    Ok(None)
}

// The same of a text.
fn flash_line_of(alloc: Global, text: &[u8]) -> Result<Option<u32>, NoMemory>
    requires { length text.now ≤ MOST_SCRIPT_BYTES }
    ensures { IfOk result (λ at. at ≡ flash_line 1 (lines_of text.now)) }
{
    let lines = lines(alloc, text)?;
    flash_line(alloc, &lines)
}

// What is wrong with a text in which this line is out of order, where the grammar reads it so.
fn out_of_order(at: u32, read: Result<SessionScript, ScriptError>) -> ScriptError
    ensures { (told : Result SessionScript (ℕ × ScriptKind)) → IsTextReadAs read told → IsTextReadAs (Err result) (out_of_order at told) }
{
    match read {
        Ok(script) => {
            drop(script);
            ScriptError::Fault(at, ScriptKind::Order)
        }
        Err(ScriptError::Fault(line, kind)) => {
            if line < at {
                ScriptError::Fault(line, kind)
            } else {
                ScriptError::Fault(at, ScriptKind::Order)
            }
        }
        Err(ScriptError::NoMemory) => ScriptError::NoMemory,
    }
}

/// Reads the script of a run in threads, or says its first faulty line and what is wrong with it.
pub fn read_threads_script(alloc: Global, text: &[u8]) -> Result<SessionScript, ScriptError>
    requires { length text.now ≤ MOST_SCRIPT_BYTES }
    ensures read { IsTextReadAs result (threads_script_of text.now) }
    ensures well_formed { IfOk result IsWellFormed }
    ensures model { IfOk result (λ s. s.header.flash ≡ None) }
{
    match flash_line_of(alloc, text)? {
        None => read_session(alloc, text),
        Some(at) => Err(out_of_order(at, read_session(alloc, text))),
    }
}
