//! The lines of a session's report.
ghost use Rattle.std.specs.Prelude.{◌≡◌, ◌<◌, ◌++◌, OnOk, codes};
ghost use Rattle.std.specs.List.{All};
ghost use Rattle.std.specs.Fmt.{decimal};
ghost use Rattle.std.specs.String.{string_bytes};
ghost use Rattle.session_report.specs.text.Lines.{is_ascii, cause_text, conflict_text, state_text, answer_line, thread_line, count_line};

use crate::text::put_reply;
use host_answers::{Stand, Standing};
use std::alloc::AllocError;
use tree_model::Reply;

// Appends bytes of ASCII as they are.
fn put_ascii(out: &mut String, bytes: &[u8]) -> Result<(), AllocError>
    requires { All is_ascii bytes.now }
    ensures { OnOk result (string_bytes out.new ≡ string_bytes out.old ++ bytes.now) }
{
    for b in bytes {
        out.push(*b as char)?;
    }
    Ok(())
}

/// Appends the line of a call that was answered: the number of its thread, its line in the script, and the reply.
#[tactic(auto, using(std::proofs::lemmas::List::append_assoc))]
pub fn put_answer(
    out: &mut String,
    thread: u32,
    line: &[u8],
    reply: &Reply,
) -> Result<(), AllocError>
    requires { All is_ascii line.now }
    ensures { OnOk result (string_bytes out.new ≡ string_bytes out.old ++ answer_line thread line.now reply.now) }
{
    write!(out, "{thread} ")?;
    put_ascii(out, line)?;
    out.push_str(": ")?;
    put_reply(out, reply)?;
    out.push_str("\n")
}

// Appends a cause, behind a word that says that the call waits.
#[tactic(auto, using(std::proofs::lemmas::List::append_assoc), unfolding(crate::specs::text::Lines::cause_text))]
fn put_cause(out: &mut String, word: &str, number: u64) -> Result<(), AllocError>
    ensures { OnOk result (string_bytes out.new ≡ string_bytes out.old ++ cause_text word.now number) }
{
    out.push_str(" waiting ")?;
    out.push_str(word)?;
    write!(out, " {number}")
}

#[tactic(auto, using(std::proofs::lemmas::List::append_assoc), unfolding(crate::specs::text::Lines::conflict_text))]
fn put_conflict(out: &mut String, block: u32, transaction: u32) -> Result<(), AllocError>
    ensures { OnOk result (string_bytes out.new ≡ string_bytes out.old ++ conflict_text block transaction) }
{
    put_cause(out, "conflict", block.into())?;
    write!(out, " {transaction}")
}

// What a thread's next call is at.
fn put_state(out: &mut String, state: Stand) -> Result<(), AllocError>
    ensures { OnOk result (string_bytes out.new ≡ string_bytes out.old ++ state_text state) }
{
    match state {
        Stand::Fresh => Ok(()),
        Stand::Sending => out.push_str(" sending"),
        Stand::Conflict(block, transaction) => put_conflict(out, block, transaction),
        Stand::Commit(transaction) => put_cause(out, "commit", transaction.into()),
        Stand::Durable(id) => put_cause(out, "durable", id),
    }
}

/// Appends the line of a thread: how many of its calls were answered, and what the next one is at.
#[tactic(auto, using(std::proofs::lemmas::List::append_assoc))]
pub fn put_thread(out: &mut String, thread: u32, standing: &Standing) -> Result<(), AllocError>
    ensures { OnOk result (string_bytes out.new ≡ string_bytes out.old ++ thread_line thread standing.now) }
{
    let answered = standing.answered;
    let calls = standing.calls;
    write!(out, "thread {thread}: {answered} of {calls}")?;
    put_state(out, standing.state)?;
    out.push_str("\n")
}

/// Appends a line with a word and a number.
#[tactic(auto, using(std::proofs::lemmas::List::append_assoc))]
pub fn put_count(out: &mut String, word: &str, count: u64) -> Result<(), AllocError>
    ensures { OnOk result (string_bytes out.new ≡ string_bytes out.old ++ count_line word.now count) }
{
    out.push_str(word)?;
    writeln!(out, " {count}")
}
