//! The calls that a host is given.
ghost use Rattle.std.specs.Prelude.{◌≡◌, ◌<◌, ◌^◌, ℕ, [], IfOk, length, slice_index_or};

use blk_base::NoMemory;
use host_core::Programs;
use line_grammar::calls::{Program, copy_call};
use std::alloc::Global;
use tree_model::Call;

// The calls of one thread.
fn calls_of(alloc: Global, program: &Program) -> Result<Vec<Call>, NoMemory>
    ensures { IfOk result (λ calls. calls.items ≡ program.now) }
{
    let mut calls = Vec::new(alloc);
    for call in program.as_slice() {
        if calls.push(copy_call(alloc, call)?).is_err() {
            return Err(NoMemory);
        }
    }
    Ok(calls)
}

/// The calls of all threads.
pub fn host_programs(
    alloc: Global,
    programs: &line_grammar::calls::Programs,
) -> Result<Programs, NoMemory>
    requires short { (i : ℕ) → length (slice_index_or programs.now i []) < 2 ^ 32 }
    ensures { IfOk result (λ given. given ≡ programs.now) }
{
    let mut given = Programs::new(alloc);
    for program in programs.as_slice() {
        given.add(calls_of(alloc, program)?)?;
    }
    Ok(given)
}
