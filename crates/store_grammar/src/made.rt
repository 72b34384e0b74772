//! The volume script that is made of a store's script.
ghost use Rattle.std.specs.Prelude.{◌≡◌, [], ◌∷◌, map, IfOk};
ghost use Rattle.session_grammar.specs.WellFormed as session;
ghost use Rattle.wal_store.specs.calls.CallText.{call_line};
ghost use Rattle.store_grammar.specs.Made.{session_header, script_calls, volume_script};
ghost use Rattle.store_grammar.specs.WellFormed.{IsWellFormed};

use crate::limits::{SPARE_ZONES, STORE_INODES, STORE_JOURNAL};
use crate::script::{StoreHeader, StoreScript};
use blk_base::NoMemory;
use line_grammar::calls::{LineList, Program, Programs};
use minix_layout::DEFAULT_WIDTH;
use session_grammar::{DEFAULT_LIMIT, DEFAULT_SEED, SessionHeader, SessionScript};
use std::alloc::Global;
use tree_model::Call;
use wal_store::calls::{calls_of, write_call};

fn session_header(header: StoreHeader) -> SessionHeader
    ensures { result ≡ session_header header }
{
    SessionHeader {
        depth: header.depth,
        queue: header.queue,
        limit: DEFAULT_LIMIT,
        fail: header.fail,
        cut: header.cut,
        seed: DEFAULT_SEED,
        elevator: false,
        flash: None,
    }
}

fn lines_of(alloc: Global, calls: &[Call]) -> Result<LineList, NoMemory>
    ensures { IfOk result (λ l. l ≡ map call_line calls.now) }
{
    let mut lines = LineList::new(alloc);
    for call in calls {
        lines.push(write_call(alloc, call)?)?;
    }
    Ok(lines)
}

fn one_program(alloc: Global, calls: Program) -> Result<Programs, NoMemory>
    ensures { IfOk result (λ p. p ≡ calls ∷ []) }
{
    let mut programs = Programs::new(alloc);
    programs.push(calls)?;
    Ok(programs)
}

fn calls_in(alloc: Global, script: &StoreScript) -> Result<Program, NoMemory>
    requires { IsWellFormed script.now }
    ensures { IfOk result (λ c. c ≡ script_calls script.now) }
{
    calls_of(alloc, script.room, script.ops.as_slice())
}

/// The volume script of a store: one thread with its calls, on a volume with room for the log.
pub fn volume_script(alloc: Global, script: &StoreScript) -> Result<SessionScript, NoMemory>
    requires { IsWellFormed script.now }
    ensures made { IfOk result (λ s. s ≡ volume_script script.now) }
{
    let calls = calls_in(alloc, script)?;
    let lines = lines_of(alloc, calls.as_slice())?;
    let programs = one_program(alloc, calls)?;
    let events = script.events.copy(alloc)?;
    let recovers = script.recovers.copy(alloc)?;
    Ok(SessionScript {
        inodes: STORE_INODES,
        zones: (script.room + SPARE_ZONES) as u16,
        journal: STORE_JOURNAL,
        width: DEFAULT_WIDTH,
        wide: false,
        header: session_header(script.header),
        programs,
        lines,
        events,
        recovers,
    })
}
