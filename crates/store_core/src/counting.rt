//! How many puts of a session were acknowledged.
ghost use Rattle.std.specs.Prelude.{◌≡◌, map, unwrap_or};
ghost use Rattle.std.specs.Option.{option_copied};
ghost use Rattle.tree_model.specs.declared.call.Call.TheVariants.{Sync};
ghost use Rattle.session_core.specs.Core.{entry_in};
ghost use Rattle.store_core.specs.Stores.{acknowledged_from, is_flushed, is_put_end};

use host_answers::{Entry, EntryKind};
use line_grammar::calls::Programs;
use tree_model::{Call, Reply};

// The call of an entry.
fn call_of<'a>(programs: &'a Programs, entry: &Entry) -> Option<&'a Call>
    ensures { unwrap_or (option_copied result) Sync ≡ (entry_in programs.now entry.now).call }
{
    let threads = programs.as_slice();
    let program = threads.get(entry.thread.saturating_sub(1) as usize)?;
    program.as_slice().get(entry.call as usize)
}

// Whether it ends a put.
fn is_put_end(programs: &Programs, entry: &Entry) -> bool
    ensures { result ≡ is_put_end (entry_in programs.now entry.now) }
{
    match entry.what {
        EntryKind::Begin => false,
        EntryKind::End(_) => matches!(call_of(programs, entry), Some(Call::Bytes { .. })),
    }
}

// Whether it answers a flush with `ok`.
fn is_flushed(programs: &Programs, entry: &Entry) -> bool
    ensures { result ≡ is_flushed (entry_in programs.now entry.now) }
{
    match entry.what {
        EntryKind::End(Reply::Ok) => {
            matches!(call_of(programs, entry), Some(Call::Fdatasync(_)))
        }
        _ => false,
    }
}

/// How many puts ended before the last flush that was answered with `ok`. There are none where no flush was.
pub fn count_acknowledged(programs: &Programs, history: &[Entry]) -> u64
    ensures { result ≡ acknowledged_from 0 0 (map (entry_in programs.now) history.now) }
{
    let mut puts = 0;
    let mut last = 0;
    for entry in history {
        if is_flushed(programs, entry) {
            last = puts;
        }
        if is_put_end(programs, entry) {
            puts += 1;
        }
    }
    last
}
