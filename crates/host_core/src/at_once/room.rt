//! Room for what a call will tell.
ghost use Rattle.std.specs.Prelude.{◌≡◌, ◌+◌, ◌*◌, ◌/◌, ◌≤◌, ℕ, IfOk, OnErr, length};
ghost use Rattle.volume_steps.specs.Calls.{called};
ghost use Rattle.volume_steps.specs.Called.{FindsRoom};
ghost use Rattle.host_core.specs.effects.Effects.{with_part};
ghost use Rattle.host_core.specs.lengths.Lengths.{notes_in, bytes_in};

use crate::gates::{PlainVolume, kind_of};
use crate::lengths::calls_tell_few;
use blk_base::NoMemory;
use commit_actor::JournalPart;
use page_cache::Pages;
use std::alloc::Global;
use tree_model::Call;

// The most that a call tells.
#[derive(Clone, Copy)]
pub struct Most {
    pub notes: u32,
    pub pages: u32,
}

// How many bytes a call writes.
fn bytes_in(call: &Call) -> u64
    ensures { result ≡ bytes_in call.now }
{
    match call {
        Call::Write { len, .. } => u64::from(*len),
        Call::Bytes { bytes, .. } => bytes.as_slice().len() as u64,
        _ => 0,
    }
}

// How many notes a call makes at most that writes so many bytes, where there are so many zones.
fn notes_of(zones: u16, bytes: u64) -> u64
    ensures { result ≡ 2 * zones + 11 * (bytes / 1024 + 2) + 30 }
{
    2 * u64::from(zones) + 11 * (bytes / 1024 + 2) + 30
}

fn most_told(volume: &PlainVolume, call: &Call) -> Result<Most, NoMemory>
    ensures notes { IfOk result (λ most. (n tx : ℕ) → FindsRoom volume.now n call.now → notes_in (called volume.now n tx call.now).change.touched ≤ most.notes) }
    ensures pages { IfOk result (λ most. (n tx : ℕ) → FindsRoom volume.now n call.now → length (called volume.now n tx call.now).change.touched.pages ≤ most.pages) }
{
    calls_tell_few();
    if kind_of(call).is_reading() {
        return Ok(Most { notes: 0, pages: 0 });
    }
    let bytes = bytes_in(call);
    let notes = notes_of(volume.geometry().zones, bytes);
    match (u32::try_from(notes), u32::try_from(bytes / 1024 + 2)) {
        (Ok(notes), Ok(pages)) => Ok(Most { notes, pages }),
        _ => Err(NoMemory),
    }
}

// Makes room for what the call will tell of blocks, nodes and pages.
pub fn make_room(
    alloc: Global,
    journal: &mut JournalPart,
    pages: &mut Pages,
    volume: &PlainVolume,
    call: &Call,
) -> Result<(), NoMemory>
    ensures notes { IfOk result (λ u. (n tx : ℕ) → FindsRoom volume.now n call.now → notes_in (called volume.now n tx call.now).change.touched ≤ journal.new.spare) }
    ensures room { IfOk result (λ u. (n tx : ℕ) → FindsRoom volume.now n call.now → length pages.new.pages + length (called volume.now n tx call.now).change.touched.pages ≤ pages.new.room) }
    ensures journal { journal.new ≡ with_part journal.old journal.new.spare journal.old.part }
    ensures pages { pages.new.pages ≡ pages.old.pages }
{
    let most = most_told(volume, call)?;
    journal.reserve(alloc, most.notes)?;
    pages.reserve(alloc, most.pages)
}
