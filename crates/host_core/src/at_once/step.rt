//! One step of a plain call.
ghost use Rattle.std.specs.Prelude.{◌≡◌, true, None, IfOk, OnErr};
ghost use Rattle.journal_ring.specs.running.Closing.{writers};
ghost use Rattle.journal_ring.specs.running.Open.{quota};
ghost use Rattle.host_core.specs.effects.Effects.{with_part};
ghost use Rattle.host_core.specs.gates.Hindrances.{hindrance_of};
ghost use Rattle.minix_host.specs.Calls.{needed, refusal, would_change};
ghost use Rattle.host_core.specs.at_once.Steps.{Answered, does, steps_plainly};
ghost use Rattle.host_core.specs.at_once.code.Told.{is_waiting, progress_is};
ghost use Rattle.host_core.specs.code.Known.{AreToCome, StaysKnown};

use crate::at_once::hindered::hinder;
use crate::at_once::room::make_room;
use crate::effects::change;
use crate::gates::{Needs, PlainVolume, hindrance, kind_of, volumes_are_plain};
use crate::known::Known;
use crate::lengths::calls_tell_few;
use blk_base::NoMemory;
use commit_actor::JournalPart;
use host_answers::Cause;
use page_cache::Pages;
use std::alloc::Global;
use tree_model::{Call, Reply};

/// How far a plain call came.
#[derive(Drop)]
pub enum PlainProgress {
    Answered(Reply),
    /// The session may have no more requests.
    Full,
    Waiting(Cause),
}

// A call that nothing refuses and for which it need not wait is done, as entry `number` of the history.
fn perform(
    alloc: Global,
    journal: &mut JournalPart,
    volume: &mut PlainVolume,
    pages: &mut Pages,
    owners: &mut Vec<u64>,
    known: &mut Known,
    number: u64,
    call: &Call,
) -> Result<Reply, NoMemory>
    requires refused { refusal volume.old call.now ≡ None }
    requires free { hindrance_of journal.old volume.old call.now ≡ None }
    requires blocks { journal.old.blocks ≡ volume.old.geometry.zones }
    ensures step { IfOk result (λ reply.
        record { parts = record { journal = journal.new.part; volume = volume.new; pages = pages.new.pages; owners = owners.new.items }; progress = Answered reply } ≡
        does (record { journal = journal.old.part; volume = volume.old; pages = pages.old.pages; owners = owners.old.items }) number call.now) }
    ensures err { OnErr result ((journal.new.part ≡ journal.old.part) × (volume.new ≡ volume.old) × (pages.new.pages ≡ pages.old.pages) × (owners.new.items ≡ owners.old.items)) }
    ensures same { journal.new ≡ with_part journal.old journal.new.spare journal.new.part }
    ensures known { StaysKnown volume.old volume.new known.old known.new }
{
    calls_tell_few();
    volumes_are_plain(volume);
    let Some(own) = volume.number_in(number) else {
        return Err(NoMemory);
    };
    let Ok(tx) = u32::try_from(journal.running().number()) else {
        return Err(NoMemory);
    };
    make_room(alloc, journal, pages, volume, call)?;
    let (reply, touched) = volume.perform(alloc, own, tx, call)?;
    change(journal, pages, owners, volume, number, &touched);
    if !kind_of(call).is_reading() {
        known.forget();
    }
    Ok(reply)
}

/// The step of a call that nothing refuses and that needs this, as entry `number` of the history. Memory is asked for first; where it is refused, there may be more room than before, and nothing else is changed. `NoMemory` also stands
/// for a call or a transaction whose number is too great for its word.
pub fn step_plainly(
    alloc: Global,
    journal: &mut JournalPart,
    volume: &mut PlainVolume,
    pages: &mut Pages,
    owners: &mut Vec<u64>,
    known: &mut Known,
    number: u64,
    call: &Call,
    needs: Needs,
) -> Result<PlainProgress, NoMemory>
    requires refused { refusal volume.old call.now ≡ None }
    requires changes { needs.changes ≡ would_change volume.old call.now }
    requires zones { needs.zones ≡ needed volume.old call.now }
    requires known { AreToCome volume.old known.old.to_come }
    requires blocks { journal.old.blocks ≡ volume.old.geometry.zones }
    ensures step { IfOk result (λ p.
        record { parts = record { journal = journal.new.part; volume = volume.new; pages = pages.new.pages; owners = owners.new.items }; progress = progress_is p } ≡
        steps_plainly (writers journal.old.made_with) volume.old.geometry.zmap (quota journal.old.made_with)
        (record { journal = journal.old.part; volume = volume.old; pages = pages.old.pages; owners = owners.old.items }) number call.now) }
    ensures err { OnErr result ((journal.new.part ≡ journal.old.part) × (volume.new ≡ volume.old) × (pages.new.pages ≡ pages.old.pages) × (owners.new.items ≡ owners.old.items)) }
    ensures same { journal.new ≡ with_part journal.old journal.new.spare journal.new.part }
    ensures known { StaysKnown volume.old volume.new known.old known.new }
    ensures waiting { IfOk result (λ p. is_waiting p ≡ true → (volume.new ≡ volume.old) × (would_change volume.old call.now ≡ true)) }
{
    if let Some(cause) = hindrance(journal, volume, call, needs) {
        return hinder(journal, volume, cause, &mut known.to_come);
    }
    let reply = perform(alloc, journal, volume, pages, owners, known, number, call)?;
    Ok(PlainProgress::Answered(reply))
}
