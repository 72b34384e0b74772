//! A plain call that has to wait.
ghost use Rattle.std.specs.Prelude.{◌≡◌, ◌<◌, ◌^◌, ℕ, List, if◌then◌else◌, IfOk, OnErr};
ghost use Rattle.page_cache.specs.declared.cached_page.CachedPage.{CachedPage};
ghost use Rattle.host_core.specs.begun.Causes.{cause_is};
ghost use Rattle.host_core.specs.effects.Effects.{with_part};
ghost use Rattle.host_core.specs.at_once.Steps.{wanting, hindered, hinders};
ghost use Rattle.host_core.specs.at_once.code.Told.{progress_is};
ghost use Rattle.host_core.specs.at_once.code.Waiting.{waits_below};
ghost use Rattle.host_core.specs.code.Known.{AreToCome};

use crate::at_once::PlainProgress;
use crate::gates::PlainVolume;
use crate::known::ZonesToCome;
use blk_base::NoMemory;
use commit_actor::JournalPart;
use host_answers::Cause;

// How many zones wait for transactions before this one.
fn zones_before(volume: &PlainVolume, number: u64) -> Result<u32, NoMemory>
    ensures ok { IfOk result (λ n. n ≡ waits_below volume.now number) }
    ensures great { OnErr result (2 ^ 32 < number) }
{
    let Some(last) = number.checked_sub(1) else {
        return Ok(0);
    };
    match u32::try_from(last) {
        Ok(last) => Ok(volume.zones().held_to(last)),
        Err(_) => Err(NoMemory),
    }
}

// How many zones the commit of transactions below the running one will free. The map of zones is asked once, until it
// changes.
fn zones_to_come(
    journal: &JournalPart,
    volume: &PlainVolume,
    known: &mut Option<ZonesToCome>,
) -> Result<u32, NoMemory>
    requires known { AreToCome volume.now known.old }
    ensures ok { IfOk result (λ n. n ≡ waits_below volume.now journal.now.part.running.number) }
    ensures great { OnErr result (2 ^ 32 < journal.now.part.running.number) }
    ensures known { AreToCome volume.now known.new }
{
    let before = journal.running().number();
    if let Some(found) = *known
        && found.before == before
    {
        return Ok(found.zones);
    }
    let zones = zones_before(volume, before)?;
    *known = Some(ZonesToCome { before, zones });
    Ok(zones)
}

// Whether a call that waits for this wants the running transaction closed.
fn wants_closed(
    journal: &JournalPart,
    volume: &PlainVolume,
    cause: Cause,
    known: &mut Option<ZonesToCome>,
) -> Result<bool, NoMemory>
    requires known { AreToCome volume.now known.old }
    ensures ok { IfOk result (λ wants. (if wants then wanting journal.now.part else journal.now.part) ≡ hindered volume.now (cause_is cause) journal.now.part) }
    ensures great { OnErr result (2 ^ 32 < journal.now.part.running.number) }
    ensures known { AreToCome volume.now known.new }
{
    match cause {
        Cause::TxFull(_) => Ok(true),
        Cause::Quarantine(lacks) => Ok(zones_to_come(journal, volume, known)? < lacks),
        _ => Ok(false),
    }
}

/// The call waits, where the session may have more requests. It takes no memory: `NoMemory` stands for a running transaction
/// whose number has more than 32 bits.
pub fn hinder(
    journal: &mut JournalPart,
    volume: &PlainVolume,
    cause: Cause,
    known: &mut Option<ZonesToCome>,
) -> Result<PlainProgress, NoMemory>
    requires known { AreToCome volume.now known.old }
    ensures step { (ps : List CachedPage) (os : List ℕ) → IfOk result (λ p.
        record { parts = record { journal = journal.new.part; volume = volume.now; pages = ps; owners = os }; progress = progress_is p } ≡
        hinders (record { journal = journal.old.part; volume = volume.now; pages = ps; owners = os }) (cause_is cause)) }
    ensures err { OnErr result (journal.new ≡ journal.old) }
    ensures great { OnErr result (2 ^ 32 < journal.old.part.running.number) }
    ensures same { journal.new ≡ with_part journal.old journal.old.spare journal.new.part }
    ensures known { AreToCome volume.now known.new }
{
    if journal.flush().at_limit() {
        return Ok(PlainProgress::Full);
    }
    if wants_closed(journal, volume, cause, known)? {
        journal.want_closed();
    }
    Ok(PlainProgress::Waiting(cause))
}
