//! Why a call waits that would change the tree or a page.
ghost use Rattle.std.specs.Prelude.{◌≡◌, length};
ghost use Rattle.std.specs.Option.{option_map};
ghost use Rattle.host_core.specs.begun.Causes.{cause_is};
ghost use Rattle.minix_host.specs.Calls.{needed, would_change};
ghost use Rattle.minix_host.specs.Volumes.{zones_of};
ghost use Rattle.host_core.specs.gates.Hindrances.{hindrance_of};

use commit_actor::JournalPart;
use host_answers::Cause;
use tree_model::Call;
use volume_calls::PlainVolume;

/// What a call asks of the host that nothing refuses: whether it would change the tree or a page, and how many zones it
/// would take.
#[derive(Clone, Copy)]
pub struct Needs {
    pub changes: bool,
    pub zones: u32,
}

/// Why a call that nothing refuses and that needs this has to wait, if it does: the running transaction is being closed, or
/// is full, or too few zones are free.
pub fn hindrance(
    journal: &JournalPart,
    volume: &PlainVolume,
    call: &Call,
    needs: Needs,
) -> Option<Cause>
    requires changes { needs.changes ≡ would_change volume.now call.now }
    requires zones { needs.zones ≡ needed volume.now call.now }
    ensures { option_map cause_is result ≡ hindrance_of journal.now volume.now call.now }
{
    if !needs.changes {
        return None;
    }
    if journal.is_closing() {
        return Some(Cause::Closing);
    }
    let running = journal.running();
    if !running.fits(volume.geometry().zmap) {
        return Some(Cause::TxFull(running.needs()));
    }
    let free = free_zones(volume);
    if free < needs.zones {
        return Some(Cause::Quarantine(needs.zones - free));
    }
    None
}

// How many zones are free.
fn free_zones(volume: &PlainVolume) -> u32
    ensures { result ≡ length (zones_of volume.now).free }
{
    volume.zones().free_count()
}
