//! Searches and changes over the states of all zones.
ghost use Rattle.std.specs.Prelude.{◌≡◌, ◌-◌, ◌≤◌, ◌<◌, ◌^◌, nat_le, if◌then◌else◌, IfSome, Some, [], length, map, slice_set, count_by};
ghost use Rattle.std.specs.List.{slice_get, position, range_with_len};
ghost use Rattle.minix_tables.specs.declared.zones.zone_state.ZoneState.TheVariants as kinds;
ghost use Rattle.minix_tables.specs.zones.Zones.{NoneFreeBelow, least_free, is_free, is_quarantined_for, let_go, mark};

use crate::zones::ZoneState;
use crate::zones::zone_state::{is_free, is_quarantined_for, let_go};

// The first free place, where none below `low` is free.
pub fn next_free(states: &[ZoneState], low: usize) -> Option<usize>
    requires below { NoneFreeBelow states.now low }
    requires within { low ≤ length states.now }
    ensures least { result ≡ least_free states.now }
    ensures free { IfSome result (λ at. (slice_get states.now at ≡ Some kinds.Free) × NoneFreeBelow states.now at) }
{
    for at in low..states.len() {
        if is_free(states[at]) {
            return Some(at);
        }
    }
    None
}

// How many places are free.
pub fn count_free(states: &[ZoneState]) -> u32
    requires { length states.now < 2 ^ 16 }
    ensures { result ≡ count_by is_free states.now }
{
    states.iter().filter(|state| is_free(**state)).count() as u32
}

// The first place that waits for a transaction.
pub fn first_quarantined(states: &[ZoneState], tx: u32) -> Option<usize>
    ensures { result ≡ position (is_quarantined_for tx) states.now }
{
    states
        .iter()
        .position(|state| is_quarantined_for(*state, tx))
}

// Frees what waits for a transaction, and counts it.
pub fn free_quarantined(states: &mut [ZoneState], tx: u32) -> u32
    requires { length states.old < 2 ^ 16 }
    ensures states { states.new ≡ map (let_go tx) states.old }
    ensures count { result ≡ count_by (is_quarantined_for tx) states.old }
{
    let mut freed = 0;
    for state in states.iter_mut() {
        freed += u32::from(is_quarantined_for(*state, tx));
        *state = let_go(*state, tx);
    }
    freed
}

// Marks the listed zones as used, where `first` is the number of the first one. Others are left out.
pub fn mark_used(states: &mut [ZoneState], first: u16, used: &[u16])
    requires free { states.old ≡ map (mark []) (range_with_len first (length states.old)) }
    ensures states { states.new ≡ map (mark used.now) (range_with_len first (length states.old)) }
{
    for zone in used {
        mark_zone(states, first, *zone);
    }
}

// Marks a zone as used, if it is one.
fn mark_zone(states: &mut [ZoneState], first: u16, zone: u16)
    ensures { states.new ≡ (if nat_le first zone then slice_set states.old (zone - first) kinds.Used else states.old) }
{
    if zone >= first {
        let at = usize::from(zone - first);
        if at < states.len() {
            states[at] = ZoneState::Used;
        }
    }
}
