//! The map of the zones of data: which are free, in use, or in quarantine.
ghost use Rattle.std.specs.Prelude.{◌≡◌, ◌≤◌, ◌-◌, ◌<◌, ◌↔◌, IfOk, IsErr, Some, None, count_by};
ghost use Rattle.minix_tables.specs.declared.zones.zone_state.ZoneState.TheVariants as states;
ghost use Rattle.minix_tables.specs.zones.Zones.{made, state_of, lowest_free, taken, given, released, is_free, is_quarantined, is_quarantined_to};

use crate::zones::ZoneState;
use crate::zones::search::{count_free, first_quarantined, free_quarantined, mark_used, next_free};
use crate::zones::zone_state::is_quarantined_to;
use blk_base::NoMemory;
use minix_layout::Geometry;
use std::alloc::Global;
use std::marker::Model;

/// No zone is free.
#[derive(Clone, Copy, Debug, PartialEq, Eq)]
pub struct NoSpace;

/// The states of the zones of data of a volume. No call but `make` takes memory.
#[derive(Drop)]
pub struct ZoneMap {
    first: u16,
    states: Vec<ZoneState>,
    // None below this place is free.
    low: usize,
    free: u32,
    quarantined: u32,
}

impl Model for ZoneMap {
    ghost use Rattle.minix_tables.specs.zones.Zones.{Zones};
    ghost use Rattle.minix_tables.specs.zones.code.ZoneMap.{IsZoneMap};

    ghost Value = { Zones };

    ghost view = { λ m. record { first = m.first; states = m.states.items } };

    ghost invariant = { λ m. IsZoneMap m.first m.states.items m.low m.free m.quarantined };
}

impl ZoneMap {
    /// The zones from `first` to `zones` - 1 of a volume. Those of `used` are in use and the others free; numbers
    /// outside the zones of data say nothing.
    pub fn make(alloc: Global, g: &Geometry, used: &[u16]) -> Result<ZoneMap, NoMemory>
        ensures { IfOk result (λ m. m ≡ made g.now used.now) }
    {
        let count = usize::from(g.zones.saturating_sub(g.first));
        let mut states = vec![in alloc; ZoneState::Free; count]?;
        mark_used(&mut states, g.first, used);
        let free = count_free(&states);
        Ok(ZoneMap {
            first: g.first,
            states,
            low: 0,
            free,
            quarantined: 0,
        })
    }

    /// How many zones are free.
    pub fn free_count(&self) -> u32
        ensures { result ≡ count_by is_free self.now.states }
    {
        self.free
    }

    /// How many zones are in quarantine.
    pub fn quarantined(&self) -> u32
        ensures { result ≡ count_by is_quarantined self.now.states }
    {
        self.quarantined
    }

    /// How many zones are in quarantine for transactions up to `tx`.
    pub fn held_to(&self, tx: u32) -> u32
        ensures { result ≡ count_by (is_quarantined_to tx) self.now.states }
    {
        if self.quarantined == 0 {
            return 0;
        }
        self.states
            .iter()
            .filter(|state| is_quarantined_to(**state, tx))
            .count() as u32
    }

    /// The lowest free zone, which is then in use. `NoSpace` where none is free; those in quarantine are not.
    pub fn take(&mut self) -> Result<u16, NoSpace>
        ensures lowest { IfOk result (λ zone. lowest_free self.old ≡ Some zone) }
        ensures none { IsErr result ↔ (lowest_free self.old ≡ None) }
        ensures taken { self.new ≡ taken self.old }
    {
        match next_free(&self.states, self.low) {
            Some(at) => {
                self.states[at] = ZoneState::Used;
                self.low = at + 1;
                self.free -= 1;
                Ok(self.first + at as u16)
            }
            None => {
                self.low = self.states.len();
                Err(NoSpace)
            }
        }
    }

    /// Puts a zone that is in use into quarantine for transaction `tx`.
    pub fn give(&mut self, zone: u16, tx: u32)
        requires { state_of self.old zone ≡ Some states.Used }
        ensures { self.new ≡ given self.old zone tx }
    {
        let at = usize::from(zone - self.first);
        self.states[at] = ZoneState::Quarantined(tx);
        self.quarantined += 1;
    }

    /// Frees the zones in quarantine for transaction `tx`, and no other zone.
    pub fn release(&mut self, tx: u32)
        ensures { self.new ≡ released self.old tx }
    {
        if self.quarantined == 0 {
            return;
        }
        let lowest = first_quarantined(&self.states, tx).unwrap_or(self.low);
        self.low = self.low.min(lowest);
        let freed = free_quarantined(&mut self.states, tx);
        self.free += freed;
        self.quarantined -= freed;
    }
}
