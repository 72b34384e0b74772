//! What the map says of one zone.
ghost use Rattle.std.specs.Prelude.{◌≡◌};
ghost use Rattle.minix_tables.specs.zones.Zones.{is_free, is_quarantined_for, is_quarantined_to, let_go};

/// What a zone of data is.
#[derive(Clone, Copy, Debug, PartialEq, Eq)]
pub enum ZoneState {
    Free,
    Used,
    /// Freed by this transaction, whose commit block is not submitted.
    Quarantined(u32),
}

pub fn is_free(state: ZoneState) -> bool
    ensures { result ≡ is_free state }
{
    match state {
        ZoneState::Free => true,
        ZoneState::Used | ZoneState::Quarantined(_) => false,
    }
}

// Whether the zone waits for this transaction.
pub fn is_quarantined_for(state: ZoneState, tx: u32) -> bool
    ensures { result ≡ is_quarantined_for tx state }
{
    match state {
        ZoneState::Quarantined(freed_by) => freed_by == tx,
        ZoneState::Free | ZoneState::Used => false,
    }
}

// Whether the zone waits for a transaction up to this one.
pub fn is_quarantined_to(state: ZoneState, tx: u32) -> bool
    ensures { result ≡ is_quarantined_to tx state }
{
    match state {
        ZoneState::Quarantined(freed_by) => freed_by <= tx,
        ZoneState::Free | ZoneState::Used => false,
    }
}

// The zone after the transaction's release.
pub fn let_go(state: ZoneState, tx: u32) -> ZoneState
    ensures { result ≡ let_go tx state }
{
    if is_quarantined_for(state, tx) {
        ZoneState::Free
    } else {
        state
    }
}
