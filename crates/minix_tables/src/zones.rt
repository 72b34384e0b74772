//! Which zones of data of a volume are free.
//!
//! A zone that a call frees is not handed out again at once: it stays in quarantine for the transaction that freed
//! it, until that transaction's commit block is submitted. So what is written to a zone that was taken again never
//! overtakes the transaction that let it go.
//!
//! `zone_map` has the map, `zone_state` what it says of a zone, and `laws` what holds over any list of its calls.
//!
//! Stands on `minix_layout`, whose `Geometry` says which zones a volume has.
mod laws;
mod search;
mod zone_map;
mod zone_state;

pub use laws::{lowest_is_found, zones_are_counted, zones_last};
pub use zone_map::{NoSpace, ZoneMap};
pub use zone_state::ZoneState;
