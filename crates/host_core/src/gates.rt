//! What a call is told before it is done: what refuses it, whether it would change anything, and why it waits.
//!
//! `asking` has what a volume says of a call, `kinds` what a call is, and `waiting` why a call waits that would change
//! the tree or a page. None of it takes memory. The volume's type goes on from here to the crates above.
//!
//! Stands on `volume_calls`, which has the volume, on `commit_actor`, whose running transaction may be full, and on
//! `minix_host`, which says what the host asks.
mod asking;
mod kinds;
mod laws;
mod waiting;

pub use asking::{asked, node_of, would_change};
pub use kinds::{call_path, kind_of};
pub use laws::calls_wait_by_their_parts;
pub use volume_calls::{PlainVolume, volumes_are_plain};
pub use waiting::{Needs, hindrance};
