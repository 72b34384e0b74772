//! The ring of a journal's log: which of its places are free, and which committed bodies are still to be sent home.
//!
//! A transaction's log blocks take places behind those that are in use. Once its commit block is submitted, its bodies
//! wait to be sent home. A checkpoint sends each of them, in rising order of block, and then a superblock by which the
//! log begins anew: all places are free again.
//!
//! `ring` has the ring, `homes` the bodies that wait, `logged_body` what is kept of a body, and `laws` what holds over any
//! list of calls.
//!
//! Stands on `journal_blocks`, whose superblock it is made from, and on `number_sets`.
#![tactic(auto)]

mod homes;
mod laws;
mod logged_body;
mod ring;
pub mod running;

pub use laws::{
    bodies_wait_until_they_are_sent, last_bodies_wait_to_be_sent_home, places_are_free_or_in_use,
};
pub use logged_body::{Bodies, LoggedBody};
pub use ring::Ring;
