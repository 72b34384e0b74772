//! Barrier and sync calls that have begun: their pages are sent one by one, and then they wait.
//!
//! `begun` has what is kept of such a call, `waiting` what it does once no page is left, `pages` which page is next, and
//! `going_on` one step. Each is the part of the host's step that changes the journal's part and the pages; the history is
//! left to the host.
//!
//! Stands on `commit_actor` and `page_cache`, whose parts a call changes, and on `host_answers`, which has the causes for
//! which it waits; `host_machine` says what the steps are.
mod begun;
mod going_on;
mod laws;
mod pages;
mod waiting;

pub use begun::Begun;
pub use going_on::go_on;
pub use laws::begun_calls_step_on_their_parts;
pub use waiting::BegunProgress;
