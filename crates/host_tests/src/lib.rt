//! Tests of the parts of a host: cached pages, conflicts, the ring of the log, and the flush and commit actors. In
//! `machine` stand laws of the host's machine in the words of its rules, and in `still_calls` one of calls that wait for nothing.
//!
//! Stands on `page_cache`, `flush_actor::conflicts`, `journal_ring`, `flush_actor`, `commit_actor`, `host_machine` and `minix_host`.
#![tactic(auto)]

#[cfg(test)]
mod commits;
#[cfg(test)]
mod conflicts;
#[cfg(test)]
mod flushes;
pub mod machine;
#[cfg(test)]
mod pages;
#[cfg(test)]
mod same;
pub mod still_calls;
#[cfg(test)]
mod volumes;
