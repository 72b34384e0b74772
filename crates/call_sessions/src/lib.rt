//! Sessions over calls as code has them.
//!
//! The laws of `minix_host` are over calls with a proof that they write bytes. Here the same is said over calls alone:
//! `specs/CallsAs` sees a host's calls as other things, and `specs/Sessions` has a session over calls and what it keeps.
//! The public functions do nothing when they are called: each is a law, and its clauses say it.
//!
//! `power_cuts` has what a power cut leaves of such a session and what recovery makes of it, `zone_reuse` the rule on zones
//! that are used again.
//!
//! Stands on `minix_host` and `made`, whose sessions these are, and on `line_grammar::calls`, which says what calls a
//! script has.
#![tactic(auto)]

mod laws;
pub mod made;
pub mod power_cuts;
pub mod promises;
pub mod zone_reuse;

pub use laws::{
    calls_of_scripts_write_bytes, forgetting_proofs_changes_no_step,
    sessions_of_calls_keep_rules_and_trees, sessions_of_calls_on_made_images,
};
