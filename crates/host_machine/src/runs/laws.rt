//! The laws, each a public function that does nothing when it is called.

mod answers;
mod cuts;
mod plans;
mod steps;

pub use answers::{
    answers_keep_their_promises, flushes_are_charged_to_sync_calls, flushes_are_waited_for,
};
pub use cuts::power_cuts_leave_whole_transactions;
pub use plans::plans_spell_their_transaction;
pub use steps::{every_step_keeps_the_rules, runs_keep_the_rules};
