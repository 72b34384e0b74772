//! Runs of the host's machine: from an opened host, whatever callers, commit actor, write-back and flush actor do.
//!
//! `specs/Runs` has the lists of steps, `specs/Opened` what a host is opened with, `specs/Promises` what a barrier or
//! sync call has when it is answered Ok, and `specs/Sentences` what a power cut leaves. `specs/laws` has what the host
//! keeps of its log ring, of the plan on its way, of its begun calls and of its flushes. The public functions do nothing
//! when they are called: each is a law, and its clauses say it.
//!
//! Stands on `host_machine`, whose steps these are, and on `crash_laws`.
mod laws;

pub use laws::{
    answers_keep_their_promises, every_step_keeps_the_rules, flushes_are_charged_to_sync_calls,
    flushes_are_waited_for, plans_spell_their_transaction, power_cuts_leave_whole_transactions,
    runs_keep_the_rules,
};
