//! Laws of applications on the sessions of volume scripts: what is left of a file that is replaced, of messages that are moved to
//! their place, and of a log before its pages, wherever the power went.
#![tactic(auto)]

mod laws;

pub use laws::{
    calls_of_a_path_cover_its_file, messages_are_whole_after_recovery, new_files_need_no_barrier,
    pages_have_their_records, replaced_files_are_old_or_new, scripts_replace_files_whole,
};
