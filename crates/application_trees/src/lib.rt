//! Laws of applications, over the trees of a session and what a power cut leaves of them: how a file is replaced, how a message
//! is moved to its place, and how a log is written before pages.
#![tactic(auto)]

mod laws;

pub use laws::{files_are_replaced_whole, messages_are_whole};
