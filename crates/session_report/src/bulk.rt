//! The workload that is generated from a number: its script, and the summary of a session that ran it.
//!
//! `script_of_bulk` makes the script, which `specs/Workload.antt` defines from the words of a generator. The law
//! `workloads_are_scripts` says that it is well-formed and is what is read of a text that spells it, so that the session
//! of the workload is that of the text. `put_summary` writes the summary, with `count_ok` and `count_files` for two of
//! its numbers; the text stands in `specs/Summary.antt`.
//!
//! Stands on `session_grammar` for scripts, on `text` for the lines of counts, and on the kit's `rand_pcg`.
mod law;
mod limits;
mod summary;
mod word;
mod workload;

pub use law::workloads_are_scripts;
pub use limits::MOST_GENERATED;
pub use summary::{Summary, count_files, count_ok, put_summary};
pub use workload::script_of_bulk;
