//! The program but for its `main`: from the words of a command line and a source of bytes to what goes out.
//!
//! `barrierfs` is the top call: it runs a volume script in threads, and does with all other words what `alone` does, which runs a
//! script on one thread of the model stack and writes what a power cut leaves, as a text or as an image, writes the tree of an
//! image, gives one longer names, checks or makes one, runs a generated workload, or the script of a key-value store.
//! `clap_words` reads the words, and `specs/Tasks.antt` says what they ask for. `specs/TopEnd.antt` says what a call says of its
//! end: what it did, by its fault (`specs/Top.antt`), and what it promises of the bytes that go out (`specs/Promise.antt`, of a
//! store `specs/KeptPuts.antt`); `laws` that the image has the tree of the text. `do_words` and `run_words` are the same two calls
//! without the report, and `run_program` is all that a `main` does.
#![tactic(auto)]

mod bulk;
mod check;
mod command_line;
mod device;
mod fault;
mod laws;
mod output;
mod program;
mod run_report;
mod session;
mod show;
mod store;
mod text;
mod threads;
mod threads_script;
mod top;
mod widen;

pub use command_line::{InputTask, MOST_IMAGE_BYTES, Sizes, Task, Words};
pub use fault::TopFault;
pub use laws::{inputs_end_in_one_way, raw_images_show_the_printed_tree, words_ask_by_the_table};
pub use program::{Ended, do_words, given_words, run_program, run_words};
pub use run_report::RunReport;
pub use threads::{OpenGate, barrierfs};
pub use top::{Outcome, alone};
