//! Runs scripts on the model stack and prints what a power cut leaves, makes images, widens them and prints their trees.
#![tactic(auto)]

use barrierfs_top::run_program;
use std::process::ExitCode;

fn main(rt: HostRuntime) -> ExitCode {
    run_program(&rt)
}
