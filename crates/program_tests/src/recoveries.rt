//! Attempts of recovery that are cut, and attempts of more steps than there are.
use crate::told::told;
use std::alloc::{AllocError, Global};
use std::process::Abort;

// A file that is synced is there.
const SYNC: &str = "\
volume inodes 32 zones 64 journal 128
thread 1
mkdir /a
create /a/f
write /a/f 0 3 61
fsync /a/f
events
round 100
";

const SYNC_PRINTS: &str = "\
steps 19
requests 10
1 mkdir /a: ok
1 create /a/f: ok
1 write /a/f 0 3 61: ok
1 fsync /a/f: ok
thread 1: 4 of 4
closed 1
found 1
dir /
dir /a
file /a/f size 3 links 1
block 0 3x61
";

// Whatever was attempted, this is printed.
fn expect_report(rt: &impl Abort, alloc: Global, script: &str) {
    let found = told(rt, alloc, &["replay"], script.as_bytes());
    assert_eq!(rt; found.as_slice(), SYNC_PRINTS.as_bytes(), "{script}");
}

// The log of that file is recovered by two attempts that are cut after so many steps each, and a last one.
#[test]
fn recovers_after_attempts_that_were_cut(rt: HostRuntime) {
    let alloc = rt.alloc();
    for first in 0..15_u32 {
        for second in 0..15_u32 {
            let attempts = format!(in alloc; "{SYNC}recover d{first}\nrecover d{second}\n");
            let script = attempts.expect(&rt, "no memory");
            expect_report(&rt, alloc, &script);
        }
    }
}

// A line of so many words, each of which asks for a million steps.
fn long_attempt(alloc: Global, words: u32) -> Result<String, AllocError> {
    let mut script = format!(in alloc; "{SYNC}recover")?;
    for _ in 0..words {
        script.push_str(" d1000000")?;
    }
    script.push_str("\n")?;
    Ok(script)
}

// None is made behind the end.
#[test]
fn recovers_by_more_steps_than_there_are(rt: HostRuntime) {
    let alloc = rt.alloc();
    let script = long_attempt(alloc, 1_000).expect(&rt, "no memory");
    expect_report(&rt, alloc, &script);
}
