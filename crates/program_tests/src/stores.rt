//! The script of a key-value store, cut at each step.
use crate::told::told;
use script_words::{lines, numeral};
use std::alloc::Global;
use std::process::Abort;

// How many of three puts are held where the power is off after so many steps: the number behind `held` in the
// fourth line.
fn held_at(rt: &impl Abort, alloc: Global, cut: u32) -> u64 {
    let script = format!(in alloc;
        "store 4\ncut {cut}\nput a 1\nput b 2\nput a 3\nflush\nevents\nround 200\n"
    ).expect(rt, "no memory");
    let text = told(rt, alloc, &["kv"], script.as_bytes());
    let lines = lines(alloc, &text).expect(rt, "no memory");
    let line = lines.get(3).expect(rt, "four lines");
    let number = line.get(b"held ".len()..).expect(rt, "a number");
    numeral(number).expect(rt, "a number")
}

#[test]
fn holds_no_less_after_a_later_cut(rt: HostRuntime) {
    let mut held = 0;
    for cut in 0..=30 {
        let found = held_at(&rt, rt.alloc(), cut);
        assert!(rt; found >= held, "cut {cut}");
        held = found;
    }
    assert_eq!(rt; held, 3);
}
