//! Runs and digits that were written by hand.
use crate::steps::expect;
use byte_text::{put_runs, runs_are_maximal};

static RUNS: [(&[u8], &str); 5] = [
    (b"", "-"),
    (b"aaa", "3x61"),
    (&[0, 0, 1], "2x00+1x01"),
    (&[0xFF, 0, 0xFF], "1xff+1x00+1xff"),
    (&[0x7E; 1024], "1024x7e"),
];

#[test]
fn writes_runs(rt: HostRuntime) {
    for (row, (bytes, text)) in RUNS.iter().enumerate() {
        let mut out = String::new(rt.alloc());
        let put: Result<_, _> = put_runs(&mut out, bytes);
        put.expect(&rt, "no text");
        expect(&rt, "row", row, &out.as_str(), text);
    }
    runs_are_maximal();
}
