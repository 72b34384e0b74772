//! Workloads that are generated and run. Their calls were worked out by a program of another language, with the generator
//! written by hand.
use crate::told::told;
use script_words::{lines, numeral};
use session_grammar::SessionScript;
use session_report::bulk::{MOST_GENERATED, script_of_bulk};
use std::alloc::Global;
use std::process::Abort;

static CALLS: [(u32, &str); 4] = [
    (1, "truncate /f60 5120\n"),
    (2, "create /f53\nfsync /f40\n"),
    (3, "fbarrier /f41\nunlink /f5\nwrite /f19 11264 1024 e4\n"),
    (
        5,
        "truncate /f54 6144\nfdatabarrier /f48\ncreate /f0\nfsync /f2\nunlink /f48\n",
    ),
];

// The lines of the calls of a workload.
fn calls_of(rt: &impl Abort, alloc: Global, number: u32) -> Vec<u8> {
    assert!(rt; number >= 1 && number <= MOST_GENERATED);
    let script = script_of_bulk(alloc, number).expect(rt, "no memory");
    let mut text = Vec::new(alloc);
    for line in script.lines.as_slice() {
        let put: Result<_, _> = text.extend_from_slice(line.as_slice());
        put.expect(rt, "no memory");
        let put: Result<_, _> = text.push(b'\n');
        put.expect(rt, "no memory");
    }
    drop(script);
    text
}

#[test]
fn calls_of_workloads(rt: HostRuntime) {
    for (number, wanted) in &CALLS {
        let found = calls_of(&rt, rt.alloc(), *number);
        assert_eq!(rt; found.as_slice(), wanted.as_bytes(), "{number}");
    }
}

// The text that says the script of a workload.
fn text_of(rt: &impl Abort, alloc: Global, script: &SessionScript, rounds: u32) -> String {
    let mut text = format!(in alloc;
        "volume inodes 512 zones 4096 journal 512\nlimit 200000\n"
    ).expect(rt, "no memory");
    let mut calls = script.lines.as_slice().iter();
    for (before, program) in script.programs.as_slice().iter().enumerate() {
        let put: Result<_, _> = writeln!(&mut text, "thread {}", before.saturating_add(1));
        put.expect(rt, "no memory");
        for _ in 0..program.as_slice().len() {
            let line = calls.next().map_or(b"".as_slice(), |line| line.as_slice());
            let put: Result<_, _> = writeln!(&mut text, "{}", str::from_utf8(line).unwrap_or(""));
            put.expect(rt, "no memory");
        }
    }
    let put: Result<_, _> = write!(&mut text, "events\nround {rounds}\nrecover d5\n");
    put.expect(rt, "no memory");
    text
}

fn begins(line: &[u8], front: &[u8]) -> bool {
    line.get(..front.len()) == Some(front)
}

// The number in the line of a replay that begins so.
fn figure(replayed: &[u8], name: &[u8]) -> Option<u64> {
    for line in replayed.split(|byte| *byte == b'\n') {
        if begins(line, name) {
            return line.get(name.len()..).and_then(|word| numeral(word));
        }
    }
    None
}

// How many calls of a replay were answered ok, and how many files its tree has.
fn counts(replayed: &[u8]) -> (u64, u64) {
    let (mut ok, mut files) = (0_u64, 0_u64);
    for line in replayed.split(|byte| *byte == b'\n') {
        let back = line.get(line.len().saturating_sub(4)..);
        ok = ok.saturating_add(u64::from(back == Some(b": ok")));
        files = files.saturating_add(u64::from(begins(line, b"file ")));
    }
    (ok, files)
}

static NAMES: [&[u8]; 7] = [
    b"bulk ",
    b"steps ",
    b"requests ",
    b"closed ",
    b"found ",
    b"ok ",
    b"files ",
];

// The numbers of a summary, which has these lines and no other.
fn numbers(rt: &impl Abort, alloc: Global, text: &[u8]) -> [Option<u64>; 7] {
    let lines = lines(alloc, text).expect(rt, "no memory");
    assert!(rt; lines.len() == 7);
    let mut numbers = [None; 7];
    for (place, slot) in numbers.iter_mut().enumerate() {
        if let (Some(line), Some(name)) = (lines.get(place), NAMES.get(place)) {
            assert!(rt; begins(line, name), "line {place}");
            *slot = line.get(name.len()..).and_then(|word| numeral(word));
        }
    }
    numbers
}

#[test]
fn summarises_the_replay_of_a_workload(rt: HostRuntime) {
    let alloc = rt.alloc();
    let script = script_of_bulk(alloc, 500).expect(&rt, "no memory");
    let text = text_of(&rt, alloc, &script, 26_000);
    drop(script);
    let replayed = told(&rt, alloc, &["replay"], text.as_bytes());
    let (ok, files) = counts(&replayed);
    let wanted = [
        Some(500),
        figure(&replayed, b"steps "),
        figure(&replayed, b"requests "),
        figure(&replayed, b"closed "),
        figure(&replayed, b"found "),
        Some(ok),
        Some(files),
    ];
    let found = told(&rt, alloc, &["bulk", "500"], b"");
    assert_eq!(rt; numbers(&rt, alloc, &found), wanted);
}

#[test]
fn runs_the_largest_workload(rt: HostRuntime) {
    let alloc = rt.alloc();
    let once = told(&rt, alloc, &["bulk", "10000"], b"");
    let again = told(&rt, alloc, &["bulk", "10000"], b"");
    assert!(rt; once == again);
    let [number, _, _, closed, found, _, files] = numbers(&rt, alloc, &once);
    assert_eq!(rt; number, Some(10_000));
    assert!(rt; found.is_some() && found <= closed && files <= Some(64));
}
