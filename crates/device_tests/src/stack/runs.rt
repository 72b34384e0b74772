//! Runs of small scripts, with what they leave worked out by hand.
use crate::steps::expect;
use script_grammar::read_script;
use stack_core::{Report, core_run};
use std::alloc::Global;
use std::process::Abort;

// A script, and what its run leaves.
struct Row {
    name: &'static str,
    text: &'static [u8],
    steps: u64,
    // How many requests were submitted, and how many the scheduler accepted.
    submitted: usize,
    accepted: usize,
    // How many parts were moved.
    moved: usize,
    // The requests that the scheduler sent, each as a command of its own, and the device took.
    sent: &'static [u64],
    origins: &'static [Option<u64>],
}

// What the report tells is what the row has.
fn compare(rt: &impl Abort, report: &Report, row: &Row) {
    let cut = &report.cut;
    let accepted = report.sched.accepted.len();
    let sent = report.sched.sent_out.len();
    let moved = cut.trace.moved.as_slice().len();
    let came = [report.submitted.len(), accepted, sent, moved];
    let wanted = [row.submitted, row.accepted, row.sent.len(), row.moved];
    let came = (cut.trace.steps, came, cut.origins.as_slice());
    expect(rt, row.name, 0, &came, &(row.steps, wanted, row.origins));
    for (place, id) in row.sent.iter().enumerate() {
        expect(
            rt,
            row.name,
            place,
            &cut.trace.took.part_id(place),
            &Some(*id),
        );
    }
}

fn runs(rt: &impl Abort, alloc: Global, row: &Row) {
    assert!(rt; row.text.len() <= 4194304);
    let script = read_script(alloc, row.text).expect(rt, "no script");
    let report = core_run(alloc, &script).expect(rt, "no run");
    drop(script);
    compare(rt, &report, row);
    drop(report);
}

static ROWS: [Row; 12] = [
    // Request 2 finds the dispatch queue full and is kept. The next dispatch sends it, whatever it picks, and
    // takes no other one: request 1 could go, and stays.
    Row {
        name: "keeps a command that finds the queue full",
        text: b"blocks 3
queue 1
put 0 11 free
put 1 22 free
put 2 33 free
events
submit
accept
submit
accept
submit
accept
dispatch 0
dispatch 1
receive
dispatch 0
receive x 2
transfer 0 x 2
persist 0 x 2
",
        steps: 4,
        submitted: 3,
        accepted: 3,
        moved: 2,
        sent: &[0, 2],
        origins: &[Some(0), None, Some(2)],
    },
    Row {
        name: "submits no more than the queue holds",
        text: b"blocks 1\nqueue 2\nput 0 11 free\nput 0 22 free\nput 0 33 free\nevents\nsubmit x 5\n",
        steps: 0,
        submitted: 2,
        accepted: 0,
        moved: 0,
        sent: &[],
        origins: &[None],
    },
    Row {
        name: "accepts nothing while a barrier is closing",
        text: b"blocks 2\nput 0 11 barrier\nput 1 22 free\nevents\nsubmit x 2\naccept x 2\ndispatch 0\nreceive\n",
        steps: 0,
        submitted: 2,
        accepted: 1,
        moved: 0,
        sent: &[0],
        origins: &[None, None],
    },
    Row {
        name: "has no scheduler in a device script",
        text: b"device 2\nput 0 11 free\nput 1 22 free\nevents\nreceive\ntransfer 0\npersist 0\n",
        steps: 2,
        submitted: 1,
        accepted: 0,
        moved: 1,
        sent: &[],
        origins: &[Some(0), None],
    },
    // On a flash log: of three pages the second and the third are programmed, and what lies behind the first one is lost.
    Row {
        name: "drops what lies behind a gap",
        text: b"device 3
flash 3
put 0 11 ordered
put 1 22 ordered
put 2 33 ordered
events
receive x 3
transfer 0 x 3
persist 1 x 2
",
        steps: 5,
        submitted: 3,
        accepted: 0,
        moved: 3,
        sent: &[],
        origins: &[None, None, None],
    },
    // Once the first page is programmed too, each block has its put.
    Row {
        name: "has all once the gap is filled",
        text: b"device 3
flash 3
put 0 11 ordered
put 1 22 ordered
put 2 33 ordered
events
receive x 3
transfer 0 x 3
persist 1 x 2
persist 0
",
        steps: 6,
        submitted: 3,
        accepted: 0,
        moved: 3,
        sent: &[],
        origins: &[Some(0), Some(1), Some(2)],
    },
    // Nothing is transferred behind a transfer that failed, and so nothing is written.
    Row {
        name: "first transfer of a run fails",
        text: b"device 2
fail 1
put 0 11 free
put 1 22 free
events
receive x 2
transfer 0 x 2
persist 0 x 2
",
        steps: 1,
        submitted: 2,
        accepted: 0,
        moved: 0,
        sent: &[],
        origins: &[None, None],
    },
    // What was transferred before it is written.
    Row {
        name: "a later transfer of a run fails",
        text: b"device 3
fail 2
put 0 11 free
put 1 22 barrier
put 2 33 free
events
receive x 3
transfer 0 x 3
persist 0 x 3
",
        steps: 3,
        submitted: 3,
        accepted: 0,
        moved: 1,
        sent: &[],
        origins: &[Some(0), None, None],
    },
    Row {
        name: "a flush of a run fails",
        text: b"device 2
fail 2
put 0 11 free
flush
put 1 22 free
events
receive x 3
transfer 0
persist 0
transfer 0 x 2
persist 0
",
        steps: 3,
        submitted: 3,
        accepted: 0,
        moved: 1,
        sent: &[],
        origins: &[Some(0), None],
    },
    // The command that fails leaves the queue, which has one place: the next one is taken, and stays there.
    Row {
        name: "a failed command leaves the queue",
        text: b"device 3
depth 1
fail 1
put 0 11 free
put 1 22 free
put 2 33 free
events
receive
transfer 0
receive x 2
transfer 0
persist 0
",
        steps: 1,
        submitted: 2,
        accepted: 0,
        moved: 0,
        sent: &[],
        origins: &[None, None, None],
    },
    // The transfer that fails is the step at which the power goes off. The second request is not taken.
    Row {
        name: "a run fails and goes off",
        text: b"device 1\ncut 1\nfail 1\nput 0 11 free\nput 0 22 free\nevents\nreceive\ntransfer 0\nreceive\npersist 0\n",
        steps: 1,
        submitted: 1,
        accepted: 0,
        moved: 0,
        sent: &[],
        origins: &[None],
    },
    // A failed command of the scheduler is sent out and taken, and its barrier is not on the medium; nor is what comes behind it.
    Row {
        name: "a barrier behind a scheduler fails",
        text: b"blocks 3
fail 2
put 0 11 ordered
put 1 22 barrier
put 2 33 ordered
events
submit x 3
accept x 2
dispatch 0 x 2
accept
dispatch 0
receive x 3
transfer 0 x 3
persist 0 x 3
",
        steps: 3,
        submitted: 3,
        accepted: 3,
        moved: 1,
        sent: &[0, 1, 2],
        origins: &[Some(0), None, None],
    },
];

#[test]
fn runs_leave_what_their_rows_tell(rt: HostRuntime) {
    for row in &ROWS {
        runs(&rt, rt.alloc(), row);
    }
}
