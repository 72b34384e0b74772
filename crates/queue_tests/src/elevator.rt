//! What the elevator sends, worked out by hand from its rule.
use crate::bench::Ask::{Barrier, Flush, Ordered, Orderless};
use crate::bench::Step::{CanAccept, Eligible, Fill, Kept, Send, SendInto, Submit};
use crate::bench::{Bench, LIMIT, Row, plays_row};
use crate::steps::Answer::{Count, Is, Refused, Sent};
use order_model::carries_requests_merged;
use schedulers::elevator::{Elevator, lists_requests_as_the_head_meets_them};
use schedulers::reassign::Held;

static ROWS: [Row; 9] = [
    // Blocks 0, 1 and 2 leave as one command, which has the flag of the part that leaves last.
    Row {
        name: "merges a whole epoch",
        steps: &[
            (Submit(Ordered(2)), Refused(None)),
            (Submit(Ordered(0)), Refused(None)),
            (Submit(Barrier(1)), Refused(None)),
            (Submit(Ordered(3)), Refused(Some(Held::Blocked))),
            (Eligible, Count(3)),
            (Send(0), Sent(Some((1, 0, 3, "fence")))),
            (CanAccept, Is(true)),
            (Submit(Ordered(3)), Refused(None)),
            (Send(0), Sent(Some((3, 3, 1, "plain")))),
            (Send(0), Sent(None)),
        ],
        accepted: 4,
        sent: 2,
    },
    // The barrier is the first part; the flag leaves with the last part, and an orderless put does not join.
    Row {
        name: "barrier inside a command",
        steps: &[
            (Submit(Orderless(6)), Refused(None)),
            (Submit(Ordered(5)), Refused(None)),
            (Submit(Barrier(4)), Refused(None)),
            (Send(0), Sent(Some((2, 1, 2, "fence")))),
            (Submit(Orderless(7)), Refused(None)),
            (Send(0), Sent(Some((0, 3, 2, "plain")))),
        ],
        accepted: 4,
        sent: 2,
    },
    // Block 4 is orderless and block 5 order-preserving. Then the head stands at 5, and block 1 comes last.
    Row {
        name: "keeps classes apart",
        steps: &[
            (Submit(Orderless(4)), Refused(None)),
            (Submit(Orderless(1)), Refused(None)),
            (Submit(Ordered(5)), Refused(None)),
            (Send(3), Sent(None)),
            (Send(1), Sent(Some((0, 0, 1, "plain")))),
            (Send(0), Sent(Some((2, 2, 1, "plain")))),
            (Send(0), Sent(Some((1, 1, 1, "plain")))),
        ],
        accepted: 3,
        sent: 3,
    },
    // Blocks 0 to 15 leave as one command; block 16 is left out, and the head stands there.
    Row {
        name: "merges sixteen and no more",
        steps: &[
            (Fill(17), Refused(None)),
            (Eligible, Count(17)),
            (Send(0), Sent(Some((0, 15, 16, "plain")))),
            (Submit(Orderless(0)), Refused(None)),
            (Eligible, Count(2)),
            (Send(0), Sent(Some((16, 16, 1, "plain")))),
            (Send(0), Sent(Some((17, 17, 1, "plain")))),
        ],
        accepted: 18,
        sent: 3,
    },
    // From block 4 on the list is 5, 6, 3.
    Row {
        name: "head turns at the end",
        steps: &[
            (Submit(Orderless(5)), Refused(None)),
            (Submit(Orderless(3)), Refused(None)),
            (Send(0), Sent(Some((1, 1, 1, "plain")))),
            (Submit(Orderless(3)), Refused(None)),
            (Submit(Orderless(6)), Refused(None)),
            (Eligible, Count(3)),
            (Send(2), Sent(Some((2, 2, 1, "plain")))),
            (Send(0), Sent(Some((0, 3, 2, "plain")))),
        ],
        accepted: 4,
        sent: 3,
    },
    // The flush waits for all else, and the head stays at 1 behind it.
    Row {
        name: "flush leaves alone",
        steps: &[
            (Submit(Orderless(0)), Refused(None)),
            (Submit(Flush), Refused(None)),
            (Submit(Orderless(0)), Refused(Some(Held::Blocked))),
            (Eligible, Count(1)),
            (Send(1), Sent(None)),
            (Send(0), Sent(Some((0, 0, 1, "plain")))),
            (Send(0), Sent(Some((1, 1, 0, "fence")))),
            (Submit(Orderless(0)), Refused(None)),
            (Submit(Orderless(1)), Refused(None)),
            (Send(0), Sent(Some((3, 3, 1, "plain")))),
        ],
        accepted: 4,
        sent: 3,
    },
    Row {
        name: "puts of one block leave in two commands",
        steps: &[
            (Submit(Orderless(0)), Refused(None)),
            (Submit(Orderless(0)), Refused(None)),
            (Submit(Orderless(1)), Refused(None)),
            (Eligible, Count(2)),
            (Send(0), Sent(Some((0, 2, 2, "plain")))),
            (Send(0), Sent(Some((1, 1, 1, "plain")))),
        ],
        accepted: 3,
        sent: 2,
    },
    // The command that is kept becomes what is sent, whatever it was, and stays where nothing is.
    Row {
        name: "writes into a command",
        steps: &[
            (Submit(Ordered(2)), Refused(None)),
            (Submit(Ordered(0)), Refused(None)),
            (Submit(Barrier(1)), Refused(None)),
            (SendInto(0), Is(true)),
            (Kept, Sent(Some((1, 0, 3, "fence")))),
            (SendInto(0), Is(false)),
            (Kept, Sent(Some((1, 0, 3, "fence")))),
            (Submit(Orderless(9)), Refused(None)),
            (SendInto(0), Is(true)),
            (Kept, Sent(Some((3, 3, 1, "plain")))),
            (SendInto(7), Is(false)),
            (Kept, Sent(Some((3, 3, 1, "plain")))),
        ],
        accepted: 4,
        sent: 2,
    },
    Row {
        name: "trace has what passed",
        steps: &[
            (Fill(128), Refused(None)),
            (Submit(Orderless(0)), Refused(Some(Held::Full))),
            (Send(0), Sent(Some((0, 15, 16, "plain")))),
        ],
        accepted: 128,
        sent: 1,
    },
];

#[test]
fn sends_what_its_rows_tell(rt: HostRuntime) {
    lists_requests_as_the_head_meets_them();
    carries_requests_merged();
    for row in &ROWS {
        let sched = Elevator::make(rt.alloc(), LIMIT).expect(&rt, "no scheduler");
        plays_row(&rt, Bench::over(sched), row);
    }
}

#[test]
fn long_limit_is_refused(rt: HostRuntime) {
    let refused = Elevator::make(rt.alloc(), (1 << 40) + 1).err();
    assert!(rt; refused.is_some());
}
