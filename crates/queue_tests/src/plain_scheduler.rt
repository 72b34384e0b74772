//! Tests: requests that go in, and the commands that come out.
use crate::bench::Ask::{Barrier, Flush, Ordered, Orderless};
use crate::bench::Step::{CanAccept, Eligible, Fill, Kept, Send, SendInto, Submit};
use crate::bench::{Bench, LIMIT, Row, plays_row};
use crate::steps::Answer::{Count, Is, Refused, Sent};
use schedulers::epochs::Sched;
use schedulers::reassign::Held;

static ROWS: [Row; 5] = [
    // The barrier leaves first and unflagged, and the ordered put that leaves last carries the flag.
    Row {
        name: "flag is reassigned",
        steps: &[
            (Submit(Ordered(1)), Refused(None)),
            (Submit(Orderless(2)), Refused(None)),
            (Submit(Ordered(3)), Refused(None)),
            (Submit(Barrier(4)), Refused(None)),
            (CanAccept, Is(false)),
            (Submit(Orderless(5)), Refused(Some(Held::Blocked))),
            (Eligible, Count(4)),
            (Send(3), Sent(Some((3, 3, 1, "plain")))),
            (Send(2), Sent(Some((2, 2, 1, "plain")))),
            (Send(0), Sent(Some((0, 0, 1, "fence")))),
            (Send(1), Sent(None)),
            (Send(0), Sent(Some((1, 1, 1, "plain")))),
            (CanAccept, Is(true)),
            (Eligible, Count(0)),
        ],
        accepted: 4,
        sent: 4,
    },
    // A flush leaves behind all that was accepted before it; puts of one block leave in order.
    Row {
        name: "flush leaves alone",
        steps: &[
            (Submit(Orderless(7)), Refused(None)),
            (Submit(Orderless(7)), Refused(None)),
            (Submit(Orderless(8)), Refused(None)),
            (Submit(Flush), Refused(None)),
            (Submit(Orderless(9)), Refused(Some(Held::Blocked))),
            (Eligible, Count(2)),
            (Send(0), Sent(Some((0, 0, 1, "plain")))),
            (Send(0), Sent(Some((1, 1, 1, "plain")))),
            (Send(0), Sent(Some((2, 2, 1, "plain")))),
            (Send(0), Sent(Some((3, 3, 0, "fence")))),
            (Send(0), Sent(None)),
            (Submit(Orderless(9)), Refused(None)),
        ],
        accepted: 5,
        sent: 4,
    },
    // So many as 128 wait, and the next comes back; once one left, which overtakes all others, another goes in.
    Row {
        name: "full queue refuses",
        steps: &[
            (Fill(128), Refused(None)),
            (CanAccept, Is(false)),
            (Submit(Orderless(0)), Refused(Some(Held::Full))),
            (Eligible, Count(128)),
            (Send(127), Sent(Some((127, 127, 1, "plain")))),
            (CanAccept, Is(true)),
            (Submit(Orderless(0)), Refused(None)),
            (Submit(Orderless(0)), Refused(Some(Held::Full))),
        ],
        accepted: 129,
        sent: 1,
    },
    // The command that is kept becomes what is sent, whatever it was, and stays where nothing is.
    Row {
        name: "writes into a command",
        steps: &[
            (Submit(Orderless(7)), Refused(None)),
            (Submit(Flush), Refused(None)),
            (SendInto(0), Is(true)),
            (Kept, Sent(Some((0, 0, 1, "plain")))),
            (SendInto(1), Is(false)),
            (Kept, Sent(Some((0, 0, 1, "plain")))),
            (SendInto(0), Is(true)),
            (Kept, Sent(Some((1, 1, 0, "fence")))),
            (SendInto(0), Is(false)),
            (Kept, Sent(Some((1, 1, 0, "fence")))),
            (Submit(Orderless(9)), Refused(None)),
            (SendInto(0), Is(true)),
            (Kept, Sent(Some((2, 2, 1, "plain")))),
        ],
        accepted: 3,
        sent: 3,
    },
    Row {
        name: "trace has what passed",
        steps: &[
            (Submit(Barrier(1)), Refused(None)),
            (Send(0), Sent(Some((0, 0, 1, "fence")))),
            (Submit(Flush), Refused(None)),
            (Send(0), Sent(Some((1, 1, 0, "fence")))),
        ],
        accepted: 2,
        sent: 2,
    },
];

#[test]
fn sends_what_its_rows_tell(rt: HostRuntime) {
    for row in &ROWS {
        let sched = Sched::make(rt.alloc(), LIMIT).expect(&rt, "no scheduler");
        plays_row(&rt, Bench::over(sched), row);
    }
}

#[test]
fn long_limit_is_refused(rt: HostRuntime) {
    let refused = Sched::make(rt.alloc(), (1 << 40) + 1).err();
    assert!(rt; refused.is_some());
}
