//! The queues that threads share: what each end takes, hands back and gives, and two threads at the two ends of one.
ghost use Rattle.schedulers.specs.dispatch.Opened.{ArePassesOf, AreNew, AreNamed};

use crate::steps::expect;
use order_model::{Command, Completion, Inlet, Kind, Outlet, Request};
use schedulers::dispatch::{Ends, Passes, QueueNames, Queues, close, ends, make_queues};
use std::marker::Brand;
use std::process::Abort;
use std::sync::Wait;
use std::thread;
use std::thread::Threads;

// What a test does with the two ends of a queue.
#[derive(Clone, Copy)]
enum Step {
    // The item of this number is put; and the number of the item that comes back, if one does.
    Put(u64),
    // The number of the item that is taken.
    Take,
}

use Step::{Put, Take};

// Two items are held at most. The fifth and sixth lie where the first and second lay, and the last one stays.
static OF_TWO: [(Step, Option<u64>); 14] = [
    (Take, None),
    (Put(1), None),
    (Put(2), None),
    (Put(3), Some(3)),
    (Take, Some(1)),
    (Put(4), None),
    (Put(5), Some(5)),
    (Take, Some(2)),
    (Take, Some(4)),
    (Take, None),
    (Put(6), None),
    (Take, Some(6)),
    (Take, None),
    (Put(7), None),
];

static OF_ONE: [(Step, Option<u64>); 8] = [
    (Put(1), None),
    (Put(2), Some(2)),
    (Take, Some(1)),
    (Take, None),
    (Put(3), None),
    (Take, Some(3)),
    (Take, None),
    (Put(7), None),
];

// What goes through a queue, as a test tells it apart from the next.
trait Numbered {
    fn numbered(number: u64) -> Self;

    fn number(&self) -> u64;
}

impl Numbered for Request {
    fn numbered(number: u64) -> Request {
        Request {
            id: number,
            kind: Kind::Flush,
            ordered: true,
            barrier: true,
        }
    }

    fn number(&self) -> u64 {
        self.id
    }
}

impl Numbered for Command {
    fn numbered(number: u64) -> Command {
        let mut command = Command::blank();
        command.flush = Some(number);
        command
    }

    fn number(&self) -> u64 {
        self.flush.unwrap_or(0)
    }
}

impl Numbered for Completion {
    fn numbered(number: u64) -> Completion {
        Completion::Flushed(number)
    }

    fn number(&self) -> u64 {
        match self {
            Completion::Moved(id) | Completion::Flushed(id) | Completion::Failed(id) => *id,
            Completion::Cut => 0,
        }
    }
}

fn done<T: Numbered + Drop, O: Outlet<T>, I: Inlet<T>>(
    out: &mut O,
    from: &mut I,
    step: Step,
) -> Option<u64> {
    match step {
        Put(number) => match out.put(T::numbered(number)) {
            Ok(()) => None,
            Err(item) => Some(item.number()),
        },
        Take => match from.take() {
            Some(item) => Some(item.number()),
            None => None,
        },
    }
}

// The first step with another answer than the one beside it ends the process.
fn plays<T: Numbered + Drop, O: Outlet<T>, I: Inlet<T>>(
    rt: &impl Abort,
    queue: &str,
    out: &mut O,
    from: &mut I,
    steps: &[(Step, Option<u64>)],
) {
    for (at, step) in steps.iter().enumerate() {
        expect(rt, queue, at, &done(out, from, step.0), &step.1);
    }
}

// Each of three new queues does the steps.
fn plays_all<'a, N: QueueNames, H: Wait + Sync + Abort>(
    rt: &'a H,
    queues: &'a Queues,
    passes: Passes,
    steps: &[(Step, Option<u64>)],
)
    requires passes { ArePassesOf queues.now passes }
    requires new { AreNew passes }
    requires names { AreNamed N.submission N.dispatch N.completion passes }
{
    let Ends {
        mut submit,
        mut request,
        mut send,
        mut command,
        mut post,
        mut completion,
    } = ends::<N, H>(rt, queues, passes);
    plays(rt, "submission", &mut submit, &mut request, steps);
    plays(rt, "dispatch", &mut send, &mut command, steps);
    plays(rt, "completion", &mut post, &mut completion, steps);
    close(Ends {
        submit,
        request,
        send,
        command,
        post,
        completion,
    });
}

#[test]
fn hold_two_items(rt: HostRuntime) {
    let (queues, passes) = make_queues(&rt, rt.alloc(), 2).expect(&rt, "no queues");
    plays_all::<Brand, HostRuntime>(&rt, &queues, passes, &OF_TWO);
    drop(queues);
}

#[test]
fn hold_one_item(rt: HostRuntime) {
    let (queues, passes) = make_queues(&rt, rt.alloc(), 1).expect(&rt, "no queues");
    plays_all::<Brand, HostRuntime>(&rt, &queues, passes, &OF_ONE);
    drop(queues);
}

// Puts the completions of the ids below `count`, in order.
fn sends_all<H: Wait, O: Outlet<Completion>>(rt: &H, out: &mut O, count: u64) {
    let mut next = 0;
    for _ in rt.forever() {
        if next >= count {
            break;
        }
        match out.put(Completion::Moved(next)) {
            Ok(()) => next += 1,
            Err(_) => thread::yield_now(),
        }
    }
}

// Takes so many completions, and tells whether they are of the ids from 0 on, in order.
fn takes_all<H: Wait, I: Inlet<Completion>>(rt: &H, from: &mut I, count: u64) -> bool {
    let mut next = 0;
    let mut is_in_order = true;
    for _ in rt.forever() {
        if next >= count {
            break;
        }
        match from.take() {
            Some(completion) => {
                let is_next = completion == Completion::Moved(next);
                is_in_order = is_in_order & is_next;
                next += 1;
            }
            None => thread::yield_now(),
        }
    }
    is_in_order
}

fn crosses<'a, N: QueueNames + Send + Sync, H: Threads + Wait + Sync + Abort>(
    rt: &'a H,
    queues: &'a Queues,
    passes: Passes,
)
    requires passes { ArePassesOf queues.now passes }
    requires new { AreNew passes }
    requires names { AreNamed N.submission N.dispatch N.completion passes }
{
    let Ends {
        submit,
        request,
        send,
        command,
        mut post,
        mut completion,
    } = ends::<N, H>(rt, queues, passes);
    let out = &mut post;
    let from = &mut completion;
    let (_, is_in_order) = thread::join(
        rt,
        move || sends_all(rt, out, 1000),
        move || takes_all(rt, from, 1000),
    );
    close(Ends {
        submit,
        request,
        send,
        command,
        post,
        completion,
    });
    assert!(rt; is_in_order);
}

// A thread puts a thousand items into a queue of three while another takes them.
#[test]
fn keep_the_order_between_threads(rt: HostRuntime) {
    let (queues, passes) = make_queues(&rt, rt.alloc(), 3).expect(&rt, "no queues");
    crosses::<Brand, HostRuntime>(&rt, &queues, passes);
    drop(queues);
}
