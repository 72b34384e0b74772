//! What all tests here play and compare by.
use schedulers::reassign::Held;
use std::process::Abort;

/// What a step of a test tells.
#[derive(Clone, Copy, PartialEq, Eq)]
pub enum Answer {
    Is(bool),
    Count(u32),
    /// The id or the number that is asked for.
    Number(Option<u64>),
    /// The first block of a command, and how many it has.
    Parts(Option<(u32, u32)>),
    /// Why a request was refused, if it was.
    Refused(Option<Held>),
    /// The id of the request that leaves, the flag that it waited with, and whether it leaves as the barrier.
    Left(Option<(u64, bool, bool)>),
    /// A command that was sent: the ids of its first and its last part, or that of the flush twice, how many parts it has, and
    /// its form: "plain" where it has parts, is no barrier and is free in its order, "fence" where it is a barrier, and ordered,
    /// and a flush exactly if it has no parts, and "odd" otherwise.
    Sent(Option<(u64, u64, u32, &'static str)>),
}

/// What does the steps of a test.
pub trait Player<S> {
    /// Does the step, and gives the answer that came.
    fn done(&mut self, step: S) -> Answer;
}

/// Does the steps. The first with another answer than the one beside it ends the process.
pub fn plays<S: Copy, P: Player<S>>(
    rt: &impl Abort,
    player: &mut P,
    row: &str,
    steps: &[(S, Answer)],
) {
    for (at, step) in steps.iter().enumerate() {
        expect(rt, row, at, &player.done(step.0), &step.1);
    }
}

/// Ends the process where the two differ, and tells the row and its step.
pub fn expect<T: PartialEq>(rt: &impl Abort, row: &str, step: usize, came: &T, wanted: &T) {
    assert!(rt; came == wanted, "{row}: step {step}");
}
