//! The trait of schedulers, with its law.
ghost use Rattle.std.specs.Prelude.{◌≡◌, ◌↔◌, true, false, Some, None, IsOk, OnOk, IfErr, if◌then◌else◌};
ghost use Rattle.schedulers.specs.reassign.Scheduler.{SchedSteps, IsAcceptable, IsScheduler, IsSchedRecord};

use crate::reassign::closing::Held;
use order_model::{Command, Request, SchedRecord};

/// How many requests may wait in a scheduler.
pub const CAPACITY: u32 = 128;

/// The greatest number of requests that a scheduler is made for.
pub const LONGEST: u64 = 1 << 40;

/// A scheduler: requests in, commands out. Whatever it accepts and whatever is picked, the commands that it
/// sends out carry the requests that it accepted.
///
/// No call takes memory.
pub trait Scheduler {
    /// What the calls change, as a plain value.
    ghost State: { Type 0 };

    ghost state: { Self → Self.State };

    /// For each call the state and the answer that follow from the state before.
    ghost steps: { SchedSteps Self.State };

    /// The states that it may be in.
    ghost valid: { Self.State → Type 0 };

    /// Whether `accept` takes a request.
    fn can_accept(&self) -> bool
        ensures value { result ≡ steps.can_accept (state self.now) }
        ensures valid { valid (state self.now) };

    /// Takes a request, or hands it back with the reason.
    fn accept(&mut self, r: Request) -> Result<(), (Request, Held)>
        requires { IsAcceptable (steps.seen (state self.old)) r }
        ensures when { IsOk result ↔ (steps.can_accept (state self.old) ≡ true) }
        ensures ok { OnOk result (state self.new ≡ steps.accepted (state self.old) r) }
        ensures back { IfErr result (λ e. (e.0 ≡ r) × (e.1 ≡ (if (steps.seen (state self.old)).blocked then Held.Blocked else Held.Full)) × (state self.new ≡ state self.old)) };

    /// How many requests its list has.
    fn eligible(&self) -> u32
        ensures { result ≡ steps.eligible (state self.now) };

    /// Takes the request at place `pick` of its list, and gives the command that carries it.
    fn dispatch(&mut self, pick: u32) -> Option<Command>
        ensures command { result ≡ steps.command (state self.old) pick }
        ensures state { state self.new ≡ steps.dispatched (state self.old) pick };

    /// As `dispatch` does, but the command that comes is written into one that the caller keeps. Where none
    /// comes, that one stays as it was.
    fn dispatch_into(&mut self, pick: u32, into: &mut Command) -> bool
        ensures command { steps.command (state self.old) pick ≡ (if result then Some into.new else None) }
        ensures kept { result ≡ false → into.new ≡ into.old }
        ensures state { state self.new ≡ steps.dispatched (state self.old) pick };

    /// What was accepted and sent out so far.
    fn trace(&self) -> &SchedRecord
        ensures { IsSchedRecord (steps.seen (state self.now)) result.now };

    fn into_trace(self) -> SchedRecord
        ensures { IsSchedRecord (steps.seen (state self)) result };

    /// What every scheduler keeps.
    ghost keeps: { IsScheduler steps valid };
}
