//! The scheduler with its ends of the queues.
ghost use Rattle.std.specs.Prelude.{◌≡◌, [], false, replicate};
ghost use Rattle.schedulers.specs.reassign.Scheduler.{IsNewScheduler};
ghost use Rattle.thread_sides.specs.SchedReplay.{WasInSide};

use crate::accepting::is_acceptable;
use crate::events::SchedEvent;
use crate::id_flags::IdFlags;
use crate::laws::requests_that_pass_are_acceptable;
use crate::names::{OpensScheduler, PartNames};
use blk_base::NoMemory;
use order_model::{Command, Inlet, Outlet, Request};
use schedulers::dispatch::{RequestEnd, SendEnd};
use schedulers::reassign::{CAPACITY, Scheduler};
use std::alloc::Global;
use std::marker::Model;
use std::sync::Wait;

/// The scheduler of a session, its two ends of the queues, and its events.
///
/// A command that the full queue refused is kept here, and is the next that is sent. A request that the scheduler may not be
/// given is put aside, and no further one is taken then.
pub struct SchedSide<'a, S: Scheduler + OpensScheduler, N: PartNames, H: Wait> {
    sched: S,
    flags: IdFlags,
    kept: Option<Command>,
    unfit: Option<Request>,
    from: RequestEnd<'a, N, H>,
    out: SendEnd<'a, N, H>,
    events: Vec<SchedEvent>,
}

impl<'a, S: Scheduler + OpensScheduler, N: PartNames, H: Wait> Model for SchedSide<'a, S, N, H> {
    ghost use Rattle.thread_sides.specs.SchedReplay.{SchedSideSeen, IsSchedReplay};

    ghost Value = { SchedSideSeen };

    ghost view = { λ s. record { seen = S.steps.seen (S.state s.sched); events = s.events.items; sent = s.out.passed; taken = s.from.passed } };

    ghost invariant = { λ s. IsSchedReplay S.steps (S.state (S.opened N.setup.limit)) (record { now = record { sched = S.state s.sched; flags = s.flags; kept = s.kept; unfit = s.unfit }; events = s.events.items; sent = s.out.passed; taken = s.from.passed }) };
}

impl<'a, S: Scheduler + OpensScheduler, N: PartNames, H: Wait> SchedSide<'a, S, N, H> {
    /// The side of the scheduler that the session opens, with one flag for each id.
    pub fn open(
        alloc: Global,
        sched: S,
        flags: IdFlags,
        from: RequestEnd<'a, N, H>,
        out: SendEnd<'a, N, H>,
    ) -> SchedSide<'a, S, N, H>
        requires opened { S.state sched ≡ S.state (S.opened N.setup.limit) }
        requires new { IsNewScheduler N.setup.limit CAPACITY (S.steps.seen (S.state sched)) }
        requires flags { flags ≡ replicate N.setup.limit false }
        requires ends { (from.passed ≡ []) × (out.passed ≡ []) }
        ensures seen { result.seen ≡ S.steps.seen (S.state sched) }
        ensures events { result.events ≡ [] }
    {
        SchedSide {
            sched,
            flags,
            kept: None,
            unfit: None,
            from,
            out,
            events: Vec::new(alloc),
        }
    }

    /// The scheduler takes the next request, where it can accept one and there is one. Tells whether anything was done.
    pub fn accept(&mut self) -> Result<bool, NoMemory> {
        requests_that_pass_are_acceptable();
        self.events.reserve(1)?;
        if self.unfit.is_some() || !self.sched.can_accept() {
            return Ok(false);
        }
        let accepted = self.sched.trace().accepted.len();
        let Some(request) = self.from.take() else {
            return Ok(false);
        };
        if is_acceptable(&self.flags, accepted, &request) {
            self.flags.mark(request.id);
            let _ = self.sched.accept(request);
            self.events.push_reserved(SchedEvent::Accept);
        } else {
            self.unfit = Some(request);
            self.events.push_reserved(SchedEvent::Accept);
        }
        Ok(true)
    }

    /// The command that is kept is sent, or else the one of the scheduler's pick. Tells whether anything was done.
    pub fn dispatch(&mut self, pick: u32) -> Result<bool, NoMemory> {
        self.events.reserve(1)?;
        if let Some(command) = self.kept.take() {
            return match self.out.put(command) {
                Ok(()) => {
                    self.events.push_reserved(SchedEvent::Dispatch(pick, false));
                    Ok(true)
                }
                Err(back) => {
                    self.kept = Some(back);
                    Ok(false)
                }
            };
        }
        // Without this call nothing is known of the scheduler's state.
        let _ = self.sched.can_accept();
        if pick >= self.sched.eligible() {
            return Ok(false);
        }
        let Some(command) = self.sched.dispatch(pick) else {
            return Ok(false);
        };
        match self.out.put(command) {
            Ok(()) => self.events.push_reserved(SchedEvent::Dispatch(pick, false)),
            Err(back) => {
                self.kept = Some(back);
                self.events.push_reserved(SchedEvent::Dispatch(pick, true));
            }
        }
        Ok(true)
    }

    /// As `dispatch` does, with the pick that this word gives.
    pub fn dispatch_word(&mut self, word: u32) -> Result<bool, NoMemory> {
        let count = self.sched.eligible();
        let pick = if count == 0 { 0 } else { word % count };
        self.dispatch(pick)
    }

    pub fn sched(&self) -> &S
        ensures { S.steps.seen (S.state result.now) ≡ self.now.seen }
    {
        &self.sched
    }

    pub fn events(&self) -> &[SchedEvent]
        ensures { result.now ≡ self.now.events }
    {
        self.events.as_slice()
    }

    /// Takes the side apart.
    pub fn into_parts(self) -> (S, Vec<SchedEvent>, RequestEnd<'a, N, H>, SendEnd<'a, N, H>)
        ensures side { WasInSide S.steps (S.state (S.opened N.setup.limit)) (S.state result.0) result.1.items result.3.passed result.2.passed }
        ensures seen { S.steps.seen (S.state result.0) ≡ self.entry.seen }
    {
        let SchedSide {
            sched,
            flags: _,
            kept: _,
            unfit: _,
            from,
            out,
            events,
        } = self;
        (sched, events, from, out)
    }
}
