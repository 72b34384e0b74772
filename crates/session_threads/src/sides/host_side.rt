//! The host with its ends of the queues.
ghost use Rattle.std.specs.Prelude.{◌≡◌, ◌≤◌, []};
ghost use Rattle.host_machine.specs.runs.laws.Written.{AreWritten};
ghost use Rattle.minix_host.specs.Runs.{IsOpenedVolume, HasEmptyJournal};
ghost use Rattle.call_sessions.specs.Sessions.{WriteBytes};
ghost use Rattle.session_core.specs.run.CodeHosts.{IsInSession};
ghost use Rattle.host_core.specs.Done.{is_done};
ghost use Rattle.session_threads.specs.sides.HostReplay.{IsHostReplay};

use crate::sides::names::SessionNames;
use crate::sides::noted_steps::{are_same, is_full, is_noted, marks_of};
use blk_base::NoMemory;
use host_answers::Step;
use host_core::Host;
use order_model::Turn;
use schedulers::dispatch::{CompletionEnd, SubmitEnd};
use std::alloc::Global;
use std::marker::Model;
use std::sync::Wait;
use thread_sides::HostEvent;

/// The host of a session, its two ends of the queues, and its events.
pub struct HostSide<'a, N: SessionNames, H: Wait> {
    host: Host,
    out: SubmitEnd<'a, N, H>,
    from: CompletionEnd<'a, N, H>,
    events: Vec<HostEvent>,
}

impl<'a, N: SessionNames, H: Wait> Model for HostSide<'a, N, H> {
    ghost use Rattle.session_threads.specs.sides.HostReplay.{HostSideNow, IsHostReplay};

    ghost Value = { HostSideNow };

    ghost view = { λ s. record { host = s.host; events = s.events.items; sent = s.out.passed; taken = s.from.passed } };

    ghost invariant = { λ s. IsHostReplay N.opening N.start (record { host = s.host; events = s.events.items; sent = s.out.passed; taken = s.from.passed }) };
}

impl<'a, N: SessionNames, H: Wait> HostSide<'a, N, H> {
    /// The side of the host that the session opens.
    pub fn open(
        alloc: Global,
        host: Host,
        out: SubmitEnd<'a, N, H>,
        from: CompletionEnd<'a, N, H>,
    ) -> HostSide<'a, N, H>
        requires written { AreWritten N.opening.format N.opening.writers }
        requires opened { IsOpenedVolume N.opening N.start.volume }
        requires journal { HasEmptyJournal N.opening N.start.ring N.start.limit }
        requires bytes { WriteBytes N.start.programs }
        requires new { IsInSession N.opening N.start.volume N.start.ring N.start.limit N.start.programs [] host }
        requires ends { (out.passed ≡ []) × (from.passed ≡ []) }
        ensures host { result.host ≡ host }
        ensures events { result.events ≡ [] }
    {
        HostSide {
            host,
            out,
            from,
            events: Vec::new(alloc),
        }
    }

    /// The next step of a thread. `Step::NoMemory` and `Err` both say that memory was refused, to the step or to its event.
    pub fn call(&mut self, alloc: Global, thread: u32) -> Result<Step, NoMemory>
        requires { 1 ≤ thread }
    {
        self.events.reserve(1)?;
        let before = marks_of(&self.host, thread);
        let step = self.host.advance(alloc, thread, &mut self.out);
        let after = marks_of(&self.host, thread);
        let full = is_full(&step);
        let same = are_same(&before, &after);
        match is_noted(&step, same) {
            true => self.events.push_reserved(HostEvent::Call(thread, full)),
            false => {}
        }
        Ok(step)
    }

    /// The step of the commit actor.
    pub fn commit(&mut self, alloc: Global) -> Result<Turn, NoMemory> {
        self.events.reserve(1)?;
        let turn = self.host.commit_step(alloc, &mut self.out);
        match turn {
            Turn::Did => self.events.push_reserved(HostEvent::Commit),
            Turn::Idle | Turn::QueueFull | Turn::SessionFull | Turn::NoMemory => {}
        }
        Ok(turn)
    }

    /// The host sends the Dirty page of this number.
    pub fn writeback(&mut self, pick: u32) -> Result<Turn, NoMemory> {
        self.events.reserve(1)?;
        let turn = self.host.writeback(pick, &mut self.out);
        match turn {
            Turn::Did => self.events.push_reserved(HostEvent::Writeback(pick)),
            Turn::Idle | Turn::QueueFull | Turn::SessionFull | Turn::NoMemory => {}
        }
        Ok(turn)
    }

    /// As `writeback` does, with the page that this word gives.
    pub fn writeback_word(&mut self, word: u32) -> Result<Turn, NoMemory> {
        let count = self.host.dirty();
        let pick = if count == 0 {
            0
        } else {
            (word as usize % count) as u32
        };
        self.writeback(pick)
    }

    /// The step of the flush actor. It does nothing where more than the limit of completions were taken.
    pub fn flush(&mut self) -> Result<Turn, NoMemory> {
        self.events.reserve(1)?;
        let taken = self.host.taken_count();
        if taken > self.host.limit() {
            return Ok(Turn::Idle);
        }
        let turn = self.host.flush_step(&mut self.out, &mut self.from);
        match turn {
            Turn::Did => {
                if self.host.taken_count() == taken {
                    self.events.push_reserved(HostEvent::Flush);
                } else {
                    self.events.push_reserved(HostEvent::Take);
                }
            }
            Turn::Idle | Turn::QueueFull | Turn::SessionFull | Turn::NoMemory => {}
        }
        Ok(turn)
    }

    /// Takes a completion, though a flush may be due. It does nothing where more than the limit of completions were taken.
    pub fn take(&mut self) -> Result<Turn, NoMemory> {
        self.events.reserve(1)?;
        if self.host.taken_count() > self.host.limit() {
            return Ok(Turn::Idle);
        }
        let turn = self.host.take_step(&mut self.from);
        match turn {
            Turn::Did => self.events.push_reserved(HostEvent::Take),
            Turn::Idle | Turn::QueueFull | Turn::SessionFull | Turn::NoMemory => {}
        }
        Ok(turn)
    }

    /// The step of the flush actor, or a completion where its flush finds the submission queue full: behind a power cut the
    /// queue stays full, and no call ends before the completion that tells of the cut is taken.
    pub fn flush_or_take(&mut self) -> Result<Turn, NoMemory> {
        match self.flush()? {
            Turn::QueueFull => self.take(),
            turn => Ok(turn),
        }
    }

    /// Whether a completion of each submitted request was taken, or the power went or a request failed.
    pub fn is_answered(&self) -> bool {
        self.host.has_stopped() || self.host.taken_count() >= self.host.submitted()
    }

    /// Whether every program is at its end.
    pub fn is_done(&self) -> bool
        ensures { result ≡ is_done self.now.host.host.threads }
    {
        self.host.is_done()
    }

    pub fn host(&self) -> &Host
        ensures { result.now ≡ self.now.host }
    {
        &self.host
    }

    pub fn events(&self) -> &[HostEvent]
        ensures { result.now ≡ self.now.events }
    {
        self.events.as_slice()
    }

    /// Takes the side apart.
    pub fn into_parts(
        self,
    ) -> (
        Host,
        Vec<HostEvent>,
        SubmitEnd<'a, N, H>,
        CompletionEnd<'a, N, H>,
    )
        ensures side { IsHostReplay N.opening N.start (record { host = result.0; events = result.1.items; sent = result.2.passed; taken = result.3.passed }) }
        ensures host { result.0 ≡ self.entry.host }
    {
        let HostSide {
            host,
            out,
            from,
            events,
        } = self;
        (host, events, out, from)
    }
}
