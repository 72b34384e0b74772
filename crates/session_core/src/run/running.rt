//! The parts of a running session, and what each event does to them.
ghost use Rattle.std.specs.Prelude.{◌≡◌, ◌∷◌, false, List, Ok, OnOk, map};
ghost use Rattle.std.specs.List.{range_with_len};
ghost use Rattle.order_model.specs.Device.{IsReceivable};
ghost use Rattle.order_model.specs.declared.command.Command.{Command};
ghost use Rattle.line_grammar.specs.declared.events.event.CoreEvent.TheVariants as events;
ghost use Rattle.minix_host.specs.Sessions.{Opening};
ghost use Rattle.session_core.specs.run.machine.Machine.{repeated, word_events, events_of};
ghost use Rattle.session_core.specs.run.code.Session.{state_of, after_event, after_events, IsAt};
ghost use Rattle.session_core.specs.run.Beginning.{Beginning};

use crate::run::queues::SessionQueues;
use blk_base::NoMemory;
use host_core::Host;
use line_grammar::events::{CoreEvent, EventLine, EventWord};
use order_model::OrderedDev;
use schedulers::reassign::Scheduler;
use std::alloc::Global;

/// The parts of a running session.
#[derive(Drop)]
pub struct RunningSession<S, D> {
    pub host: Host,
    pub queues: SessionQueues,
    pub sched: S,
    pub dev: D,
}

// One step of each part but the threads.
const BACK: [CoreEvent; 8] = [
    CoreEvent::Commit,
    CoreEvent::FlushStep,
    CoreEvent::Accept,
    CoreEvent::Dispatch(0),
    CoreEvent::Receive,
    CoreEvent::Transfer(0),
    CoreEvent::Persist(0),
    CoreEvent::Answer,
];

impl<S: Scheduler, D: OrderedDev> RunningSession<S, D> {
    // The next command goes to the device, where there is one and there is room. Otherwise it answers false.
    fn receive(&mut self) -> bool
        requires { (c : Command) (cs : List Command) → self.old.queues.dispatched ≡ c ∷ cs → IsReceivable (D.seen (D.state self.old.dev)) c }
        ensures step { (s : Opening) → state_of S.Scheduler D.OrderedDev self.new ≡ after_event S.Scheduler D.OrderedDev s self.old events.Receive }
        ensures host { self.new.host ≡ self.old.host }
        ensures idle { result ≡ false → state_of S.Scheduler D.OrderedDev self.new ≡ state_of S.Scheduler D.OrderedDev self.old }
    {
        self.queues.hand_to(&mut self.dev)
    }

    // The completion that is kept goes to the host, or else the device's next one. It answers false where nothing was done.
    fn answer(&mut self) -> bool
        ensures step { (s : Opening) → state_of S.Scheduler D.OrderedDev self.new ≡ after_event S.Scheduler D.OrderedDev s self.old events.Answer }
        ensures host { self.new.host ≡ self.old.host }
        ensures idle { result ≡ false → state_of S.Scheduler D.OrderedDev self.new ≡ state_of S.Scheduler D.OrderedDev self.old }
    {
        if let Some(kept) = self.queues.kept() {
            return self.queues.complete(kept);
        }
        let Some(completion) = self.dev.answer() else {
            return false;
        };
        self.queues.complete(completion);
        true
    }

    // The flush actor takes its step, where it may take one completion more.
    fn flush(&mut self)
        requires { (b : Beginning S.State D.State) × IsAt S.Scheduler D.OrderedDev b self.old }
        ensures step { (b : Beginning S.State D.State) → IsAt S.Scheduler D.OrderedDev b self.old →
            state_of S.Scheduler D.OrderedDev self.new ≡ after_event S.Scheduler D.OrderedDev b.opening self.old events.FlushStep }
        ensures reached { (b : Beginning S.State D.State) → IsAt S.Scheduler D.OrderedDev b self.old → IsAt S.Scheduler D.OrderedDev b self.new }
    {
        let taken = self.host.taken_count();
        if taken <= self.host.limit() {
            self.queues.flush(&mut self.host);
        }
    }

    /// One event. It answers false where nothing was done.
    pub fn do_event(&mut self, alloc: Global, event: CoreEvent) -> Result<bool, NoMemory>
        requires { (b : Beginning S.State D.State) × IsAt S.Scheduler D.OrderedDev b self.old }
        ensures step { (b : Beginning S.State D.State) → IsAt S.Scheduler D.OrderedDev b self.old →
            OnOk result (state_of S.Scheduler D.OrderedDev self.new ≡ after_event S.Scheduler D.OrderedDev b.opening self.old event) }
        ensures reached { (b : Beginning S.State D.State) → IsAt S.Scheduler D.OrderedDev b self.old → OnOk result (IsAt S.Scheduler D.OrderedDev b self.new) }
        ensures idle { result ≡ Ok false → state_of S.Scheduler D.OrderedDev self.new ≡ state_of S.Scheduler D.OrderedDev self.old }
    {
        match event {
            CoreEvent::Call(0) | CoreEvent::Submit => Ok(false),
            CoreEvent::Call(thread) => {
                self.queues.call(alloc, &mut self.host, thread)?;
                Ok(true)
            }
            CoreEvent::Commit => {
                self.queues.commit(alloc, &mut self.host)?;
                Ok(true)
            }
            CoreEvent::Writeback(pick) => {
                self.queues.writeback(&mut self.host, pick);
                Ok(true)
            }
            CoreEvent::FlushStep => {
                self.flush();
                Ok(true)
            }
            CoreEvent::Accept => Ok(self.queues.accept(&mut self.sched)),
            CoreEvent::Dispatch(pick) => Ok(self.queues.dispatch(&mut self.sched, pick)),
            CoreEvent::Receive => Ok(self.receive()),
            CoreEvent::Transfer(pick) => Ok(self.dev.transfer(pick)),
            CoreEvent::Persist(pick) => Ok(self.dev.persist(pick)),
            CoreEvent::Answer => Ok(self.answer()),
        }
    }

    // These events, one after the other.
    fn do_all(&mut self, alloc: Global, list: &[CoreEvent]) -> Result<(), NoMemory>
        requires { (b : Beginning S.State D.State) × IsAt S.Scheduler D.OrderedDev b self.old }
        ensures step { (b : Beginning S.State D.State) → IsAt S.Scheduler D.OrderedDev b self.old →
            OnOk result (state_of S.Scheduler D.OrderedDev self.new ≡ after_events S.Scheduler D.OrderedDev b.opening self.old list.now) }
        ensures reached { (b : Beginning S.State D.State) → IsAt S.Scheduler D.OrderedDev b self.old → OnOk result (IsAt S.Scheduler D.OrderedDev b self.new) }
    {
        for event in list {
            self.do_event(alloc, *event)?;
        }
        Ok(())
    }

    // Each of so many threads goes on once, in order.
    fn call_all(&mut self, alloc: Global, threads: u32) -> Result<(), NoMemory>
        requires { (b : Beginning S.State D.State) × IsAt S.Scheduler D.OrderedDev b self.old }
        ensures step { (b : Beginning S.State D.State) → IsAt S.Scheduler D.OrderedDev b self.old →
            OnOk result (state_of S.Scheduler D.OrderedDev self.new ≡ after_events S.Scheduler D.OrderedDev b.opening self.old (map events.Call (range_with_len 1 threads))) }
        ensures reached { (b : Beginning S.State D.State) → IsAt S.Scheduler D.OrderedDev b self.old → OnOk result (IsAt S.Scheduler D.OrderedDev b self.new) }
    {
        for before in 0..threads {
            self.do_event(alloc, CoreEvent::Call(before + 1))?;
        }
        Ok(())
    }

    // What a line says, once. It answers false where nothing was done.
    fn do_word(&mut self, alloc: Global, threads: u32, word: EventWord) -> Result<bool, NoMemory>
        requires { (b : Beginning S.State D.State) × IsAt S.Scheduler D.OrderedDev b self.old }
        ensures step { (b : Beginning S.State D.State) → IsAt S.Scheduler D.OrderedDev b self.old →
            OnOk result (state_of S.Scheduler D.OrderedDev self.new ≡ after_events S.Scheduler D.OrderedDev b.opening self.old (word_events threads word)) }
        ensures reached { (b : Beginning S.State D.State) → IsAt S.Scheduler D.OrderedDev b self.old → OnOk result (IsAt S.Scheduler D.OrderedDev b self.new) }
        ensures idle { result ≡ Ok false → state_of S.Scheduler D.OrderedDev self.new ≡ state_of S.Scheduler D.OrderedDev self.old }
    {
        match word {
            EventWord::One(event) => self.do_event(alloc, event),
            EventWord::Round => {
                self.call_all(alloc, threads)?;
                self.do_all(alloc, &BACK)?;
                Ok(true)
            }
            EventWord::Back => {
                self.do_all(alloc, &BACK)?;
                Ok(true)
            }
        }
    }

    // An event line, as often as it says. It ends where the line's event does nothing: that does nothing again.
    fn do_line(&mut self, alloc: Global, threads: u32, line: EventLine) -> Result<(), NoMemory>
        requires { (b : Beginning S.State D.State) × IsAt S.Scheduler D.OrderedDev b self.old }
        ensures step { (b : Beginning S.State D.State) → IsAt S.Scheduler D.OrderedDev b self.old →
            OnOk result (state_of S.Scheduler D.OrderedDev self.new ≡ after_events S.Scheduler D.OrderedDev b.opening self.old (repeated line.count (word_events threads line.what))) }
        ensures reached { (b : Beginning S.State D.State) → IsAt S.Scheduler D.OrderedDev b self.old → OnOk result (IsAt S.Scheduler D.OrderedDev b self.new) }
    {
        for done in 0..line.count {
            if !self.do_word(alloc, threads, line.what)? {
                return Ok(());
            }
        }
        Ok(())
    }

    /// All event lines, one after the other.
    pub fn do_lines(
        &mut self,
        alloc: Global,
        threads: u32,
        lines: &[EventLine],
    ) -> Result<(), NoMemory>
        requires { (b : Beginning S.State D.State) × IsAt S.Scheduler D.OrderedDev b self.old }
        ensures step { (b : Beginning S.State D.State) → IsAt S.Scheduler D.OrderedDev b self.old →
            OnOk result (state_of S.Scheduler D.OrderedDev self.new ≡ after_events S.Scheduler D.OrderedDev b.opening self.old (events_of threads lines.now)) }
        ensures reached { (b : Beginning S.State D.State) → IsAt S.Scheduler D.OrderedDev b self.old → OnOk result (IsAt S.Scheduler D.OrderedDev b self.new) }
    {
        for line in lines {
            self.do_line(alloc, threads, *line)?;
        }
        Ok(())
    }
}
