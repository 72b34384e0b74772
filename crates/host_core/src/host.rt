//! The host.
ghost use Rattle.std.specs.Prelude.{◌≡◌, ◌≢◌, ◌==◌, ◌+◌, ◌-◌, ◌^◌, ◌≤◌, ◌++◌, ◌<◌, [], true, length, drop, filter, map, replicate, slice_index_or, None, IfOk, OnErr, vec_capacity};
ghost use Rattle.order_model.specs.declared.turn.Turn.TheVariants as turns;
ghost use Rattle.journal_ring.specs.running.Closing.{writers};
ghost use Rattle.commit_actor.specs.Actor.{made, builds_plan};
ghost use Rattle.flush_actor.specs.Outcomes.{is_queue_full, first_since, sent_between};
ghost use Rattle.host_machine.specs.Host as machine;
ghost use Rattle.volume_steps.specs.Calls.{after_release};
ghost use Rattle.host_core.specs.code.Known.{StaysKnown};
ghost use Rattle.host_core.specs.code.Steps.{cuts_after, released};
ghost use Rattle.flush_actor.specs.Part.{has_stopped};
ghost use Rattle.flush_actor.specs.Waits.{no_wait};
ghost use Rattle.page_cache.specs.Pages.{is_dirty};
ghost use Rattle.host_core.specs.Done.{is_done};
ghost use Rattle.host_core.specs.code.Fields.{thread_of};
ghost use Rattle.host_core.specs.Entries.{entry_in, ArePlaced};
ghost use Rattle.journal_blocks.specs.Super.{IsSound};
ghost use Rattle.journal_ring.specs.Journal as new_ring;
ghost use Rattle.host_core.specs.Now.{host_made, model_now, setup_now, with_host};

use crate::at_once::PlainVolume;
use crate::host_parts::HostParts;
use crate::known::Known;
use crate::programs::Programs;
use crate::thread::Thread;
use blk_base::NoMemory;
use commit_actor::{JournalPart, commit_step};
use flush_actor::Wait;
use host_answers::Entry;
use journal_ring::Ring;
use order_model::{Completion, Inlet, Kind, Note, Outlet, Request, Turn};
use page_cache::{PageState, Pages};
use std::alloc::Global;
use std::marker::Model;

/// The volume, its cached pages, the journal, and the callers, with what they did.
#[derive(Drop)]
pub struct Host {
    pub(crate) parts: HostParts,
    pub(crate) history: Vec<Entry>,
    pub(crate) cuts: Vec<u64>,
    pub(crate) threads: Vec<Thread>,
}

impl Model for Host {
    ghost use Rattle.host_core.specs.Now.{HostNow};
    ghost use Rattle.host_core.specs.code.Fields.{host_of, IsHost};

    ghost Value = { HostNow };

    ghost view = { λ h. host_of h.parts.journal h.parts.volume h.parts.pages h.parts.owners.items h.history.items h.cuts.items h.threads.items };

    ghost invariant = { λ h. IsHost h.parts.journal h.parts.volume h.parts.known h.threads.items h.history.items };
}

// The journal's part of a session, for each zone the transaction that took it: none, and what is known of the volume:
// nothing.
fn new_parts(
    alloc: Global,
    ring: Ring,
    limit: u64,
    zones: u16,
    callers: u32,
) -> Result<(JournalPart, Vec<u64>, Known), NoMemory>
    requires ring { ring ≡ new_ring.made ring.made_with limit }
    requires sound { IsSound ring.made_with }
    requires empty { ring.made_with.start ≡ 0 }
    requires first { ring.made_with.first ≡ 1 }
    requires places { zones + ring.made_with.maxlen ≤ 2 ^ 32 }
    requires sequences { ring.made_with.sequence + limit + 1 < 2 ^ 32 }
    ensures journal { IfOk result (λ r. r.0 ≡ made ring zones zones callers) }
    ensures owners { IfOk result (λ r. r.1.items ≡ replicate zones 0) }
    ensures calls { IfOk result (λ r. r.2.calls.items ≡ []) }
    ensures to_come { IfOk result (λ r. r.2.to_come ≡ None) }
{
    let blocks = u32::from(zones);
    let owners = vec![in alloc; 0; usize::from(zones)]?;
    let known = Known::new(alloc, callers as usize)?;
    let journal = JournalPart::make(alloc, ring, limit, blocks, blocks, callers)?;
    Ok((journal, owners, known))
}

impl Host {
    /// The host of a session that is opened: nothing was submitted, and no call has begun. The journal's superblock stands
    /// behind the volume's zones, `ring` is one of an empty log, and `pages` has no page. `limit` is how many requests may
    /// be submitted.
    pub fn make(
        alloc: Global,
        volume: PlainVolume,
        pages: Pages,
        ring: Ring,
        programs: Programs,
        limit: u64,
    ) -> Result<Host, NoMemory>
        requires pages { pages.pages ≡ [] }
        requires ring { ring ≡ new_ring.made ring.made_with limit }
        requires sound { IsSound ring.made_with }
        requires empty { ring.made_with.start ≡ 0 }
        requires first { ring.made_with.first ≡ 1 }
        requires places { volume.geometry.zones + ring.made_with.maxlen ≤ 2 ^ 32 }
        requires sequences { ring.made_with.sequence + limit + 1 < 2 ^ 32 }
        requires threads { length programs < 2 ^ 32 }
        ensures { IfOk result (λ h. h ≡ host_made volume pages ring programs) }
    {
        let zones = volume.geometry().zones;
        let threads = programs.into_threads();
        match new_parts(alloc, ring, limit, zones, threads.len() as u32) {
            Ok((journal, owners, known)) => Ok(Host {
                parts: HostParts {
                    journal,
                    volume,
                    pages,
                    owners,
                    known,
                },
                history: Vec::new(alloc),
                cuts: Vec::new(alloc),
                threads,
            }),
            // By calls: drops that are written out in place are dear to prove.
            Err(NoMemory) => {
                drop(volume);
                drop(pages);
                drop(threads);
                Err(NoMemory)
            }
        }
    }

    /// What was noted of calls.
    pub fn history(&self) -> &[Entry]
        ensures noted { self.now.host.history ≡ map (entry_in self.now.programs) result.now }
        ensures placed { ArePlaced self.now.programs result.now }
    {
        &self.history
    }

    /// The number of the last entry of each closed transaction.
    pub fn cuts(&self) -> &[u64]
        ensures { result.now ≡ self.now.host.cuts }
    {
        &self.cuts
    }

    /// How many requests were submitted.
    pub fn submitted(&self) -> u64
        ensures { result ≡ length self.now.host.journal.flush.requests }
    {
        self.parts.journal.flush().submitted()
    }

    /// What each of them carries.
    pub fn notes(&self) -> &[Note]
        ensures { result.now ≡ self.now.host.journal.flush.notes }
    {
        self.parts.journal.flush().notes()
    }

    /// How many completions were taken.
    pub fn taken_count(&self) -> u64
        ensures { result ≡ length self.now.host.journal.flush.taken }
    {
        self.parts.journal.flush().taken()
    }

    /// How many requests may be submitted.
    pub fn limit(&self) -> u64
        ensures { result ≡ self.now.host.journal.flush.limit }
    {
        self.parts.journal.flush().limit()
    }

    /// Whether the power went or a request failed.
    pub fn has_stopped(&self) -> bool
        ensures { result ≡ has_stopped self.now.host.journal.flush.taken }
    {
        self.parts.journal.flush().is_over()
    }

    /// Whether every program is at its end.
    pub fn is_done(&self) -> bool
        ensures { result ≡ is_done self.now.host.threads }
    {
        have_ended(&self.threads)
    }

    /// Whether the running transaction is to be closed.
    pub fn is_wanted(&self) -> bool
        ensures { result ≡ self.now.host.journal.running.wanted }
    {
        self.parts.journal.running().is_wanted()
    }

    /// What a thread waits for; they are counted from 1.
    pub fn wait(&self, thread: u32) -> Wait
        requires { 1 ≤ thread }
        ensures { result ≡ slice_index_or self.now.host.journal.flush.waits (thread - 1) no_wait }
    {
        self.parts
            .journal
            .flush()
            .wait(thread - 1)
            .unwrap_or(Wait::none())
    }

    /// How many pages are Dirty.
    pub fn dirty(&self) -> usize
        ensures { result ≡ length (filter (λ p. is_dirty p.state) self.now.host.pages) }
    {
        self.parts.pages.dirty_count()
    }

    /// The step of the flush actor: a flush where one is due, or else a completion. It takes no memory.
    pub fn flush_step<O: Outlet<Request>, I: Inlet<Completion>>(
        &mut self,
        out: &mut O,
        from: &mut I,
    ) -> Turn
        requires { length self.old.host.journal.flush.taken ≤ self.old.host.journal.flush.limit }
        ensures step { record { host = self.new.host; turn = result } ≡
            machine.flush_step (model_now self.old) (setup_now self.old) (is_queue_full result) self.old.host (first_since (I.taken from.old) (I.taken from.new)) }
        ensures same { self.new ≡ with_host self.old self.new.host }
        ensures sent { O.sent out.new ≡ O.sent out.old ++ sent_between self.old.host.journal.flush self.new.host.journal.flush }
        ensures taken { I.taken from.new ≡ I.taken from.old ++ drop (length self.old.host.journal.flush.taken) self.new.host.journal.flush.taken }
        ensures full { result ≡ turns.QueueFull → O.was_full out.old out.new }
        ensures empty { result ≡ turns.Idle → I.was_empty from.old from.new }
        ensures out { O.rest out.new ≡ O.rest out.old }
        ensures from { I.rest from.new ≡ I.rest from.old }
    {
        self.parts.journal.flush_step(out, from)
    }

    /// Takes a completion, though a flush may be due: for where none can go out, since nothing leaves the submission queue
    /// behind a power cut. It takes no memory.
    pub fn take_step<I: Inlet<Completion>>(&mut self, from: &mut I) -> Turn
        requires { length self.old.host.journal.flush.taken ≤ self.old.host.journal.flush.limit }
        ensures step { record { host = self.new.host; turn = result } ≡
            machine.take_step (model_now self.old) (setup_now self.old) self.old.host (first_since (I.taken from.old) (I.taken from.new)) }
        ensures same { self.new ≡ with_host self.old self.new.host }
        ensures taken { I.taken from.new ≡ I.taken from.old ++ drop (length self.old.host.journal.flush.taken) self.new.host.journal.flush.taken }
        ensures empty { result ≡ turns.Idle → I.was_empty from.old from.new }
        ensures from { I.rest from.new ≡ I.rest from.old }
    {
        self.parts.journal.take_step(from)
    }

    /// The step of the commit actor. Only where it builds a plan it takes memory, and where that is refused, all is as it
    /// was.
    pub fn commit_step<O: Outlet<Request>>(&mut self, alloc: Global, out: &mut O) -> Turn
        ensures step { result ≢ turns.NoMemory → record { host = self.new.host; turn = result } ≡
            machine.commit_step (model_now self.old) (setup_now self.old) (is_queue_full result) self.old.host }
        ensures memory { result ≡ turns.NoMemory → (builds_plan (writers self.old.made_with) self.old.host.journal self.old.host.pages ≡ true) × (self.new ≡ self.old) }
        ensures same { self.new ≡ with_host self.old self.new.host }
        ensures sent { O.sent out.new ≡ O.sent out.old ++ sent_between self.old.host.journal.flush self.new.host.journal.flush }
        ensures full { result ≡ turns.QueueFull → O.was_full out.old out.new }
        ensures rest { O.rest out.new ≡ O.rest out.old }
    {
        let builds = self.parts.journal.builds_plan(&self.parts.pages);
        if reserve_cut(&mut self.cuts, builds).is_err() {
            return Turn::NoMemory;
        }
        let before = self.parts.journal.committing();
        let turn = commit_step(
            alloc,
            &mut self.parts.journal,
            &mut self.parts.pages,
            &self.parts.volume,
            out,
        );
        if matches!(turn, Turn::NoMemory) {
            return turn;
        }
        note_cut(&mut self.cuts, builds, self.history.len() as u64);
        release_closed(
            &mut self.parts.volume,
            &mut self.parts.known,
            before,
            self.parts.journal.committing(),
        );
        turn
    }

    /// Sends the Dirty page of this number, in order; without order where the transaction that took its zone is
    /// submitted. It takes no memory.
    pub fn writeback<O: Outlet<Request>>(&mut self, pick: u32, out: &mut O) -> Turn
        ensures step { record { host = self.new.host; turn = result } ≡
            machine.writeback (model_now self.old) (setup_now self.old) (is_queue_full result) self.old.host pick }
        ensures same { self.new ≡ with_host self.old self.new.host }
        ensures sent { O.sent out.new ≡ O.sent out.old ++ sent_between self.old.host.journal.flush self.new.host.journal.flush }
        ensures full { result ≡ turns.QueueFull → O.was_full out.old out.new }
        ensures rest { O.rest out.new ≡ O.rest out.old }
    {
        if self.parts.journal.flush().is_over() {
            return Turn::Idle;
        }
        let Some(page) = self.parts.pages.dirty_page(pick) else {
            return Turn::Idle;
        };
        let (birth, index) = (page.birth, page.index);
        let owner = self
            .parts
            .owners
            .get(page.block as usize)
            .copied()
            .unwrap_or(0);
        let ordered = !self.parts.journal.is_submitted(owner);
        let note = Note::Page {
            birth,
            index,
            call: page.version,
        };
        let kind = Kind::Put {
            block: page.block,
            body: page.body,
        };
        let turn = self.parts.journal.submit(kind, ordered, false, note, out);
        if matches!(turn, Turn::Did) {
            let state = if ordered {
                PageState::Firm
            } else {
                PageState::Loose
            };
            self.parts.pages.mark(birth, index, state);
        }
        turn
    }
}

// Whether no thread has a call left.
fn have_ended(threads: &[Thread]) -> bool
    ensures { result ≡ is_done (map thread_of threads.now) }
{
    for thread in threads {
        if !has_ended(thread) {
            return false;
        }
    }
    true
}

// Whether a thread has no call left.
fn has_ended(thread: &Thread) -> bool
    ensures { result ≡ (length (thread_of thread.now).calls == 0) }
{
    thread.ended as usize >= thread.program.len()
}

// Makes room for a cut, where one is to be noted.
fn reserve_cut(cuts: &mut Vec<u64>, noted: bool) -> Result<(), NoMemory>
    ensures room { IfOk result (λ u. noted ≡ true → length cuts.new.items < vec_capacity cuts.new) }
    ensures err { OnErr result (noted ≡ true) }
    ensures same { cuts.new.items ≡ cuts.old.items }
{
    if noted {
        cuts.reserve(1)?;
    }
    Ok(())
}

// Notes the number of entries so far as a cut, if one is to be noted.
fn note_cut(cuts: &mut Vec<u64>, noted: bool, now: u64)
    requires { noted ≡ true → length cuts.old.items < vec_capacity cuts.old }
    ensures { cuts.new.items ≡ cuts_after noted now cuts.old.items }
{
    if noted {
        cuts.push_reserved(now);
    }
}

// Releases the zones of a transaction whose last log block was submitted.
fn release_closed(
    volume: &mut PlainVolume,
    known: &mut Known,
    before: Option<u32>,
    after: Option<u32>,
)
    ensures volume { volume.new ≡ released after_release before after volume.old }
    ensures known { StaysKnown volume.old volume.new known.old known.new }
{
    if let Some(tx) = before
        && after.is_none()
    {
        volume.release(tx);
        known.forget();
    }
}
