//! The queue in which barriers are reassigned.
ghost use Rattle.std.specs.Prelude.{◌≡◌, ℕ, ◌+◌, ◌^◌, ◌<◌, ◌≤◌, ◌↔◌, ◌==◌, ◌∷◌, ◌++◌, not, length, true, false, IsOk, IsTrue, IfOk, OnOk, IfErr, MatchOption, slice_get, if◌then◌else◌, [], ◌||◌, ◌&&◌};
ghost use Rattle.std.specs.Option.{option_map, option_copied};
ghost use Rattle.order_model.specs.OrderClosed.{is_flush};
ghost use Rattle.schedulers.specs.reassign.Epoch.{Waiting, is_blocked, can_accept, closing_of, unflagged, accepted, have_one_block, stands_before, may_leave, eligible, waits_ordered, picked, departed, leaving, is_barrier_closing, is_open, is_full};
ghost use Rattle.schedulers.specs.reassign.code.Kept.{IsPicked};

use crate::reassign::closing::{Closing, Held};
use blk_base::NoMemory;
use order_model::{Kind, Request, Tally};
use std::alloc::Global;
use std::collections::VecDeque;
use std::marker::Model;

// A request that waits, with its number in the order of acceptance.
#[derive(Drop)]
struct Entry {
    number: u64,
    request: Request,
}

impl Model for Entry {
    ghost use Rattle.schedulers.specs.reassign.Epoch.{Waiting};

    ghost Value = { Waiting };

    ghost view = { λ e. record { number = e.number; request = e.request } };
}

/// The requests that wait in a scheduler.
///
/// A request has 1 KB. One that leaves moves those before or behind it, whichever are fewer.
#[derive(Drop)]
pub struct EpochQueue {
    capacity: u32,
    next: u64,
    waiting: VecDeque<Entry>,
    closing: Closing,
}

impl Model for EpochQueue {
    ghost use Rattle.schedulers.specs.reassign.Epoch.{EpochState};

    ghost Value = { EpochState };

    ghost use Rattle.schedulers.specs.reassign.code.Kept.{IsInside};

    ghost view = { λ q. record { capacity = q.capacity; next = q.next; waiting = q.waiting.items; closing = q.closing } };

    ghost invariant = { IsInside };
}

impl EpochQueue {
    /// An empty queue in which so many requests may wait. Its room is reserved: no other call takes memory.
    pub fn make(alloc: Global, capacity: u32) -> Result<EpochQueue, NoMemory>
        ensures { IfOk result (λ q. q ≡ record { capacity = capacity; next = 0; waiting = []; closing = Closing.Open }) }
    {
        Ok(EpochQueue {
            capacity,
            next: 0,
            waiting: VecDeque::with_capacity(alloc, capacity as usize)?,
            closing: Closing::Open,
        })
    }

    /// Whether `accept` takes a request.
    pub fn can_accept(&self) -> bool
        ensures { result ≡ can_accept self.now }
    {
        is_open(self.closing) && !self.is_full()
    }

    /// Takes a request, or hands it back with the reason. A barrier or a flush closes the queue.
    pub fn accept(&mut self, r: Request) -> Result<(), (Request, Held)>
        requires barrier { r.barrier ≡ true → r.ordered ≡ true }
        requires flush { r.kind ≡ Kind.Flush → (r.ordered ≡ true) × (r.barrier ≡ true) }
        requires next { self.old.next + 1 < 2 ^ 64 }
        ensures when { IsOk result ↔ IsTrue (can_accept self.old) }
        ensures ok { OnOk result (self.new ≡ accepted self.old r) }
        ensures back { IfErr result (λ e. (e.0 ≡ r) × (e.1 ≡ (if is_blocked self.old then Held.Blocked else Held.Full)) × (self.new ≡ self.old)) }
    {
        if !is_open(self.closing) {
            return Err((r, Held::Blocked));
        }
        if self.is_full() {
            return Err((r, Held::Full));
        }
        self.closing = closing_of(&r);
        self.waiting.push_back_reserved(Entry {
            number: self.next,
            request: unflagged(r),
        });
        self.next += 1;
        Ok(())
    }

    /// Takes a request as `accept` does, and records it as it came.
    pub fn accept_recorded(
        &mut self,
        history: &mut Tally<Request>,
        r: Request,
    ) -> Result<(), (Request, Held)>
        requires barrier { r.barrier ≡ true → r.ordered ≡ true }
        requires flush { r.kind ≡ Kind.Flush → (r.ordered ≡ true) × (r.barrier ≡ true) }
        requires next { self.old.next + 1 < 2 ^ 64 }
        requires room { length history.old.items < history.old.room }
        ensures when { IsOk result ↔ IsTrue (can_accept self.old) }
        ensures ok { OnOk result (self.new ≡ accepted self.old r) }
        ensures recorded { OnOk result (history.new ≡ record { items = history.old.items ++ r ∷ []; room = history.old.room }) }
        ensures back { IfErr result (λ e. (e.0 ≡ r) × (e.1 ≡ (if is_blocked self.old then Held.Blocked else Held.Full))) }
        ensures kept { IfErr result (λ e. (self.new ≡ self.old) × (history.new ≡ history.old)) }
    {
        if self.can_accept() {
            history.push(&r);
        }
        self.accept(r)
    }

    fn is_full(&self) -> bool
        ensures { result ≡ is_full self.now }
    {
        self.waiting.len() == self.capacity as usize
    }

    /// The length of the eligible list.
    pub fn eligible(&self) -> u32
        ensures { result ≡ length (eligible self.now.waiting) }
    {
        count_eligible(&self.waiting) as u32
    }

    /// The request that `leave(pick)` would give.
    pub fn peek(&self, pick: u32) -> Option<&Request>
        ensures { option_copied result ≡ option_map (λ w. w.request) (picked self.now pick) }
    {
        let at = find_eligible(&self.waiting, pick)?;
        let entry = &self.waiting[at];
        Some(&entry.request)
    }

    /// Takes the request at place `pick` of the eligible list, and says whether it leaves as the barrier.
    pub fn leave(&mut self, pick: u32) -> Option<(Request, bool)>
        ensures given { result ≡ leaving self.old (picked self.old pick) }
        ensures state { self.new ≡ departed self.old (picked self.old pick) }
    {
        let at = find_eligible(&self.waiting, pick)?;
        self.leave_at(at)
    }

    /// How many requests wait.
    pub fn waiting(&self) -> usize
        ensures { result ≡ length self.now.waiting }
    {
        self.waiting.len()
    }

    /// The request at this place of those that wait, in order of acceptance.
    pub fn get(&self, at: usize) -> Option<&Request>
        ensures { option_copied result ≡ option_map (λ w. w.request) (slice_get self.now.waiting at) }
    {
        let entry = self.waiting.get(at)?;
        Some(&entry.request)
    }

    /// Takes the request at this place of those that wait, which is eligible, and says whether it leaves as
    /// the barrier.
    pub fn leave_at(&mut self, at: usize) -> Option<(Request, bool)>
        requires { (w : Waiting) → slice_get self.old.waiting at ≡ Some w → may_leave self.old.waiting w ≡ true }
        ensures given { result ≡ leaving self.old (slice_get self.old.waiting at) }
        ensures state { self.new ≡ departed self.old (slice_get self.old.waiting at) }
    {
        let Entry { number: _, request } = self.waiting.remove(at)?;
        let flagged = leaves_flagged(self.closing, &request, &self.waiting);
        self.closing = closing_after(flagged, self.closing);
        Some((request, flagged))
    }
}

fn is_open(closing: Closing) -> bool
    ensures { result ≡ is_open closing }
{
    match closing {
        Closing::Open => true,
        Closing::Barrier | Closing::Flush => false,
    }
}

fn is_barrier_closing(closing: Closing) -> bool
    ensures { result ≡ is_barrier_closing closing }
{
    match closing {
        Closing::Barrier => true,
        Closing::Open | Closing::Flush => false,
    }
}

fn is_flush(kind: &Kind) -> bool
    ensures { result ≡ is_flush kind.now }
{
    match kind {
        Kind::Put { .. } => false,
        Kind::Flush => true,
    }
}

// What closes the queue behind a request.
fn closing_of(r: &Request) -> Closing
    ensures { result ≡ closing_of r.now }
{
    if is_flush(&r.kind) {
        Closing::Flush
    } else if r.barrier {
        Closing::Barrier
    } else {
        Closing::Open
    }
}

// The request as it waits: a put without its barrier flag.
fn unflagged(r: Request) -> Request
    ensures { result ≡ unflagged r }
{
    let barrier = r.barrier && is_flush(&r.kind);
    Request { barrier, ..r }
}

fn have_one_block(k: &Kind, l: &Kind) -> bool
    ensures { result ≡ have_one_block k.now l.now }
{
    match (k, l) {
        (Kind::Put { block: a, .. }, Kind::Put { block: b, .. }) => a == b,
        _ => false,
    }
}

// `v` was accepted before `w`, and both are puts of one block.
fn stands_before(v: &Entry, w: &Entry) -> bool
    ensures { result ≡ stands_before v.now w.now }
{
    v.number < w.number && have_one_block(&v.request.kind, &w.request.kind)
}

fn may_leave(waiting: &VecDeque<Entry>, w: &Entry) -> bool
    ensures { result ≡ may_leave waiting.now.items w.now }
{
    if is_flush(&w.request.kind) {
        return waiting.len() == 1;
    }
    waiting.iter().all(|v| !stands_before(v, w))
}

fn waits_ordered(waiting: &VecDeque<Entry>) -> bool
    ensures { result ≡ waits_ordered waiting.now.items }
{
    waiting.iter().any(|w| w.request.ordered)
}

// A request leaves as the barrier while `rest` still waits.
fn leaves_flagged(closing: Closing, r: &Request, rest: &VecDeque<Entry>) -> bool
    ensures { result ≡ (is_flush r.now.kind || (is_barrier_closing closing && (r.now.ordered && not (waits_ordered rest.now.items)))) }
{
    is_flush(&r.kind) || is_barrier_closing(closing) && r.ordered && !waits_ordered(rest)
}

// What closes the queue once a request has left.
fn closing_after(flagged: bool, closing: Closing) -> Closing
    ensures { result ≡ (if flagged then Closing.Open else closing) }
{
    if flagged { Closing::Open } else { closing }
}

fn count_eligible(waiting: &VecDeque<Entry>) -> usize
    ensures value { result ≡ length (eligible waiting.now.items) }
    ensures few { result ≤ length waiting.now.items }
{
    let mut count = 0;
    for i in 0..waiting.len() {
        if may_leave(waiting, &waiting[i]) {
            count += 1;
        }
    }
    count
}

// The place of the eligible request at place `pick`.
fn find_eligible(waiting: &VecDeque<Entry>, pick: u32) -> Option<usize>
    ensures { MatchOption result (slice_get (eligible waiting.now.items) pick ≡ None) (IsPicked waiting.now.items pick) }
{
    if pick as usize >= waiting.len() {
        return None;
    }
    let mut left = pick;
    for i in 0..waiting.len() {
        if may_leave(waiting, &waiting[i]) {
            if left == 0 {
                return Some(i);
            }
            left -= 1;
        }
    }
    None
}
