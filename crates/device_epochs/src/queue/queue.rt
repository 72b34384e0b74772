//! The queue of commands, each in a slot of its own.
ghost use Rattle.std.specs.Prelude.{◌≡◌, ℕ, ◌+◌, ◌^◌, ◌<◌, ◌≤◌, ◌==◌, ◌↔◌, List, [], length, All, IsOk, IsTrue, IfOk, OnOk, IfErr, MatchOption, slice_get, vec_len};
ghost use Rattle.std.specs.Option.{option_map, option_copied};
ghost use Rattle.std.specs.Vec.{vec_capacity};
ghost use Rattle.order_model.specs.Device.{is_ordered};
ghost use Rattle.device_epochs.specs.queue.Queue.{QueueState, Waiting, arrived, picked, departed, eligible, is_free, have_common_block, stands_in_way};
ghost use Rattle.device_epochs.specs.queue.code.Seats.{waiting_at, seated, has_block, are_kept_in_order, EachOnce, IsPicked};

use blk_base::NoMemory;
use order_model::{Command, Part, Priority};
use std::alloc::Global;
use std::marker::Model;
use std::mem;

// Where a waiting command lies, and its number in the order of arrival.
#[derive(Clone, Copy, PartialEq, Eq, Debug)]
struct Seat {
    number: u64,
    slot: usize,
}

/// The commands that wait in a device.
///
/// A command has 16 KB, so it lies in one slot from its arrival until it leaves; only its seat moves.
#[derive(Drop)]
pub struct CommandQueue {
    depth: usize,
    next: u64,
    slots: Vec<Command>,
    free: Vec<usize>,
    seats: Vec<Seat>,
}

impl Model for CommandQueue {
    ghost use Rattle.device_epochs.specs.queue.Queue.{QueueState};

    ghost Value = { QueueState };

    ghost use Rattle.device_epochs.specs.queue.code.Seats.{seated, IsSeated};

    ghost view = { λ q. record { depth = q.depth; next = q.next; waiting = seated q.slots.items q.seats.items } };

    ghost invariant = { IsSeated };
}

impl CommandQueue {
    /// An empty queue in which so many commands may wait.
    pub fn make(alloc: Global, depth: u32) -> Result<CommandQueue, NoMemory>
        requires { (1 ≤ depth) × (depth ≤ 64) }
        ensures { IfOk result (λ q. q ≡ record { depth = depth; next = 0; waiting = [] }) }
    {
        let length = depth as usize;
        Ok(CommandQueue {
            depth: length,
            next: 0,
            slots: blank_slots(alloc, length)?,
            free: numbers_below(alloc, length)?,
            seats: Vec::with_capacity(alloc, length)?,
        })
    }

    /// Takes a command, or hands it back exactly where as many wait as may.
    pub fn receive(&mut self, c: Command) -> Result<(), Command>
        requires { self.old.next + 1 < 2 ^ 64 }
        ensures when { IsOk result ↔ (length self.old.waiting < self.old.depth) }
        ensures ok { OnOk result (self.new ≡ arrived self.old c) }
        ensures back { IfErr result (λ d. (d ≡ c) × (self.new ≡ self.old)) }
    {
        if !self.room() {
            return Err(c);
        }
        self.push(&c);
        Ok(())
    }

    /// Takes the same as a command, where there is room. It is copied part by part into its slot.
    pub fn push(&mut self, c: &Command)
        requires next { self.old.next + 1 < 2 ^ 64 }
        requires room { length self.old.waiting < self.old.depth }
        ensures { self.new ≡ arrived self.old c.now }
    {
        let Some(slot) = self.free.pop() else {
            unreachable!();
        };
        self.slots[slot].refill(c);
        self.seats.push_reserved(Seat {
            number: self.next,
            slot,
        });
        self.next += 1;
    }

    /// Whether `receive` takes a command.
    pub fn room(&self) -> bool
        ensures { IsTrue result ↔ (length self.now.waiting < self.now.depth) }
    {
        self.seats.len() < self.depth
    }

    pub fn is_empty(&self) -> bool
        ensures { result ≡ (length self.now.waiting == 0) }
    {
        self.seats.is_empty()
    }

    /// The length of the eligible list.
    pub fn eligible(&self) -> u32
        ensures { result ≡ length (eligible self.now.waiting) }
    {
        count_free(&self.slots, &self.seats) as u32
    }

    /// The command that `take(pick)` would give.
    pub fn peek(&self, pick: u32) -> Option<&Command>
        ensures { option_copied result ≡ option_map (λ w. w.command) (picked self.now pick) }
    {
        let at = find_free(&self.slots, &self.seats, pick)?;
        Some(&self.slots[self.seats[at].slot])
    }

    /// How many commands arrived before the one that `take(pick)` would give.
    pub fn number(&self, pick: u32) -> Option<u64>
        ensures { result ≡ option_map (λ w. w.number) (picked self.now pick) }
    {
        let at = find_free(&self.slots, &self.seats, pick)?;
        Some(self.seats[at].number)
    }

    /// Takes the command at place `pick` of the eligible list.
    pub fn take(&mut self, pick: u32) -> Option<Command>
        ensures command { result ≡ option_map (λ w. w.command) (picked self.old pick) }
        ensures state { self.new ≡ departed self.old (picked self.old pick) }
    {
        let at = find_free(&self.slots, &self.seats, pick)?;
        let seat = self.seats.remove(at);
        self.free.push_reserved(seat.slot);
        Some(mem::replace(&mut self.slots[seat.slot], Command::blank()))
    }

    /// The command at place `pick` of the eligible list leaves, where there is one. Its bytes stay in its
    /// slot, which is free then.
    pub fn leave(&mut self, pick: u32)
        ensures { self.new ≡ departed self.old (picked self.old pick) }
    {
        let Some(at) = find_free(&self.slots, &self.seats, pick) else {
            return;
        };
        let seat = self.seats.remove(at);
        self.free.push_reserved(seat.slot);
    }
}

pub(crate) fn blank_slots(alloc: Global, depth: usize) -> Result<Vec<Command>, NoMemory>
    ensures { IfOk result (λ v. vec_len v ≡ depth) }
{
    let mut slots = Vec::with_capacity(alloc, depth)?;
    for _ in 0..depth {
        slots.push_reserved(Command::blank());
    }
    Ok(slots)
}

fn numbers_below(alloc: Global, depth: usize) -> Result<Vec<usize>, NoMemory>
    ensures items { IfOk result (λ v. EachOnce depth [] v.items) }
    ensures len { IfOk result (λ v. vec_len v ≡ depth) }
    ensures capacity { IfOk result (λ v. vec_capacity v ≡ depth) }
{
    let mut numbers = Vec::with_capacity(alloc, depth)?;
    for slot in 0..depth {
        numbers.push_reserved(slot);
    }
    Ok(numbers)
}

fn has_block(parts: &[Part], block: u32) -> bool
    ensures { result ≡ has_block parts.now block }
{
    parts.iter().any(|p| block == p.block)
}

fn have_common_block(ps: &[Part], qs: &[Part]) -> bool
    ensures { result ≡ have_common_block ps.now qs.now }
{
    ps.iter().any(|p| has_block(qs, p.block))
}

fn is_ordered(priority: Priority) -> bool
    ensures { result ≡ is_ordered priority }
{
    match priority {
        Priority::Simple => false,
        Priority::Ordered => true,
    }
}

// The later of the two may not pass the earlier one.
fn are_kept_in_order(c: &Command, d: &Command) -> bool
    ensures { result ≡ are_kept_in_order c.now d.now }
{
    is_ordered(c.priority)
        || is_ordered(d.priority)
        || have_common_block(c.parts.as_slice(), d.parts.as_slice())
}

fn stands_in_way(slots: &[Command], w: Seat, v: Seat) -> bool
    requires first { w.slot < length slots.now }
    requires second { v.slot < length slots.now }
    ensures { result ≡ stands_in_way (waiting_at slots.now w) (waiting_at slots.now v) }
{
    w.number < v.number && are_kept_in_order(&slots[w.slot], &slots[v.slot])
}

// No seat's command stands in the way of that of `v`.
fn is_free(slots: &[Command], seats: &[Seat], v: Seat) -> bool
    requires all { All (λ s. s.slot < length slots.now) seats.now }
    requires one { v.slot < length slots.now }
    ensures { result ≡ is_free (seated slots.now seats.now) (waiting_at slots.now v) }
{
    seats.iter().all(|w| !stands_in_way(slots, *w, v))
}

fn count_free(slots: &[Command], seats: &[Seat]) -> usize
    requires { All (λ s. s.slot < length slots.now) seats.now }
    ensures value { result ≡ length (eligible (seated slots.now seats.now)) }
    ensures few { result ≤ length seats.now }
{
    let mut count = 0;
    for v in seats {
        if is_free(slots, seats, *v) {
            count += 1;
        }
    }
    count
}

// The place among the seats of the eligible command at place `pick`.
fn find_free(slots: &[Command], seats: &[Seat], pick: u32) -> Option<usize>
    requires { All (λ s. s.slot < length slots.now) seats.now }
    ensures { MatchOption result (slice_get (eligible (seated slots.now seats.now)) pick ≡ None) (IsPicked slots.now seats.now pick) }
{
    if pick as usize >= seats.len() {
        return None;
    }
    let mut left = pick;
    for i in 0..seats.len() {
        if is_free(slots, seats, seats[i]) {
            if left == 0 {
                return Some(i);
            }
            left -= 1;
        }
    }
    None
}
