//! The pages that are not folded, with what each step asks of them kept as they change.
ghost use Rattle.std.specs.Prelude.{◌≡◌, ℕ, ◌+◌, ◌^◌, ◌<◌, ◌≤◌, ◌++◌, true, [], drop, length, replicate, slice_get, None, take, IfOk};
ghost use Rattle.std.specs.List.{All};
ghost use Rattle.std.specs.VecDeque.{deque_capacity};
ghost use Rattle.order_model.specs.Received.{all_parts};
ghost use Rattle.flog_device.specs.Log.{prefix, places, pages, programmed_at, laid, laid_origins};
ghost use Rattle.flog_device.specs.Device.{all_programmed, programs, writes};
ghost use Rattle.flog_device.specs.laws.LogFacts.{top, InOrder, Rises};
ghost use Rattle.flog_device.specs.code.Helpers.{IsPageOf, can_fold, area_folded, origins_folded};
ghost use Rattle.flog_device.specs.code.Logged.{IsIn, AreLast};

use crate::log::{Page, Write, append_pages, body_of, can_fold, lay_over, pick_write, program};
use blk_base::{Image, NoMemory};
use device_epochs::queue::is_number;
use order_model::{Commands, Part};
use std::alloc::Global;
use std::collections::VecDeque;
use std::marker::Model;

/// The pages that are not folded, in order of the log. A step looks at no more of them than it changes.
#[derive(Drop)]
pub struct PageLog {
    pages: VecDeque<Page>,
    // How many stand before the first one that is not programmed.
    kept: usize,
    // How many are not programmed.
    unprogrammed: usize,
    // For each block the part of the last of the kept pages that has it.
    last: Vec<Option<u64>>,
}

impl Model for PageLog {
    ghost use Rattle.std.specs.Prelude.{length};
    ghost use Rattle.std.specs.VecDeque.{deque_capacity};
    ghost use Rattle.flog_device.specs.code.Logged.{Logged, IsLogged};

    ghost Value = { Logged };

    ghost view = { λ l. record { items = l.pages.items; capacity = deque_capacity l.pages; area = length l.last.items } };

    ghost invariant = { IsLogged };
}

impl PageLog {
    /// No page, with room for so many, of an area of so many blocks.
    pub fn with_capacity(alloc: Global, capacity: usize, blocks: u32) -> Result<PageLog, NoMemory>
        ensures items { IfOk result (λ l. l.items ≡ []) }
        ensures capacity { IfOk result (λ l. capacity ≤ l.capacity) }
        ensures size { IfOk result (λ l. l.area ≡ blocks) }
    {
        Ok(PageLog {
            pages: VecDeque::with_capacity(alloc, capacity)?,
            kept: 0,
            unprogrammed: 0,
            last: no_parts(alloc, blocks)?,
        })
    }

    /// How many pages there are.
    pub fn len(&self) -> usize
        ensures { result ≡ length self.now.items }
    {
        self.pages.len()
    }

    /// Whether each page is programmed.
    pub fn all_programmed(&self) -> bool
        ensures { result ≡ all_programmed self.now.items }
    {
        self.unprogrammed == 0
    }

    /// How many writes may be next.
    pub fn count_writes(&self) -> usize
        ensures count { result ≡ length (writes self.now.items) }
        ensures few { result ≤ length self.now.items + 1 }
    {
        if can_fold(&self.pages) {
            self.unprogrammed + 1
        } else {
            self.unprogrammed
        }
    }

    /// The write at place `pick` of those that may be next.
    pub fn pick_write(&self, pick: usize) -> Option<Write>
        ensures { result ≡ slice_get (writes self.now.items) pick }
    {
        pick_write(&self.pages, self.kept, pick)
    }

    /// Programs the page at this place.
    pub fn program(&mut self, at: usize)
        requires place { at < length self.old.items }
        requires pages { All (IsIn self.old.area) self.old.items }
        ensures items { self.new.items ≡ programmed_at at self.old.items }
        ensures capacity { self.new.capacity ≡ self.old.capacity }
        ensures size { self.new.area ≡ self.old.area }
    {
        self.unprogrammed -= count_unprogrammed(&self.pages, at);
        program(&mut self.pages, at);
        self.kept = keep(&self.pages, self.kept, &mut self.last);
    }

    /// Appends the pages of parts, of which the first stands at this place among all parts taken.
    pub fn append(&mut self, first: u64, parts: &[Part])
        requires room { 0 < length parts.now → length self.old.items + length parts.now ≤ self.old.capacity }
        requires places { first + length parts.now < 2 ^ 64 }
        ensures items { self.new.items ≡ self.old.items ++ pages first parts.now }
        ensures capacity { self.new.capacity ≡ self.old.capacity }
        ensures size { self.new.area ≡ self.old.area }
    {
        append_pages(&mut self.pages, first, parts);
        self.unprogrammed += parts.len();
    }

    /// The last part of this block in the prefix.
    pub fn last_kept(&self, block: u32) -> Option<u64>
        requires { block < self.now.area }
        ensures { result ≡ top (places (prefix self.now.items)) block }
    {
        self.last[block as usize]
    }

    /// Lays the pages of the prefix over an area, in order.
    pub fn lay_over(&self, took: &Commands, area: &mut Image, origins: &mut Vec<Option<u64>>)
        requires pages { All (IsPageOf (length (all_parts took.now.items)) (length area.old)) self.now.items }
        requires few { length (all_parts took.now.items) < 2 ^ 31 }
        requires origins { length origins.old.items ≡ length area.old }
        ensures area { area.new ≡ laid took.now.items (places (prefix self.now.items)) area.old }
        ensures origins { origins.new.items ≡ laid_origins (places (prefix self.now.items)) origins.old.items }
    {
        lay_over(&self.pages, took, area, origins);
    }

    /// Folds the oldest page, which is programmed: its part goes into the area, where no other page of the prefix
    /// has its block.
    pub fn fold(&mut self, took: &Commands, area: &mut Image, origins: &mut Vec<Option<u64>>)
        requires programmed { can_fold self.old.items ≡ true }
        requires rising { InOrder Rises (places self.old.items) }
        requires pages { All (IsPageOf (length (all_parts took.now.items)) (length area.old)) self.old.items }
        requires few { length (all_parts took.now.items) < 2 ^ 31 }
        requires origins { length origins.old.items ≡ length area.old }
        requires size { self.old.area ≡ length area.old }
        ensures items { self.new.items ≡ drop 1 self.old.items }
        ensures capacity { self.new.capacity ≡ self.old.capacity }
        ensures size { self.new.area ≡ self.old.area }
        ensures area { area.new ≡ area_folded took.now.items self.old.items area.old }
        ensures origins { origins.new.items ≡ origins_folded self.old.items origins.old.items }
    {
        let Some(page) = self.pages.pop_front() else {
            return;
        };
        self.kept -= 1;
        let place = page.place;
        let at = place.block as usize;
        if is_number(self.last[at], place.part) {
            self.last[at] = None;
            area.put(place.block, body_of(took, place.part));
            origins[at] = Some(place.part);
        }
    }
}

/// For each block none.
pub(crate) fn no_parts(alloc: Global, blocks: u32) -> Result<Vec<Option<u64>>, NoMemory>
    ensures { IfOk result (λ v. v.items ≡ replicate blocks None) }
{
    let mut parts = Vec::with_capacity(alloc, blocks as usize)?;
    for _ in 0..blocks {
        parts.push_reserved(None);
    }
    Ok(parts)
}

// 1 where the page at this place is not programmed, so that one page fewer is left once it is, else 0.
fn count_unprogrammed(pages: &VecDeque<Page>, at: usize) -> usize
    requires { at < length pages.now.items }
    ensures { length (programs 0 pages.now.items) ≡ length (programs 0 (programmed_at at pages.now.items)) + result }
{
    if pages[at].programmed { 0 } else { 1 }
}

// Where the first `kept` pages are programmed: goes on to the first one that is not, and notes the part of each on the way.
fn keep(pages: &VecDeque<Page>, kept: usize, last: &mut Vec<Option<u64>>) -> usize
    requires kept { kept ≤ length (prefix pages.now.items) }
    requires pages { All (IsIn (length last.old.items)) pages.now.items }
    requires last { AreLast last.old.items (places (take kept pages.now.items)) }
    ensures kept { result ≡ length (prefix pages.now.items) }
    ensures last { AreLast last.new.items (places (prefix pages.now.items)) }
    ensures blocks { length last.new.items ≡ length last.old.items }
{
    for at in kept..pages.len() {
        let page = pages[at];
        if !page.programmed {
            return at;
        }
        last[page.place.block as usize] = Some(page.place.part);
    }
    pages.len()
}
