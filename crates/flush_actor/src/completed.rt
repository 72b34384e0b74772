//! What was completed.
ghost use Rattle.std.specs.Prelude.{◌≡◌, ◌<◌, ◌≤◌, ◌^◌, ◌||◌, [], ◌∷◌, ◌++◌, IfOk, length};
ghost use Rattle.std.specs.List.{list_any};
ghost use Rattle.flush_actor.specs.Part.{is_cut, first_failed, has_stopped, is_moved, is_flushed_after};
ghost use Rattle.flush_actor.specs.code.Summary.{greater, flushed_with, failed_with, moved_with};

use crate::submission::is_above;
use blk_base::NoMemory;
use order_model::{Completion, Trail};
use std::alloc::Global;
use std::marker::Model;

/// The completions that were taken. Of each request it keeps whether it was moved; the list itself contracts alone see.
/// No call but `make` takes memory, and none goes through all requests.
#[derive(Drop)]
pub struct Completed {
    taken: Trail<Completion>,
    count: u64,
    cut: bool,
    failed: Option<u64>,
    flushed: Option<u64>,
    moved: Vec<bool>,
}

impl Model for Completed {
    ghost use Rattle.flush_actor.specs.Actor.{Completed};
    ghost use Rattle.flush_actor.specs.code.Fields.{IsCompleted};
    ghost use Rattle.std.specs.Prelude.{length};

    ghost Value = { Completed };

    ghost view = { λ c. record { known = length c.moved.items; taken = c.taken.items } };

    ghost invariant = { λ c. IsCompleted c.moved.items c.count c.cut c.failed c.flushed c.taken.items };
}

impl Completed {
    pub fn make(alloc: Global, limit: u64) -> Result<Completed, NoMemory>
        requires { limit < 2 ^ 32 }
        ensures { IfOk result (λ c. c ≡ record { known = limit; taken = [] }) }
    {
        Ok(Completed {
            taken: Trail::new(),
            count: 0,
            cut: false,
            failed: None,
            flushed: None,
            moved: vec![in alloc; false; limit as usize]?,
        })
    }

    pub fn count(&self) -> u64
        ensures { result ≡ length self.now.taken }
    {
        self.count
    }

    pub fn is_cut(&self) -> bool
        ensures { result ≡ list_any is_cut self.now.taken }
    {
        self.cut
    }

    pub fn first_failed(&self) -> Option<u64>
        ensures { result ≡ first_failed self.now.taken }
    {
        self.failed
    }

    pub fn has_stopped(&self) -> bool
        ensures { result ≡ has_stopped self.now.taken }
    {
        self.cut || self.failed.is_some()
    }

    // Whether a flush with a greater id is answered.
    pub fn has_flushed_after(&self, id: u64) -> bool
        ensures { result ≡ list_any (is_flushed_after id) self.now.taken }
    {
        is_above(id, self.flushed)
    }

    // Whether a request was moved.
    pub fn has_moved(&self, id: u64) -> bool
        requires { id < self.now.known }
        ensures { result ≡ list_any (is_moved id) self.now.taken }
    {
        self.moved[id as usize]
    }

    // One completion more is taken.
    pub fn take(&mut self, completion: Completion)
        requires { length self.old.taken ≤ self.old.known }
        ensures { self.new ≡ record { known = self.old.known; taken = self.old.taken ++ completion ∷ [] } }
    {
        self.cut = cut_with(self.cut, completion);
        self.failed = failed_with(self.failed, completion);
        self.flushed = flushed_with(self.flushed, completion);
        mark(&mut self.moved, completion);
        self.count += 1;
        self.taken = self.taken.and(&completion);
    }
}

// Whether the power went, after this completion.
fn cut_with(cut: bool, completion: Completion) -> bool
    ensures { result ≡ (cut || is_cut completion) }
{
    cut || matches!(completion, Completion::Cut)
}

// The first failure, after this completion.
fn failed_with(first: Option<u64>, completion: Completion) -> Option<u64>
    ensures { result ≡ failed_with first completion }
{
    match completion {
        Completion::Failed(id) => Some(first.unwrap_or(id)),
        _ => first,
    }
}

// The greatest flush that was answered, after this completion.
fn flushed_with(last: Option<u64>, completion: Completion) -> Option<u64>
    ensures { result ≡ flushed_with last completion }
{
    match completion {
        Completion::Flushed(id) => Some(greater(last, id)),
        _ => last,
    }
}

fn greater(last: Option<u64>, id: u64) -> u64
    ensures { result ≡ greater last id }
{
    match last {
        Some(n) if id <= n => n,
        _ => id,
    }
}

// Marks the request that was moved, if it is one of these.
fn mark(moved: &mut Vec<bool>, completion: Completion)
    ensures { moved.new.items ≡ moved_with moved.old.items completion }
{
    if let Completion::Moved(id) = completion
        && let Some(flag) = moved.get_mut(id as usize)
    {
        *flag = true;
    }
}
