//! A queue of fixed capacity, for one thread.
ghost use Rattle.std.specs.Prelude.{◌≡◌, ℕ, List, [], ◌∷◌, ◌++◌, ◌≤◌, ◌<◌, ◌↔◌, not, nat_lt, length, IfOk, OnOk, IfErr, IfSome, IfNone, IsOk};

use crate::{Inlet, Outlet, Trail};
use blk_base::NoMemory;
use std::alloc::Global;
use std::collections::VecDeque;
use std::marker::Model;

/// A queue of one thread, which has both ends. Its room is reserved when it is made.
#[derive(Drop)]
pub struct ListQueue<T> {
    items: VecDeque<T>,
    capacity: usize,
    sent: Trail<T>,
    taken: Trail<T>,
}

impl<T> Model for ListQueue<T> {
    ghost use Rattle.std.specs.Prelude.{◌≡◌, ◌≤◌, ◌++◌};
    ghost use Rattle.std.specs.VecDeque.{deque_len, deque_capacity};
    ghost use Rattle.order_model.specs.Queue.{ListQueueState};

    ghost Value = { ListQueueState T };

    ghost view = { λ q. record { capacity = q.capacity; held = q.items.items; sent = q.sent.items; taken = q.taken.items } };

    ghost invariant = { λ q. (deque_len q.items ≤ q.capacity) × (q.capacity ≤ deque_capacity q.items) × (q.sent.items ≡ q.taken.items ++ q.items.items) };
}

impl<T> ListQueue<T> {
    /// An empty queue with room for so many items.
    pub fn make(alloc: Global, capacity: u32) -> Result<ListQueue<T>, NoMemory>
        ensures { IfOk result (λ q. q ≡ record { capacity = capacity; held = []; sent = []; taken = [] }) }
    {
        let capacity = capacity as usize;
        Ok(ListQueue {
            items: VecDeque::with_capacity(alloc, capacity)?,
            capacity,
            sent: Trail::new(),
            taken: Trail::new(),
        })
    }

    /// Whether `put` refuses.
    pub fn is_full(&self) -> bool
        ensures { result ≡ not (nat_lt (length self.now.held) self.now.capacity) }
    {
        self.items.len() == self.capacity
    }

    /// Puts an item into a queue that is not full.
    pub fn push(&mut self, item: T)
        requires { length self.old.held < self.old.capacity }
        ensures { self.new ≡ record { capacity = self.old.capacity; held = self.old.held ++ item ∷ []; sent = self.old.sent ++ item ∷ []; taken = self.old.taken } }
    {
        self.sent = self.sent.and(&item);
        self.items.push_back_reserved(item);
    }

    /// What is known of every such queue. It does nothing at run time.
    pub fn known(&self)
        ensures sent { self.now.sent ≡ self.now.taken ++ self.now.held }
        ensures held { length self.now.held ≤ self.now.capacity }
    {
        let _ = &self.items;
    }
}

impl<T> Outlet<T> for ListQueue<T> {
    ghost sent = { λ q. q.sent };

    ghost was_full = { λ old new. length old.held ≡ old.capacity };

    ghost Rest = { ℕ × List T };

    ghost rest = { λ q. (q.capacity, q.taken) };

    fn put(&mut self, item: T) -> Result<(), T>
        ensures when { IsOk result ↔ (length self.old.held < self.old.capacity) }
        ensures ok { OnOk result (self.new ≡ record { capacity = self.old.capacity; held = self.old.held ++ item ∷ []; sent = self.old.sent ++ item ∷ []; taken = self.old.taken }) }
        ensures err { IfErr result (λ x. (x ≡ item) × (length self.old.held ≡ self.old.capacity) × (self.new ≡ self.old)) }
    {
        if self.items.len() == self.capacity {
            return Err(item);
        }
        self.push(item);
        Ok(())
    }
}

impl<T> Inlet<T> for ListQueue<T> {
    ghost taken = { λ q. q.taken };

    ghost was_empty = { λ old new. old.held ≡ [] };

    ghost Rest = { ℕ × List T };

    ghost rest = { λ q. (q.capacity, q.sent) };

    fn take(&mut self) -> Option<T>
        ensures some { IfSome result (λ x. (self.old.held ≡ x ∷ self.new.held) × (self.new ≡ record { capacity = self.old.capacity; held = self.new.held; sent = self.old.sent; taken = self.old.taken ++ x ∷ [] })) }
        ensures none { IfNone result ((self.old.held ≡ []) × (self.new ≡ self.old)) }
    {
        let item = self.items.pop_front()?;
        self.taken = self.taken.and(&item);
        Some(item)
    }
}
