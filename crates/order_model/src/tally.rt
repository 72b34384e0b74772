//! A list of which code keeps the length alone.
ghost use Rattle.std.specs.Prelude.{◌≡◌, ◌<◌, ◌++◌, ◌==◌, [], ◌∷◌, length};

use crate::Trail;
use std::marker::Model;

/// A list that only grows, up to a number of items. Contracts see its items; at run time there is its length alone, so an item
/// takes no memory.
#[derive(Drop)]
pub struct Tally<T> {
    items: Trail<T>,
    count: usize,
    room: usize,
}

impl<T> Model for Tally<T> {
    ghost use Rattle.std.specs.Prelude.{◌≡◌, ◌≤◌, length};
    ghost use Rattle.order_model.specs.History.{HistoryState};

    ghost Value = { HistoryState T };

    ghost view = { λ t. record { items = t.items.items; room = t.room } };

    ghost invariant = { λ t. t.count ≡ length t.items.items };
}

impl<T> Tally<T> {
    /// No item yet, of so many.
    pub fn make(room: usize) -> Tally<T>
        ensures { result ≡ record { items = []; room = room } }
    {
        Tally {
            items: Trail::new(),
            count: 0,
            room,
        }
    }

    /// How many items there are.
    pub fn len(&self) -> usize
        ensures { result ≡ length self.now.items }
    {
        self.count
    }

    pub fn is_empty(&self) -> bool
        ensures { result ≡ (length self.now.items == 0) }
    {
        self.count == 0
    }

    /// Counts one item more. The item itself is not kept.
    pub fn push(&mut self, item: &T)
        requires { length self.old.items < self.old.room }
        ensures { self.new ≡ record { items = self.old.items ++ item.now ∷ []; room = self.old.room } }
    {
        self.items = self.items.and(item);
        self.count += 1;
    }
}
