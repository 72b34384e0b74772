//! The end at which items are put.
use crate::dispatch::names::QueueName;
use crate::dispatch::rule::{Puts, QueuePass, RuledQueue};
use order_model::Outlet;
use std::marker::{Model, PhantomData};
use std::sync::Wait;

/// The end of the queue K at which items are put. Its value is the capacity of the queue and what was sent.
///
/// `put` hands an item back only where the queue held its capacity at a moment of the call, of items that were sent here.
pub struct PutEnd<'a, T, K: QueueName, H: Wait> {
    pub(crate) rt: &'a H,
    pub(crate) queue: &'a RuledQueue<T>,
    pub(crate) pass: QueuePass<T>,
    pub(crate) name: PhantomData<K>,
}

impl<'a, T, K: QueueName, H: Wait> Model for PutEnd<'a, T, K, H> {
    ghost use Rattle.std.specs.Prelude.{◌≡◌};
    ghost use Rattle.crossbeam_queue.specs.Passes.{view as view_of, IsPassOf, ruled_capacity};
    ghost use Rattle.schedulers.specs.dispatch.End.{EndState};
    ghost use Rattle.schedulers.specs.dispatch.Rule.{producing};

    ghost Value = { EndState T };

    ghost view = { λ e. record { capacity = ruled_capacity e.queue.now; passed = (view_of e.pass).sent } };

    ghost invariant = { λ e. IsPassOf e.queue.now e.pass × (e.pass.table_id ≡ K.name) × (view_of e.pass ≡ producing (view_of e.pass).sent) };
}

impl<'a, T, K: QueueName, H: Wait> Outlet<T> for PutEnd<'a, T, K, H> {
    ghost use Rattle.std.specs.Prelude.{ℕ};
    ghost use Rattle.schedulers.specs.dispatch.End.{WasFull};

    ghost sent = { λ e. e.passed };

    ghost was_full = { λ old new. WasFull old.capacity old.passed };

    ghost Rest = { ℕ };

    ghost rest = { λ e. e.capacity };

    fn put(&mut self, item: T) -> Result<(), T> {
        self.queue.push_as::<Puts, H>(self.rt, &mut self.pass, item)
    }
}
