//! The end at which items are taken.
use crate::dispatch::names::QueueName;
use crate::dispatch::rule::{QueuePass, RuledQueue, Takes};
use order_model::Inlet;
use std::marker::{Model, PhantomData};
use std::sync::Wait;

/// The end of the queue K at which items are taken. Its value is the capacity of the queue and what was taken.
///
/// `take` gives None only where the queue was empty at a moment of the call. Who holds this end does not know what was
/// sent, so no clause can say of a queue that it is not empty.
pub struct TakeEnd<'a, T, K: QueueName, H: Wait> {
    pub(crate) rt: &'a H,
    pub(crate) queue: &'a RuledQueue<T>,
    pub(crate) pass: QueuePass<T>,
    pub(crate) name: PhantomData<K>,
}

impl<'a, T, K: QueueName, H: Wait> Model for TakeEnd<'a, T, K, H> {
    ghost use Rattle.std.specs.Prelude.{◌≡◌};
    ghost use Rattle.crossbeam_queue.specs.Passes.{view as view_of, IsPassOf, ruled_capacity};
    ghost use Rattle.schedulers.specs.dispatch.End.{EndState};
    ghost use Rattle.schedulers.specs.dispatch.Rule.{consuming};

    ghost Value = { EndState T };

    ghost view = { λ e. record { capacity = ruled_capacity e.queue.now; passed = (view_of e.pass).taken } };

    ghost invariant = { λ e. IsPassOf e.queue.now e.pass × (e.pass.table_id ≡ K.name) × (view_of e.pass ≡ consuming (view_of e.pass).taken) };
}

impl<'a, T, K: QueueName, H: Wait> Inlet<T> for TakeEnd<'a, T, K, H> {
    ghost use Rattle.std.specs.Prelude.{ℕ};
    ghost use Rattle.schedulers.specs.dispatch.End.{WasEmpty};

    ghost taken = { λ e. e.passed };

    ghost was_empty = { λ old new. WasEmpty old.passed };

    ghost Rest = { ℕ };

    ghost rest = { λ e. e.capacity };

    fn take(&mut self) -> Option<T> {
        self.queue.pop_as::<Takes, H>(self.rt, &mut self.pass)
    }
}
