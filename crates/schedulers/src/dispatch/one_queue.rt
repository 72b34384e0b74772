//! How one queue and its ends are made, and how they end.
ghost use Rattle.std.specs.Prelude.{◌≡◌, ◌<◌, [], IfOk};
ghost use Rattle.crossbeam_queue.specs.Passes.{view, IsPassOf, ruled_capacity};
ghost use Rattle.order_model.specs.Carrying.{IsPrefixOf};
ghost use Rattle.schedulers.specs.dispatch.Rule.{producing, consuming};

use crate::dispatch::names::QueueName;
use crate::dispatch::putting::PutEnd;
use crate::dispatch::rule::{QueuePass, Roles, RuledQueue, Total};
use crate::dispatch::taking::TakeEnd;
use blk_base::NoMemory;
use std::alloc::Global;
use std::marker::PhantomData;
use std::sync::Wait;

/// An empty queue, and the passes of its two ends.
pub fn make_queue<T>(
    alloc: Global,
    capacity: u32,
) -> Result<(RuledQueue<T>, QueuePass<T>, QueuePass<T>), NoMemory>
    requires { 0 < capacity }
    ensures capacity { IfOk result (λ r. ruled_capacity r.0 ≡ capacity) }
    ensures passes { IfOk result (λ r. IsPassOf r.0 r.1 × IsPassOf r.0 r.2) }
    ensures empty { IfOk result (λ r. (view r.1 ≡ producing []) × (view r.2 ≡ consuming [])) }
{
    let (queue, mut producer) = RuledQueue::ruled(alloc, capacity as usize)?;
    let consumer = queue.another::<Roles>(&mut producer);
    Ok((queue, producer, consumer))
}

/// The end of a queue at which items are put.
pub fn put_end<'a, T, K: QueueName, H: Wait>(
    rt: &'a H,
    queue: &'a RuledQueue<T>,
    pass: QueuePass<T>,
) -> PutEnd<'a, T, K, H>
    requires pass { IsPassOf queue.now pass × (view pass ≡ producing []) }
    requires name { pass.table_id ≡ K.name }
    ensures { result ≡ record { capacity = ruled_capacity queue.now; passed = [] } }
{
    PutEnd {
        rt,
        queue,
        pass,
        name: PhantomData,
    }
}

/// The end of a queue at which items are taken.
pub fn take_end<'a, T, K: QueueName, H: Wait>(
    rt: &'a H,
    queue: &'a RuledQueue<T>,
    pass: QueuePass<T>,
) -> TakeEnd<'a, T, K, H>
    requires pass { IsPassOf queue.now pass × (view pass ≡ consuming []) }
    requires name { pass.table_id ≡ K.name }
    ensures { result ≡ record { capacity = ruled_capacity queue.now; passed = [] } }
{
    TakeEnd {
        rt,
        queue,
        pass,
        name: PhantomData,
    }
}

/// Takes the producing pass into the consuming one: what was taken is a prefix of what was sent.
pub fn close_queue<T, K: QueueName, H: Wait>(from: PutEnd<'_, T, K, H>, to: TakeEnd<'_, T, K, H>)
    ensures { IsPrefixOf to.entry.passed from.entry.passed }
{
    let PutEnd {
        rt: _,
        queue: _,
        pass: producer,
        name: _,
    } = from;
    let TakeEnd {
        rt: _,
        queue,
        pass: mut consumer,
        name: _,
    } = to;
    queue.absorb::<Roles>(&mut consumer, producer);
    queue.learn_as::<Total>(&mut consumer);
}
