//! A law of the queues round a scheduler, which does nothing when it is called.
ghost use Rattle.std.specs.Prelude.{◌≡◌, ◌<◌, ◌≤◌, ◌++◌, ℕ, [], ◌∷◌, length, Some, None};
ghost use Rattle.order_model.specs.declared.command.Command.{Command};
ghost use Rattle.schedulers.specs.reassign.Scheduler.{SchedSteps};
ghost use Rattle.stack_core.specs.BlockLayer.{BlockLayer, layer_dispatched};

/// A law, which does nothing when it is called: a command that found the dispatch queue full is kept, and the next dispatch
/// sends it, whatever that picks, and takes none from the scheduler; while the queue is full it changes nothing.
pub fn kept_commands_are_sent_alone<K>()
    ensures kept { (k : SchedSteps K) (layer : BlockLayer K) (pick : ℕ) (c : Command) → layer.queues.kept ≡ None → k.command layer.sched pick ≡ Some c →
        layer.queues.capacity ≤ length layer.queues.dispatched →
        layer_dispatched k layer pick ≡ record { queues = record layer.queues { kept = Some c }; sched = k.dispatched layer.sched pick } }
    ensures sent { (k : SchedSteps K) (layer : BlockLayer K) (pick : ℕ) (c : Command) → layer.queues.kept ≡ Some c →
        length layer.queues.dispatched < layer.queues.capacity →
        layer_dispatched k layer pick ≡ record layer { queues = record layer.queues { kept = None; dispatched = layer.queues.dispatched ++ c ∷ [] } } }
    ensures waits { (k : SchedSteps K) (layer : BlockLayer K) (pick : ℕ) (c : Command) → layer.queues.kept ≡ Some c →
        layer.queues.capacity ≤ length layer.queues.dispatched → layer_dispatched k layer pick ≡ layer }
{}
