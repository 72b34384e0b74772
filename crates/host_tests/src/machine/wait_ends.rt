//! Small sessions worked out by hand: each cause of waiting, and the event that ends the wait.
ghost use Rattle.std.specs.Prelude.{◌≡◌, true, [], ◌∷◌, Some};
ghost use Rattle.order_model.specs.declared.completion.Completion.TheVariants.{Moved, Flushed};
ghost use Rattle.flush_actor.specs.declared.call_kind.CallKind.TheVariants.{FileBarrier, FileSync};
ghost use Rattle.host_machine.specs.Causes as causes;
ghost use Rattle.host_machine.specs.Host.{advance};
ghost use Rattle.host_machine.specs.Outcomes as outcomes;
ghost use Rattle.host_machine.specs.laws.Rows.{FlushStep, model, setup, run, moved};
ghost use Rattle.host_tests.specs.machine.FullHosts.{running_with};
ghost use Rattle.host_tests.specs.machine.Samples.{files, begun_on, calls, commits, answer_of};
ghost use Rattle.host_tests.specs.machine.WaitingHosts.{in_closing, zones_soon, wants_held, two_left, needs_one};

/// A law, which does nothing when it is called: a call that waits for a transaction to be closed, or for room in it, is done
/// once the plan is built; one that waits for zones once the commit block that they wait for is submitted.
pub fn plain_waits_end_with_the_transaction()
    ensures closing { answer_of in_closing ≡ outcomes.Waiting causes.Closing }
    ensures closed { answer_of (commits 1 in_closing) ≡ outcomes.Done 0 }
    ensures full { answer_of (running_with 14 0) ≡ outcomes.Waiting (causes.TxFull 16) }
    ensures full_closing { answer_of (commits 1 (calls 1 (running_with 14 0))) ≡ outcomes.Waiting causes.Closing }
    ensures full_closed { answer_of (commits 2 (calls 1 (running_with 14 0))) ≡ outcomes.Done 0 }
    ensures zones { answer_of zones_soon ≡ outcomes.Waiting (causes.Quarantine 1) }
    ensures zones_free { answer_of (commits 1 zones_soon) ≡ outcomes.Done 0 }
{}

/// A law, which does nothing when it is called: a begun call that waits for a held block waits for its commit block once the
/// holder's is done; one that waits for a commit block is done once that is submitted, and not while others of its plan are;
/// one that needs a request durable once a flush behind it is answered, and not by one before it; one that met a full queue
/// sends its page once there is room.
pub fn begun_waits_end_with_their_event()
    ensures held { answer_of wants_held ≡ outcomes.Waiting (causes.Conflict 4 1) }
    ensures let_go { answer_of (run (moved 0 ∷ []) wants_held) ≡ outcomes.Waiting (causes.Commit 2) }
    ensures commit { answer_of (two_left FileBarrier) ≡ outcomes.Waiting (causes.Commit 1) }
    ensures not_yet { answer_of (commits 1 (two_left FileBarrier)) ≡ outcomes.Waiting (causes.Commit 1) }
    ensures committed { answer_of (commits 2 (two_left FileBarrier)) ≡ outcomes.Done 0 }
    ensures sync_too { answer_of (commits 2 (two_left FileSync)) ≡ outcomes.Waiting (causes.Durable 1) }
    ensures durable { answer_of (run (FlushStep (Some (Flushed 0)) ∷ []) needs_one) ≡ outcomes.Waiting (causes.Durable 1) }
    ensures not_moved { answer_of (run (FlushStep (Some (Moved 1)) ∷ []) needs_one) ≡ outcomes.Waiting (causes.Durable 1) }
    ensures flushed { answer_of (run (FlushStep (Some (Flushed 2)) ∷ []) needs_one) ≡ outcomes.Done 0 }
    ensures queue { (advance model setup true (begun_on FileBarrier files) 0).step ≡ outcomes.Waiting causes.QueueFull }
    ensures room { answer_of (begun_on FileBarrier files) ≡ outcomes.Sent 0 }
    ensures second { answer_of (calls 1 (begun_on FileBarrier files)) ≡ outcomes.Sent 1 }
{}
