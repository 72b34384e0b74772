//! Small sessions worked out by hand: the way of each kind of call, step by step.
ghost use Rattle.std.specs.Prelude.{◌≡◌, true, false, [], ◌∷◌, Some, None};
ghost use Rattle.order_model.specs.declared.completion.Completion.TheVariants.{Moved, Flushed, Failed, Cut};
ghost use Rattle.order_model.specs.declared.note.Note.TheVariants.{Page, Super, Commit, Flush};
ghost use Rattle.flush_actor.specs.declared.call_kind.CallKind.TheVariants.{Reading, FileBarrier, DataBarrier, FileSync, DataSync, WholeSync};
ghost use Rattle.host_machine.specs.Causes as causes;
ghost use Rattle.host_machine.specs.Outcomes as outcomes;
ghost use Rattle.host_machine.specs.laws.Rows.{FlushStep, run, moved, begun, changing, notes_of, barriers_of};
ghost use Rattle.host_tests.specs.machine.Samples.{files, asked, begun_on, took, calls, commits, answer_of, answers, limited, wanting, sync_committed};

/// A law, which does nothing when it is called: what the steps of a call answer, one after the other. An `fdatabarrier`
/// begins, sends two pages and is done. An `fbarrier` then waits for its transaction, which is closed in four steps: it is
/// empty, so the superblock is the request before its commit block, and a barrier; a later empty one is its commit block
/// alone. An `fsync` then needs the commit block
/// durable: one flush, behind its completion, and it is done.
pub fn calls_go_step_by_step()
    ensures data_barrier { answers 4 (asked (begun DataBarrier 2) files) ≡ outcomes.Begun ∷ outcomes.Sent 0 ∷ outcomes.Sent 1 ∷ outcomes.Done 0 ∷ [] }
    ensures data_sync { answers 4 (asked (begun DataSync 2) files) ≡ outcomes.Begun ∷ outcomes.Sent 0 ∷ outcomes.Sent 1 ∷ outcomes.Waiting (causes.Durable 1) ∷ [] }
    ensures file_barrier { answers 4 (asked (begun FileBarrier 2) files) ≡ outcomes.Begun ∷ outcomes.Sent 0 ∷ outcomes.Sent 1 ∷ outcomes.Waiting (causes.Commit 1) ∷ [] }
    ensures whole_sync { answers 7 (asked (begun WholeSync 0) files) ≡ outcomes.Begun ∷ outcomes.Sent 0 ∷ outcomes.Sent 1 ∷ outcomes.Sent 2 ∷ outcomes.Sent 3 ∷ outcomes.Sent 4 ∷ outcomes.Waiting (causes.Commit 1) ∷ [] }
    ensures plan { notes_of (commits 4 (calls 4 (asked (begun FileBarrier 2) files))) ≡ Page 2 0 1 ∷ Page 2 1 1 ∷ Super ∷ Commit 1 ∷ [] }
    ensures plan_barriers { barriers_of (commits 4 (calls 4 (asked (begun FileBarrier 2) files))) ≡ false ∷ false ∷ true ∷ true ∷ [] }
    ensures before { answer_of (commits 3 (calls 4 (asked (begun FileBarrier 2) files))) ≡ outcomes.Waiting (causes.Commit 1) }
    ensures done { answer_of (commits 4 (calls 4 (asked (begun FileBarrier 2) files))) ≡ outcomes.Done 0 }
    ensures later { notes_of (commits 3 (wanting sync_committed)) ≡ Page 2 0 1 ∷ Page 2 1 1 ∷ Super ∷ Commit 1 ∷ Commit 2 ∷ [] }
    ensures sync_committed { answer_of sync_committed ≡ outcomes.Waiting (causes.Durable 3) }
    ensures sync_unmoved { notes_of (run (FlushStep None ∷ []) sync_committed) ≡ Page 2 0 1 ∷ Page 2 1 1 ∷ Super ∷ Commit 1 ∷ [] }
    ensures sync_flush { notes_of (run (moved 3 ∷ FlushStep None ∷ []) sync_committed) ≡ Page 2 0 1 ∷ Page 2 1 1 ∷ Super ∷ Commit 1 ∷ Flush ∷ [] }
    ensures sync_waits { answer_of (run (moved 3 ∷ FlushStep None ∷ []) sync_committed) ≡ outcomes.Waiting (causes.Durable 3) }
    ensures sync_done { answer_of (run (moved 3 ∷ FlushStep None ∷ FlushStep (Some (Flushed 4)) ∷ []) sync_committed) ≡ outcomes.Done 0 }
{}

/// A law, which does nothing when it is called: in a session of so many requests. The request that is the last one goes out,
/// and the call that needs one more ends: for a page, for its commit block, for its flush. A flush that is submitted as the
/// last request still ends the wait.
pub fn limits_end_calls_at_the_request()
    ensures page { answers 3 (limited 1 (asked (begun FileBarrier 2) files)) ≡ outcomes.Begun ∷ outcomes.Sent 0 ∷ outcomes.SessionFull ∷ [] }
    ensures commit { answers 4 (limited 2 (asked (begun FileBarrier 2) files)) ≡ outcomes.Begun ∷ outcomes.Sent 0 ∷ outcomes.Sent 1 ∷ outcomes.SessionFull ∷ [] }
    ensures commit_fits { answers 4 (limited 3 (asked (begun FileBarrier 2) files)) ≡ outcomes.Begun ∷ outcomes.Sent 0 ∷ outcomes.Sent 1 ∷ outcomes.Waiting (causes.Commit 1) ∷ [] }
    ensures barrier_needs_none { answers 4 (limited 2 (asked (begun DataBarrier 2) files)) ≡ outcomes.Begun ∷ outcomes.Sent 0 ∷ outcomes.Sent 1 ∷ outcomes.Done 0 ∷ [] }
    ensures flush { answers 4 (limited 2 (asked (begun DataSync 2) files)) ≡ outcomes.Begun ∷ outcomes.Sent 0 ∷ outcomes.Sent 1 ∷ outcomes.SessionFull ∷ [] }
    ensures flush_fits { answers 4 (limited 3 (asked (begun DataSync 2) files)) ≡ outcomes.Begun ∷ outcomes.Sent 0 ∷ outcomes.Sent 1 ∷ outcomes.Waiting (causes.Durable 1) ∷ [] }
    ensures flush_sent { answer_of (run (moved 1 ∷ FlushStep None ∷ []) (calls 4 (limited 3 (asked (begun DataSync 2) files)))) ≡ outcomes.Waiting (causes.Durable 1) }
    ensures flush_done { answer_of (run (moved 1 ∷ FlushStep None ∷ FlushStep (Some (Flushed 2)) ∷ []) (calls 4 (limited 3 (asked (begun DataSync 2) files)))) ≡ outcomes.Done 0 }
    ensures begins { answers 2 (limited 0 (asked (begun FileBarrier 2) files)) ≡ outcomes.Begun ∷ outcomes.SessionFull ∷ [] }
    ensures plain { answer_of (limited 0 (asked (changing [] [] [] []) [])) ≡ outcomes.Done 0 }
{}

/// A law, which does nothing when it is called: behind two failed requests calls are read-only by the first of them, also one
/// that has begun; one that reads is answered. Once the power went, all are down.
pub fn failures_end_calls()
    ensures changes { answer_of (took (Moved 0 ∷ Failed 3 ∷ Failed 5 ∷ []) (asked (changing [] [] [] []) [])) ≡ outcomes.ReadOnly 3 }
    ensures on_its_way { answer_of (took (Moved 0 ∷ Failed 3 ∷ Failed 5 ∷ []) (begun_on FileBarrier files)) ≡ outcomes.ReadOnly 3 }
    ensures reads { answer_of (took (Failed 3 ∷ []) (asked (begun Reading 2) [])) ≡ outcomes.Done 0 }
    ensures down { answer_of (took (Failed 3 ∷ Cut ∷ []) (asked (changing [] [] [] []) [])) ≡ outcomes.Down }
    ensures begun_down { answer_of (took (Cut ∷ []) (begun_on FileBarrier files)) ≡ outcomes.Down }
    ensures reads_down { answer_of (took (Cut ∷ []) (asked (begun Reading 2) [])) ≡ outcomes.Down }
{}
