//! Small sessions worked out by hand: held blocks, flushes, and what a call leaves.
ghost use Rattle.std.specs.Prelude.{◌≡◌, false, [], ◌∷◌, Some, None, slice_index_or};
ghost use Rattle.order_model.specs.declared.completion.Completion.TheVariants.{Moved, Flushed};
ghost use Rattle.order_model.specs.declared.note.Note.TheVariants.{Page, Flush, Commit};
ghost use Rattle.page_cache.specs.declared.cached_page.PageState.TheVariants.{Dirty};
ghost use Rattle.flush_actor.specs.declared.call_kind.CallKind.TheVariants.{FileBarrier, FileSync, DataSync, WholeSync};
ghost use Rattle.host_machine.specs.laws.Rows.{FlushStep, run, times, moved, notes_of};
ghost use Rattle.host_tests.specs.machine.HeldHosts.{held_of, wanted_of, hold, sync_host, toward_need, closing_three, call_left};
ghost use Rattle.host_tests.specs.machine.Samples.{holding, toward, commits};

/// A law, which does nothing when it is called: a transaction holds its blocks from the building of its plan on, also
/// those that an earlier one held. It lets them go when the completion of its commit block is taken, and not by that of
/// another request. While a call that waits for the device has it as target, it lets them go only when a flush behind its
/// commit block is taken. What another one holds stays held, and what nobody holds any more is wanted no more.
pub fn holds_end_with_commit_block_or_flush()
    ensures running { held_of closing_three ≡ [] }
    ensures built { held_of (commits 1 closing_three) ≡ hold 4 3 ∷ hold 7 3 ∷ [] }
    ensures again { held_of (commits 1 (holding (hold 4 1 ∷ hold 9 2 ∷ []) [] closing_three)) ≡ hold 4 3 ∷ hold 7 3 ∷ hold 9 2 ∷ [] }
    ensures ends { held_of (run (moved 1 ∷ []) (sync_host (Page 1 0 1 ∷ Commit 1 ∷ []) [] [])) ≡ hold 7 2 ∷ [] }
    ensures wanted { wanted_of (run (moved 1 ∷ []) (sync_host (Page 1 0 1 ∷ Commit 1 ∷ []) [] [])) ≡ 7 ∷ [] }
    ensures another { held_of (run (moved 0 ∷ []) (sync_host (Page 1 0 1 ∷ Commit 1 ∷ []) [] [])) ≡ hold 4 1 ∷ hold 7 2 ∷ [] }
    ensures file_sync { held_of (run (moved 0 ∷ []) (sync_host (Commit 1 ∷ []) (toward FileSync 1 ∷ []) [])) ≡ hold 4 1 ∷ hold 7 2 ∷ [] }
    ensures data_sync { held_of (run (moved 0 ∷ []) (sync_host (Commit 1 ∷ []) (toward DataSync 1 ∷ []) [])) ≡ hold 4 1 ∷ hold 7 2 ∷ [] }
    ensures whole_sync { held_of (run (moved 0 ∷ []) (sync_host (Commit 1 ∷ []) (toward FileBarrier 1 ∷ toward WholeSync 1 ∷ []) [])) ≡ hold 4 1 ∷ hold 7 2 ∷ [] }
    ensures barrier { held_of (run (moved 0 ∷ []) (sync_host (Commit 1 ∷ []) (toward FileBarrier 1 ∷ []) [])) ≡ hold 7 2 ∷ [] }
    ensures other_target { held_of (run (moved 0 ∷ []) (sync_host (Commit 1 ∷ []) (toward FileSync 2 ∷ []) [])) ≡ hold 7 2 ∷ [] }
    ensures flushed { held_of (run (FlushStep (Some (Flushed 1)) ∷ []) (sync_host (Commit 1 ∷ Flush ∷ []) (toward FileSync 1 ∷ []) [])) ≡ hold 7 2 ∷ [] }
    ensures before { held_of (run (FlushStep (Some (Flushed 0)) ∷ []) (sync_host (Flush ∷ Commit 1 ∷ []) (toward FileSync 1 ∷ []) [])) ≡ hold 4 1 ∷ hold 7 2 ∷ [] }
    ensures both { held_of (run (FlushStep (Some (Flushed 2)) ∷ []) (sync_host (Commit 1 ∷ Commit 2 ∷ Flush ∷ []) [] [])) ≡ [] }
{}

/// A law, which does nothing when it is called: no flush is submitted while the completion of the request that a call needs
/// durable was not taken. Then one is, and no second one: one flush serves all calls whose requests stand before it. A call
/// that needs a later request has a flush of its own.
pub fn one_flush_serves_all_before_it()
    ensures not_moved { notes_of (run (FlushStep None ∷ []) (sync_host (Commit 1 ∷ Page 1 0 1 ∷ []) (toward_need 0 ∷ []) (Moved 1 ∷ []))) ≡ Commit 1 ∷ Page 1 0 1 ∷ [] }
    ensures one { notes_of (run (times 3 (FlushStep None)) (sync_host (Commit 1 ∷ Page 1 0 1 ∷ []) (toward_need 0 ∷ []) (Moved 0 ∷ []))) ≡ Commit 1 ∷ Page 1 0 1 ∷ Flush ∷ [] }
    ensures both { notes_of (run (times 3 (FlushStep None)) (sync_host (Commit 1 ∷ Commit 2 ∷ []) (toward_need 0 ∷ toward_need 1 ∷ []) (Moved 0 ∷ Moved 1 ∷ []))) ≡ Commit 1 ∷ Commit 2 ∷ Flush ∷ [] }
    ensures later { notes_of (run (times 3 (FlushStep None)) (sync_host (Commit 1 ∷ Flush ∷ Commit 2 ∷ []) (toward_need 0 ∷ toward_need 2 ∷ []) (Moved 0 ∷ Moved 2 ∷ []))) ≡ Commit 1 ∷ Flush ∷ Commit 2 ∷ Flush ∷ [] }
    ensures same { notes_of (run (times 3 (FlushStep None)) (sync_host (Commit 1 ∷ Flush ∷ []) (toward_need 0 ∷ []) (Moved 0 ∷ []))) ≡ Commit 1 ∷ Flush ∷ [] }
{}

/// A law, which does nothing when it is called: what the second entry of a history leaves, a call in transaction 3 that
/// touched the blocks 4, 5, 8 and 9, freed and revoked block 9 of these, wrote two blocks of file 1 and unmapped one. Blocks
/// are noted but for the revoked one; of those that an earlier transaction holds, 4 and 9, the one that will be logged is
/// wanted. The written pages are Dirty, with the entry's number and the new bytes, and a page that is new has its zone from
/// transaction 3. The freed zone waits for transaction 3.
pub fn calls_leave_what_they_did()
    ensures touched { call_left.journal.running.touched ≡ 2 ∷ 4 ∷ 5 ∷ 8 ∷ [] }
    ensures revoked { call_left.journal.running.revoked ≡ 6 ∷ 9 ∷ [] }
    ensures changed { call_left.journal.running.changed ≡ 1 ∷ 2 ∷ [] }
    ensures number { call_left.journal.running.number ≡ 3 }
    ensures unwanted { call_left.journal.running.wanted ≡ false }
    ensures wanted { wanted_of call_left ≡ 4 ∷ [] }
    ensures pages { call_left.pages ≡ record { birth = 1; index = 0; block = 10; body = 10 ∷ []; version = 2; state = Dirty } ∷ record { birth = 1; index = 2; block = 12; body = 12 ∷ []; version = 2; state = Dirty } ∷ [] }
    ensures old_zone { slice_index_or call_left.owners 10 0 ≡ 2 }
    ensures new_zone { slice_index_or call_left.owners 12 0 ≡ 3 }
    ensures waits { call_left.volume.waiting ≡ record { zone = 9; transaction = 3 } ∷ [] }
    ensures nothing_sent { notes_of call_left ≡ [] }
{}
