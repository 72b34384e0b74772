//! Small sessions worked out by hand: pages, barriers and what calls wait for.
ghost use Rattle.std.specs.Prelude.{◌≡◌, true, false, [], ◌∷◌, length, Some, None};
ghost use Rattle.order_model.specs.declared.note.Note.TheVariants.{Page, Flush, Commit};
ghost use Rattle.page_cache.specs.declared.cached_page.PageState.TheVariants.{Clean, Dirty, Firm};
ghost use Rattle.commit_actor.specs.Journal.{Closing};
ghost use Rattle.flush_actor.specs.declared.call_kind.CallKind.TheVariants.{FileBarrier, DataBarrier, FileSync, DataSync, WholeSync};
ghost use Rattle.host_machine.specs.Causes as causes;
ghost use Rattle.host_machine.specs.Outcomes as outcomes;
ghost use Rattle.host_machine.specs.laws.Rows.{WriteBack, run, notes_of, ordered_of, barriers_of};
ghost use Rattle.host_tests.specs.machine.Samples.{page, files, begun_on, in_phase, changed, with_page, without_page, submitted, waiting_for, toward, calls, commits, answer_of, list_of, begin_of, targets_of, needs_of, states_of, sent_one_early, two_changed, both_gone, changed_before, callers_of_one};

/// A law, which does nothing when it is called: two of three files were changed. While the transaction is closed their
/// unsent pages go out, file by file and each in order of index, in order and without a barrier. Pages of the file that was
/// not changed stay, and so do those that were sent. Then the plan is built, which submits nothing.
pub fn pages_of_changed_files_go_in_order()
    ensures sent { notes_of (commits 4 two_changed) ≡ Page 2 0 1 ∷ Page 2 1 1 ∷ Page 3 0 1 ∷ Page 3 1 1 ∷ [] }
    ensures ordered { ordered_of (commits 4 two_changed) ≡ true ∷ true ∷ true ∷ true ∷ [] }
    ensures barriers { barriers_of (commits 4 two_changed) ≡ false ∷ false ∷ false ∷ false ∷ [] }
    ensures states { states_of (commits 5 two_changed) ≡ Dirty ∷ Firm ∷ Firm ∷ Firm ∷ Clean ∷ Firm ∷ Firm ∷ [] }
    ensures built { (commits 4 two_changed).cuts ≡ [] }
    ensures cut { (commits 5 two_changed).cuts ≡ 1 ∷ [] }
    ensures no_more { length (notes_of (commits 5 two_changed)) ≡ 4 }
{}

/// A law, which does nothing when it is called: a call lists the unsent pages of its file when it begins, `sync` those of
/// all files, by file and then by index; and it sends them in this order. A page that is written behind the Begin is not
/// sent by it, nor one that it has passed; one that went, or was sent by others, is passed over.
pub fn begun_calls_send_what_they_listed()
    ensures number { begin_of (begun_on FileSync files) ≡ 1 }
    ensures file { list_of (begun_on FileSync files) ≡ (2, 0) ∷ (2, 1) ∷ [] }
    ensures of_data { list_of (begun_on DataBarrier files) ≡ (2, 0) ∷ (2, 1) ∷ [] }
    ensures all { list_of (begun_on WholeSync files) ≡ (1, 0) ∷ (2, 0) ∷ (2, 1) ∷ (3, 0) ∷ (3, 1) ∷ [] }
    ensures sent { notes_of (calls 6 (begun_on WholeSync files)) ≡ Page 1 0 1 ∷ Page 2 0 1 ∷ Page 2 1 1 ∷ Page 3 0 1 ∷ Page 3 1 1 ∷ [] }
    ensures ordered { ordered_of (calls 6 (begun_on WholeSync files)) ≡ true ∷ true ∷ true ∷ true ∷ true ∷ [] }
    ensures barriers { barriers_of (calls 6 (begun_on WholeSync files)) ≡ false ∷ false ∷ false ∷ false ∷ false ∷ [] }
    ensures later { notes_of (calls 3 (with_page (page 2 2 Dirty) (begun_on FileSync files))) ≡ Page 2 0 1 ∷ Page 2 1 1 ∷ [] }
    ensures passed { notes_of (calls 3 (with_page (page 2 0 Dirty) (calls 1 (begun_on FileSync files)))) ≡ Page 2 0 1 ∷ Page 2 1 1 ∷ [] }
    ensures gone { notes_of (calls 2 (without_page 2 0 (begun_on FileSync files))) ≡ Page 2 1 1 ∷ [] }
    ensures sent_already { notes_of (calls 2 (with_page (page 2 0 Firm) (begun_on FileSync files))) ≡ Page 2 1 1 ∷ [] }
{}

/// A law, which does nothing when it is called: the page that a data call sends as the last one left is a barrier, by what
/// is unsent when it is sent, and no other one is; `fbarrier` and `fsync` send none. Having sent one is enough, also where
/// a page went out behind it.
pub fn last_pages_of_data_calls_are_barriers()
    ensures of_data { barriers_of (calls 2 (begun_on DataBarrier files)) ≡ false ∷ true ∷ [] }
    ensures sync { barriers_of (calls 2 (begun_on DataSync files)) ≡ false ∷ true ∷ [] }
    ensures file { barriers_of (calls 2 (begun_on FileBarrier files)) ≡ false ∷ false ∷ [] }
    ensures file_sync { barriers_of (calls 2 (begun_on FileSync files)) ≡ false ∷ false ∷ [] }
    ensures kept { barriers_of sent_one_early ≡ true ∷ false ∷ [] }
    ensures kept_done { answer_of sent_one_early ≡ outcomes.Done 0 }
    ensures left { barriers_of (calls 1 (with_page (page 2 1 Firm) (begun_on DataBarrier files))) ≡ true ∷ [] }
    ensures again { barriers_of (calls 1 (with_page (page 2 1 Dirty) (calls 1 (with_page (page 2 1 Firm) (begun_on DataBarrier files))))) ≡ true ∷ true ∷ [] }
{}

/// A law, which does nothing when it is called: an `fdatabarrier` that sent a barrier is done, where no transaction changed
/// its file whose commit block is not submitted. Else the latest such one is its target: the running one becomes wanted, and
/// one whose log blocks are on their way does not make another one wanted. Where it sent no barrier, the running transaction
/// is the target. An `fbarrier` waits for the running one in any case.
pub fn data_barriers_wait_for_changes_alone()
    ensures done { answer_of (calls 2 (begun_on DataBarrier files)) ≡ outcomes.Done 0 }
    ensures others { answer_of (calls 2 (changed 1 (1 ∷ 3 ∷ []) (begun_on DataBarrier files))) ≡ outcomes.Done 0 }
    ensures none_sent { answer_of both_gone ≡ outcomes.Waiting (causes.Commit 1) }
    ensures none_sent_wants { (calls 1 both_gone).journal.running.wanted ≡ true }
    ensures running { answer_of (calls 2 (changed 1 (2 ∷ []) (begun_on DataBarrier files))) ≡ outcomes.Waiting (causes.Commit 1) }
    ensures running_wants { (calls 3 (changed 1 (2 ∷ []) (begun_on DataBarrier files))).journal.running.wanted ≡ true }
    ensures before { targets_of (calls 3 (changed_before [])) ≡ Some 1 ∷ [] }
    ensures before_wants { (calls 3 (changed_before [])).journal.running.wanted ≡ false }
    ensures built { targets_of (calls 1 (commits 1 (in_phase Closing (changed 1 (2 ∷ []) both_gone)))) ≡ Some 1 ∷ [] }
    ensures both { targets_of (calls 3 (changed_before (2 ∷ []))) ≡ Some 2 ∷ [] }
    ensures out { answer_of (calls 2 (changed 2 [] (begun_on DataBarrier files))) ≡ outcomes.Done 0 }
    ensures file { targets_of (calls 3 (changed 5 [] (begun_on FileBarrier files))) ≡ Some 5 ∷ [] }
    ensures file_wants { (calls 3 (changed 5 [] (begun_on FileBarrier files))).journal.running.wanted ≡ true }
{}

/// A law, which does nothing when it is called: an `fdatasync` that waits for no transaction needs the last put that was
/// submitted durable, which is no flush, and is done where there is none. With a transaction as its target it needs, in the
/// first step that finds the commit block submitted, the last put of then, and not the commit block.
pub fn data_syncs_need_the_last_put()
    ensures last { answer_of (calls 2 (begun_on DataSync files)) ≡ outcomes.Waiting (causes.Durable 1) }
    ensures needs { needs_of (calls 3 (begun_on DataSync files)) ≡ Some 1 ∷ [] }
    ensures no_flush { answer_of (submitted (Page 1 0 1 ∷ Flush ∷ []) (begun_on DataSync [])) ≡ outcomes.Waiting (causes.Durable 0) }
    ensures none { answer_of (begun_on DataSync []) ≡ outcomes.Done 0 }
    ensures flush_alone { answer_of (submitted (Flush ∷ []) (begun_on DataSync [])) ≡ outcomes.Done 0 }
    ensures target { targets_of (calls 3 (changed 1 (2 ∷ []) (begun_on DataSync files))) ≡ Some 1 ∷ [] }
    ensures behind { answer_of (submitted (Commit 1 ∷ Page 3 0 1 ∷ []) (waiting_for (toward DataSync 1 ∷ []) (changed 2 [] (begun_on DataSync [])))) ≡ outcomes.Waiting (causes.Durable 1) }
{}

/// A law, which does nothing when it is called: with the submission of a commit block, `fsync` and `sync` calls that have its
/// transaction as target need it durable, without a step of theirs. Calls with another target, data calls and barrier calls
/// do not.
pub fn commit_blocks_are_needed_by_their_calls()
    ensures needs { needs_of (commits 1 callers_of_one) ≡ Some 1 ∷ Some 1 ∷ None ∷ None ∷ None ∷ None ∷ [] }
{}

/// A law, which does nothing when it is called: a page number of the write-back counts Dirty pages alone, by file and index.
pub fn write_backs_count_dirty_pages()
    ensures first { notes_of (run (WriteBack 0 ∷ []) (begun_on FileBarrier files)) ≡ Page 1 0 1 ∷ [] }
    ensures second { notes_of (run (WriteBack 1 ∷ []) (begun_on FileBarrier files)) ≡ Page 2 0 1 ∷ [] }
    ensures third { notes_of (run (WriteBack 2 ∷ []) (begun_on FileBarrier files)) ≡ Page 3 1 1 ∷ [] }
    ensures past { notes_of (run (WriteBack 3 ∷ []) (begun_on FileBarrier files)) ≡ [] }
{}
