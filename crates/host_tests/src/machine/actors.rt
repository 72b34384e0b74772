//! What the actors do next.
ghost use Rattle.std.specs.Prelude.{◌≡◌, ◌⊎◌, ◌<◌, ◌≤◌, ◌+◌, ◌-◌, ℕ, Bool, true, false, List, [], ◌∷◌, ◌++◌, length, Option, Some, None, slice_index_or};
ghost use Rattle.blk_base.specs.Members.{In};
ghost use Rattle.order_model.specs.declared.completion.Completion.{Completion};
ghost use Rattle.order_model.specs.declared.completion.Completion.TheVariants as completions;
ghost use Rattle.order_model.specs.declared.note.Note.TheVariants as notes;
ghost use Rattle.order_model.specs.declared.request.Kind.TheVariants as puts;
ghost use Rattle.order_model.specs.declared.turn.Turn.TheVariants as turns;
ghost use Rattle.page_cache.specs.Pages.{dirty_page, put_page, marked};
ghost use Rattle.page_cache.specs.declared.cached_page.CachedPage.{CachedPage};
ghost use Rattle.page_cache.specs.declared.cached_page.PageState.TheVariants.{Loose, Firm};
ghost use Rattle.log_model.specs.Marks.{Logged};
ghost use Rattle.commit_actor.specs.Journal.{Idle, Closing};
ghost use Rattle.flush_actor.specs.declared.wait.Wait.{Wait};
ghost use Rattle.host_machine.specs.Host.{commit_step, writeback, flush_step, take_step};
ghost use Rattle.host_machine.specs.Model.{Model};
ghost use Rattle.host_machine.specs.State.{Host, Setup};
ghost use Rattle.host_tests.specs.machine.Asking.{GoesOn, HasRoom, HasNoRoom, HasStopped, IsOut, IsNotOut, NoFlushBehind, with_request};
ghost use Rattle.host_tests.specs.machine.Closing.{AreSent, with_phase, FitsLog, PassesLog};

/// A law, which does nothing when it is called: once the power went or a request failed, neither commit actor nor
/// write-back does anything, and the flush actor takes completions alone.
pub fn actors_stop_where_a_request_failed<T, V, C, R>()
    ensures commit { (m : Model T V C R) (u : Setup) (full : Bool) (s : Host V C R) → HasStopped s → commit_step m u full s ≡ record { host = s; turn = turns.Idle } }
    ensures writeback { (m : Model T V C R) (u : Setup) (full : Bool) (s : Host V C R) (pick : ℕ) → HasStopped s → writeback m u full s pick ≡ record { host = s; turn = turns.Idle } }
    ensures flush { (m : Model T V C R) (u : Setup) (full : Bool) (s : Host V C R) (c : Completion) → HasStopped s →
        ((flush_step m u full s (Some c)).host.journal.flush.taken ≡ s.journal.flush.taken ++ c ∷ []) × ((flush_step m u full s (Some c)).host.journal.flush.requests ≡ s.journal.flush.requests) }
    ensures idle { (m : Model T V C R) (u : Setup) (full : Bool) (s : Host V C R) → HasStopped s → flush_step m u full s None ≡ record { host = s; turn = turns.Idle } }
{}

/// A law, which does nothing when it is called: the running transaction is closed exactly where it is wanted and wants no
/// block that an earlier one holds. It needs no request for that.
pub fn wanted_transactions_are_closed<T, V, C, R>()
    ensures closes { (m : Model T V C R) (u : Setup) (full : Bool) (s : Host V C R) → GoesOn s → s.journal.phase ≡ Idle → s.journal.running.wanted ≡ true → s.journal.flush.conflicts.wanted ≡ [] →
        commit_step m u full s ≡ record { host = with_phase s Closing; turn = turns.Did } }
    ensures unwanted { (m : Model T V C R) (u : Setup) (full : Bool) (s : Host V C R) → s.journal.phase ≡ Idle → s.journal.running.wanted ≡ false →
        commit_step m u full s ≡ record { host = s; turn = turns.Idle } }
    ensures held { (m : Model T V C R) (u : Setup) (full : Bool) (s : Host V C R) (b : ℕ) (more : List ℕ) → s.journal.phase ≡ Idle → s.journal.flush.conflicts.wanted ≡ b ∷ more →
        commit_step m u full s ≡ record { host = s; turn = turns.Idle } }
{}

/// A law, which does nothing when it is called: once the pages of all files that the closing transaction changed are sent,
/// its plan is built where its log blocks fit into what is free of the log, also where they fill it: the cut is noted, no
/// request is needed, and the zones that wait for it go on waiting. With one block more, a request of the checkpoint goes out in place of that: the lowest body that
/// waits, or, where none is left, the superblock.
pub fn checkpoints_begin_where_the_log_is_full<T, V, C, R>()
    ensures fits { (m : Model T V C R) (u : Setup) (full : Bool) (s : Host V C R) → GoesOn s → s.journal.phase ≡ Closing → AreSent s → FitsLog u s →
        ((commit_step m u full s).turn ≡ turns.Did)
        × ((commit_step m u full s).host.cuts ≡ s.cuts ++ length s.history ∷ [])
        × ((commit_step m u full s).host.journal.running.number ≡ s.journal.running.number + 1)
        × ((commit_step m u full s).host.journal.flush.requests ≡ s.journal.flush.requests)
        × ((commit_step m u full s).host.volume ≡ s.volume) }
    ensures home { (m : Model T V C R) (u : Setup) (s : Host V C R) (h : Logged) (hs : List Logged) → GoesOn s → HasRoom s → s.journal.phase ≡ Closing → AreSent s → PassesLog u s → s.journal.ring.homes ≡ h ∷ hs →
        ((commit_step m u false s).host.journal.flush.notes ≡ s.journal.flush.notes ++ notes.Home h.block ∷ [])
        × ((commit_step m u false s).host.journal.ring.homes ≡ hs)
        × ((commit_step m u false s).host.journal.phase ≡ Closing) }
    ensures tail { (m : Model T V C R) (u : Setup) (s : Host V C R) → GoesOn s → HasRoom s → s.journal.phase ≡ Closing → AreSent s → PassesLog u s → s.journal.ring.homes ≡ [] →
        ((commit_step m u false s).host.journal.flush.requests ≡ s.journal.flush.requests ++ record {
          id = length s.journal.flush.requests;
          kind = puts.Put u.journal (u.writers.super (u.sequence + (s.journal.running.number - 1)) s.journal.ring.head);
          ordered = true;
          barrier = true;
        } ∷ [])
        × ((commit_step m u false s).host.journal.ring.used ≡ 0)
        × ((commit_step m u false s).host.journal.phase ≡ Closing) }
    ensures limit { (m : Model T V C R) (u : Setup) (full : Bool) (s : Host V C R) → GoesOn s → HasNoRoom s → s.journal.phase ≡ Closing → AreSent s → PassesLog u s →
        commit_step m u full s ≡ record { host = s; turn = turns.SessionFull } }
    ensures queue { (m : Model T V C R) (u : Setup) (s : Host V C R) → GoesOn s → HasRoom s → s.journal.phase ≡ Closing → AreSent s → PassesLog u s →
        commit_step m u true s ≡ record { host = s; turn = turns.QueueFull } }
{}

/// A law, which does nothing when it is called: a flush is due where a call needs a request durable whose completion was
/// taken, and no flush behind it is submitted. It is submitted before any completion is taken, and one that waits is left.
/// At the limit, and where the queue is full, the step does nothing. Where no call needs a request durable, a completion is
/// taken, if there is one.
pub fn due_flushes_go_before_completions<T, V, C, R>()
    ensures due { (m : Model T V C R) (u : Setup) (s : Host V C R) (next : Option Completion) (w : Wait) (id : ℕ) → GoesOn s → HasRoom s →
        In w s.journal.flush.waits → w.need ≡ Some id → In (completions.Moved id) s.journal.flush.taken → NoFlushBehind s id →
        flush_step m u false s next ≡ record { host = with_request s notes.Flush puts.Flush true true; turn = turns.Did } }
    ensures limit { (m : Model T V C R) (u : Setup) (full : Bool) (s : Host V C R) (next : Option Completion) (w : Wait) (id : ℕ) → GoesOn s → HasNoRoom s →
        In w s.journal.flush.waits → w.need ≡ Some id → In (completions.Moved id) s.journal.flush.taken → NoFlushBehind s id →
        flush_step m u full s next ≡ record { host = s; turn = turns.SessionFull } }
    ensures queue { (m : Model T V C R) (u : Setup) (s : Host V C R) (next : Option Completion) (w : Wait) (id : ℕ) → GoesOn s → HasRoom s →
        In w s.journal.flush.waits → w.need ≡ Some id → In (completions.Moved id) s.journal.flush.taken → NoFlushBehind s id →
        flush_step m u true s next ≡ record { host = s; turn = turns.QueueFull } }
    ensures taken { (m : Model T V C R) (u : Setup) (full : Bool) (s : Host V C R) (c : Completion) → ((w : Wait) → In w s.journal.flush.waits → w.need ≡ None) →
        ((flush_step m u full s (Some c)).host.journal.flush.taken ≡ s.journal.flush.taken ++ c ∷ []) × ((flush_step m u full s (Some c)).host.journal.flush.requests ≡ s.journal.flush.requests) }
    ensures none { (m : Model T V C R) (u : Setup) (full : Bool) (s : Host V C R) → ((w : Wait) → In w s.journal.flush.waits → w.need ≡ None) →
        flush_step m u full s None ≡ record { host = s; turn = turns.Idle } }
{}

/// A law, which does nothing when it is called: a completion can be taken by itself, whatever is due. Nothing is submitted
/// then.
pub fn completions_can_be_taken_whatever_is_due<T, V, C, R>()
    ensures taken { (m : Model T V C R) (u : Setup) (s : Host V C R) (c : Completion) → (take_step m u s (Some c)).host.journal.flush.taken ≡ s.journal.flush.taken ++ c ∷ [] }
    ensures submitted { (m : Model T V C R) (u : Setup) (s : Host V C R) (next : Option Completion) → (take_step m u s next).host.journal.flush.requests ≡ s.journal.flush.requests }
    ensures none { (m : Model T V C R) (u : Setup) (s : Host V C R) → take_step m u s None ≡ record { host = s; turn = turns.Idle } }
{}

/// A law, which does nothing when it is called: a page that the write-back sends goes without order, and is Loose, exactly
/// where the commit block of the transaction that took its zone is submitted. Else it goes in order, and is Firm. It is no
/// barrier.
pub fn pages_go_without_order_behind_a_commit<T, V, C, R>()
    ensures loose { (m : Model T V C R) (u : Setup) (s : Host V C R) (pick : ℕ) (p : CachedPage) → GoesOn s → HasRoom s → dirty_page s.pages pick ≡ Some p → IsOut s (slice_index_or s.owners p.block 0) →
        writeback m u false s pick ≡ record { host = with_request (record s { pages = put_page s.pages (marked p Loose) }) (notes.Page p.birth p.index p.version) (puts.Put p.block p.body) false false; turn = turns.Did } }
    ensures firm { (m : Model T V C R) (u : Setup) (s : Host V C R) (pick : ℕ) (p : CachedPage) → GoesOn s → HasRoom s → dirty_page s.pages pick ≡ Some p → IsNotOut s (slice_index_or s.owners p.block 0) →
        writeback m u false s pick ≡ record { host = with_request (record s { pages = put_page s.pages (marked p Firm) }) (notes.Page p.birth p.index p.version) (puts.Put p.block p.body) true false; turn = turns.Did } }
    ensures limit { (m : Model T V C R) (u : Setup) (full : Bool) (s : Host V C R) (pick : ℕ) (p : CachedPage) → GoesOn s → HasNoRoom s → dirty_page s.pages pick ≡ Some p →
        writeback m u full s pick ≡ record { host = s; turn = turns.SessionFull } }
    ensures queue { (m : Model T V C R) (u : Setup) (s : Host V C R) (pick : ℕ) (p : CachedPage) → GoesOn s → HasRoom s → dirty_page s.pages pick ≡ Some p →
        writeback m u true s pick ≡ record { host = s; turn = turns.QueueFull } }
    ensures none { (m : Model T V C R) (u : Setup) (full : Bool) (s : Host V C R) (pick : ℕ) → dirty_page s.pages pick ≡ None →
        writeback m u full s pick ≡ record { host = s; turn = turns.Idle } }
{}
