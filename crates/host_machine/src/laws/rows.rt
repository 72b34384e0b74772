//! Small sessions, computed step by step: what is submitted, and what is answered.
ghost use Rattle.std.specs.Prelude.{◌≡◌, ◌≤◌, Bool, true, false, [], ◌∷◌, length, map, Some};
ghost use Rattle.order_model.specs.declared.note.Note.TheVariants.{Page, Super, Revoke, Descriptor, Body, Commit, Home, Flush};
ghost use Rattle.flush_actor.specs.Part.{is_flush_note};
ghost use Rattle.flush_actor.specs.declared.call_kind.CallKind.TheVariants.{FileBarrier, FileSync};
ghost use Rattle.host_machine.specs.Causes as causes;
ghost use Rattle.host_machine.specs.Host.{advance};
ghost use Rattle.host_machine.specs.Outcomes as outcomes;
ghost use Rattle.host_machine.specs.State.{Begins};
ghost use Rattle.host_machine.specs.runs.Flushes.{count, is_sync_begin, WaitsForFlush, AreWaitedFor};
ghost use Rattle.host_machine.specs.runs.Runs.{Event};
ghost use Rattle.host_machine.specs.laws.Rows.{model, setup, notes_of, places_of, ordered_of, barriers_of, answers, ok, file_barrier_end, orderless_page_end, quarantine_synced, quarantine_end, full, conflict_held, conflict_end, wrapped, on_its_way, nothing_to_send, begun_in_closing, sync_sent, sync_moved, sync_flushing, sync_flushed, shared_moved, shared_flushing, shared_end, needing, flushed_too, with_one_more, revoked};

/// A law, which does nothing when it is called: `mkdir`, `create`, a write and an `fbarrier`, with no step of the device.
/// The page goes first, then superblock, descriptor, bodies and commit block; the last body and the commit block are
/// barriers.
pub fn file_barriers_wait_for_no_device()
    ensures notes { notes_of file_barrier_end ≡ Page 2 0 3 ∷ Super ∷ Descriptor 1 ∷ Body 1 2 ∷ Body 1 3 ∷ Body 1 4 ∷ Body 1 5 ∷ Body 1 6 ∷ Commit 1 ∷ [] }
    ensures places { places_of file_barrier_end ≡ Some 7 ∷ Some 64 ∷ Some 65 ∷ Some 66 ∷ Some 67 ∷ Some 68 ∷ Some 69 ∷ Some 70 ∷ Some 71 ∷ [] }
    ensures barriers { barriers_of file_barrier_end ≡ false ∷ false ∷ false ∷ false ∷ false ∷ false ∷ false ∷ true ∷ true ∷ [] }
    ensures answered { answers file_barrier_end ≡ ok ∷ ok ∷ ok ∷ Begins ∷ ok ∷ [] }
{}

/// A law, which does nothing when it is called: a page that the write-back sent without order is sent once more, in order,
/// by the `fdatabarrier` of its file; and a page of another file stays as it was sent.
pub fn orderless_pages_are_sent_again()
    ensures notes { notes_of orderless_page_end ≡ Page 1 0 3 ∷ Page 2 0 4 ∷ Super ∷ Descriptor 1 ∷ Body 1 2 ∷ Body 1 3 ∷ Body 1 4 ∷ Body 1 5 ∷ Commit 1 ∷ Page 1 0 7 ∷ Page 1 0 7 ∷ Page 2 0 10 ∷ [] }
    ensures ordered { ordered_of orderless_page_end ≡ true ∷ true ∷ true ∷ true ∷ true ∷ true ∷ true ∷ true ∷ true ∷ false ∷ true ∷ false ∷ [] }
    ensures barriers { barriers_of orderless_page_end ≡ false ∷ false ∷ false ∷ false ∷ false ∷ false ∷ false ∷ true ∷ true ∷ false ∷ true ∷ false ∷ [] }
    ensures answered { answers orderless_page_end ≡ ok ∷ ok ∷ ok ∷ ok ∷ Begins ∷ ok ∷ ok ∷ Begins ∷ ok ∷ ok ∷ [] }
{}

/// A law, which does nothing when it is called: with one zone for data, a file that is removed keeps it from another one
/// until the commit block of the removal is submitted; and the page of the other file goes out behind that.
pub fn freed_zones_wait_for_their_commit_block()
    ensures synced { answers quarantine_synced ≡ ok ∷ ok ∷ ok ∷ Begins ∷ ok ∷ ok ∷ [] }
    ensures waits { (advance model setup false quarantine_synced 0).step ≡ outcomes.Waiting (causes.Quarantine 1) }
    ensures notes { notes_of quarantine_end ≡ Page 1 0 3 ∷ Super ∷ Descriptor 1 ∷ Body 1 2 ∷ Body 1 3 ∷ Body 1 4 ∷ Body 1 5 ∷ Commit 1 ∷ Flush ∷ Descriptor 2 ∷ Body 2 2 ∷ Body 2 3 ∷ Body 2 4 ∷ Body 2 5 ∷ Commit 2 ∷ Page 2 0 7 ∷ [] }
    ensures answered { answers quarantine_end ≡ ok ∷ ok ∷ ok ∷ Begins ∷ ok ∷ ok ∷ ok ∷ [] }
    ensures held { quarantine_end.journal.flush.conflicts.held ≡ map (λ b. record { block = b; transaction = 2 }) (2 ∷ 3 ∷ 4 ∷ 5 ∷ []) }
{}

/// A law, which does nothing when it is called: an eleventh `mkdir` waits, since the transaction with ten has sixteen log
/// blocks; and a transaction that wants a block which an earlier one holds waits for it, until that one's commit block
/// has its completion.
pub fn calls_wait_for_room_and_for_held_blocks()
    ensures full { (advance model setup false full 0).step ≡ outcomes.Waiting (causes.TxFull 16) }
    ensures requests { length (notes_of conflict_held) ≡ 8 }
    ensures conflict { (advance model setup false conflict_held 0).step ≡ outcomes.Waiting (causes.Conflict 2 1) }
    ensures answered { answers conflict_end ≡ ok ∷ Begins ∷ ok ∷ ok ∷ Begins ∷ ok ∷ [] }
    ensures all { length (notes_of conflict_end) ≡ 15 }
{}

/// A law, which does nothing when it is called: in a log of nine places a second transaction of five log blocks first
/// sends home the bodies of the first, the last of them as a barrier, then the superblock as a barrier; its commit block
/// goes to the first place again. In a log of twelve, a body that the second transaction revokes is not sent home.
pub fn checkpoints_make_room_in_the_log()
    ensures notes { notes_of wrapped ≡ Super ∷ Descriptor 1 ∷ Body 1 2 ∷ Body 1 4 ∷ Body 1 5 ∷ Commit 1 ∷ Home 2 ∷ Home 4 ∷ Home 5 ∷ Super ∷ Descriptor 2 ∷ Body 2 2 ∷ Body 2 4 ∷ Body 2 5 ∷ Commit 2 ∷ [] }
    ensures places { places_of wrapped ≡ Some 64 ∷ Some 65 ∷ Some 66 ∷ Some 67 ∷ Some 68 ∷ Some 69 ∷ Some 2 ∷ Some 4 ∷ Some 5 ∷ Some 64 ∷ Some 70 ∷ Some 71 ∷ Some 72 ∷ Some 73 ∷ Some 65 ∷ [] }
    ensures barriers { barriers_of wrapped ≡ false ∷ false ∷ false ∷ false ∷ true ∷ true ∷ false ∷ false ∷ true ∷ true ∷ false ∷ false ∷ false ∷ true ∷ true ∷ [] }
    ensures revoked { notes_of revoked ≡ Super ∷ Descriptor 1 ∷ Body 1 2 ∷ Body 1 4 ∷ Body 1 6 ∷ Commit 1 ∷ Revoke 2 ∷ Descriptor 2 ∷ Body 2 2 ∷ Body 2 4 ∷ Commit 2 ∷ Home 2 ∷ Home 4 ∷ Super ∷ Descriptor 3 ∷ Body 3 2 ∷ Commit 3 ∷ [] }
{}

/// A law, which does nothing when it is called: an `fdatabarrier` on a file whose creation is on its way to the log waits
/// for that commit block; where it had nothing to send, it waits for the running transaction. A call that begins while a
/// transaction is closed is an entry of that transaction.
pub fn data_barriers_wait_where_they_sent_none()
    ensures on_its_way { (advance model setup false on_its_way 1).step ≡ outcomes.Waiting (causes.Commit 1) }
    ensures nothing_to_send { (advance model setup false nothing_to_send 1).step ≡ outcomes.Waiting (causes.Commit 2) }
    ensures cut { begun_in_closing.cuts ≡ 3 ∷ [] }
{}

/// A law, which does nothing when it is called: an `fsync` waits behind its commit block's submission and behind its
/// completion; one flush is submitted for it, and when that is answered it is done.
pub fn sync_calls_wait_for_one_flush()
    ensures sent { (advance model setup false sync_sent 0).step ≡ outcomes.Waiting (causes.Durable 5) }
    ensures moved { (advance model setup false sync_moved 0).step ≡ outcomes.Waiting (causes.Durable 5) }
    ensures flush { notes_of sync_flushing ≡ Super ∷ Descriptor 1 ∷ Body 1 2 ∷ Body 1 4 ∷ Body 1 5 ∷ Commit 1 ∷ Flush ∷ [] }
    ensures flushing { (advance model setup false sync_flushing 0).step ≡ outcomes.Waiting (causes.Durable 5) }
    ensures flushed { (advance model setup false sync_flushed 0).step ≡ outcomes.Done 0 }
{}

/// A law, which does nothing when it is called: two `fsync` calls of one transaction wait for a flush, and once it is
/// submitted neither does. Where an `fbarrier` follows, nobody waits for a flush, and would not if that call or one that has
/// ended needed a request durable. A flush that went out then would make no more of them than there are sync calls, so the
/// count allows it; that each is waited for does not.
pub fn one_flush_serves_two_sync_calls()
    ensures first { (w : WaitsForFlush model.kind shared_moved) × (w.thread ≡ 0) }
    ensures second { (w : WaitsForFlush model.kind shared_moved) × (w.thread ≡ 1) }
    ensures served { WaitsForFlush model.kind shared_flushing → ⊥ }
    ensures flush { notes_of shared_end ≡ Super ∷ Descriptor 1 ∷ Body 1 2 ∷ Body 1 4 ∷ Body 1 5 ∷ Commit 1 ∷ Flush ∷ [] }
    ensures answered { answers shared_end ≡ ok ∷ Begins ∷ Begins ∷ ok ∷ ok ∷ Begins ∷ [] }
    ensures barrier { (advance model setup false shared_end 1).step ≡ outcomes.Waiting (causes.Commit 2) }
    ensures nobody { WaitsForFlush model.kind shared_end → ⊥ }
    ensures barriers { WaitsForFlush model.kind (needing 1 FileBarrier) → ⊥ }
    ensures ended { WaitsForFlush model.kind (needing 0 FileSync) → ⊥ }
    ensures counted { count is_flush_note (notes_of (flushed_too shared_end)) ≤ count (is_sync_begin model.kind) (flushed_too shared_end).history }
    ensures refused { (e : Event) → AreWaitedFor model.kind with_one_more (e ∷ []) → ⊥ }
{}
