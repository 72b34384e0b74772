//! Small sessions worked out by hand: where a transaction and the log are full, to the block.
ghost use Rattle.std.specs.Prelude.{◌≡◌, true, false, [], ◌∷◌, Some};
ghost use Rattle.order_model.specs.declared.note.Note.TheVariants.{Super, Revoke, Descriptor, Body, Commit, Home};
ghost use Rattle.commit_actor.specs.Journal.{Idle};
ghost use Rattle.journal_ring.specs.LogRing.{commit_bodies};
ghost use Rattle.journal_ring.specs.running.Closing.{writers};
ghost use Rattle.journal_ring.specs.running.Open.{quota, sequence_of};
ghost use Rattle.journal_ring.specs.running.Running.{log_blocks_for};
ghost use Rattle.host_machine.specs.Causes as causes;
ghost use Rattle.host_machine.specs.Outcomes as outcomes;
ghost use Rattle.host_machine.specs.laws.Rows.{setup, notes_of, barriers_of, places_of};
ghost use Rattle.host_tests.specs.machine.FullHosts.{running_with, needs_zones, log_with, revoking, journal_of, logged, bodies_of};
ghost use Rattle.host_tests.specs.machine.Samples.{calls, commits, answer_of};

/// A law, which does nothing when it is called: how many log blocks so many bodies and revokes need, where a descriptor has
/// up to 122 bodies and a revoke block up to 252 numbers.
pub fn log_blocks_are_counted()
    ensures none { log_blocks_for setup.writers 0 0 ≡ 1 }
    ensures one { log_blocks_for setup.writers 1 0 ≡ 3 }
    ensures one_descriptor { log_blocks_for setup.writers 122 0 ≡ 124 }
    ensures two_descriptors { log_blocks_for setup.writers 123 0 ≡ 126 }
    ensures one_revoke_block { log_blocks_for setup.writers 0 252 ≡ 2 }
    ensures two_revoke_blocks { log_blocks_for setup.writers 0 253 ≡ 3 }
{}

/// A law, which does nothing when it is called: how many bodies a descriptor and how many numbers a revoke block of a session
/// has, with tags of 32 and of 64 bits; a transaction has a quarter of the log's blocks, rounded down; and transaction k
/// has the journal's sequence plus k - 1.
pub fn journals_have_these_numbers()
    ensures tags { (writers (journal_of 128 1)).most_tags ≡ 122 }
    ensures numbers { (writers (journal_of 128 1)).most_revokes ≡ 252 }
    ensures wide_tags { (writers (journal_of 128 3)).most_tags ≡ 82 }
    ensures wide_numbers { (writers (journal_of 128 3)).most_revokes ≡ 126 }
    ensures quarter { quota (journal_of 128 1) ≡ 31 }
    ensures quarter_more { quota (journal_of 129 1) ≡ 32 }
    ensures first { sequence_of (journal_of 128 1) 1 ≡ 7 }
    ensures third { sequence_of (journal_of 128 1) 3 ≡ 9 }
{}

/// A law, which does nothing when it is called: with a share of 31 log blocks and one block of the map of zones, a
/// transaction of 13 bodies and 236 revokes takes one call more: with 13 bodies and 520 revokes it would have 31 log blocks.
/// With one body or one revoke more it is full, which is told with the log blocks that it has, and it is then wanted.
pub fn shares_are_full_to_the_block()
    ensures fits { answer_of (running_with 13 236) ≡ outcomes.Done 0 }
    ensures body { answer_of (running_with 14 236) ≡ outcomes.Waiting (causes.TxFull 17) }
    ensures revoke { answer_of (running_with 13 237) ≡ outcomes.Waiting (causes.TxFull 16) }
    ensures fits_unwanted { (calls 1 (running_with 13 236)).journal.running.wanted ≡ false }
    ensures body_wanted { (calls 1 (running_with 14 236)).journal.running.wanted ≡ true }
{}

/// A law, which does nothing when it is called: transaction 3 runs, one zone is free, two wait for transactions that are
/// closed, and one waits for transaction 3. A call that needs one zone is done. One that needs two or three waits and wants
/// nothing; one that needs four waits, and the transaction becomes wanted.
pub fn zones_are_lacking_to_the_zone()
    ensures one { answer_of (needs_zones (1 ∷ [])) ≡ outcomes.Done 0 }
    ensures two { answer_of (needs_zones (1 ∷ 2 ∷ [])) ≡ outcomes.Waiting (causes.Quarantine 1) }
    ensures three { answer_of (needs_zones (1 ∷ 2 ∷ 3 ∷ [])) ≡ outcomes.Waiting (causes.Quarantine 2) }
    ensures four { answer_of (needs_zones (1 ∷ 2 ∷ 3 ∷ 4 ∷ [])) ≡ outcomes.Waiting (causes.Quarantine 3) }
    ensures two_unwanted { (calls 1 (needs_zones (1 ∷ 2 ∷ []))).journal.running.wanted ≡ false }
    ensures three_unwanted { (calls 1 (needs_zones (1 ∷ 2 ∷ 3 ∷ []))).journal.running.wanted ≡ false }
    ensures four_wanted { (calls 1 (needs_zones (1 ∷ 2 ∷ 3 ∷ 4 ∷ []))).journal.running.wanted ≡ true }
{}

/// A law, which does nothing when it is called: transaction 3 needs five log blocks, in a log of nine places. With four in
/// use it fits exactly, and its plan is built. With five in use the bodies go home first, in rising order and the last of
/// them as a barrier, then the superblock with its sequence and its first place, as a barrier; then the plan is built. The
/// plan goes to the places from the head on and round the end of the log, with its sequence, and the last request before the
/// commit block is a barrier; then its bodies wait beside the older ones.
pub fn checkpoints_begin_at_the_block()
    ensures fits { (commits 1 (log_with 4 7)).cuts ≡ 0 ∷ [] }
    ensures fits_sends_nothing { notes_of (commits 1 (log_with 4 7)) ≡ [] }
    ensures not_yet { (commits 4 (log_with 5 7)).cuts ≡ [] }
    ensures notes { notes_of (commits 4 (log_with 5 7)) ≡ Home 2 ∷ Home 4 ∷ Home 6 ∷ Super ∷ [] }
    ensures barriers { barriers_of (commits 4 (log_with 5 7)) ≡ false ∷ false ∷ true ∷ true ∷ [] }
    ensures bodies { bodies_of (commits 4 (log_with 5 7)) ≡ (2 ∷ []) ∷ (4 ∷ []) ∷ (6 ∷ []) ∷ (900 ∷ 3 ∷ 7 ∷ []) ∷ [] }
    ensures free { (commits 4 (log_with 5 7)).journal.ring.used ≡ 0 }
    ensures then_built { (commits 5 (log_with 5 7)).cuts ≡ 0 ∷ [] }
    ensures used { (commits 5 (log_with 5 7)).journal.ring.used ≡ 5 }
    ensures head { (commits 5 (log_with 5 7)).journal.ring.head ≡ 3 }
    ensures next { (commits 5 (log_with 5 7)).journal.running ≡ record { number = 4; touched = []; revoked = []; changed = []; wanted = false } }
    ensures plan { bodies_of (commits 6 (log_with 4 7)) ≡ (902 ∷ 3 ∷ []) ∷ (20 ∷ []) ∷ (21 ∷ []) ∷ (22 ∷ []) ∷ (903 ∷ 3 ∷ []) ∷ [] }
    ensures plan_places { places_of (commits 6 (log_with 4 7)) ≡ Some 71 ∷ Some 72 ∷ Some 73 ∷ Some 65 ∷ Some 66 ∷ [] }
    ensures plan_barriers { barriers_of (commits 6 (log_with 4 7)) ≡ false ∷ false ∷ false ∷ true ∷ true ∷ [] }
    ensures homes { (commits 6 (log_with 4 7)).journal.ring.homes ≡ logged 2 2 ∷ logged 4 4 ∷ logged 6 6 ∷ logged 20 20 ∷ logged 21 21 ∷ logged 22 22 ∷ [] }
    ensures idle { (commits 6 (log_with 4 7)).journal.phase ≡ Idle }
{}

/// A law, which does nothing when it is called: when a commit block is submitted, the bodies of blocks that its transaction
/// revoked wait no more, and its own bodies wait in rising order, in the place of older ones of their blocks; until then all
/// stays. The revoke block goes first, then the descriptor with its bodies.
pub fn commit_blocks_bring_bodies_in()
    ensures homes { (commit_bodies (6 ∷ []) (logged 4 44 ∷ logged 5 55 ∷ []) (log_with 5 7).journal.ring).homes ≡ logged 2 2 ∷ logged 4 44 ∷ logged 5 55 ∷ [] }
    ensures revoked { (commits 7 revoking).journal.ring.homes ≡ logged 2 2 ∷ logged 6 6 ∷ logged 20 20 ∷ logged 21 21 ∷ logged 22 22 ∷ [] }
    ensures order { notes_of (commits 7 revoking) ≡ Revoke 3 ∷ Descriptor 3 ∷ Body 3 20 ∷ Body 3 21 ∷ Body 3 22 ∷ Commit 3 ∷ [] }
    ensures not_before { (commits 6 revoking).journal.ring.homes ≡ logged 2 2 ∷ logged 4 4 ∷ logged 6 6 ∷ [] }
    ensures revoked_first { (commit_bodies (6 ∷ []) (logged 6 66 ∷ []) (log_with 5 7).journal.ring).homes ≡ logged 2 2 ∷ logged 4 4 ∷ logged 6 66 ∷ [] }
{}
