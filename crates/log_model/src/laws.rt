//! The laws of transactions, logs and rings of places, each a public function that does nothing when it is called.
ghost use Rattle.std.specs.Prelude.{◌≡◌, ◌≢◌, ℕ, ◌+◌, ◌<◌, ◌≤◌, ◌⊎◌, List, [], ◌∷◌, ◌++◌, Some, None};
ghost use Rattle.blk_base.specs.Members.{In};
ghost use Rattle.log_model.specs.Marks.{Transaction, Keep, Clear, Set, followed, mark_in, marked_body, replayed, transactions_from};
ghost use Rattle.log_model.specs.LastLogged.{uncancelled, last_of, SaysNothing, IsLastLogged, IsRevokedLast};
ghost use Rattle.log_model.specs.Grammar.{IsLogOf};
ghost use Rattle.log_model.specs.Log.{Header, Commits, Format, Reader, Reading, done, take_blocks, from_sequence, Spells};
ghost use Rattle.log_model.specs.Parts.{Part, AreParts, blocks_of_parts, bodies_of_parts, revokes_of_parts};
ghost use Rattle.log_model.specs.Ring.{Ring, IsPlace, places_in, place_after, places_on, places_from};

/// A law, which does nothing when it is called: the mark of transactions on a block has the last logged body that
/// no revoke of its own or of a later transaction cancels, and each mark is told by what stands in the log.
pub fn marks_are_last_logged_bodies()
    ensures printed { (txs : List Transaction) (b : ℕ) →
        marked_body (mark_in txs b) ≡ last_of (uncancelled txs b) }
    ensures set { (txs : List Transaction) (b : ℕ) (x : List ℕ) →
        IsLastLogged txs b x → mark_in txs b ≡ Set x }
    ensures only_set { (txs : List Transaction) (b : ℕ) (x : List ℕ) →
        mark_in txs b ≡ Set x → IsLastLogged txs b x }
    ensures clear { (txs : List Transaction) (b : ℕ) →
        IsRevokedLast txs b → mark_in txs b ≡ Clear }
    ensures only_clear { (txs : List Transaction) (b : ℕ) →
        mark_in txs b ≡ Clear → IsRevokedLast txs b }
    ensures keep { (txs : List Transaction) (b : ℕ) →
        SaysNothing txs b → mark_in txs b ≡ Keep }
    ensures only_keep { (txs : List Transaction) (b : ℕ) →
        mark_in txs b ≡ Keep → SaysNothing txs b }
{}

/// A law, which does nothing when it is called: what a replay leaves in each block, and that a replay that was
/// cut may begin again over any part of what it wrote.
pub fn replays_leave_last_logged_bodies()
    ensures body { (txs : List Transaction) (disk : ℕ → List ℕ) (b : ℕ) (x : List ℕ) →
        last_of (uncancelled txs b) ≡ Some x → replayed txs disk b ≡ x }
    ensures old { (txs : List Transaction) (disk : ℕ → List ℕ) (b : ℕ) →
        last_of (uncancelled txs b) ≡ None → replayed txs disk b ≡ disk b }
    ensures again { (txs : List Transaction) (disk now : ℕ → List ℕ) (b : ℕ) →
        (now b ≡ disk b) ⊎ (now b ≡ replayed txs disk b) →
        replayed txs now b ≡ replayed txs disk b }
{}

/// A law, which does nothing when it is called: of two ranges of transactions, one behind the other, the mark of
/// the second follows that of the first; and their replays follow each other where the second revokes nothing.
pub fn ranges_of_transactions_join()
    ensures mark { (xs ys : List Transaction) (b : ℕ) →
        mark_in (xs ++ ys) b ≡ followed (mark_in xs b) (mark_in ys b) }
    ensures replay { (xs ys : List Transaction) (disk : ℕ → List ℕ) (b : ℕ) →
        mark_in ys b ≢ Clear → replayed (xs ++ ys) disk b ≡ replayed ys (replayed xs disk) b }
    ensures numbers { (tx : ℕ → Transaction) (first n m : ℕ) →
        transactions_from tx first (n + m) ≡
        transactions_from tx first n ++ transactions_from tx (first + n) m }
{}

/// A law, which does nothing when it is called: descriptors with their bodies and revoke blocks, in any order, with
/// a commit block behind them, are read as the transaction of all their bodies and revokes.
pub fn written_transactions_are_read()
    ensures read { (f : Format) (sequence : ℕ) (parts : List Part) (commit : List ℕ) →
        AreParts f sequence parts → f.header commit ≡ Commits sequence →
        Spells f sequence (blocks_of_parts parts ++ commit ∷ []) (record { bodies = bodies_of_parts f parts; revokes = revokes_of_parts parts }) }
{}

/// A law, which does nothing when it is called: a reader goes on where it was, and gets no transaction done
/// without a commit block of the sequence that it expects.
pub fn logs_are_read_block_by_block()
    ensures join { (f : Format) (r : Reader) (xs ys : List (List ℕ)) →
        take_blocks f r (xs ++ ys) ≡ take_blocks f (take_blocks f r xs) ys }
    ensures end { (f : Format) (sequence : ℕ) (txs : List Transaction) (blocks : List (List ℕ)) →
        ((block : List ℕ) → In block blocks → f.header block ≢ Commits sequence) →
        done (take_blocks f (Reading sequence [] [] [] txs) blocks) ≡ txs }
{}

/// A law, which does nothing when it is called: what is read of blocks is their log: whole transactions of one sequence
/// after the other, up to where none stands.
pub fn logs_are_whole_transactions()
    ensures read { (f : Format) (sequence : ℕ) (blocks : List (List ℕ)) →
        IsLogOf f sequence blocks (done (take_blocks f (from_sequence sequence) blocks)) }
    ensures only { (f : Format) (sequence : ℕ) (blocks : List (List ℕ)) (txs : List Transaction) →
        IsLogOf f sequence blocks txs → done (take_blocks f (from_sequence sequence) blocks) ≡ txs }
{}

/// A law, which does nothing when it is called: from each place of the ring the next ones are counted up to its
/// end and then from its beginning; no place comes back before all have been, and then the first one does.
pub fn places_go_round_the_ring()
    ensures up { (r : Ring) (n p : ℕ) → p + n < r.past → places_on r n p ≡ p + n }
    ensures over_the_end { (r : Ring) (p : ℕ) → p + 1 ≡ r.past → place_after r p ≡ r.first }
    ensures within { (r : Ring) (n p : ℕ) → IsPlace r p → IsPlace r (places_on r n p) }
    ensures on { (r : Ring) (n m p : ℕ) →
        places_on r (n + m) p ≡ places_on r m (places_on r n p) }
    ensures no_return { (r : Ring) (n p : ℕ) →
        IsPlace r p → 0 < n → n < places_in r → places_on r n p ≢ p }
    ensures once_round { (r : Ring) (p : ℕ) → IsPlace r p → places_on r (places_in r) p ≡ p }
    ensures listed { (r : Ring) (n m p : ℕ) →
        places_from r (n + m) p ≡ places_from r n p ++ places_from r m (places_on r n p) }
{}
