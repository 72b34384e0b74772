//! Laws of running transactions and of their log blocks. Each does nothing when it is called.
ghost use Rattle.std.specs.Prelude.{◌≡◌, ℕ, suc, ◌+◌, ◌≤◌, Bool, true, false, List, [], ◌∷◌, ◌++◌, length, map, Some, slice_get};
ghost use Rattle.order_model.specs.declared.note.Note.TheVariants as notes;
ghost use Rattle.blk_base.specs.Members.{In};
ghost use Rattle.log_model.specs.Marks.{Logged};
ghost use Rattle.log_model.specs.Ring.{Ring, places_on, places_from};
ghost use Rattle.number_sets.specs.Sets.{with_all, without_all};
ghost use Rattle.journal_blocks.specs.declared.super_block.JournalSuper.{JournalSuper};
ghost use Rattle.journal_ring.specs.running.Closing.{writers, unplaced_blocks};
ghost use Rattle.journal_ring.specs.running.Open.{quota};
ghost use Rattle.journal_ring.specs.running.Plan.{Writers, Planned, logged_blocks, plan_of};
ghost use Rattle.journal_ring.specs.running.Running.{Running, fresh, log_needs, fits_in, touched_one, revoked_one, all_noted};
ghost use Rattle.journal_ring.specs.running.laws.Notes.{IsApart};
ghost use Rattle.journal_ring.specs.running.laws.Plans.{unplaced, place_of, before_commit};

/// A law, which does nothing when it is called: what a call notes, block by block and node by node, is what it touched
/// without what it revoked, what it revoked, and what it changed. No block is both touched and revoked, if none is
/// touched again that was revoked. Where there is room for a call, the transaction keeps its share of the log; a new one
/// has room for a call in each journal of 128 blocks or more, in volumes of up to eight blocks of the zone bitmap.
pub fn calls_are_noted()
    ensures noted { (blocks revoked nodes : List ℕ) (r : Running) → all_noted blocks revoked nodes r ≡ record {
      number = r.number;
      touched = without_all (with_all r.touched blocks) revoked;
      revoked = with_all r.revoked revoked;
      changed = with_all r.changed nodes;
      wanted = r.wanted;
    } }
    ensures touched { (b : ℕ) (r : Running) → IsApart r → (In b r.revoked → ⊥) → IsApart (touched_one b r) }
    ensures revoked { (b : ℕ) (r : Running) → IsApart r → IsApart (revoked_one b r) }
    ensures room { (w : Writers) (zmap quota : ℕ) (blocks revoked nodes : List ℕ) (r : Running) → fits_in w zmap quota r ≡ true →
        length blocks ≤ zmap + 12 → length revoked ≤ 520 → log_needs w (all_noted blocks revoked nodes r) ≤ quota }
    ensures first { (s : JournalSuper) (zmap k : ℕ) → 128 ≤ s.maxlen → zmap ≤ 8 →
        fits_in (writers s) zmap (quota s) (fresh k) ≡ true }
{}

/// A law, which does nothing when it is called: the requests of a plan are the log blocks of the closed transaction, at
/// consecutive places from the ring's head on, behind the superblock where the log was empty. The last of them is the
/// commit block, a barrier, and so is the one before it.
pub fn plans_place_the_log_blocks()
    ensures blocks { (w : Writers) (journal : ℕ) (ring : Ring) (head k sequence : ℕ) (bodies : List Logged) (revokes : List ℕ) →
        map unplaced (plan_of w journal ring head true k sequence bodies revokes) ≡ unplaced_blocks w k sequence bodies revokes }
    ensures first { (w : Writers) (journal : ℕ) (ring : Ring) (head k sequence : ℕ) (bodies : List Logged) (revokes : List ℕ) →
        map unplaced (plan_of w journal ring head false k sequence bodies revokes) ≡
        record { note = notes.Super; body = w.super sequence head } ∷ unplaced_blocks w k sequence bodies revokes }
    ensures places { (w : Writers) (journal : ℕ) (ring : Ring) (head k sequence : ℕ) (bodies : List Logged) (revokes : List ℕ) →
        map place_of (plan_of w journal ring head true k sequence bodies revokes) ≡
        map (λ p. journal + p) (places_from ring (length (unplaced_blocks w k sequence bodies revokes)) head) }
    ensures last { (w : Writers) (journal : ℕ) (ring : Ring) (head : ℕ) (started : Bool) (k sequence : ℕ) (bodies : List Logged) (revokes : List ℕ) →
        plan_of w journal ring head started k sequence bodies revokes ≡
        before_commit w journal ring head started k sequence bodies revokes ++ record {
          note = notes.Commit k;
          block = journal + places_on ring (length (logged_blocks w k sequence bodies revokes)) head;
          body = w.commit sequence;
          barrier = true;
        } ∷ [] }
    ensures before { (w : Writers) (journal : ℕ) (ring : Ring) (head : ℕ) (started : Bool) (k sequence : ℕ) (bodies : List Logged) (revokes : List ℕ) (n : ℕ) →
        length (before_commit w journal ring head started k sequence bodies revokes) ≡ suc n →
        (p : Planned) × (slice_get (before_commit w journal ring head started k sequence bodies revokes) n ≡ Some p) × (p.barrier ≡ true) }
{}
