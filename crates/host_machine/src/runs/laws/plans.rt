//! Laws of plans.
ghost use Rattle.std.specs.Prelude.{◌≡◌, ◌≤◌, ℕ, ◌+◌, Bool, List, [], ◌∷◌, ◌++◌, length, map};
ghost use Rattle.log_model.specs.Log.{Format, Spells};
ghost use Rattle.log_model.specs.Marks.{Logged, Transaction};
ghost use Rattle.log_model.specs.Ring.{Ring};
ghost use Rattle.journal_ring.specs.running.Running.{log_blocks_for};
ghost use Rattle.journal_ring.specs.running.Plan.{Writers, logged_blocks, plan_of};
ghost use Rattle.journal_ring.specs.declared.running.pieces.UnplacedBlock.{UnplacedBlock};
ghost use Rattle.host_machine.specs.laws.PlanNotes.{IsRestOf, BarrierAhead};
ghost use Rattle.host_machine.specs.runs.laws.Written.{IsWord, AreWritten, IsWritable};

/// A law, which does nothing when it is called: the log blocks of a plan are read back as its transaction, and there are
/// as many as were counted. A plan ends with the commit block, and before it go log blocks and the superblock; where the
/// transaction has a body, one of these is a barrier.
pub fn plans_spell_their_transaction()
    ensures spells { (w : Writers) (k sequence : ℕ) (f : Format) (t : Transaction) → AreWritten f w → IsWritable t → IsWord sequence →
        Spells f sequence (map (λ (b : UnplacedBlock). b.body) (logged_blocks w k sequence t.bodies t.revokes) ++ w.commit sequence ∷ []) t }
    ensures counted { (w : Writers) (k sequence : ℕ) (bodies : List Logged) (revokes : List ℕ) → 1 ≤ w.most_tags → 1 ≤ w.most_revokes →
        length (logged_blocks w k sequence bodies revokes) + 1 ≡ log_blocks_for w (length bodies) (length revokes) }
    ensures ends { (w : Writers) (journal : ℕ) (ring : Ring) (head : ℕ) (started : Bool) (k sequence : ℕ) (bodies : List Logged) (revokes : List ℕ) →
        IsRestOf k (plan_of w journal ring head started k sequence bodies revokes) }
    ensures barrier { (w : Writers) (journal : ℕ) (ring : Ring) (head : ℕ) (started : Bool) (k sequence : ℕ) (l : Logged) (bodies : List Logged) (revokes : List ℕ) →
        BarrierAhead (plan_of w journal ring head started k sequence (l ∷ bodies) revokes) }
{}
