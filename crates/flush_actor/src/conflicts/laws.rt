//! Laws of conflicts and of commit blocks. Each does nothing when it is called.
ghost use Rattle.std.specs.Prelude.{◌≡◌, ◌≢◌, ◌↔◌, ◌⊎◌, ℕ, ◌≤◌, ◌==◌, ◌&&◌, ◌||◌, nat_lt, true, Some, None, List, [], ◌∷◌};
ghost use Rattle.blk_base.specs.Members.{In};
ghost use Rattle.flush_actor.specs.conflicts.Calls.{ConflictCall, after, nothing_held, IsSound};
ghost use Rattle.flush_actor.specs.conflicts.Commits.{is_committed, with_commit};
ghost use Rattle.flush_actor.specs.conflicts.Conflicts.{Conflicts, is_held, holder, hold, want, unhold, least};
ghost use Rattle.flush_actor.specs.declared.conflicts.commits.CommitBlock.{CommitBlock};
ghost use Rattle.flush_actor.specs.declared.conflicts.held.Held.{Held};

/// A law, which does nothing when it is called: after any calls on a table of which nothing was held, each block has
/// at most one holder. A transaction holds what was held for it until it is released or another one holds the block,
/// and nothing else.
pub fn blocks_have_one_holder()
    ensures sound { (calls : List ConflictCall) → IsSound (after nothing_held calls) }
    ensures held { (c : Conflicts) (k b : ℕ) (h : Held) → IsSound c →
        In h (hold k (b ∷ []) c).held ↔ ((record { block = b; transaction = k } ≡ h) ⊎ (In h c.held × (h.block ≢ b))) }
    ensures wanted { (c : Conflicts) (blocks : List ℕ) → (want blocks c).held ≡ c.held }
    ensures released { (c : Conflicts) (k : ℕ) (h : Held) → In h (unhold k c).held ↔ (In h c.held × (h.transaction ≢ k)) }
    ensures holder { (c : Conflicts) (h : Held) → IsSound c → In h c.held → holder c.held h.block ≡ h.transaction }
{}

/// A law, which does nothing when it is called: what is wanted is held. A block is wanted once it was asked for while
/// it was held, and until its holder is released. The least block is the lowest that is wanted, and there is none
/// exactly where nothing is wanted.
pub fn wanted_blocks_are_held()
    ensures held { (c : Conflicts) (b : ℕ) → IsSound c → In b c.wanted → is_held c b ≡ true }
    ensures wanted { (c : Conflicts) (blocks : List ℕ) (b : ℕ) →
        In b (want blocks c).wanted ↔ (In b c.wanted ⊎ (In b blocks × (is_held c b ≡ true))) }
    ensures released { (c : Conflicts) (k b : ℕ) → IsSound c →
        In b (unhold k c).wanted ↔ (In b c.wanted × (holder c.held b ≢ k)) }
    ensures least { (c : Conflicts) (b : ℕ) → IsSound c → least c ≡ Some b →
        In b c.wanted × ((x : ℕ) → In x c.wanted → b ≤ x) }
    ensures clear { (c : Conflicts) → (least c ≡ None) ↔ (c.wanted ≡ []) }
{}

/// A law, which does nothing when it is called: where one more commit block is known, behind all others, its transaction
/// has it if it had none, and each other transaction has what it had.
pub fn first_commit_blocks_count()
    ensures { (cs : List CommitBlock) (k id n j : ℕ) → ((c : CommitBlock) → In c cs → c.id ≤ id) →
        is_committed n j (with_commit k id cs) ≡ (is_committed n j cs || (k == j && nat_lt id n)) }
{}
