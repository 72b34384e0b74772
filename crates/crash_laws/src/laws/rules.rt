//! Laws of the order rules: where they begin, how requests and longer histories keep them, and that they matter.
ghost use Rattle.std.specs.Prelude.{◌≡◌, ◌≢◌, ℕ, ◌≤◌, ◌⊎◌, [], List};
ghost use Rattle.blk_base.specs.Members.{In};
ghost use Rattle.order_model.specs.declared.completion.Completion.{Completion};
ghost use Rattle.order_model.specs.declared.note.Note.TheVariants.{Page, Commit};
ghost use Rattle.order_model.specs.OrderClosed.{IsFence, IsOrderClosed};
ghost use Rattle.minix_layout.specs.declared.division.Geometry.{Geometry};
ghost use Rattle.tree_model.specs.declared.node.Node.{Node};
ghost use Rattle.volume_ops.specs.Reads.{blocks_read};
ghost use Rattle.volume_ops.specs.Volume.{disk_of};
ghost use Rattle.volume_ops.specs.Walk.{walk_volume};
ghost use Rattle.log_model.specs.Ring.{IsPlace};
ghost use Rattle.crash_laws.specs.laws.BrokenExamples.{unfenced, without_body, page_late, without_page};
ghost use Rattle.crash_laws.specs.laws.Clauses.{CommitClause, OrderClause};
ghost use Rattle.crash_laws.specs.laws.Example.{program, history, with_first, synced, completions};
ghost use Rattle.crash_laws.specs.laws.Extending.{Extends};
ghost use Rattle.crash_laws.specs.Found.{found};
ghost use Rattle.crash_laws.specs.History.{History, HasTrees};
ghost use Rattle.crash_laws.specs.laws.PageClauses.{PageClause};
ghost use Rattle.crash_laws.specs.PageRules.{HasOpened, PageOrder, DataBeforeCommit};
ghost use Rattle.crash_laws.specs.PromiseRules.{BegunCall, Covers, CoversEntry, AreHeld, KeepsBarrier, KeepsSync};
ghost use Rattle.crash_laws.specs.Recovery.{recovered_disk, HasVersion};
ghost use Rattle.crash_laws.specs.laws.Requests.{IsPageRequest, IsFlushRequest, IsHomeRequest, IsSuperRequest, IsPartRequest, IsCommitRequest};
ghost use Rattle.crash_laws.specs.Rules.{BaseImage, CommitOrder, OrderRules};
ghost use Rattle.crash_laws.specs.Session.{Session, HasNote, IsCommit, image_of};
ghost use Rattle.crash_laws.specs.laws.Submitting.{Submitting, after};
ghost use Rattle.crash_laws.specs.Volumes.{WalkEnd, HasTreeOf, HasTreesOf};

/// A law, which does nothing when it is called: over a base image with an empty log, a session that has submitted
/// nothing keeps all rules.
pub fn rules_hold_at_the_start()
    ensures order { (g : Geometry) (s : Session) →
        s.notes ≡ [] → s.requests ≡ [] → 1 ≤ s.ring.first → IsPlace s.ring s.head → BaseImage s →
        ((b : ℕ) → In b (blocks_read (disk_of s.base) (walk_volume g)) → In b s.reserved ⊎ In b s.freeable) →
        OrderRules (walk_volume g) s }
    ensures pages { (g : Geometry) (h : History WalkEnd) (s : Session) →
        s.notes ≡ [] → HasOpened (walk_volume g) h s → PageOrder (walk_volume g) h s }
{}

/// A law, which does nothing when it is called: a request that is submitted keeps each rule, where it meets the
/// clause that it owes over the list before it.
pub fn requests_keep_the_rules()
    ensures order { (g : Geometry) (p : Submitting) →
        OrderRules (walk_volume g) p.session → OrderClause (walk_volume g) p →
        OrderRules (walk_volume g) (after p) }
    ensures pages { (g : Geometry) (h : History WalkEnd) (p : Submitting) →
        OrderRules (walk_volume g) p.session → OrderClause (walk_volume g) p →
        PageOrder (walk_volume g) h p.session → PageClause (walk_volume g) h p →
        PageOrder (walk_volume g) h (after p) }
    ensures versions { (g : Geometry) (h : History WalkEnd) (p : Submitting) →
        OrderRules (walk_volume g) p.session → OrderClause (walk_volume g) p →
        DataBeforeCommit (walk_volume g) h p.session → PageClause (walk_volume g) h p →
        DataBeforeCommit (walk_volume g) h (after p) }
{}

/// A law, which does nothing when it is called: what a page, a flush, a home write, a superblock, a log block and a
/// commit block each owe gives all clauses of the order rules.
pub fn requests_owe_by_what_they_carry()
    ensures page { (g : Geometry) (p : Submitting) (f i v : ℕ) →
        IsPageRequest p f i v → OrderClause (walk_volume g) p }
    ensures flush { (g : Geometry) (p : Submitting) →
        IsFlushRequest p → OrderClause (walk_volume g) p }
    ensures home { (g : Geometry) (p : Submitting) (b : ℕ) →
        IsHomeRequest p b → OrderClause (walk_volume g) p }
    ensures superblock { (g : Geometry) (p : Submitting) →
        IsSuperRequest p → OrderClause (walk_volume g) p }
    ensures log_block { (g : Geometry) (p : Submitting) (k : ℕ) →
        IsPartRequest p k → OrderClause (walk_volume g) p }
    ensures commit { (g : Geometry) (p : Submitting) (k : ℕ) →
        IsCommitRequest (walk_volume g) p k → OrderClause (walk_volume g) p }
{}

/// A law, which does nothing when it is called: the image of each submitted transaction keeps its tree, and a commit
/// block owes that of its own.
pub fn trees_of_images_follow()
    ensures start { (g : Geometry) (s : Session) (tree_after : ℕ → List (ℕ × Node)) →
        s.notes ≡ [] → HasTreeOf g s 0 (tree_after 0) → HasTreesOf g s tree_after }
    ensures request { (g : Geometry) (p : Submitting) (tree_after : ℕ → List (ℕ × Node)) →
        CommitOrder p.session → CommitClause p.session p.request p.note →
        ((k : ℕ) → p.note ≡ Commit k → HasTreeOf g (after p) k (tree_after k)) →
        HasTreesOf g p.session tree_after → HasTreesOf g (after p) tree_after }
{}

/// A law, which does nothing when it is called: the rules of pages hold of a longer history, where they hold of the
/// one before.
pub fn histories_may_grow()
    ensures pages { (g : Geometry) (h more : History WalkEnd) (s : Session) (now : ℕ) →
        Extends h more s now → PageOrder (walk_volume g) h s → PageOrder (walk_volume g) more s }
    ensures versions { (g : Geometry) (h more : History WalkEnd) (s : Session) (now : ℕ) →
        Extends h more s now → DataBeforeCommit (walk_volume g) h s → DataBeforeCommit (walk_volume g) more s }
{}

/// A law, which does nothing when it is called: what requests hold when a barrier or sync call answers, they hold
/// with one request more and with a longer history.
pub fn promises_stay_kept()
    ensures answered { (h : History WalkEnd) (s : Session) (call : BegunCall) (e barrier : ℕ) →
        IsFence s.requests barrier → AreHeld h s (λ i. i ≤ barrier) (Covers h call) (CoversEntry call) →
        ((o f i v : ℕ) → HasNote s o (Page f i v) → v ≤ e) → ((k c : ℕ) → IsCommit s k c → h.cut k ≤ e) →
        KeepsBarrier h s e (Covers h call) (CoversEntry call) }
    ensures barrier_pushed { (h : History WalkEnd) (p : Submitting) (call : BegunCall) (e : ℕ) →
        KeepsBarrier h p.session e (Covers h call) (CoversEntry call) →
        KeepsBarrier h (after p) e (Covers h call) (CoversEntry call) }
    ensures sync_pushed { (h : History WalkEnd) (p : Submitting) (call : BegunCall) (taken : List Completion) →
        KeepsSync h p.session taken (Covers h call) (CoversEntry call) →
        KeepsSync h (after p) taken (Covers h call) (CoversEntry call) }
    ensures barrier_grows { (h more : History WalkEnd) (s : Session) (now : ℕ) (call : BegunCall) (e : ℕ) →
        Extends h more s now → call.begin ≤ now → KeepsBarrier h s e (Covers h call) (CoversEntry call) →
        KeepsBarrier more s e (Covers more call) (CoversEntry call) }
    ensures sync_grows { (h more : History WalkEnd) (s : Session) (now : ℕ) (call : BegunCall) (taken : List Completion) →
        Extends h more s now → call.begin ≤ now → KeepsSync h s taken (Covers h call) (CoversEntry call) →
        KeepsSync more s taken (Covers more call) (CoversEntry call) }
{}

/// A law, which does nothing when it is called: a session of a dozen requests keeps all rules, so they do not exclude
/// each other: a page, a superblock and a transaction, its home write, a superblock that frees the log, the page
/// once more, a transaction that goes where the first one was, and a flush that answers an fsync.
pub fn rules_can_be_kept()
    ensures trees { HasTrees history }
    ensures order { OrderRules program (with_first 12) }
    ensures pages { PageOrder program history (with_first 12) }
    ensures versions { DataBeforeCommit program history (with_first 12) }
    ensures sync { KeepsSync history (with_first 12) completions (Covers history synced) (CoversEntry synced) }
{}

/// A law, which does nothing when it is called: without a rule a sentence is lost. With a commit block in the epoch of its
/// body, an order-closed medium can have the one and not the other, and what is recovered is not the image of the
/// transaction. With the page of a changed file behind the commit block, it can lack the page.
pub fn weaker_rules_lose_a_sentence()
    ensures body { IsOrderClosed unfenced.base unfenced.requests without_body.image without_body.origins
        × (found unfenced without_body ≡ 1)
        × (recovered_disk unfenced without_body 1 ≢ image_of unfenced 1 1) }
    ensures page { OrderRules program page_late
        × IsOrderClosed page_late.base page_late.requests without_page.image without_page.origins
        × (found page_late without_page ≡ 1)
        × (HasVersion program history page_late without_page 1 5 0 2 → ⊥) }
{}
