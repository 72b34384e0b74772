//! Laws of zones, images and pages: what a host has to know of them to meet the clauses of its requests.
ghost use Rattle.std.specs.Prelude.{◌≡◌, ◌≢◌, ℕ, ◌+◌, ◌-◌, ◌<◌, ◌≤◌, ◌⊎◌, [], List, Option, Some, None, true};
ghost use Rattle.blk_base.specs.Members.{In};
ghost use Rattle.order_model.specs.declared.request.Request.{Request};
ghost use Rattle.order_model.specs.declared.note.Note.TheVariants.{Page, Commit};
ghost use Rattle.order_model.specs.OrderClosed.{IsOrdered, kind_block, kind_body};
ghost use Rattle.minix_layout.specs.declared.division.Geometry.{Geometry};
ghost use Rattle.volume_ops.specs.Reads.{blocks_read};
ghost use Rattle.volume_ops.specs.Walk.{walk_volume};
ghost use Rattle.log_model.specs.Marks.{Set, mark_in, transactions_from};
ghost use Rattle.crash_laws.specs.laws.Changes.{Told, IsChange, HasZones, IsPresent};
ghost use Rattle.crash_laws.specs.History.{History, HasTrees, last_write};
ghost use Rattle.crash_laws.specs.laws.HostFacts.{Host, HostFacts};
ghost use Rattle.crash_laws.specs.Ordering.{IsClosedOff};
ghost use Rattle.crash_laws.specs.laws.PageClauses.{NewPageClause, CommitPagesClause};
ghost use Rattle.crash_laws.specs.PageRules.{place_at};
ghost use Rattle.crash_laws.specs.laws.Plans.{PlanFacts, IsCommitting};
ghost use Rattle.crash_laws.specs.Rules.{CommitOrder, IsOlder};
ghost use Rattle.crash_laws.specs.Session.{Session, HasNote, IsCommit, image_of};
ghost use Rattle.crash_laws.specs.laws.Submitting.{Submitting, after};
ghost use Rattle.crash_laws.specs.Volumes.{WalkEnd};

/// A law, which does nothing when it is called: a call that changes the volume keeps the facts of a host, and each
/// block of metadata stays logged or as in the last image.
pub fn changes_keep_the_facts()
    ensures facts { (g : Geometry) (h : History WalkEnd) (s : Session) (old new : Host) (n : ℕ) (told : Told) →
        HasTrees h → HostFacts (walk_volume g) h s old n → IsChange h s old new told → HasZones h new →
        HostFacts (walk_volume g) h s new n }
    ensures present { (h : History WalkEnd) (s : Session) (old new : Host) (told : Told) →
        IsChange h s old new told → ((b : ℕ) → old.metadata b ≡ true → IsPresent s old b) →
        (b : ℕ) → new.metadata b ≡ true → IsPresent s new b }
{}

/// A law, which does nothing when it is called: a page of the volume, sent with its last version to its zone, meets
/// the clause of pages; and a request that is no commit block keeps the facts.
pub fn pages_meet_their_clause()
    ensures clause { (g : Geometry) (h : History WalkEnd) (s : Session) (host : Host) (n : ℕ) (q : Request) (f i z : ℕ) →
        HasTrees h → HostFacts (walk_volume g) h s host n → host.zone f i ≡ Some z →
        kind_body q.kind ≡ Some (h.content f i (last_write h f i host.now)) →
        NewPageClause (walk_volume g) h s q f i (last_write h f i host.now) z }
    ensures facts { (g : Geometry) (h : History WalkEnd) (p : Submitting) (host : Host) (n : ℕ) →
        HasTrees h → HostFacts (walk_volume g) h p.session host n →
        ((k : ℕ) → k < host.running → p.transactions k ≡ p.session.transactions k) →
        ((f i v z : ℕ) → p.note ≡ Page f i v → kind_block p.request.kind ≡ Some z → (host.zone f i ≡ Some z) × (v ≡ last_write h f i host.now)) →
        ((k : ℕ) → p.note ≡ Commit k → ⊥) →
        HostFacts (walk_volume g) h (after p) host n }
{}

/// A law, which does nothing when it is called: the plan of a transaction has the volume's metadata as its image, its
/// bodies lie on metadata and its revokes do not, and it gives up or keeps in place each page that was sent.
pub fn plans_have_the_volume_as_image()
    ensures image { (g : Geometry) (h : History WalkEnd) (s : Session) (host : Host) (n b : ℕ) →
        HasTrees h → CommitOrder s → HostFacts (walk_volume g) h s host n → PlanFacts (walk_volume g) h s host → n + 1 ≡ host.running →
        host.metadata b ≡ true → image_of s host.running b ≡ host.volume b }
    ensures logged { (g : Geometry) (h : History WalkEnd) (s : Session) (host : Host) (n b : ℕ) →
        HasTrees h → CommitOrder s → HostFacts (walk_volume g) h s host n → PlanFacts (walk_volume g) h s host → n + 1 ≡ host.running →
        In b (blocks_read (image_of s host.running) (walk_volume g)) →
        IsOlder s host.running b ⊎ ((x : List ℕ) × (mark_in (transactions_from s.transactions 1 host.running) b ≡ Set x)) }
    ensures bodies { (g : Geometry) (h : History WalkEnd) (s : Session) (host : Host) (n b : ℕ) (x : List ℕ) →
        HasTrees h → CommitOrder s → HostFacts (walk_volume g) h s host n → PlanFacts (walk_volume g) h s host → n + 1 ≡ host.running →
        mark_in (transactions_from s.transactions 1 host.running) b ≡ Set x → host.metadata b ≡ true }
    ensures revokes { (g : Geometry) (h : History WalkEnd) (s : Session) (host : Host) (n b : ℕ) →
        HasTrees h → CommitOrder s → HostFacts (walk_volume g) h s host n → PlanFacts (walk_volume g) h s host → n + 1 ≡ host.running →
        In b (s.transactions host.running).revokes → In b s.reserved → ⊥ }
    ensures pages { (g : Geometry) (h : History WalkEnd) (s : Session) (host : Host) (n : ℕ) →
        HasTrees h → CommitOrder s → HostFacts (walk_volume g) h s host n → PlanFacts (walk_volume g) h s host → n + 1 ≡ host.running →
        IsCommitting (walk_volume g) h s host.running }
    ensures facts { (g : Geometry) (h : History WalkEnd) (s : Session) (host : Host) (n : ℕ) →
        HasTrees h → CommitOrder s → HostFacts (walk_volume g) h s host n → PlanFacts (walk_volume g) h s host → n + 1 ≡ host.running →
        HostFacts (walk_volume g) h s (record host { running = host.running + 1; bodies = []; revokes = [] }) n }
{}

/// A law, which does nothing when it is called: what holds of a planned transaction holds until its commit block,
/// which then meets its clause on pages, and which keeps the facts and lets the zones go that waited for it.
pub fn commit_blocks_meet_their_clause()
    ensures pages { (g : Geometry) (h : History WalkEnd) (p : Submitting) (host : Host) (n : ℕ) →
        HasTrees h → HostFacts (walk_volume g) h p.session host n →
        ((k : ℕ) → k < host.running → p.transactions k ≡ p.session.transactions k) → n + 2 ≡ host.running →
        ((f i v z : ℕ) → p.note ≡ Page f i v → kind_block p.request.kind ≡ Some z → (host.zone f i ≡ Some z) × (v ≡ last_write h f i host.now)) →
        IsCommitting (walk_volume g) h p.session (host.running - 1) →
        IsCommitting (walk_volume g) h (after p) (host.running - 1) }
    ensures clause { (g : Geometry) (h : History WalkEnd) (p : Submitting) (host : Host) (n : ℕ) →
        HasTrees h → HostFacts (walk_volume g) h p.session host n →
        ((k : ℕ) → k < host.running → p.transactions k ≡ p.session.transactions k) → n + 2 ≡ host.running →
        ((f i : ℕ) → h.changes (host.running - 1) f ≡ true → h.maps (h.cut (host.running - 1)) f i ≡ true → 1 ≤ last_write h f i (h.cut (host.running - 1)) →
        (o : ℕ) × HasNote p.session o (Page f i (last_write h f i (h.cut (host.running - 1)))) × IsOrdered p.session.requests o × IsClosedOff p.session.requests o) →
        IsCommitting (walk_volume g) h p.session (host.running - 1) →
        CommitPagesClause (walk_volume g) h p (host.running - 1) }
    ensures facts { (g : Geometry) (h : History WalkEnd) (p : Submitting) (host : Host) (n : ℕ) (quarantine : ℕ → Option ℕ) →
        HasTrees h → HostFacts (walk_volume g) h p.session host n →
        ((k : ℕ) → k < host.running → p.transactions k ≡ p.session.transactions k) → n + 2 ≡ host.running →
        p.note ≡ Commit (n + 1) →
        ((b : ℕ) → host.quarantine b ≡ Some (n + 1) → quarantine b ≡ None) →
        ((b k : ℕ) → host.quarantine b ≡ Some k → k ≢ n + 1 → quarantine b ≡ Some k) →
        ((b : ℕ) → host.quarantine b ≡ None → quarantine b ≡ None) →
        HostFacts (walk_volume g) h (after p) (record host { quarantine = quarantine }) (n + 1) }
{}
