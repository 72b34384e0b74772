//! Laws of the ring of the log and of checkpoints: what a host has to know of them.
ghost use Rattle.std.specs.Prelude.{◌≡◌, ◌≢◌, ℕ, ◌+◌, ◌<◌, ◌≤◌, ◌||◌, [], List, Option, Some, None, IsTrue};
ghost use Rattle.std.specs.Option.{unwrap_or};
ghost use Rattle.order_model.specs.declared.request.Request.{Request};
ghost use Rattle.order_model.specs.declared.note.Note.TheVariants.{Super, Commit, Home};
ghost use Rattle.order_model.specs.OrderClosed.{IsPutOf, is_flush, kind_body};
ghost use Rattle.log_model.specs.Marks.{Keep, Clear, Set, mark_in, transaction_mark, transactions_from};
ghost use Rattle.log_model.specs.Ring.{place_after, places_in};
ghost use Rattle.crash_laws.specs.laws.Clauses.{SuperClause};
ghost use Rattle.crash_laws.specs.laws.RingFacts.{RingHost, RingFacts};
ghost use Rattle.crash_laws.specs.Rules.{CommitOrder, LogLayout, CheckpointOrder};
ghost use Rattle.crash_laws.specs.Session.{Session, log_transaction, IsLog, IsSuperOf};
ghost use Rattle.crash_laws.specs.laws.Submitting.{Submitting, after, new_place, IsCommitted};

/// A law, which does nothing when it is called: what a home request, a superblock and a log block owe, from the facts
/// of a host's ring: a body that waits is the last one of its block, no body waits at a superblock, and the head is
/// a place that was freed.
pub fn checkpoints_meet_their_clauses()
    ensures home { (s : Session) (ring : RingHost) (n : ℕ) (q : Request) (b : ℕ) (x : List ℕ) →
        RingFacts s ring n → ring.homes b ≡ Some x → kind_body q.kind ≡ Some x →
        (k : ℕ) × IsCommitted s k × (IsCommitted s (k + 1) → ⊥) × (y : List ℕ) × (kind_body q.kind ≡ Some y) × (mark_in (transactions_from s.transactions 1 k) b ≡ Set y) }
    ensures superblock { (s : Session) (ring : RingHost) (n : ℕ) (q : Request) →
        RingFacts s ring n → ((b : ℕ) → ring.homes b ≡ None) → ((k i : ℕ) → IsLog s k i → k ≤ n) →
        s.format.tail (unwrap_or (kind_body q.kind) []) ≡ record { sequence = s.sequence + n; start = ring.head } →
        IsTrue (q.barrier || is_flush q.kind) → SuperClause s q }
    ensures again { (s : Session) (ring : RingHost) (n k i b : ℕ) →
        RingFacts s ring n → CommitOrder s → LogLayout s → CheckpointOrder s → ring.used < places_in s.ring →
        b ≡ s.journal + ring.head → IsLog s k i → IsPutOf s.requests i b →
        (x freed : ℕ) × IsSuperOf s x freed × (i < x) × (k ≤ freed) }
{}

/// A law, which does nothing when it is called: each request keeps the facts of a host's ring: a home request takes its
/// body out, a log block moves the head on, a commit block brings its bodies in and takes its revokes out, and a
/// superblock frees all places.
pub fn requests_keep_the_ring()
    ensures home { (p : Submitting) (ring : RingHost) (n b : ℕ) (x : List ℕ) (homes : ℕ → Option (List ℕ)) →
        RingFacts p.session ring n → ((k : ℕ) → 1 ≤ k → k ≤ n → p.transactions k ≡ p.session.transactions k) →
        p.note ≡ Home b → kind_body p.request.kind ≡ Some x → ring.homes b ≡ Some x →
        ((c : ℕ) → b ≢ c → homes c ≡ ring.homes c) → homes b ≡ None →
        (((c : ℕ) → homes c ≡ None) → IsTrue (p.request.barrier || is_flush p.request.kind)) →
        ((freed y : ℕ) → IsSuperOf p.session y freed → IsSuperOf (after p) y freed) →
        RingFacts (after p) (record ring { homes = homes }) n }
    ensures log { (p : Submitting) (ring : RingHost) (n k head : ℕ) →
        RingFacts p.session ring n → ((j : ℕ) → 1 ≤ j → j ≤ n → p.transactions j ≡ p.session.transactions j) →
        log_transaction p.note ≡ Some k → ((l : ℕ) → p.note ≡ Commit l → ⊥) → ring.freed < k →
        head ≡ place_after p.session.ring ring.head →
        ((freed y : ℕ) → IsSuperOf p.session y freed → IsSuperOf (after p) y freed) →
        RingFacts (after p) (record ring { head = head; used = ring.used + 1 }) n }
    ensures commit { (p : Submitting) (ring : RingHost) (n head : ℕ) (homes : ℕ → Option (List ℕ)) →
        RingFacts p.session ring n → ((k : ℕ) → 1 ≤ k → k ≤ n → p.transactions k ≡ p.session.transactions k) →
        p.note ≡ Commit (n + 1) → ring.freed ≤ n → head ≡ place_after p.session.ring ring.head →
        IsTrue (p.request.barrier || is_flush p.request.kind) →
        ((b : ℕ) (x : List ℕ) → transaction_mark (p.transactions (1 + n)) b ≡ Set x → homes b ≡ Some x) →
        ((b : ℕ) → transaction_mark (p.transactions (1 + n)) b ≡ Clear → homes b ≡ None) →
        ((b : ℕ) → transaction_mark (p.transactions (1 + n)) b ≡ Keep → homes b ≡ ring.homes b) →
        ((freed y : ℕ) → IsSuperOf p.session y freed → IsSuperOf (after p) y freed) →
        RingFacts (after p) (record ring { homes = homes; head = head; used = ring.used + 1 }) (n + 1) }
    ensures superblock { (p : Submitting) (ring : RingHost) (n : ℕ) (clause : SuperClause p.session p.request) →
        RingFacts p.session ring n → ((k : ℕ) → 1 ≤ k → k ≤ n → p.transactions k ≡ p.session.transactions k) →
        clause.freed ≡ n → p.note ≡ Super → IsSuperOf (after p) (new_place p) n → ((k i : ℕ) → IsLog p.session k i → k ≤ n) →
        RingFacts (after p) (record ring { freed = n; used = 0 }) n }
    ensures other { (p : Submitting) (ring : RingHost) (n : ℕ) →
        RingFacts p.session ring n → ((k : ℕ) → 1 ≤ k → k ≤ n → p.transactions k ≡ p.session.transactions k) →
        log_transaction p.note ≡ None → ((b : ℕ) → p.note ≡ Home b → ⊥) →
        ((freed y : ℕ) → IsSuperOf p.session y freed → IsSuperOf (after p) y freed) →
        RingFacts (after p) ring n }
{}
