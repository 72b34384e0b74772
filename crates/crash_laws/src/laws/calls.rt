//! Laws of begun barrier and sync calls: what a host has to know of them when they answer.
ghost use Rattle.std.specs.Prelude.{◌≡◌, ℕ, ◌<◌, ◌≤◌, ◌⊎◌, List, true};
ghost use Rattle.blk_base.specs.Members.{In};
ghost use Rattle.order_model.specs.declared.completion.Completion.{Completion};
ghost use Rattle.order_model.specs.declared.completion.Completion.TheVariants.{Flushed};
ghost use Rattle.order_model.specs.declared.note.Note.TheVariants.{Page};
ghost use Rattle.crash_laws.specs.laws.CallFacts.{IsDone, IsGoodFor, IsUnchangedSince};
ghost use Rattle.crash_laws.specs.History.{History, HasTrees};
ghost use Rattle.crash_laws.specs.PromiseRules.{BegunCall, Covers, CoversEntry, AreHeld, KeepsSync};
ghost use Rattle.crash_laws.specs.Session.{Session, HasNote, IsCommit};
ghost use Rattle.crash_laws.specs.laws.Submitting.{Submitting, after};
ghost use Rattle.crash_laws.specs.Volumes.{WalkEnd};

/// A law, which does nothing when it is called: a covered pair that is done, sent or unmapped, is good for each
/// closed transaction behind which its file did not change, and stays so with one request more.
pub fn pairs_that_are_done_stay_good()
    ensures good { (h : History WalkEnd) (s : Session) (bound k now f i n : ℕ) →
        HasTrees h → h.writes n f i ≡ true → n ≤ now → h.cut k ≤ now →
        ((o g j v : ℕ) → HasNote s o (Page g j v) → v ≤ now) → IsUnchangedSince h f (h.cut k) now →
        IsDone h s (λ o. o < bound) now f i n → IsGoodFor h s (λ o. o < bound) k f i n }
    ensures pushed { (h : History WalkEnd) (p : Submitting) (k f i n : ℕ) →
        IsGoodFor h p.session (λ o. (c : ℕ) → IsCommit p.session k c → o < c) k f i n →
        IsGoodFor h (after p) (λ o. (c : ℕ) → IsCommit (after p) k c → o < c) k f i n }
{}

/// A law, which does nothing when it is called: when a call answers, requests hold what it covers: at or before a
/// barrier, where its target is committed, or where its pages stand before a barrier and its files did not change
/// since the last commit block; below a flush, where they stand below what the call needs to be durable.
pub fn calls_are_held_when_they_answer()
    ensures target { (h : History WalkEnd) (s : Session) (call : BegunCall) (k c barrier : ℕ) →
        IsCommit s k c → c ≤ barrier →
        ((f i n : ℕ) → Covers h call f i n → IsGoodFor h s (λ o. (d : ℕ) → IsCommit s k d → o < d) k f i n) →
        ((n : ℕ) → CoversEntry call n → n ≤ h.cut k) →
        AreHeld h s (λ o. o ≤ barrier) (Covers h call) (CoversEntry call) }
    ensures barrier { (h : History WalkEnd) (s : Session) (call : BegunCall) (committed own barrier now : ℕ) →
        HasTrees h → (committed ≡ 0) ⊎ ((c : ℕ) × IsCommit s committed c × (c ≤ barrier)) → own ≤ barrier →
        h.cut committed ≤ now → ((o g j v : ℕ) → HasNote s o (Page g j v) → v ≤ now) →
        ((n : ℕ) → CoversEntry call n → ⊥) →
        ((f i n : ℕ) → Covers h call f i n →
        (h.writes n f i ≡ true) × (n ≤ now) × IsUnchangedSince h f (h.cut committed) now × IsDone h s (λ o. o ≤ own) now f i n) →
        AreHeld h s (λ o. o ≤ barrier) (Covers h call) (CoversEntry call) }
    ensures flush { (h : History WalkEnd) (s : Session) (call : BegunCall) (need flush : ℕ) (taken : List Completion) →
        need < flush → In (Flushed flush) taken →
        AreHeld h s (λ o. o ≤ need) (Covers h call) (CoversEntry call) →
        KeepsSync h s taken (Covers h call) (CoversEntry call) }
{}
