//! Laws of order alone.
ghost use Rattle.std.specs.Prelude.{◌≡◌, ℕ, ◌<◌, ◌≤◌, ◌⊎◌, List, Option};
ghost use Rattle.order_model.specs.declared.note.Note.TheVariants.{Page};
ghost use Rattle.order_model.specs.declared.request.Request.{Request};
ghost use Rattle.order_model.specs.OrderClosed.{IsPutOf, IsPutWith, IsOrdered, IsFence, HasOrigin, IsKept, IsOrderClosed};
ghost use Rattle.volume_ops.specs.Volume.{disk_of};
ghost use Rattle.crash_laws.specs.Ordering.{Fenced, IsOrderedPut};
ghost use Rattle.crash_laws.specs.Epochs.{epoch};
ghost use Rattle.crash_laws.specs.Session.{Session, HasNote, IsCommit};
ghost use Rattle.crash_laws.specs.Rules.{CommitOrder};
ghost use Rattle.crash_laws.specs.History.{History, IsUnmapped, HasTrees, IsEntryOf};
ghost use Rattle.crash_laws.specs.PromiseRules.{BegunCall, Covers, CoversEntry, AreHeld};
ghost use Rattle.crash_laws.specs.Volumes.{WalkEnd};

/// A law, which does nothing when it is called: on an order-closed medium, what a barrier keeps apart from a kept
/// put is kept, and each block has the body of its origin or the base image's.
pub fn barriers_keep_order()
    ensures before { (base image : List (List ℕ)) (requests : List Request) (origins : List (Option ℕ)) (i j : ℕ) →
        IsOrderClosed base requests image origins → IsOrderedPut requests i → Fenced requests i j →
        IsKept requests origins j → IsKept requests origins i }
    ensures barrier { (base image : List (List ℕ)) (requests : List Request) (origins : List (Option ℕ)) (i j : ℕ) →
        IsOrderClosed base requests image origins → IsOrderedPut requests i → IsFence requests i → i < j →
        IsKept requests origins j → IsKept requests origins i }
    ensures overwritten { (base image : List (List ℕ)) (requests : List Request) (origins : List (Option ℕ)) (i block : ℕ) →
        IsOrderClosed base requests image origins → IsKept requests origins i → IsPutOf requests i block →
        (id : ℕ) × HasOrigin origins block id × (i ≤ id) }
    ensures body { (base image : List (List ℕ)) (requests : List Request) (origins : List (Option ℕ)) (block id : ℕ) →
        IsOrderClosed base requests image origins → HasOrigin origins block id →
        IsPutWith requests id (disk_of image block) }
    ensures origin_or_base { (base image : List (List ℕ)) (requests : List Request) (origins : List (Option ℕ)) (block : ℕ) →
        IsOrderClosed base requests image origins →
        ((id : ℕ) × HasOrigin origins block id) ⊎ (disk_of image block ≡ disk_of base block) }
{}

/// A law, which does nothing when it is called: a barrier or a flush stands between two places exactly where more
/// of them stand before the second than before the first.
pub fn barriers_divide_epochs()
    ensures counted { (requests : List Request) (i j : ℕ) →
        Fenced requests i j → epoch requests i < epoch requests j }
    ensures fenced { (requests : List Request) (i j : ℕ) →
        i ≤ j → epoch requests i < epoch requests j → Fenced requests i j }
{}

/// A law, which does nothing when it is called: for each pair that a call covers, where requests before a barrier
/// hold what the call covers, one of two stands there: an ordered page of at least that version, or the commit
/// block of a transaction with a later entry that removed the file or unmapped the block.
pub fn held_pairs_were_sent_or_given_up()
    ensures sent_or_given_up { (h : History WalkEnd) (s : Session) (call : BegunCall) (barrier f i n : ℕ) →
        HasTrees h → CommitOrder s → AreHeld h s (λ o. o ≤ barrier) (Covers h call) (CoversEntry call) → Covers h call f i n →
        ((p v : ℕ) × HasNote s p (Page f i v) × IsOrdered s.requests p × (p ≤ barrier) × (n ≤ v))
        ⊎ ((k c m : ℕ) × IsCommit s k c × (c ≤ barrier) × IsEntryOf h m k × (n < m) × IsUnmapped h f i m) }
{}
