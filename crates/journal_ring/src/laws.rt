//! Laws of the ring. Each does nothing when it is called.
ghost use Rattle.std.specs.Prelude.{◌≡◌, ◌≢◌, ◌↔◌, ◌⊎◌, ℕ, ◌+◌, ◌<◌, ◌≤◌, Some, None, List, [], ◌++◌};
ghost use Rattle.blk_base.specs.Members.{In};
ghost use Rattle.log_model.specs.Marks.{Logged, Transaction, Keep, Set, transaction_mark, mark_in};
ghost use Rattle.log_model.specs.Ring.{IsPlace, places_on, places_from};
ghost use Rattle.journal_ring.specs.Commits.{all_committed, places_in_use};
ghost use Rattle.journal_ring.specs.Journal.{first_home};
ghost use Rattle.journal_ring.specs.LogRing.{LogRing, ring_size, ring_free, place_blocks, commit_bodies, home_sent, all_home};
ghost use Rattle.journal_ring.specs.laws.Homes.{IsApart, IsRisingHomes};

/// A law, which does nothing when it is called: free and used places are together all places of the ring. What is
/// placed comes behind the places in use, and none of these places is another one; once all is home, no place is in use.
pub fn places_are_free_or_in_use()
    ensures counted { (r : LogRing) → r.used ≤ ring_size r → ring_free r + r.used ≡ ring_size r }
    ensures placed { (r : LogRing) (n : ℕ) → IsPlace r.places r.head → r.used ≤ ring_size r → n ≤ ring_free r →
        places_in_use (place_blocks n r) ≡ places_in_use r ++ places_from r.places n r.head }
    ensures apart { (r : LogRing) (i j : ℕ) → IsPlace r.places r.head → i < j → j < ring_size r →
        places_on r.places i r.head ≢ places_on r.places j r.head }
    ensures emptied { (r : LogRing) → places_in_use (all_home r) ≡ [] }
{}

/// A law, which does nothing when it is called: after a commit block, the bodies that wait to be sent home are its
/// transaction's and those that waited before, without what it revokes or has a newer body of.
pub fn last_bodies_wait_to_be_sent_home()
    ensures from { (ring : LogRing) (t : Transaction) (l : Logged) → IsApart t → IsRisingHomes ring.homes →
        In l (commit_bodies t.revokes t.bodies ring).homes →
        (transaction_mark t l.block ≡ Set l.body) ⊎ (In l ring.homes × (transaction_mark t l.block ≡ Keep)) }
    ensures new { (ring : LogRing) (t : Transaction) (b : ℕ) (x : List ℕ) → transaction_mark t b ≡ Set x →
        In (record { block = b; body = x }) (commit_bodies t.revokes t.bodies ring).homes }
    ensures left { (ring : LogRing) (t : Transaction) (l : Logged) → In l ring.homes →
        transaction_mark t l.block ≡ Keep → In l (commit_bodies t.revokes t.bodies ring).homes }
    ensures rising { (ring : LogRing) (t : Transaction) → IsRisingHomes ring.homes →
        IsRisingHomes (commit_bodies t.revokes t.bodies ring).homes }
{}

/// A law, which does nothing when it is called: while none is sent, a body waits exactly where it is the last one of its
/// block that was committed, and neither its own nor a later transaction revoked the block. They are sent from the
/// lowest block on, each once.
pub fn bodies_wait_until_they_are_sent()
    ensures waiting { (r : LogRing) (txs : List Transaction) (l : Logged) → r.homes ≡ [] →
        ((t : Transaction) → In t txs → IsApart t) →
        In l (all_committed r txs).homes ↔ (mark_in txs l.block ≡ Set l.body) }
    ensures lowest { (r : LogRing) (l : Logged) → IsRisingHomes r.homes → first_home r ≡ Some l →
        In l r.homes × ((h : Logged) → In h r.homes → l.block ≤ h.block) }
    ensures sent { (r : LogRing) (l h : Logged) → IsRisingHomes r.homes → first_home r ≡ Some l →
        In h (home_sent r).homes ↔ (In h r.homes × (h.block ≢ l.block)) }
    ensures none { (r : LogRing) → (first_home r ≡ None) ↔ (r.homes ≡ []) }
{}
