//! Laws of zones that are used again.
ghost use Rattle.std.specs.Prelude.{◌≡◌, ℕ, Bool, true, false, List, length, Option, Some, slice_index_or};
ghost use Rattle.log_model.specs.Marks.{Transaction};
ghost use Rattle.page_cache.specs.Pages.{page_at};
ghost use Rattle.page_cache.specs.declared.cached_page.CachedPage.{CachedPage};
ghost use Rattle.host_machine.specs.Host.{send_page};
ghost use Rattle.host_machine.specs.State.{Host};
ghost use Rattle.commit_actor.specs.Journal.{is_submitted};
ghost use Rattle.host_machine.specs.laws.Contract.{Over, Contract, StandsAs, noted_history, KeepsImages, session, view_of};
ghost use Rattle.host_machine.specs.laws.Reuse.{ReusesFreed, OrderlessCommitted, FreedWait, Owned};

/// A law, which does nothing when it is called: a page that is sent goes to a freed zone only behind the commit block of
/// the transaction that freed it, and without order only behind that of the transaction that took its zone.
pub fn pages_go_where_zones_were_given_up<A, T, V, C, R>()
    ensures freed { (o : Over A T V C R) (tree : V → Option T) (contract : Contract o (StandsAs tree)) (s : Host V C R) (txs : List Transaction) (N : ℕ) (p : CachedPage) (ordered barrier : Bool) (frees : ℕ → ℕ → Bool) →
        KeepsImages o (StandsAs tree) s txs N → page_at s.pages p.birth p.index ≡ Some p →
        FreedWait (noted_history o (StandsAs tree) s.history s.cuts) (session o (StandsAs tree) txs s) (length s.history) N (view_of o s.volume) frees →
        ReusesFreed (noted_history o (StandsAs tree) s.history s.cuts) (session o (StandsAs tree) txs s) frees →
        ReusesFreed (noted_history o (StandsAs tree) s.history s.cuts) (session o (StandsAs tree) txs (send_page o.model o.setup s p ordered barrier)) frees }
    ensures orderless { (o : Over A T V C R) (tree : V → Option T) (contract : Contract o (StandsAs tree)) (s : Host V C R) (txs : List Transaction) (N : ℕ) (p : CachedPage) (ordered barrier : Bool) →
        KeepsImages o (StandsAs tree) s txs N → page_at s.pages p.birth p.index ≡ Some p →
        (ordered ≡ false → is_submitted s.journal (slice_index_or s.owners p.block 0) ≡ true) →
        Owned (noted_history o (StandsAs tree) s.history s.cuts) (length s.history) (view_of o s.volume) s.owners →
        OrderlessCommitted (noted_history o (StandsAs tree) s.history s.cuts) (session o (StandsAs tree) txs s) →
        OrderlessCommitted (noted_history o (StandsAs tree) s.history s.cuts) (session o (StandsAs tree) txs (send_page o.model o.setup s p ordered barrier)) }
{}
