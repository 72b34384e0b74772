//! Laws of the steps of the host, as far as images and pages go.
ghost use Rattle.std.specs.Prelude.{◌≡◌, ℕ, Bool, true, List, ◌∷◌, Option, Some, slice_get};
ghost use Rattle.order_model.specs.declared.completion.Completion.{Completion};
ghost use Rattle.log_model.specs.Marks.{Transaction};
ghost use Rattle.crash_laws.specs.Rules.{CommitOrder};
ghost use Rattle.host_machine.specs.Host.{advance, commit_step, writeback, flush_step, take_step};
ghost use Rattle.host_machine.specs.State.{Begun, Thread, Host};
ghost use Rattle.flush_actor.specs.Kinds.{is_begun};
ghost use Rattle.host_machine.specs.laws.Contract.{Over, Contract, StandsAs, KeepsImages, session};
ghost use Rattle.host_machine.specs.laws.Rules.{Keeps};

/// A law, which does nothing when it is called: a caller's step and a write-back keep the order rules and the facts of
/// images by themselves, with no premise on the log: a page is sent only where no body of the log can come over it.
pub fn pages_keep_the_rules_by_themselves<A, T, V, C, R>()
    ensures caller { (o : Over A T V C R) (tree : V → Option T) (contract : Contract o (StandsAs tree)) (txs : List Transaction) (N : ℕ) (s : Host V C R) (full : Bool) (t : ℕ) →
        Keeps o (StandsAs tree) s txs N →
        ((th : Thread C) (c : C) (rest : List C) (b : Begun) → slice_get s.threads t ≡ Some th → th.calls ≡ c ∷ rest → th.begun ≡ Some b → is_begun (o.model.kind c) ≡ true) →
        Keeps o (StandsAs tree) (advance o.model o.setup full s t).host txs N }
    ensures writeback { (o : Over A T V C R) (tree : V → Option T) (contract : Contract o (StandsAs tree)) (txs : List Transaction) (N : ℕ) (s : Host V C R) (full : Bool) (pick : ℕ) →
        Keeps o (StandsAs tree) s txs N → Keeps o (StandsAs tree) (writeback o.model o.setup full s pick).host txs N }
{}

/// A law, which does nothing when it is called: the steps of the commit actor and of the flush actor keep the facts of
/// images: the image of each closed transaction is that of a volume with the tree at its end, no file lies on a logged
/// body, and what a transaction freed waits for its commit block.
pub fn actors_keep_the_images<A, T, V, C, R>()
    ensures commit { (o : Over A T V C R) (tree : V → Option T) (contract : Contract o (StandsAs tree)) (txs : List Transaction) (N : ℕ) (s : Host V C R) (full : Bool) →
        KeepsImages o (StandsAs tree) s txs N → CommitOrder (session o (StandsAs tree) txs s) →
        (more : List Transaction) × (n : ℕ) × KeepsImages o (StandsAs tree) (commit_step o.model o.setup full s).host more n }
    ensures flush { (o : Over A T V C R) (tree : V → Option T) (contract : Contract o (StandsAs tree)) (txs : List Transaction) (N : ℕ) (s : Host V C R) (full : Bool) (next : Option Completion) →
        KeepsImages o (StandsAs tree) s txs N →
        (more : List Transaction) × (n : ℕ) × KeepsImages o (StandsAs tree) (flush_step o.model o.setup full s next).host more n }
    ensures take { (o : Over A T V C R) (tree : V → Option T) (contract : Contract o (StandsAs tree)) (txs : List Transaction) (N : ℕ) (s : Host V C R) (next : Option Completion) →
        KeepsImages o (StandsAs tree) s txs N →
        (more : List Transaction) × (n : ℕ) × KeepsImages o (StandsAs tree) (take_step o.model o.setup s next).host more n }
{}
