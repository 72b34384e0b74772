//! Laws of steps and of lists of steps.
ghost use Rattle.std.specs.Prelude.{ℕ, List, [], Option};
ghost use Rattle.log_model.specs.Marks.{Transaction};
ghost use Rattle.host_machine.specs.Host.{opened};
ghost use Rattle.journal_ring.specs.LogRing.{LogRing};
ghost use Rattle.host_machine.specs.State.{Host};
ghost use Rattle.host_machine.specs.laws.Contract.{Over, Contract, StandsAs, noted_history, session};
ghost use Rattle.host_machine.specs.laws.Rules.{AllRules};
ghost use Rattle.host_machine.specs.runs.Opened.{IsOpened};
ghost use Rattle.host_machine.specs.runs.Runs.{Event, stepped, steps, FitsWords, HasBlocks};
ghost use Rattle.host_machine.specs.runs.laws.Kept.{IsSound};
ghost use Rattle.host_machine.specs.runs.laws.Written.{AreWritten};

/// A law, which does nothing when it is called: a host that is opened has all that it keeps: the order rules, and what
/// it knows of images, pages, zones, its log ring, its begun calls and its flushes; and each step of a caller, of the
/// commit actor, of the write-back and of the flush actor leaves it so.
pub fn every_step_keeps_the_rules<A, T, V, C, R>()
    ensures opened { (o : Over A T V C R) (tree : V → Option T) (contract : Contract o (StandsAs tree)) (v : V) (ring : LogRing) (zones limit : ℕ) (programs : List (List C)) →
        IsOpened o (StandsAs tree) v ring zones limit programs → IsSound contract (opened o.model o.setup v ring zones limit programs) }
    ensures step { (o : Over A T V C R) (tree : V → Option T) (contract : Contract o (StandsAs tree)) (s : Host V C R) (e : Event) →
        AreWritten o.format o.setup.writers → HasBlocks o (StandsAs tree) → IsSound contract s → FitsWords o s → IsSound contract (stepped o s e) }
{}

/// A law, which does nothing when it is called: from an opened host, any list of steps leaves a submitted list that
/// keeps all order rules: log blocks behind one another and before their commit block, home writes behind it and before
/// the superblock that frees them, pages before the commit block of the transaction that changed their file, and none
/// where a log body could go.
pub fn runs_keep_the_rules<A, T, V, C, R>()
    ensures rules { (o : Over A T V C R) (tree : V → Option T) (contract : Contract o (StandsAs tree)) (v : V) (ring : LogRing) (zones limit : ℕ) (programs : List (List C)) (es : List Event) →
        AreWritten o.format o.setup.writers → HasBlocks o (StandsAs tree) → IsOpened o (StandsAs tree) v ring zones limit programs →
        FitsWords o (opened o.model o.setup v ring zones limit programs) →
        (txs : List Transaction) × AllRules o.program
        (noted_history o (StandsAs tree) (steps o (opened o.model o.setup v ring zones limit programs) es).history (steps o (opened o.model o.setup v ring zones limit programs) es).cuts)
        (session o (StandsAs tree) txs (steps o (opened o.model o.setup v ring zones limit programs) es)) }
    ensures kept { (o : Over A T V C R) (tree : V → Option T) (contract : Contract o (StandsAs tree)) (s : Host V C R) (es : List Event) →
        AreWritten o.format o.setup.writers → HasBlocks o (StandsAs tree) → IsSound contract s → FitsWords o s → IsSound contract (steps o s es) }
{}
