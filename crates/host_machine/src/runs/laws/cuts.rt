//! Laws of power cuts.
ghost use Rattle.std.specs.Prelude.{List, Option};
ghost use Rattle.log_model.specs.Marks.{Transaction};
ghost use Rattle.host_machine.specs.State.{Host};
ghost use Rattle.host_machine.specs.laws.Contract.{Over, Contract, StandsAs};
ghost use Rattle.host_machine.specs.runs.Sentences.{KeepsSentences};
ghost use Rattle.host_machine.specs.runs.laws.Kept.{IsSound};

/// A law, which does nothing when it is called: after a power cut on a medium that keeps the order of barriers, recovery
/// gives the tree after a prefix of the transactions; each file block has a version no older than its file's last change
/// asks for; what a barrier call that answered Ok covers survived or was superseded, where a later write survived; and
/// what a sync call that answered Ok covers did so in any case.
pub fn power_cuts_leave_whole_transactions<A, T, V, C, R>()
    ensures sentences { (o : Over A T V C R) (tree : V → Option T) (contract : Contract o (StandsAs tree)) (s : Host V C R) →
        IsSound contract s → (txs : List Transaction) × KeepsSentences o (StandsAs tree) s txs }
{}
