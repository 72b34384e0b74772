//! What a barrier or sync call that has begun waits for, and what ends the wait.
ghost use Rattle.std.specs.Prelude.{◌≡◌, ◌≢◌, ◌⊎◌, ◌<◌, ℕ, Bool, List, [], ◌∷◌, ◌++◌, Option, Some, None};
ghost use Rattle.blk_base.specs.Members.{In};
ghost use Rattle.order_model.specs.declared.completion.Completion.TheVariants as completions;
ghost use Rattle.flush_actor.specs.conflicts.Conflicts.{holder};
ghost use Rattle.flush_actor.specs.declared.call_kind.CallKind.{CallKind};
ghost use Rattle.flush_actor.specs.declared.call_kind.CallKind.TheVariants.{Reading, Changing, FileBarrier, DataBarrier};
ghost use Rattle.host_machine.specs.Causes as causes;
ghost use Rattle.host_machine.specs.Host.{advance};
ghost use Rattle.host_machine.specs.Model.{Model};
ghost use Rattle.host_machine.specs.Outcomes as outcomes;
ghost use Rattle.host_machine.specs.State.{Answered, SessionFull, Begins, Begun, Host, Setup};
ghost use Rattle.host_tests.specs.machine.Asking.{AsksFor, GoesOn, HasRoom, HasNoRoom, IsUnderWay, IsOut, IsNotOut, FlushBehind, NoFlushBehind, ended};

/// A law, which does nothing when it is called: a barrier or sync call that nothing refuses begins in its first step,
/// which is an entry of its own and submits nothing, also where no request more may go out.
pub fn barrier_and_sync_calls_begin<T, V, C, R>()
    ensures begins { (m : Model T V C R) (u : Setup) (full : Bool) (s : Host V C R) (t : ℕ) (c : C) (rest : List C) →
        AsksFor s t c rest → GoesOn s → m.reply s.volume c ≡ None → m.kind c ≢ Reading → m.kind c ≢ Changing →
        (advance m u full s t).step ≡ outcomes.Begun }
    ensures entry { (m : Model T V C R) (u : Setup) (full : Bool) (s : Host V C R) (t : ℕ) (c : C) (rest : List C) →
        AsksFor s t c rest → GoesOn s → m.reply s.volume c ≡ None → m.kind c ≢ Reading → m.kind c ≢ Changing →
        (advance m u full s t).host.history ≡ s.history ++ record { thread = t; call = c; what = Begins } ∷ [] }
    ensures nothing_sent { (m : Model T V C R) (u : Setup) (full : Bool) (s : Host V C R) (t : ℕ) (c : C) (rest : List C) →
        AsksFor s t c rest → GoesOn s → m.reply s.volume c ≡ None → m.kind c ≢ Reading → m.kind c ≢ Changing →
        (advance m u full s t).host.journal.flush.requests ≡ s.journal.flush.requests }
{}

/// A law, which does nothing when it is called: a call with a transaction as its target waits until that one's commit
/// block is submitted, and a barrier call is then done. Its cause is the least block that an earlier transaction holds,
/// where the target still runs and wants such a block, and else the commit block. At the limit the call ends.
pub fn begun_calls_wait_for_commit_blocks<T, V, C, R>()
    ensures done { (m : Model T V C R) (u : Setup) (full : Bool) (s : Host V C R) (t : ℕ) (c : C) (rest : List C) (b : Begun) (kind : CallKind) (k : ℕ) →
        IsUnderWay s t c rest b (record { kind = kind; target = Some k; need = None }) → (kind ≡ FileBarrier) ⊎ (kind ≡ DataBarrier) → IsOut s k →
        advance m u full s t ≡ record { host = ended s t c rest (Answered m.ok); step = outcomes.Done m.ok } }
    ensures earlier { (m : Model T V C R) (u : Setup) (full : Bool) (s : Host V C R) (t : ℕ) (c : C) (rest : List C) (b : Begun) (kind : CallKind) (k : ℕ) →
        IsUnderWay s t c rest b (record { kind = kind; target = Some k; need = None }) → IsNotOut s k → HasRoom s → k ≢ s.journal.running.number →
        advance m u full s t ≡ record { host = s; step = outcomes.Waiting (causes.Commit k) } }
    ensures running { (m : Model T V C R) (u : Setup) (full : Bool) (s : Host V C R) (t : ℕ) (c : C) (rest : List C) (b : Begun) (kind : CallKind) →
        IsUnderWay s t c rest b (record { kind = kind; target = Some s.journal.running.number; need = None }) → HasRoom s → s.journal.flush.conflicts.wanted ≡ [] →
        advance m u full s t ≡ record { host = s; step = outcomes.Waiting (causes.Commit s.journal.running.number) } }
    ensures held { (m : Model T V C R) (u : Setup) (full : Bool) (s : Host V C R) (t : ℕ) (c : C) (rest : List C) (b : Begun) (kind : CallKind) (block : ℕ) (more : List ℕ) →
        IsUnderWay s t c rest b (record { kind = kind; target = Some s.journal.running.number; need = None }) → HasRoom s → s.journal.flush.conflicts.wanted ≡ block ∷ more →
        advance m u full s t ≡ record { host = s; step = outcomes.Waiting (causes.Conflict block (holder s.journal.flush.conflicts.held block)) } }
    ensures limit { (m : Model T V C R) (u : Setup) (full : Bool) (s : Host V C R) (t : ℕ) (c : C) (rest : List C) (b : Begun) (kind : CallKind) (k : ℕ) →
        IsUnderWay s t c rest b (record { kind = kind; target = Some k; need = None }) → IsNotOut s k → HasNoRoom s →
        advance m u full s t ≡ record { host = ended s t c rest SessionFull; step = outcomes.SessionFull } }
{}

/// A law, which does nothing when it is called: a call that needs request `id` durable is done exactly where the
/// completion of a flush behind it was taken. Until then it waits. At the limit it ends, unless a flush behind the request
/// is submitted already.
pub fn sync_calls_wait_for_a_flush_behind<T, V, C, R>()
    ensures flushed { (m : Model T V C R) (u : Setup) (full : Bool) (s : Host V C R) (t : ℕ) (c : C) (rest : List C) (b : Begun) (kind : CallKind) (target : Option ℕ) (id f : ℕ) →
        IsUnderWay s t c rest b (record { kind = kind; target = target; need = Some id }) → In (completions.Flushed f) s.journal.flush.taken → id < f →
        advance m u full s t ≡ record { host = ended s t c rest (Answered m.ok); step = outcomes.Done m.ok } }
    ensures waits { (m : Model T V C R) (u : Setup) (full : Bool) (s : Host V C R) (t : ℕ) (c : C) (rest : List C) (b : Begun) (kind : CallKind) (target : Option ℕ) (id : ℕ) →
        IsUnderWay s t c rest b (record { kind = kind; target = target; need = Some id }) → ((f : ℕ) → id < f → In (completions.Flushed f) s.journal.flush.taken → ⊥) →
        HasRoom s ⊎ FlushBehind s id → (advance m u full s t).step ≡ outcomes.Waiting (causes.Durable id) }
    ensures limit { (m : Model T V C R) (u : Setup) (full : Bool) (s : Host V C R) (t : ℕ) (c : C) (rest : List C) (b : Begun) (kind : CallKind) (target : Option ℕ) (id : ℕ) →
        IsUnderWay s t c rest b (record { kind = kind; target = target; need = Some id }) → ((f : ℕ) → id < f → In (completions.Flushed f) s.journal.flush.taken → ⊥) →
        HasNoRoom s → NoFlushBehind s id → advance m u full s t ≡ record { host = ended s t c rest SessionFull; step = outcomes.SessionFull } }
{}
