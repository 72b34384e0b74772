//! How plans and pages go out.
ghost use Rattle.std.specs.Prelude.{◌≡◌, ◌⊎◌, ◌-◌, ℕ, Bool, true, false, List, [], ◌∷◌, Some, None};
ghost use Rattle.order_model.specs.declared.request.Kind.TheVariants as puts;
ghost use Rattle.order_model.specs.declared.turn.Turn.TheVariants as turns;
ghost use Rattle.page_cache.specs.Pages.{page_at};
ghost use Rattle.page_cache.specs.declared.cached_page.CachedPage.{CachedPage};
ghost use Rattle.page_cache.specs.declared.cached_page.PageState.TheVariants.{Dirty, Loose};
ghost use Rattle.commit_actor.specs.Journal.{Plan, Idle, Committing};
ghost use Rattle.flush_actor.specs.declared.call_kind.CallKind.{CallKind};
ghost use Rattle.flush_actor.specs.declared.call_kind.CallKind.TheVariants.{FileBarrier, FileSync, WholeSync};
ghost use Rattle.journal_ring.specs.running.Plan.{Planned};
ghost use Rattle.host_machine.specs.Causes as causes;
ghost use Rattle.host_machine.specs.Host.{advance, commit_step};
ghost use Rattle.host_machine.specs.Model.{Model};
ghost use Rattle.host_machine.specs.Outcomes as outcomes;
ghost use Rattle.host_machine.specs.State.{SessionFull, Begun, Host, Setup};
ghost use Rattle.host_tests.specs.machine.Asking.{GoesOn, HasRoom, HasNoRoom, IsUnderWay, ended, with_request};
ghost use Rattle.host_tests.specs.machine.Closing.{with_phase};

/// A law, which does nothing when it is called: the requests of a plan go out one a step, in order, each with its own barrier
/// flag, and nothing else happens. With the last one the actor is idle again, and the zones that waited for the transaction
/// are free: with its submission, and not before.
pub fn plans_go_out_one_by_one<T, V, C, R>()
    ensures next { (m : Model T V C R) (u : Setup) (s : Host V C R) (p : Plan) (first q : Planned) (qs : List Planned) → GoesOn s → HasRoom s → s.journal.phase ≡ Committing p → p.rest ≡ first ∷ q ∷ qs →
        commit_step m u false s ≡ record { host = with_request (with_phase s (Committing (record p { rest = q ∷ qs }))) first.note (puts.Put first.block first.body) true first.barrier; turn = turns.Did } }
    ensures last { (m : Model T V C R) (u : Setup) (s : Host V C R) (p : Plan) (first : Planned) → GoesOn s → HasRoom s → s.journal.phase ≡ Committing p → p.rest ≡ first ∷ [] →
        ((commit_step m u false s).host.journal.flush.requests ≡ (with_request s first.note (puts.Put first.block first.body) true first.barrier).journal.flush.requests)
        × ((commit_step m u false s).host.journal.phase ≡ Idle)
        × ((commit_step m u false s).host.volume ≡ m.release s.volume (s.journal.running.number - 1)) }
    ensures limit { (m : Model T V C R) (u : Setup) (full : Bool) (s : Host V C R) (p : Plan) (first : Planned) (qs : List Planned) → GoesOn s → HasNoRoom s → s.journal.phase ≡ Committing p → p.rest ≡ first ∷ qs →
        commit_step m u full s ≡ record { host = s; turn = turns.SessionFull } }
    ensures queue { (m : Model T V C R) (u : Setup) (s : Host V C R) (p : Plan) (first : Planned) (qs : List Planned) → GoesOn s → HasRoom s → s.journal.phase ≡ Committing p → p.rest ≡ first ∷ qs →
        commit_step m u true s ≡ record { host = s; turn = turns.QueueFull } }
{}

/// A law, which does nothing when it is called: a begun call that is to send a page ends at the limit, also where the queue is
/// full; where only the queue is full it waits, and has passed nothing. A call that has no page left and would wait for the
/// running transaction ends at the limit too, and then wants nothing.
pub fn pages_of_begun_calls_need_room<T, V, C, R>()
    ensures limit { (m : Model T V C R) (u : Setup) (full : Bool) (s : Host V C R) (t : ℕ) (c : C) (rest : List C) (b : Begun) (kind : CallKind) (f i : ℕ) (more : List (ℕ × ℕ)) (p : CachedPage) →
        IsUnderWay s t c rest b (record { kind = kind; target = None; need = None }) → b.list ≡ (f, i) ∷ more → page_at s.pages f i ≡ Some p → (p.state ≡ Dirty) ⊎ (p.state ≡ Loose) → HasNoRoom s →
        advance m u full s t ≡ record { host = ended s t c rest SessionFull; step = outcomes.SessionFull } }
    ensures queue { (m : Model T V C R) (u : Setup) (s : Host V C R) (t : ℕ) (c : C) (rest : List C) (b : Begun) (kind : CallKind) (f i : ℕ) (more : List (ℕ × ℕ)) (p : CachedPage) →
        IsUnderWay s t c rest b (record { kind = kind; target = None; need = None }) → b.list ≡ (f, i) ∷ more → page_at s.pages f i ≡ Some p → (p.state ≡ Dirty) ⊎ (p.state ≡ Loose) → HasRoom s →
        advance m u true s t ≡ record { host = s; step = outcomes.Waiting causes.QueueFull } }
    ensures none_left { (m : Model T V C R) (u : Setup) (full : Bool) (s : Host V C R) (t : ℕ) (c : C) (rest : List C) (b : Begun) (kind : CallKind) →
        IsUnderWay s t c rest b (record { kind = kind; target = None; need = None }) → b.list ≡ [] → (b.kind ≡ FileBarrier) ⊎ ((b.kind ≡ FileSync) ⊎ (b.kind ≡ WholeSync)) → HasNoRoom s →
        advance m u full s t ≡ record { host = ended s t c rest SessionFull; step = outcomes.SessionFull } }
{}
