//! Which answer comes first.
ghost use Rattle.std.specs.Prelude.{◌≡◌, ◌≢◌, ◌≤◌, ◌+◌, ℕ, Bool, false, List, [], ◌∷◌, ◌++◌, length, Option, Some, None, slice_get};
ghost use Rattle.blk_base.specs.Members.{In};
ghost use Rattle.order_model.specs.declared.completion.Completion.{Completion};
ghost use Rattle.order_model.specs.declared.completion.Completion.TheVariants as completions;
ghost use Rattle.flush_actor.specs.declared.call_kind.CallKind.TheVariants.{Reading};
ghost use Rattle.host_machine.specs.Host.{advance};
ghost use Rattle.host_machine.specs.Model.{Model};
ghost use Rattle.host_machine.specs.Outcomes as outcomes;
ghost use Rattle.host_machine.specs.State.{Answered, Down, ReadOnly, Begun, Host, Setup};
ghost use Rattle.host_tests.specs.machine.Asking.{AsksFor, GoesOn, IsPlain, ended};

/// A law, which does nothing when it is called. A thread with no call left is at its end, and so is
/// one that is not there. Once the power went, every call
/// ends as down, whether it has begun or not. Else, once a request failed, every call that does not read ends as
/// read-only, by the first request that failed; one that reads is still answered. Else what the tree refuses is answered,
/// whatever the call is: with a transaction being closed, with a full log, and where no request more may go out.
pub fn calls_end_in_this_order<T, V, C, R>()
    ensures at_end { (m : Model T V C R) (u : Setup) (full : Bool) (s : Host V C R) (t : ℕ) (b : Option Begun) →
        slice_get s.threads t ≡ Some (record { calls = []; begun = b }) →
        advance m u full s t ≡ record { host = s; step = outcomes.Ended } }
    ensures no_thread { (m : Model T V C R) (u : Setup) (full : Bool) (s : Host V C R) (t : ℕ) →
        slice_get s.threads t ≡ None → advance m u full s t ≡ record { host = s; step = outcomes.Ended } }
    ensures down { (m : Model T V C R) (u : Setup) (full : Bool) (s : Host V C R) (t : ℕ) (c : C) (rest : List C) (b : Option Begun) →
        slice_get s.threads t ≡ Some (record { calls = c ∷ rest; begun = b }) → In completions.Cut s.journal.flush.taken →
        advance m u full s t ≡ record { host = ended s t c rest Down; step = outcomes.Down } }
    ensures read_only { (m : Model T V C R) (u : Setup) (full : Bool) (s : Host V C R) (t : ℕ) (c : C) (rest : List C) (b : Option Begun) (id : ℕ) (before after : List Completion) →
        slice_get s.threads t ≡ Some (record { calls = c ∷ rest; begun = b }) → m.kind c ≢ Reading →
        (In completions.Cut s.journal.flush.taken → ⊥) → s.journal.flush.taken ≡ before ++ completions.Failed id ∷ after → ((j : ℕ) → In (completions.Failed j) before → ⊥) →
        advance m u full s t ≡ record { host = ended s t c rest (ReadOnly id); step = outcomes.ReadOnly id } }
    ensures reads { (m : Model T V C R) (u : Setup) (full : Bool) (s : Host V C R) (t : ℕ) (c : C) (rest : List C) →
        AsksFor s t c rest → m.kind c ≡ Reading → m.reply s.volume c ≡ None → m.hinders s.volume c ≡ false → (In completions.Cut s.journal.flush.taken → ⊥) →
        (advance m u full s t).step ≡ outcomes.Done (m.apply s.volume (length s.history + 1) s.journal.running.number c).reply }
    ensures refused { (m : Model T V C R) (u : Setup) (full : Bool) (s : Host V C R) (t : ℕ) (c : C) (rest : List C) (why : R) →
        AsksFor s t c rest → GoesOn s → m.reply s.volume c ≡ Some why →
        advance m u full s t ≡ record { host = ended s t c rest (Answered why); step = outcomes.Done why } }
{}
