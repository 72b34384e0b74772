//! The law. It does nothing when it is called.
ghost use Rattle.std.specs.Prelude.{◌≡◌, ℕ, Bool, List};
ghost use Rattle.flush_actor.specs.declared.wait.Wait.{Wait};
ghost use Rattle.host_machine.specs.Host.{continue_begun};
ghost use Rattle.host_machine.specs.Model.{Model};
ghost use Rattle.host_machine.specs.State.{Host, Setup, Begun};
ghost use Rattle.host_core.specs.begun.Parts.{after_going};
ghost use Rattle.host_core.specs.begun.Steps.{goes_on};

/// A law, which does nothing when it is called: a step of a begun call on the journal's part and the pages is the host's
/// own, once the host has ended the call that is answered, or has kept how far it came.
pub fn begun_calls_step_on_their_parts<T, V, C, R>()
    ensures { (m : Model T V C R) (u : Setup) (full : Bool) (s : Host V C R) (t : ℕ) (c : C) (rest : List C) (w : Wait) (b : Begun) →
        after_going m u s t c rest b (goes_on full s.journal s.pages t w b) ≡ continue_begun m u full s t c rest w b }
{}
