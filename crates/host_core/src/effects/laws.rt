//! The law. It does nothing when it is called.
ghost use Rattle.std.specs.Prelude.{◌≡◌};
ghost use Rattle.volume_model.specs.Touched.{Touched};
ghost use Rattle.host_machine.specs.Host.{change};
ghost use Rattle.host_machine.specs.Model.{Model};
ghost use Rattle.host_machine.specs.State.{Host, Setup};
ghost use Rattle.host_core.specs.effects.Parts.{told, after_change};

/// A law, which does nothing when it is called: what a call that was done makes of the journal's part, the pages and the
/// owners is what it makes of the host.
pub fn calls_change_their_parts<T, V, C, R>()
    ensures { (m : Model T V C R) (u : Setup) (s : Host V C R) (c : C) (v : V) (r : R) (t : Touched) →
        change m u s c (record { volume = v; reply = r; touched = told t }) ≡ after_change m s v t }
{}
