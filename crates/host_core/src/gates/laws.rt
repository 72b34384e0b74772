//! The law. It does nothing when it is called.
ghost use Rattle.std.specs.Prelude.{◌≡◌};
ghost use Rattle.minix_layout.specs.declared.division.Geometry.{Geometry};
ghost use Rattle.tree_model.specs.declared.call.Call.{Call};
ghost use Rattle.tree_model.specs.declared.call.Reply.{Reply};
ghost use Rattle.volume_steps.specs.Now.{VolumeNow};
ghost use Rattle.host_machine.specs.Host as machine;
ghost use Rattle.host_machine.specs.State.{Host, Setup};
ghost use Rattle.minix_host.specs.Sessions.{model_of};
ghost use Rattle.host_core.specs.gates.Hindrances.{hindrance_by};

/// A law, which does nothing when it is called: a call waits on the host where it does by the journal's part and the
/// volume, and for the same cause.
pub fn calls_wait_by_their_parts()
    ensures { (g : Geometry) (u : Setup) (s : Host VolumeNow Call Reply) (c : Call) →
        machine.hindrance (model_of (λ c. c) g) u s c ≡ hindrance_by u.writers u.zmap u.quota s.journal s.volume c }
{}
