//! The laws. Each does nothing when it is called.
ghost use Rattle.std.specs.Prelude.{◌≡◌, ℕ, ◌+◌, true, length, List, Some};
ghost use Rattle.minix_layout.specs.declared.division.Geometry.{Geometry};
ghost use Rattle.tree_model.specs.declared.call.Call.{Call};
ghost use Rattle.tree_model.specs.declared.call.Reply.{Reply};
ghost use Rattle.volume_steps.specs.Now.{VolumeNow};
ghost use Rattle.volume_steps.specs.Calls.{called};
ghost use Rattle.host_machine.specs.Host as machine;
ghost use Rattle.host_machine.specs.State.{Host, Setup};
ghost use Rattle.minix_host.specs.Calls.{refusal};
ghost use Rattle.minix_host.specs.Sessions.{model_of};
ghost use Rattle.host_core.specs.at_once.Parts.{parts_in, after_going};
ghost use Rattle.host_core.specs.at_once.Replies.{is_of_tree};
ghost use Rattle.host_core.specs.at_once.Steps.{steps_plainly};

/// A law, which does nothing when it is called: a step of a plain call on its parts is the host's own, once the host has
/// ended the call that is answered.
pub fn plain_calls_step_on_their_parts()
    ensures { (g : Geometry) (u : Setup) (s : Host VolumeNow Call Reply) (t : ℕ) (c : Call) (rest : List Call) →
        let m = model_of (λ (x : Call). x) g in
        after_going m u s t c rest (steps_plainly u.writers u.zmap u.quota (parts_in s) (length s.history + 1) c) ≡ machine.plain m u s t c rest }
{}

/// A law, which does nothing when it is called: what refuses a call and what a call is answered are replies of the tree.
pub fn replies_are_of_the_tree()
    ensures refused { (v : VolumeNow) (c : Call) (reply : Reply) → refusal v c ≡ Some reply → is_of_tree reply ≡ true }
    ensures answered { (v : VolumeNow) (n tx : ℕ) (c : Call) → is_of_tree (called v n tx c).reply ≡ true }
{}
