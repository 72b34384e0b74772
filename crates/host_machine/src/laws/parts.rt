//! The actors' steps on the host are those on their parts.
ghost use Rattle.std.specs.Prelude.{◌≡◌, Bool, Option};
ghost use Rattle.order_model.specs.declared.completion.Completion.{Completion};
ghost use Rattle.flush_actor.specs.Steps.{flush_turn, take_turn};
ghost use Rattle.commit_actor.specs.Steps.{commit_turn};
ghost use Rattle.host_machine.specs.Host.{commit_step, flush_step, take_step};
ghost use Rattle.host_machine.specs.Model.{Model};
ghost use Rattle.host_machine.specs.Parts.{with_commit, with_flushed};
ghost use Rattle.host_machine.specs.State.{Host, Setup};

/// A law, which does nothing when it is called: a step of the commit actor on the host is one on the journal's part and the
/// pages. Besides, the host notes the cut where a plan was built, and frees the zones of a transaction whose plan is done.
/// A step of the flush actor is one on its part alone, and so is a completion.
pub fn actors_step_on_their_parts<T, V, C, R>()
    ensures commit { (m : Model T V C R) (u : Setup) (s : Host V C R) (full : Bool) →
        commit_step m u full s ≡ with_commit m u s (commit_turn u.writers u.journal u.sequence full (m.bytes s.volume) s.journal s.pages) }
    ensures flush { (m : Model T V C R) (u : Setup) (s : Host V C R) (full : Bool) (next : Option Completion) →
        flush_step m u full s next ≡ with_flushed m u s (flush_turn full next s.journal.flush) }
    ensures take { (m : Model T V C R) (u : Setup) (s : Host V C R) (next : Option Completion) →
        take_step m u s next ≡ with_flushed m u s (take_turn next s.journal.flush) }
{}
