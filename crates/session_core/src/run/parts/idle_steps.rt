//! Which steps of a host change nothing: two laws, each a public function that does nothing when it is called.
ghost use Rattle.std.specs.Prelude.{◌≡◌, ◌≢◌, ℕ, Bool, true, Option};
ghost use Rattle.order_model.specs.declared.completion.Completion.{Completion};
ghost use Rattle.order_model.specs.declared.turn.Turn.TheVariants as turns;
ghost use Rattle.host_machine.specs.Host as machine;
ghost use Rattle.host_machine.specs.Model.{Model};
ghost use Rattle.host_machine.specs.State.{Host, Setup};
ghost use Rattle.session_core.specs.run.parts.Still.{is_still, AreSame};

/// A law, which does nothing when it is called: a caller's step that waits, or finds no call left, changes nothing but
/// whether the running transaction is to be closed and what the thread waits for. So where these two are as before, the
/// host is as before.
pub fn waiting_steps_leave_the_host<T, V, C, R>()
    ensures { (m : Model T V C R) (u : Setup) (full : Bool) (h : Host V C R) (t : ℕ) →
        is_still (machine.advance m u full h t).step ≡ true → AreSame h (machine.advance m u full h t).host t → (machine.advance m u full h t).host ≡ h }
{}

/// A law, which does nothing when it is called: a step of an actor that did nothing leaves the host as it was.
pub fn idle_turns_leave_the_host<T, V, C, R>()
    ensures commit { (m : Model T V C R) (u : Setup) (full : Bool) (h : Host V C R) → (machine.commit_step m u full h).turn ≢ turns.Did → (machine.commit_step m u full h).host ≡ h }
    ensures writeback { (m : Model T V C R) (u : Setup) (full : Bool) (h : Host V C R) (pick : ℕ) → (machine.writeback m u full h pick).turn ≢ turns.Did → (machine.writeback m u full h pick).host ≡ h }
    ensures flush { (m : Model T V C R) (u : Setup) (full : Bool) (h : Host V C R) (next : Option Completion) → (machine.flush_step m u full h next).turn ≢ turns.Did → (machine.flush_step m u full h next).host ≡ h }
    ensures take { (m : Model T V C R) (u : Setup) (h : Host V C R) (next : Option Completion) → (machine.take_step m u h next).turn ≢ turns.Did → (machine.take_step m u h next).host ≡ h }
{}
