//! What a caller may know of any scheduler.
ghost use Rattle.std.specs.Prelude.{◌≡◌, ◌<◌, ◌≤◌, ◌↔◌, ◌&&◌, ℕ, not, true, None, length, nat_lt};
ghost use Rattle.order_model.specs.Carrying.{Carries};

use crate::reassign::Scheduler;

/// How long the list of a scheduler is; and what is known of the state that it is in.
pub fn lawful_eligible<S: Scheduler>(sched: &S) -> u32
    ensures count { result ≡ S.steps.eligible (S.state sched.now) }
    ensures carries { Carries (S.steps.seen (S.state sched.now)) }
    ensures none { (pick : ℕ) → (S.steps.command (S.state sched.now) pick ≡ None) ↔ (result ≤ pick) }
    ensures some { 0 < length (S.steps.seen (S.state sched.now)).waiting → 0 < result }
    ensures can { S.steps.can_accept (S.state sched.now) ≡ (not (S.steps.seen (S.state sched.now)).blocked && nat_lt (length (S.steps.seen (S.state sched.now)).waiting) (S.steps.seen (S.state sched.now)).capacity) }
    ensures waits { (S.steps.seen (S.state sched.now)).blocked ≡ true → 0 < result }
{
    let _ = sched.can_accept();
    sched.eligible()
}
