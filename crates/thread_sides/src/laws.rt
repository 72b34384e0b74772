//! The laws, each a public function that does nothing when it is called.
ghost use Rattle.std.specs.Prelude.{◌≡◌, ◌↔◌, ℕ, ◌++◌, IsTrue, true, false, Bool, List, [], ◌∷◌, length, map, set, replicate, Some};
ghost use Rattle.order_model.specs.declared.command.Command.{Command};
ghost use Rattle.order_model.specs.declared.request.Request.{Request};
ghost use Rattle.order_model.specs.Carrying.{SchedSeen};
ghost use Rattle.order_model.specs.Device.{Seen, IsReceivable, NoneTwice};
ghost use Rattle.order_model.specs.Received.{all_ids, ids_of};
ghost use Rattle.schedulers.specs.reassign.Scheduler.{IsAcceptable};
ghost use Rattle.thread_sides.specs.Admitted.{may_accept, AreFlagged, AreCounted, may_take, flags_behind};

use schedulers::reassign::Scheduler;

/// A law, which does nothing when it is called: a request that passes the test may be given to a scheduler whose ids are
/// flagged, and its flag goes up then.
pub fn requests_that_pass_are_acceptable()
    ensures none { (limit : ℕ) → AreFlagged (replicate limit false) [] }
    ensures may { (p : SchedSeen) (flags : List Bool) (r : Request) → AreFlagged flags (map (λ (q : Request). q.id) p.accepted) → length flags ≡ p.limit →
        may_accept flags (length p.accepted) r ≡ true → IsAcceptable p r }
    ensures more { (ids : List ℕ) (flags : List Bool) (id : ℕ) → AreFlagged flags ids → AreFlagged (set flags id true) (ids ++ id ∷ []) }
{}

/// A law, which does nothing when it is called: a command that passes the test may be given to a device whose ids are
/// flagged, and its flags go up then.
pub fn commands_that_pass_are_receivable()
    ensures none { (limit : ℕ) → AreCounted (replicate limit false) [] }
    ensures may { (d : Seen) (flags : List Bool) (c : Command) → AreCounted flags (all_ids d.took) → length flags ≡ d.limit →
        may_take flags (length d.surface) c ≡ true → IsReceivable d c }
    ensures flags { (d : Seen) (flags : List Bool) (c : Command) → AreCounted flags (all_ids d.took) →
        may_take flags (length d.surface) c ≡ true → AreCounted (flags_behind flags c) (all_ids (d.took ++ c ∷ [])) }
    ensures length { (blocks : ℕ) (flags : List Bool) (c : Command) → may_take flags blocks c ≡ true → length (flags_behind flags c) ≡ length flags }
{}

/// A law, which does nothing when it is called: the list of a scheduler is empty exactly where nothing waits in it.
pub fn lists_have_what_waits<S: Scheduler>()
    ensures { (s : S.State) → S.valid s → (S.steps.eligible s ≡ 0) ↔ ((S.steps.seen s).waiting ≡ []) }
{}

/// Whether every request that the scheduler accepted was sent out.
pub fn has_sent_all<S: Scheduler>(sched: &S) -> bool
    ensures { IsTrue result ↔ ((S.steps.seen (S.state sched.now)).waiting ≡ []) }
{
    // These calls tell what is known of its state.
    lists_have_what_waits::<S>();
    let _ = sched.can_accept();
    sched.eligible() == 0
}
