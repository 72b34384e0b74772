//! The rule of a queue, and what each step of a pass tells by it.
ghost use Rattle.std.specs.Prelude.{◌≡◌, List, [], ◌∷◌, ◌++◌};

use crossbeam_queue::protocol::{Join, Lesson, Outcome, Protocol, Split};
use crossbeam_queue::{Pass, RuledArrayQueue};
use std::collections::LinkedList;

/// What a pass may do, what it sent and what it took. No value of it is made.
pub struct PassView<T> {
    pub puts: bool,
    pub takes: bool,
    pub sent: LinkedList<T>,
    pub taken: LinkedList<T>,
}

/// The rule of a queue, as `crossbeam_queue` asks for one.
pub struct QueueRule;

impl<T> Protocol<T, PassView<T>> for QueueRule {
    ghost use Rattle.std.specs.Prelude.{[]};
    ghost use Rattle.schedulers.specs.dispatch.Rule.{InOrder, whole};

    ghost holds = { InOrder };

    ghost first = { whole [] [] };
}

/// How the first pass becomes the two passes of a queue, and how at last the consuming one takes in the producing one.
pub struct Roles;

impl<T> Split<PassView<T>> for Roles {
    ghost use Rattle.schedulers.specs.dispatch.Rule.{producing, consuming};

    ghost left = { λ v. producing v.sent };

    ghost right = { λ v. consuming v.taken };
}

impl<T> Join<PassView<T>> for Roles {
    ghost use Rattle.schedulers.specs.dispatch.Rule.{whole, spent};

    ghost both = { λ v w. whole w.sent v.taken };

    ghost spent = { spent };
}

/// What a put tells: done, the item is the last that was sent; refused, the queue held what was sent but not taken.
pub struct Puts;

impl<T> Outcome<T, PassView<T>> for Puts {
    ghost use Rattle.std.specs.Prelude.{◌≡◌, [], ◌∷◌, ◌++◌};
    ghost use Rattle.schedulers.specs.dispatch.Rule.{pass_view};

    ghost then = { λ v x w. w ≡ pass_view v.puts v.takes (v.sent ++ x ∷ []) v.taken };
}

impl<T> Lesson<T, PassView<T>> for Puts {
    ghost fact = { λ v items. (taken : List T) × (v.sent ≡ taken ++ items) };
}

/// What a take tells: done, the item is the last that was taken; at an empty queue, all that was sent was taken.
pub struct Takes;

impl<T> Outcome<T, PassView<T>> for Takes {
    ghost use Rattle.std.specs.Prelude.{◌≡◌, [], ◌∷◌, ◌++◌};
    ghost use Rattle.schedulers.specs.dispatch.Rule.{pass_view};

    ghost then = { λ v x w. w ≡ pass_view v.puts v.takes v.sent (v.taken ++ x ∷ []) };
}

impl<T> Lesson<T, PassView<T>> for Takes {
    ghost fact = { λ v items. (sent : List T) × (sent ≡ v.taken ++ items) };
}

/// What a pass with both lists learns of the queue.
pub struct Total;

impl<T> Lesson<T, PassView<T>> for Total {
    ghost fact = { λ v items. v.sent ≡ v.taken ++ items };
}

/// A queue under the rule.
pub type RuledQueue<T> = RuledArrayQueue<T, PassView<T>, QueueRule>;

/// A pass of such a queue.
pub type QueuePass<T> = Pass<T, PassView<T>>;
