//! What a scheduler may be given.
ghost use Rattle.std.specs.Prelude.{◌≡◌};
ghost use Rattle.thread_sides.specs.Admitted.{keeps_flags, may_accept};

use crate::id_flags::IdFlags;
use order_model::{Kind, Request};

// A barrier is order-preserving, and a flush is so and has the barrier flag.
fn keeps_order(request: &Request) -> bool
    ensures { result ≡ keeps_flags request.now }
{
    let is_flush = matches!(request.kind, Kind::Flush);
    (!request.barrier || request.ordered) && (!is_flush || (request.ordered && request.barrier))
}

/// Whether a scheduler that accepted so many requests, with these ids, may be given this one.
pub fn is_acceptable(flags: &IdFlags, accepted: usize, request: &Request) -> bool
    ensures { result ≡ may_accept flags.now accepted request.now }
{
    accepted < flags.limit() && flags.is_new(request.id) && keeps_order(request)
}
