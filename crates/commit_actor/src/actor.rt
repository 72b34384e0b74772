//! The step of the commit actor.
ghost use Rattle.std.specs.Prelude.{◌≡◌, ◌≢◌, ◌++◌, true};
ghost use Rattle.order_model.specs.declared.turn.Turn.TheVariants.{QueueFull, NoMemory};
ghost use Rattle.page_cache.specs.Pages.{with_pages};
ghost use Rattle.journal_ring.specs.running.Closing.{writers};
ghost use Rattle.flush_actor.specs.Outcomes.{is_queue_full, sent_between};
ghost use Rattle.commit_actor.specs.Actor.{with_part, builds_plan};
ghost use Rattle.commit_actor.specs.Steps.{commit_turn};

use crate::JournalPart;
use blk_base::BodySource;
use order_model::{Outlet, Request, Turn};
use page_cache::Pages;
use std::alloc::Global;

/// One step of the commit actor. It begins to close the running transaction where that is wanted; while it is closed, it
/// sends a page of a file that it changed, or does a step of the checkpoint, or builds the plan; then it sends the plan.
///
/// Only where a plan is built it takes memory, and where that is refused, all is as it was. The host notes a cut where a
/// plan was built, so the phase was Closing and is no longer, and releases the zones of the transaction before the
/// running one where the phase is Idle after it was Committing.
pub fn commit_step<B: BodySource, O: Outlet<Request>>(
    alloc: Global,
    part: &mut JournalPart,
    pages: &mut Pages,
    bodies: &B,
    out: &mut O,
) -> Turn
    ensures step { result ≢ NoMemory → record { part = part.new.part; pages = pages.new.pages; turn = result } ≡
        commit_turn (writers part.old.made_with) part.old.journal part.old.made_with.sequence (is_queue_full result) (B.bodies bodies.now) part.old.part pages.old.pages }
    ensures memory { result ≡ NoMemory → (builds_plan (writers part.old.made_with) part.old.part pages.old.pages ≡ true) × (part.new ≡ part.old) × (pages.new ≡ pages.old) }
    ensures same { part.new ≡ with_part part.old part.new.part }
    ensures pages { pages.new ≡ with_pages pages.old pages.new.pages }
    ensures sent { O.sent out.new ≡ O.sent out.old ++ sent_between part.old.part.flush part.new.part.flush }
    ensures full { result ≡ QueueFull → O.was_full out.old out.new }
    ensures rest { O.rest out.new ≡ O.rest out.old }
{
    part.step(alloc, pages, bodies, out)
}
