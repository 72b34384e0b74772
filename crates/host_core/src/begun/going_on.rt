//! One step of a begun call.
ghost use Rattle.std.specs.Prelude.{◌≡◌, ◌<◌, ◌++◌, true, IfOk, OnErr, length, slice_index_or};
ghost use Rattle.page_cache.specs.Pages as cache;
ghost use Rattle.flush_actor.specs.Outcomes.{sent_between};
ghost use Rattle.flush_actor.specs.Waits.{no_wait};
ghost use Rattle.host_core.specs.begun.Steps.{goes_on, keeps_all, WaitsForGreat};
ghost use Rattle.host_core.specs.begun.code.Told.{gone_by, found_queue_full};

use crate::begun::Begun;
use crate::begun::pages::send_next;
use crate::begun::waiting::{BegunProgress, await_commit, pursue, still_durable};
use blk_base::NoMemory;
use commit_actor::JournalPart;
use flush_actor::Wait;
use order_model::{Outlet, Request};
use page_cache::Pages;

/// The next step of a thread's begun call: it sends a page of its list, or else waits or is answered. It takes no memory:
/// `NoMemory` stands for a transaction whose number has more than 32 bits.
pub fn go_on<O: Outlet<Request>>(
    journal: &mut JournalPart,
    pages: &mut Pages,
    thread: u32,
    begun: &Begun,
    out: &mut O,
) -> Result<BegunProgress, NoMemory>
    requires { thread < length journal.old.part.flush.waits }
    ensures step { IfOk result (λ p. gone_by begun.now.list journal.new.part pages.new.pages p ≡
        goes_on (found_queue_full p) journal.old.part pages.old.pages thread (slice_index_or journal.old.part.flush.waits thread no_wait) begun.now) }
    ensures err { OnErr result ((journal.new ≡ journal.old) × (pages.new ≡ pages.old)) }
    ensures great { OnErr result (WaitsForGreat journal.old.part (slice_index_or journal.old.part.flush.waits thread no_wait) begun.now) }
    ensures same { keeps_all journal.old journal.new }
    ensures pages { pages.new ≡ cache.with_pages pages.old pages.new.pages }
    ensures sent { O.sent out.new ≡ O.sent out.old ++ sent_between journal.old.part.flush journal.new.part.flush }
    ensures full { IfOk result (λ p. found_queue_full p ≡ true → O.was_full out.old out.new) }
    ensures rest { O.rest out.new ≡ O.rest out.old }
{
    let wait = journal.flush().wait(thread).unwrap_or(Wait::none());
    if let Some(id) = wait.need {
        return Ok(still_durable(journal, id));
    }
    if let Some(k) = wait.target {
        return await_commit(journal, thread, wait, k);
    }
    match send_next(journal, pages, begun, out) {
        Some(progress) => Ok(progress),
        None => pursue(journal, thread, wait, begun),
    }
}
