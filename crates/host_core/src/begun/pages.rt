//! Which page of a call's list is next, and the step that sends it.
ghost use Rattle.std.specs.Prelude.{◌≡◌, ℕ, ◌+◌, ◌<◌, ◌≤◌, ◌++◌, true, Some, None, IfSome, IsNone, drop, length};
ghost use Rattle.std.specs.Option.{option_map};
ghost use Rattle.page_cache.specs.Pages as cache;
ghost use Rattle.page_cache.specs.Pages.{page_at};
ghost use Rattle.flush_actor.specs.Outcomes.{sent_between};
ghost use Rattle.flush_actor.specs.declared.wait.Wait.{Wait};
ghost use Rattle.host_machine.specs.Host.{unsent_on};
ghost use Rattle.host_core.specs.begun.Steps.{walks, keeps_all};
ghost use Rattle.host_core.specs.begun.code.Told.{gone_by, found_queue_full};

use crate::begun::Begun;
use crate::begun::waiting::BegunProgress;
use commit_actor::JournalPart;
use host_answers::Cause;
use order_model::{Kind, Note, Outlet, Request, Turn};
use page_cache::{CachedPage, PageState, Pages};

// The first page on the list, from a place on, that is there and unsent, with its place.
pub fn next_unsent(pages: &Pages, list: &[(u64, u32)], from: usize) -> Option<(usize, CachedPage)>
    ensures next { option_map (λ x. (x.1, drop (x.0 + 1) list.now)) result ≡ unsent_on pages.now.pages (drop from list.now) }
    ensures within { IfSome result (λ x. (from ≤ x.0) × (x.0 < length list.now)) }
    ensures found { IfSome result (λ x. page_at pages.now.pages x.1.birth x.1.index ≡ Some x.1) }
{
    for at in from..list.len() {
        let (birth, index) = list[at];
        if matches!(
            pages.state(birth, index),
            Some(PageState::Dirty | PageState::Loose)
        )
            && let Some(page) = pages.page(birth, index)
        {
            return Some((at, page));
        }
    }
    None
}

// Sends the next page on the call's list, if one is left.
pub fn send_next<O: Outlet<Request>>(
    journal: &mut JournalPart,
    pages: &mut Pages,
    begun: &Begun,
    out: &mut O,
) -> Option<BegunProgress>
    ensures some { IfSome result (λ p. (t : ℕ) (w : Wait) →
        gone_by begun.now.list journal.new.part pages.new.pages p ≡ walks (found_queue_full p) journal.old.part pages.old.pages t w begun.now) }
    ensures none { IsNone result → unsent_on pages.old.pages begun.now.list ≡ None }
    ensures left { IsNone result → (journal.new ≡ journal.old) × (pages.new ≡ pages.old) }
    ensures same { keeps_all journal.old journal.new }
    ensures pages { pages.new ≡ cache.with_pages pages.old pages.new.pages }
    ensures sent { O.sent out.new ≡ O.sent out.old ++ sent_between journal.old.part.flush journal.new.part.flush }
    ensures full { IfSome result (λ p. found_queue_full p ≡ true → O.was_full out.old out.new) }
    ensures rest { O.rest out.new ≡ O.rest out.old }
{
    let (at, page) = next_unsent(pages, &begun.list, begun.passed)?;
    let last = next_unsent(pages, &begun.list, at + 1).is_none();
    let barrier = begun.kind.is_data() && last;
    let (birth, index) = (page.birth, page.index);
    let note = Note::Page {
        birth,
        index,
        call: page.version,
    };
    let kind = Kind::Put {
        block: page.block,
        body: page.body,
    };
    let id = journal.flush().submitted();
    match journal.submit(kind, true, barrier, note, out) {
        Turn::Did => {
            pages.mark(birth, index, PageState::Firm);
            Some(BegunProgress::Sent {
                id,
                passed: at + 1 - begun.passed,
                barrier: begun.sent_barrier || barrier,
            })
        }
        Turn::QueueFull => Some(BegunProgress::Waiting(Cause::QueueFull)),
        _ => Some(BegunProgress::Full),
    }
}
