//! What is noted of a call once it took a step.
ghost use Rattle.std.specs.Prelude.{◌≡◌, ◌≢◌, ◌+◌, ◌-◌, ◌≤◌, ◌<◌, ◌++◌, ◌∷◌, [], ℕ, List, None, Some, drop, length, set, vec_capacity};
ghost use Rattle.std.specs.Option.{option_map};
ghost use Rattle.commit_actor.specs.Calls.{with_flush};
ghost use Rattle.flush_actor.specs.Waits.{no_wait};
ghost use Rattle.host_answers.specs.declared.step.Step.TheVariants as steps;
ghost use Rattle.page_cache.specs.Pages.{Cache};
ghost use Rattle.tree_model.specs.declared.call.Call.{Call};
ghost use Rattle.volume_steps.specs.Now.{VolumeNow};
ghost use Rattle.host_core.specs.Answers.{IfStepped, found_queue_full};
ghost use Rattle.host_core.specs.code.Fields.{IsNext, IsWithin, KeepsNotes, host_of};
ghost use Rattle.host_core.specs.code.Progress.{is_queue_full, list_of, passed_on, progress_is, settled};
ghost use Rattle.host_answers.specs.declared.entry.EntryKind.TheVariants as kinds;
ghost use Rattle.host_core.specs.declared.thread.Thread.{Thread};

use crate::begun::Begun;
use crate::call_progress::CallProgress;
use crate::thread::Thread;
use commit_actor::JournalPart;
use flush_actor::Wait;
use host_answers::{Entry, EntryKind, Step};
use tree_model::Reply;

// The thread's next call begins or ends.
fn push_entry(history: &mut Vec<Entry>, caller: &Thread, thread: u32, what: EntryKind)
    requires { length history.old.items < vec_capacity history.old }
    ensures { history.new.items ≡ history.old.items ++ record { thread = thread; call = caller.now.ended; what = what } ∷ [] }
{
    history.push_reserved(Entry {
        thread,
        call: caller.ended,
        what,
    });
}

// The thread's call ends with this reply.
fn end_call(
    journal: &mut JournalPart,
    history: &mut Vec<Entry>,
    caller: &mut Thread,
    thread: u32,
    reply: Reply,
)
    requires thread { 1 ≤ thread }
    requires wait { thread - 1 < length journal.old.part.flush.waits }
    requires room { length history.old.items < vec_capacity history.old }
    requires left { caller.old.ended < length caller.old.program.items }
    requires within { IsWithin caller.old }
    ensures wait { journal.new ≡ with_flush journal.old (record journal.old.part.flush { waits = set journal.old.part.flush.waits (thread - 1) no_wait }) }
    ensures entry { history.new.items ≡ history.old.items ++ record { thread = thread; call = caller.old.ended; what = kinds.End reply } ∷ [] }
    ensures program { caller.new.program ≡ caller.old.program }
    ensures ended { caller.new.ended ≡ caller.old.ended + 1 }
    ensures begun { caller.new.begun ≡ None }
    ensures notes { KeepsNotes thread caller.old caller.new history.old.items history.new.items }
{
    push_entry(history, caller, thread, EntryKind::End(reply));
    caller.ended += 1;
    caller.begun = None;
    journal.set_wait(thread - 1, Wait::none());
}

// The thread's call begins.
fn begin_call(
    journal: &mut JournalPart,
    history: &mut Vec<Entry>,
    caller: &mut Thread,
    thread: u32,
    begun: Begun,
)
    requires thread { 1 ≤ thread }
    requires wait { thread - 1 < length journal.old.part.flush.waits }
    requires room { length history.old.items < vec_capacity history.old }
    requires left { caller.old.ended < length caller.old.program.items }
    ensures wait { journal.new ≡ with_flush journal.old (record journal.old.part.flush {
      waits = set journal.old.part.flush.waits (thread - 1) (record { kind = begun.kind; target = None; need = None });
    }) }
    ensures entry { history.new.items ≡ history.old.items ++ record { thread = thread; call = caller.old.ended; what = kinds.Begin } ∷ [] }
    ensures program { caller.new.program ≡ caller.old.program }
    ensures ended { caller.new.ended ≡ caller.old.ended }
    ensures begun { caller.new.begun ≡ Some begun }
    ensures notes { KeepsNotes thread caller.old caller.new history.old.items history.new.items }
{
    push_entry(history, caller, thread, EntryKind::Begin);
    let wait = Wait {
        kind: begun.kind,
        ..Wait::none()
    };
    caller.begun = Some(begun);
    journal.set_wait(thread - 1, wait);
}

// So many more pages of the call's list are passed.
fn pass(begun: &mut Begun, passed: usize, barrier: bool)
    ensures { begun.new ≡ record begun.old { list = drop passed begun.old.list; sent_barrier = barrier } }
{
    begun.passed = begun.passed.saturating_add(passed);
    begun.sent_barrier = barrier;
}

fn pass_pages(caller: &mut Thread, passed: usize, barrier: bool)
    ensures program { caller.new.program ≡ caller.old.program }
    ensures ended { caller.new.ended ≡ caller.old.ended }
    ensures begun { caller.new.begun ≡ passed_on caller.old.begun (drop passed (list_of caller.old.begun)) barrier }
{
    if let Some(begun) = &mut caller.begun {
        pass(begun, passed, barrier);
    }
}

// Notes what a step found of the next call of a caller, which is that thread, and answers it.
pub fn settle(
    journal: &mut JournalPart,
    history: &mut Vec<Entry>,
    caller: &mut Thread,
    thread: u32,
    found: CallProgress,
) -> Step
    requires thread { 1 ≤ thread }
    requires wait { thread - 1 < length journal.old.part.flush.waits }
    requires room { length history.old.items < vec_capacity history.old }
    requires left { caller.old.ended < length caller.old.program.items }
    requires within { IsWithin caller.old }
    ensures step { (v : VolumeNow) (ps : Cache) (owners cuts : List ℕ) (threads : List Thread) (c : Call) (rest : List Call) → IsNext threads (thread - 1) caller.old c rest →
        IfStepped result (λ answer. record { host = (host_of journal.new v ps owners history.new.items cuts (set threads (thread - 1) caller.new)).host; step = answer } ≡
        settled (host_of journal.old v ps owners history.old.items cuts threads).host (thread - 1) c rest caller.old.begun (progress_is (list_of caller.old.begun) found)) }
    ensures memory { result ≢ steps.NoMemory }
    ensures queue { found_queue_full result ≡ is_queue_full found }
    ensures journal { journal.new ≡ with_flush journal.old (record journal.old.part.flush { waits = journal.new.part.flush.waits }) }
    ensures waits { length journal.new.part.flush.waits ≡ length journal.old.part.flush.waits }
    ensures program { caller.new.program ≡ caller.old.program }
    ensures kept { IsWithin caller.new }
    ensures notes { KeepsNotes thread caller.old caller.new history.old.items history.new.items }
{
    match found {
        CallProgress::Answered(answer) => {
            let (given, noted) = answer.split();
            end_call(journal, history, caller, thread, noted);
            Step::Done(given)
        }
        CallProgress::Done => {
            end_call(journal, history, caller, thread, Reply::Ok);
            Step::Done(Reply::Ok)
        }
        CallProgress::Full => {
            end_call(journal, history, caller, thread, Reply::SessionFull);
            Step::SessionFull
        }
        CallProgress::Down => {
            end_call(journal, history, caller, thread, Reply::Down);
            Step::Down
        }
        CallProgress::ReadOnly(id) => {
            end_call(journal, history, caller, thread, Reply::ReadOnly(id));
            Step::ReadOnly(id)
        }
        CallProgress::Begun(begun) => {
            begin_call(journal, history, caller, thread, begun);
            Step::Begun
        }
        CallProgress::Sent {
            id,
            passed,
            barrier,
        } => {
            pass_pages(caller, passed, barrier);
            Step::Sent(id)
        }
        CallProgress::Waiting(cause) => Step::Waiting(cause),
    }
}
