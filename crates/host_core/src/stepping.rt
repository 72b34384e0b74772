//! One step of a thread's call, on the parts of the host that calls change.
ghost use Rattle.std.specs.Prelude.{◌≡◌, ◌<◌, ◌++◌, [], ℕ, true, false, List, Some, None, IfOk, IfSome, OnErr, length};
ghost use Rattle.std.specs.Option.{option_map};
ghost use Rattle.flush_actor.specs.Outcomes.{sent_between};
ghost use Rattle.journal_ring.specs.running.Closing.{writers};
ghost use Rattle.journal_ring.specs.running.Open.{quota};
ghost use Rattle.journal_ring.specs.running.Plan.{Writers};
ghost use Rattle.minix_host.specs.Calls as volumes;
ghost use Rattle.host_core.specs.code.Known.{AreToCome, IsKnownOf, StaysKnown, StaysKnownBy};
ghost use Rattle.host_core.specs.code.Progress.{KeepsHost, Over, goes_further, is_queue_full, is_waiting, list_of, parts_now, progress_is, starts, steps_call, went_plainly};
ghost use Rattle.host_core.specs.code.Progress as steps;
ghost use Rattle.host_core.specs.at_once.Steps.{steps_plainly};

use crate::at_once::{
    Needs, PlainProgress, asked, kind_of, node_of, replies_are_of_the_tree, step_plainly,
    would_change,
};
use crate::begun::{Begun, BegunProgress, go_on};
use crate::call_progress::CallProgress;
use crate::host_parts::HostParts;
use crate::known::KnownCall;
use crate::noted_reply::NotedReply;
use blk_base::NoMemory;
use flush_actor::{CallKind, FlushPart};
use order_model::{Outlet, Request};
use std::alloc::Global;
use tree_model::Call;

// What ends every call, or every call but those that read.
fn stop_of(flush: &FlushPart, kind: CallKind) -> Option<CallProgress>
    ensures stop { (list : List (ℕ × ℕ)) → option_map (progress_is list) result ≡ option_map Over (steps.stop_of flush.now.part.taken kind) }
    ensures queue { IfSome result (λ f. is_queue_full f ≡ false) }
{
    if flush.is_cut() {
        return Some(CallProgress::Down);
    }
    if kind.is_reading() {
        return None;
    }
    match flush.first_failed() {
        Some(id) => Some(CallProgress::ReadOnly(id)),
        None => None,
    }
}

// The step of a call that has begun.
fn go_further<O: Outlet<Request>>(
    parts: &mut HostParts,
    thread: u32,
    begun: &Begun,
    out: &mut O,
) -> Result<CallProgress, NoMemory>
    requires { thread < length parts.old.journal.part.flush.waits }
    ensures step { (w : Writers) (zmap most n : ℕ) (c : Call) → IfOk result (λ f. record { parts = parts_now parts.new; progress = progress_is begun.now.list f } ≡
        goes_further (is_queue_full f) w zmap most (parts_now parts.old) n thread (Some begun.now) c) }
    ensures err { OnErr result (parts_now parts.new ≡ parts_now parts.old) }
    ensures same { KeepsHost parts.old parts.new }
    ensures sent { O.sent out.new ≡ O.sent out.old ++ sent_between parts.old.journal.part.flush parts.new.journal.part.flush }
    ensures full { IfOk result (λ f. is_queue_full f ≡ true → O.was_full out.old out.new) }
    ensures rest { O.rest out.new ≡ O.rest out.old }
    ensures known { (parts.new.volume ≡ parts.old.volume) × (parts.new.known ≡ parts.old.known) }
{
    match go_on(&mut parts.journal, &mut parts.pages, thread, begun, out)? {
        BegunProgress::Answered => Ok(CallProgress::Done),
        BegunProgress::Full => Ok(CallProgress::Full),
        BegunProgress::Sent {
            id,
            passed,
            barrier,
        } => Ok(CallProgress::Sent {
            id,
            passed,
            barrier,
        }),
        BegunProgress::Waiting(cause) => Ok(CallProgress::Waiting(cause)),
    }
}

// The step of a plain call that nothing refuses and that needs this, as entry `number`.
fn perform(
    alloc: Global,
    parts: &mut HostParts,
    number: u64,
    call: &Call,
    needs: Needs,
) -> Result<CallProgress, NoMemory>
    requires refused { volumes.refusal parts.old.volume call.now ≡ None }
    requires changes { needs.changes ≡ volumes.would_change parts.old.volume call.now }
    requires zones { needs.zones ≡ volumes.needed parts.old.volume call.now }
    requires known { AreToCome parts.old.volume parts.old.known.to_come }
    requires blocks { parts.old.journal.blocks ≡ parts.old.volume.geometry.zones }
    ensures step { IfOk result (λ f. record { parts = parts_now parts.new; progress = progress_is [] f } ≡
        went_plainly (steps_plainly (writers parts.old.journal.made_with) parts.old.volume.geometry.zmap (quota parts.old.journal.made_with) (parts_now parts.old) number call.now)) }
    ensures err { OnErr result (parts_now parts.new ≡ parts_now parts.old) }
    ensures same { KeepsHost parts.old parts.new }
    ensures silent { parts.new.journal.part.flush.requests ≡ parts.old.journal.part.flush.requests }
    ensures queue { IfOk result (λ f. is_queue_full f ≡ false) }
    ensures known { StaysKnown parts.old.volume parts.new.volume parts.old.known parts.new.known }
    ensures waiting { IfOk result (λ f. is_waiting f ≡ true → (parts.new.volume ≡ parts.old.volume) × (volumes.would_change parts.old.volume call.now ≡ true)) }
{
    replies_are_of_the_tree();
    let HostParts {
        journal,
        volume,
        pages,
        owners,
        known,
    } = parts;
    match step_plainly(
        alloc, journal, volume, pages, owners, known, number, call, needs,
    )? {
        PlainProgress::Answered(reply) => Ok(CallProgress::Answered(NotedReply::of(alloc, reply)?)),
        PlainProgress::Full => Ok(CallProgress::Full),
        PlainProgress::Waiting(cause) => Ok(CallProgress::Waiting(cause)),
    }
}

// The first step of the call at this place in its thread's program. Where it had to wait since the volume last changed,
// nothing is asked of the volume.
fn start(
    alloc: Global,
    parts: &mut HostParts,
    number: u64,
    thread: u32,
    place: u32,
    call: &Call,
) -> Result<CallProgress, NoMemory>
    requires known { IsKnownOf thread place call.now parts.old.volume parts.old.known }
    requires blocks { parts.old.journal.blocks ≡ parts.old.volume.geometry.zones }
    ensures step { IfOk result (λ f. record { parts = parts_now parts.new; progress = progress_is [] f } ≡
        starts (writers parts.old.journal.made_with) parts.old.volume.geometry.zmap (quota parts.old.journal.made_with) (parts_now parts.old) number call.now) }
    ensures err { OnErr result (parts_now parts.new ≡ parts_now parts.old) }
    ensures same { KeepsHost parts.old parts.new }
    ensures silent { parts.new.journal.part.flush.requests ≡ parts.old.journal.part.flush.requests }
    ensures queue { IfOk result (λ f. is_queue_full f ≡ false) }
    ensures known { StaysKnownBy thread place call.now parts.old.volume parts.new.volume parts.old.known parts.new.known }
{
    replies_are_of_the_tree();
    if let Some(zones) = parts.known.zones_for(thread, place) {
        let needs = Needs {
            changes: true,
            zones,
        };
        return perform(alloc, parts, number, call, needs);
    }
    let (refusal, zones) = asked(&parts.volume, call);
    if let Some(reply) = refusal {
        return Ok(CallProgress::Answered(NotedReply::of(alloc, reply)?));
    }
    let kind = kind_of(call);
    if kind.is_begun() {
        let file = node_of(&parts.volume, call);
        let begun = Begun::of(alloc, &parts.pages, number, kind, file)?;
        return Ok(CallProgress::Begun(begun));
    }
    let changes = would_change(&parts.volume, call);
    let found = perform(alloc, parts, number, call, Needs { changes, zones })?;
    if matches!(found, CallProgress::Waiting(_)) {
        parts.known.note(KnownCall {
            thread,
            place,
            zones,
        });
    }
    Ok(found)
}

// The step of the call at this place in the program of thread `thread`, which has begun or not, and whose entry would be
// `number`. Threads and places are counted from 0.
pub fn step_call<O: Outlet<Request>>(
    alloc: Global,
    parts: &mut HostParts,
    number: u64,
    thread: u32,
    place: u32,
    begun: &Option<Begun>,
    call: &Call,
    out: &mut O,
) -> Result<CallProgress, NoMemory>
    requires thread { thread < length parts.old.journal.part.flush.waits }
    requires known { IsKnownOf thread place call.now parts.old.volume parts.old.known }
    requires blocks { parts.old.journal.blocks ≡ parts.old.volume.geometry.zones }
    ensures step { IfOk result (λ f. record { parts = parts_now parts.new; progress = progress_is (list_of begun.now) f } ≡
        steps_call (is_queue_full f) (writers parts.old.journal.made_with) parts.old.volume.geometry.zmap (quota parts.old.journal.made_with) (parts_now parts.old) number thread begun.now call.now) }
    ensures err { OnErr result (parts_now parts.new ≡ parts_now parts.old) }
    ensures same { KeepsHost parts.old parts.new }
    ensures sent { O.sent out.new ≡ O.sent out.old ++ sent_between parts.old.journal.part.flush parts.new.journal.part.flush }
    ensures full { IfOk result (λ f. is_queue_full f ≡ true → O.was_full out.old out.new) }
    ensures rest { O.rest out.new ≡ O.rest out.old }
    ensures known { StaysKnownBy thread place call.now parts.old.volume parts.new.volume parts.old.known parts.new.known }
{
    if let Some(found) = stop_of(parts.journal.flush(), kind_of(call)) {
        return Ok(found);
    }
    match begun {
        Some(begun) => go_further(parts, thread, begun, out),
        None => start(alloc, parts, number, thread, place, call),
    }
}
