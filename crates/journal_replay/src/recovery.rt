//! Recovery as one call.
ghost use Rattle.std.specs.Prelude.{◌≡◌, ◌≢◌, ◌↔◌, ℕ, ◌+◌, ◌≤◌, ◌<◌, [], None, Some, Ok, Err, true, false, List, length, IsTrue, IfOk};
ghost use Rattle.blk_base.specs.Members.{In};
ghost use Rattle.blk_base.specs.Streams.{Rose};
ghost use Rattle.order_model.specs.declared.completion.Completion.{Completion};
ghost use Rattle.order_model.specs.Device.{IsQuiet};
ghost use Rattle.order_model.specs.Steps.{OnlyReads};
ghost use Rattle.order_model.specs.Machine.{machine_of};
ghost use Rattle.journal_blocks.specs.declared.super_block.JournalSuper.{JournalSuper};
ghost use Rattle.journal_blocks.specs.declared.fault.JournalFault.{JournalFault};
ghost use Rattle.journal_blocks.specs.Super.{super_of};
ghost use Rattle.journal_blocks.specs.Log.{body_at, log_of};
ghost use Rattle.journal_replay.specs.Recovered.{recovered, transactions_of, next_sequence, journal_fault, AreBetween};
ghost use Rattle.journal_replay.specs.Commands.{commands};
ghost use Rattle.journal_replay.specs.Driving.{all_choices, IsRun, WereRead, FailsToRead};
ghost use Rattle.journal_replay.specs.Endings.{IsFlushAnswered, HasNoLog, FailsBetween};
ghost use Rattle.journal_replay.specs.code.Journals.{IsJournalOf};

use crate::end::End;
use crate::homing::homes_of;
use crate::journal::{Journal, open};
use crate::replay::write_back;
use crate::{RecoverFault, Repeated, revokes};
use journal_blocks::set_tail;
use order_model::OrderedDev;
use std::alloc::Global;

/// What a recovery did.
#[derive(Clone, Copy, Debug, PartialEq, Eq)]
pub struct Recovered {
    /// How many whole transactions the log has.
    pub replayed: u32,
    /// The sequence of the journal's superblock when the recovery has ended.
    pub next: u32,
    /// Whether it came to its end: it took the completion of its flush, or the log was empty.
    pub ended: bool,
}

/// Recovers the journal at block `base`, where the volume ends.
///
/// A log that is empty is left as it is. Else it sends the home writes in rising order of block, the superblock of an
/// empty log and a flush, each as soon as the device has room. Where it cannot send, it makes a device step: step
/// `k` follows the `k`th of the choices that `steer` says, and each step past them is made by default. With `cut` it ends
/// behind them. A choice that the device refuses uses up its place.
///
/// `ReadFault` comes only where a block could not be read, `DeviceFailed` only where the device failed that command. A
/// journal with a fault is left as it is.
pub fn recover<D: OrderedDev>(
    alloc: Global,
    dev: &mut D,
    base: u32,
    steer: &[Repeated],
    cut: bool,
) -> Result<Recovered, RecoverFault>
    requires quiet { IsQuiet (D.seen (D.state dev.old)) }
    requires fresh { (D.seen (D.state dev.old)).took ≡ [] }
    requires on { D.stays_on (D.state dev.old) }
    requires room { length (D.seen (D.state dev.old)).surface + 2 ≤ (D.seen (D.state dev.old)).limit }
    requires within { base < length (D.seen (D.state dev.old)).surface }
    ensures attempt { recovered base (D.seen (D.state dev.new)).surface ≡ recovered base (D.seen (D.state dev.old)).surface }
    ensures whole { IfOk result (λ r. IsTrue r.ended →
        ((D.seen (D.state dev.new)).surface ≡ recovered base (D.seen (D.state dev.old)).surface) × IsQuiet (D.seen (D.state dev.new))) }
    ensures ended { IfOk result (λ r. cut ≡ false → IsTrue r.ended) }
    ensures flushed { IfOk result (λ r. (s : JournalSuper) → super_of (body_at (D.seen (D.state dev.old)).surface base) ≡ Ok s → s.start ≢ 0 →
        IsTrue r.ended ↔ IsFlushAnswered (commands base (D.seen (D.state dev.old)).surface) (D.seen (D.state dev.new))) }
    ensures emptied { IfOk result (λ r. IsTrue r.ended → HasNoLog base (D.seen (D.state dev.new)).surface) }
    ensures replayed { IfOk result (λ r. (s : JournalSuper) → super_of (body_at (D.seen (D.state dev.old)).surface base) ≡ Ok s →
        r.replayed ≡ length (transactions_of base s (D.seen (D.state dev.old)).surface)) }
    ensures next { IfOk result (λ r. (s : JournalSuper) → super_of (body_at (recovered base (D.seen (D.state dev.old)).surface) base) ≡ Ok s →
        (s.sequence ≡ r.next) × (s.start ≡ 0)) }
    ensures empty { IfOk result (λ r. (s : JournalSuper) → super_of (body_at (D.seen (D.state dev.old)).surface base) ≡ Ok s → s.start ≡ 0 →
        OnlyReads (D.seen (D.state dev.old)) (D.seen (D.state dev.new)) × IsTrue r.ended) }
    ensures run { IfOk result (λ r. (s : JournalSuper) → super_of (body_at (D.seen (D.state dev.old)).surface base) ≡ Ok s → s.start ≢ 0 →
        IsRun (machine_of D.OrderedDev) (commands base (D.seen (D.state dev.old)).surface) (all_choices steer.now) cut (D.state dev.old) (D.state dev.new)) }
    ensures failed_run { (id : ℕ) → result ≡ Err (RecoverFault.DeviceFailed id) →
        IsRun (machine_of D.OrderedDev) (commands base (D.seen (D.state dev.old)).surface) (all_choices steer.now) cut (D.state dev.old) (D.state dev.new) }
    ensures device_failed { (id : ℕ) → result ≡ Err (RecoverFault.DeviceFailed id) →
        Rose (D.seen (D.state dev.old)).faults (D.seen (D.state dev.new)).faults × In (Completion.Failed id) (D.seen (D.state dev.new)).sent }
    ensures failure { (id : ℕ) → result ≡ Err (RecoverFault.DeviceFailed id) → FailsBetween (D.seen (D.state dev.old)) (D.seen (D.state dev.new)) id }
    ensures no_failure { ((id : ℕ) → result ≢ Err (RecoverFault.DeviceFailed id)) → (D.seen (D.state dev.new)).failed ≡ false }
    ensures read_fault { result ≡ Err RecoverFault.ReadFault → Rose (D.seen (D.state dev.old)).faults (D.seen (D.state dev.new)).faults }
    ensures read_failed { result ≡ Err RecoverFault.ReadFault → FailsToRead (machine_of D.OrderedDev) (D.state dev.old) (D.state dev.new) }
    ensures all_read { IfOk result (λ _. (s : JournalSuper) → super_of (body_at (D.seen (D.state dev.old)).surface base) ≡ Ok s → s.start ≡ 0 →
        WereRead (machine_of D.OrderedDev) (D.state dev.old) (D.state dev.new)) }
    ensures refused_read { (fault : RecoverFault) → result ≡ Err fault → fault ≢ RecoverFault.ReadFault → ((id : ℕ) → fault ≢ RecoverFault.DeviceFailed id) →
        WereRead (machine_of D.OrderedDev) (D.state dev.old) (D.state dev.new) }
    ensures bad { (fault : JournalFault) (block : ℕ) → result ≡ Err (RecoverFault.BadJournal fault block) →
        journal_fault base (D.seen (D.state dev.old)).surface ≡ Some (fault, block) }
    ensures fine { IfOk result (λ _. journal_fault base (D.seen (D.state dev.old)).surface ≡ None) }
    ensures failed_fine { (id : ℕ) → result ≡ Err (RecoverFault.DeviceFailed id) → journal_fault base (D.seen (D.state dev.old)).surface ≡ None }
    ensures unwritten { (fault : RecoverFault) → result ≡ Err fault → ((id : ℕ) → fault ≢ RecoverFault.DeviceFailed id) →
        OnlyReads (D.seen (D.state dev.old)) (D.seen (D.state dev.new)) }
    ensures counts { (D.seen (D.state dev.old)).faults ≤ (D.seen (D.state dev.new)).faults }
    ensures between { AreBetween (D.seen (D.state dev.old)).surface (recovered base (D.seen (D.state dev.old)).surface) (D.seen (D.state dev.new)).surface }
    ensures works { D.sound (D.state dev.old) → (result ≢ Err RecoverFault.ReadFault) × ((id : ℕ) → result ≢ Err (RecoverFault.DeviceFailed id)) }
    ensures sound { D.sound (D.state dev.old) → D.sound (D.state dev.new) × ((D.seen (D.state dev.new)).faults ≡ (D.seen (D.state dev.old)).faults) }
{
    let journal = open(alloc, dev, base)?;
    if journal.fields.start == 0 {
        return Ok(Recovered {
            replayed: 0,
            next: journal.fields.sequence,
            ended: true,
        });
    }
    replay(alloc, dev, journal, base, steer, cut)
}

// Replays the log of a journal that is not empty.
fn replay<D: OrderedDev>(
    alloc: Global,
    dev: &mut D,
    journal: Journal,
    base: u32,
    steer: &[Repeated],
    cut: bool,
) -> Result<Recovered, RecoverFault>
    requires valid { D.valid (D.state dev.old) }
    requires fresh { (D.seen (D.state dev.old)).took ≡ [] }
    requires on { D.stays_on (D.state dev.old) }
    requires room { length (D.seen (D.state dev.old)).surface + 2 ≤ (D.seen (D.state dev.old)).limit }
    requires within { base < length (D.seen (D.state dev.old)).surface }
    requires journal { IsJournalOf base (D.seen (D.state dev.old)).surface journal }
    requires full { journal.fields.start ≢ 0 }
    ensures attempt { recovered base (D.seen (D.state dev.new)).surface ≡ recovered base (D.seen (D.state dev.old)).surface }
    ensures whole { IfOk result (λ r. IsTrue r.ended →
        ((D.seen (D.state dev.new)).surface ≡ recovered base (D.seen (D.state dev.old)).surface) × IsQuiet (D.seen (D.state dev.new))) }
    ensures ended { IfOk result (λ r. cut ≡ false → IsTrue r.ended) }
    ensures flushed { IfOk result (λ r. IsTrue r.ended ↔ IsFlushAnswered (commands base (D.seen (D.state dev.old)).surface) (D.seen (D.state dev.new))) }
    ensures emptied { IfOk result (λ r. IsTrue r.ended → HasNoLog base (D.seen (D.state dev.new)).surface) }
    ensures replayed { IfOk result (λ r. r.replayed ≡ length journal.log) }
    ensures next { IfOk result (λ r. r.next ≡ next_sequence (log_of base journal.fields (D.seen (D.state dev.old)).surface)) }
    ensures run { IfOk result (λ r. IsRun (machine_of D.OrderedDev) (commands base (D.seen (D.state dev.old)).surface) (all_choices steer.now) cut (D.state dev.old) (D.state dev.new)) }
    ensures failed_run { (id : ℕ) → result ≡ Err (RecoverFault.DeviceFailed id) →
        IsRun (machine_of D.OrderedDev) (commands base (D.seen (D.state dev.old)).surface) (all_choices steer.now) cut (D.state dev.old) (D.state dev.new) }
    ensures device_failed { (id : ℕ) → result ≡ Err (RecoverFault.DeviceFailed id) →
        Rose (D.seen (D.state dev.old)).faults (D.seen (D.state dev.new)).faults × In (Completion.Failed id) (D.seen (D.state dev.new)).sent }
    ensures failure { (id : ℕ) → result ≡ Err (RecoverFault.DeviceFailed id) → FailsBetween (D.seen (D.state dev.old)) (D.seen (D.state dev.new)) id }
    ensures no_failure { IfOk result (λ _. (D.seen (D.state dev.new)).failed ≡ false) }
    ensures valid { D.valid (D.state dev.new) }
    ensures counts { (D.seen (D.state dev.old)).faults ≤ (D.seen (D.state dev.new)).faults }
    ensures refused { (fault : RecoverFault) → result ≡ Err fault → ((id : ℕ) → fault ≢ RecoverFault.DeviceFailed id) →
        (fault ≡ RecoverFault.NoMemory) × (D.state dev.new ≡ D.state dev.old) }
    ensures between { AreBetween (D.seen (D.state dev.old)).surface (recovered base (D.seen (D.state dev.old)).surface) (D.seen (D.state dev.new)).surface }
    ensures sound { D.sound (D.state dev.old) → D.sound (D.state dev.new) × ((D.seen (D.state dev.new)).faults ≡ (D.seen (D.state dev.old)).faults) }
{
    let log = journal.log;
    let Ok(table) = revokes(alloc, &log) else {
        return Err(RecoverFault::NoMemory);
    };
    let replayed = log.len() as u32;
    let Ok(homes) = homes_of(alloc, log, &table, base) else {
        return Err(RecoverFault::NoMemory);
    };
    drop(table);
    let next = journal
        .fields
        .sequence
        .wrapping_add(replayed)
        .wrapping_add(1);
    let mut superblock = journal.superblock;
    set_tail(&mut superblock, next, 0);
    match write_back(dev, homes, base, superblock, steer, cut) {
        End::Flushed => Ok(Recovered {
            replayed,
            next,
            ended: true,
        }),
        End::Running => Ok(Recovered {
            replayed,
            next,
            ended: false,
        }),
        End::Failed(id) => Err(RecoverFault::DeviceFailed(id)),
    }
}
