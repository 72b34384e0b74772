//! The log of a device.
ghost use Rattle.std.specs.Prelude.{◌≡◌, ◌≢◌, ℕ, ◌+◌, ◌≤◌, [], None, Some, Ok, Err, map, length, ◌==◌, IfOk};
ghost use Rattle.blk_base.specs.Streams.{Rose};
ghost use Rattle.order_model.specs.Device.{IsQuiet};
ghost use Rattle.order_model.specs.Machine.{machine_of};
ghost use Rattle.journal_replay.specs.Driving.{WereRead};
ghost use Rattle.journal_blocks.specs.declared.fault.JournalFault.{JournalFault};
ghost use Rattle.journal_blocks.specs.Super.{super_of};
ghost use Rattle.journal_blocks.specs.Log.{body_at};
ghost use Rattle.journal_replay.specs.Recovered.{transactions_of, fault_of};
ghost use Rattle.journal_replay.specs.code.Scans.{HasRead, HasAskedFor, transaction_of};

use crate::scanning::{ScanFault, read_log};
use crate::{LogTransaction, RecoverFault};
use journal_blocks::{JournalFault, JournalSuper};
use order_model::OrderedDev;
use std::alloc::Global;
use std::marker::Model;

/// The whole transactions of a log, in order.
#[derive(Drop)]
pub struct Log {
    transactions: Vec<LogTransaction>,
}

impl Model for Log {
    ghost use Rattle.std.specs.Prelude.{List, map};
    ghost use Rattle.log_model.specs.Marks.{Transaction};
    ghost use Rattle.journal_replay.specs.code.Scans.{transaction_of};

    ghost Value = { List Transaction };

    ghost view = { λ l. map transaction_of l.transactions.items };
}

impl Log {
    fn of(transactions: Vec<LogTransaction>) -> Log
        ensures { result ≡ map transaction_of transactions.items }
    {
        Log { transactions }
    }

    pub fn as_slice(&self) -> &[LogTransaction]
        ensures { map transaction_of result.now ≡ self.now }
    {
        &self.transactions
    }

    pub(crate) fn into_transactions(self) -> Vec<LogTransaction>
        ensures { map transaction_of result.items ≡ self }
    {
        self.transactions
    }

    /// How many transactions it has.
    pub fn len(&self) -> usize
        ensures { result ≡ length self.now }
    {
        self.transactions.len()
    }

    pub fn is_empty(&self) -> bool
        ensures { result ≡ (length self.now == 0) }
    {
        self.transactions.is_empty()
    }
}

/// Reads the log of a device whose journal begins at block `base`, where the volume ends; `s` is its superblock.
///
/// It reads the device and changes nothing of it. The one fault of a journal is `BadCount`, at the first block of a
/// whole transaction that is a revoke block with a bad count or a descriptor with a tag for the boot block, the
/// volume's superblock or a block at or past `base`.
pub fn scan<D: OrderedDev>(
    alloc: Global,
    dev: &mut D,
    s: &JournalSuper,
    base: u32,
) -> Result<Log, RecoverFault>
    requires quiet { IsQuiet (D.seen (D.state dev.old)) }
    requires read { super_of (body_at (D.seen (D.state dev.old)).surface base) ≡ Ok s.now }
    requires within { base + s.now.maxlen ≤ length (D.seen (D.state dev.old)).surface }
    ensures log { IfOk result (λ l. l ≡ transactions_of base s.now (D.seen (D.state dev.old)).surface) }
    ensures fine { IfOk result (λ _. fault_of base s.now (D.seen (D.state dev.old)).surface ≡ None) }
    ensures bad { (fault : JournalFault) (block : ℕ) → result ≡ Err (RecoverFault.BadJournal fault block) →
        (fault ≡ JournalFault.BadCount) × (fault_of base s.now (D.seen (D.state dev.old)).surface ≡ Some block) }
    ensures read_fault { result ≡ Err RecoverFault.ReadFault → Rose (D.seen (D.state dev.old)).faults (D.seen (D.state dev.new)).faults }
    ensures no_failure { (id : ℕ) → result ≢ Err (RecoverFault.DeviceFailed id) }
    ensures unchanged { HasRead (D.seen (D.state dev.old)) (D.seen (D.state dev.new)) }
    ensures valid { D.valid (D.state dev.new) }
    ensures on { D.stays_on (D.state dev.old) → D.stays_on (D.state dev.new) }
    ensures asked { (first : D.State) → WereRead (machine_of D.OrderedDev) first (D.state dev.old) → HasAskedFor (machine_of D.OrderedDev) result first (D.state dev.new) }
    ensures sound { D.sound (D.state dev.old) → D.sound (D.state dev.new) × ((D.seen (D.state dev.new)).faults ≡ (D.seen (D.state dev.old)).faults) }
{
    if s.start == 0 {
        // For the proof alone: the answer brings the laws of the device.
        let _ = dev.blocks();
        return Ok(Log::of(Vec::new(alloc)));
    }
    let scan = match read_log(alloc, dev, s, base) {
        Ok(scan) => scan,
        Err(ScanFault::ReadFault) => return Err(RecoverFault::ReadFault),
        Err(ScanFault::NoMemory) => return Err(RecoverFault::NoMemory),
    };
    if let Some(block) = scan.fault() {
        return Err(RecoverFault::BadJournal(JournalFault::BadCount, block));
    }
    Ok(Log::of(scan.into_done()))
}
