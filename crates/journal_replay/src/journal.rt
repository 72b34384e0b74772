//! The journal of a device.
ghost use Rattle.std.specs.Prelude.{◌≡◌, ◌≢◌, ℕ, ◌<◌, Some, None, Ok, Err, length, IfOk};
ghost use Rattle.blk_base.specs.Streams.{Rose};
ghost use Rattle.order_model.specs.Device.{IsQuiet};
ghost use Rattle.order_model.specs.Machine.{machine_of};
ghost use Rattle.journal_replay.specs.Driving.{WereRead};
ghost use Rattle.journal_blocks.specs.declared.fault.JournalFault.{JournalFault};
ghost use Rattle.journal_replay.specs.Recovered.{journal_fault};
ghost use Rattle.journal_replay.specs.code.Journals.{IsJournalOf};
ghost use Rattle.journal_replay.specs.code.Scans.{HasRead, HasAskedFor};

use crate::scanning::read_place;
use crate::{Log, RecoverFault, scan};
use blk_base::Block;
use journal_blocks::{JournalFault, JournalSuper, read_super};
use order_model::OrderedDev;
use std::alloc::Global;

/// The journal of a device: its superblock, what that says, and the log.
#[derive(Drop)]
pub(crate) struct Journal {
    pub(crate) superblock: Block,
    pub(crate) fields: JournalSuper,
    pub(crate) log: Log,
}

// Reads the journal at block `base`.
pub(crate) fn open<D: OrderedDev>(
    alloc: Global,
    dev: &mut D,
    base: u32,
) -> Result<Journal, RecoverFault>
    requires quiet { IsQuiet (D.seen (D.state dev.old)) }
    requires within { base < length (D.seen (D.state dev.old)).surface }
    ensures journal { IfOk result (λ j. IsJournalOf base (D.seen (D.state dev.old)).surface j) }
    ensures bad { (fault : JournalFault) (block : ℕ) → result ≡ Err (RecoverFault.BadJournal fault block) →
        journal_fault base (D.seen (D.state dev.old)).surface ≡ Some (fault, block) }
    ensures read_fault { result ≡ Err RecoverFault.ReadFault → Rose (D.seen (D.state dev.old)).faults (D.seen (D.state dev.new)).faults }
    ensures no_failure { (id : ℕ) → result ≢ Err (RecoverFault.DeviceFailed id) }
    ensures unchanged { HasRead (D.seen (D.state dev.old)) (D.seen (D.state dev.new)) }
    ensures was_valid { D.valid (D.state dev.old) }
    ensures valid { D.valid (D.state dev.new) }
    ensures on { D.stays_on (D.state dev.old) → D.stays_on (D.state dev.new) }
    ensures asked { (first : D.State) → WereRead (machine_of D.OrderedDev) first (D.state dev.old) → HasAskedFor (machine_of D.OrderedDev) result first (D.state dev.new) }
    ensures sound { D.sound (D.state dev.old) → D.sound (D.state dev.new) × ((D.seen (D.state dev.new)).faults ≡ (D.seen (D.state dev.old)).faults) }
{
    let blocks = dev.blocks();
    let Ok(superblock) = read_place(dev, base) else {
        return Err(RecoverFault::ReadFault);
    };
    let fields = match read_super(&superblock) {
        Ok(fields) => fields,
        Err(fault) => return Err(RecoverFault::BadJournal(fault, base)),
    };
    if blocks - base < fields.maxlen {
        return Err(RecoverFault::BadJournal(JournalFault::BadCount, base));
    }
    let log = scan(alloc, dev, &fields, base)?;
    Ok(Journal {
        superblock,
        fields,
        log,
    })
}
