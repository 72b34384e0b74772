//! The scan of a log: one pass over its blocks, each read once.
ghost use Rattle.std.specs.Prelude.{◌≡◌, ◌≢◌, ◌+◌, ◌-◌, ◌^◌, ℕ, ◌<◌, ◌≤◌, ◌++◌, ◌∷◌, nat_lt, Some, None, Err, [], List, map, length, if◌then◌else◌, IfOk, IfSome, IfNone, IfErr, IsErrOf, OnErr, true, false};
ghost use Rattle.std.specs.List.{range_with_len, list_any};
ghost use Rattle.blk_base.specs.Streams.{Rose};
ghost use Rattle.order_model.specs.Device.{IsQuiet};
ghost use Rattle.order_model.specs.Machine.{machine_of};
ghost use Rattle.journal_replay.specs.Driving.{WereRead};
ghost use Rattle.log_model.specs.Marks.{Logged};
ghost use Rattle.journal_blocks.specs.declared.tag.Tag.{Tag};
ghost use Rattle.journal_blocks.specs.Super.{is_wide};
ghost use Rattle.journal_blocks.specs.Blocks.{restored};
ghost use Rattle.journal_blocks.specs.Log.{Reading, Entry, read_log, by_tags, by_said, said_by, entry_at, body_at, places, beginning, committed, first_of, is_outside, log_of};
ghost use Rattle.journal_replay.specs.Commands.{for_block};
ghost use Rattle.journal_replay.specs.code.Scans.{after, HasRead, HasAsked, transaction_of};

use crate::{BoxedBlock, LogBody, LogTransaction};
use blk_base::{Block, NoMemory};
use journal_blocks::{
    JournalFault, JournalSuper, LogBlock, Tag, TagList, read_block, restore, sequence_in,
};
use order_model::OrderedDev;
use std::alloc::Global;
use std::marker::Model;
use std::mem;

/// What was read so far of a log.
#[derive(Drop)]
pub(crate) struct Scan {
    sequence: u32,
    tags: TagList,
    next: usize,
    bodies: Vec<LogBody>,
    revokes: Vec<u64>,
    suspect: Option<u32>,
    done: Vec<LogTransaction>,
    fault: Option<u32>,
}

impl Model for Scan {
    ghost use Rattle.journal_blocks.specs.Log.{Reading};
    ghost use Rattle.journal_replay.specs.code.Scans.{reading_of};

    ghost Value = { Reading };

    ghost view = { λ s. reading_of s.sequence s.tags s.next s.bodies.items s.revokes.items s.suspect s.done.items s.fault };
}

/// Why a log was not read.
#[derive(Clone, Copy, Debug, PartialEq, Eq)]
pub(crate) enum ScanFault {
    ReadFault,
    NoMemory,
}

impl Scan {
    pub(crate) fn start(alloc: Global, sequence: u32) -> Scan
        ensures { result ≡ beginning sequence }
    {
        Scan {
            sequence,
            tags: TagList::new(alloc),
            next: 0,
            bodies: Vec::new(alloc),
            revokes: Vec::new(alloc),
            suspect: None,
            done: Vec::new(alloc),
            fault: None,
        }
    }

    /// The first fault in a whole transaction, by its block.
    pub(crate) fn fault(&self) -> Option<u32>
        ensures { result ≡ self.now.fault }
    {
        self.fault
    }

    /// The whole transactions, in order.
    pub(crate) fn into_done(self) -> Vec<LogTransaction>
        ensures { map transaction_of result.items ≡ self.done }
    {
        self.done
    }

    // Reads one block more, and tells whether the log goes on behind it.
    fn read(
        &mut self,
        alloc: Global,
        wide: bool,
        zones: u32,
        at: u32,
        body: &Block,
    ) -> Result<bool, NoMemory>
        ensures { IfOk result (λ goes. by_tags wide zones self.old (record { at = at; body = body.now }) self.old.tags ≡ after goes self.new) }
    {
        if self.has_tag() {
            self.take_body(alloc, body)?;
            return Ok(true);
        }
        if sequence_in(body) != self.sequence {
            return Ok(false);
        }
        match read_block(alloc, body, wide) {
            Ok(LogBlock::Descriptor(_, tags)) => self.take_tags(zones, at, tags),
            Ok(LogBlock::Commit(_)) => self.commit(alloc)?,
            Ok(LogBlock::Revoke(_, blocks)) => self.take_revokes(blocks.as_slice())?,
            Err(fault) => return self.take_fault(fault, at),
        }
        Ok(true)
    }

    // Whether a tag waits for its body.
    fn has_tag(&self) -> bool
        ensures { result ≡ nat_lt 0 (length self.now.tags) }
    {
        self.next < self.tags.as_slice().len()
    }

    // The block is the body of the next tag.
    fn take_body(&mut self, alloc: Global, body: &Block) -> Result<(), NoMemory>
        requires { 0 < length self.old.tags }
        ensures { IfOk result (λ _. (t : Tag) (ts : List Tag) → self.old.tags ≡ t ∷ ts → self.new ≡ record self.old { tags = ts; bodies = self.old.bodies ++ for_block t.block (restored t.escaped body.now) ∷ [] }) }
    {
        let tag = self.tags.as_slice()[self.next];
        self.next += 1;
        self.bodies.push(LogBody {
            block: tag.block,
            body: BoxedBlock::make(alloc, restore(body, tag.escaped))?,
        })?;
        Ok(())
    }

    // The block is a descriptor.
    fn take_tags(&mut self, zones: u32, at: u32, tags: TagList)
        ensures { self.new ≡ record self.old { tags = tags; suspect = first_of self.old.suspect (if list_any (is_outside zones) tags then Some at else None) } }
    {
        if are_outside(zones, tags.as_slice()) {
            self.suspect_block(at);
        }
        self.tags = tags;
        self.next = 0;
    }

    // The block is a commit block.
    fn commit(&mut self, alloc: Global) -> Result<(), NoMemory>
        ensures { IfOk result (λ _. self.new ≡ committed self.old) }
    {
        let bodies = mem::replace(&mut self.bodies, Vec::new(alloc));
        let revokes = mem::replace(&mut self.revokes, Vec::new(alloc));
        self.done.push(LogTransaction { bodies, revokes })?;
        self.sequence = self.sequence.wrapping_add(1);
        self.tags = TagList::new(alloc);
        self.next = 0;
        if self.fault.is_none() {
            self.fault = self.suspect;
        }
        self.suspect = None;
        Ok(())
    }

    // The block is a revoke block.
    fn take_revokes(&mut self, blocks: &[u64]) -> Result<(), NoMemory>
        ensures { IfOk result (λ _. self.new ≡ record self.old { revokes = self.old.revokes ++ blocks.now }) }
    {
        self.revokes.extend_from_slice(blocks)?;
        Ok(())
    }

    // The block has this fault. The log goes on behind a revoke block with a bad count alone.
    fn take_fault(&mut self, fault: JournalFault, at: u32) -> Result<bool, NoMemory>
        ensures said { IfOk result (λ goes. (zones : ℕ) → by_said zones self.old at (said_by (Err fault)) ≡ after goes self.new) }
        ensures memory { IfOk result (λ _. fault ≢ JournalFault.NoMemory) }
    {
        match fault {
            JournalFault::BadCount => {
                self.suspect_block(at);
                Ok(true)
            }
            JournalFault::NoMemory => Err(NoMemory),
            JournalFault::NotMagic | JournalFault::BadKind | JournalFault::Feature(_) => Ok(false),
        }
    }

    // The block has a fault, which counts where its transaction is whole.
    fn suspect_block(&mut self, at: u32)
        ensures { self.new ≡ record self.old { suspect = first_of self.old.suspect (Some at) } }
    {
        if self.suspect.is_none() {
            self.suspect = Some(at);
        }
    }
}

// Whether a tag is for no block that a session changes. Blocks of 2^32 and more are none of the volume's.
fn are_outside(zones: u32, tags: &[Tag]) -> bool
    ensures { result ≡ list_any (is_outside zones) tags.now }
{
    tags.iter().any(|t| t.block < 2 || zones as u64 <= t.block)
}

// One block of a device.
pub(crate) fn read_place<D: OrderedDev>(dev: &mut D, block: u32) -> Result<Block, ScanFault>
    requires valid { D.valid (D.state dev.old) }
    requires quiet { IsQuiet (D.seen (D.state dev.old)) }
    requires within { block < length (D.seen (D.state dev.old)).surface }
    ensures body { IfOk result (λ body. body_at (D.seen (D.state dev.old)).surface block ≡ body) }
    ensures valid { D.valid (D.state dev.new) }
    ensures read { HasRead (D.seen (D.state dev.old)) (D.seen (D.state dev.new)) }
    ensures on { D.stays_on (D.state dev.old) → D.stays_on (D.state dev.new) }
    ensures asked { (first : D.State) → WereRead (machine_of D.OrderedDev) first (D.state dev.old) → HasAsked (machine_of D.OrderedDev) result first (D.state dev.new) }
    ensures sound { D.sound (D.state dev.old) → D.sound (D.state dev.new) × ((D.seen (D.state dev.new)).faults ≡ (D.seen (D.state dev.old)).faults) }
    ensures read_fault { IfErr result (λ fault. fault ≡ ScanFault.ReadFault) }
    ensures fault { OnErr result (Rose (D.seen (D.state dev.old)).faults (D.seen (D.state dev.new)).faults) }
{
    match dev.read(block) {
        Ok(body) => Ok(body),
        Err(_) => Err(ScanFault::ReadFault),
    }
}

// Reads so many blocks of the log, one after the other, and tells whether it goes on behind them.
fn scan_range<D: OrderedDev>(
    alloc: Global,
    dev: &mut D,
    scan: &mut Scan,
    wide: bool,
    base: u32,
    from: u32,
    to: u32,
) -> Result<bool, ScanFault>
    requires valid { D.valid (D.state dev.old) }
    requires quiet { IsQuiet (D.seen (D.state dev.old)) }
    requires within { base + to ≤ length (D.seen (D.state dev.old)).surface }
    requires order { from ≤ to }
    requires fits { base + to < 2 ^ 32 }
    ensures log { IfOk result (λ goes. read_log wide base (after true scan.old) (map (entry_at base (D.seen (D.state dev.old)).surface) (range_with_len from (to - from))) ≡ after goes scan.new) }
    ensures valid { D.valid (D.state dev.new) }
    ensures read { HasRead (D.seen (D.state dev.old)) (D.seen (D.state dev.new)) }
    ensures on { D.stays_on (D.state dev.old) → D.stays_on (D.state dev.new) }
    ensures asked { (first : D.State) → WereRead (machine_of D.OrderedDev) first (D.state dev.old) → HasAsked (machine_of D.OrderedDev) result first (D.state dev.new) }
    ensures sound { D.sound (D.state dev.old) → D.sound (D.state dev.new) × ((D.seen (D.state dev.new)).faults ≡ (D.seen (D.state dev.old)).faults) }
    ensures fault { IsErrOf result ScanFault.ReadFault → Rose (D.seen (D.state dev.old)).faults (D.seen (D.state dev.new)).faults }
{
    for place in from..to {
        let body = read_place(dev, base + place)?;
        match scan.read(alloc, wide, base, base + place, &body) {
            Ok(true) => {}
            Ok(false) => return Ok(false),
            Err(NoMemory) => return Err(ScanFault::NoMemory),
        }
    }
    Ok(true)
}

// Reads the blocks of the log from its start round to before its start.
fn scan_ring<D: OrderedDev>(
    alloc: Global,
    dev: &mut D,
    scan: &mut Scan,
    base: u32,
    s: &JournalSuper,
) -> Result<bool, ScanFault>
    requires valid { D.valid (D.state dev.old) }
    requires quiet { IsQuiet (D.seen (D.state dev.old)) }
    requires within { base + s.now.maxlen ≤ length (D.seen (D.state dev.old)).surface }
    requires fits { base + s.now.maxlen < 2 ^ 32 }
    requires start { (s.now.first ≤ s.now.start) × (s.now.start < s.now.maxlen) }
    ensures log { IfOk result (λ goes. read_log (is_wide s.now) base (after true scan.old) (map (entry_at base (D.seen (D.state dev.old)).surface) (places s.now)) ≡ after goes scan.new) }
    ensures valid { D.valid (D.state dev.new) }
    ensures read { HasRead (D.seen (D.state dev.old)) (D.seen (D.state dev.new)) }
    ensures on { D.stays_on (D.state dev.old) → D.stays_on (D.state dev.new) }
    ensures asked { (first : D.State) → WereRead (machine_of D.OrderedDev) first (D.state dev.old) → HasAsked (machine_of D.OrderedDev) result first (D.state dev.new) }
    ensures sound { D.sound (D.state dev.old) → D.sound (D.state dev.new) × ((D.seen (D.state dev.new)).faults ≡ (D.seen (D.state dev.old)).faults) }
    ensures fault { IsErrOf result ScanFault.ReadFault → Rose (D.seen (D.state dev.old)).faults (D.seen (D.state dev.new)).faults }
{
    let wide = s.is_wide();
    if !scan_range(alloc, dev, scan, wide, base, s.start, s.maxlen)? {
        return Ok(false);
    }
    scan_range(alloc, dev, scan, wide, base, s.first, s.start)
}

// Reads the log of a device whose journal begins at block `base`.
pub(crate) fn read_log<D: OrderedDev>(
    alloc: Global,
    dev: &mut D,
    s: &JournalSuper,
    base: u32,
) -> Result<Scan, ScanFault>
    requires quiet { IsQuiet (D.seen (D.state dev.old)) }
    requires within { base + s.now.maxlen ≤ length (D.seen (D.state dev.old)).surface }
    requires start { (s.now.first ≤ s.now.start) × (s.now.start < s.now.maxlen) }
    ensures log { IfOk result (λ l. l ≡ log_of base s.now (D.seen (D.state dev.old)).surface) }
    ensures valid { D.valid (D.state dev.new) }
    ensures read { HasRead (D.seen (D.state dev.old)) (D.seen (D.state dev.new)) }
    ensures on { D.stays_on (D.state dev.old) → D.stays_on (D.state dev.new) }
    ensures asked { (first : D.State) → WereRead (machine_of D.OrderedDev) first (D.state dev.old) → HasAsked (machine_of D.OrderedDev) result first (D.state dev.new) }
    ensures sound { D.sound (D.state dev.old) → D.sound (D.state dev.new) × ((D.seen (D.state dev.new)).faults ≡ (D.seen (D.state dev.old)).faults) }
    ensures fault { IsErrOf result ScanFault.ReadFault → Rose (D.seen (D.state dev.old)).faults (D.seen (D.state dev.new)).faults }
{
    // For the proof alone: the answer brings the laws of the device.
    let _ = dev.blocks();
    let mut log = Scan::start(alloc, s.sequence);
    scan_ring(alloc, dev, &mut log, base, s)?;
    Ok(log)
}
