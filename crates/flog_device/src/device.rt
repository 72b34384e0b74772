//! The device behind the trait: its fields, how it is made, and its calls.
ghost use Rattle.std.specs.Prelude.{◌≡◌, ℕ, ◌+◌, ◌≤◌, ◌<◌, Bool, [], ◌^◌, true, false, length, replicate, IfOk, Some, None, if◌then◌else◌};
ghost use Rattle.flog_device.specs.Device.{FlogState, opened, is_off, has_stopped, free_places, has_room, received, transferable, transferred, persistable, persisted, next_answer, answered, seen};
ghost use Rattle.flog_device.specs.laws.Valid.{work_left, IsValid};
ghost use Rattle.flog_device.specs.laws.MemberLaws.{IsSound};

use crate::choice::{count_fitting, find_fitting};
use crate::log::{Write, body_of};
use crate::page_log::{PageLog, no_parts};
use blk_base::{Block, Image, NoMemory};
use circular_buffer::HeapCircularBuffer;
use device_epochs::queue::{
    CommandQueue, complete, complete_failed, holds_flush, is_number, note_transfers, read_ids,
};
use order_model::{
    Command, Commands, Completion, CutDisk, DeviceRecord, History, OrderedDev, Origins, ReadFault,
    Trail,
};
use std::alloc::Global;
use std::marker::Model;

/// How a flash log device is set up.
#[derive(Clone, Copy, PartialEq, Eq, Debug)]
pub struct FlogSetup {
    /// How many commands may wait, 1 to 64.
    pub depth: u32,
    /// How many ids it may take in all.
    pub limit: u64,
    /// How many segments of 16 pages the log has, 3 to 64.
    pub segments: u32,
    /// The number of the transfer that fails, counted from 1.
    pub fail_at: Option<u64>,
    /// The steps after which the power is off.
    pub cut_at: Option<u64>,
}

/// A device that writes all parts to a log, in the order of their transfers, and folds them into its data
/// area in that order. What lies behind the first page that is not programmed is not on the medium.
///
/// All its room is reserved by `make`: no other call takes memory.
#[derive(Drop)]
pub struct FlogDevice {
    // What it was made over. It takes no memory: contracts alone read it.
    base: Trail<Block>,
    data_area: Image,
    // For each block of the data area the place of the part that it holds.
    origins: Vec<Option<u64>>,
    // The pages that are not folded, and how many were folded.
    log: PageLog,
    folded: u64,
    segments: u32,
    trace: DeviceRecord,
    waiting: HeapCircularBuffer<Completion>,
    queue: CommandQueue,
    epoch: u64,
    limit: u64,
    cut_at: Option<u64>,
    // The power cut was told.
    told: bool,
    // The number of the transfer that fails, and how many were made.
    fail_at: Option<u64>,
    transfers_made: u64,
    // A transfer failed, and how many did.
    failed: bool,
    faults: u64,
}

impl Model for FlogDevice {
    ghost use Rattle.flog_device.specs.Device.{FlogState};

    ghost Value = { FlogState };

    ghost use Rattle.flog_device.specs.code.Fields.{state_of, IsDevice};

    ghost view = { state_of };

    ghost invariant = { IsDevice };
}

// The parts of so many ids take two terabytes.
const TOO_MANY_IDS: u64 = 1 << 31;

// The pages of one segment.
const SEGMENT: u32 = 16;

impl FlogDevice {
    /// A device over an image, which it keeps besides. It answers `NoMemory` for 2^31 ids or more.
    pub fn make(alloc: Global, image: Image, setup: FlogSetup) -> Result<FlogDevice, NoMemory>
        requires depth { (1 ≤ setup.depth) × (setup.depth ≤ 64) }
        requires segments { (3 ≤ setup.segments) × (setup.segments ≤ 64) }
        ensures { IfOk result (λ d. d ≡ opened image setup) }
    {
        if setup.limit >= TOO_MANY_IDS {
            return Err(NoMemory);
        }
        let room = setup.limit as usize;
        let base = Trail::of_image(&image);
        let blocks = image.len();
        let origins = no_parts(alloc, blocks)?;
        let pages = SEGMENT * setup.segments;
        Ok(FlogDevice {
            base,
            data_area: image,
            origins,
            log: PageLog::with_capacity(alloc, pages as usize, blocks)?,
            folded: 0,
            segments: setup.segments,
            trace: empty_record(alloc, room)?,
            waiting: HeapCircularBuffer::with_capacity(alloc, room + 1)?,
            queue: CommandQueue::make(alloc, setup.depth)?,
            epoch: 0,
            limit: setup.limit,
            cut_at: setup.cut_at,
            told: false,
            fail_at: setup.fail_at,
            transfers_made: 0,
            failed: false,
            faults: 0,
        })
    }

    fn is_off(&self) -> bool
        ensures value { result ≡ is_off self.now }
        ensures valid { IsValid self.now }
    {
        is_number(self.cut_at, self.trace.steps)
    }

    // No command may go.
    fn has_stopped(&self) -> bool
        ensures { result ≡ has_stopped self.now }
    {
        self.is_off() || self.failed
    }

    /// What a power cut would leave on the medium now.
    pub fn medium(&self, alloc: Global) -> Result<Image, NoMemory>
        ensures { IfOk result (λ i. i ≡ (seen self.now).surface) }
    {
        let mut image = self.data_area.copy(alloc)?;
        let mut places = no_parts(alloc, image.len())?;
        self.log.lay_over(&self.trace.took, &mut image, &mut places);
        Ok(image)
    }

    // How many pages the log has room for. The segments whose pages are all folded are erased.
    fn free_places(&self) -> usize
        ensures { result ≡ free_places self.now }
    {
        let places = SEGMENT as usize * self.segments as usize;
        let in_use = (self.folded % SEGMENT as u64) as usize + self.log.len();
        places.saturating_sub(in_use)
    }
}

// A barrier ends the epoch.
fn next_epoch(epoch: u64, barrier: bool) -> u64
    requires { epoch + 1 < 2 ^ 64 }
    ensures { result ≡ (if barrier then epoch + 1 else epoch) }
{
    if barrier { epoch + 1 } else { epoch }
}

fn empty_record(alloc: Global, limit: usize) -> Result<DeviceRecord, NoMemory>
    requires { limit < 2 ^ 31 }
    ensures { IfOk result (λ r. r ≡ record { took = record { items = []; room = limit }; moved = record { items = []; room = limit }; sent = record { items = []; room = limit + 1 }; steps = 0 }) }
{
    Ok(DeviceRecord {
        took: Commands::make(alloc, limit)?,
        moved: History::make(alloc, limit)?,
        sent: History::make(alloc, limit + 1)?,
        steps: 0,
    })
}

impl OrderedDev for FlogDevice {
    ghost State = { FlogState };

    ghost state = { λ d. d };

    ghost valid = { IsValid };

    ghost seen = { seen };

    ghost has_room = { has_room };

    ghost received = { received };

    ghost can_transfer = { λ s. length (transferable s) };

    ghost can_persist = { λ s. length (persistable s) };

    ghost transferred = { transferred };

    ghost persisted = { persisted };

    ghost next_answer = { next_answer };

    ghost answered = { answered };

    ghost read_fails = { λ _. false };

    ghost after_read = { λ s _. s };

    ghost work_left = { work_left };

    ghost stays_on = { λ s. s.cut_at ≡ None };

    ghost sound = { IsSound };

    fn blocks(&self) -> u32 {
        self.data_area.len()
    }

    fn read(&mut self, block: u32) -> Result<Block, ReadFault> {
        match self.log.last_kept(block) {
            Some(part) => Ok(body_of(&self.trace.took, part)),
            None => Ok(self.data_area.block(block).copy()),
        }
    }

    fn room(&self) -> bool {
        !self.is_off() && self.queue.room()
    }

    fn receive(&mut self, c: Command) -> Result<(), Command> {
        if !self.room() {
            return Err(c);
        }
        self.take_in(&c);
        Ok(())
    }

    fn take_in(&mut self, c: &Command) {
        self.trace.took.push(c);
        self.queue.push(c);
    }

    fn can_transfer(&self) -> u32 {
        if self.has_stopped() {
            return 0;
        }
        count_fitting(&self.queue, self.free_places(), self.log.all_programmed())
    }

    fn can_persist(&self) -> u32 {
        if self.is_off() {
            return 0;
        }
        self.log.count_writes() as u32
    }

    fn transfer(&mut self, pick: u32) -> bool {
        if self.has_stopped() {
            return false;
        }
        let free = self.free_places();
        let programmed = self.log.all_programmed();
        let Some(at) = find_fitting(&self.queue, free, programmed, pick) else {
            return false;
        };
        let Some(number) = self.queue.number(at) else {
            return false;
        };
        let Some(command) = self.queue.peek(at) else {
            return false;
        };
        self.transfers_made += 1;
        if is_number(self.fail_at, self.transfers_made) {
            complete_failed(&mut self.waiting, command);
            self.trace.steps += 1;
            self.failed = true;
            self.faults += 1;
            self.queue.leave(at);
            return true;
        }
        let first = self.trace.took.first_part(number as usize) as u64;
        let parts = command.parts.as_slice();
        let trace = &mut self.trace;
        note_transfers(&mut trace.moved, self.epoch, first, parts);
        trace.steps += 1;
        self.log.append(first, parts);
        complete(&mut self.waiting, command);
        self.epoch = next_epoch(self.epoch, command.barrier);
        self.queue.leave(at);
        true
    }

    fn persist(&mut self, pick: u32) -> bool {
        if self.is_off() {
            return false;
        }
        let Some(write) = self.log.pick_write(pick as usize) else {
            return false;
        };
        match write {
            Write::Program(at) => self.log.program(at),
            Write::Fold => {
                let took = &self.trace.took;
                self.log.fold(took, &mut self.data_area, &mut self.origins);
                self.folded += 1;
            }
        }
        self.trace.steps += 1;
        true
    }

    fn answer(&mut self) -> Option<Completion> {
        if let Some(completion) = self.waiting.pop_front() {
            self.trace.sent.push(completion);
            return Some(completion);
        }
        if is_number(self.cut_at, self.trace.steps) && !self.told {
            self.told = true;
            self.trace.sent.push(Completion::Cut);
            return Some(Completion::Cut);
        }
        None
    }

    fn is_quiet(&self) -> bool {
        if self.failed || !self.queue.is_empty() || !self.log.all_programmed() {
            return false;
        }
        !holds_flush(&self.waiting)
    }

    fn trace(&self) -> &DeviceRecord {
        &self.trace
    }

    fn cut(self) -> CutDisk {
        let FlogDevice {
            data_area,
            origins,
            log,
            trace,
            ..
        } = self;
        let mut image = data_area;
        let mut places = origins;
        log.lay_over(&trace.took, &mut image, &mut places);
        let ids = read_ids(places, &trace.took);
        CutDisk {
            image,
            origins: Origins::new(ids),
            trace,
        }
    }

    ghost use Rattle.flog_device.specs.laws.OrderLaws as order;
    ghost use Rattle.flog_device.specs.laws.SeenLaws as told;
    ghost use Rattle.flog_device.specs.laws.StepLaws as steps;
    ghost use Rattle.flog_device.specs.laws.MemberLaws as laws;

    ghost receives = { laws.receives };

    ghost transfers = { laws.transfers };

    ghost persists = { laws.persists };

    ghost no_transfer = { steps.no_transfer };

    ghost no_persist = { steps.no_persist };

    ghost answers = { laws.answers };

    ghost no_answer = { steps.no_answer };

    ghost reads = { laws.reads };

    ghost surface = { order.surface_law };

    ghost epoch_order = { order.epoch_order_law };

    ghost flush = { order.flush_law };

    ghost completion = { told.completion_law };

    ghost free_slot = { laws.free_slot };

    ghost power_cut = { laws.power_cut };

    ghost failure = { told.failure_law };

    ghost stops = { λ s v. told.failed-stops s };

    ghost monotone = { laws.monotone };

    ghost settles = { laws.settled };

    ghost progress = { laws.progress };

    ghost falls = { laws.falls_all };

    ghost on = { laws.on };

    ghost stays_received = { laws.stays_received };

    ghost stays = { laws.stays };

    ghost works = { laws.works };

    ghost sound_received = { laws.sound_received };

    ghost stays_sound = { laws.stays_sound };

    ghost no_fault = { laws.no_fault };
}
