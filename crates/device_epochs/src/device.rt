//! The device behind the trait: its fields, how it is made, and its calls.
ghost use Rattle.std.specs.Prelude.{◌≡◌, ℕ, ◌+◌, ◌≤◌, ◌<◌, ◌==◌, Bool, [], ◌^◌, true, false, length, replicate, IfOk, Some, None, slice_get, if◌then◌else◌};
ghost use Rattle.std.specs.Option.{option_map};
ghost use Rattle.order_model.specs.declared.part.Part.{Part};
ghost use Rattle.order_model.specs.Received.{all_parts, part_at};
ghost use Rattle.device_epochs.specs.Device.{DeviceState, opened, is_off, has_room, received, transferable, transferred, persistable, persisted, next_answer, answered, after_read, IsSound, seen};
ghost use Rattle.device_epochs.specs.queue.Faults.{is_number, is_next};
ghost use Rattle.device_epochs.specs.laws.Valid.{work_left, IsValid};
ghost use Rattle.device_epochs.specs.code.Helpers.{starts_with_flush, flush_waits, is_held};
ghost use Rattle.device_epochs.specs.queue.Queue.{QueueState};

use crate::cache::Cache;
use crate::queue::{
    CommandQueue, complete, complete_failed, count_down, holds_flush, is_number, note_transfers,
    read_ids,
};
use blk_base::{Block, Image, NoMemory};
use circular_buffer::HeapCircularBuffer;
use order_model::{
    Command, Commands, Completion, CutDisk, DeviceRecord, History, OrderedDev, Origins, Part,
    ReadFault, Trail,
};
use std::alloc::Global;
use std::marker::Model;

/// How a device is set up.
#[derive(Clone, Copy, PartialEq, Eq, Debug)]
pub struct DeviceSetup {
    /// How many commands may wait, 1 to 64.
    pub depth: u32,
    /// How many ids it may take in all.
    pub limit: u64,
    /// The number of the transfer that fails, counted from 1.
    pub fail_at: Option<u64>,
    /// The number of the read that fails, counted from 1.
    pub bad_read: Option<u64>,
    /// The steps after which the power is off.
    pub cut_at: Option<u64>,
}

/// A device with a volatile cache and barrier epochs.
///
/// All its room is reserved by `make`: no other call takes memory.
#[derive(Drop)]
pub struct EpochDevice {
    // What it was made over. It takes no memory: contracts alone read it.
    base: Trail<Block>,
    surface: Image,
    // For each block the place of the part that it holds.
    origins: Vec<Option<u64>>,
    trace: DeviceRecord,
    waiting: HeapCircularBuffer<Completion>,
    queue: CommandQueue,
    cache: Cache,
    epoch: u64,
    limit: u64,
    cut_at: Option<u64>,
    // The power cut was told.
    told: bool,
    // The number of the transfer that fails, and how many were made.
    fail_at: Option<u64>,
    transfers_made: u64,
    // How many reads from now the one that fails is.
    bad_read: Option<u64>,
    // A transfer failed.
    failed: bool,
    // How many transfers and reads failed.
    faults: u64,
}

impl Model for EpochDevice {
    ghost use Rattle.device_epochs.specs.Device.{DeviceState};

    ghost Value = { DeviceState };

    ghost use Rattle.device_epochs.specs.code.Fields.{state_of, IsDevice};

    ghost view = { state_of };

    ghost invariant = { IsDevice };
}

// The parts of so many ids take two terabytes.
const TOO_MANY_IDS: u64 = 1 << 31;

impl EpochDevice {
    /// A device over an image, which it keeps besides. It answers `NoMemory` for 2^31 ids or more.
    pub fn make(alloc: Global, image: Image, setup: DeviceSetup) -> Result<EpochDevice, NoMemory>
        requires { (1 ≤ setup.depth) × (setup.depth ≤ 64) }
        ensures { IfOk result (λ d. d ≡ opened image setup) }
    {
        if setup.limit >= TOO_MANY_IDS {
            return Err(NoMemory);
        }
        let room = setup.limit as usize;
        let base = Trail::of_image(&image);
        let origins = no_origins(alloc, image.len())?;
        // By the count of steps the cache holds no more than there were commands and parts.
        let cache = Cache::make(alloc, 2 * room, image.len())?;
        Ok(EpochDevice {
            base,
            surface: image,
            origins,
            trace: empty_record(alloc, room)?,
            waiting: HeapCircularBuffer::with_capacity(alloc, room + 1)?,
            queue: CommandQueue::make(alloc, setup.depth)?,
            cache,
            epoch: 0,
            limit: setup.limit,
            cut_at: setup.cut_at,
            told: false,
            fail_at: setup.fail_at,
            transfers_made: 0,
            bad_read: setup.bad_read,
            failed: false,
            faults: 0,
        })
    }

    fn is_off(&self) -> bool
        ensures value { result ≡ is_off self.now }
        ensures valid { IsValid self.now }
    {
        is_number(self.cut_at, self.trace.steps)
    }

    /// What a power cut would leave on the medium now.
    pub fn medium(&self, alloc: Global) -> Result<Image, NoMemory>
        ensures { IfOk result (λ i. i ≡ (seen self.now).surface) }
    {
        self.surface.copy(alloc)
    }

    // No command may go.
    fn is_held(&self) -> bool
        ensures value { result ≡ is_held self.now }
        ensures valid { IsValid self.now }
    {
        self.is_off() || self.failed || self.flush_waits()
    }

    // The cache is not empty, and a flush may go but for that. A flush is ORDERED, so no other command may
    // go then.
    fn flush_waits(&self) -> bool
        ensures { result ≡ flush_waits self.now }
    {
        !self.cache.is_empty() && starts_with_flush(&self.queue)
    }
}

// A barrier ends the epoch.
fn next_epoch(epoch: u64, barrier: bool) -> u64
    requires { epoch + 1 < 2 ^ 64 }
    ensures { result ≡ (if barrier then epoch + 1 else epoch) }
{
    if barrier { epoch + 1 } else { epoch }
}

// The first command that may go is a flush.
fn starts_with_flush(queue: &CommandQueue) -> bool
    ensures { result ≡ starts_with_flush queue.now }
{
    match queue.peek(0) {
        Some(command) => command.flush.is_some(),
        None => false,
    }
}

// The bytes of the part at this place.
fn body_of(took: &Commands, place: u64) -> Block
    requires there { place < length (all_parts took.now.items) }
    requires few { place < 2 ^ 31 }
    ensures { option_map (λ (p : Part). p.body) (part_at took.now.items place) ≡ Some result }
{
    let Some(part) = took.part(place as usize) else {
        unreachable!();
    };
    part.body
}

fn no_origins(alloc: Global, blocks: u32) -> Result<Vec<Option<u64>>, NoMemory>
    ensures { IfOk result (λ v. v.items ≡ replicate blocks None) }
{
    let mut origins = Vec::with_capacity(alloc, blocks as usize)?;
    for _ in 0..blocks {
        origins.push_reserved(None);
    }
    Ok(origins)
}

fn empty_record(alloc: Global, limit: usize) -> Result<DeviceRecord, NoMemory>
    requires { limit < 2 ^ 31 }
    ensures { IfOk result (λ r. r ≡ record { took = record { items = []; room = limit }; moved = record { items = []; room = limit }; sent = record { items = []; room = limit + 1 }; steps = 0 }) }
{
    Ok(DeviceRecord {
        took: Commands::make(alloc, limit)?,
        moved: History::make(alloc, limit)?,
        sent: History::make(alloc, limit + 1)?,
        steps: 0,
    })
}

impl OrderedDev for EpochDevice {
    ghost State = { DeviceState };

    ghost state = { λ d. d };

    ghost valid = { IsValid };

    ghost seen = { seen };

    ghost has_room = { has_room };

    ghost received = { received };

    ghost can_transfer = { λ s. length (transferable s) };

    ghost can_persist = { λ s. length (persistable s) };

    ghost transferred = { transferred };

    ghost persisted = { persisted };

    ghost next_answer = { next_answer };

    ghost answered = { answered };

    ghost read_fails = { λ s. is_next s.bad_read };

    ghost after_read = { λ s _. after_read s };

    ghost work_left = { work_left };

    ghost stays_on = { λ s. s.cut_at ≡ None };

    ghost sound = { IsSound };

    fn blocks(&self) -> u32 {
        self.surface.len()
    }

    fn read(&mut self, block: u32) -> Result<Block, ReadFault> {
        if count_down(&mut self.bad_read) {
            self.faults += 1;
            return Err(ReadFault);
        }
        Ok(self.surface.block(block).copy())
    }

    fn room(&self) -> bool {
        !self.is_off() && self.queue.room()
    }

    fn receive(&mut self, c: Command) -> Result<(), Command> {
        if !self.room() {
            return Err(c);
        }
        self.take_in(&c);
        Ok(())
    }

    fn take_in(&mut self, c: &Command) {
        self.trace.took.push(c);
        self.queue.push(c);
    }

    fn can_transfer(&self) -> u32 {
        if self.is_held() {
            return 0;
        }
        self.queue.eligible()
    }

    fn can_persist(&self) -> u32 {
        if self.is_off() {
            return 0;
        }
        self.cache.count_oldest() as u32
    }

    fn transfer(&mut self, pick: u32) -> bool {
        if self.is_held() {
            return false;
        }
        let Some(number) = self.queue.number(pick) else {
            return false;
        };
        let Some(command) = self.queue.peek(pick) else {
            return false;
        };
        self.transfers_made += 1;
        if is_number(self.fail_at, self.transfers_made) {
            complete_failed(&mut self.waiting, command);
            self.trace.steps += 1;
            self.failed = true;
            self.faults += 1;
            self.queue.leave(pick);
            return true;
        }
        let first = self.trace.took.first_part(number as usize) as u64;
        let parts = command.parts.as_slice();
        let trace = &mut self.trace;
        note_transfers(&mut trace.moved, self.epoch, first, parts);
        trace.steps += 1;
        self.cache.put_parts(self.epoch, first, parts);
        complete(&mut self.waiting, command);
        self.epoch = next_epoch(self.epoch, command.barrier);
        self.queue.leave(pick);
        true
    }

    fn persist(&mut self, pick: u32) -> bool {
        if self.is_off() {
            return false;
        }
        let Some(entry) = self.cache.take_entry(pick as usize) else {
            return false;
        };
        let body = body_of(&self.trace.took, entry.part);
        self.surface.put(entry.block, body);
        self.origins[entry.block as usize] = Some(entry.part);
        self.trace.steps += 1;
        true
    }

    fn answer(&mut self) -> Option<Completion> {
        if let Some(completion) = self.waiting.pop_front() {
            self.trace.sent.push(completion);
            return Some(completion);
        }
        if is_number(self.cut_at, self.trace.steps) && !self.told {
            self.told = true;
            self.trace.sent.push(Completion::Cut);
            return Some(Completion::Cut);
        }
        None
    }

    fn is_quiet(&self) -> bool {
        if self.failed || !self.queue.is_empty() || !self.cache.is_empty() {
            return false;
        }
        !holds_flush(&self.waiting)
    }

    fn trace(&self) -> &DeviceRecord {
        &self.trace
    }

    fn cut(self) -> CutDisk {
        let EpochDevice {
            surface,
            origins,
            trace,
            ..
        } = self;
        let ids = read_ids(origins, &trace.took);
        CutDisk {
            image: surface,
            origins: Origins::new(ids),
            trace,
        }
    }

    ghost use Rattle.device_epochs.specs.laws.EpochOrder as order;
    ghost use Rattle.device_epochs.specs.laws.FlushLaws as flushes;
    ghost use Rattle.device_epochs.specs.laws.SeenLaws as told;
    ghost use Rattle.device_epochs.specs.laws.StepLaws as steps;
    ghost use Rattle.device_epochs.specs.laws.MemberLaws as laws;

    ghost receives = { laws.receives };

    ghost transfers = { laws.transfers };

    ghost persists = { laws.persists };

    ghost no_transfer = { steps.no_transfer };

    ghost no_persist = { steps.no_persist };

    ghost answers = { laws.answers };

    ghost no_answer = { steps.no_answer };

    ghost reads = { laws.reads };

    ghost surface = { order.surface_law };

    ghost epoch_order = { order.epoch_order_law };

    ghost flush = { flushes.flush_law };

    ghost completion = { told.completion_law };

    ghost free_slot = { laws.free_slot };

    ghost power_cut = { laws.power_cut };

    ghost failure = { told.failure_law };

    ghost stops = { λ s v. told.failed-stops s };

    ghost monotone = { laws.monotone };

    ghost settles = { told.settled_law };

    ghost progress = { laws.progress };

    ghost falls = { told.falls };

    ghost on = { laws.on };

    ghost stays_received = { laws.stays_received };

    ghost stays = { laws.stays };

    ghost works = { laws.works };

    ghost sound_received = { laws.sound_received };

    ghost stays_sound = { laws.stays_sound };

    ghost no_fault = { laws.no_fault };
}
