//! The trait of ordered devices, with its laws.
ghost use Rattle.std.specs.Prelude.{◌≡◌, ℕ, ◌<◌, ◌≤◌, ◌++◌, not, Bool, true, false, List, [], ◌∷◌, length, Option, Some, None, IsTrue, ◌↔◌, IfOk, IfErr, OnOk, OnErr, is_ok, slice_get};
ghost use Rattle.blk_base.specs.Streams.{Rose};
ghost use Rattle.order_model.specs.declared.command.Command.{Command};
ghost use Rattle.order_model.specs.declared.completion.Completion.{Completion};
ghost use Rattle.order_model.specs.Device.{Seen, IsReceivable, IsQuiet, IsSettled, IsSurface, KeepsEpochOrder, KeepsFlush, Completes, TellsCut, TellsFailure, Grows, has_free_slot, origin_ids};
ghost use Rattle.order_model.specs.Steps.{IsTraceOf, Receives, Transfers, Persists, Answers, OnlyReads, Progresses};

use crate::{Command, Completion, CutDisk, DeviceRecord};
use blk_base::Block;

/// A block could not be read.
#[derive(Clone, Copy, Debug, PartialEq, Eq)]
pub struct ReadFault;

/// A block device that completes commands before they are on the medium, and keeps the order of the
/// epochs that barriers end.
///
/// Its state is a plain value, and each call is a step over it. What the device shows of a state is
/// `seen`; the laws below the calls speak of that alone.
pub trait OrderedDev {
    /// All that the device's answers depend on.
    ghost State: { Type 0 };

    /// The state that the device is in.
    ghost state: { Self → Self.State };

    /// The states that the calls can reach.
    ghost valid: { Self.State → Type 0 };

    /// What the host can learn of the device, and what the medium holds.
    ghost seen: { Self.State → Seen };

    /// The command queue has a free slot, and the power is on.
    ghost has_room: { Self.State → Bool };

    /// The state once a command went into the command queue.
    ghost received: { Self.State → Command → Self.State };

    /// How many of the commands that wait may be transferred next.
    ghost can_transfer: { Self.State → ℕ };

    /// How many blocks may be written to the medium next.
    ghost can_persist: { Self.State → ℕ };

    /// The state once the transfer at this place of those that may be next was made, or failed.
    ghost transferred: { Self.State → ℕ → Self.State };

    /// The state once the block at this place of those that may be next was written.
    ghost persisted: { Self.State → ℕ → Self.State };

    /// The completion that is handed out next.
    ghost next_answer: { Self.State → Option Completion };

    /// The state once the next completion was handed out.
    ghost answered: { Self.State → Self.State };

    /// The next read fails.
    ghost read_fails: { Self.State → Bool };

    /// The state once a block was read, or could not be.
    ghost after_read: { Self.State → ℕ → Self.State };

    /// A number that each transfer and each write to the medium lowers.
    ghost work_left: { Self.State → ℕ };

    /// The power is never cut.
    ghost stays_on: { Self.State → Type 0 };

    /// No transfer and no read fails.
    ghost sound: { Self.State → Type 0 };

    /// How many blocks the medium has.
    fn blocks(&self) -> u32
        ensures count { result ≡ length (seen (state self.now)).surface }
        ensures valid { valid (state self.now) };

    /// The medium's block, once all that the device took is on the medium.
    fn read(&mut self, block: u32) -> Result<Block, ReadFault>
        requires quiet { IsQuiet (seen (state self.old)) }
        requires within { block < length (seen (state self.old)).surface }
        ensures when { is_ok result ≡ not (read_fails (state self.old)) }
        ensures body { IfOk result (λ body. slice_get (seen (state self.old)).surface block ≡ Some body) }
        ensures fault { OnErr result (Rose (seen (state self.old)).faults (seen (state self.new)).faults) }
        ensures state { state self.new ≡ after_read (state self.old) block };

    /// Whether `receive` takes a command.
    fn room(&self) -> bool
        ensures { result ≡ has_room (state self.now) };

    /// Takes a command, or hands it back where there is no room.
    fn receive(&mut self, c: Command) -> Result<(), Command>
        requires { IsReceivable (seen (state self.old)) c }
        ensures when { is_ok result ≡ has_room (state self.old) }
        ensures ok { OnOk result (state self.new ≡ received (state self.old) c) }
        ensures back { IfErr result (λ d. (d ≡ c) × (state self.new ≡ state self.old)) };

    /// Takes the same as a command, where there is room. Its parts are copied, and nothing else is moved.
    fn take_in(&mut self, c: &Command)
        requires command { IsReceivable (seen (state self.old)) c.now }
        requires room { has_room (state self.old) ≡ true }
        ensures { state self.new ≡ received (state self.old) c.now };

    /// How many of the commands that wait may be transferred next.
    fn can_transfer(&self) -> u32
        ensures { result ≡ can_transfer (state self.now) };

    /// How many blocks may be written to the medium next.
    fn can_persist(&self) -> u32
        ensures { result ≡ can_persist (state self.now) };

    /// Transfers the command at place `pick` of those that may be next. It is performed, or fails.
    fn transfer(&mut self, pick: u32) -> bool
        ensures when { IsTrue result ↔ (pick < can_transfer (state self.old)) }
        ensures state { state self.new ≡ transferred (state self.old) pick };

    /// Writes the block at place `pick` of those that may be next to the medium.
    fn persist(&mut self, pick: u32) -> bool
        ensures when { IsTrue result ↔ (pick < can_persist (state self.old)) }
        ensures state { state self.new ≡ persisted (state self.old) pick };

    /// Hands out the next completion.
    fn answer(&mut self) -> Option<Completion>
        ensures value { result ≡ next_answer (state self.old) }
        ensures state { state self.new ≡ answered (state self.old) };

    /// Whether all that the device took is on the medium, and every flush was answered.
    fn is_quiet(&self) -> bool
        ensures { IsTrue result ↔ IsQuiet (seen (state self.now)) };

    /// What it took, transferred and sent, and its steps.
    fn trace(&self) -> &DeviceRecord
        ensures { IsTraceOf (seen (state self.now)) result.now };

    /// Cuts the power.
    fn cut(self) -> CutDisk
        ensures image { result.image ≡ (seen (state self)).surface }
        ensures origins { result.origins ≡ origin_ids (seen (state self)).took (seen (state self)).origins }
        ensures trace { IsTraceOf (seen (state self)) result.trace };

    // ---- what each call does to a state, and what it keeps

    /// A command that is received goes behind those that were taken, and changes nothing else.
    ghost receives: { (s : Self.State) (c : Command) → valid s → IsReceivable (seen s) c → has_room s ≡ true → valid (received s c) × Receives (seen s) c (seen (received s c)) };

    /// A transfer performs one command that was taken, or fails and is told as failed.
    ghost transfers: { (s : Self.State) (pick : ℕ) → valid s → pick < can_transfer s → valid (transferred s pick) × Transfers (seen s) (seen (transferred s pick)) };

    /// A write to the medium transfers and completes nothing.
    ghost persists: { (s : Self.State) (pick : ℕ) → valid s → pick < can_persist s → valid (persisted s pick) × Persists (seen s) (seen (persisted s pick)) };

    /// A transfer at a place that is not there changes nothing.
    ghost no_transfer: { (s : Self.State) (pick : ℕ) → can_transfer s ≤ pick → transferred s pick ≡ s };

    /// A write at a place that is not there changes nothing.
    ghost no_persist: { (s : Self.State) (pick : ℕ) → can_persist s ≤ pick → persisted s pick ≡ s };

    /// Completions are handed out in the order in which they came, each once.
    ghost answers: { (s : Self.State) → valid s → valid (answered s) × Answers (seen s) (next_answer s) (seen (answered s)) };

    /// Asking for a completion where none waits changes nothing.
    ghost no_answer: { (s : Self.State) → next_answer s ≡ None → answered s ≡ s };

    /// A read changes nothing but the count of faults.
    ghost reads: { (s : Self.State) (block : ℕ) → valid s → valid (after_read s block) × OnlyReads (seen s) (seen (after_read s block)) };

    // ---- the laws of what is seen

    /// Surface law: a block holds the last part that was written to it, or what it held at the start.
    ghost surface: { (s : Self.State) → valid s → IsSurface (seen s) };

    /// Epoch order law: what stands before a barrier is on the medium before anything that stands behind it.
    ghost epoch_order: { (s : Self.State) → valid s → KeepsEpochOrder (seen s) };

    /// Flush law: a flush completes once all that was taken before it is on the medium.
    ghost flush: { (s : Self.State) → valid s → KeepsFlush (seen s) };

    /// Completion law: each id completes at most once, and only as what was done.
    ghost completion: { (s : Self.State) → valid s → Completes (seen s) };

    /// Room law: there is room exactly while the power is on and fewer commands wait than the command queue holds, also once a
    /// transfer failed.
    ghost free_slot: { (s : Self.State) → valid s → has_room s ≡ has_free_slot (seen s) };

    /// Power-cut law: the power goes off at the steps that the device was made with; it then does nothing, and tells the cut once.
    ghost power_cut: { (s : Self.State) → valid s → TellsCut (seen s) × ((seen s).off ≡ true → (has_room s ≡ false) × (can_transfer s ≡ 0) × (can_persist s ≡ 0)) };

    /// Failure law: the transfer with the number that the device was made with fails, and is told by the command's ids; nothing
    /// else fails or is told as failed.
    ghost failure: { (s : Self.State) → valid s → TellsFailure (seen s) };

    /// Once a transfer failed, no other command is transferred.
    ghost stops: { (s : Self.State) → valid s → (seen s).failed ≡ true → can_transfer s ≡ 0 };

    /// Monotone law: what is on the medium stays or is overwritten by later parts, and no count falls.
    ghost monotone: { (s : Self.State) (pick : ℕ) → valid s → Grows (seen s) (seen (transferred s pick)) × Grows (seen s) (seen (persisted s pick)) };

    /// Settling law: while the power is on and nothing can be written, all that was transferred is on the medium, also once a
    /// transfer failed.
    ghost settles: { (s : Self.State) → valid s → (seen s).off ≡ false → can_persist s ≡ 0 → IsSettled (seen s) };

    /// Progress law: there is a step while work is left, and once none is left all is answered.
    ghost progress: { (s : Self.State) → valid s → (seen s).off ≡ false → (seen s).failed ≡ false → Progresses (seen s) (work_left s) (has_room s) (can_transfer s) (can_persist s) };

    /// Each transfer and each write to the medium lowers what is left; completions and reads leave it.
    ghost falls: { (s : Self.State) (pick : ℕ) → valid s → (pick < can_transfer s → work_left (transferred s pick) < work_left s) × (pick < can_persist s → work_left (persisted s pick) < work_left s) × (work_left (answered s) ≡ work_left s) × (work_left (after_read s pick) ≡ work_left s) };

    /// A device that stays on is on.
    ghost on: { (s : Self.State) → valid s → stays_on s → (seen s).off ≡ false };

    /// A device that stays on does so when it receives a command.
    ghost stays_received: { (s : Self.State) (c : Command) → stays_on s → stays_on (received s c) };

    /// A device that stays on does so through transfers, writes, completions and reads.
    ghost stays: { (s : Self.State) (n : ℕ) → stays_on s → stays_on (transferred s n) × stays_on (persisted s n) × stays_on (answered s) × stays_on (after_read s n) };

    /// None of a sound device's transfers failed, and its next read does not fail.
    ghost works: { (s : Self.State) → valid s → sound s → ((seen s).failed ≡ false) × (read_fails s ≡ false) };

    /// A sound device stays sound when it receives a command.
    ghost sound_received: { (s : Self.State) (c : Command) → sound s → sound (received s c) };

    /// A sound device stays sound through transfers, writes, completions and reads.
    ghost stays_sound: { (s : Self.State) (n : ℕ) → sound s → sound (transferred s n) × sound (persisted s n) × sound (answered s) × sound (after_read s n) };

    /// No call of a sound device raises its count of faults.
    ghost no_fault: { (s : Self.State) (n : ℕ) → valid s → sound s → ((seen (transferred s n)).faults ≡ (seen s).faults) × ((seen (after_read s n)).faults ≡ (seen s).faults) };
}
