//! Mounting.
ghost use Rattle.std.specs.Prelude.{◌≡◌, ◌≢◌, ℕ, ◌+◌, ◌<◌, ◌≤◌, false, length, [], None, Ok, Err, IfOk, IfErr, IfSome, OnErr, IsErrOf};
ghost use Rattle.blk_base.specs.Members.{In};
ghost use Rattle.blk_base.specs.Streams.{Rose};
ghost use Rattle.order_model.specs.declared.completion.Completion.{Completion};
ghost use Rattle.order_model.specs.Device.{IsQuiet};
ghost use Rattle.order_model.specs.Steps.{OnlyReads};
ghost use Rattle.journal_replay.specs.Endings.{FailsBetween};
ghost use Rattle.minix_layout.specs.declared.division.Geometry.{Geometry};
ghost use Rattle.minix_layout.specs.Geometry.{IsSound};
ghost use Rattle.volume_ops.specs.Volume.{disk_of};
ghost use Rattle.mount_make.specs.Images.{mounted, recovered_image, divided, has_journal, fault_in_journal, recovered_from, journal_at, IsTold, IsJournalTold};
ghost use Rattle.mount_make.specs.code.Mounting.{HasRead, KeepsImage};

use crate::fault::{image_fault, journal_kind, recovery_fault, volume_fault};
use crate::{ImageFault, MountFault};
use blk_base::Block;
use journal_blocks::{JournalSuper, is_journal};
use journal_replay::recover;
use minix_layout::{Geometry, read_super};
use order_model::OrderedDev;
use page_cache::Pages;
use std::alloc::Global;
use volume_ops::Volume;

/// What was mounted.
#[derive(Drop)]
pub struct Mounted {
    pub volume: Volume,
    /// No page, and room for as many as the volume has zones.
    pub pages: Pages,
    /// What the superblock of the journal says, if there is one. Its log is empty.
    pub log: Option<JournalSuper>,
}

/// Mounts the image on a device: tests its superblock, recovers its journal if there is one, and reads its volume.
///
/// The first fault is told in this order: fewer than two blocks, the superblock, blocks of the volume that are
/// missing, the journal, and what the walk through the recovered volume finds. Where the journal has a fault nothing
/// is written. Whatever is answered, the image can be mounted again, and is recovered to the same.
pub fn mount<D: OrderedDev>(alloc: Global, dev: &mut D) -> Result<Mounted, MountFault>
    requires quiet { IsQuiet (D.seen (D.state dev.old)) }
    requires fresh { (D.seen (D.state dev.old)).took ≡ [] }
    requires on { D.stays_on (D.state dev.old) }
    requires room { length (D.seen (D.state dev.old)).surface + 2 ≤ (D.seen (D.state dev.old)).limit }
    ensures volume { IfOk result (λ m. mounted (D.seen (D.state dev.old)).surface ≡ Ok m.volume) }
    ensures recovered { IfOk result (λ _. (D.seen (D.state dev.new)).surface ≡ recovered_image (D.seen (D.state dev.old)).surface) }
    ensures log { IfOk result (λ m. m.log ≡ journal_at m.volume.geometry.zones (D.seen (D.state dev.new)).surface) }
    ensures empty { IfOk result (λ m. IfSome m.log (λ s. s.start ≡ 0)) }
    ensures pages { IfOk result (λ m. m.pages ≡ record { room = m.volume.geometry.zones; pages = [] }) }
    ensures quiet { IfOk result (λ _. IsQuiet (D.seen (D.state dev.new))) }
    ensures fault { IfErr result (IsTold (mounted (D.seen (D.state dev.old)).surface)) }
    ensures attempt { recovered_image (D.seen (D.state dev.new)).surface ≡ recovered_image (D.seen (D.state dev.old)).surface }
    ensures reads { (g : Geometry) → divided (D.seen (D.state dev.old)).surface ≡ Ok g → has_journal g.zones (D.seen (D.state dev.old)).surface ≡ false →
        OnlyReads (D.seen (D.state dev.old)) (D.seen (D.state dev.new)) }
    ensures read_fault { IsErrOf result MountFault.ReadFault → Rose (D.seen (D.state dev.old)).faults (D.seen (D.state dev.new)).faults }
    ensures device_failed { (id : ℕ) → result ≡ Err (MountFault.DeviceFailed id) →
        Rose (D.seen (D.state dev.old)).faults (D.seen (D.state dev.new)).faults × In (Completion.Failed id) (D.seen (D.state dev.new)).sent }
    ensures failure { (id : ℕ) → result ≡ Err (MountFault.DeviceFailed id) → FailsBetween (D.seen (D.state dev.old)) (D.seen (D.state dev.new)) id }
    ensures no_failure { ((id : ℕ) → result ≢ Err (MountFault.DeviceFailed id)) → (D.seen (D.state dev.new)).failed ≡ false }
    ensures counts { (D.seen (D.state dev.old)).faults ≤ (D.seen (D.state dev.new)).faults }
    ensures no_fault { D.sound (D.state dev.old) → D.sound (D.state dev.new) × ((D.seen (D.state dev.new)).faults ≡ (D.seen (D.state dev.old)).faults) }
{
    let g = read_geometry(dev)?;
    let zones = u32::from(g.zones);
    let log = recover_journal(alloc, dev, zones)?;
    let Ok(pages) = Pages::load(alloc, zones) else {
        return Err(MountFault::NoMemory);
    };
    match Volume::read_all(alloc, dev, g) {
        Ok(volume) => Ok(Mounted { volume, pages, log }),
        Err(fault) => Err(volume_fault(fault)),
    }
}

// How the volume is divided, where the device has all its blocks.
#[tactic(auto, unfolding(crate::specs::Images::divided))]
fn read_geometry<D: OrderedDev>(dev: &mut D) -> Result<Geometry, MountFault>
    requires quiet { IsQuiet (D.seen (D.state dev.old)) }
    ensures ok { IfOk result (λ g. divided (D.seen (D.state dev.old)).surface ≡ Ok g) }
    ensures sound { IfOk result (λ g. IsSound g) }
    ensures whole { IfOk result (λ g. g.zones ≤ length (D.seen (D.state dev.old)).surface) }
    ensures told { IfErr result (IsTold (divided (D.seen (D.state dev.old)).surface)) }
    ensures read_fault { IsErrOf result MountFault.ReadFault → Rose (D.seen (D.state dev.old)).faults (D.seen (D.state dev.new)).faults }
    ensures no_failure { (id : ℕ) → IsErrOf result (MountFault.DeviceFailed id) → ⊥ }
    ensures read { HasRead (D.seen (D.state dev.old)) (D.seen (D.state dev.new)) }
    ensures was_valid { D.valid (D.state dev.old) }
    ensures on { D.stays_on (D.state dev.old) → D.stays_on (D.state dev.new) }
    ensures no_fault { D.sound (D.state dev.old) → D.sound (D.state dev.new) × ((D.seen (D.state dev.new)).faults ≡ (D.seen (D.state dev.old)).faults) }
{
    let blocks = dev.blocks();
    if blocks < 2 {
        return Err(MountFault::Image(ImageFault::BadGeometry, blocks));
    }
    let superblock = read_block(dev, 1)?;
    match read_super(&superblock) {
        Ok(g) => {
            if blocks < u32::from(g.zones) {
                return Err(MountFault::Image(ImageFault::BadGeometry, blocks));
            }
            Ok(g)
        }
        Err(fault) => Err(MountFault::Image(image_fault(fault), 1)),
    }
}

// Recovers the journal that begins at block `base`, if there is one, and tells what its superblock says then.
fn recover_journal<D: OrderedDev>(
    alloc: Global,
    dev: &mut D,
    base: u32,
) -> Result<Option<JournalSuper>, MountFault>
    requires quiet { IsQuiet (D.seen (D.state dev.old)) }
    requires fresh { (D.seen (D.state dev.old)).took ≡ [] }
    requires on { D.stays_on (D.state dev.old) }
    requires room { length (D.seen (D.state dev.old)).surface + 2 ≤ (D.seen (D.state dev.old)).limit }
    ensures recovered { IfOk result (λ _. (D.seen (D.state dev.new)).surface ≡ recovered_from base (D.seen (D.state dev.old)).surface) }
    ensures fine { IfOk result (λ _. fault_in_journal base (D.seen (D.state dev.old)).surface ≡ None) }
    ensures log { IfOk result (λ log. log ≡ journal_at base (D.seen (D.state dev.new)).surface) }
    ensures empty { IfOk result (λ log. IfSome log (λ s. s.start ≡ 0)) }
    ensures quiet { IfOk result (λ _. IsQuiet (D.seen (D.state dev.new))) }
    ensures told { IfErr result (IsJournalTold (fault_in_journal base (D.seen (D.state dev.old)).surface)) }
    ensures attempt { KeepsImage base (D.seen (D.state dev.old)).surface (D.seen (D.state dev.new)).surface }
    ensures reads { has_journal base (D.seen (D.state dev.old)).surface ≡ false → OnlyReads (D.seen (D.state dev.old)) (D.seen (D.state dev.new)) }
    ensures read_fault { IsErrOf result MountFault.ReadFault → Rose (D.seen (D.state dev.old)).faults (D.seen (D.state dev.new)).faults }
    ensures device_failed { (id : ℕ) → result ≡ Err (MountFault.DeviceFailed id) →
        Rose (D.seen (D.state dev.old)).faults (D.seen (D.state dev.new)).faults × In (Completion.Failed id) (D.seen (D.state dev.new)).sent }
    ensures failure { (id : ℕ) → result ≡ Err (MountFault.DeviceFailed id) → FailsBetween (D.seen (D.state dev.old)) (D.seen (D.state dev.new)) id }
    ensures no_failure { ((id : ℕ) → result ≢ Err (MountFault.DeviceFailed id)) → (D.seen (D.state dev.old)).failed ≡ false → (D.seen (D.state dev.new)).failed ≡ false }
    ensures counts { (D.seen (D.state dev.old)).faults ≤ (D.seen (D.state dev.new)).faults }
    ensures no_fault { D.sound (D.state dev.old) → D.sound (D.state dev.new) × ((D.seen (D.state dev.new)).faults ≡ (D.seen (D.state dev.old)).faults) }
{
    if dev.blocks() <= base {
        return Ok(None);
    }
    let first = read_block(dev, base)?;
    if !is_journal(&first) {
        return Ok(None);
    }
    let log = match journal_blocks::read_super(&first) {
        Ok(log) => log,
        Err(fault) => return Err(MountFault::Image(journal_kind(fault), base)),
    };
    match recover(alloc, dev, base, &[], false) {
        Ok(done) => Ok(Some(JournalSuper {
            sequence: done.next,
            start: 0,
            ..log
        })),
        Err(fault) => Err(recovery_fault(fault)),
    }
}

// One block of a device.
fn read_block<D: OrderedDev>(dev: &mut D, block: u32) -> Result<Block, MountFault>
    requires valid { D.valid (D.state dev.old) }
    requires quiet { IsQuiet (D.seen (D.state dev.old)) }
    requires within { block < length (D.seen (D.state dev.old)).surface }
    ensures body { IfOk result (λ body. disk_of (D.seen (D.state dev.old)).surface block ≡ body) }
    ensures fault { IfErr result (λ fault. fault ≡ MountFault.ReadFault) }
    ensures read_fault { OnErr result (Rose (D.seen (D.state dev.old)).faults (D.seen (D.state dev.new)).faults) }
    ensures read { HasRead (D.seen (D.state dev.old)) (D.seen (D.state dev.new)) }
    ensures valid { D.valid (D.state dev.new) }
    ensures on { D.stays_on (D.state dev.old) → D.stays_on (D.state dev.new) }
    ensures sound { D.sound (D.state dev.old) → D.sound (D.state dev.new) × ((D.seen (D.state dev.new)).faults ≡ (D.seen (D.state dev.old)).faults) }
{
    match dev.read(block) {
        Ok(body) => Ok(body),
        Err(_) => Err(MountFault::ReadFault),
    }
}
