//! Mounting after a power cut, behind attempts of recovery that are cut.
ghost use Rattle.std.specs.Prelude.{◌≡◌, ◌≢◌, ℕ, ◌+◌, ◌^◌, ◌%◌, ◌<◌, ◌≤◌, true, List, length, None, Some, Ok, IfOk};
ghost use Rattle.journal_blocks.specs.Log.{body_at};
ghost use Rattle.journal_blocks.specs.declared.super_block.JournalSuper.{JournalSuper};
ghost use Rattle.journal_blocks.specs.Super.{super_of, IsSound};
ghost use Rattle.journal_replay.specs.Recovered.{journal_fault};
ghost use Rattle.volume_ops.specs.Volume.{VolumeState};
ghost use Rattle.mount_make.specs.Images.{mounted, divided, has_journal, journal_at, recovered_image};
ghost use Rattle.order_model.specs.Machine.{machine_of};
ghost use Rattle.call_sessions.specs.power_cuts.recovery.Attempts.{IsMountedBehind};
ghost use Rattle.call_sessions.specs.power_cuts.recovery.Found.{words_from, found_in};

use crate::power_cuts::recovery::attempts::{Attempt, recover_lines};
use blk_base::{Image, NoMemory};
use journal_blocks::{JournalSuper, read_super};
use line_grammar::events::SteerLine;
use mount_make::{MountFault, Mounted, mount};
use order_model::OrderedDev;
use stack_core::Maker;
use std::alloc::Global;
use volume_ops::Volume;

/// What was mounted after a power cut.
#[derive(Drop)]
pub struct Remounted {
    pub attempts: Vec<Attempt>,
    pub volume: Volume,
    /// The blocks that its recovery left, of volume and journal.
    pub image: Image,
    /// How many transactions of the session the volume has.
    pub found: u32,
}

/// Makes the attempts of these lines, and then recovers to the end and mounts, each on a fresh device. The journal begins
/// at block `base`, and `first_sequence` is the sequence of the first transaction of the session.
pub fn remount<M: Maker>(
    alloc: Global,
    maker: &mut M,
    base: u32,
    first_sequence: u32,
    image: Image,
    lines: &[SteerLine],
) -> Result<Remounted, NoMemory>
    requires mounts { (v : VolumeState) × (mounted image ≡ Ok v) }
    requires base { IfOk (divided image) (λ g. g.zones ≡ base) }
    requires journal { has_journal base image ≡ true }
    ensures setup { M.setup maker.new ≡ M.setup maker.old }
    ensures attempts { IfOk result (λ r. IsMountedBehind (machine_of M.Dev.OrderedDev) (λ i. M.Dev.OrderedDev.state (M.fresh_dev (M.setup maker.old) i)) base image lines.now r.attempts.items r.volume) }
    ensures volume { IfOk result (λ r. mounted image ≡ Ok r.volume) }
    ensures recovered { IfOk result (λ r. r.image ≡ recovered_image image) }
    ensures again { IfOk result (λ r. mounted r.image ≡ Ok r.volume) }
    ensures found { IfOk result (λ r. r.found ≡ found_in base first_sequence image) }
{
    let journal = journal_of(&image, base);
    let (attempts, left) = recover_lines(alloc, maker, base, image, lines)?;
    let (mounted, image) = mount_image(alloc, maker, left)?;
    let Mounted { volume, log, .. } = mounted;
    Ok(Remounted {
        attempts,
        volume,
        image,
        found: found_before(first_sequence, journal, log),
    })
}

// What the superblock of a journal without a fault says.
fn journal_of(image: &Image, base: u32) -> JournalSuper
    requires within { base < length image.now }
    requires fine { journal_fault base image.now ≡ None }
    ensures read { super_of (body_at image.now base) ≡ Ok result }
    ensures sound { IsSound result }
    ensures size { length (body_at image.now base) ≡ 1024 }
{
    match read_super(image.block(base)) {
        Ok(journal) => journal,
        Err(_) => unreachable!(),
    }
}

// Mounts an image without a fault on a fresh device, and answers the image that this leaves, too.
fn mount_image<M: Maker>(
    alloc: Global,
    maker: &mut M,
    image: Image,
) -> Result<(Mounted, Image), NoMemory>
    requires mounts { (v : VolumeState) × (mounted image ≡ Ok v) }
    ensures setup { M.setup maker.new ≡ M.setup maker.old }
    ensures volume { IfOk result (λ r. mounted image ≡ Ok r.0.volume) }
    ensures log { IfOk result (λ r. r.0.log ≡ journal_at r.0.volume.geometry.zones (recovered_image image)) }
    ensures recovered { IfOk result (λ r. r.1 ≡ recovered_image image) }
{
    let mut device = maker.fresh(alloc, image)?;
    match mount(alloc, &mut device) {
        Ok(mounted) => Ok((mounted, device.cut().image)),
        Err(MountFault::NoMemory) => Err(NoMemory),
        Err(MountFault::Image(..) | MountFault::ReadFault | MountFault::DeviceFailed(_)) => {
            unreachable!()
        }
    }
}

// How many transactions there are from the first of the session to the first that the log misses. The journal said this
// at the power cut, and was recovered to say that.
fn found_before(first: u32, cut: JournalSuper, recovered: Option<JournalSuper>) -> u32
    ensures none { cut.start ≡ 0 → result ≡ 0 }
    ensures some { (s : JournalSuper) (reached : ℕ) → cut.start ≢ 0 → recovered ≡ Some s → s.sequence ≡ (reached + 1) % 2 ^ 32 →
        result ≡ words_from first reached }
{
    match recovered {
        Some(log) if cut.start != 0 => log.sequence.wrapping_sub(1).wrapping_sub(first),
        _ => 0,
    }
}
