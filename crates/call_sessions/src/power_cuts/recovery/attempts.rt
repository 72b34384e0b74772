//! Attempts of recovery that are cut.
ghost use Rattle.std.specs.Prelude.{◌≡◌, ◌<◌, length, None, IfOk};
ghost use Rattle.order_model.specs.Machine.{machine_of};
ghost use Rattle.journal_blocks.specs.Log.{body_at};
ghost use Rattle.journal_replay.specs.Recovered.{recovered, journal_fault};
ghost use Rattle.call_sessions.specs.power_cuts.recovery.Attempts.{told_of, choices_of, IsAttempt, AreAttempts};
ghost use Rattle.call_sessions.specs.power_cuts.recovery.code.Left.{IsLeft};

use crate::power_cuts::recovery::steering::steps_of_line;
use blk_base::{Image, NoMemory};
use journal_replay::{RecoverFault, recover};
use line_grammar::events::SteerLine;
use order_model::{CutDisk, OrderedDev, Origins};
use stack_core::Maker;
use std::alloc::Global;

/// What is told of an attempt.
#[derive(Drop)]
pub struct Attempt {
    /// The steps of its device.
    pub steps: u64,
    /// For each block the id of the request whose body it holds, or none.
    pub origins: Origins,
}

/// Makes an attempt of recovery for each line, in order, each on a fresh device: the first over the image, each other over
/// what the one before left. Answers what is told of each, and what the last one left.
pub fn recover_lines<M: Maker>(
    alloc: Global,
    maker: &mut M,
    base: u32,
    image: Image,
    lines: &[SteerLine],
) -> Result<(Vec<Attempt>, Image), NoMemory>
    requires within { base < length image }
    requires fine { journal_fault base image ≡ None }
    ensures setup { M.setup maker.new ≡ M.setup maker.old }
    ensures attempts { IfOk result (λ r. AreAttempts (machine_of M.Dev.OrderedDev) (λ i. M.Dev.OrderedDev.state (M.fresh_dev (M.setup maker.old) i)) base image lines.now r.0.items r.1) }
    ensures recovered { IfOk result (λ r. recovered base r.1 ≡ recovered base image) }
    ensures fine { IfOk result (λ r. journal_fault base r.1 ≡ None) }
    ensures left { IfOk result (λ r. IsLeft base image r.1) }
{
    let mut attempts = Vec::new(alloc);
    let mut left = image;
    for line in lines {
        let (attempt, image) = recover_line(alloc, maker, base, left, line)?;
        left = image;
        if attempts.push(attempt).is_err() {
            return Err(NoMemory);
        }
    }
    Ok((attempts, left))
}

// One attempt, and what it leaves.
fn recover_line<M: Maker>(
    alloc: Global,
    maker: &mut M,
    base: u32,
    image: Image,
    line: &SteerLine,
) -> Result<(Attempt, Image), NoMemory>
    requires within { base < length image }
    requires fine { journal_fault base image ≡ None }
    ensures setup { M.setup maker.new ≡ M.setup maker.old }
    ensures attempt { IfOk result (λ r. (last : M.Dev.OrderedDev.State)
        × IsAttempt (machine_of M.Dev.OrderedDev) base image (choices_of line.now) (M.Dev.OrderedDev.state (M.fresh_dev (M.setup maker.old) image)) last
        × (r.0 ≡ told_of (M.Dev.OrderedDev.seen last)) × (r.1 ≡ (M.Dev.OrderedDev.seen last).surface)) }
    ensures left { IfOk result (λ r. IsLeft base image r.1) }
{
    let steps = steps_of_line(alloc, line)?;
    check_size(&image, base);
    let mut device = maker.fresh(alloc, image)?;
    match recover(alloc, &mut device, base, &steps, true) {
        Ok(_) => {}
        Err(RecoverFault::NoMemory) => return Err(NoMemory),
        Err(
            RecoverFault::ReadFault | RecoverFault::DeviceFailed(_) | RecoverFault::BadJournal(..),
        ) => unreachable!(),
    }
    let CutDisk {
        image,
        origins,
        trace,
    } = device.cut();
    Ok((
        Attempt {
            steps: trace.steps,
            origins,
        },
        image,
    ))
}

// Each block has 1,024 bytes, as its type says.
fn check_size(image: &Image, block: u32)
    requires { block < length image.now }
    ensures { length (body_at image.now block) ≡ 1024 }
{
    let _bytes = image.block(block).as_slice();
}
