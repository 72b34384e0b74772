//! Whether the volume of an image is clean.
ghost use Rattle.std.specs.Prelude.{IfOk, IfErr};
ghost use Rattle.vol_check.specs.Verdicts.{IsVerdict};
ghost use Rattle.barrierfs_top.specs.Check.{HasVerdict, IsCheckFault};

use crate::fault::TopFault;
use crate::show::volume_of;
use blk_base::{Image, NoMemory};
use std::alloc::Global;
use vol_check::{Verdict, check_volume};
use volume_ops::Volume;

/// Ends well where the volume of an image is clean, once its journal was recovered.
pub fn check_image(alloc: Global, image: Image) -> Result<(), TopFault>
    ensures ok { IfOk result (λ done. HasVerdict image Verdict.Clean) }
    ensures err { IfErr result (IsCheckFault image) }
{
    let volume = volume_of(alloc, image)?;
    let verdict = verdict_on(alloc, &volume);
    // By a call: a drop that is written out at each way out is dear to prove.
    drop(volume);
    match verdict {
        Ok(Verdict::Clean) => Ok(()),
        Ok(verdict) => Err(TopFault::Unsound(verdict)),
        Err(_) => Err(TopFault::NoMemory),
    }
}

// What is told of a volume.
fn verdict_on(alloc: Global, volume: &Volume) -> Result<Verdict, NoMemory>
    ensures { IfOk result (IsVerdict volume.now.geometry volume.now.blocks) }
{
    check_volume(alloc, volume)
}
