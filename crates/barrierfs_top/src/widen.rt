//! The image of a volume, with names of 30 bytes.
ghost use Rattle.std.specs.Prelude.{◌≡◌, Ok, IfOk, IfErr};
ghost use Rattle.widening.specs.Widened.{widened_image};
ghost use Rattle.barrierfs_top.specs.Text.{output_bytes};
ghost use Rattle.barrierfs_top.specs.Widen.{IsWidened, IsWidenFault, IsUnwidened};

use crate::device::device_over;
use crate::fault::TopFault;
use crate::output::Output;
use crate::show::show_text;
use blk_base::Image;
use std::alloc::Global;
use widening::{WidenFault, widen};

/// What is written of an image that is widened: its bytes, or the text of its tree.
pub fn widen_output(alloc: Global, image: Image, raw: bool) -> Result<Output, TopFault>
    ensures ok { IfOk result (λ out. IsWidened raw image (output_bytes out)) }
    ensures err { IfErr result (IsWidenFault raw image) }
{
    let image = widened(alloc, image)?;
    if raw {
        return Ok(Output::Image(image));
    }
    let text = show_text(alloc, image)?;
    Ok(Output::Text(text))
}

// The widened image.
fn widened(alloc: Global, image: Image) -> Result<Image, TopFault>
    ensures ok { IfOk result (λ wide. widened_image image ≡ Ok wide) }
    ensures err { IfErr result (IsUnwidened image) }
{
    let Ok(mut device) = device_over(alloc, image) else {
        return Err(TopFault::NoMemory);
    };
    let widened = widen(alloc, &mut device);
    // By a call: a drop that is written out at each way out is dear to prove.
    drop(device);
    match widened {
        Ok(image) => Ok(image),
        Err(WidenFault::Image(fault, block)) => Err(TopFault::Image(fault, block)),
        Err(WidenFault::NoRoom) => Err(TopFault::NoRoom),
        Err(WidenFault::NoMemory) => Err(TopFault::NoMemory),
        Err(WidenFault::ReadFault | WidenFault::DeviceFailed(_)) => unreachable!(),
    }
}
