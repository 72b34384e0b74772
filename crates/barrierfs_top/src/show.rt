//! The tree of an image.
ghost use Rattle.std.specs.Prelude.{◌≡◌, Ok, IfOk, IfErr};
ghost use Rattle.std.specs.String.{string_bytes};
ghost use Rattle.tree_model.specs.Text.{tree_text};
ghost use Rattle.mount_make.specs.Images.{mounted};
ghost use Rattle.barrierfs_top.specs.Show.{shown, shown_volume, IsMountedFault};

use crate::device::device_over;
use crate::fault::TopFault;
use blk_base::{Image, NoMemory};
use mount_make::{MountFault, mount};
use std::alloc::Global;
use tree_model::{Tree, put_tree};
use volume_ops::Volume;

/// The text of the tree that an image has.
pub fn show_text(alloc: Global, image: Image) -> Result<String, TopFault>
    ensures ok { IfOk result (λ text. shown image ≡ Ok (string_bytes text)) }
    ensures err { IfErr result (IsMountedFault image) }
{
    let volume = volume_of(alloc, image)?;
    match last_text(alloc, volume) {
        Ok(text) => Ok(text),
        Err(_) => Err(TopFault::NoMemory),
    }
}

/// The volume of an image.
pub fn volume_of(alloc: Global, image: Image) -> Result<Volume, TopFault>
    ensures ok { IfOk result (λ v. mounted image ≡ Ok v) }
    ensures err { IfErr result (IsMountedFault image) }
{
    let Ok(mut device) = device_over(alloc, image) else {
        return Err(TopFault::NoMemory);
    };
    let mounted = mount(alloc, &mut device);
    // By a call: a drop that is written out at each way out is dear to prove.
    drop(device);
    match mounted {
        Ok(mounted) => Ok(mounted.volume),
        Err(MountFault::Image(fault, block)) => Err(TopFault::Image(fault, block)),
        Err(MountFault::NoMemory) => Err(TopFault::NoMemory),
        Err(MountFault::ReadFault | MountFault::DeviceFailed(_)) => unreachable!(),
    }
}

fn text_of(alloc: Global, tree: Tree) -> Result<String, NoMemory>
    ensures { IfOk result (λ text. string_bytes text ≡ tree_text tree) }
{
    let mut text = String::new(alloc);
    put_tree(alloc, &mut text, tree)?;
    Ok(text)
}

/// The text of the tree of a volume.
pub fn tree_text(alloc: Global, volume: &Volume) -> Result<String, NoMemory>
    ensures { IfOk result (λ text. shown_volume volume.now ≡ Ok (string_bytes text)) }
{
    let tree = volume.tree(alloc)?;
    text_of(alloc, tree)
}

// The text of the tree of a volume, whose blocks are let go before the text is made.
fn last_text(alloc: Global, volume: Volume) -> Result<String, NoMemory>
    ensures { IfOk result (λ text. shown_volume volume ≡ Ok (string_bytes text)) }
{
    let tree = volume.tree(alloc)?;
    drop(volume);
    text_of(alloc, tree)
}
