//! The walk through a volume.
ghost use Rattle.std.specs.Prelude.{◌≡◌, Ok, IfOk, IfErr};
ghost use Rattle.minix_layout.specs.Widths.{IsWidth};
ghost use Rattle.volume_ops.specs.Volume.{walked, IsTold};

use crate::disk::Disk;
use crate::visit::{Pending, Walked, Walker};
use crate::walk_fault::WalkFault;
use minix_layout::Geometry;
use std::alloc::Global;

// The inode of the root.
const ROOT: u16 = 1;

/// Walks through a volume from its root.
pub fn walk_volume(alloc: Global, disk: &Disk, g: &Geometry) -> Result<Walked, WalkFault>
    requires { IsWidth g.now.width }
    ensures ok { IfOk result (λ found. walked g.now disk.now ≡ Ok found) }
    ensures fault { IfErr result (IsTold (walked g.now disk.now)) }
{
    let mut walker = Walker::at_start(alloc, g)?;
    let mut stack = Vec::new(alloc);
    let root = Pending {
        inode: ROOT,
        parent: 0,
    };
    walker.visit(alloc, disk, g, root, &mut stack)?;
    while let Some(next) = stack.pop() {
        if walker.has_met(next.inode) {
            continue;
        }
        walker.visit(alloc, disk, g, next, &mut stack)?;
    }
    Ok(walker.into_found())
}
