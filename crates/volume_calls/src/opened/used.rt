//! The zones that a volume uses.
ghost use Rattle.std.specs.Prelude.{◌<◌, ◌↔◌, ℕ, IfOk};
ghost use Rattle.blk_base.specs.Members.{In};
ghost use Rattle.volume_ops.specs.Faultless.{IsUsed};

use blk_base::NoMemory;
use std::alloc::Global;
use volume_ops::Volume;

/// The zones of the volume that its tree has.
pub fn used_zones(alloc: Global, volume: &Volume) -> Result<Vec<u16>, NoMemory>
    ensures { IfOk result (λ used. (zone : ℕ) → zone < volume.now.geometry.zones → In zone used.items ↔ IsUsed volume.now.geometry volume.now.blocks zone) }
{
    let mut used = Vec::new(alloc);
    for zone in 0..volume.geometry().zones {
        if volume.uses_zone(zone) {
            used.push(zone)?;
        }
    }
    Ok(used)
}
