//! The volume in use of an image that was made.
ghost use Rattle.std.specs.Prelude.{◌≡◌, ◌<◌, IfOk};
ghost use Rattle.minix_layout.specs.Geometry.{IsSound};
ghost use Rattle.mount_make.specs.Made.{made_image};
ghost use Rattle.call_sessions.specs.made.MadeSessions.{made_now};

use blk_base::{Image, NoMemory};
use call_sessions::made::sessions_on_made_images_keep_rules_and_trees;
use host_core::PlainVolume;
use minix_layout::Geometry;
use std::alloc::Global;
use volume_in_use::now::new_volume;

/// The volume of an image that was made, in use.
pub fn made_volume(
    alloc: Global,
    g: &Geometry,
    journal: u32,
    wide: bool,
    image: &Image,
) -> Result<PlainVolume, NoMemory>
    requires sound { IsSound g.now }
    requires journal { 0 < journal }
    requires image { image.now ≡ made_image g.now journal wide }
    ensures { IfOk result (λ v. v ≡ made_now g.now) }
{
    sessions_on_made_images_keep_rules_and_trees();
    let mut parts = new_volume(alloc, *g)?;
    parts.blocks = image.front(alloc, g.zones.into())?;
    let volume = PlainVolume::of(alloc, parts)?;
    Ok(volume)
}
