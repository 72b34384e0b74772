//! A new volume.
ghost use Rattle.std.specs.Prelude.{◌≡◌, codes, IfOk};
ghost use Rattle.minix_layout.specs.Widths.{IsWidth};
ghost use Rattle.volume_model.specs.NewVolume.{new_blocks, root_placed};
ghost use Rattle.volume_steps.specs.NewNow.{new_now};

use crate::now::VolumeNow;
use blk_base::{Image, NoMemory};
use minix_layout::{Geometry, Inode, Name, Slot};
use minix_tables::directories::Slots;
use minix_tables::zones::ZoneMap;
use std::alloc::Global;
use std::collections::BTreeMap;
use volume_model::editing::{put_inode, put_slot};
use volume_model::{DirectoryPart, Names, Part, Placed};

/// A volume whose root is all that it has, in the first zone of data.
pub fn new_volume(alloc: Global, geometry: Geometry) -> Result<VolumeNow, NoMemory>
    requires { IsWidth geometry.width }
    ensures { IfOk result (λ v. v ≡ new_now geometry) }
{
    let blocks = new_blocks(alloc, &geometry)?;
    let mut nodes = BTreeMap::new(alloc);
    nodes.insert(0, root(alloc, &geometry)?)?;
    let zones = ZoneMap::make(alloc, &geometry, &[geometry.first])?;
    Ok(VolumeNow {
        geometry,
        blocks,
        nodes,
        zones,
    })
}

/// The slot of a directory for itself.
pub fn dot(own: u16) -> Slot
    ensures { result ≡ record { inode = own; name = codes "." } }
{
    Slot {
        inode: own,
        name: Name::of(b".").unwrap(),
    }
}

/// The slot of a directory for the one above it.
pub fn dots(above: u16) -> Slot
    ensures { result ≡ record { inode = above; name = codes ".." } }
{
    Slot {
        inode: above,
        name: Name::of(b"..").unwrap(),
    }
}

fn new_blocks(alloc: Global, g: &Geometry) -> Result<Image, NoMemory>
    requires { IsWidth g.now.width }
    ensures { IfOk result (λ i. i ≡ new_blocks g.now) }
{
    let mut blocks = Image::zeroed(alloc, g.zones.into())?;
    put_inode(&mut blocks, g, 1, &Inode::new_directory(g.width, g.first));
    put_slot(&mut blocks, g, g.first, 0, Some(&dot(1)));
    put_slot(&mut blocks, g, g.first, 1, Some(&dots(1)));
    Ok(blocks)
}

fn root(alloc: Global, g: &Geometry) -> Result<Placed, NoMemory>
    ensures { IfOk result (λ p. p ≡ root_placed g.now) }
{
    let slots = Vec::from_array(alloc, [Some(dot(1)), Some(dots(1))])?;
    Ok(Placed {
        number: 1,
        inode: Inode::new_directory(g.width, g.first),
        part: Part::Directory(DirectoryPart {
            parent: 0,
            width: g.width,
            names: Names::new(alloc),
            slots: Slots::of(slots),
        }),
    })
}
