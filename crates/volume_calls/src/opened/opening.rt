//! The call that opens a volume.
ghost use Rattle.std.specs.Prelude.{◌≡◌, IfOk, IsOk, Ok, count_by, length};
ghost use Rattle.minix_layout.specs.Geometry.{IsSound};
ghost use Rattle.tree_model.specs.Calls.{Tree};
ghost use Rattle.minix_tables.specs.zones.Zones.{is_quarantined};
ghost use Rattle.volume_ops.specs.Volume.{tree_of, walked};
ghost use Rattle.volume_model.specs.ImageNodes.{contents_in};
ghost use Rattle.volume_model.specs.Plain.{IsPlainVolume};
ghost use Rattle.volume_steps.specs.Now.{tree_of_now};
ghost use Rattle.volume_calls.specs.opened.Opened.{CanOpen};
ghost use Rattle.volume_calls.specs.opened.code.Read.{IsRead};

use crate::PlainVolume;
use crate::opened::fields::blocks_are_whole;
use crate::opened::nodes::placed_nodes;
use crate::opened::used::used_zones;
use blk_base::NoMemory;
use minix_layout::Geometry;
use minix_tables::zones::ZoneMap;
use std::alloc::Global;
use volume_in_use::now::VolumeNow;
use volume_model::{plain_images_can_change, plain_volumes_are_read_back};
use volume_ops::{Disk, Volume, WalkedVolume, volumes_have_one_tree, walks_end_well_without_fault};

// What the laws say of a plain volume that was read.
fn plain_when_read(disk: &Disk, g: &Geometry)
    requires sound { IsSound g.now }
    requires size { length disk.now ≡ g.now.zones }
    requires readable { IsOk (walked g.now disk.now) }
    ensures { (tree : Tree) → IsPlainVolume g.now disk.now tree → IsRead g.now disk.now tree }
{
    blocks_are_whole(disk, g.zones);
    plain_images_can_change();
    plain_volumes_are_read_back();
    volumes_have_one_tree();
    walks_end_well_without_fault();
}

/// A volume that was read, in use: it stands for the tree that was read, each node has the number of its inode as its
/// birth, the root's being 0, and no zone waits for a transaction.
pub fn open_volume(alloc: Global, volume: Volume) -> Result<PlainVolume, NoMemory>
    requires { CanOpen volume }
    ensures geometry { IfOk result (λ v. v.geometry ≡ volume.geometry) }
    ensures blocks { IfOk result (λ v. v.contents.blocks ≡ volume.blocks) }
    ensures tree { IfOk result (λ v. tree_of volume.geometry volume.blocks ≡ Ok (tree_of_now v)) }
    ensures nodes { IfOk result (λ v. v.contents ≡ contents_in volume.geometry volume.blocks (tree_of_now v)) }
    ensures none_waits { IfOk result (λ v. count_by is_quarantined v.zones.states ≡ 0) }
{
    let used = used_zones(alloc, &volume)?;
    let WalkedVolume {
        geometry,
        blocks,
        nodes,
    } = volume.into_parts();
    let zones = ZoneMap::make(alloc, &geometry, &used)?;
    let disk = Disk::new(blocks);
    plain_when_read(&disk, &geometry);
    let nodes = placed_nodes(alloc, &geometry, &disk, nodes)?;
    let parts = VolumeNow {
        geometry,
        blocks: disk.into_blocks(),
        nodes,
        zones,
    };
    let opened = PlainVolume::of(alloc, parts)?;
    Ok(opened)
}
