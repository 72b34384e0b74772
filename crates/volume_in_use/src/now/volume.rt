//! The parts of a volume that is in use.
use blk_base::Image;
use minix_layout::Geometry;
use minix_tables::zones::ZoneMap;
use std::collections::BTreeMap;
use std::marker::Model;
use volume_model::Placed;

/// The parts of a volume that is in use: how it is divided, its blocks, its nodes by birth, and what each zone of data
/// is. That they fit together is said where it is needed.
#[derive(Drop)]
pub struct VolumeNow {
    pub geometry: Geometry,
    pub blocks: Image,
    pub nodes: BTreeMap<u64, Placed>,
    pub zones: ZoneMap,
}

impl Model for VolumeNow {
    ghost use Rattle.volume_steps.specs.Now as now;

    ghost Value = { now.VolumeNow };

    ghost view = { λ v. record { geometry = v.geometry; contents = record { blocks = v.blocks; nodes = v.nodes.entries }; zones = v.zones } };
}
