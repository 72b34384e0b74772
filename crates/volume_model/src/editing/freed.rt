//! What a cut lets go. It is listed before the first write, since that takes memory.
ghost use Rattle.std.specs.Prelude.{◌≡◌, ◌++◌, IfOk, OnOk};
ghost use Rattle.volume_model.specs.Counts.{keeps_below, indices_of};
ghost use Rattle.volume_model.specs.Volume.{inner};
ghost use Rattle.volume_model.specs.editing.Zones.{blocks_cut, numbers_cut};
ghost use Rattle.volume_model.specs.editing.code.Cutting.{keeps_listed};
ghost use Rattle.volume_model.specs.editing.code.Freed.{gone_of};

use crate::editing::bodies::zone_entry;
use crate::editing::kept::{keeps_double, keeps_indirect, keeps_inner};
use blk_base::{Image, NoMemory};
use minix_layout::Inode;
use std::alloc::Global;
use volume_ops::Mapped;

/// What a cut lets go: blocks of the file with their zones, and zones of numbers.
#[derive(Drop)]
pub struct CutZones {
    pub blocks: Vec<Mapped>,
    pub numbers: Vec<u16>,
}

/// What a cut at block `from` lets go from a file whose mapped blocks these are, in the order in which it is told.
pub fn zones_cut(
    alloc: Global,
    blocks: &Image,
    inode: &Inode,
    zones: &[Mapped],
    from: u32,
) -> Result<CutZones, NoMemory>
    ensures blocks { IfOk result (λ c. c.blocks.items ≡ blocks_cut zones.now from) }
    ensures numbers { IfOk result (λ c. c.numbers.items ≡
        numbers_cut blocks.now inode.now (keeps_below (indices_of zones.now) from)) }
{
    Ok(CutZones {
        blocks: blocks_cut(alloc, zones, from)?,
        numbers: numbers_cut(alloc, blocks, inode, zones, from)?,
    })
}

fn blocks_cut(alloc: Global, zones: &[Mapped], from: u32) -> Result<Vec<Mapped>, NoMemory>
    ensures { IfOk result (λ c. c.items ≡ blocks_cut zones.now from) }
{
    let mut gone = Vec::new(alloc);
    for m in zones {
        if m.index >= from {
            gone.push(*m)?;
        }
    }
    Ok(gone)
}

fn numbers_cut(
    alloc: Global,
    blocks: &Image,
    inode: &Inode,
    zones: &[Mapped],
    from: u32,
) -> Result<Vec<u16>, NoMemory>
    ensures { IfOk result (λ c. c.items ≡ numbers_cut blocks.now inode.now (keeps_listed zones.now from)) }
{
    let mut gone = Vec::new(alloc);
    let (indirect, double) = (inode.zones.zone(7), inode.zones.zone(8));
    push_gone(&mut gone, indirect, keeps_indirect(zones, from))?;
    push_gone(&mut gone, double, keeps_double(zones, from))?;
    for group in 0..512 {
        let zone = zone_entry(blocks, double, group);
        push_inner(&mut gone, zone, zones, from, group.into())?;
    }
    Ok(gone)
}

// Notes a zone of numbers, where it is there and goes.
#[tactic(auto, unfolding(crate::specs::editing::code::Freed::gone_of))]
fn push_gone(gone: &mut Vec<u16>, zone: u16, keep: bool) -> Result<(), NoMemory>
    ensures { OnOk result (gone.new.items ≡ gone.old.items ++ gone_of zone keep) }
{
    if zone != 0 && !keep {
        gone.push(zone)?;
    }
    Ok(())
}

// The same of zone of numbers `group` of the doubly indirect one. The list is walked only where it is there.
#[tactic(auto, unfolding(crate::specs::editing::code::Freed::gone_of))]
fn push_inner(
    gone: &mut Vec<u16>,
    zone: u16,
    zones: &[Mapped],
    from: u32,
    group: u32,
) -> Result<(), NoMemory>
    ensures { OnOk result (gone.new.items ≡ gone.old.items ++ gone_of zone (keeps_listed zones.now from (inner group))) }
{
    if zone != 0 && !keeps_inner(zones, from, group) {
        gone.push(zone)?;
    }
    Ok(())
}
