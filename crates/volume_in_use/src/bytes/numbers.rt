//! Notes of the zones of numbers that are written where a block is mapped.
ghost use Rattle.std.specs.Prelude.{◌≡◌, ◌≤◌, ◌<◌, ◌+◌, ◌-◌, ◌/◌, nat_eq, if◌then◌else◌, [], ◌∷◌};
ghost use Rattle.volume_model.specs.MapBlock.{own_of};
ghost use Rattle.volume_model.specs.Touched.{and_then};
ghost use Rattle.volume_steps.specs.Now.{tells_blocks};
ghost use Rattle.volume_in_use.specs.bytes.code.Work.{numbers_told, single_told, outer_told, second_told};

use crate::now::Touched;
use blk_base::Image;
use minix_layout::Inode;
use volume_model::editing::{TakenZones, zone_entry};

// Notes the zones of numbers on the way to a block that is about to be mapped: those that come, and the one in which its
// own zone will stand.
pub fn note_numbers(
    blocks: &Image,
    inode: &Inode,
    taken: &TakenZones,
    index: u32,
    touched: &mut Touched,
)
    requires within { index < 262663 }
    requires room { 4 ≤ touched.old.spare }
    ensures told { touched.new.touched ≡ and_then touched.old.touched (tells_blocks (numbers_told
        (own_of (record { blocks = blocks.now; inode = inode.now }))
        (record { data_zone = taken.now.data_zone; outer = taken.now.outer; second = taken.now.second }) index)) }
    ensures spare { touched.old.spare ≤ touched.new.spare + 4 }
{
    if index < 7 {
        return;
    }
    if index < 519 {
        note_single(inode.zones.zone(7), taken.outer, touched);
        return;
    }
    let outer = inode.zones.zone(8);
    let second = zone_entry(blocks, outer, ((index - 519) / 512) as u16);
    note_outer(outer, taken.outer, touched);
    note_second(second, taken.second, held(outer, taken.outer), touched);
}

// The zone of a place, after its hole got one.
fn held(zone: u16, taken: u16) -> u16
    ensures { result ≡ (if nat_eq zone 0 then taken else zone) }
{
    if zone == 0 { taken } else { zone }
}

// Notes the indirect zone.
fn note_single(zone: u16, taken: u16, touched: &mut Touched)
    requires { 2 ≤ touched.old.spare }
    ensures told { touched.new.touched ≡ and_then touched.old.touched (tells_blocks (if nat_eq zone 0 then taken ∷ taken ∷ [] else zone ∷ [])) }
    ensures spare { touched.old.spare ≤ touched.new.spare + 2 }
{
    if zone == 0 {
        touched.note_block(taken.into());
        touched.note_block(taken.into());
    } else {
        touched.note_block(zone.into());
    }
}

// Notes the doubly indirect zone, where it comes.
fn note_outer(zone: u16, taken: u16, touched: &mut Touched)
    requires { 1 ≤ touched.old.spare }
    ensures told { touched.new.touched ≡ and_then touched.old.touched (tells_blocks (if nat_eq zone 0 then taken ∷ [] else [])) }
    ensures spare { touched.old.spare ≤ touched.new.spare + 1 }
{
    if zone == 0 {
        touched.note_block(taken.into());
    }
}

// Notes the zone of numbers below it, and where that comes, the doubly indirect one in which it will stand.
fn note_second(zone: u16, taken: u16, pointer_block: u16, touched: &mut Touched)
    requires { 3 ≤ touched.old.spare }
    ensures told { touched.new.touched ≡ and_then touched.old.touched (tells_blocks (if nat_eq zone 0 then taken ∷ pointer_block ∷ taken ∷ [] else zone ∷ [])) }
    ensures spare { touched.old.spare ≤ touched.new.spare + 3 }
{
    if zone == 0 {
        touched.note_block(taken.into());
        touched.note_block(pointer_block.into());
        touched.note_block(taken.into());
    } else {
        touched.note_block(zone.into());
    }
}
