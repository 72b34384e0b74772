//! Blocks of an open file go. No call takes memory.
ghost use Rattle.std.specs.Prelude.{◌≡◌, ◌≤◌, ◌<◌, ◌+◌, ◌*◌, ◌++◌, length, map, Some};
ghost use Rattle.minix_layout.specs.Geometry.{IsSound};
ghost use Rattle.volume_model.specs.Touched.{and_then};
ghost use Rattle.volume_steps.specs.Now.{tells_blocks};
ghost use Rattle.volume_model.specs.editing.Zones.{written_list};
ghost use Rattle.minix_tables.specs.declared.zones.zone_state.ZoneState.TheVariants as states;
ghost use Rattle.minix_tables.specs.zones.Zones.{state_of};
ghost use Rattle.volume_in_use.specs.bytes.code.Cutting.{MayGive, free_zone, free_block, free_number, blocks_freed, numbers_freed, map_cut, cut_work, tail_work};

use crate::bytes::blocks::put_page;
use crate::bytes::bodies::cut_zone;
use crate::bytes::open::OpenFile;
use crate::now::{Page, Touched, VolumeNow, block_zone, copy_inode, mark_zone, write_inode};
use volume_model::editing::{CutZones, WrittenZones, cut_to};
use volume_ops::Mapped;

// A zone waits for transaction `tx`, and its bit is cleared.
#[tactic(auto, unfolding(crate::specs::bytes::code::Cutting::free_zone))]
fn free_zone(v: &mut VolumeNow, tx: u32, zone: u16, touched: &mut Touched)
    requires sound { IsSound v.old.geometry }
    requires used { state_of v.old.zones zone ≡ Some states.Used }
    requires room { 2 ≤ touched.old.spare }
    ensures change { record { volume = v.new; touched = touched.new.touched } ≡
        free_zone tx zone (record { volume = v.old; touched = touched.old.touched }) }
    ensures spare { touched.new.spare + 2 ≡ touched.old.spare }
{
    v.zones.give(zone, tx);
    mark_zone(&mut v.blocks, &v.geometry, false, zone, touched);
    touched.note_freed(zone);
}

// The zone of a block of the file goes.
fn free_block(v: &mut VolumeNow, tx: u32, birth: u64, gone: Mapped, touched: &mut Touched)
    requires sound { IsSound v.old.geometry }
    requires used { state_of v.old.zones gone.zone ≡ Some states.Used }
    requires room { 3 ≤ touched.old.spare }
    ensures change { record { volume = v.new; touched = touched.new.touched } ≡
        free_block tx birth gone (record { volume = v.old; touched = touched.old.touched }) }
    ensures spare { touched.new.spare + 3 ≡ touched.old.spare }
{
    free_zone(v, tx, gone.zone, touched);
    touched.note_dropped(Page {
        birth,
        index: gone.index,
        zone: gone.zone,
    });
}

// A zone of numbers goes.
fn free_number(v: &mut VolumeNow, tx: u32, zone: u16, touched: &mut Touched)
    requires sound { IsSound v.old.geometry }
    requires used { state_of v.old.zones zone ≡ Some states.Used }
    requires room { 3 ≤ touched.old.spare }
    ensures change { record { volume = v.new; touched = touched.new.touched } ≡
        free_number tx zone (record { volume = v.old; touched = touched.old.touched }) }
    ensures spare { touched.new.spare + 3 ≡ touched.old.spare }
{
    free_zone(v, tx, zone, touched);
    touched.note_revoked(zone);
}

/// The zones of these blocks of a file wait for transaction `tx`, one after the other, with their bits.
pub fn free_blocks(v: &mut VolumeNow, tx: u32, birth: u64, gone: &[Mapped], touched: &mut Touched)
    requires sound { IsSound v.old.geometry }
    requires used { MayGive tx v.old.zones (map (λ m. m.zone) gone.now) }
    requires room { 3 * length gone.now ≤ touched.old.spare }
    ensures change { record { volume = v.new; touched = touched.new.touched } ≡
        blocks_freed tx birth gone.now (record { volume = v.old; touched = touched.old.touched }) }
    ensures spare { touched.new.spare + 3 * length gone.now ≡ touched.old.spare }
{
    for m in gone {
        free_block(v, tx, birth, *m, touched);
    }
}

/// These zones, which are metadata, wait for transaction `tx`, one after the other, with their bits.
pub fn free_numbers(v: &mut VolumeNow, tx: u32, gone: &[u16], touched: &mut Touched)
    requires sound { IsSound v.old.geometry }
    requires used { MayGive tx v.old.zones gone.now }
    requires room { 3 * length gone.now ≤ touched.old.spare }
    ensures change { record { volume = v.new; touched = touched.new.touched } ≡
        numbers_freed tx gone.now (record { volume = v.old; touched = touched.old.touched }) }
    ensures spare { touched.new.spare + 3 * length gone.now ≡ touched.old.spare }
{
    for zone in gone {
        free_number(v, tx, *zone, touched);
    }
}

// Notes the zones of numbers in which a cut changes a number.
fn note_written(written: WrittenZones, touched: &mut Touched)
    requires { 2 ≤ touched.old.spare }
    ensures told { touched.new.touched ≡ and_then touched.old.touched (tells_blocks (written_list written)) }
    ensures spare { touched.old.spare ≤ touched.new.spare + 2 }
{
    if let Some(zone) = written.inner {
        touched.note_block(zone.into());
    }
    if let Some(zone) = written.outer {
        touched.note_block(zone.into());
    }
}

// Cuts the map of the file, once its zones went.
#[tactic(auto, unfolding(crate::specs::bytes::code::Cutting::map_cut))]
fn cut_map(
    v: &mut VolumeNow,
    file: &mut OpenFile,
    from: u32,
    written: WrittenZones,
    touched: &mut Touched,
)
    requires number { 0 < file.old.number }
    requires room { 4 ≤ touched.old.spare }
    ensures work { record { volume = v.new; file = file.new; touched = touched.new.touched } ≡
        map_cut from (written_list written) (record { volume = v.old; file = file.old; touched = touched.old.touched }) }
    ensures spare { touched.old.spare ≤ touched.new.spare + 4 }
{
    note_written(written, touched);
    let before = copy_inode(&file.inode);
    cut_to(
        &mut v.blocks,
        &v.geometry,
        &mut file.inode,
        file.zones.as_slice(),
        from,
    );
    let (number, after) = (file.number, &file.inode);
    write_inode(&mut v.blocks, &v.geometry, number, &before, after, touched);
    file.zones.cut(from);
    touched.note_node(file.birth);
}

// All blocks of the file from an index on go, which are these; `written` are the zones of numbers that stay and in which
// a number changes.
pub fn cut_blocks(
    v: &mut VolumeNow,
    file: &mut OpenFile,
    tx: u32,
    from: u32,
    gone: &CutZones,
    written: WrittenZones,
    touched: &mut Touched,
)
    requires sound { IsSound v.old.geometry }
    requires number { 0 < file.old.number }
    requires used { MayGive tx v.old.zones (map (λ m. m.zone) gone.now.blocks.items ++ gone.now.numbers.items) }
    requires room { 3 * (length gone.now.blocks.items + length gone.now.numbers.items) + 4 ≤ touched.old.spare }
    ensures work { record { volume = v.new; file = file.new; touched = touched.new.touched } ≡
        cut_work tx from gone.now.blocks.items gone.now.numbers.items (written_list written)
        (record { volume = v.old; file = file.old; touched = touched.old.touched }) }
    ensures spare { touched.old.spare ≤
        touched.new.spare + (3 * (length gone.now.blocks.items + length gone.now.numbers.items) + 4) }
{
    if gone.blocks.is_empty() {
        return;
    }
    free_blocks(v, tx, file.birth, &gone.blocks, touched);
    free_numbers(v, tx, &gone.numbers, touched);
    cut_map(v, file, from, written, touched);
}

// Where the size ends within a block that has a zone, the bytes behind it become zeros.
pub fn clear_tail(v: &mut VolumeNow, file: &OpenFile, size: u32, touched: &mut Touched)
    requires { 1 ≤ touched.old.spare }
    ensures work { record { volume = v.new; file = file.now; touched = touched.new.touched } ≡
        tail_work size (record { volume = v.old; file = file.now; touched = touched.old.touched }) }
    ensures spare { touched.old.spare ≤ touched.new.spare + 1 }
{
    let zone = block_zone(&v.blocks, &file.inode, size / 1024);
    if size % 1024 == 0 || zone == 0 {
        return;
    }
    let body = cut_zone(&v.blocks, zone, size);
    put_page(v, file, size / 1024, zone, &body, touched);
}
