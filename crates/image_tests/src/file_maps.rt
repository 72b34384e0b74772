//! Tests of the map of a file and of blocks of zone numbers.
ghost use Rattle.std.specs.Prelude.{◌≡◌, [], length, get_or};

use crate::same::expect;
use byte_fields::u16_at_le;
use minix_layout::{Inode, Zones};
use minix_tables::inodes::{ZoneBlocks, encode_zone_block, map_is_by_levels, zone_of};
use std::alloc::Global;
use std::process::Abort;

// The first zones of a volume, each a row of 512 numbers. All numbers of the others are 0.
#[derive(Drop)]
struct Rows {
    rows: Vec<[u16; 512]>,
}

impl Rows {
    // Writes a number, where the row is there.
    fn write(&mut self, zone: usize, at: usize, value: u16) {
        if zone < self.rows.len() && at < 512 {
            let row = &mut self.rows[zone];
            row[at] = value;
        }
    }
}

impl ZoneBlocks for Rows {
    ghost entries = { λ s zone at. get_or (get_or s.rows.items zone []) at 0 };

    fn entry(&self, zone: u16, at: u16) -> u16 {
        match self.rows.get(zone as usize) {
            Some(row) => row[at as usize],
            None => 0,
        }
    }
}

// A file with these nine zones.
fn file(zones: [u16; 9]) -> Inode {
    Inode {
        mode: 0o100_644,
        uid: 0,
        size: 0,
        time: 0,
        gid: 0,
        links: 1,
        zones: Zones::of(zones),
    }
}

// Two numbers in zone 20, which is indirect, and four behind zone 30, which is doubly indirect. Zone 0
// has numbers too: it is no zone of a file.
static WRITTEN: [(usize, usize, u16); 10] = [
    (20, 0, 100),
    (20, 511, 101),
    (30, 0, 40),
    (30, 511, 41),
    (40, 0, 200),
    (40, 511, 201),
    (41, 0, 202),
    (41, 511, 203),
    (0, 0, 999),
    (0, 511, 999),
];

fn written(rt: &impl Abort, alloc: Global) -> Rows {
    let mut blocks = Rows {
        rows: vec![in alloc; [0; 512]; 64].expect(rt, "no rows"),
    };
    for (zone, at, value) in &WRITTEN {
        blocks.write(*zone, *at, *value);
    }
    blocks
}

// A block, its zone, and its zone where there are no zones of numbers.
static MAPPED: [(u32, u16, u16); 13] = [
    (0, 10, 10),
    (1, 0, 0),
    (6, 16, 16),
    (7, 100, 0),
    (8, 0, 0),
    (518, 101, 0),
    (519, 200, 0),
    (1030, 201, 0),
    (1031, 0, 0),
    (262_151, 202, 0),
    (262_662, 203, 0),
    (262_663, 0, 0),
    (u32::MAX, 0, 0),
];

#[test]
fn finds_zones_and_holes(rt: HostRuntime) {
    let blocks = written(&rt, rt.alloc());
    let full = file([10, 0, 12, 13, 14, 15, 16, 20, 30]);
    let bare = file([10, 0, 12, 13, 14, 15, 16, 0, 0]);
    for (index, zone, direct) in &MAPPED {
        let found = [
            zone_of(&full, &blocks, *index),
            zone_of(&bare, &blocks, *index),
        ];
        expect(&rt, index, &found, &[*zone, *direct]);
    }
    map_is_by_levels();
}

#[test]
fn numbers_stand_lowest_byte_first(rt: HostRuntime) {
    let mut entries = [0; 512];
    entries[1] = 0x0201;
    entries[511] = 0xffff;
    let block = encode_zone_block(&entries);
    let bytes = block.as_slice();
    let front = [bytes[0], bytes[1], bytes[2], bytes[3], bytes[4]];
    let back = [bytes[1021], bytes[1022], bytes[1023]];
    expect(
        &rt,
        &"numbers",
        &(u16_at_le(bytes, 2), front, back),
        &(0x0201, [0, 0, 1, 2, 0], [0, 255, 255]),
    );
}
