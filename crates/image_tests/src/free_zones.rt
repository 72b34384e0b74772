//! Tests of the map of zones.
use crate::same::expect;
use minix_layout::{DEFAULT_WIDTH, Geometry};
use minix_tables::zones::{ZoneMap, lowest_is_found, zones_are_counted, zones_last};
use std::process::Abort;

// The zones of data are 5 to 9.
static SMALL: Geometry = Geometry {
    inodes: 32,
    zones: 10,
    imap: 1,
    zmap: 1,
    first: 5,
    width: DEFAULT_WIDTH,
};

// The zones that are free, and those in quarantine.
fn counts(map: &ZoneMap) -> [u32; 2] {
    [map.free_count(), map.quarantined()]
}

// What is done with a map.
enum Step {
    Take,
    Held(u32),
    Release(u32),
}

use Step::{Held, Release, Take};

// A step, the zone or the number that it is answered, and the counts behind it.
type Row = (Step, Option<u32>, [u32; 2]);

// The zones 8 and 9 are free, and zone 5 waits for transaction 4 and zone 7 for 9.
static ROWS: [Row; 10] = [
    (Held(3), Some(0), [2, 2]),
    (Held(4), Some(1), [2, 2]),
    (Held(9), Some(2), [2, 2]),
    (Take, Some(8), [1, 2]),
    (Take, Some(9), [0, 2]),
    (Take, None, [0, 2]),
    (Release(8), None, [0, 2]),
    (Take, None, [0, 2]),
    (Release(9), None, [1, 1]),
    (Take, Some(7), [0, 1]),
];

fn expect_rows(rt: &impl Abort, map: &mut ZoneMap) {
    for (at, (step, answer, wanted)) in ROWS.iter().enumerate() {
        let came = match step {
            Take => map.take().ok().map(u32::from),
            Held(transaction) => Some(map.held_to(*transaction)),
            Release(transaction) => {
                map.release(*transaction);
                None
            }
        };
        expect(rt, &at, &(came, counts(map)), &(*answer, *wanted));
    }
}

#[test]
fn takes_gives_and_releases(rt: HostRuntime) {
    let mut map = ZoneMap::make(rt.alloc(), &SMALL, &[5, 7, 7, 3, 10]).expect(&rt, "no map");
    let made = counts(&map);
    let first = map.take();
    map.give(5, 4);
    map.give(7, 9);
    expect(&rt, &"first", &(made, first), &([3, 0], Ok(6)));
    expect_rows(&rt, &mut map);
    lowest_is_found();
    zones_last();
    zones_are_counted();
}
