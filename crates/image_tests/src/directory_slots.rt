//! Tests of the slots of a directory.
#![tactic(auto, using(minix_layout::specs::Widths::of_14, minix_layout::specs::Widths::of_30))]

ghost use Rattle.minix_layout.specs.Widths.{IsWidth};

use crate::same::expect;
use blk_base::{Block, Image};
use minix_layout::{DEFAULT_WIDTH, Geometry, Inode, Name, Slot, Zones, write_slot};
use minix_tables::directories::{
    Slots, added_names_are_found, led_names_stay, names_are_found, removed_names_are_gone,
    room_is_the_least_free_place,
};
use std::alloc::Global;
use std::process::Abort;
use volume_model::slots_in;
use volume_ops::Disk;

// What is done with slots. A name is one byte here.
enum Step {
    Look,
    Add(u8, u16),
    Remove(u8),
    Lead(usize, u16),
    Reserve,
    Truncate(usize),
    // The inode in this slot.
    InodeAt(usize),
}

use Step::{Add, InodeAt, Lead, Look, Remove, Reserve, Truncate};

// The number of slots, where the next name goes, and where two names stand.
type Seen = (usize, usize, Option<usize>, Option<usize>);

// A step, the place or the inode that it is answered, and what is seen behind it.
type Row = (Step, Option<usize>, Seen);

fn name_of(rt: &impl Abort, byte: u8) -> Name {
    Name::of(&[byte]).expect(rt, "no name")
}

// Adds a slot under a name that is new, and tells its place.
fn add(slots: &mut Slots, inode: u16, name: Name) -> Option<usize> {
    if slots.find(&name).is_some() {
        return None;
    }
    slots.add(Slot { inode, name }).ok()
}

fn done(rt: &impl Abort, slots: &mut Slots, step: &Step) -> Option<usize> {
    match step {
        Look => None,
        Add(name, inode) => add(slots, *inode, name_of(rt, *name)),
        Remove(name) => {
            let name = name_of(rt, *name);
            match slots.remove(&name) {
                Some(slot) if slot.name == name => Some(slot.inode.into()),
                _ => None,
            }
        }
        Lead(at, inode) => {
            slots.lead(*at, *inode);
            None
        }
        Reserve => {
            let reserved: Result<_, _> = slots.reserve();
            reserved.expect(rt, "no slot");
            None
        }
        Truncate(len) => {
            slots.truncate(*len);
            None
        }
        InodeAt(at) => slots.get(*at).map(|slot| slot.inode.into()),
    }
}

fn seen(slots: &Slots, names: &[Name; 2]) -> Seen {
    let [first, second] = names;
    (
        slots.len(),
        slots.room(),
        slots.find(first),
        slots.find(second),
    )
}

// Does the steps, and looks for these names behind each. What the story is goes with both sides, to be told.
fn expect_steps(rt: &impl Abort, slots: &mut Slots, what: &str, names: &[u8; 2], rows: &[Row]) {
    let names = [name_of(rt, names[0]), name_of(rt, names[1])];
    for (at, (step, answer, wanted)) in rows.iter().enumerate() {
        let came = done(rt, slots, step);
        let found = (what, came, seen(slots, &names));
        expect(rt, &at, &found, &(what, *answer, *wanted));
    }
}

enum Start {
    Empty,
    // Three slots, of which the second leads to inode 3 under the name `a`.
    Three,
    // Seventy slots in use, under names of one byte, which lead to inodes of their numbers.
    Seventy,
}

fn started(rt: &impl Abort, alloc: Global, start: &Start) -> Slots {
    match start {
        Start::Empty => Slots::new(alloc),
        Start::Three => {
            let used = Slot {
                inode: 3,
                name: name_of(rt, b'a'),
            };
            Slots::of(vec![in alloc; None, Some(used), None].expect(rt, "no slots"))
        }
        Start::Seventy => {
            let mut slots = Slots::new(alloc);
            for byte in 1..=70 {
                let _ = add(&mut slots, byte.into(), name_of(rt, byte));
            }
            slots
        }
    }
}

// The names that are looked for behind each step, and the steps.
type Part = ([u8; 2], &'static [Row]);

// What the slots are at first, and what is done with them. A long directory gets an index of its names with the first that
// goes. Of three slots the second is in use; a free one and one behind the last are led nowhere.
static STORIES: [(&str, Start, &[Part]); 4] = [
    (
        "names come and go",
        Start::Three,
        &[(
            [b'a', b'b'],
            &[
                (Look, None, (3, 0, Some(1), None)),
                (Remove(b'b'), None, (3, 0, Some(1), None)),
                (Add(b'b', 4), Some(0), (3, 2, Some(1), Some(0))),
                (Remove(b'a'), Some(3), (3, 1, None, Some(0))),
                (InodeAt(0), Some(4), (3, 1, None, Some(0))),
                (InodeAt(1), None, (3, 1, None, Some(0))),
                (InodeAt(2), None, (3, 1, None, Some(0))),
                (InodeAt(3), None, (3, 1, None, Some(0))),
            ],
        )],
    ),
    (
        "names of a long directory come and go",
        Start::Seventy,
        &[
            // The names 3 and 70 go.
            (
                [3, 70],
                &[
                    (Look, None, (70, 70, Some(2), Some(69))),
                    (Remove(70), Some(70), (70, 69, Some(2), None)),
                    (Remove(70), None, (70, 69, Some(2), None)),
                    (Remove(3), Some(3), (70, 2, None, None)),
                ],
            ),
            // Then the name 71 comes, and the place of another leads elsewhere.
            (
                [3, 71],
                &[
                    (Lead(41, 9), None, (70, 2, None, None)),
                    (Add(71, 71), Some(2), (70, 69, None, Some(2))),
                    (InodeAt(2), Some(71), (70, 69, None, Some(2))),
                    (InodeAt(41), Some(9), (70, 69, None, Some(2))),
                ],
            ),
        ],
    ),
    (
        "a reserved slot is used or undone",
        Start::Empty,
        &[(
            [b'a', b'a'],
            &[
                (Reserve, None, (1, 0, None, None)),
                (Truncate(0), None, (0, 0, None, None)),
                (Reserve, None, (1, 0, None, None)),
                (Add(b'a', 5), Some(0), (1, 1, Some(0), Some(0))),
            ],
        )],
    ),
    (
        "a slot is led to another inode",
        Start::Three,
        &[(
            [b'a', b'a'],
            &[
                (Lead(0, 7), None, (3, 0, Some(1), Some(1))),
                (Lead(1, 7), None, (3, 0, Some(1), Some(1))),
                (Lead(2, 7), None, (3, 0, Some(1), Some(1))),
                (Lead(3, 7), None, (3, 0, Some(1), Some(1))),
                (InodeAt(0), None, (3, 0, Some(1), Some(1))),
                (InodeAt(1), Some(7), (3, 0, Some(1), Some(1))),
                (InodeAt(2), None, (3, 0, Some(1), Some(1))),
            ],
        )],
    ),
];

#[test]
fn slots_answer_steps(rt: HostRuntime) {
    for (what, start, parts) in &STORIES {
        let mut slots = started(&rt, rt.alloc(), start);
        for (names, rows) in *parts {
            expect_steps(&rt, &mut slots, what, names, rows);
        }
    }
    names_are_found();
    room_is_the_least_free_place();
    added_names_are_found();
    removed_names_are_gone();
    led_names_stay();
}

// A disk whose zone 3 has one slot in use, the second.
fn disk(rt: &impl Abort, alloc: Global, width: u16) -> Disk
    requires { IsWidth width }
{
    let slot = Slot {
        inode: 2,
        name: Name::of(b"ab").expect(rt, "no name"),
    };
    let mut body = Block::fill(0);
    if slot.name.as_slice().len() <= width as usize {
        write_slot(&mut body, 1, Some(&slot), width);
    }
    let mut blocks = Image::zeroed(alloc, 5).expect(rt, "no blocks");
    blocks.put(3, body);
    Disk::new(blocks)
}

// The inode of a directory of so many bytes in zone 3.
fn directory_inode(size: u32) -> Inode {
    Inode {
        mode: 0x41ED,
        uid: 0,
        size,
        time: 0,
        gid: 0,
        links: 2,
        zones: Zones::of([3, 0, 0, 0, 0, 0, 0, 0, 0]),
    }
}

fn slots_in_use(slots: &Slots) -> [bool; 3] {
    [
        slots.get(0).is_some(),
        slots.get(1).is_some(),
        slots.get(2).is_some(),
    ]
}

// Expects three slots of a directory of so many bytes, of which the second is in use.
fn expect_three(rt: &impl Abort, alloc: Global, width: u16, size: u32)
    requires { IsWidth width }
{
    let geometry = Geometry {
        inodes: 32,
        zones: 5,
        imap: 1,
        zmap: 1,
        first: 3,
        width,
    };
    let disk = disk(rt, alloc, width);
    let inode = directory_inode(size);
    let slots = slots_in(alloc, &disk, &geometry, &inode).expect(rt, "no slots");
    drop(disk);
    let used = slots_in_use(&slots);
    expect(rt, &width, &(slots.len(), used), &(3, [false, true, false]));
}

#[test]
fn slots_are_read_from_an_image(rt: HostRuntime) {
    expect_three(&rt, rt.alloc(), DEFAULT_WIDTH, 48);
    expect_three(&rt, rt.alloc(), 30, 96);
}
