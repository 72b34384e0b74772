//! Superblocks, inodes, slots and maps, with bytes worked out by hand.
#![tactic(auto, using(minix_layout::specs::Widths::of_14, minix_layout::specs::Widths::of_30))]

ghost use Rattle.std.specs.Prelude.{◌<◌, ◌≤◌, length};
ghost use Rattle.minix_layout.specs.Widths.{IsWidth};

use crate::same::expect;
use blk_base::Block;
use minix_layout::{
    DEFAULT_WIDTH, Geometry, Inode, LayoutFault, Name, Slot, TooSmall, Zones, bits_are_read,
    inodes_are_read, maps_are_read, read_bit, read_inode, read_slot, read_super, slots_are_read,
    super_is_read, write_bit, write_inode, write_slot, write_super,
};
use std::process::Abort;

// A block whose first bytes are these, and the others 0.
fn block(front: &[u8]) -> Block
    requires { length front.now ≤ 1024 }
{
    let mut b = Block::fill(0);
    for (at, byte) in front.iter().enumerate() {
        b.set(at, *byte);
    }
    b
}

// The superblock of 100 inodes and 1,000 zones.
const SUPER: [u8; 20] = [
    0x64, 0, 0xE8, 0x03, 1, 0, 1, 0, 8, 0, 0, 0, 0x00, 0x1C, 0x08, 0x10, 0x7F, 0x13, 1, 0,
];

// The superblock of 100 inodes and 1,000 zones, with names of up to this width, is this one.
fn expect_super(rt: &impl Abort, width: u16, body: &Block)
    requires { IsWidth width }
{
    let made = Geometry {
        inodes: 100,
        zones: 1000,
        imap: 1,
        zmap: 1,
        first: 8,
        width,
    };
    let found = (Geometry::make(100, 1000, width), read_super(body));
    expect(rt, &width, &found, &(Ok(made), Ok(made)));
    assert!(rt; write_super(&made) == *body, "{width}");
}

// Numbers of inodes and zones, and the first zone of data.
static SIZES: [(u16, u16, Result<u16, TooSmall>); 3] = [
    (100, 8, Err(TooSmall)),
    (100, 9, Ok(8)),
    (u16::MAX, u16::MAX, Ok(2066)),
];

#[test]
fn makes_and_writes_superblocks(rt: HostRuntime) {
    expect_super(&rt, DEFAULT_WIDTH, &block(&SUPER));
    // With long names the magic number is the one difference.
    let mut wide = block(&SUPER);
    wide.set(16, 0x8F);
    expect_super(&rt, 30, &wide);
    wide.set(0, 0);
    let no_inodes = read_super(&wide);
    drop(wide);
    expect(
        &rt,
        &"no inodes, long names",
        &no_inodes,
        &Err(LayoutFault::BadGeometry),
    );
    for (inodes, zones, first) in &SIZES {
        assert!(rt; *inodes != 0);
        let found = Geometry::make(*inodes, *zones, DEFAULT_WIDTH).map(|g| g.first);
        expect(&rt, zones, &found, first);
    }
    super_is_read();
    inodes_are_read();
    slots_are_read();
    bits_are_read();
    maps_are_read();
}

// Two bytes of the superblock, and the fault that they make.
static BAD_SUPERS: [(&str, usize, [u8; 2], LayoutFault); 8] = [
    ("version 2", 16, [0x68, 0x24], LayoutFault::BadMagic),
    ("zones of two blocks", 10, [1, 0], LayoutFault::BadGeometry),
    ("no inodes", 0, [0, 0], LayoutFault::BadGeometry),
    ("no zone of data", 2, [8, 0], LayoutFault::BadGeometry),
    (
        "a zone of data in the tables",
        8,
        [7, 0],
        LayoutFault::BadGeometry,
    ),
    (
        "too few bits for the inodes",
        4,
        [0, 0],
        LayoutFault::BadGeometry,
    ),
    (
        "too few bits for the zones",
        6,
        [0, 0],
        LayoutFault::BadGeometry,
    ),
    (
        "sums above 16 bits",
        4,
        [0xFF, 0xFF],
        LayoutFault::BadGeometry,
    ),
];

#[test]
fn refuses_superblocks(rt: HostRuntime) {
    for (what, at, bytes, fault) in &BAD_SUPERS {
        assert!(rt; *at < 1000);
        let mut b = block(&SUPER);
        b.set(*at, bytes[0]);
        b.set(*at + 1, bytes[1]);
        expect(&rt, what, &read_super(&b), &Err(*fault));
    }
}

#[test]
fn writes_the_maps(rt: HostRuntime) {
    let g = Geometry::make(8192, 16384, DEFAULT_WIDTH).expect(&rt, "no volume");
    let places = [
        g.inode_bit(1),
        g.inode_bit(8192),
        g.zone_bit(263),
        g.zone_bit(8454),
    ]
    .map(|place| (place.block, place.at));
    let mut b = Block::fill(0);
    write_bit(&mut b, 0, true);
    write_bit(&mut b, 1, true);
    write_bit(&mut b, 9, true);
    write_bit(&mut b, 8191, true);
    write_bit(&mut b, 1, false);
    let bytes = b.as_slice();
    let written = [bytes[0], bytes[1], bytes[2], bytes[1023]];
    let read = [read_bit(&b, 9), read_bit(&b, 10)];
    expect(
        &rt,
        &"maps",
        &(places, written, read),
        &(
            [(2, 1), (3, 0), (4, 1), (5, 0)],
            [1, 2, 0, 0x80],
            [true, false],
        ),
    );
}

const INODE: [u8; 32] = [
    0xA4, 0x81, 0x02, 0x01, 0x45, 0x23, 0x01, 0x80, 0xFF, 0x10, 0x5E, 0x5F, 7, 2, 0x10, 0, 0x11, 0,
    0x12, 0, 0, 0, 0x14, 0, 0x15, 0, 0x16, 0, 0x34, 0x12, 0xFF, 0xFF,
];

// The inode of these bytes.
fn inode() -> Inode {
    Inode {
        mode: 0x81A4,
        uid: 0x0102,
        size: 0x8001_2345,
        time: 0x5F5E_10FF,
        gid: 7,
        links: 2,
        zones: Zones::of([0x10, 0x11, 0x12, 0, 0x14, 0x15, 0x16, 0x1234, 0xFFFF]),
    }
}

#[test]
fn reads_and_writes_an_inode(rt: HostRuntime) {
    let mut b = Block::fill(0xAA);
    write_inode(&mut b, 31, &inode());
    let (before, written) = b.as_slice().split_at(992);
    let others = before.iter().all(|byte| *byte == 0xAA);
    expect(&rt, &"write", &(others, written), &(true, INODE.as_slice()));
    let found = [read_inode(&b, 31), read_inode(&block(&INODE), 0)];
    let last = read_inode(&b, 30).zones.zone(8);
    expect(&rt, &"read", &(found, last), &([inode(), inode()], 0xAAAA));
}

// Two slots in use, a free one, an empty name, and a name with a `/`.
const SLOTS: [u8; 80] = [
    5, 0, b'a', b'b', 0, b'/', 0xFF, 0, 0, 0, 0, 0, 0, 0, 0, 0, //
    0x34, 0x12, 0x80, 0xFF, b'c', b'd', b'e', b'f', b'g', b'h', b'i', b'j', b'k', b'l', b'm', b'n', //
    0, 0, b'/', 0, b'x', 0, 0, 0, 0, 0, 0, 0, 0, 0, 0, 0, //
    1, 0, 0, b'a', 0, 0, 0, 0, 0, 0, 0, 0, 0, 0, 0, 0, //
    1, 0, b'a', b'/', 0, 0, 0, 0, 0, 0, 0, 0, 0, 0, 0, 0, //
];

// What stands in each: an inode and a name, or none, or a fault.
static READ: [(u8, Result<Option<(u16, &[u8])>, LayoutFault>); 5] = [
    (0, Ok(Some((5, b"ab")))),
    (1, Ok(Some((0x1234, b"\x80\xFFcdefghijklmn")))),
    (2, Ok(None)),
    (3, Err(LayoutFault::BadSlot)),
    (4, Err(LayoutFault::BadSlot)),
];

#[test]
fn reads_slots(rt: HostRuntime) {
    let b = block(&SLOTS);
    for (at, wanted) in &READ {
        assert!(rt; *at < 5);
        let read = read_slot(&b, *at, DEFAULT_WIDTH);
        let found = match &read {
            Ok(Some(slot)) => Ok(Some((slot.inode, slot.name.as_slice()))),
            Ok(None) => Ok(None),
            Err(fault) => Err(*fault),
        };
        expect(&rt, at, &found, wanted);
    }
}

#[test]
fn writes_slots(rt: HostRuntime) {
    let mut b = block(&SLOTS);
    if let (Ok(first), Ok(second)) = (
        read_slot(&b, 0, DEFAULT_WIDTH),
        read_slot(&b, 1, DEFAULT_WIDTH),
    ) {
        write_slot(&mut b, 5, first.as_ref(), DEFAULT_WIDTH);
        write_slot(&mut b, 6, second.as_ref(), DEFAULT_WIDTH);
    }
    write_slot(&mut b, 1, None, DEFAULT_WIDTH);
    let bytes = b.as_slice();
    expect(
        &rt,
        &"slots",
        &(&bytes[80..86], &bytes[96..112], &bytes[16..32]),
        &(&[5, 0, b'a', b'b', 0, 0][..], &SLOTS[16..32], &[0; 16][..]),
    );
}

// Slots of 32 bytes with names of 1, 14, 15 and 30 bytes. The longest has no byte of 0 behind it.
static WIDE_SLOTS: [(u16, &[u8], [u8; 32]); 4] = [
    (
        5,
        b"a",
        [
            5, 0, b'a', 0, 0, 0, 0, 0, 0, 0, 0, 0, 0, 0, 0, 0, //
            0, 0, 0, 0, 0, 0, 0, 0, 0, 0, 0, 0, 0, 0, 0, 0,
        ],
    ),
    (
        0x1234,
        b"fourteen bytes",
        [
            0x34, 0x12, b'f', b'o', b'u', b'r', b't', b'e', b'e', b'n', b' ', b'b', b'y', b't',
            b'e', b's', //
            0, 0, 0, 0, 0, 0, 0, 0, 0, 0, 0, 0, 0, 0, 0, 0,
        ],
    ),
    (
        0xFFFF,
        b"fifteen bytes .",
        [
            0xFF, 0xFF, b'f', b'i', b'f', b't', b'e', b'e', b'n', b' ', b'b', b'y', b't', b'e',
            b's', b' ', //
            b'.', 0, 0, 0, 0, 0, 0, 0, 0, 0, 0, 0, 0, 0, 0, 0,
        ],
    ),
    (
        256,
        b"\x01bcdefghijklmnopqrstuvwxyzABC\xFF",
        [
            0, 1, 1, b'b', b'c', b'd', b'e', b'f', b'g', b'h', b'i', b'j', b'k', b'l', b'm', b'n', //
            b'o', b'p', b'q', b'r', b's', b't', b'u', b'v', b'w', b'x', b'y', b'z', b'A', b'B',
            b'C', 0xFF,
        ],
    ),
];

fn is_slot(read: &Result<Option<Slot>, LayoutFault>, inode: u16, name: &[u8]) -> bool {
    match read {
        Ok(Some(slot)) => slot.inode == inode && slot.name.as_slice() == name,
        _ => false,
    }
}

// These bytes stand at this place of a block that was filled with another.
fn expect_written(rt: &impl Abort, b: &Block, at: u8, written: &[u8; 32])
    requires { at < 32 }
{
    let (before, rest) = b.as_slice().split_at(32 * usize::from(at));
    let (found, behind) = rest.split_at(32);
    let others = before.iter().chain(behind).all(|byte| *byte == 0xAA);
    expect(rt, &at, &(others, found), &(true, written.as_slice()));
}

// A slot is written as these bytes at its place, and nowhere else, and is read from there.
fn expect_slot(rt: &impl Abort, at: u8, inode: u16, bytes: &[u8], written: &[u8; 32]) {
    assert!(rt; at < 32);
    let name = Name::of(bytes).expect(rt, "no name");
    let mut b = Block::fill(0xAA);
    write_slot(&mut b, at, Some(&Slot { inode, name }), 30);
    expect_written(rt, &b, at, written);
    assert!(rt; is_slot(&read_slot(&b, at, 30), inode, bytes), "{at}");
}

#[test]
fn reads_and_writes_slots_of_long_names(rt: HostRuntime) {
    for (inode, bytes, written) in &WIDE_SLOTS {
        expect_slot(&rt, 0, *inode, bytes, written);
        expect_slot(&rt, 31, *inode, bytes, written);
    }
}

// Places of slots of long names, and whether one is in use there, or what is wrong.
static USES: [(u8, Result<bool, LayoutFault>); 4] = [
    (1, Ok(false)),
    (30, Ok(false)),
    (2, Err(LayoutFault::BadSlot)),
    (31, Err(LayoutFault::BadSlot)),
];

fn expect_uses(rt: &impl Abort, b: &Block) {
    for (at, used) in &USES {
        assert!(rt; *at < 32);
        let found = read_slot(b, *at, 30).map(|slot| slot.is_some());
        expect(rt, at, &found, used);
    }
}

// Free slots at places 1 and 30 with a name in them, an empty name at 2, and a name with a `/` as its last byte at 31.
#[test]
fn tells_slots_of_long_names_that_are_free_or_bad(rt: HostRuntime) {
    let mut b = Block::fill(b'x');
    b.set(32, 0);
    b.set(33, 0);
    b.set(960, 0);
    b.set(961, 0);
    b.set(66, 0);
    b.set(1023, b'/');
    expect_uses(&rt, &b);
    assert!(rt; is_slot(&read_slot(&b, 0, 30), 0x7878, &[b'x'; 30]));
    write_slot(&mut b, 3, None, 30);
    let bytes = b.as_slice();
    expect(
        &rt,
        &"slot 3",
        &(bytes[95], &bytes[96..128], bytes[128]),
        &(b'x', &[0; 32][..], b'x'),
    );
}

static NAMES: [(&str, bool); 7] = [
    ("", false),
    ("a", true),
    ("a\0b", false),
    ("fourteen bytes", true),
    ("fifteen bytes .", true),
    ("a name of thirty bytes is this", true),
    ("a name of thirty-one bytes is .", false),
];

#[test]
fn takes_names(rt: HostRuntime) {
    for (name, taken) in &NAMES {
        expect(&rt, name, &Name::of(name.as_bytes()).is_some(), taken);
    }
}
