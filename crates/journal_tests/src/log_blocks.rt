//! Blocks of a journal, byte by byte, as the format's tables have them.
use crate::made_images::is_block;
use blk_base::Block;
use journal_blocks::{
    JournalSuper, LogBlock, NumberList, Tag, TagList, bodies_are_restored, escape,
    faults_count_in_whole_transactions, log_blocks_are_read, logs_hold_whole_transactions,
    read_block, read_super, readers_agree, restore, sequence_in, set_tail, superblocks_are_read,
    write_commit, write_descriptor, write_revoke, write_super,
};
use std::alloc::Global;
use std::process::Abort;

// A block that begins with these bytes, and has zeros behind them.
pub(crate) fn block_of(front: &[u8]) -> Block {
    let mut block = Block::fill(0);
    for (at, byte) in front.iter().enumerate() {
        if at < 1024 {
            block.set(at, *byte);
        }
    }
    block
}

fn tags_of(rt: &impl Abort, alloc: Global, block: &Block, wide: bool) -> TagList {
    match read_block(alloc, block, wide) {
        Ok(LogBlock::Descriptor(_, tags)) => tags.copy(alloc).expect(rt, "no copy"),
        _ => panic!(rt; "no descriptor"),
    }
}

fn revoked_of(rt: &impl Abort, alloc: Global, block: &Block, wide: bool) -> NumberList {
    match read_block(alloc, block, wide) {
        Ok(LogBlock::Revoke(2, blocks)) => blocks.copy(alloc).expect(rt, "no copy"),
        _ => panic!(rt; "no revoke block of sequence 2"),
    }
}

static SUPERBLOCK: [u8; 68] = [
    0xC0, 0x3B, 0x39, 0x98, 0, 0, 0, 4, 0, 0, 0, 0, 0, 0, 4, 0, // header, size of a block
    0, 0, 0, 128, 0, 0, 0, 1, 0, 0, 1, 2, 0, 0, 0, 3, // blocks, first, sequence, start
    0, 0, 0, 0, 0, 0, 0, 0, 0, 0, 0, 1, 0, 0, 0, 0, // errors, compatible and known features, read-only ones
    0, 0, 0, 0, 0, 0, 0, 0, 0, 0, 0, 0, 0, 0, 0, 0, // uuid
    0, 0, 0, 1, // users
];

// The name of a block, the bytes that it begins with, whether the journal has wide tags, and what is read.
static BLOCKS: [(&str, &[u8], bool, &str); 11] = [
    // One body for block 9 that begins with the magic number.
    (
        "descriptor",
        &[
            0xC0, 0x3B, 0x39, 0x98, 0, 0, 0, 1, 0, 0, 0, 7, 0, 0, 0, 9, 0, 0, 0, 9,
        ],
        false,
        "Ok(Descriptor(7, TagList { tags: [Tag { block: 9, escaped: true }] }))",
    ),
    // As other systems write it: checksums, a uuid in each tag, and the flag of deleted ones.
    (
        "descriptor of others",
        &[
            0xC0, 0x3B, 0x39, 0x98, 0, 0, 0, 1, 0, 0, 0, 7, // header
            0, 0, 0, 9, 0xAB, 0xCD, 0, 4, 1, 2, 3, 4, 5, 6, 7, 8, 9, 10, 11, 12, 13, 14, 15, 16, // uuid, deleted
            0, 0, 1, 0, 0xAB, 0xCD, 0, 3, // escaped, the same uuid
            0, 0, 0, 11, 0xAB, 0xCD, 0, 8, 1, 2, 3, 4, 5, 6, 7, 8, 9, 10, 11, 12, 13, 14, 15, 16, // uuid, last
            0, 0, 0, 12, 0, 0, 0, 0,
        ],
        false,
        "Ok(Descriptor(7, TagList { tags: [Tag { block: 9, escaped: false }, Tag { block: 256, escaped: true }, Tag { block: 11, escaped: false }] }))",
    ),
    // Wide tags for blocks 9 and 10, of sequence 7.
    (
        "wide tags",
        &[
            0xC0, 0x3B, 0x39, 0x98, 0, 0, 0, 1, 0, 0, 0, 7, // header
            0, 0, 0, 9, 0, 0, 0, 0, 0, 0, 0, 0, // block, checksum, flags, high half
            0, 0, 0, 0, 0, 0, 0, 0, 0, 0, 0, 0, 0, 0, 0, 0, // uuid
            0, 0, 0, 10, 0, 0, 0, 10, 0, 0, 0, 0, // the same uuid, last
        ],
        true,
        "Ok(Descriptor(7, TagList { tags: [Tag { block: 9, escaped: false }, Tag { block: 10, escaped: false }] }))",
    ),
    // The same for blocks 2^32 + 9 and 2^32 + 10. The first high half stands before its uuid.
    (
        "high halves",
        &[
            0xC0, 0x3B, 0x39, 0x98, 0, 0, 0, 1, 0, 0, 0, 7, // header
            0, 0, 0, 9, 0, 0, 0, 0, 0, 0, 0, 1, // block, checksum, flags, high half
            0, 0, 0, 0, 0, 0, 0, 0, 0, 0, 0, 0, 0, 0, 0, 0, // uuid
            0, 0, 0, 10, 0, 0, 0, 10, 0, 0, 0, 1, // the same uuid, last
        ],
        true,
        "Ok(Descriptor(7, TagList { tags: [Tag { block: 4294967305, escaped: false }, Tag { block: 4294967306, escaped: false }] }))",
    ),
    (
        "commit",
        &[0xC0, 0x3B, 0x39, 0x98, 0, 0, 0, 2, 0, 0, 0, 7],
        false,
        "Ok(Commit(7))",
    ),
    ("zeros", &[], false, "Err(NotMagic)"),
    (
        "superblock",
        &[
            0xC0, 0x3B, 0x39, 0x98, 0, 0, 0, 4, 0, 0, 0, 0, 0, 0, 4, 0, // header, size of a block
            0, 0, 0, 128, 0, 0, 0, 1, 0, 0, 1, 2, 0, 0, 0, 3, // blocks, first, sequence, start
            0, 0, 0, 0, 0, 0, 0, 0, 0, 0, 0, 1, 0, 0, 0, 0, // errors, compatible and known features, read-only ones
            0, 0, 0, 0, 0, 0, 0, 0, 0, 0, 0, 0, 0, 0, 0, 0, // uuid
            0, 0, 0, 1, // users
        ],
        false,
        "Err(BadKind)",
    ),
    // Counts of a revoke block that are less than its 16 bytes of header, not of whole numbers, or past its end.
    (
        "0 bytes",
        &[
            0xC0, 0x3B, 0x39, 0x98, 0, 0, 0, 5, 0, 0, 0, 2, 0, 0, 0, 0, 0, 0, 0, 6,
        ],
        false,
        "Err(BadCount)",
    ),
    (
        "15 bytes",
        &[
            0xC0, 0x3B, 0x39, 0x98, 0, 0, 0, 5, 0, 0, 0, 2, 0, 0, 0, 15, 0, 0, 0, 6,
        ],
        false,
        "Err(BadCount)",
    ),
    (
        "18 bytes",
        &[
            0xC0, 0x3B, 0x39, 0x98, 0, 0, 0, 5, 0, 0, 0, 2, 0, 0, 0, 18, 0, 0, 0, 6,
        ],
        false,
        "Err(BadCount)",
    ),
    (
        "1044 bytes",
        &[
            0xC0, 0x3B, 0x39, 0x98, 0, 0, 0, 5, 0, 0, 0, 2, 0, 0, 4, 0x14, 0, 0, 0, 6,
        ],
        false,
        "Err(BadCount)",
    ),
];

#[test]
fn blocks_are_read(rt: HostRuntime) {
    for (name, front, wide, wanted) in &BLOCKS {
        let read = read_block(rt.alloc(), &block_of(front), *wide);
        let text = format!(in rt.alloc(); "{read:?}").expect(&rt, "no text");
        drop(read);
        assert_eq!(rt; text.as_str(), *wanted, "{name}");
    }
    log_blocks_are_read();
    readers_agree();
    logs_hold_whole_transactions();
    faults_count_in_whole_transactions();
}

// Which blocks are written as the table above has them.
fn written() -> [bool; 3] {
    let nine = Tag {
        block: 9,
        escaped: false,
    };
    let escaped = Tag {
        block: 9,
        escaped: true,
    };
    let one = write_descriptor(7, &[escaped], false);
    let wide = write_descriptor(7, &[nine, Tag { block: 10, ..nine }], true);
    [
        is_block(&one, BLOCKS[0].1, 0) && sequence_in(&one) == 7,
        is_block(&wide, BLOCKS[2].1, 0),
        is_block(&write_commit(7), BLOCKS[4].1, 0),
    ]
}

#[test]
fn blocks_are_written(rt: HostRuntime) {
    assert_eq!(rt; written(), [true; 3]);
}

#[test]
fn superblock(rt: HostRuntime) {
    let s = JournalSuper {
        maxlen: 128,
        first: 1,
        sequence: 0x102,
        start: 3,
        incompat: 1,
    };
    assert!(rt; is_block(&write_super(&s), &SUPERBLOCK, 0));
    assert!(rt; read_super(&block_of(&SUPERBLOCK)) == Ok(s));
    superblocks_are_read();
}

#[test]
fn the_tail_is_set(rt: HostRuntime) {
    let mut block = block_of(&SUPERBLOCK);
    block.set(1000, 9);
    set_tail(&mut block, 0x01020304, 5);
    let tail = block.as_slice().get(0x18..0x20);
    assert_eq!(rt; tail, Some(&[1u8, 2, 3, 4, 0, 0, 0, 5][..]));
    assert_eq!(rt; block.as_slice().get(1000), Some(&9));
}

#[test]
fn bodies_are_escaped(rt: HostRuntime) {
    let magic = [0xC0, 0x3B, 0x39, 0x98, 8];
    let (stored, escaped) = escape(&block_of(&magic));
    assert!(rt; escaped && is_block(&stored, &[0, 0, 0, 0, 8], 0));
    assert!(rt; is_block(&restore(&stored, true), &magic, 0));
    let (stored, escaped) = escape(&block_of(&[0xC0, 0x3B]));
    assert!(rt; !escaped && is_block(&stored, &[0xC0, 0x3B], 0));
    bodies_are_restored();
}

// A descriptor without a last tag. The tags from place `first` on have the uuid of the one before, or none has.
fn endless(first: u8, next: u8) -> Block {
    let mut block = block_of(&[0xC0, 0x3B, 0x39, 0x98, 0, 0, 0, 1]);
    for k in 0..124usize {
        let at = usize::from(first) + usize::from(next) * k + 7;
        if next > 0 && at < 1024 {
            block.set(at, 2);
        }
    }
    block
}

// As many tags are read as are whole. Narrow and wide ones with a uuid each leave four bytes. With one uuid for all,
// debugfs of e2fsprogs 1.47 fills a descriptor with 124 narrow tags or 83 wide ones.
#[test]
fn as_many_tags_as_are_whole(rt: HostRuntime) {
    let rows = [
        (false, 0, 0, 42),
        (true, 0, 0, 36),
        (false, 12 + 24, 8, 124),
        (true, 12 + 28, 12, 83),
    ];
    for (wide, first, next, wanted) in rows {
        let tags = tags_of(&rt, rt.alloc(), &endless(first, next), wide);
        assert_eq!(rt; tags.as_slice().len(), wanted, "{wide} {next}");
    }
}

// Whether a revoke block of block 6 has wide numbers, the bytes that it begins with, whether it is read as a wide one, and
// the blocks then. A wide one that is read as a narrow one has other blocks.
static REVOKES: [(bool, &[u8], bool, &[u64]); 3] = [
    (
        false,
        &[
            0xC0, 0x3B, 0x39, 0x98, 0, 0, 0, 5, 0, 0, 0, 2, 0, 0, 0, 0x14, 0, 0, 0, 6,
        ],
        false,
        &[6],
    ),
    (
        true,
        &[
            0xC0, 0x3B, 0x39, 0x98, 0, 0, 0, 5, 0, 0, 0, 2, 0, 0, 0, 0x18, 0, 0, 0, 0, 0, 0, 0, 6,
        ],
        true,
        &[6],
    ),
    (
        true,
        &[
            0xC0, 0x3B, 0x39, 0x98, 0, 0, 0, 5, 0, 0, 0, 2, 0, 0, 0, 0x18, 0, 0, 0, 0, 0, 0, 0, 6,
        ],
        false,
        &[0, 6],
    ),
];

#[test]
fn revoke_blocks(rt: HostRuntime) {
    for (row, (wide, front, as_wide, wanted)) in REVOKES.iter().enumerate() {
        let block = write_revoke(2, &[6], *wide);
        assert!(rt; is_block(&block, front, 0), "row {row}");
        let revoked = revoked_of(&rt, rt.alloc(), &block, *as_wide);
        assert_eq!(rt; revoked.as_slice(), *wanted, "row {row}");
    }
}

// The count of a revoke block of one number, whether it is read as a wide one, and whether that is right. 20 bytes are
// header, count and one narrow number, and no wide one.
static COUNTS: [(u8, u8, bool, bool); 3] = [
    (4, 0, false, true),
    (0, 20, false, true),
    (0, 20, true, false),
];

#[test]
fn counts_of_revoke_blocks(rt: HostRuntime) {
    for (high, low, wide, wanted) in &COUNTS {
        let mut block = write_revoke(2, &[6], false);
        block.set(14, *high);
        block.set(15, *low);
        let is_right = read_block(rt.alloc(), &block, *wide).is_ok();
        assert!(rt; is_right == *wanted, "{high} {low} {wide}");
    }
}
