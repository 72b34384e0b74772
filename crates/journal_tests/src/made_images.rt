//! Images that are made, and mounted on a device that fails.
#![tactic(auto, using(minix_layout::specs::Widths::of_14))]

use crate::recovery::put;
use blk_base::{Block, Image};
use device_epochs::{DeviceSetup, EpochDevice};
use journal_blocks::{JournalSuper, Tag, write_commit, write_descriptor, write_super};
use minix_layout::DEFAULT_WIDTH;
use mount_make::{MountFault, make_volume, mount};
use std::alloc::Global;
use std::process::Abort;

// Whether a block begins with these bytes, and goes on with this one.
pub(crate) fn is_block(block: &Block, front: &[u8], rest: u8) -> bool {
    for (k, byte) in block.as_slice().iter().enumerate() {
        let wanted = match front.get(k) {
            Some(wanted) => *wanted,
            None => rest,
        };
        if *byte != wanted {
            return false;
        }
    }
    true
}

// The image of 32 inodes, 64 zones and a journal of 128 blocks.
fn new_image(rt: &impl Abort, alloc: Global) -> Image {
    make_volume(alloc, 32, 64, 128, DEFAULT_WIDTH, false).expect(rt, "not made")
}

// A made image whose log has an empty transaction of sequence 4, and one of sequence 5 without its commit block.
fn skipping(rt: &impl Abort, alloc: Global) -> Image {
    let mut image = new_image(rt, alloc);
    let superblock = JournalSuper {
        maxlen: 128,
        first: 1,
        sequence: 4,
        start: 1,
        incompat: 1,
    };
    let tag = Tag {
        block: 5,
        escaped: false,
    };
    put(&mut image, 64, write_super(&superblock));
    put(&mut image, 65, write_commit(4));
    put(&mut image, 66, write_descriptor(5, &[tag], false));
    image
}

// What mounting is refused with on a device that fails so.
fn refused(
    rt: &impl Abort,
    alloc: Global,
    image: Image,
    fail_at: Option<u64>,
    bad_read: Option<u64>,
) -> Option<MountFault> {
    let setup = DeviceSetup {
        depth: 4,
        limit: u64::from(image.len()) + 2,
        fail_at,
        bad_read,
        cut_at: None,
    };
    let mut device = EpochDevice::make(alloc, image, setup).expect(rt, "no device");
    let fault = mount(alloc, &mut device).err();
    drop(device);
    fault
}

static FAILED: [(u64, Option<MountFault>); 3] = [
    (1, Some(MountFault::DeviceFailed(0))),
    (2, Some(MountFault::DeviceFailed(1))),
    (3, None),
];

#[test]
fn tells_what_the_device_failed(rt: HostRuntime) {
    for (fail_at, fault) in &FAILED {
        let image = skipping(&rt, rt.alloc());
        let told = refused(&rt, rt.alloc(), image, Some(*fail_at), None);
        assert_eq!(rt; told, *fault, "{fail_at}");
    }
}

// What is told where each of the reads up to this one fails: the fault, until there are fewer.
fn expect_reads(rt: &impl Abort, alloc: Global, used: bool, reads: u64) {
    for bad in 1..reads.saturating_add(2) {
        let image = if used {
            skipping(rt, alloc)
        } else {
            new_image(rt, alloc)
        };
        let fault = (bad <= reads).then_some(MountFault::ReadFault);
        let told = refused(rt, alloc, image, None, Some(bad));
        assert_eq!(rt; told, fault, "{bad}");
    }
}

#[test]
fn tells_each_read_that_fails(rt: HostRuntime) {
    // The superblock, the journal's once and once more, and 64 zones.
    expect_reads(&rt, rt.alloc(), false, 67);
    // Behind the journal's superblock four blocks from the start of its log on.
    expect_reads(&rt, rt.alloc(), true, 71);
}
