//! Rows of calls on new volumes, with what is answered and left, worked by hand.
use crate::volumes::new_volumes::Ask::{
    Before, Birth, Do, First, Free, Names, Release, Reply, Tree,
};
use crate::volumes::new_volumes::Row;

/// Volumes that are new.
pub static NEW: [Row; 3] = [
    Row {
        name: "answers of a new volume",
        is_wide: false,
        steps: &[
            (Before, "mkdir /a", "Change, 1"),
            (Before, "mkdir /", "Refused(Exists), 0"),
            (Before, "create /a", "Change, 0"),
            (Before, "create a", "Refused(BadPath), 0"),
            (Before, "create /b/z", "Refused(NotFound), 0"),
            (Before, "create /abcdefghijklmn", "Change, 0"),
            (Before, "create /abcdefghijklmno", "Refused(NameTooLong), 0"),
            (Before, "rmdir /", "Refused(Invalid), 0"),
            (Before, "unlink /a", "Refused(NotFound), 0"),
            (Before, "list /", "Change, 0"),
            (Before, "fsync /x", "Refused(NotFound), 0"),
            (Before, "link / /a", "Refused(IsDir), 0"),
            (Before, "sync", "Change, 0"),
            (Reply, "stat /", "Stat { dir: true, size: 32, links: 2 }"),
            (Reply, "list /", "Names(NameList { names: [] })"),
            (Reply, "read / 0 4", "IsDir"),
            (Reply, "fsync /a", "NotFound"),
            (Reply, "sync", "Ok"),
        ],
        bytes: &[],
        is_whole: false,
    },
    Row {
        name: "answers of a new volume of long names",
        is_wide: true,
        steps: &[
            (Before, "mkdir /abcdefghijklmno", "Change, 1"),
            (
                Before,
                "create /abcdefghijklmnopqrstuvwxyz-123",
                "Change, 0",
            ),
            (
                Before,
                "create /abcdefghijklmnopqrstuvwxyz-1234",
                "Refused(NameTooLong), 0",
            ),
            (Before, "stat /abcdefghijklmno", "Refused(NotFound), 0"),
            (
                Before,
                "stat /abcdefghijklmnopqrstuvwxyz-1234",
                "Refused(NameTooLong), 0",
            ),
            (Reply, "stat /", "Stat { dir: true, size: 64, links: 2 }"),
        ],
        bytes: &[],
        is_whole: false,
    },
    // The third byte of a block is that of a first name where the block is a directory's.
    Row {
        name: "blocks and zones of a new volume",
        is_wide: false,
        steps: &[
            (Release(3), "", "Some(58)"),
            (Birth, "/", "Some(0)"),
            (Birth, "/a", "None"),
            (First, "", "Some(5)"),
        ],
        bytes: &[(5, 2, b"."), (64, 2, b"\0")],
        is_whole: false,
    },
];

/// Nodes and their slots.
pub static SLOTS: [Row; 4] = [
    // A directory and a file in it, which has two blocks. All bytes of blocks 2 to 6: they are the maps of inodes and of
    // zones, in which this volume did not mark the root, three inodes, the root's slots and those of `/a`.
    Row {
        name: "inodes and slots",
        is_wide: false,
        steps: &[
            (Tree, "", "dir /\n"),
            (Do, "mkdir /a", "Ok"),
            (Do, "create /a/f", "Ok"),
            (Do, "write /a/f 1022 3 61", "Ok"),
            (
                Tree,
                "",
                "dir /\ndir /a\nfile /a/f size 1025 links 1\nblock 0 1022x00+2x61\nblock 1 1x61\n",
            ),
        ],
        bytes: &[
            (2, 0, b"\x0c"),
            (3, 0, b"\x1c"),
            (4, 0, b"\xed\x41\0\0\x30\0\0\0\0\0\0\0\0\x03\x05\0"),
            (4, 32, b"\xed\x41\0\0\x30\0\0\0\0\0\0\0\0\x02\x06\0"),
            (4, 64, b"\xa4\x81\0\0\x01\x04\0\0\0\0\0\0\0\x01\x07\0\x08\0"),
            (5, 0, b"\x01\0."),
            (5, 16, b"\x01\0.."),
            (5, 32, b"\x02\0a"),
            (6, 0, b"\x02\0."),
            (6, 16, b"\x01\0.."),
            (6, 32, b"\x03\0f"),
        ],
        is_whole: true,
    },
    // The same where names have up to 30 bytes, and the file in `/a` has one of 30.
    Row {
        name: "inodes and slots of long names",
        is_wide: true,
        steps: &[
            (Do, "mkdir /a", "Ok"),
            (Do, "create /a/abcdefghijklmnopqrstuvwxyz-123", "Ok"),
            (
                Do,
                "write /a/abcdefghijklmnopqrstuvwxyz-123 1022 3 61",
                "Ok",
            ),
        ],
        bytes: &[
            (2, 0, b"\x0c"),
            (3, 0, b"\x1c"),
            (4, 0, b"\xed\x41\0\0\x60\0\0\0\0\0\0\0\0\x03\x05\0"),
            (4, 32, b"\xed\x41\0\0\x60\0\0\0\0\0\0\0\0\x02\x06\0"),
            (4, 64, b"\xa4\x81\0\0\x01\x04\0\0\0\0\0\0\0\x01\x07\0\x08\0"),
            (5, 0, b"\x01\0."),
            (5, 32, b"\x01\0.."),
            (5, 64, b"\x02\0a"),
            (6, 0, b"\x02\0."),
            (6, 32, b"\x01\0.."),
            (6, 64, b"\x03\0abcdefghijklmnopqrstuvwxyz-123"),
        ],
        is_whole: true,
    },
    // A block has 64 slots with short names and 32 with long ones, and two are those of the root itself. One name more
    // stands in the next zone: it has the first slot of block 6.
    Row {
        name: "a full block of slots",
        is_wide: false,
        steps: &[
            (Names(62), "", "Ok"),
            (Before, "link /0 /more", "Change, 1"),
            (Reply, "stat /", "Stat { dir: true, size: 1024, links: 2 }"),
            (Do, "link /0 /more", "Ok"),
            (Before, "link /0 /more", "Refused(Exists), 0"),
            (Reply, "stat /", "Stat { dir: true, size: 1040, links: 2 }"),
        ],
        bytes: &[(6, 0, b"\x02\0more\0")],
        is_whole: false,
    },
    Row {
        name: "a full block of long slots",
        is_wide: true,
        steps: &[
            (Names(30), "", "Ok"),
            (Before, "link /0 /more", "Change, 1"),
            (Reply, "stat /", "Stat { dir: true, size: 1024, links: 2 }"),
            (Do, "link /0 /more", "Ok"),
            (Before, "link /0 /more", "Refused(Exists), 0"),
            (Reply, "stat /", "Stat { dir: true, size: 1056, links: 2 }"),
        ],
        bytes: &[(6, 0, b"\x02\0more\0")],
        is_whole: false,
    },
];

/// Nodes that move.
pub static MOVED: [Row; 4] = [
    Row {
        name: "a name within a directory",
        is_wide: false,
        steps: &[
            (Do, "create /f", "Ok"),
            (Do, "write /f 0 3 61", "Ok"),
            (Do, "rename /f /g", "Ok"),
            (Tree, "", "dir /\nfile /g size 3 links 1\nblock 0 3x61\n"),
        ],
        bytes: &[],
        is_whole: false,
    },
    Row {
        name: "a name to another directory",
        is_wide: false,
        steps: &[
            (Do, "mkdir /a", "Ok"),
            (Do, "create /f", "Ok"),
            (Do, "rename /f /a/g", "Ok"),
            (Tree, "", "dir /\ndir /a\nfile /a/g size 0 links 1\n"),
        ],
        bytes: &[],
        is_whole: false,
    },
    Row {
        name: "a directory with a file gets another parent",
        is_wide: false,
        steps: &[
            (Do, "mkdir /a", "Ok"),
            (Do, "mkdir /b", "Ok"),
            (Do, "mkdir /a/d", "Ok"),
            (Do, "create /a/d/f", "Ok"),
            (Do, "rename /a/d /b/e", "Ok"),
            (
                Tree,
                "",
                "dir /\ndir /a\ndir /b\ndir /b/e\nfile /b/e/f size 0 links 1\n",
            ),
        ],
        bytes: &[],
        is_whole: false,
    },
    // The directories `/a`, `/b` and `/a/d` have the inodes 2 to 4 and the zones 6 to 8. In the table a block before, the
    // links of an inode are its byte 13. The bytes are the name above in the directory that moved, the slot that it had and
    // the one that it has, and the links of the three.
    Row {
        name: "bytes of a directory that moved",
        is_wide: false,
        steps: &[
            (Do, "mkdir /a", "Ok"),
            (Do, "mkdir /b", "Ok"),
            (Do, "mkdir /a/d", "Ok"),
            (Do, "rename /a/d /b/e", "Ok"),
        ],
        bytes: &[
            (8, 16, b"\x03"),
            (8, 18, b"."),
            (6, 32, b"\0"),
            (7, 32, b"\x04"),
            (7, 34, b"e"),
            (4, 45, b"\x02"),
            (4, 77, b"\x03"),
            (4, 109, b"\x02"),
        ],
        is_whole: false,
    },
];

/// Names of files that come together.
pub static REPLACED: [Row; 5] = [
    // Of 59 zones of data the root has one, `/f` one and `/g` two, which wait for their transaction.
    Row {
        name: "a file in place of one with one link",
        is_wide: false,
        steps: &[
            (Do, "create /f", "Ok"),
            (Do, "write /f 0 3 61", "Ok"),
            (Do, "create /g", "Ok"),
            (Do, "write /g 0 2000 62", "Ok"),
            (Free, "", "Some(55)"),
            (Do, "rename /f /g", "Ok"),
            (Tree, "", "dir /\nfile /g size 3 links 1\nblock 0 3x61\n"),
            (Free, "", "Some(55)"),
            (Release(1), "", "Some(57)"),
        ],
        bytes: &[],
        is_whole: false,
    },
    Row {
        name: "a file in place of one with two links",
        is_wide: false,
        steps: &[
            (Do, "create /f", "Ok"),
            (Do, "write /f 0 1 61", "Ok"),
            (Do, "create /g", "Ok"),
            (Do, "link /g /h", "Ok"),
            (Do, "rename /f /g", "Ok"),
            (
                Tree,
                "",
                "dir /\nfile /g size 1 links 1\nblock 0 1x61\nfile /h size 0 links 1\n",
            ),
        ],
        bytes: &[],
        is_whole: false,
    },
    Row {
        name: "two names of one file",
        is_wide: false,
        steps: &[
            (Do, "create /f", "Ok"),
            (Do, "link /f /g", "Ok"),
            (Do, "rename /f /g", "Ok"),
            (Tree, "", "dir /\nfile /f size 0 links 2\nlink /g /f\n"),
        ],
        bytes: &[],
        is_whole: false,
    },
    Row {
        name: "a directory below itself",
        is_wide: false,
        steps: &[
            (Do, "mkdir /a", "Ok"),
            (Do, "mkdir /a/b", "Ok"),
            (Do, "rename /a /a/b/c", "Invalid"),
            (Tree, "", "dir /\ndir /a\ndir /a/b\n"),
        ],
        bytes: &[],
        is_whole: false,
    },
    Row {
        name: "a file in place of a directory",
        is_wide: false,
        steps: &[
            (Do, "mkdir /a", "Ok"),
            (Do, "create /f", "Ok"),
            (Do, "rename /f /a", "IsDir"),
            (Tree, "", "dir /\ndir /a\nfile /f size 0 links 1\n"),
        ],
        bytes: &[],
        is_whole: false,
    },
];
