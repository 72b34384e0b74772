//! Logs, and what comes of recoveries of them.
use journal_blocks::JournalFault;
use journal_replay::RecoverFault;

// A block of a log, with its sequence.
pub(crate) enum LogPart {
    Commit(u32),
    // Bodies of these blocks follow, of which the first may have zeros in place of the magic number.
    Bodies(u32, &'static [u32], bool),
    Revoke(u32, &'static [u32]),
    // A revoke block whose count says 15 bytes.
    BadRevoke(u32),
    // A body of this byte.
    Body(u8),
    // The body that begins with the magic number, as it is stored.
    Magic,
    // A block that begins with these bytes.
    Bytes(&'static [u8]),
}

// How a recovery goes: to its end, to where power is cut, or on a device that fails a transfer or a read.
pub(crate) enum Way {
    Whole,
    Cut,
    FailAt(u64),
    BadRead(u64),
}

// What comes of a recovery.
pub(crate) enum Came {
    // So many transactions count, this is the next sequence, and blocks have these bytes in front then, and one byte behind.
    Ended(u32, u32, &'static [(u32, &'static [u8], u8)]),
    // Power was cut before the end, and all blocks are as before.
    Begun(u32, u32),
    // This is wrong with the journal at this block, and all blocks are as before.
    Faulty(JournalFault, u32),
    // The device failed.
    Failed(RecoverFault),
}

// A log of so many blocks, this sequence and this start, which is tried with each of the features, and the byte of block 9
// before. Where attempts are cut, they have the first features, and a recovery takes so many steps: two for each home write
// and for the superblock, and one for the flush. An empty log takes none.
pub(crate) struct Log {
    pub(crate) name: &'static str,
    pub(crate) places: (u32, u32, u32),
    pub(crate) features: &'static [u32],
    pub(crate) parts: &'static [LogPart],
    pub(crate) byte: u8,
    pub(crate) steps: Option<u32>,
    pub(crate) runs: &'static [(Way, Came)],
}

/// The logs, in tables of a few: what a table costs to prove grows faster than it does, and is paid in each function that names
/// it. So the tests borrow them.
pub(crate) fn logs() -> [&'static [Log]; 7] {
    [
        &MISSING, &COUNTING, &FULL, &EMPTY, &REVOKING, &PAST_ENDS, &FAULTY,
    ]
}

pub(crate) static MISSING: [Log; 1] = [
    // A commit block of sequence 4, a descriptor of sequence 5 with one tag, and zeros.
    Log {
        name: "missing sequence",
        places: (128, 4, 1),
        features: &[1],
        parts: &[LogPart::Commit(4), LogPart::Bodies(5, &[5], false)],
        byte: 0,
        steps: Some(3),
        runs: &[
            (Way::Whole, Came::Ended(1, 6, &[(5, b"", 0)])),
            (Way::Cut, Came::Begun(1, 6)),
        ],
    },
];

static COUNTING: [Log; 4] = [
    // A body of block 9, which is not zero before, is revoked later, and behind it are bodies of blocks 3 and 4.
    Log {
        name: "revoked later",
        places: (128, 4, 1),
        features: &[3, 1],
        parts: &[
            LogPart::Bodies(4, &[9], false),
            LogPart::Body(7),
            LogPart::Commit(4),
            LogPart::Revoke(5, &[9]),
            LogPart::Commit(5),
            LogPart::Bodies(6, &[3, 4], false),
            LogPart::Body(1),
            LogPart::Body(2),
            LogPart::Commit(6),
        ],
        byte: 3,
        steps: Some(7),
        runs: &[(
            Way::Whole,
            Came::Ended(3, 8, &[(9, b"", 3), (3, b"", 1), (4, b"", 2)]),
        )],
    },
    // One transaction of sequence 7 whose one body begins with the magic number.
    Log {
        name: "escaped",
        places: (128, 7, 1),
        features: &[1],
        parts: &[
            LogPart::Bodies(7, &[9], true),
            LogPart::Magic,
            LogPart::Commit(7),
        ],
        byte: 0,
        steps: Some(5),
        runs: &[],
    },
    // One transaction with bodies of blocks 2 to 6.
    Log {
        name: "of five",
        places: (128, 4, 1),
        features: &[1],
        parts: &[
            LogPart::Bodies(4, &[2, 3, 4, 5, 6], false),
            LogPart::Body(2),
            LogPart::Body(3),
            LogPart::Body(4),
            LogPart::Body(5),
            LogPart::Body(6),
            LogPart::Commit(4),
        ],
        byte: 0,
        steps: Some(13),
        runs: &[],
    },
    // The log begins behind its middle, and its sequences come round.
    Log {
        name: "come round",
        places: (5, u32::MAX, 3),
        features: &[1],
        parts: &[
            LogPart::Commit(u32::MAX),
            LogPart::Commit(0),
            LogPart::Bodies(u32::MAX, &[9], false),
            LogPart::Body(7),
        ],
        byte: 0,
        steps: Some(5),
        runs: &[(Way::Whole, Came::Ended(2, 2, &[(9, b"", 7)]))],
    },
];

static FULL: [Log; 1] = [
    // Two transactions with bodies for blocks 9 and 10, and a later one for block 10. The commands are two home writes, the
    // superblock and a flush; the log has seven blocks, and one more ends it.
    Log {
        name: "full",
        places: (128, 4, 1),
        features: &[1, 3],
        parts: &[
            LogPart::Bodies(4, &[9, 10], true),
            LogPart::Magic,
            LogPart::Body(1),
            LogPart::Commit(4),
            LogPart::Bodies(5, &[10], false),
            LogPart::Body(2),
            LogPart::Commit(5),
        ],
        byte: 0,
        steps: Some(7),
        runs: &[
            (
                Way::Whole,
                Came::Ended(2, 7, &[(9, b"\xC0\x3B\x39\x98", 5), (10, b"", 2)]),
            ),
            (Way::FailAt(1), Came::Failed(RecoverFault::DeviceFailed(0))),
            (Way::FailAt(2), Came::Failed(RecoverFault::DeviceFailed(1))),
            (Way::FailAt(3), Came::Failed(RecoverFault::DeviceFailed(2))),
            (Way::FailAt(4), Came::Failed(RecoverFault::DeviceFailed(3))),
            (Way::BadRead(1), Came::Failed(RecoverFault::ReadFault)),
            (Way::BadRead(2), Came::Failed(RecoverFault::ReadFault)),
            (Way::BadRead(3), Came::Failed(RecoverFault::ReadFault)),
            (Way::BadRead(4), Came::Failed(RecoverFault::ReadFault)),
            (Way::BadRead(5), Came::Failed(RecoverFault::ReadFault)),
            (Way::BadRead(6), Came::Failed(RecoverFault::ReadFault)),
            (Way::BadRead(7), Came::Failed(RecoverFault::ReadFault)),
            (Way::BadRead(8), Came::Failed(RecoverFault::ReadFault)),
            (Way::BadRead(9), Came::Failed(RecoverFault::ReadFault)),
            (Way::BadRead(10), Came::Ended(2, 7, &[])),
        ],
    },
];

pub(crate) static EMPTY: [Log; 1] = [Log {
    name: "empty",
    places: (128, 1, 0),
    features: &[1],
    parts: &[],
    byte: 0,
    steps: Some(0),
    runs: &[],
}];

static REVOKING: [Log; 7] = [
    // The superblock and the flush are the only commands, since a later revoke cancels the one body.
    Log {
        name: "cancelled",
        places: (128, 4, 1),
        features: &[1],
        parts: &[
            LogPart::Bodies(4, &[9], false),
            LogPart::Body(7),
            LogPart::Commit(4),
            LogPart::Revoke(5, &[9]),
            LogPart::Commit(5),
        ],
        byte: 0,
        steps: None,
        runs: &[
            (Way::FailAt(1), Came::Failed(RecoverFault::DeviceFailed(0))),
            (Way::FailAt(2), Came::Failed(RecoverFault::DeviceFailed(1))),
            (Way::FailAt(3), Came::Ended(2, 7, &[])),
        ],
    },
    // A commit block of sequence 4, and then a whole transaction of sequence 3.
    Log {
        name: "older sequence",
        places: (128, 4, 1),
        features: &[1],
        parts: &[
            LogPart::Commit(4),
            LogPart::Bodies(3, &[9], false),
            LogPart::Body(7),
            LogPart::Commit(3),
        ],
        byte: 0,
        steps: None,
        runs: &[(Way::Whole, Came::Ended(1, 6, &[(9, b"", 0)]))],
    },
    Log {
        name: "revoke before its body",
        places: (128, 4, 1),
        features: &[1],
        parts: &[
            LogPart::Revoke(4, &[9]),
            LogPart::Bodies(4, &[9], false),
            LogPart::Body(7),
            LogPart::Commit(4),
        ],
        byte: 0,
        steps: None,
        runs: &[(Way::Whole, Came::Ended(1, 6, &[(9, b"", 0)]))],
    },
    Log {
        name: "revoke behind its body",
        places: (128, 4, 1),
        features: &[1, 3],
        parts: &[
            LogPart::Bodies(4, &[9], false),
            LogPart::Body(7),
            LogPart::Revoke(4, &[9]),
            LogPart::Commit(4),
        ],
        byte: 0,
        steps: None,
        runs: &[(Way::Whole, Came::Ended(1, 6, &[(9, b"", 0)]))],
    },
    Log {
        name: "earlier revoke",
        places: (128, 4, 1),
        features: &[1],
        parts: &[
            LogPart::Revoke(4, &[9]),
            LogPart::Commit(4),
            LogPart::Bodies(5, &[9], false),
            LogPart::Body(7),
            LogPart::Commit(5),
        ],
        byte: 0,
        steps: None,
        runs: &[(Way::Whole, Came::Ended(2, 7, &[(9, b"", 7)]))],
    },
    Log {
        name: "revoke past the volume",
        places: (128, 4, 1),
        features: &[1],
        parts: &[
            LogPart::Revoke(4, &[5000]),
            LogPart::Bodies(4, &[9], false),
            LogPart::Body(7),
            LogPart::Commit(4),
        ],
        byte: 0,
        steps: None,
        runs: &[(Way::Whole, Came::Ended(1, 6, &[(9, b"", 7)]))],
    },
    Log {
        name: "bodies past the log",
        places: (4, 4, 1),
        features: &[1],
        parts: &[
            LogPart::Commit(4),
            LogPart::Bodies(5, &[9, 10], false),
            LogPart::Body(7),
        ],
        byte: 0,
        steps: None,
        runs: &[(Way::Whole, Came::Ended(1, 6, &[(9, b"", 0)]))],
    },
];

static PAST_ENDS: [Log; 4] = [
    // Two tags with a uuid each, for blocks 9 and 10, in sequence 4.
    Log {
        name: "tags with a uuid each",
        places: (128, 4, 1),
        features: &[1],
        parts: &[
            LogPart::Bytes(&[
                0xC0, 0x3B, 0x39, 0x98, 0, 0, 0, 1, 0, 0, 0, 4, // header
                0, 0, 0, 9, 0, 0, 0, 0, 1, 2, 3, 4, 5, 6, 7, 8, 9, 10, 11, 12, 13, 14, 15, 16, // uuid
                0, 0, 0, 10, 0, 0, 0, 8, 1, 2, 3, 4, 5, 6, 7, 8, 9, 10, 11, 12, 13, 14, 15, 16, // uuid, last
            ]),
            LogPart::Body(7),
            LogPart::Body(8),
            LogPart::Commit(4),
        ],
        byte: 0,
        steps: None,
        runs: &[(Way::Whole, Came::Ended(1, 6, &[(9, b"", 7)]))],
    },
    // A revoke of block 2^32 + 9.
    Log {
        name: "revoke past 32 bits",
        places: (128, 4, 1),
        features: &[3],
        parts: &[
            LogPart::Bodies(4, &[9], false),
            LogPart::Body(7),
            LogPart::Bytes(&[
                0xC0, 0x3B, 0x39, 0x98, 0, 0, 0, 5, 0, 0, 0, 4, 0, 0, 0, 0x18, 0, 0, 0, 1, 0, 0, 0,
                9,
            ]),
            LogPart::Commit(4),
        ],
        byte: 0,
        steps: None,
        runs: &[(Way::Whole, Came::Ended(1, 6, &[(9, b"", 7)]))],
    },
    // From here on, the block that is told. The first along the log counts, which is not the lowest block.
    Log {
        name: "bad revoke",
        places: (128, 4, 1),
        features: &[1, 3],
        parts: &[LogPart::BadRevoke(4), LogPart::Commit(4)],
        byte: 0,
        steps: None,
        runs: &[(Way::Whole, Came::Faulty(JournalFault::BadCount, 65))],
    },
    // Wide tags for blocks 9 and 2^32 + 10, in sequence 4.
    Log {
        name: "tag past 32 bits",
        places: (128, 4, 1),
        features: &[3],
        parts: &[
            LogPart::Bytes(&[
                0xC0, 0x3B, 0x39, 0x98, 0, 0, 0, 1, 0, 0, 0, 4, // header
                0, 0, 0, 9, 0, 0, 0, 0, 0, 0, 0, 0, // block, checksum, flags, high half
                0, 0, 0, 0, 0, 0, 0, 0, 0, 0, 0, 0, 0, 0, 0, 0, // uuid
                0, 0, 0, 10, 0, 0, 0, 10, 0, 0, 0, 1, // the same uuid, last
            ]),
            LogPart::Body(7),
            LogPart::Body(8),
            LogPart::Commit(4),
        ],
        byte: 0,
        steps: None,
        runs: &[(Way::Whole, Came::Faulty(JournalFault::BadCount, 65))],
    },
];

static FAULTY: [Log; 5] = [
    Log {
        name: "body of block 0",
        places: (128, 4, 1),
        features: &[1],
        parts: &[
            LogPart::Commit(4),
            LogPart::Bodies(5, &[0], false),
            LogPart::Body(0),
            LogPart::Commit(5),
        ],
        byte: 0,
        steps: None,
        runs: &[(Way::Whole, Came::Faulty(JournalFault::BadCount, 66))],
    },
    Log {
        name: "body of block 1",
        places: (128, 4, 1),
        features: &[1],
        parts: &[
            LogPart::Commit(4),
            LogPart::Bodies(5, &[1], false),
            LogPart::Body(0),
            LogPart::Commit(5),
        ],
        byte: 0,
        steps: None,
        runs: &[(Way::Whole, Came::Faulty(JournalFault::BadCount, 66))],
    },
    Log {
        name: "body of block 64",
        places: (128, 4, 1),
        features: &[1],
        parts: &[
            LogPart::Commit(4),
            LogPart::Bodies(5, &[64], false),
            LogPart::Body(0),
            LogPart::Commit(5),
        ],
        byte: 0,
        steps: None,
        runs: &[(Way::Whole, Came::Faulty(JournalFault::BadCount, 66))],
    },
    // A log of seven places that begins at its fifth.
    Log {
        name: "two faults",
        places: (8, 4, 5),
        features: &[1],
        parts: &[
            LogPart::BadRevoke(5),
            LogPart::Commit(5),
            LogPart::Body(0),
            LogPart::Body(0),
            LogPart::Bodies(4, &[64], false),
            LogPart::Body(0),
            LogPart::Commit(4),
        ],
        byte: 0,
        steps: None,
        runs: &[(Way::Whole, Came::Faulty(JournalFault::BadCount, 69))],
    },
    // Without a commit block a bad one counts for nothing.
    Log {
        name: "bad revoke without a commit block",
        places: (128, 4, 1),
        features: &[1],
        parts: &[LogPart::BadRevoke(4)],
        byte: 0,
        steps: None,
        runs: &[(Way::Whole, Came::Ended(0, 5, &[]))],
    },
];

// A byte of the superblock, and the fault that it makes. The features past the lowest two are of checksums and others.
pub(crate) static SUPER_FAULTS: [(usize, u8, Came); 10] = [
    (3, 0, Came::Faulty(JournalFault::NotMagic, 64)),
    (7, 3, Came::Faulty(JournalFault::BadKind, 64)),
    (0x2B, 7, Came::Faulty(JournalFault::Feature(4), 64)),
    (0x2B, 0x1A, Came::Faulty(JournalFault::Feature(0x18), 64)),
    (0x0E, 8, Came::Faulty(JournalFault::BadCount, 64)),
    (0x13, 129, Came::Faulty(JournalFault::BadCount, 64)),
    (0x13, 1, Came::Faulty(JournalFault::BadCount, 64)),
    (0x17, 0, Came::Faulty(JournalFault::BadCount, 64)),
    (0x17, 2, Came::Faulty(JournalFault::BadCount, 64)),
    (0x1F, 128, Came::Faulty(JournalFault::BadCount, 64)),
];
