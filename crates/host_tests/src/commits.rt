//! Tests of the commit actor.
ghost use Rattle.std.specs.Prelude.{◌≡◌};
ghost use Rattle.blk_base.specs.Block.{filled};

use crate::same::expect;
use blk_base::{Block, BodySource};
use commit_actor::{JournalPart, commit_step};
use journal_blocks::JournalSuper;
use journal_ring::{
    Ring, bodies_wait_until_they_are_sent, last_bodies_wait_to_be_sent_home,
    places_are_free_or_in_use,
};
use order_model::{Inlet, Kind, ListQueue, Note, Request, Turn};
use page_cache::Pages;
use std::alloc::Global;
use std::process::Abort;

// A log of nine places.
const SMALL: JournalSuper = JournalSuper {
    maxlen: 10,
    first: 1,
    sequence: 7,
    start: 0,
    incompat: 1,
};

// What is submitted of two transactions that change blocks 2, 4 and 5 in a log of nine places.
static NOTES: [Note; 15] = [
    Note::Super,
    Note::Descriptor { tx: 1 },
    Note::Body { tx: 1, block: 2 },
    Note::Body { tx: 1, block: 4 },
    Note::Body { tx: 1, block: 5 },
    Note::Commit { tx: 1 },
    Note::Home { block: 2 },
    Note::Home { block: 4 },
    Note::Home { block: 5 },
    Note::Super,
    Note::Descriptor { tx: 2 },
    Note::Body { tx: 2, block: 2 },
    Note::Body { tx: 2, block: 4 },
    Note::Body { tx: 2, block: 5 },
    Note::Commit { tx: 2 },
];

// The blocks that it goes to, and which of it are barriers.
static SENT: [(u32, bool); 15] = [
    (64, false),
    (65, false),
    (66, false),
    (67, false),
    (68, true),
    (69, true),
    (2, false),
    (4, false),
    (5, true),
    (64, true),
    (70, false),
    (71, false),
    (72, false),
    (73, true),
    (65, true),
];

// A volume whose bytes are all 5.
struct Fives;

impl BodySource for Fives {
    ghost bodies = { λ v b. filled 5 };

    fn block_bytes(&self, _b: u32) -> Block {
        Block::fill(5)
    }
}

// The journal's part of a volume of 64 blocks, its pages, and its queue.
#[derive(Drop)]
struct Setting {
    part: JournalPart,
    pages: Pages,
    out: ListQueue<Request>,
}

fn set_up(rt: &impl Abort, alloc: Global) -> Setting {
    let ring = Ring::make(alloc, &SMALL, 50).expect(rt, "no ring");
    Setting {
        part: JournalPart::make(alloc, ring, 50, 64, 64, 1).expect(rt, "no part"),
        pages: Pages::load(alloc, 4).expect(rt, "no pages"),
        out: ListQueue::make(alloc, 20).expect(rt, "no queue"),
    }
}

// The blocks that a call changes.
static CHANGED: [u32; 3] = [2, 5, 4];

impl Setting {
    // A call changed blocks 2, 5 and 4 and node 1, and the transaction is to be closed.
    fn change(&mut self, rt: &impl Abort, alloc: Global) {
        let part = &mut self.part;
        part.reserve(alloc, 8).expect(rt, "no room");
        for block in &CHANGED {
            if part.running().spare() > 0 && *block < part.flush().blocks() {
                part.touch(*block);
            }
        }
        if part.running().spare() > 0 {
            part.change(1);
        }
        part.want_closed();
    }

    // So many steps, up to the first that does nothing.
    fn steps(&mut self, alloc: Global, most: u32) -> Turn {
        for _ in 0..most {
            let turn = commit_step(
                alloc,
                &mut self.part,
                &mut self.pages,
                &Fives,
                &mut self.out,
            );
            if turn != Turn::Did {
                return turn;
            }
        }
        Turn::Did
    }

    // Whether the request that was sent first goes to this block, and is a barrier or none.
    fn has_sent(&mut self, wanted: u32, barrier: bool) -> bool {
        let Some(request) = self.out.take() else {
            return false;
        };
        match request.kind {
            Kind::Put { block, .. } => block == wanted && request.barrier == barrier,
            Kind::Flush => false,
        }
    }
}

// Two changes, each with the steps that are taken of it: whether a call changes blocks, the steps that follow, and the turn
// of the last one. Nothing is to be done before the first one and between the two.
static CHANGES: [(bool, u32, Turn); 4] = [
    (false, 1, Turn::Idle),
    (true, 8, Turn::Did),
    (false, 1, Turn::Idle),
    (true, 11, Turn::Did),
];

fn plays(rt: &impl Abort, alloc: Global, session: &mut Setting) {
    for (at, (changes, most, turn)) in CHANGES.iter().enumerate() {
        if *changes {
            session.change(rt, alloc);
        }
        expect(rt, "changes", at, session.steps(alloc, *most) == *turn);
    }
    expect(
        rt,
        "notes",
        0,
        session.part.flush().notes() == NOTES.as_slice(),
    );
    for (at, (block, barrier)) in SENT.iter().enumerate() {
        expect(rt, "sent", at, session.has_sent(*block, *barrier));
    }
}

#[test]
fn plans_are_sent_and_bodies_go_home(rt: HostRuntime) {
    places_are_free_or_in_use();
    last_bodies_wait_to_be_sent_home();
    bodies_wait_until_they_are_sent();
    let mut session = set_up(&rt, rt.alloc());
    plays(&rt, rt.alloc(), &mut session);
}
