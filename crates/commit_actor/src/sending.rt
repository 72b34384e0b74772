//! What is left of the plan of a closed transaction.
ghost use Rattle.std.specs.Prelude.{◌≡◌, ◌+◌, ◌<◌, ◌^◌};
ghost use Rattle.std.specs.Option.{option_map};
ghost use Rattle.log_model.specs.Ring as log;
ghost use Rattle.log_model.specs.Ring.{IsPlace};
ghost use Rattle.commit_actor.specs.code.Sending.{planned_of, rest_of, first_planned, sent_one};

use blk_base::Block;
use journal_blocks::{JournalSuper, write_super};
use journal_ring::running::Pieces;
use journal_ring::{Bodies, Ring};
use order_model::Note;

/// The log blocks that are still to be submitted, from a place on, and before them the superblock, if it is. Behind the
/// commit block the bodies and revokes go to the ring.
#[derive(Drop)]
pub struct Sending {
    pub sequence: u32,
    pub place: u32,
    pub super_left: bool,
    pub pieces: Pieces,
    pub homes: Bodies,
    pub changed: Vec<u64>,
}

/// An order-preserving put that is to be submitted.
#[derive(Drop)]
pub struct PlannedPut {
    pub note: Note,
    pub block: u32,
    pub body: Block,
    pub barrier: bool,
}

impl Sending {
    // The next put, in a journal whose superblock is this block. The last two are barriers.
    pub fn first(&self, journal: u32, made_with: &JournalSuper) -> Option<PlannedPut>
        requires { journal + self.now.place < 2 ^ 32 }
        ensures { (places : log.Ring) → option_map planned_of result ≡ first_planned (rest_of journal made_with.now places self.now) }
    {
        let left = self.pieces.len();
        if self.super_left {
            let tail = JournalSuper {
                sequence: self.sequence,
                start: self.place,
                ..*made_with
            };
            return Some(PlannedPut {
                note: Note::Super,
                block: journal,
                body: write_super(&tail),
                barrier: left <= 1,
            });
        }
        let piece = self.pieces.first()?;
        Some(PlannedPut {
            note: piece.note,
            block: journal + self.place,
            body: piece.body.copy(),
            barrier: left <= 2,
        })
    }

    // The next put was submitted.
    pub fn sent(&mut self, ring: &Ring)
        requires { IsPlace ring.now.ring.places self.old.place }
        ensures { self.new ≡ sent_one ring.now.ring.places self.old }
    {
        if self.super_left {
            self.super_left = false;
        } else {
            let _ = self.pieces.take_first();
            self.place = ring.next_place(self.place);
        }
    }
}
