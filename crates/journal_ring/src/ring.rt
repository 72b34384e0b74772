//! The ring of the log.
ghost use Rattle.std.specs.Prelude.{◌≡◌, ◌≢◌, ◌+◌, ◌^◌, ◌<◌, ◌≤◌, true, IfOk, length};
ghost use Rattle.std.specs.Option.{option_map};
ghost use Rattle.log_model.specs.Marks.{Logged};
ghost use Rattle.log_model.specs.Ring.{IsPlace, place_after};
ghost use Rattle.journal_blocks.specs.Super.{IsSound};
ghost use Rattle.journal_ring.specs.LogRing.{ring_free, place_blocks, commit_bodies, home_sent, all_home};
ghost use Rattle.journal_ring.specs.Journal.{made, with_ring, first_home, tail_at_head};

use crate::homes::{drop_homes, put_homes};
use crate::{Bodies, LoggedBody};
use blk_base::{Block, NoMemory};
use journal_blocks::JournalSuper;
use std::alloc::Global;
use std::collections::VecDeque;
use std::marker::Model;

/// Which places of the log are free, and which committed bodies are still to be sent home. No call but `make` takes
/// memory. A body is looked for by halves, and put in order without a move of its bytes.
#[derive(Drop)]
pub struct Ring {
    made_with: JournalSuper,
    limit: u64,
    committed: u32,
    head: u32,
    used: u32,
    started: bool,
    homes: VecDeque<LoggedBody>,
}

impl Model for Ring {
    ghost use Rattle.journal_ring.specs.Journal.{JournalRing};
    ghost use Rattle.journal_ring.specs.code.Fields.{IsRing};
    ghost use Rattle.std.specs.VecDeque.{deque_capacity};

    ghost Value = { JournalRing };

    ghost view = { λ r. record {
      made_with = r.made_with;
      limit = r.limit;
      committed = r.committed;
      ring = record {
        places = record { first = r.made_with.first; past = r.made_with.maxlen };
        head = r.head;
        used = r.used;
        started = r.started;
        homes = r.homes.items;
      };
    } };

    ghost invariant = { λ r. IsRing r.made_with r.limit (deque_capacity r.homes) r.head r.used r.homes.items };
}

impl Ring {
    /// The ring of an empty log. `limit` is how many bodies may wait to be sent home: no more than a session may submit
    /// requests, since each was submitted. Some sixteen bytes are reserved for each.
    pub fn make(alloc: Global, s: &JournalSuper, limit: u64) -> Result<Ring, NoMemory>
        requires sound { IsSound s.now }
        requires empty { s.now.start ≡ 0 }
        requires first { s.now.first ≡ 1 }
        requires few { limit < 2 ^ 32 }
        ensures { IfOk result (λ r. r ≡ made s.now limit) }
    {
        Ok(Ring {
            made_with: *s,
            limit,
            committed: 0,
            head: s.first,
            used: 0,
            started: false,
            homes: VecDeque::with_capacity(alloc, limit as usize)?,
        })
    }

    /// How many places are free.
    pub fn free(&self) -> u32
        ensures { result ≡ ring_free self.now.ring }
    {
        self.made_with.maxlen - self.made_with.first - self.used
    }

    /// Takes so many places, and gives the first of them. The others follow it round the ring.
    pub fn place(&mut self, blocks: u32) -> u32
        requires { blocks ≤ ring_free self.old.ring }
        ensures place { result ≡ self.old.ring.head }
        ensures ring { self.new ≡ with_ring self.old (place_blocks blocks self.old.ring) }
    {
        let place = self.head;
        let left = self.made_with.maxlen - place;
        self.head = if blocks < left {
            place + blocks
        } else {
            self.made_with.first + (blocks - left)
        };
        self.used += blocks;
        place
    }

    /// The place behind that one, round the ring.
    pub fn next_place(&self, place: u32) -> u32
        requires { IsPlace self.now.ring.places place }
        ensures { result ≡ place_after self.now.ring.places place }
    {
        let past = self.made_with.maxlen;
        if place < past - 1 {
            place + 1
        } else {
            self.made_with.first
        }
    }

    /// The commit block of transaction `tx` was submitted: first its revokes take waiting bodies away, then its bodies
    /// wait, each in place of an older one of its block.
    pub fn commit_bodies(&mut self, tx: u32, bodies: Bodies)
        requires { length self.old.ring.homes + length bodies.pairs.items ≤ self.old.limit }
        ensures { self.new ≡ record self.old { committed = tx; ring = commit_bodies bodies.revoked.items bodies.pairs.items self.old.ring } }
    {
        let Bodies { pairs, revoked } = bodies;
        drop_homes(&mut self.homes, &revoked);
        put_homes(&mut self.homes, pairs);
        self.committed = tx;
    }

    /// The last transaction whose commit block was told; 0 where none was.
    pub fn committed(&self) -> u32
        ensures { result ≡ self.now.committed }
    {
        self.committed
    }

    /// The lowest block whose body is to be sent home, with the body.
    pub fn next_home(&self) -> Option<(u32, Block)>
        ensures { result ≡ option_map (λ (l : Logged). (l.block, l.body)) (first_home self.now.ring) }
    {
        let home = self.homes.front()?;
        Some((home.block(), home.body().copy()))
    }

    /// How many bodies are still to be sent home.
    pub fn homes_left(&self) -> u32
        ensures { result ≡ length self.now.ring.homes }
    {
        self.homes.len() as u32
    }

    /// The body of `next_home` was sent.
    pub fn home_sent(&mut self)
        requires { length self.old.ring.homes ≢ 0 }
        ensures { self.new ≡ with_ring self.old (home_sent self.old.ring) }
    {
        let _ = self.homes.pop_front();
    }

    /// All bodies are home, and the log begins anew at the next place: all places are free. Gives the superblock that
    /// says so, for the transaction with this sequence.
    pub fn all_home(&mut self, sequence: u32) -> JournalSuper
        requires { length self.old.ring.homes ≡ 0 }
        ensures superblock { result ≡ tail_at_head self.old sequence }
        ensures ring { self.new ≡ with_ring self.old (all_home self.old.ring) }
    {
        self.used = 0;
        self.tail(sequence)
    }

    /// The superblock by which the log begins at the next place with this sequence.
    pub fn tail(&self, sequence: u32) -> JournalSuper
        ensures { result ≡ tail_at_head self.now sequence }
    {
        JournalSuper {
            sequence,
            start: self.head,
            ..self.made_with
        }
    }

    /// A superblock of this log was submitted.
    pub fn start(&mut self)
        ensures { self.new ≡ with_ring self.old (record self.old.ring { started = true }) }
    {
        self.started = true;
    }

    /// Whether a superblock of this log was submitted.
    pub fn has_started(&self) -> bool
        ensures { result ≡ self.now.ring.started }
    {
        self.started
    }

    /// The superblock that the ring was made from.
    pub fn made_with(&self) -> JournalSuper
        ensures { result ≡ self.now.made_with }
    {
        self.made_with
    }
}
