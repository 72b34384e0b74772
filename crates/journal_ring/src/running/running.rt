//! The running transaction.
ghost use Rattle.std.specs.Prelude.{◌≡◌, ◌≢◌, ◌+◌, ◌<◌, ◌^◌, true, IfOk, OnErr, slice_get};
ghost use Rattle.journal_blocks.specs.Super.{IsSound};
ghost use Rattle.number_sets.specs.Sets.{IsRising};
ghost use Rattle.journal_ring.specs.running.Closing.{writers, logged_of, unplaced_blocks};
ghost use Rattle.journal_ring.specs.running.Open.{made, reserved, noted, with_running, quota, sequence_of};
ghost use Rattle.journal_ring.specs.running.Running.{fresh, log_blocks_for, log_needs, fits_in, touched_one, revoked_one, changed_one, wanted_one};

use crate::Bodies;
use crate::running::Pieces;
use crate::running::closing::{Stamp, add_bodies, add_revokes, logged};
use blk_base::{BodySource, NoMemory};
use journal_blocks::{JournalSuper, most_revokes, most_tags, write_commit};
use number_sets::{add_u32, add_u64, take_u32};
use order_model::Note;
use std::alloc::Global;
use std::marker::Model;

/// What is to be submitted of a closed transaction: its sequence, its log blocks, its bodies and revokes for the ring,
/// and the births of the nodes that it changed.
#[derive(Drop)]
pub struct Plan {
    pub sequence: u32,
    pub pieces: Pieces,
    pub homes: Bodies,
    pub changed: Vec<u64>,
}

/// The transaction that calls change. Only `reserve` and `close` take memory; a note looks for its number by halves, and
/// moves those that are higher.
#[derive(Drop)]
pub struct Running {
    made_with: JournalSuper,
    number: u64,
    spare: u32,
    touched: Vec<u32>,
    revoked: Vec<u32>,
    changed: Vec<u64>,
    wanted: bool,
}

impl Model for Running {
    ghost use Rattle.std.specs.Prelude.{vec_capacity};
    ghost use Rattle.journal_ring.specs.running.Open.{OpenTransaction};
    ghost use Rattle.journal_ring.specs.running.code.Fields.{IsRunning};

    ghost Value = { OpenTransaction };

    ghost view = { λ r. record {
      made_with = r.made_with;
      spare = r.spare;
      running = record {
        number = r.number;
        touched = r.touched.items;
        revoked = r.revoked.items;
        changed = r.changed.items;
        wanted = r.wanted;
      };
    } };

    ghost invariant = { λ r. IsRunning r.made_with r.number r.spare r.touched.items r.revoked.items r.changed.items
        (vec_capacity r.touched) (vec_capacity r.revoked) (vec_capacity r.changed) };
}

impl Running {
    /// Transaction 1 of an empty log.
    pub fn make(alloc: Global, s: &JournalSuper) -> Result<Running, NoMemory>
        requires sound { IsSound s.now }
        requires empty { s.now.start ≡ 0 }
        requires first { s.now.first ≡ 1 }
        ensures { IfOk result (λ r. r ≡ made s.now) }
    {
        Ok(Running {
            made_with: *s,
            number: 1,
            spare: 0,
            touched: Vec::new(alloc),
            revoked: Vec::new(alloc),
            changed: Vec::new(alloc),
            wanted: false,
        })
    }

    /// Makes room for at least `more` notes.
    pub fn reserve(&mut self, _alloc: Global, more: u32) -> Result<(), NoMemory>
        ensures ok { IfOk result (λ u. self.new ≡ reserved more self.old) }
        ensures err { OnErr result (self.new ≡ self.old) }
    {
        if more <= self.spare {
            return Ok(());
        }
        self.touched.reserve(more as usize)?;
        self.revoked.reserve(more as usize)?;
        self.changed.reserve(more as usize)?;
        self.spare = more;
        Ok(())
    }

    /// For how many notes there is room: each of the next three calls takes one.
    pub fn spare(&self) -> u32
        ensures { result ≡ self.now.spare }
    {
        self.spare
    }

    /// A call changed a block: its body is to be logged.
    pub fn touch(&mut self, block: u32)
        requires { self.old.spare ≢ 0 }
        ensures { self.new ≡ noted (touched_one block self.old.running) self.old }
    {
        add_u32(&mut self.touched, block);
        self.spare -= 1;
    }

    /// A call freed a block of metadata: it is revoked, and no body of it is logged.
    pub fn revoke(&mut self, block: u32)
        requires { self.old.spare ≢ 0 }
        ensures { self.new ≡ noted (revoked_one block self.old.running) self.old }
    {
        take_u32(&mut self.touched, block);
        add_u32(&mut self.revoked, block);
        self.spare -= 1;
    }

    /// A call changed the size, the zones or the slots of the node with this birth.
    pub fn change(&mut self, birth: u64)
        requires { self.old.spare ≢ 0 }
        ensures { self.new ≡ noted (changed_one birth self.old.running) self.old }
    {
        add_u64(&mut self.changed, birth);
        self.spare -= 1;
    }

    /// Somebody wants it closed.
    pub fn want(&mut self)
        ensures { self.new ≡ with_running self.old (wanted_one self.old.running) }
    {
        self.wanted = true;
    }

    pub fn is_wanted(&self) -> bool
        ensures { result ≡ self.now.running.wanted }
    {
        self.wanted
    }

    pub fn number(&self) -> u64
        ensures { result ≡ self.now.running.number }
    {
        self.number
    }

    /// How many log blocks it has.
    pub fn needs(&self) -> u64
        ensures { result ≡ log_needs (writers self.now.made_with) self.now.running }
    {
        log_blocks_for(
            &self.made_with,
            self.touched.len() as u64,
            self.revoked.len() as u64,
        )
    }

    /// Whether it has room for one call more, in a volume whose zone bitmap has so many blocks.
    pub fn fits(&self, zmap: u16) -> bool
        ensures { result ≡ fits_in (writers self.now.made_with) zmap (quota self.now.made_with) self.now.running }
    {
        let bodies = self.touched.len() as u64 + u64::from(zmap) + 12;
        let revokes = self.revoked.len() as u64 + 520;
        log_blocks_for(&self.made_with, bodies, revokes)
            <= u64::from((self.made_with.maxlen - 1) / 4)
    }

    /// The births of the nodes that it changed, from the lowest on.
    pub fn changed(&self, at: u32) -> Option<u64>
        ensures { result ≡ slice_get self.now.running.changed at }
    {
        self.changed.get(at as usize).copied()
    }

    /// The births of all nodes that it changed.
    pub fn changed_births(&self) -> &[u64]
        ensures births { result.now ≡ self.now.running.changed }
        ensures rising { IsRising result.now }
    {
        &self.changed
    }

    /// Closes it: its log blocks are built, with the present bodies of `bodies`, and the next transaction runs.
    pub fn close<B: BodySource>(&mut self, alloc: Global, bodies: &B) -> Result<Plan, NoMemory>
        requires { self.old.made_with.sequence + self.old.running.number < 2 ^ 32 }
        ensures sequence { IfOk result (λ p. p.sequence ≡ sequence_of self.old.made_with self.old.running.number) }
        ensures pieces { IfOk result (λ p. p.pieces ≡ unplaced_blocks (writers self.old.made_with) self.old.running.number
            (sequence_of self.old.made_with self.old.running.number) (logged_of (B.bodies bodies.now) self.old.running.touched) self.old.running.revoked) }
        ensures bodies { IfOk result (λ p. p.homes.pairs.items ≡ logged_of (B.bodies bodies.now) self.old.running.touched) }
        ensures revoked { IfOk result (λ p. p.homes.revoked.items ≡ self.old.running.revoked) }
        ensures changed { IfOk result (λ p. p.changed.items ≡ self.old.running.changed) }
        ensures next { IfOk result (λ p. self.new ≡ with_running self.old (fresh (self.old.running.number + 1))) }
        ensures err { OnErr result (self.new ≡ self.old) }
    {
        let tx = self.number as u32;
        let stamp = Stamp {
            made_with: self.made_with,
            tx,
            sequence: self.made_with.sequence + (tx - 1),
        };
        let homes = Bodies {
            pairs: logged(alloc, &self.touched, bodies)?,
            revoked: Vec::from_slice(alloc, &self.revoked)?,
        };
        let pieces = pieces_of(alloc, &stamp, &homes)?;
        let changed = Vec::from_slice(alloc, &self.changed)?;
        self.begin_next();
        Ok(Plan {
            sequence: stamp.sequence,
            pieces,
            homes,
            changed,
        })
    }

    // The next transaction runs.
    fn begin_next(&mut self)
        requires { self.old.running.number < 2 ^ 32 }
        ensures { self.new ≡ with_running self.old (fresh (self.old.running.number + 1)) }
    {
        self.touched.clear();
        self.revoked.clear();
        self.changed.clear();
        self.wanted = false;
        self.number += 1;
    }
}

// The log blocks of a transaction.
fn pieces_of(alloc: Global, stamp: &Stamp, homes: &Bodies) -> Result<Pieces, NoMemory>
    ensures { IfOk result (λ p. p ≡ unplaced_blocks (writers stamp.now.made_with) stamp.now.tx stamp.now.sequence homes.now.pairs.items homes.now.revoked.items) }
{
    let mut pieces = Pieces::new(alloc);
    add_revokes(&mut pieces, stamp, &homes.revoked)?;
    add_bodies(alloc, &mut pieces, stamp, &homes.pairs)?;
    pieces.push(Note::Commit { tx: stamp.tx }, write_commit(stamp.sequence))?;
    Ok(pieces)
}

// How many log blocks so many bodies and revokes need in this journal.
fn log_blocks_for(s: &JournalSuper, bodies: u64, revokes: u64) -> u64
    requires bodies { bodies < 2 ^ 63 + 2 ^ 17 }
    requires revokes { revokes < 2 ^ 63 + 2 ^ 17 }
    ensures { result ≡ log_blocks_for (writers s.now) bodies revokes }
{
    let wide = s.is_wide();
    let revoke_blocks = revokes.div_ceil(most_revokes(wide) as u64);
    let descriptors = bodies.div_ceil(most_tags(wide) as u64);
    revoke_blocks + descriptors + bodies + 1
}
