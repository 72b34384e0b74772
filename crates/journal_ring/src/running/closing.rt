//! How the log blocks of a transaction are built.
ghost use Rattle.std.specs.List.{All};
ghost use Rattle.std.specs.Prelude.{◌≡◌, ◌++◌, ◌<◌, ◌≤◌, ◌^◌, IfOk, length, map};
ghost use Rattle.log_model.specs.Marks.{Logged};
ghost use Rattle.journal_ring.specs.running.Closing.{writers, logged_of, written_tag};
ghost use Rattle.journal_ring.specs.running.Plan.{chunks, tag_of, revoke_block, body_block, described, all_described};

use crate::LoggedBody;
use crate::running::Pieces;
use blk_base::{BodySource, NoMemory};
use journal_blocks::{
    JournalSuper, Tag, escape, most_revokes, most_tags, write_descriptor, write_revoke,
};
use order_model::Note;
use std::alloc::Global;

/// The superblock of a journal, and the number and the sequence of a transaction.
#[derive(Clone, Copy)]
pub struct Stamp {
    pub made_with: JournalSuper,
    pub tx: u32,
    pub sequence: u32,
}

// The present bodies of these blocks.
pub fn logged<B: BodySource>(
    alloc: Global,
    blocks: &[u32],
    bodies: &B,
) -> Result<Vec<LoggedBody>, NoMemory>
    ensures { IfOk result (λ v. v.items ≡ logged_of (B.bodies bodies.now) blocks.now) }
{
    let mut logged = Vec::new(alloc);
    for block in blocks {
        logged.push(LoggedBody::make(alloc, *block, bodies.block_bytes(*block))?)?;
    }
    Ok(logged)
}

// Appends revoke blocks, each of as many numbers as it may have.
pub fn add_revokes(pieces: &mut Pieces, stamp: &Stamp, revoked: &[u32]) -> Result<(), NoMemory>
    ensures { IfOk result (λ u. pieces.new ≡
        pieces.old ++ map (revoke_block (writers stamp.now.made_with) stamp.now.tx stamp.now.sequence) (chunks (writers stamp.now.made_with).most_revokes revoked.now)) }
{
    let wide = stamp.made_with.is_wide();
    let most = most_revokes(wide);
    let mut rest = revoked;
    while !rest.is_empty() {
        let (front, behind) = rest.split_at(rest.len().min(most));
        pieces.push(
            Note::Revoke { tx: stamp.tx },
            write_revoke(stamp.sequence, front, wide),
        )?;
        rest = behind;
    }
    Ok(())
}

// Appends descriptors of as many tags as each may have, with its bodies behind it.
pub fn add_bodies(
    alloc: Global,
    pieces: &mut Pieces,
    stamp: &Stamp,
    bodies: &[LoggedBody],
) -> Result<(), NoMemory>
    ensures { IfOk result (λ u. pieces.new ≡
        pieces.old ++ all_described (writers stamp.now.made_with) stamp.now.tx stamp.now.sequence (chunks (writers stamp.now.made_with).most_tags bodies.now)) }
{
    let most = most_tags(stamp.made_with.is_wide());
    let mut rest = bodies;
    while !rest.is_empty() {
        let (front, behind) = rest.split_at(rest.len().min(most));
        describe(alloc, pieces, stamp, front)?;
        rest = behind;
    }
    Ok(())
}

// Appends a descriptor, and its bodies behind it.
fn describe(
    alloc: Global,
    pieces: &mut Pieces,
    stamp: &Stamp,
    bodies: &[LoggedBody],
) -> Result<(), NoMemory>
    requires some { 0 < length bodies.now }
    requires few { length bodies.now ≤ (writers stamp.now.made_with).most_tags }
    ensures { IfOk result (λ u. pieces.new ≡
        pieces.old ++ described (writers stamp.now.made_with) stamp.now.tx stamp.now.sequence bodies.now) }
{
    let tags = tags_of(alloc, stamp, bodies)?;
    pieces.push(
        Note::Descriptor { tx: stamp.tx },
        write_descriptor(stamp.sequence, &tags, stamp.made_with.is_wide()),
    )?;
    add_stored(pieces, stamp, bodies)
}

// The tags of a descriptor for these bodies.
fn tags_of(alloc: Global, stamp: &Stamp, bodies: &[LoggedBody]) -> Result<Vec<Tag>, NoMemory>
    ensures value { IfOk result (λ v. v.items ≡
        map written_tag (map (tag_of (writers stamp.now.made_with) stamp.now.tx stamp.now.sequence) bodies.now)) }
    ensures low { IfOk result (λ v. All (λ t. t.block < 2 ^ 32) v.items) }
{
    let mut tags = Vec::new(alloc);
    for body in bodies {
        let (_, escaped) = escape(body.body());
        tags.push(Tag {
            block: u64::from(body.block()),
            escaped,
        })?;
    }
    Ok(tags)
}

// Appends bodies as they are stored.
fn add_stored(pieces: &mut Pieces, stamp: &Stamp, bodies: &[LoggedBody]) -> Result<(), NoMemory>
    ensures { IfOk result (λ u. pieces.new ≡
        pieces.old ++ map (body_block (writers stamp.now.made_with) stamp.now.tx stamp.now.sequence) bodies.now) }
{
    for body in bodies {
        let (stored, _) = escape(body.body());
        pieces.push(
            Note::Body {
                tx: stamp.tx,
                block: body.block(),
            },
            stored,
        )?;
    }
    Ok(())
}
