//! What a change of a volume touched.
ghost use Rattle.std.specs.Prelude.{◌≡◌, ◌≢◌, IfOk};
ghost use Rattle.volume_in_use.specs.now.Noted.{nothing, with_block, with_freed, with_revoked, with_page, with_dropped, with_node};

use blk_base::NoMemory;
use std::alloc::Global;
use std::marker::Model;

/// A block of a file: the file's birth, the block's index in it, and its zone.
#[derive(Clone, Copy, Debug, PartialEq, Eq)]
pub struct Page {
    pub birth: u64,
    pub index: u32,
    pub zone: u16,
}

impl Model for Page {
    ghost use Rattle.volume_model.specs.Touched as touched;

    ghost Value = { touched.Page };

    ghost view = { λ p. record { birth = p.birth; index = p.index; zone = p.zone } };

    ghost inverse = { λ p. record { birth = p.birth; index = p.index; zone = p.zone } };
}

/// What was touched, in the order of the writes: metadata blocks that were written, freed zones, those of them that were
/// metadata, file blocks that were written, those that are mapped no longer, and nodes whose size, zones or slots changed.
/// Contracts see of it besides for how many notes there is room.
#[derive(Drop)]
pub struct Touched {
    spare: usize,
    blocks: Vec<u32>,
    freed: Vec<u16>,
    revoked: Vec<u16>,
    pages: Vec<Page>,
    dropped: Vec<Page>,
    nodes: Vec<u64>,
}

impl Model for Touched {
    ghost use Rattle.std.specs.Prelude.{◌≤◌, ◌+◌, length, vec_capacity};
    ghost use Rattle.volume_in_use.specs.now.Noted.{Noted};

    ghost Value = { Noted };

    ghost view = { λ t. record {
      spare = t.spare;
      touched = record {
        blocks = t.blocks.items;
        freed = t.freed.items;
        revoked = t.revoked.items;
        pages = t.pages.items;
        dropped = t.dropped.items;
        nodes = t.nodes.items;
      };
    } };

    ghost invariant = { λ t.
        (length t.blocks.items + t.spare ≤ vec_capacity t.blocks)
        × (length t.freed.items + t.spare ≤ vec_capacity t.freed)
        × (length t.revoked.items + t.spare ≤ vec_capacity t.revoked)
        × (length t.pages.items + t.spare ≤ vec_capacity t.pages)
        × (length t.dropped.items + t.spare ≤ vec_capacity t.dropped)
        × (length t.nodes.items + t.spare ≤ vec_capacity t.nodes) };
}

impl Touched {
    /// Nothing yet, with room for so many notes of any kind: each of the next six calls takes one, and no memory.
    pub fn with_room(alloc: Global, room: usize) -> Result<Touched, NoMemory>
        ensures { IfOk result (λ t. t ≡ nothing room) }
    {
        Ok(Touched {
            spare: room,
            blocks: Vec::with_capacity(alloc, room)?,
            freed: Vec::with_capacity(alloc, room)?,
            revoked: Vec::with_capacity(alloc, room)?,
            pages: Vec::with_capacity(alloc, room)?,
            dropped: Vec::with_capacity(alloc, room)?,
            nodes: Vec::with_capacity(alloc, room)?,
        })
    }

    /// A metadata block was written.
    pub fn note_block(&mut self, block: u32)
        requires { self.old.spare ≢ 0 }
        ensures { self.new ≡ with_block self.old block }
    {
        self.blocks.push_reserved(block);
        self.spare -= 1;
    }

    /// A zone was freed.
    pub fn note_freed(&mut self, zone: u16)
        requires { self.old.spare ≢ 0 }
        ensures { self.new ≡ with_freed self.old zone }
    {
        self.freed.push_reserved(zone);
        self.spare -= 1;
    }

    /// A freed zone was metadata.
    pub fn note_revoked(&mut self, zone: u16)
        requires { self.old.spare ≢ 0 }
        ensures { self.new ≡ with_revoked self.old zone }
    {
        self.revoked.push_reserved(zone);
        self.spare -= 1;
    }

    /// A block of a file was written.
    pub fn note_page(&mut self, page: Page)
        requires { self.old.spare ≢ 0 }
        ensures { self.new ≡ with_page self.old page }
    {
        self.pages.push_reserved(page);
        self.spare -= 1;
    }

    /// A block of a file is mapped no longer.
    pub fn note_dropped(&mut self, page: Page)
        requires { self.old.spare ≢ 0 }
        ensures { self.new ≡ with_dropped self.old page }
    {
        self.dropped.push_reserved(page);
        self.spare -= 1;
    }

    /// A node's size, zones or slots changed.
    pub fn note_node(&mut self, birth: u64)
        requires { self.old.spare ≢ 0 }
        ensures { self.new ≡ with_node self.old birth }
    {
        self.nodes.push_reserved(birth);
        self.spare -= 1;
    }

    /// The metadata blocks that were written; one may stand more than once.
    pub fn blocks(&self) -> &[u32]
        ensures { result.now ≡ self.now.touched.blocks }
    {
        &self.blocks
    }

    /// The zones that were freed.
    pub fn freed(&self) -> &[u16]
        ensures { result.now ≡ self.now.touched.freed }
    {
        &self.freed
    }

    /// The freed zones that were metadata.
    pub fn revoked(&self) -> &[u16]
        ensures { result.now ≡ self.now.touched.revoked }
    {
        &self.revoked
    }

    /// The blocks of files that were written.
    pub fn pages(&self) -> &[Page]
        ensures { result.now ≡ self.now.touched.pages }
    {
        &self.pages
    }

    /// The blocks of files that are mapped no longer.
    pub fn dropped(&self) -> &[Page]
        ensures { result.now ≡ self.now.touched.dropped }
    {
        &self.dropped
    }

    /// The births of the nodes whose size, zones or slots changed.
    pub fn nodes(&self) -> &[u64]
        ensures { result.now ≡ self.now.touched.nodes }
    {
        &self.nodes
    }
}
