//! How the bodies of pages are kept: one whose bytes are all equal as that byte, and each other in a slot.
ghost use Rattle.std.specs.Prelude.{◌≡◌};
ghost use Rattle.slab.specs.Slab.{HasRoomFor};
ghost use Rattle.page_cache.specs.code.Store.{body_of, slot_in, IsThere, IsKept, IsReleased};

use blk_base::Block;
use slab::Slab;

// A body that is kept: full of one byte, or in this slot.
#[derive(Clone, Copy, PartialEq, Eq, Debug)]
pub enum PageBody {
    Full(u8),
    Slot(usize),
}

// Keeps a body. It takes a slot that is free, unless it is full of one byte.
pub fn keep(bodies: &mut Slab<Block>, body: Block) -> PageBody
    requires { HasRoomFor bodies.old 1 }
    ensures body { body_of bodies.new result ≡ body }
    ensures kept { IsKept bodies.old bodies.new (slot_in result) }
    ensures capacity { bodies.new.capacity ≡ bodies.old.capacity }
{
    match body.fill_byte() {
        Some(v) => PageBody::Full(v),
        None => PageBody::Slot(bodies.insert_reserved(body)),
    }
}

// A body is kept no longer, and its slot is free.
pub fn release(bodies: &mut Slab<Block>, kept: PageBody)
    requires { IsThere bodies.old (slot_in kept) }
    ensures released { IsReleased bodies.old bodies.new (slot_in kept) }
    ensures capacity { bodies.new.capacity ≡ bodies.old.capacity }
{
    if let PageBody::Slot(slot) = kept {
        bodies.remove(slot);
    }
}

// The body again.
pub fn body(bodies: &Slab<Block>, kept: PageBody) -> Block
    requires { IsThere bodies.now (slot_in kept) }
    ensures { result ≡ body_of bodies.now kept }
{
    match kept {
        PageBody::Full(v) => Block::fill(v),
        PageBody::Slot(slot) => bodies[slot].copy(),
    }
}
