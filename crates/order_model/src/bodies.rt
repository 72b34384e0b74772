//! How histories keep the bodies of blocks: one that is full of one byte as that byte.
ghost use Rattle.std.specs.Prelude.{◌≡◌, ℕ, ◌+◌, ◌≤◌, ◌<◌, ◌++◌, List, length, vec_len};
ghost use Rattle.std.specs.Vec.{vec_capacity};
ghost use Rattle.order_model.specs.code.Bodies.{body_of, IsThere};

use blk_base::Block;

// A body that is kept: full of one byte, or at a place among those that are stored.
#[derive(Clone, Copy, PartialEq, Eq, Debug)]
pub(crate) enum KeptBody {
    Full(u8),
    Stored(usize),
}

// Keeps a body. It is stored behind the others, unless it is full of one byte.
pub(crate) fn keep(stored: &mut Vec<Block>, body: &Block) -> KeptBody
    requires room { vec_len stored.old < vec_capacity stored.old }
    ensures body { body_of stored.new.items result ≡ body.now }
    ensures there { IsThere (length stored.new.items) result }
    ensures behind { (more : List (List ℕ)) × (stored.new.items ≡ stored.old.items ++ more) }
    ensures len { vec_len stored.new ≤ vec_len stored.old + 1 }
    ensures capacity { vec_capacity stored.new ≡ vec_capacity stored.old }
{
    if let Some(v) = body.fill_byte() {
        return KeptBody::Full(v);
    }
    let place = stored.len();
    stored.push_reserved(body.copy());
    KeptBody::Stored(place)
}

// The body again.
pub(crate) fn body(stored: &[Block], kept: KeptBody) -> Block
    requires { IsThere (length stored.now) kept }
    ensures { result ≡ body_of stored.now kept }
{
    match kept {
        KeptBody::Full(v) => Block::fill(v),
        KeptBody::Stored(place) => stored[place].copy(),
    }
}
