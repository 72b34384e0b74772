//! What a recovery sends.
ghost use Rattle.std.specs.Prelude.{◌≡◌, ◌∷◌, ◌==◌, [], ◌<◌, ◌+◌, ◌^◌, length, IfSome, IfNone, vec_len};
ghost use Rattle.journal_replay.specs.Commands.{for_block, sends, write, flush};
ghost use Rattle.journal_replay.specs.code.Homes.{logged_of};

use crate::home::Home;
use blk_base::Block;
use order_model::{Command, Kind, Request};
use std::marker::Model;
use std::vec::IntoIter;

/// What a recovery has still to send: the homes, the superblock of an empty log and a flush. A body that was sent is not
/// held any longer.
#[derive(Drop)]
pub(crate) struct Plan {
    homes: IntoIter<Home>,
    count: usize,
    base: u32,
    superblock: Block,
    at: usize,
}

impl Model for Plan {
    ghost use Rattle.std.specs.Prelude.{◌≡◌, List, length, ◌≤◌, ◌<◌, ◌+◌, ◌-◌, ◌^◌};
    ghost use Rattle.std.specs.Vec.Iter.{into_iter_items, into_iter_len};
    ghost use Rattle.order_model.specs.declared.command.Command.{Command};
    ghost use Rattle.journal_replay.specs.Commands.{for_block};
    ghost use Rattle.journal_replay.specs.code.Homes.{logged_of};
    ghost use Rattle.journal_replay.specs.code.Plans.{left_of};

    ghost Value = { List Command };

    ghost view = { λ p. left_of p.count p.at (logged_of (into_iter_items p.homes)) (for_block p.base p.superblock) };

    ghost invariant = { λ p. (length (into_iter_items p.homes) ≡ p.count - p.at) × (into_iter_len p.homes ≡ p.count - p.at) × (p.at ≤ p.count + 2) × (p.count < 2 ^ 32) };
}

impl Plan {
    pub(crate) fn make(homes: Vec<Home>, base: u32, superblock: Block) -> Plan
        requires { vec_len homes < 2 ^ 32 }
        ensures { result ≡ sends (logged_of homes.items) (for_block base superblock) }
    {
        Plan {
            count: homes.len(),
            homes: homes.into_iter(),
            base,
            superblock,
            at: 0,
        }
    }

    /// The next command. None where all were taken.
    pub(crate) fn next(&mut self) -> Option<Command>
        ensures some { IfSome result (λ c. self.old ≡ c ∷ self.new) }
        ensures none { IfNone result ((self.old ≡ []) × (self.new ≡ [])) }
    {
        let at = self.at;
        if let Some(home) = self.homes.next() {
            self.at = at + 1;
            let last = self.homes.len() == 0;
            return Some(write(at as u64, home.block, home.body.into_block(), last));
        }
        if at == self.count {
            self.at = at + 1;
            return Some(write(at as u64, self.base, self.superblock.copy(), true));
        }
        if at == self.count + 1 {
            self.at = at + 1;
            return Some(flush(at as u64));
        }
        None
    }

    pub(crate) fn is_done(&self) -> bool
        ensures { result ≡ (length self.now == 0) }
    {
        self.at >= self.count + 2
    }
}

// A write of one part.
fn write(id: u64, block: u32, body: Block, last: bool) -> Command
    ensures { result ≡ write id (for_block block body) last }
{
    Command::of_request(
        Request {
            id,
            kind: Kind::Put { block, body },
            ordered: true,
            barrier: last,
        },
        last,
    )
}

// A flush.
fn flush(id: u64) -> Command
    ensures { result ≡ flush id }
{
    Command::of_request(
        Request {
            id,
            kind: Kind::Flush,
            ordered: true,
            barrier: true,
        },
        true,
    )
}
