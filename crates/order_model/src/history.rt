//! Lists that only grow, of what was taken, transferred, completed and accepted.
ghost use Rattle.std.specs.Prelude.{◌≡◌, ℕ, ◌+◌, ◌≤◌, ◌<◌, List, [], ◌∷◌, ◌++◌, length, IfOk, slice_get, Some, vec_capacity, vec_len, ◌==◌};
ghost use Rattle.std.specs.Option.{option_map};
ghost use Rattle.order_model.specs.Received.{all_parts, part_at, first_part};
ghost use Rattle.order_model.specs.code.Bodies.{IsThere};
ghost use Rattle.order_model.specs.code.Rows.{part_of, parts_kept, AreThere};

use crate::bodies::{KeptBody, body, keep};
use crate::{Command, Completion, Part, Priority};
use blk_base::{Block, NoMemory};
use std::alloc::Global;
use std::marker::Model;

/// A part that was transferred, by its place among all parts that the device took, and the epoch that it
/// belongs to.
#[derive(Clone, Copy, PartialEq, Eq, Debug)]
pub struct Transfer {
    pub epoch: u64,
    pub part: u64,
}

// What a command is besides its parts, and how many parts were taken up to its end.
#[derive(Clone, Copy, PartialEq, Eq, Debug)]
pub(crate) struct CommandEnd {
    pub(crate) end: usize,
    pub(crate) priority: Priority,
    pub(crate) barrier: bool,
    pub(crate) flush: Option<u64>,
}

/// A list that only grows, and whose room is reserved when it is made.
#[derive(Drop)]
pub struct History<T> {
    items: Vec<T>,
}

impl<T> Model for History<T> {
    ghost use Rattle.std.specs.Vec.{vec_capacity};
    ghost use Rattle.order_model.specs.History.{HistoryState};

    ghost Value = { HistoryState T };

    ghost view = { λ h. record { items = h.items.items; room = vec_capacity h.items } };
}

impl<T> History<T> {
    /// An empty list with room for so many items.
    pub fn make(alloc: Global, room: usize) -> Result<History<T>, NoMemory>
        ensures { IfOk result (λ h. h ≡ record { items = []; room = room }) }
    {
        Ok(History {
            items: Vec::with_capacity(alloc, room)?,
        })
    }

    pub fn push(&mut self, item: T)
        requires { length self.old.items < self.old.room }
        ensures { self.new ≡ record { items = self.old.items ++ item ∷ []; room = self.old.room } }
    {
        self.items.push_reserved(item);
    }

    pub fn as_slice(&self) -> &[T]
        ensures { result.now ≡ self.now.items }
    {
        &self.items
    }
}

pub type Transfers = History<Transfer>;

pub type Completions = History<Completion>;

// A part, with its body as it is kept.
#[derive(Clone, Copy, PartialEq, Eq, Debug)]
pub(crate) struct PartRow {
    pub(crate) id: u64,
    pub(crate) block: u32,
    pub(crate) body: KeptBody,
}

impl PartRow {
    // The part of a row, whose body is there.
    fn part(&self, stored: &[Block]) -> Part
        requires { IsThere (length stored.now) self.now.body }
        ensures { result ≡ part_of stored.now self.now }
    {
        Part {
            id: self.id,
            block: self.block,
            body: body(stored, self.body),
        }
    }
}

/// The commands that a device took, in order: one list of their parts, one of the bodies that are not full of one
/// byte, and one of their ends and flags.
#[derive(Drop)]
pub struct Commands {
    rows: Vec<PartRow>,
    stored: Vec<Block>,
    ends: Vec<CommandEnd>,
    room: usize,
}

impl Model for Commands {
    ghost use Rattle.order_model.specs.declared.command.Command.{Command};
    ghost use Rattle.order_model.specs.History.{HistoryState};
    ghost use Rattle.order_model.specs.code.Rows.{commands_kept, AreCommands};

    ghost Value = { HistoryState Command };

    ghost view = { commands_kept };

    ghost invariant = { AreCommands };
}

impl Commands {
    /// No command yet, with room for so many commands and so many parts.
    pub fn make(alloc: Global, room: usize) -> Result<Commands, NoMemory>
        ensures { IfOk result (λ c. c ≡ record { items = []; room = room }) }
    {
        Ok(Commands {
            rows: Vec::with_capacity(alloc, room)?,
            stored: Vec::with_capacity(alloc, room)?,
            ends: Vec::with_capacity(alloc, room)?,
            room,
        })
    }

    /// How many commands there are.
    pub fn len(&self) -> usize
        ensures { result ≡ length self.now.items }
    {
        self.ends.len()
    }

    pub fn is_empty(&self) -> bool
        ensures { result ≡ (length self.now.items == 0) }
    {
        self.ends.is_empty()
    }

    /// How many parts all commands have together.
    pub fn count_parts(&self) -> usize
        ensures { result ≡ length (all_parts self.now.items) }
    {
        self.rows.len()
    }

    /// The part at this place among those of all commands, in order.
    pub fn part(&self, place: usize) -> Option<Part>
        ensures { result ≡ part_at self.now.items place }
    {
        let row = self.rows.get(place)?;
        Some(row.part(&self.stored))
    }

    /// The id of the part at this place.
    pub fn part_id(&self, place: usize) -> Option<u64>
        ensures { result ≡ option_map (λ (p : Part). p.id) (part_at self.now.items place) }
    {
        let row = self.rows.get(place)?;
        Some(row.id)
    }

    /// How many parts stand before those of command `k`.
    pub fn first_part(&self, k: usize) -> usize
        requires { k ≤ length self.now.items }
        ensures { result ≡ first_part self.now.items k }
    {
        if k == 0 { 0 } else { self.ends[k - 1].end }
    }

    /// Appends a command. Its parts are copied, but for the bodies that are full of one byte.
    pub fn push(&mut self, c: &Command)
        requires commands { length self.old.items < self.old.room }
        requires parts { length (all_parts self.old.items) + length c.now.parts ≤ self.old.room }
        ensures { self.new ≡ record { items = self.old.items ++ c.now ∷ []; room = self.old.room } }
    {
        append_parts(&mut self.rows, &mut self.stored, c.parts.as_slice());
        self.ends.push_reserved(CommandEnd {
            end: self.rows.len(),
            priority: c.priority,
            barrier: c.barrier,
            flush: c.flush,
        });
    }
}

// Copies the parts behind those that are there.
fn append_parts(rows: &mut Vec<PartRow>, stored: &mut Vec<Block>, parts: &[Part])
    requires rows { vec_len rows.old + length parts.now ≤ vec_capacity rows.old }
    requires bodies { vec_len stored.old + length parts.now ≤ vec_capacity stored.old }
    requires there { AreThere (length stored.old.items) rows.old.items }
    ensures items { parts_kept stored.new.items rows.new.items ≡ parts_kept stored.old.items rows.old.items ++ parts.now }
    ensures there { AreThere (length stored.new.items) rows.new.items }
    ensures len { vec_len rows.new ≡ vec_len rows.old + length parts.now }
    ensures few { vec_len stored.new ≤ vec_len stored.old + length parts.now }
    ensures capacity { vec_capacity rows.new ≡ vec_capacity rows.old }
    ensures bodies { vec_capacity stored.new ≡ vec_capacity stored.old }
{
    for part in parts {
        let body = keep(stored, &part.body);
        rows.push_reserved(PartRow {
            id: part.id,
            block: part.block,
            body,
        });
    }
}

/// What a device took, transferred and sent, and how many steps it made.
#[derive(Drop)]
pub struct DeviceRecord {
    pub took: Commands,
    pub moved: Transfers,
    pub sent: Completions,
    pub steps: u64,
}
