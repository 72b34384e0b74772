//! Scripts as plain values.
ghost use Rattle.std.specs.Prelude.{◌≡◌, ℕ, List, [], ◌∷◌, ◌+◌, ◌^◌, ◌<◌, ◌++◌, length, IfOk, IfSome, OnOk, OnErr, slice_get, take, ◌==◌};

use blk_base::{Block, NoMemory};
use order_model::{Kind, Request};
use std::alloc::{AllocError, Global};
use std::marker::Model;

/// What kind of script it is, by its first line.
#[derive(Clone, Copy, PartialEq, Eq, Debug)]
pub enum Form {
    /// So many blocks of zeros, and requests go straight to the device.
    Device(u32),
    /// So many blocks of zeros, and the scheduler stands between.
    Blocks(u32),
}

/// The values of the header lines, with their defaults.
#[derive(Clone, Copy, PartialEq, Eq, Debug)]
pub struct Header {
    /// How many commands may wait in the device.
    pub depth: u32,
    /// How many items each queue between two parts of the stack holds.
    pub queue: u32,
    /// The transfer with this number fails, counted from 1.
    pub fail: Option<u64>,
    /// The device is off after so many steps.
    pub cut: Option<u64>,
    /// The scheduler is the elevator.
    pub elevator: bool,
    /// The device is a flash log of so many segments.
    pub flash: Option<u32>,
}

/// One step of one part of the stack.
#[derive(Clone, Copy, PartialEq, Eq, Debug)]
pub enum CoreEvent {
    /// The next request goes into the submission queue, unless it is full.
    Submit,
    /// The scheduler takes a request from the submission queue, where it can accept one.
    Accept,
    /// The scheduler sends the command that it keeps, or else the one at this place of its eligible list.
    /// A command that finds the dispatch queue full is kept.
    Dispatch(u32),
    /// The device takes the next command, where it has room.
    Receive,
    /// The device moves the command at this place of its eligible list into its cache.
    Transfer(u32),
    /// The device writes the entry at this place of its eligible list to the medium.
    Persist(u32),
}

/// What an event line says.
#[derive(Clone, Copy, PartialEq, Eq, Debug)]
pub enum EventWord {
    One(CoreEvent),
}

/// An event line, and how often it is done.
#[derive(Clone, Copy, PartialEq, Eq, Debug)]
pub struct EventLine {
    pub what: EventWord,
    pub count: u32,
}

/// What a line asks for: a block that is filled with one byte, or a flush.
#[derive(Clone, Copy, PartialEq, Eq, Debug)]
pub(crate) enum Asked {
    Put(u32, u8),
    Flush,
}

/// A request as a line says it. It has 24 bytes, the request itself a whole block.
#[derive(Clone, Copy, PartialEq, Eq, Debug)]
pub(crate) struct Row {
    pub(crate) id: u64,
    pub(crate) asked: Asked,
    pub(crate) ordered: bool,
    pub(crate) barrier: bool,
}

impl Row {
    ghost use Rattle.script_grammar.specs.code.Rows.{request_of};

    fn request(&self) -> Request
        ensures { result ≡ request_of self.now }
    {
        let kind = match self.asked {
            Asked::Put(block, value) => Kind::Put {
                block,
                body: Block::fill(value),
            },
            Asked::Flush => Kind::Flush,
        };
        Request {
            id: self.id,
            kind,
            ordered: self.ordered,
            barrier: self.barrier,
        }
    }
}

/// Requests in order of their ids. Each is kept as its line says it, and made where it is asked for.
#[derive(Drop)]
pub struct RequestList {
    rows: Vec<Row>,
}

impl Model for RequestList {
    ghost use Rattle.std.specs.Prelude.{List, map};
    ghost use Rattle.order_model.specs.declared.request.Request.{Request};
    ghost use Rattle.script_grammar.specs.code.Rows.{request_of};

    ghost Value = { List Request };

    ghost view = { λ r. map request_of r.rows.items };
}

impl RequestList {
    ghost use Rattle.std.specs.Prelude.{map};
    ghost use Rattle.script_grammar.specs.code.Rows.{request_of};

    pub fn new(alloc: Global) -> RequestList
        ensures { result ≡ [] }
    {
        RequestList {
            rows: Vec::new(alloc),
        }
    }

    pub(crate) fn push(&mut self, row: Row) -> Result<(), NoMemory>
        ensures pushed { OnOk result (self.new ≡ self.old ++ request_of row ∷ []) }
        ensures kept { OnErr result (self.new ≡ self.old) }
    {
        self.rows.push(row)?;
        Ok(())
    }

    pub fn len(&self) -> usize
        ensures { result ≡ length self.now }
    {
        self.rows.len()
    }

    pub fn is_empty(&self) -> bool
        ensures { result ≡ (length self.now == 0) }
    {
        self.rows.is_empty()
    }

    /// The request at this place.
    pub fn get(&self, at: usize) -> Option<Request>
        ensures value { result ≡ slice_get self.now at }
        ensures within { IfSome result (λ _. at + 1 < 2 ^ 64) }
    {
        let row = self.rows.get(at)?;
        Some(row.request())
    }

    /// The first requests, so many of them.
    #[tactic(auto, using(crate::proofs::Requests::front_requests))]
    pub fn copy_front(&self, alloc: Global, count: usize) -> Result<RequestList, NoMemory>
        ensures { IfOk result (λ r. r ≡ take count self.now) }
    {
        Ok(RequestList {
            rows: front_of(alloc, &self.rows, count)?,
        })
    }

    pub fn copy(&self, alloc: Global) -> Result<RequestList, NoMemory>
        ensures { IfOk result (λ r. r ≡ self.now) }
    {
        Ok(RequestList {
            rows: Vec::from_slice(alloc, &self.rows)?,
        })
    }
}

fn front_of(alloc: Global, rows: &[Row], count: usize) -> Result<Vec<Row>, NoMemory>
    ensures { IfOk result (λ v. v.items ≡ take count rows.now) }
{
    Ok(Vec::from_slice(alloc, &rows[..count.min(rows.len())])?)
}

/// Event lines in order.
#[derive(Drop)]
pub struct Events {
    items: Vec<EventLine>,
}

impl Model for Events {
    ghost use Rattle.std.specs.Prelude.{List};
    ghost use Rattle.script_grammar.specs.declared.script.EventLine.{EventLine};

    ghost Value = { List EventLine };

    ghost view = { λ e. e.items.items };
}

impl Events {
    pub fn new(alloc: Global) -> Events
        ensures { result ≡ [] }
    {
        Events {
            items: Vec::new(alloc),
        }
    }

    pub fn push(&mut self, line: EventLine) -> Result<(), NoMemory>
        ensures pushed { OnOk result (self.new ≡ self.old ++ line ∷ []) }
        ensures kept { OnErr result (self.new ≡ self.old) }
    {
        self.items.push(line)?;
        Ok(())
    }

    pub fn as_slice(&self) -> &[EventLine]
        ensures { result.now ≡ self.now }
    {
        &self.items
    }

    pub fn copy(&self, alloc: Global) -> Result<Events, NoMemory>
        ensures { IfOk result (λ e. e ≡ self.now) }
    {
        Ok(Events {
            items: Vec::from_slice(alloc, &self.items)?,
        })
    }
}

/// A script, as it was read.
#[derive(Drop)]
pub struct Script {
    pub kind: Form,
    pub header: Header,
    pub puts: RequestList,
    pub events: Events,
}

impl Script {
    ghost use Rattle.script_grammar.specs.Grammar.{blocks_of};

    /// How many blocks its medium has.
    pub fn blocks(&self) -> u32
        ensures { result ≡ blocks_of self.now }
    {
        match self.kind {
            Form::Device(blocks) | Form::Blocks(blocks) => blocks,
        }
    }

    pub fn copy(&self, alloc: Global) -> Result<Script, NoMemory>
        ensures { IfOk result (λ s. s ≡ self.now) }
    {
        Ok(Script {
            kind: self.kind,
            header: self.header,
            puts: self.puts.copy(alloc)?,
            events: self.events.copy(alloc)?,
        })
    }
}
