//! Lists of calls, as threads of a script have them, and the lines that said them.
ghost use Rattle.std.specs.Prelude.{◌≡◌, ◌<◌, [], ◌∷◌, ◌++◌, length, IfOk, OnOk};
ghost use Rattle.line_grammar.specs.calls.Programs.{pushed_last, last_length};

use blk_base::NoMemory;
use std::alloc::Global;
use std::marker::Model;
use tree_model::{ByteList, Call};

/// The calls of one thread, in order.
#[derive(Drop, Debug)]
pub struct Program {
    calls: Vec<Call>,
}

impl Model for Program {
    ghost use Rattle.std.specs.Prelude.{List};
    ghost use Rattle.tree_model.specs.declared.call.Call.{Call};

    ghost Value = { List Call };

    ghost view = { λ p. p.calls.items };
}

impl Program {
    /// No calls. It takes no memory.
    pub fn new(alloc: Global) -> Program
        ensures { result ≡ [] }
    {
        Program {
            calls: Vec::new(alloc),
        }
    }

    /// Puts a call behind the others.
    pub fn push(&mut self, call: Call) -> Result<(), NoMemory>
        ensures { OnOk result (self.new ≡ self.old ++ call ∷ []) }
    {
        match self.calls.push(call) {
            Ok(()) => Ok(()),
            Err(_) => Err(NoMemory),
        }
    }

    /// The calls in order.
    pub fn as_slice(&self) -> &[Call]
        ensures { result.now ≡ self.now }
    {
        &self.calls
    }

    /// The same calls again.
    pub fn copy(&self, alloc: Global) -> Result<Program, NoMemory>
        ensures { IfOk result (λ p. p ≡ self.now) }
    {
        let mut copy = Program::new(alloc);
        for call in &self.calls {
            copy.push(copy_call(alloc, call)?)?;
        }
        Ok(copy)
    }
}

/// The calls of threads, in the order of their numbers.
#[derive(Drop, Debug)]
pub struct Programs {
    threads: Vec<Program>,
}

impl Model for Programs {
    ghost use Rattle.std.specs.Prelude.{List};
    ghost use Rattle.tree_model.specs.declared.call.Call.{Call};

    ghost Value = { List (List Call) };

    ghost view = { λ p. p.threads.items };
}

impl Programs {
    /// No threads. It takes no memory.
    pub fn new(alloc: Global) -> Programs
        ensures { result ≡ [] }
    {
        Programs {
            threads: Vec::new(alloc),
        }
    }

    /// Puts a thread behind the others.
    pub fn push(&mut self, thread: Program) -> Result<(), NoMemory>
        ensures { OnOk result (self.new ≡ self.old ++ thread ∷ []) }
    {
        match self.threads.push(thread) {
            Ok(()) => Ok(()),
            Err(_) => Err(NoMemory),
        }
    }

    /// Puts a call behind those of the last thread.
    pub fn push_call(&mut self, call: Call) -> Result<(), NoMemory>
        requires { 0 < length self.old }
        ensures { OnOk result (self.new ≡ pushed_last self.old call) }
    {
        let last = self.threads.len() - 1;
        self.threads[last].push(call)
    }

    /// How many calls the last thread has.
    pub fn last_len(&self) -> usize
        ensures { result ≡ last_length self.now }
    {
        match self.threads.last() {
            Some(thread) => thread.as_slice().len(),
            None => 0,
        }
    }

    /// How many threads there are.
    pub fn len(&self) -> usize
        ensures { result ≡ length self.now }
    {
        self.threads.len()
    }

    /// The threads in order.
    pub fn as_slice(&self) -> &[Program]
        ensures { result.now ≡ self.now }
    {
        &self.threads
    }

    /// The same threads again.
    pub fn copy(&self, alloc: Global) -> Result<Programs, NoMemory>
        ensures { IfOk result (λ p. p ≡ self.now) }
    {
        let mut copy = Programs::new(alloc);
        for thread in &self.threads {
            copy.push(thread.copy(alloc)?)?;
        }
        Ok(copy)
    }
}

/// The same call again.
pub fn copy_call(alloc: Global, call: &Call) -> Result<Call, NoMemory>
    ensures { IfOk result (λ c. c ≡ call.now) }
{
    let copy = match call {
        Call::Mkdir(path) => Call::Mkdir(path.copy(alloc)?),
        Call::Rmdir(path) => Call::Rmdir(path.copy(alloc)?),
        Call::Create(path) => Call::Create(path.copy(alloc)?),
        Call::Unlink(path) => Call::Unlink(path.copy(alloc)?),
        Call::Link(path, other) => Call::Link(path.copy(alloc)?, other.copy(alloc)?),
        Call::Rename(path, other) => Call::Rename(path.copy(alloc)?, other.copy(alloc)?),
        Call::Truncate(path, size) => Call::Truncate(path.copy(alloc)?, *size),
        Call::Write {
            path,
            off,
            len,
            value,
        } => Call::Write {
            path: path.copy(alloc)?,
            off: *off,
            len: *len,
            value: *value,
        },
        Call::Bytes { path, off, bytes } => Call::Bytes {
            path: path.copy(alloc)?,
            off: *off,
            bytes: bytes.copy(alloc)?,
        },
        Call::Read { path, off, len } => Call::Read {
            path: path.copy(alloc)?,
            off: *off,
            len: *len,
        },
        Call::List(path) => Call::List(path.copy(alloc)?),
        Call::Stat(path) => Call::Stat(path.copy(alloc)?),
        Call::Fsync(path) => Call::Fsync(path.copy(alloc)?),
        Call::Fdatasync(path) => Call::Fdatasync(path.copy(alloc)?),
        Call::Fbarrier(path) => Call::Fbarrier(path.copy(alloc)?),
        Call::Fdatabarrier(path) => Call::Fdatabarrier(path.copy(alloc)?),
        Call::Sync => Call::Sync,
    };
    Ok(copy)
}

/// Lines as bytes, one for each call.
#[derive(Drop, Debug)]
pub struct LineList {
    lines: Vec<ByteList>,
}

impl Model for LineList {
    ghost use Rattle.std.specs.Prelude.{List, ℕ};

    ghost Value = { List (List ℕ) };

    ghost view = { λ l. l.lines.items };
}

impl LineList {
    /// No lines. It takes no memory.
    pub fn new(alloc: Global) -> LineList
        ensures { result ≡ [] }
    {
        LineList {
            lines: Vec::new(alloc),
        }
    }

    /// Puts a line behind the others.
    pub fn push(&mut self, line: ByteList) -> Result<(), NoMemory>
        ensures { OnOk result (self.new ≡ self.old ++ line ∷ []) }
    {
        match self.lines.push(line) {
            Ok(()) => Ok(()),
            Err(_) => Err(NoMemory),
        }
    }

    /// The lines in order.
    pub fn as_slice(&self) -> &[ByteList]
        ensures { result.now ≡ self.now }
    {
        &self.lines
    }

    /// The same lines again.
    pub fn copy(&self, alloc: Global) -> Result<LineList, NoMemory>
        ensures { IfOk result (λ l. l ≡ self.now) }
    {
        let mut copy = LineList::new(alloc);
        for line in &self.lines {
            copy.push(line.copy(alloc)?)?;
        }
        Ok(copy)
    }
}
