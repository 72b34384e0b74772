//! What `recover` lines say.
ghost use Rattle.std.specs.Prelude.{◌≡◌, [], ◌∷◌, ◌++◌, length, IfOk, OnOk, slice_get};

use blk_base::NoMemory;
use std::alloc::Global;
use std::marker::Model;

/// A word of a `recover` line: device steps of an attempt of recovery.
#[derive(Clone, Copy, PartialEq, Eq, Debug)]
pub enum Steer {
    /// A transfer of the command at this place of the eligible list.
    Transfer(u32),
    /// A persist of the entry at this place of the eligible list.
    Persist(u32),
    /// So many steps as the recovery takes by itself.
    Default(u32),
}

/// The words of one `recover` line, in order.
#[derive(Drop)]
pub struct SteerLine {
    steers: Vec<Steer>,
}

impl Model for SteerLine {
    ghost use Rattle.std.specs.Prelude.{List};
    ghost use Rattle.line_grammar.specs.declared.events.steer.Steer.{Steer};

    ghost Value = { List Steer };

    ghost view = { λ s. s.steers.items };
}

impl SteerLine {
    /// No words. It takes no memory.
    pub fn new(alloc: Global) -> SteerLine
        ensures { result ≡ [] }
    {
        SteerLine {
            steers: Vec::new(alloc),
        }
    }

    /// Puts a word behind the others.
    pub fn push(&mut self, steer: Steer) -> Result<(), NoMemory>
        ensures { OnOk result (self.new ≡ self.old ++ steer ∷ []) }
    {
        self.steers.push(steer)?;
        Ok(())
    }

    /// The words in order.
    pub fn as_slice(&self) -> &[Steer]
        ensures { result.now ≡ self.now }
    {
        &self.steers
    }

    /// The same words again.
    pub fn copy(&self, alloc: Global) -> Result<SteerLine, NoMemory>
        ensures { IfOk result (λ s. s ≡ self.now) }
    {
        Ok(SteerLine {
            steers: Vec::from_slice(alloc, &self.steers)?,
        })
    }
}

/// The `recover` lines of a script, in order.
#[derive(Drop)]
pub struct SteerList {
    lines: Vec<SteerLine>,
}

impl Model for SteerList {
    ghost use Rattle.std.specs.Prelude.{List};
    ghost use Rattle.line_grammar.specs.declared.events.steer.Steer.{Steer};

    ghost Value = { List (List Steer) };

    ghost view = { λ s. s.lines.items };
}

impl SteerList {
    /// No lines. It takes no memory.
    pub fn new(alloc: Global) -> SteerList
        ensures { result ≡ [] }
    {
        SteerList {
            lines: Vec::new(alloc),
        }
    }

    /// Puts a line behind the others.
    pub fn push(&mut self, line: SteerLine) -> Result<(), NoMemory>
        ensures { OnOk result (self.new ≡ self.old ++ line ∷ []) }
    {
        match self.lines.push(line) {
            Ok(()) => Ok(()),
            Err(_) => Err(NoMemory),
        }
    }

    /// How many lines there are.
    pub fn len(&self) -> usize
        ensures { result ≡ length self.now }
    {
        self.lines.len()
    }

    /// The lines in order.
    pub fn as_slice(&self) -> &[SteerLine]
        ensures { result.now ≡ self.now }
    {
        &self.lines
    }

    /// The same lines again.
    pub fn copy(&self, alloc: Global) -> Result<SteerList, NoMemory>
        ensures { IfOk result (λ s. s ≡ self.now) }
    {
        let mut copy = SteerList::new(alloc);
        for line in &self.lines {
            copy.push(line.copy(alloc)?)?;
        }
        Ok(copy)
    }
}
