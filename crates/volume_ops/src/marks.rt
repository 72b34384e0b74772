//! Marks by number.
ghost use Rattle.std.specs.Prelude.{◌≡◌, IfOk};
ghost use Rattle.volume_ops.specs.Marks.{no_marks, is_marked, marked};

use blk_base::NoMemory;
use std::alloc::Global;
use std::marker::Model;

/// For each of the numbers from 0 on whether it was met.
#[derive(Drop)]
pub struct Marks {
    items: Vec<bool>,
}

impl Model for Marks {
    ghost use Rattle.std.specs.Prelude.{List, Bool};

    ghost Value = { List Bool };

    ghost view = { λ m. m.items.items };
}

impl Marks {
    /// So many numbers, none of them met.
    pub fn make(alloc: Global, numbers: usize) -> Result<Marks, NoMemory>
        ensures { IfOk result (λ m. m ≡ no_marks numbers) }
    {
        Ok(Marks {
            items: vec![in alloc; false; numbers]?,
        })
    }

    /// Whether the number was met.
    pub fn is_marked(&self, number: usize) -> bool
        ensures { result ≡ is_marked self.now number }
    {
        match self.items.get(number) {
            Some(met) => *met,
            None => false,
        }
    }

    /// Notes that the number was met.
    pub fn mark(&mut self, number: usize)
        ensures { self.new ≡ marked self.old number }
    {
        if let Some(met) = self.items.get_mut(number) {
            *met = true;
        }
    }
}
