//! Which ids came, by one flag for each id.
ghost use Rattle.std.specs.Prelude.{◌≡◌, [], false, true, length, replicate, set, IfOk};
ghost use Rattle.thread_sides.specs.Admitted.{is_new};

use blk_base::NoMemory;
use std::alloc::Global;
use std::marker::Model;

/// One flag for each id below a limit: whether it came.
#[derive(Drop)]
pub struct IdFlags {
    flags: Vec<bool>,
}

impl Model for IdFlags {
    ghost use Rattle.std.specs.Prelude.{List, Bool};

    ghost Value = { List Bool };

    ghost view = { λ f. f.flags.items };
}

impl IdFlags {
    /// No id came. All memory is taken here.
    pub fn make(alloc: Global, limit: usize) -> Result<IdFlags, NoMemory>
        ensures { IfOk result (λ f. f ≡ replicate limit false) }
    {
        Ok(IdFlags {
            flags: vec![in alloc; false; limit]?,
        })
    }

    /// How many ids there are.
    pub fn limit(&self) -> usize
        ensures { result ≡ length self.now }
    {
        self.flags.len()
    }

    /// Whether the id is below the limit and did not come.
    pub fn is_new(&self, id: u64) -> bool
        ensures { result ≡ is_new self.now id }
    {
        id < self.flags.len() as u64 && !self.flags[id as usize]
    }

    /// The id came.
    pub fn mark(&mut self, id: u64)
        ensures { self.new ≡ set self.old id true }
    {
        if id < self.flags.len() as u64 {
            self.flags[id as usize] = true;
        }
    }

    /// There are no ids any more.
    pub fn clear(&mut self)
        ensures { self.new ≡ [] }
    {
        self.flags.clear();
    }
}
