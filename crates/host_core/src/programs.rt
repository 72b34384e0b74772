//! The callers' programs.
ghost use Rattle.std.specs.Prelude.{◌≡◌, ◌<◌, ◌^◌, ◌++◌, ◌∷◌, [], IfOk, OnErr, length, map};
ghost use Rattle.host_core.specs.code.Fields.{program_of, AreFresh};

use crate::thread::Thread;
use blk_base::NoMemory;
use std::alloc::Global;
use std::marker::Model;
use tree_model::Call;

/// The calls of each caller, in order.
#[derive(Drop)]
pub struct Programs {
    threads: Vec<Thread>,
}

impl Model for Programs {
    ghost use Rattle.std.specs.Prelude.{List, map};
    ghost use Rattle.tree_model.specs.declared.call.Call.{Call};
    ghost use Rattle.host_core.specs.code.Fields.{program_of, AreFresh};

    ghost Value = { List (List Call) };

    ghost view = { λ p. map program_of p.threads.items };

    ghost invariant = { λ p. AreFresh p.threads.items };
}

impl Programs {
    /// No caller.
    pub fn new(alloc: Global) -> Programs
        ensures { result ≡ [] }
    {
        Programs {
            threads: Vec::new(alloc),
        }
    }

    /// One caller more, with these calls.
    pub fn add(&mut self, program: Vec<Call>) -> Result<(), NoMemory>
        requires { length program.items < 2 ^ 32 }
        ensures ok { IfOk result (λ u. self.new ≡ self.old ++ program.items ∷ []) }
        ensures err { OnErr result (self.new ≡ self.old) }
    {
        match self.threads.push(Thread {
            program,
            ended: 0,
            begun: None,
        }) {
            Ok(()) => Ok(()),
            Err(_) => Err(NoMemory),
        }
    }

    // The callers, of which none has begun.
    pub fn into_threads(self) -> Vec<Thread>
        ensures programs { map program_of result.items ≡ self }
        ensures fresh { AreFresh result.items }
    {
        self.threads
    }
}
