//! What is kept of a begun call.
ghost use Rattle.std.specs.Prelude.{◌≡◌, false, IfOk};
ghost use Rattle.host_core.specs.begun.Steps.{listed};
ghost use Rattle.host_machine.specs.State as machine;

use blk_base::NoMemory;
use flush_actor::CallKind;
use page_cache::Pages;
use std::alloc::Global;
use std::marker::Model;

/// A begun call: the number of its entry, the file that it is on, the pages of its list, how many of them it has
/// passed, and whether it sent a barrier.
#[derive(Drop)]
pub struct Begun {
    pub begin: u64,
    pub kind: CallKind,
    pub file: u64,
    pub list: Vec<(u64, u32)>,
    pub passed: usize,
    pub sent_barrier: bool,
}

impl Model for Begun {
    ghost use Rattle.host_machine.specs.State as machine;
    ghost use Rattle.std.specs.Prelude.{drop};

    ghost Value = { machine.Begun };

    ghost view = { λ b. record {
      begin = b.begin;
      kind = b.kind;
      file = b.file;
      list = drop b.passed b.list.items;
      sent_barrier = b.sent_barrier;
    } };
}

impl Begun {
    /// A call that begins now, with this number: the unsent pages of its file, or of all, are on its list.
    pub fn of(
        alloc: Global,
        pages: &Pages,
        begin: u64,
        kind: CallKind,
        file: u64,
    ) -> Result<Begun, NoMemory>
        ensures { IfOk result (λ b. b ≡ record { begin = begin; kind = kind; file = file; list = listed pages.now.pages kind file; sent_barrier = false }) }
    {
        let wanted = if kind.is_whole() { None } else { Some(file) };
        Ok(Begun {
            begin,
            kind,
            file,
            list: pages.unsent_keys(alloc, wanted)?,
            passed: 0,
            sent_barrier: false,
        })
    }
}
