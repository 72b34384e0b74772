//! What is known of the volume, until it changes.
ghost use Rattle.std.specs.Prelude.{◌≡◌, ◌<◌, ◌++◌, ◌∷◌, [], length, IfOk, None, ◌⊎◌, vec_capacity};
ghost use Rattle.blk_base.specs.Members.{In};
ghost use Rattle.host_core.specs.code.Known.{zones_known};
ghost use Rattle.host_core.specs.declared.known.KnownCall.{KnownCall};

use blk_base::NoMemory;
use std::alloc::Global;

/// A call that had to wait, by its place in the program of its thread: nothing refuses it, it would change the tree or a
/// page, and it takes so many zones. Threads and places are counted from 0.
#[derive(Clone, Copy)]
pub struct KnownCall {
    pub thread: u32,
    pub place: u32,
    pub zones: u32,
}

/// How many zones wait for transactions before this one.
#[derive(Clone, Copy)]
pub struct ZonesToCome {
    pub before: u64,
    pub zones: u32,
}

/// What a volume was asked for calls that had to wait. It holds until the volume changes, and spares asking again.
#[derive(Drop)]
pub struct Known {
    pub calls: Vec<KnownCall>,
    pub to_come: Option<ZonesToCome>,
}

impl Known {
    // Nothing is known. There is room for one call of each thread.
    pub fn new(alloc: Global, threads: usize) -> Result<Known, NoMemory>
        ensures calls { IfOk result (λ k. k.calls.items ≡ []) }
        ensures to_come { IfOk result (λ k. k.to_come ≡ None) }
    {
        let calls = Vec::with_capacity(alloc, threads)?;
        Ok(Known {
            calls,
            to_come: None,
        })
    }

    // The volume has changed.
    pub fn forget(&mut self)
        ensures calls { self.new.calls.items ≡ [] }
        ensures to_come { self.new.to_come ≡ None }
    {
        self.calls.clear();
        self.to_come = None;
    }

    // How many zones the call at this place takes, if it is known.
    pub fn zones_for(&self, thread: u32, place: u32) -> Option<u32>
        ensures { result ≡ zones_known thread place self.now.calls.items }
    {
        for known in &self.calls {
            if known.thread == thread && known.place == place {
                return Some(known.zones);
            }
        }
        None
    }

    // Notes a call, where there is room.
    pub fn note(&mut self, call: KnownCall)
        ensures calls { (k : KnownCall) → In k self.new.calls.items → In k self.old.calls.items ⊎ (call ≡ k) }
        ensures noted { length self.old.calls.items < vec_capacity self.old.calls → self.new.calls.items ≡ self.old.calls.items ++ (call ∷ []) }
        ensures to_come { self.new.to_come ≡ self.old.to_come }
    {
        if self.calls.len() < self.calls.capacity() {
            self.calls.push_reserved(call);
        }
    }
}
