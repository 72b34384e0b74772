//! What a call waits for.
ghost use Rattle.std.specs.Prelude.{◌≡◌};
ghost use Rattle.flush_actor.specs.Waits.{no_wait, awaits, need_commit};

use crate::CallKind;

/// What a begun call waits for: a transaction's commit block, and a request that it needs durable.
#[derive(Clone, Copy, PartialEq, Eq, Debug)]
pub struct Wait {
    pub kind: CallKind,
    pub target: Option<u64>,
    pub need: Option<u64>,
}

impl Wait {
    /// That of a thread with no begun call.
    pub fn none() -> Wait
        ensures { result ≡ no_wait }
    {
        Wait {
            kind: CallKind::Reading,
            target: None,
            need: None,
        }
    }

    // Whether a durability call waits for this transaction.
    pub fn awaits(self, tx: u64) -> bool
        ensures { result ≡ awaits tx self }
    {
        self.kind.is_durable() && self.target == Some(tx)
    }

    // The commit block of this transaction is that request.
    pub fn after_commit(self, tx: u64, id: u64) -> Wait
        ensures { result ≡ need_commit tx id self }
    {
        if self.kind.makes_durable() && self.target == Some(tx) {
            Wait {
                need: Some(id),
                ..self
            }
        } else {
            self
        }
    }
}
