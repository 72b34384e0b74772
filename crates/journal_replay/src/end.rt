//! How far a recovery is.
ghost use Rattle.std.specs.Prelude.{◌≡◌};
ghost use Rattle.journal_replay.specs.Driving.{by_completion, is_running};

use order_model::Completion;

/// How far a recovery is: at work, done, or given up at a command that the device failed.
#[derive(Clone, Copy, Debug, PartialEq, Eq)]
pub enum End {
    Running,
    Flushed,
    Failed(u64),
}

impl End {
    // After one more completion. The first end stays.
    pub(crate) fn and(self, c: Completion) -> End
        ensures { result ≡ by_completion self c }
    {
        match self {
            End::Running => match c {
                Completion::Flushed(_) => End::Flushed,
                Completion::Failed(id) => End::Failed(id),
                Completion::Moved(_) | Completion::Cut => End::Running,
            },
            End::Flushed => End::Flushed,
            End::Failed(id) => End::Failed(id),
        }
    }

    pub fn is_running(self) -> bool
        ensures { result ≡ is_running self }
    {
        match self {
            End::Running => true,
            End::Flushed | End::Failed(_) => false,
        }
    }
}
