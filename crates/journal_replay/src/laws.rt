//! Laws of recovery.
ghost use Rattle.std.specs.Prelude.{◌≡◌, ℕ, None, List, take};
ghost use Rattle.order_model.specs.Device.{Seen, IsSurface, KeepsEpochOrder};
ghost use Rattle.log_model.specs.Marks.{Transaction, mark_in, marked_body};
ghost use Rattle.journal_replay.specs.Revokes.{replayed_by, last_revoke};
ghost use Rattle.journal_replay.specs.Recovered.{recovered, IsRecoverable};
ghost use Rattle.journal_replay.specs.Commands.{commands};

/// A law, which does nothing when it is called: wherever an attempt of recovery is cut, what it leaves recovers to the
/// same image. The device took the first so many commands of a recovery of the image that it was made over.
pub fn attempts_keep_the_recovered_image()
    ensures { (base count : ℕ) (s : Seen) →
        IsSurface s → KeepsEpochOrder s → IsRecoverable base s.base → s.took ≡ take count (commands base s.base) →
        recovered base s.surface ≡ recovered base s.base }
{}

/// A law, which does nothing when it is called: a replay by the table of revokes has for each block what the mark of
/// the log says, its last logged body that no revoke cancels.
pub fn replays_by_revokes_are_exact()
    ensures { (log : List Transaction) (b : ℕ) →
        replayed_by (last_revoke 0 log b) 0 log b None ≡ marked_body (mark_in log b) }
{}
