//! Laws of commit blocks and of the log that recovery reads.
ghost use Rattle.std.specs.Prelude.{◌≡◌, ◌≢◌, ℕ, ◌+◌, ◌<◌, ◌≤◌, List};
ghost use Rattle.minix_layout.specs.declared.division.Geometry.{Geometry};
ghost use Rattle.order_model.specs.OrderClosed.{IsPutOf, IsOrderClosed, HasOrigin};
ghost use Rattle.volume_ops.specs.Volume.{disk_of};
ghost use Rattle.log_model.specs.Log.{Commits};
ghost use Rattle.log_model.specs.Ring.{IsPlace};
ghost use Rattle.crash_laws.specs.Found.{found, IsFound};
ghost use Rattle.crash_laws.specs.Recovery.{IsTailOf, IsLogFrom};
ghost use Rattle.crash_laws.specs.Rules.{FitsNotes, CommitOrder, CheckpointOrder};
ghost use Rattle.crash_laws.specs.Session.{Session, Medium, IsLog, IsCommit, IsSuperOf};
ghost use Rattle.crash_laws.specs.Volumes.{IsCutOf};

/// A law, which does nothing when it is called: the kept commit blocks are those of the first transactions, as many
/// as there are kept ones, and commit blocks stand in the order of their transactions.
pub fn kept_commits_are_a_prefix()
    ensures prefix { (s : Session) (m : Medium) →
        IsOrderClosed s.base s.requests m.image m.origins → FitsNotes s → CommitOrder s → IsFound s m (found s m) }
    ensures in_order { (s : Session) (j k i : ℕ) →
        CommitOrder s → IsCommit s k i → 1 ≤ j → j ≤ k → (c : ℕ) × IsCommit s j c × (c ≤ i) }
    ensures tails_rise { (s : Session) (x y freed more : ℕ) →
        CommitOrder s → CheckpointOrder s → x < y → IsSuperOf s x freed → IsSuperOf s y more → freed ≤ more }
{}

/// A law, which does nothing when it is called: the log blocks of each kept transaction that no superblock freed
/// are on the medium, no place of the log reads as the commit block of the next one or of a later one, and so the log
/// that is read has the transactions from the tail to the last kept commit block, and the log is one behind which a
/// session can begin whose first transaction is the next one.
pub fn logs_end_at_the_last_kept_commit()
    ensures whole { (g : Geometry) (s : Session) (m : Medium) (freed k i block : ℕ) →
        IsCutOf g s m → IsTailOf s m (found s m) freed → freed < k → k ≤ found s m → IsLog s k i →
        IsPutOf s.requests i block → HasOrigin m.origins block i }
    ensures no_more { (g : Geometry) (s : Session) (m : Medium) (p : ℕ) →
        IsCutOf g s m → IsPlace s.ring p →
        s.format.header (disk_of m.image (s.journal + p)) ≢ Commits (s.sequence + found s m) }
    ensures none_later { (g : Geometry) (s : Session) (m : Medium) (p sequence : ℕ) →
        IsCutOf g s m → IsPlace s.ring p → s.sequence + found s m ≤ sequence →
        s.format.header (disk_of m.image (s.journal + p)) ≢ Commits sequence }
    ensures log { (g : Geometry) (s : Session) (m : Medium) →
        IsCutOf g s m → (freed : ℕ) × IsLogFrom s m (found s m) freed }
{}
