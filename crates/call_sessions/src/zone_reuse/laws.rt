//! Laws of whole runs and whole sessions.
ghost use Rattle.minix_layout.specs.declared.limits.TheConstants.{LEAST_JOURNAL, MOST_JOURNAL};
ghost use Rattle.std.specs.Prelude.{◌≡◌, ◌≤◌, ◌<◌, ◌+◌, ℕ, Bool, false, List, Option};
ghost use Rattle.minix_layout.specs.declared.division.Geometry.{Geometry};
ghost use Rattle.minix_layout.specs.Geometry.{IsSound};
ghost use Rattle.tree_model.specs.declared.call.Call.{Call};
ghost use Rattle.tree_model.specs.Histories.{maps_block};
ghost use Rattle.volume_steps.specs.Now.{VolumeNow};
ghost use Rattle.journal_ring.specs.LogRing.{LogRing};
ghost use Rattle.host_machine.specs.Host.{opened};
ghost use Rattle.host_machine.specs.laws.Contract.{Over, Contract, StandsAs};
ghost use Rattle.host_machine.specs.runs.Opened.{IsOpened};
ghost use Rattle.host_machine.specs.runs.Runs.{Event, FitsWords, HasBlocks};
ghost use Rattle.host_machine.specs.runs.laws.Written.{AreWritten};
ghost use Rattle.minix_host.specs.Runs.{IsOpenedVolume, HasEmptyJournal};
ghost use Rattle.minix_host.specs.Sessions.{Opening, Stands};
ghost use Rattle.call_sessions.specs.made.MadeSessions.{made_now, made_opening, made_ring};
ghost use Rattle.call_sessions.specs.Sessions.{WriteBytes, call_over, opened_with};
ghost use Rattle.call_sessions.specs.zone_reuse.Reusing.{ReusesZones};

use minix_host::new_volumes_are_in_use;

/// A law, which does nothing when it is called: from a host that is opened with an owner for each block before the journal,
/// over any model that keeps the host's contract, any list of steps leaves a submitted list in which a page goes to a zone
/// that an earlier call freed only behind the commit block of that call's transaction, and without order only behind that
/// of the transaction which took its zone. So a power cut keeps such a page only with the transaction that freed its zone.
pub fn runs_reuse_zones_behind_commits<A, T, V, C, R>()
    ensures { (o : Over A T V C R) (tree : V → Option T) (contract : Contract o (StandsAs tree)) (v : V) (ring : LogRing) (zones limit : ℕ) (programs : List (List C)) (events : List Event) →
        AreWritten o.format o.setup.writers → HasBlocks o (StandsAs tree) → IsOpened o (StandsAs tree) v ring zones limit programs →
        FitsWords o (opened o.model o.setup v ring zones limit programs) →
        ((f i : ℕ) → o.model.maps o.model.root f i ≡ false) → o.setup.journal ≤ zones →
        ReusesZones o (StandsAs tree) (opened o.model o.setup v ring zones limit programs) events }
{}

/// A law, which does nothing when it is called: whatever callers and actors do in a session, a block that a call gave up gets
/// the bytes of a later call only behind the commit block of the transaction that gave it up. A call gives a block up where
/// it leaves it with no use, as a truncate, an unlink, an rmdir or a rename onto a file does with a file's blocks, or with
/// the metadata that goes with them. So wherever the power is cut: where such later bytes were kept, what is recovered has
/// the call that gave the block up, and no file or directory in it has lost a block to a later call. And a file's block
/// that is written without order, which a device may do at any time, is written behind the commit block of the transaction
/// that took it for this file. On an image that was made the law asks for nothing but sizes and for programs that write
/// bytes.
pub fn sessions_reuse_zones_behind_commits()
    ensures opened { (s : Opening) (v : VolumeNow) (ring : LogRing) (limit : ℕ) (programs : List (List Call)) (events : List Event) →
        AreWritten s.format s.writers → IsOpenedVolume s v → HasEmptyJournal s ring limit → WriteBytes programs →
        ((f i : ℕ) → maps_block s.tree.tree f i ≡ false) →
        ReusesZones (call_over s) (Stands s) (opened_with s v ring limit programs) events }
    ensures made { (g : Geometry) (journal : ℕ) (wide : Bool) (quota limit : ℕ) (programs : List (List Call)) (events : List Event) →
        IsSound g → LEAST_JOURNAL ≤ journal → journal ≤ MOST_JOURNAL → limit + 2 < 4294967296 → WriteBytes programs →
        ReusesZones (call_over (made_opening g journal wide quota)) (Stands (made_opening g journal wide quota))
        (opened_with (made_opening g journal wide quota) (made_now g) (made_ring journal) limit programs) events }
{
    new_volumes_are_in_use();
}
