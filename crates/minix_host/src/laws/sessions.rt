//! Laws of whole sessions on a volume.

ghost use Rattle.std.specs.Prelude.{◌≡◌, ◌<◌, ◌≤◌, ℕ, ◌+◌, Bool, List, length, slice_get, Option, Some};
ghost use Rattle.minix_layout.specs.Geometry.{IsSound};
ghost use Rattle.tree_model.specs.declared.call.Reply.TheVariants as replies;
ghost use Rattle.volume_ops.specs.Volume.{disk_of};
ghost use Rattle.volume_model.specs.NewVolume.{new_volume};
ghost use Rattle.volume_steps.specs.Now.{VolumeNow};
ghost use Rattle.volume_steps.specs.NewNow.{new_now};
ghost use Rattle.journal_blocks.specs.Readers.{format};
ghost use Rattle.journal_blocks.specs.Super.{is_wide};
ghost use Rattle.journal_blocks.specs.declared.super_block.JournalSuper.{JournalSuper};
ghost use Rattle.journal_ring.specs.LogRing.{LogRing};
ghost use Rattle.journal_ring.specs.running.Closing.{writers};
ghost use Rattle.host_machine.specs.Host.{advance};
ghost use Rattle.host_machine.specs.Outcomes.{Done};
ghost use Rattle.host_machine.specs.State.{Begun, Thread};
ghost use Rattle.flush_actor.specs.Part.{is_flush_note};
ghost use Rattle.host_machine.specs.runs.Promises.{IsAnswered};
ghost use Rattle.host_machine.specs.runs.Runs.{Event, steps};
ghost use Rattle.host_machine.specs.runs.Flushes.{count, is_sync_begin};
ghost use Rattle.host_machine.specs.runs.laws.Written.{AreWritten};
ghost use Rattle.minix_host.specs.Runs.{IsNewOpening, IsOpenedVolume, HasEmptyJournal, host_after, KeepsSession};
ghost use Rattle.minix_host.specs.ByteCalls.{ByteCall};
ghost use Rattle.minix_host.specs.Sessions.{Opening, over, Stands};

use volume_steps::new_volumes_are_in_use;

/// A law, which does nothing when it is called: whatever callers and actors do in a session that was opened on a plain
/// volume, behind which an empty journal lies, the submitted list keeps all order rules; and a power
/// cut leaves a volume whose tree is that after a prefix of the calls, with no file block older than its file's last
/// change asks for, and with all that answered barrier and sync calls promise. Of the journal it asks that its blocks
/// are read as they are written.
pub fn sessions_keep_rules_and_trees()
    ensures kept { (s : Opening) (v : VolumeNow) (ring : LogRing) (limit : ℕ) (programs : List (List ByteCall)) (events : List Event) →
        AreWritten s.format s.writers → IsOpenedVolume s v → HasEmptyJournal s ring limit →
        KeepsSession s (host_after s v ring limit programs events) }
{}

/// A law, which does nothing when it is called: when a barrier or sync call is answered Ok in such a session, what it
/// covers stands at or before a barrier, or below a flush that was answered, and it does so whatever the host does after
/// it. At most as many flushes are submitted as sync calls have begun.
pub fn answers_of_sessions_hold()
    ensures answered { (s : Opening) (v : VolumeNow) (ring : LogRing) (limit : ℕ) (programs : List (List ByteCall)) (events more : List Event)
        (full : Bool) (t : ℕ) (th : Thread ByteCall) (b : Begun) →
        AreWritten s.format s.writers → IsOpenedVolume s v → HasEmptyJournal s ring limit →
        slice_get (host_after s v ring limit programs events).threads t ≡ Some th → th.begun ≡ Some b →
        (advance (over s).model (over s).setup full (host_after s v ring limit programs events) t).step ≡ Done replies.Ok →
        IsAnswered (over s) (Stands s) (steps (over s) (host_after s v ring limit programs events) more)
        (length (host_after s v ring limit programs events).history + 1) b }
    ensures flushes { (s : Opening) (v : VolumeNow) (ring : LogRing) (limit : ℕ) (programs : List (List ByteCall)) (events : List Event) →
        AreWritten s.format s.writers → IsOpenedVolume s v → HasEmptyJournal s ring limit →
        count is_flush_note (host_after s v ring limit programs events).journal.flush.notes ≤
        count (is_sync_begin (over s).model.kind) (host_after s v ring limit programs events).history }
{}

/// A law, which does nothing when it is called: the blocks of a JBD2 journal, with whatever superblock, are read as they
/// are written.
pub fn journals_are_read_as_written()
    ensures written { (s : JournalSuper) → AreWritten (format (is_wide s)) (writers s) }
{}

/// A law, which does nothing when it is called: a session can be opened on a new volume of any size, where the image
/// begins with its blocks.
pub fn new_volumes_can_be_opened()
    ensures opened { (s : Opening) → IsNewOpening s → IsSound s.geometry → s.root ≡ s.geometry.first →
        ((b : ℕ) → b < s.geometry.zones → disk_of s.image b ≡ disk_of (new_volume s.geometry).blocks b) →
        IsOpenedVolume s (new_now s.geometry) }
{
    new_volumes_are_in_use();
}
