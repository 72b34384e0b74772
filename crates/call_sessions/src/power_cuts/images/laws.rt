//! The laws of session images.
ghost use Rattle.std.specs.Prelude.{◌≡◌, ℕ, List, [], length, slice_get, true, None, Ok, Some};
ghost use Rattle.std.specs.Option.{unwrap_or};
ghost use Rattle.order_model.specs.declared.note.Note.{Note};
ghost use Rattle.order_model.specs.declared.request.Request.{Request};
ghost use Rattle.order_model.specs.OrderClosed.{kind_body};
ghost use Rattle.log_model.specs.Marks.{Transaction};
ghost use Rattle.journal_blocks.specs.declared.super_block.JournalSuper.{JournalSuper};
ghost use Rattle.journal_blocks.specs.Readers.{format, ring_of};
ghost use Rattle.journal_blocks.specs.Super.{super_of, is_wide};
ghost use Rattle.journal_replay.specs.Recovered.{transactions_of};
ghost use Rattle.journal_ring.specs.running.Closing.{writers};
ghost use Rattle.tree_model.specs.Calls.{Tree};
ghost use Rattle.tree_model.specs.Trees.{AreAlike};
ghost use Rattle.volume_ops.specs.Volume.{VolumeState, disk_of};
ghost use Rattle.crash_laws.specs.Found.{IsFound};
ghost use Rattle.crash_laws.specs.Recovery.{IsRecovered};
ghost use Rattle.crash_laws.specs.Session.{Medium};
ghost use Rattle.host_machine.specs.runs.Runs.{Event};
ghost use Rattle.mount_make.specs.Images.{divided, has_journal, fault_in_journal, mounted, recovered_image, image_tree};
ghost use Rattle.mount_make.specs.Made.{new_journal};
ghost use Rattle.call_sessions.specs.power_cuts.images.Requests.{IsReadable};
ghost use Rattle.call_sessions.specs.power_cuts.images.SessionImages.{Start, HasSizes, host_of, IsCutOf, submitted, log_on, kept_transactions, kept_tree, HoldsKept};

use minix_host::new_volumes_are_in_use;
use mount_make::made_images_are_plain;

/// A law, which only calls laws: whatever callers and actors do in a session on an image that was made, each superblock
/// that is submitted has the numbers of this journal, each descriptor tags for blocks behind the volume's superblock and
/// before the journal alone, each revoke block some number, and no home write is for the boot block or the superblock.
pub fn requests_of_sessions_are_readable()
    ensures { (s : Start) (events : List Event) (i : ℕ) (n : Note) (q : Request) → HasSizes s →
        slice_get (host_of s events).journal.flush.notes i ≡ Some n → slice_get (host_of s events).journal.flush.requests i ≡ Some q →
        IsReadable (format s.wide) (writers (new_journal s.journal s.wide)) s.geometry.zones n (unwrap_or (kind_body q.kind) []) }
{
    new_volumes_are_in_use();
}

/// A law, which only calls laws: wherever the power is cut, the volume is found as it was divided, and the journal behind
/// it, with the places and the kind of tags that it was made with; and the laws of power cuts read the log's tail from the same numbers.
pub fn volume_and_journal_of_sessions_are_found()
    ensures volume { (s : Start) (events : List Event) (m : Medium) → HasSizes s → IsCutOf s events m → divided m.image ≡ Ok s.geometry }
    ensures journal { (s : Start) (events : List Event) (m : Medium) → HasSizes s → IsCutOf s events m → has_journal s.geometry.zones m.image ≡ true }
    ensures kind { (s : Start) (events : List Event) (m : Medium) (j : JournalSuper) → HasSizes s → IsCutOf s events m →
        super_of (disk_of m.image s.geometry.zones) ≡ Ok j → is_wide j ≡ s.wide }
    ensures superblock { (s : Start) (events : List Event) (m : Medium) → HasSizes s → IsCutOf s events m →
        (j : JournalSuper) × (super_of (disk_of m.image s.geometry.zones) ≡ Ok j) × (ring_of j ≡ ring_of (new_journal s.journal s.wide)) ×
        ((format s.wide).tail (disk_of m.image s.geometry.zones) ≡ record { sequence = j.sequence; start = j.start }) }
{
    made_images_are_plain();
    new_volumes_are_in_use();
}

/// A law, which only calls laws: the log that recovery reads of the medium is the one that the laws of power cuts speak
/// of; it is empty where the superblock says so.
pub fn logs_of_sessions_are_read()
    ensures log { (s : Start) (events : List Event) (m : Medium) (j : JournalSuper) → HasSizes s → IsCutOf s events m →
        super_of (disk_of m.image s.geometry.zones) ≡ Ok j → transactions_of s.geometry.zones j m.image ≡ log_on s m }
    ensures empty { (s : Start) (events : List Event) (m : Medium) (j : JournalSuper) → HasSizes s → IsCutOf s events m →
        super_of (disk_of m.image s.geometry.zones) ≡ Ok j → j.start ≡ 0 →
        (transactions_of s.geometry.zones j m.image ≡ []) × (log_on s m ≡ []) }
{
    made_images_are_plain();
    new_volumes_are_in_use();
}

/// A law, which only calls laws: recovery finds no fault in the journal, and leaves the disk that the laws of power cuts
/// speak of.
pub fn sessions_leave_no_fault()
    ensures journal { (s : Start) (events : List Event) (m : Medium) → HasSizes s → IsCutOf s events m →
        fault_in_journal s.geometry.zones m.image ≡ None }
    ensures recovered { (s : Start) (events : List Event) (m : Medium) → HasSizes s → IsCutOf s events m →
        IsRecovered (submitted s events) m (disk_of (recovered_image m.image)) }
{
    made_images_are_plain();
    new_volumes_are_in_use();
}

/// A law, which only calls laws: the image is mounted, and its tree is that after the calls of the first transactions,
/// just as many as have their commit block on the medium.
pub fn sessions_mount_to_a_prefix()
    ensures mounts { (s : Start) (events : List Event) (m : Medium) → HasSizes s → IsCutOf s events m →
        (v : VolumeState) × (mounted m.image ≡ Ok v) }
    ensures transactions { (s : Start) (events : List Event) (m : Medium) → HasSizes s → IsCutOf s events m →
        IsFound (submitted s events) m (kept_transactions s events m) }
    ensures tree { (s : Start) (events : List Event) (m : Medium) → HasSizes s → IsCutOf s events m →
        (tree : Tree) × (image_tree m.image ≡ Ok tree) × AreAlike (kept_tree s events m) tree }
{
    made_images_are_plain();
    new_volumes_are_in_use();
}

/// A law, which only calls laws: the image that recovery leaves has the metadata after these transactions, and each block
/// of a file in a version that is no older than its file's last change asks for.
pub fn sessions_recover_their_files()
    ensures files { (s : Start) (events : List Event) (m : Medium) → HasSizes s → IsCutOf s events m →
        (closed : List Transaction) × HoldsKept s events m (disk_of (recovered_image m.image)) closed }
{
    made_images_are_plain();
    new_volumes_are_in_use();
}
