//! The laws, each a public function that does nothing when it is called.
ghost use Rattle.std.specs.Prelude.{◌≡◌, ℕ, Bool, List, [], true, None, Ok, Some};
ghost use Rattle.minix_layout.specs.declared.division.Geometry.{Geometry};
ghost use Rattle.order_model.specs.OrderClosed.{IsOrderClosed};
ghost use Rattle.log_model.specs.Marks.{Transaction};
ghost use Rattle.tree_model.specs.declared.call.Call.{Call};
ghost use Rattle.tree_model.specs.declared.call.Reply.{Reply};
ghost use Rattle.tree_model.specs.Calls.{Tree};
ghost use Rattle.tree_model.specs.Histories.{block_at};
ghost use Rattle.tree_model.specs.Trees.{AreAlike};
ghost use Rattle.volume_ops.specs.Volume.{VolumeState, disk_of};
ghost use Rattle.volume_steps.specs.Now.{VolumeNow};
ghost use Rattle.crash_laws.specs.Found.{IsFound};
ghost use Rattle.crash_laws.specs.PromiseRules.{IsLaterKept};
ghost use Rattle.crash_laws.specs.Recovery.{IsRecovered};
ghost use Rattle.crash_laws.specs.Session.{Medium};
ghost use Rattle.host_machine.specs.State.{Host};
ghost use Rattle.host_machine.specs.runs.Runs.{Event};
ghost use Rattle.mount_make.specs.Images.{divided, has_journal, fault_in_journal, mounted, recovered_image, image_tree};
ghost use Rattle.mount_make.specs.Made.{new_journal};
ghost use Rattle.call_sessions.specs.power_cuts.recovery.Found.{found_in};
ghost use Rattle.call_sessions.specs.power_cuts.calls.CallImages.{made_session, IsCut, submitted_by, kept_count, kept_tree, KeepsFiles, history_of, AreNewer, ShowsFiles};

use crate::power_cuts::recovery::{
    found_is_what_was_kept, sessions_leave_no_fault, sessions_mount_to_a_prefix,
    sessions_recover_their_files, volume_and_journal_of_sessions_are_found,
};
use crate::sessions_of_calls_on_made_images;

/// A law, which only calls laws: wherever the power is cut, the volume is found as it was divided, the journal is there
/// behind it and has no fault, and the image mounts.
pub fn cut_sessions_mount()
    ensures volume { (g : Geometry) (journal : ℕ) (wide : Bool) (limit : ℕ) (programs : List (List Call)) (events : List Event) (m : Medium) →
        IsCut g journal wide limit programs events m → divided m.image ≡ Ok g }
    ensures journal { (g : Geometry) (journal : ℕ) (wide : Bool) (limit : ℕ) (programs : List (List Call)) (events : List Event) (m : Medium) →
        IsCut g journal wide limit programs events m → has_journal g.zones m.image ≡ true }
    ensures no_fault { (g : Geometry) (journal : ℕ) (wide : Bool) (limit : ℕ) (programs : List (List Call)) (events : List Event) (m : Medium) →
        IsCut g journal wide limit programs events m → fault_in_journal g.zones m.image ≡ None }
    ensures mounts { (g : Geometry) (journal : ℕ) (wide : Bool) (limit : ℕ) (programs : List (List Call)) (events : List Event) (m : Medium) →
        IsCut g journal wide limit programs events m → (v : VolumeState) × (mounted m.image ≡ Ok v) }
{
    sessions_of_calls_on_made_images();
    volume_and_journal_of_sessions_are_found();
    sessions_leave_no_fault();
    sessions_mount_to_a_prefix();
}

/// A law, which only calls laws: the commit blocks that the medium has are those of the first transactions, up to some
/// number, and its tree is that after the calls of these.
pub fn cut_sessions_have_the_tree_of_a_prefix()
    ensures transactions { (g : Geometry) (journal : ℕ) (wide : Bool) (limit : ℕ) (programs : List (List Call)) (events : List Event) (m : Medium) →
        IsCut g journal wide limit programs events m → let h = made_session g journal wide limit programs events in
        IsFound (submitted_by g journal wide [] h) m (kept_count g journal wide h m) }
    ensures tree { (g : Geometry) (journal : ℕ) (wide : Bool) (limit : ℕ) (programs : List (List Call)) (events : List Event) (m : Medium) →
        IsCut g journal wide limit programs events m →
        (tree : Tree) × (image_tree m.image ≡ Ok tree) × AreAlike (kept_tree g journal wide (made_session g journal wide limit programs events) m) tree }
{
    sessions_of_calls_on_made_images();
    sessions_mount_to_a_prefix();
}

/// A law, which only calls laws: the image that recovery leaves is the one that the laws of power cuts speak of, and it has
/// the metadata after these transactions, and each block of a file in a version that is no older than its file's last
/// change asks for.
pub fn cut_sessions_keep_files()
    ensures recovered { (g : Geometry) (journal : ℕ) (wide : Bool) (limit : ℕ) (programs : List (List Call)) (events : List Event) (m : Medium) (closed : List Transaction) →
        IsCut g journal wide limit programs events m →
        IsRecovered (submitted_by g journal wide closed (made_session g journal wide limit programs events)) m (disk_of (recovered_image m.image)) }
    ensures files { (g : Geometry) (journal : ℕ) (wide : Bool) (limit : ℕ) (programs : List (List Call)) (events : List Event) (m : Medium) →
        IsCut g journal wide limit programs events m →
        (closed : List Transaction) × KeepsFiles g journal wide closed (made_session g journal wide limit programs events) m (disk_of (recovered_image m.image)) }
{
    sessions_of_calls_on_made_images();
    sessions_leave_no_fault();
    sessions_recover_their_files();
}

/// A law, which only calls laws: a tree of the recovered image that is alike to the one after the kept transactions has each
/// block of a file as the recovered disk has it, in a version that is no older than its file's last change asks for and
/// whose request is the one that the medium has at the block's place; and all that survived the power cut.
pub fn cut_sessions_show_files()
    ensures { (g : Geometry) (journal : ℕ) (wide : Bool) (limit : ℕ) (programs : List (List Call)) (events : List Event) (m : Medium) (closed : List Transaction) (tree : Tree) →
        IsCut g journal wide limit programs events m → let h = made_session g journal wide limit programs events in
        KeepsFiles g journal wide closed h m (disk_of (recovered_image m.image)) → image_tree m.image ≡ Ok tree →
        (alike : AreAlike (kept_tree g journal wide h m) tree) → ShowsFiles g journal wide closed h m tree alike.to }
{
    sessions_of_calls_on_made_images();
    cut_sessions_mount();
    cut_sessions_keep_files();
}

/// A law, which does nothing when it is called: where such a tree has, for a block of a file that the kept transactions map,
/// bytes that are newer than an entry, a write made after that entry survived the power cut.
pub fn shown_bytes_tell_what_survived()
    ensures { (g : Geometry) (journal : ℕ) (wide : Bool) (closed : List Transaction) (h : Host VolumeNow Call Reply) (m : Medium) (tree : Tree) (to : ℕ → ℕ) (base : List (List ℕ)) (f i e : ℕ) (bytes : List ℕ) →
        IsOrderClosed base h.journal.flush.requests m.image m.origins → ShowsFiles g journal wide closed h m tree to →
        let told = history_of g journal wide h in
        told.maps (told.cut (kept_count g journal wide h m)) f i ≡ true → block_at tree (to f) i ≡ Some bytes → AreNewer told f i e bytes →
        IsLaterKept told (submitted_by g journal wide [] h) m (kept_count g journal wide h m) e }
{}

/// A law, which only calls laws: the number that is counted by the journal's superblock and its log on the medium is that
/// of the transactions whose commit block is there.
pub fn cut_sessions_tell_how_many()
    ensures { (g : Geometry) (journal : ℕ) (wide : Bool) (limit : ℕ) (programs : List (List Call)) (events : List Event) (m : Medium) →
        IsCut g journal wide limit programs events m →
        found_in g.zones (new_journal journal wide).sequence m.image ≡ kept_count g journal wide (made_session g journal wide limit programs events) m }
{
    sessions_of_calls_on_made_images();
    found_is_what_was_kept();
}
