//! Laws of what recovery leaves: metadata, versions, promises.
ghost use Rattle.std.specs.Prelude.{◌≡◌, ℕ, ◌<◌, ◌⊎◌, List, Ok, true};
ghost use Rattle.blk_base.specs.Members.{In};
ghost use Rattle.order_model.specs.declared.completion.Completion.{Completion};
ghost use Rattle.order_model.specs.OrderClosed.{KeepsFlushed};
ghost use Rattle.minix_layout.specs.declared.division.Geometry.{Geometry};
ghost use Rattle.tree_model.specs.declared.node.Node.{Node};
ghost use Rattle.tree_model.specs.Trees.{AreAlike};
ghost use Rattle.volume_ops.specs.Reads.{AgreeOn, blocks_read};
ghost use Rattle.volume_ops.specs.Volume.{disk_of, tree_of};
ghost use Rattle.volume_ops.specs.Walk.{walk_volume};
ghost use Rattle.log_model.specs.Marks.{Transaction, Set, mark_in, transactions_from};
ghost use Rattle.log_model.specs.Log.{log_of};
ghost use Rattle.crash_laws.specs.Found.{found};
ghost use Rattle.crash_laws.specs.Headline.{HoldsPrefix, KeepsPromises};
ghost use Rattle.crash_laws.specs.History.{History, HasTrees};
ghost use Rattle.crash_laws.specs.PageRules.{PageOrder, DataBeforeCommit, place_at};
ghost use Rattle.crash_laws.specs.Recovery.{IsRecovered};
ghost use Rattle.crash_laws.specs.Session.{Session, Medium, IsCommit, IsSubmitted, IsSuperOf, body_at, image_of};
ghost use Rattle.crash_laws.specs.Volumes.{WalkEnd, IsCutOf, HasTreesOf};

/// A law, which does nothing when it is called: the recovered disk has the metadata of the image after the last
/// transaction whose commit block is kept, so its tree is alike to that transaction's; and recovery writes no block
/// of a file of that tree.
pub fn metadata_recovered_is_that_of_a_prefix()
    ensures metadata { (g : Geometry) (s : Session) (m : Medium) (disk : ℕ → List ℕ) →
        IsCutOf g s m → IsRecovered s m disk →
        AgreeOn (blocks_read (image_of s (found s m)) (walk_volume g)) (image_of s (found s m)) disk }
    ensures tree { (g : Geometry) (s : Session) (m : Medium) (tree_after : ℕ → List (ℕ × Node)) (recovered : List (List ℕ)) →
        IsCutOf g s m → HasTreesOf g s tree_after → IsRecovered s m (disk_of recovered) →
        (tree : List (ℕ × Node)) × (tree_of g recovered ≡ Ok tree) × AreAlike (tree_after (found s m)) tree }
    ensures untouched { (g : Geometry) (h : History WalkEnd) (s : Session) (m : Medium) (disk : ℕ → List ℕ) (f i : ℕ) →
        IsCutOf g s m → HasTrees h → PageOrder (walk_volume g) h s → IsRecovered s m disk →
        h.maps (h.cut (found s m)) f i ≡ true → place_at (walk_volume g) h s (found s m) f i < s.journal →
        disk (place_at (walk_volume g) h s (found s m) f i) ≡ disk_of m.image (place_at (walk_volume g) h s (found s m) f i) }
{}

/// A law, which does nothing when it is called: each mapped block of a file is recovered at its place with a version
/// that is no older than its last one at the end of the last transaction that changed the file's size or zones.
pub fn versions_recovered_are_no_older()
    ensures prefix { (g : Geometry) (h : History WalkEnd) (s : Session) (m : Medium) (disk : ℕ → List ℕ) →
        IsCutOf g s m → HasTrees h → PageOrder (walk_volume g) h s → DataBeforeCommit (walk_volume g) h s → IsRecovered s m disk →
        HoldsPrefix (walk_volume g) h s m disk (found s m) }
{}

/// A law, which does nothing when it is called: what a barrier call covers survived or was superseded, where a later
/// write survived; what a sync call covers did so in any case.
pub fn promises_are_kept()
    ensures kept { (g : Geometry) (h : History WalkEnd) (s : Session) (m : Medium) (sent : List Completion) →
        IsCutOf g s m → HasTrees h → PageOrder (walk_volume g) h s → KeepsFlushed s.requests m.origins sent →
        KeepsPromises (walk_volume g) h s m (found s m) sent }
{}

/// A law, which does nothing when it is called: what says that there is a volume and a journal is on the medium as
/// it was in the base image or as it was submitted, and only bodies of submitted transactions are read.
pub fn volume_and_journal_are_found()
    ensures never_written { (g : Geometry) (s : Session) (m : Medium) (block : ℕ) →
        IsCutOf g s m → In block s.reserved →
        ((k : ℕ) (x : List ℕ) → IsSubmitted s k → mark_in (transactions_from s.transactions 1 k) block ≡ Set x → ⊥) →
        disk_of m.image block ≡ disk_of s.base block }
    ensures superblock { (g : Geometry) (s : Session) (m : Medium) →
        IsCutOf g s m →
        (disk_of m.image s.journal ≡ disk_of s.base s.journal)
        ⊎ ((i freed : ℕ) × IsSuperOf s i freed × (disk_of m.image s.journal ≡ body_at s i)) }
    ensures transactions { (g : Geometry) (s : Session) (m : Medium) (t : Transaction) →
        IsCutOf g s m → In t (log_of s.format s.ring s.journal (disk_of m.image)) →
        (k c : ℕ) × IsCommit s k c × (s.transactions k ≡ t) }
{}
