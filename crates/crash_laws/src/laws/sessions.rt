//! Laws of whole sessions: calls on trees, and the four sentences on a power cut.
ghost use Rattle.std.specs.Prelude.{◌≡◌, ℕ, ◌+◌, ◌≤◌, List, [], ◌∷◌, ◌++◌, length, take, Some, true, false};
ghost use Rattle.std.specs.List.{slice_get};
ghost use Rattle.blk_base.specs.Members.{In};
ghost use Rattle.order_model.specs.declared.completion.Completion.{Completion};
ghost use Rattle.order_model.specs.OrderClosed.{IsOrderClosed, KeepsFlushed};
ghost use Rattle.minix_layout.specs.declared.division.Geometry.{Geometry};
ghost use Rattle.order_model.specs.declared.note.Note.TheVariants.{Page};
ghost use Rattle.tree_model.specs.declared.call.Call.{Call};
ghost use Rattle.tree_model.specs.declared.call.Reply.{Reply};
ghost use Rattle.tree_model.specs.declared.call.Room.{Room};
ghost use Rattle.tree_model.specs.Calls.{Tree, tree_after};
ghost use Rattle.tree_model.specs.Plain.{IsPlain, AreBornBefore};
ghost use Rattle.tree_model.specs.Rooted.{IsRooted};
ghost use Rattle.volume_ops.specs.Volume.{disk_of};
ghost use Rattle.crash_laws.specs.laws.Extending.{Extends};
ghost use Rattle.crash_laws.specs.Found.{found};
ghost use Rattle.crash_laws.specs.History.{HasTrees};
ghost use Rattle.crash_laws.specs.LegalHistory.{Event, Begin, End, has_begun, is_turned_away, tree_up_to, IsLegal, EventClause};
ghost use Rattle.crash_laws.specs.Recovery.{IsRecovered};
ghost use Rattle.crash_laws.specs.Session.{Session, Medium, HasNote, IsSubmitted};
ghost use Rattle.crash_laws.specs.SessionRules.{Run, KeepsRules, Sentences};
ghost use Rattle.crash_laws.specs.TreeHistory.{AreCuts, IsPlaceIn, history_of};
ghost use Rattle.crash_laws.specs.Volumes.{WalkEnd};

/// A law, which does nothing when it is called: what the laws ask of a history holds of the calls of every session on
/// real trees, and each file of a tree has a place in each volume whose tree is alike, by whichever of its paths.
pub fn calls_on_trees_make_a_history()
    ensures trees { (room : Room) (opened : Tree) (first : ℕ) → IsPlain opened → AreBornBefore (first + 1) opened →
        (events : List Event) (cut : ℕ → ℕ) (place : ℕ → WalkEnd → ℕ → ℕ → ℕ) →
        AreCuts cut → HasTrees (history_of room opened first events cut place) }
    ensures rooted { (room : Room) (opened : Tree) (first : ℕ) → IsPlain opened → AreBornBefore (first + 1) opened →
        (events : List Event) (n : ℕ) → IsRooted (tree_up_to room opened first events n) }
    ensures places { (g : Geometry) (tree : Tree) → IsRooted tree →
        (place : WalkEnd → ℕ → ℕ → ℕ) × IsPlaceIn g tree place }
{}

/// A law, which does nothing when it is called: where a session keeps the order rules, and the medium that a power
/// cut left keeps the order of barriers and all that was below a flush that was answered, the tree recovered is
/// that after a prefix of the transactions, each file has versions no older than its last change, and what
/// barrier and sync calls cover survived or was superseded.
pub fn sentences_follow_from_the_rules()
    ensures sentences { (run : Run) (m : Medium) (recovered : List (List ℕ)) (sent : List Completion) →
        KeepsRules run → IsOrderClosed run.session.base run.session.requests m.image m.origins →
        KeepsFlushed run.session.requests m.origins sent → ((o : Completion) → In o run.taken → In o sent) →
        IsRecovered run.session m (disk_of recovered) →
        Sentences run m recovered (found run.session m) }
{}

/// A law, which does nothing when it is called: the empty history is legal, one event more keeps it legal where it owes
/// what it has to, and tells the laws the same of all entries before.
pub fn histories_of_calls_may_grow()
    ensures start { (room : Room) (opened : Tree) (first : ℕ) (programs : ℕ → List Call) → IsLegal room opened first programs [] }
    ensures legal { (room : Room) (opened : Tree) (first : ℕ) (programs : ℕ → List Call) (events : List Event) (e : Event) →
        IsLegal room opened first programs events → EventClause room opened first programs events e →
        IsLegal room opened first programs (events ++ e ∷ []) }
    ensures extends { (room : Room) (opened : Tree) (first : ℕ) (events more : List Event) (cut new_cut : ℕ → ℕ) (place : ℕ → WalkEnd → ℕ → ℕ → ℕ) (s : Session) →
        AreCuts cut → ((j k : ℕ) → IsSubmitted s k → j ≤ k → new_cut j ≡ cut j) →
        ((k : ℕ) → IsSubmitted s k → cut k ≤ length events) →
        ((o f i v : ℕ) → HasNote s o (Page f i v) → v ≤ length events) →
        Extends (history_of room opened first events cut place) (history_of room opened first (events ++ more) new_cut place) s (length events) }
{}

/// A law, which does nothing when it is called: the tree changes by what a call does, where the call ends at once with the
/// tree's reply; and nowhere else: not where a call begins, where one that had begun ends, or where one is turned away.
pub fn trees_change_by_calls_that_are_done()
    ensures done { (room : Room) (opened : Tree) (first : ℕ) (events : List Event) (i t : ℕ) (c : Call) (r : Reply) →
        slice_get events i ≡ Some (End t c r) → has_begun t false (take i events) ≡ false → is_turned_away r ≡ false →
        tree_up_to room opened first events (i + 1) ≡ tree_after room (tree_up_to room opened first events i) (first + (i + 1)) c }
    ensures turned_away { (room : Room) (opened : Tree) (first : ℕ) (events : List Event) (i t : ℕ) (c : Call) (r : Reply) →
        slice_get events i ≡ Some (End t c r) → is_turned_away r ≡ true →
        tree_up_to room opened first events (i + 1) ≡ tree_up_to room opened first events i }
    ensures waited { (room : Room) (opened : Tree) (first : ℕ) (events : List Event) (i t : ℕ) (c : Call) (r : Reply) →
        slice_get events i ≡ Some (End t c r) → has_begun t false (take i events) ≡ true →
        tree_up_to room opened first events (i + 1) ≡ tree_up_to room opened first events i }
    ensures begins { (room : Room) (opened : Tree) (first : ℕ) (events : List Event) (i t : ℕ) (c : Call) →
        slice_get events i ≡ Some (Begin t c) → tree_up_to room opened first events (i + 1) ≡ tree_up_to room opened first events i }
{}
