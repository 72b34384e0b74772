//! The laws, each a public function that does nothing when it is called.
ghost use Rattle.std.specs.Prelude.{◌≡◌, ◌⊎◌, ◌<◌, ◌≤◌, ℕ, true, false, List, [], ◌∷◌, length, take, Some, Ok, IsOk};
ghost use Rattle.tree_model.specs.declared.call.Call.{Call};
ghost use Rattle.tree_model.specs.declared.call.Call.TheVariants as calls;
ghost use Rattle.tree_model.specs.declared.call.Reply.{Reply};
ghost use Rattle.tree_model.specs.declared.call.Reply.TheVariants as replies;
ghost use Rattle.tree_model.specs.declared.node.File.{File};
ghost use Rattle.tree_model.specs.declared.node.Node.TheVariants as nodes;
ghost use Rattle.tree_model.specs.Causes.{LeadsTo};
ghost use Rattle.tree_model.specs.Histories.{block_at};
ghost use Rattle.tree_model.specs.Paths.{path_of};
ghost use Rattle.tree_model.specs.Trees.{node_of_path};
ghost use Rattle.flush_actor.specs.Kinds.{is_whole};
ghost use Rattle.host_machine.specs.State.{Answered};
ghost use Rattle.minix_host.specs.Calls.{kind_of, path_of_call};
ghost use Rattle.tree_model.specs.declared.node.Node.{Node};
ghost use Rattle.call_sessions.specs.promises.Answers.{AnsweredAt};
ghost use Rattle.call_sessions.specs.promises.Entries.{EndsAt};
ghost use Rattle.call_sessions.specs.promises.Legal.{events_in};
ghost use Rattle.session_grammar.specs.declared.session_script.SessionScript.{SessionScript};
ghost use Rattle.session_core.specs.CallNames.{is_sync_call, covers_data_alone};
ghost use Rattle.session_core.specs.Core.{EndState};
ghost use Rattle.session_core.specs.Headline.{told_by, HeadlineOn};
ghost use Rattle.session_core.specs.declared.report.SessionReport.{SessionReport};
ghost use Rattle.application_trees.specs.Outcomes.{Shows, Grows};
ghost use Rattle.application_trees.specs.Pairs.{Pair};
ghost use Rattle.application_trees.specs.Programs.{ends, IsReplaceProgram, HasReplaced};
ghost use Rattle.application_trees.specs.Runs.{IsMoved, IsReplacing};
ghost use Rattle.application_laws.specs.Left.{room_for, trees_of, left_of, IsBarred, AreLogged};

/// A law, which does nothing when it is called: a file was synced with its metadata. Then a new one was prepared under a path of
/// its own, a barrier or sync call on that was answered Ok, and behind the answer it was renamed over the old one. Wherever the
/// power goes off from the sync's answer on, the path shows all of the old file or all of the new one.
pub fn replaced_files_are_old_or_new()
    ensures { (s : SessionScript) (end : EndState) (r : SessionReport) (is : HeadlineOn s end r) →
        (path other : List ℕ) (fresh names : List (List ℕ)) (old a : ℕ) (before : File) (new b p : ℕ) (after : File) → IsReplacing (room_for s) (trees_of s end) path other fresh names old a before new b p after →
        (e : ℕ) (sync : IsBarred s end r is old a e) → is_sync_call sync.call ≡ true → covers_data_alone sync.call ≡ false → (d : ℕ) → IsBarred s end r is new b d → d < p →
        Shows is.prefix.tree names before ⊎ Shows is.prefix.tree names after }
{}

/// A law, which does nothing when it is called: a message was written under a path of its own, a barrier or sync call on it was
/// answered Ok, and behind the answer it was renamed to a path that led nowhere. If that path leads anywhere in the recovered
/// tree, it shows the message, whole; and it does behind a sync call that begins after the rename and is answered Ok.
pub fn messages_are_whole_after_recovery()
    ensures whole { (s : SessionScript) (end : EndState) (r : SessionReport) (is : HeadlineOn s end r) →
        (path other : List ℕ) (fresh names : List (List ℕ)) (new b p : ℕ) (g : File) → IsMoved (room_for s) (trees_of s end) path other fresh names new b p g →
        (d : ℕ) → IsBarred s end r is new b d → d < p → ((v birth : ℕ) → v ≤ p → node_of_path (trees_of s end v) names ≡ Ok birth → ⊥) → IsOk (node_of_path is.prefix.tree names) → Shows is.prefix.tree names g }
    ensures there { (s : SessionScript) (end : EndState) (r : SessionReport) (is : HeadlineOn s end r) →
        (path other : List ℕ) (fresh names : List (List ℕ)) (new b p : ℕ) (g : File) → IsMoved (room_for s) (trees_of s end) path other fresh names new b p g →
        (d : ℕ) → IsBarred s end r is new b d → d < p → (any a e : ℕ) (sync : IsBarred s end r is any a e) → is_sync_call sync.call ≡ true → covers_data_alone sync.call ≡ false → p < a → Shows is.prefix.tree names g }
{}

/// A law, which does nothing when it is called: the same without a barrier, where each write to the new file made it larger or
/// gave it a block that it did not have.
pub fn new_files_need_no_barrier()
    ensures { (s : SessionScript) (end : EndState) (r : SessionReport) (is : HeadlineOn s end r) →
        (path other : List ℕ) (fresh names : List (List ℕ)) (old a : ℕ) (before : File) (new b p : ℕ) (after : File) → IsReplacing (room_for s) (trees_of s end) path other fresh names old a before new b p after →
        (e : ℕ) (sync : IsBarred s end r is old a e) → is_sync_call sync.call ≡ true → covers_data_alone sync.call ≡ false → Grows (left_of s end r is) new b →
        Shows is.prefix.tree names before ⊎ Shows is.prefix.tree names after }
{}

/// A law, which does nothing when it is called: records of a log and pages, in pairs; each record was written, and stays, a barrier
/// or sync call that covers it was answered Ok, and only then its page was written. Where the recovered tree shows a page, it
/// shows the records up to its own.
pub fn pages_have_their_records()
    ensures { (s : SessionScript) (end : EndState) (r : SessionReport) (is : HeadlineOn s end r) →
        (log file n : ℕ) (pair : ℕ → Pair) → AreLogged s end r is log file n pair → (names : List (List ℕ)) → node_of_path (trees_of s end ((told_by s end).cut r.found)) names ≡ Ok file →
        (m : ℕ) → m < n → block_at is.prefix.tree (is.prefix.alike.to file) (pair m).page ≡ Some (pair m).bytes → (k : ℕ) → k ≤ m →
        block_at is.prefix.tree (is.prefix.alike.to log) (pair k).place ≡ Some (pair k).body }
{}

/// A law, which does nothing when it is called: a script's one thread syncs a file, makes a new one, writes to it as often as it likes, calls
/// `fdatabarrier` on it and renames it over the old one; before that it does what it likes, and behind it what leaves the tree.
/// Where the rename was answered Ok, the path shows all of the old file or all of the new one, and where it was not answered all of
/// the old one, whatever the events are and wherever the power went.
pub fn scripts_replace_files_whole()
    ensures replaced { (s : SessionScript) (end : EndState) (r : SessionReport) (is : HeadlineOn s end r) →
        (program before : List Call) (path other : List ℕ) (ws more : List Call) → s.programs ≡ program ∷ [] → IsReplaceProgram program before path other ws more →
        (fresh names : List (List ℕ)) (old a : ℕ) (f : File) (new b p : ℕ) (g : File) → HasReplaced (trees_of s end) (events_in end.host.history) before ws path other fresh names old a f new b p g →
        (t : ℕ) → EndsAt end.host.history p t (calls.Rename path other) (Answered replies.Ok) →
        (e : ℕ) (sync : IsBarred s end r is old a e) → is_sync_call sync.call ≡ true → covers_data_alone sync.call ≡ false → (d : ℕ) → IsBarred s end r is new b d → d < p →
        Shows is.prefix.tree names f ⊎ Shows is.prefix.tree names g }
    ensures waits { (s : SessionScript) (end : EndState) (r : SessionReport) (is : HeadlineOn s end r) →
        (program before : List Call) (path other : List ℕ) (ws more : List Call) → s.programs ≡ program ∷ [] → IsReplaceProgram program before path other ws more →
        (fresh names : List (List ℕ)) → path_of path ≡ Some fresh → (old a : ℕ) (f : File) → ends (take a (events_in end.host.history)) ≡ length before → LeadsTo (trees_of s end a) names old (nodes.File f) →
        ((birth : ℕ) → node_of_path (trees_of s end a) fresh ≡ Ok birth → ⊥) → ((n t : ℕ) (y : Reply) → EndsAt end.host.history n t (calls.Rename path other) (Answered y) → ⊥) →
        (e : ℕ) (sync : IsBarred s end r is old a e) → is_sync_call sync.call ≡ true → covers_data_alone sync.call ≡ false → Shows is.prefix.tree names f }
{}

/// A law, which does nothing when it is called: a barrier or sync call of a path that was answered Ok covers the file to which the
/// path led where it began, up to there.
pub fn calls_of_a_path_cover_its_file()
    ensures { (s : SessionScript) (end : EndState) (r : SessionReport) (is : HeadlineOn s end r) (e t : ℕ) (c : Call) (ok : AnsweredAt end.host e t c) (path : List ℕ) (names : List (List ℕ)) (f : ℕ) (node : Node) →
        path_of_call c ≡ Some path → is_whole (kind_of c) ≡ false → path_of path ≡ Some names → LeadsTo (trees_of s end (is.answered e t c ok).place) names f node →
        IsBarred s end r is f (is.answered e t c ok).place e }
{}
