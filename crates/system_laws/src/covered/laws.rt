//! Laws of sessions whose volume was recovered. Each does nothing when it is called.
ghost use Rattle.std.specs.Prelude.{◌≡◌, ◌⊎◌, ◌≤◌, ◌<◌, ◌↔◌, ℕ, ◌+◌, suc, true, false, List, Some, Ok, IsOk, is_some};
ghost use Rattle.std.specs.Map.{keys_of};
ghost use Rattle.blk_base.specs.Members.{In};
ghost use Rattle.order_model.specs.declared.completion.Completion.TheVariants.{Flushed};
ghost use Rattle.order_model.specs.OrderClosed.{IsPut, IsOrdered, IsFence, IsFlushAt, IsKept};
ghost use Rattle.tree_model.specs.declared.call.Call.{Call};
ghost use Rattle.tree_model.specs.declared.node.Directory.{Directory};
ghost use Rattle.tree_model.specs.declared.node.File.{File};
ghost use Rattle.tree_model.specs.declared.node.Node.TheVariants as nodes;
ghost use Rattle.tree_model.specs.declared.call.Reply.{Reply};
ghost use Rattle.tree_model.specs.declared.call.Reply.TheVariants as replies;
ghost use Rattle.tree_model.specs.Calls.{reply_of};
ghost use Rattle.tree_model.specs.Causes.{LeadsTo};
ghost use Rattle.tree_model.specs.Histories.{block_at, same_file};
ghost use Rattle.tree_model.specs.Maps.{at_number};
ghost use Rattle.tree_model.specs.Trees.{directory_links, node_of_path, AreAlike};
ghost use Rattle.volume_steps.specs.Now.{room_of};
ghost use Rattle.call_sessions.specs.promises.Trees.{tree_at};
ghost use Rattle.session_grammar.specs.declared.session_script.SessionScript.{SessionScript};
ghost use Rattle.session_core.specs.CallEnds.{IsTreesReply};
ghost use Rattle.session_core.specs.CallNames.{is_barrier_or_sync, covers_data_alone, covers_all_files};
ghost use Rattle.host_machine.specs.State.{Answered};
ghost use Rattle.call_sessions.specs.promises.Entries.{EndsAt};
ghost use Rattle.session_core.specs.Core.{EndState, opening_of};
ghost use Rattle.session_core.specs.Headline.{told_by, HeadlineOn};
ghost use Rattle.session_core.specs.Report.{tree_behind};
ghost use Rattle.session_core.specs.declared.report.SessionReport.{SessionReport};
ghost use Rattle.system_laws.specs.covered.Calls.{Counts, HasPath, IsAnsweredOk, IsOnFile, IsShownFrom, IsThereSince};

/// A law, which does nothing when it is called: where a write survived, each order-preserving write survived that was
/// submitted before it with a barrier or a flush at or behind that one and before this one, and each write at all with a flush
/// between; and where a flush completed, all writes that were submitted before it did.
pub fn writes_survive_in_order()
    ensures order { (s : SessionScript) (end : EndState) (r : SessionReport) → HeadlineOn s end r → (i b j : ℕ) → let requests = end.host.journal.flush.requests in
        IsPut requests i → IsOrdered requests i → i ≤ b → IsFence requests b → b < j → IsPut requests j → IsKept requests r.cut.origins j → IsKept requests r.cut.origins i }
    ensures across { (s : SessionScript) (end : EndState) (r : SessionReport) → HeadlineOn s end r → (i f j : ℕ) → let requests = end.host.journal.flush.requests in
        IsPut requests i → i < f → IsFlushAt requests f → f < j → IsPut requests j → IsKept requests r.cut.origins j → IsKept requests r.cut.origins i }
    ensures flushed { (s : SessionScript) (end : EndState) (r : SessionReport) → HeadlineOn s end r → (i flush : ℕ) → let requests = end.host.journal.flush.requests in
        IsPut requests i → i < flush → In (Flushed flush) r.cut.trace.sent.items → IsKept requests r.cut.origins i }
{}

/// A law, which does nothing when it is called: the words of the next law leave no call out. Each barrier or sync call is on
/// all files or has a path, and each that was answered Ok began at some place before.
pub fn each_barrier_or_sync_call_is_meant()
    ensures files { (c : Call) → is_barrier_or_sync c ≡ true → (covers_all_files c ≡ true) ⊎ ((path : List ℕ) × HasPath c path) }
    ensures answered { (s : SessionScript) (end : EndState) (r : SessionReport) → HeadlineOn s end r → (e t : ℕ) (c : Call) →
        is_barrier_or_sync c ≡ true → EndsAt end.host.history e t c (Answered replies.Ok) → (b : ℕ) × IsAnsweredOk end.host b e t c }
{}

/// A law, which does nothing when it is called: a barrier or sync call was answered Ok; and it is a sync call, or something
/// that was done after its answer survived. Unless it covers data alone, the tree that was recovered has the paths and the
/// metadata of a tree at or behind its begin. And each block that was written before its begin, to the file to which its path
/// led then, or of `sync` to any file, is there in a version that is no older than that write, and of a tree that has the
/// block, if no call of a found transaction removed it.
pub fn calls_keep_what_they_cover()
    ensures metadata { (s : SessionScript) (end : EndState) (r : SessionReport) (is : HeadlineOn s end r) (b e t : ℕ) (c : Call) →
        IsAnsweredOk end.host b e t c → Counts s end r e c → covers_data_alone c ≡ false →
        (v : ℕ) × (b ≤ v) × AreAlike (tree_at (opening_of s) end.host v) is.prefix.tree }
    ensures blocks { (s : SessionScript) (end : EndState) (r : SessionReport) (is : HeadlineOn s end r) (b e t : ℕ) (c : Call) →
        IsAnsweredOk end.host b e t c → Counts s end r e c →
        (f i n : ℕ) → IsOnFile (tree_at (opening_of s) end.host b) c f → n ≤ b → IsThereSince s end r f i n →
        IsShownFrom s end r is f i n }
{}

/// A law, which does nothing when it is called: a block that a file has after the calls of the transactions that were
/// found is there in a version that is no older than any write of it up to the last of these calls which changed the size
/// or the mapped blocks of the file, and of a tree that has the block. So no file shows zeros or older bytes where its
/// recovered size or map came later.
pub fn blocks_are_as_new_as_their_file()
    ensures { (s : SessionScript) (end : EndState) (r : SessionReport) (is : HeadlineOn s end r) (f i m n : ℕ) →
        is_some (block_at (tree_behind (opening_of s) end.host r.found) f i) ≡ true → (told_by s end).writes n f i ≡ true →
        same_file (at_number (tree_at (opening_of s) end.host m) f) (at_number (tree_at (opening_of s) end.host (suc m)) f) ≡ false → n ≤ suc m → suc m ≤ (told_by s end).cut r.found →
        IsShownFrom s end r is f i n }
{}

/// A law, which does nothing when it is called: each path that leads to a file after the calls of the transactions that
/// were found leads to a file in the tree that was recovered, of the same size, with as many links and with the same blocks
/// mapped; and each that leads to a directory leads to one there, of as many slots and with as many links. No other path
/// leads anywhere. Two paths lead to one node there exactly where they did.
pub fn recovered_trees_have_their_metadata()
    ensures files { (s : SessionScript) (end : EndState) (r : SessionReport) (is : HeadlineOn s end r) (names : List (List ℕ)) (birth : ℕ) (f : File) →
        LeadsTo (tree_behind (opening_of s) end.host r.found) names birth (nodes.File f) →
        (there : ℕ) × (g : File) × LeadsTo is.prefix.tree names there (nodes.File g) × (f.size ≡ g.size) × (f.links ≡ g.links) × (keys_of f.blocks ≡ keys_of g.blocks) }
    ensures directories { (s : SessionScript) (end : EndState) (r : SessionReport) (is : HeadlineOn s end r) (names : List (List ℕ)) (birth : ℕ) (d : Directory) →
        LeadsTo (tree_behind (opening_of s) end.host r.found) names birth (nodes.Directory d) →
        (there : ℕ) × (g : Directory) × LeadsTo is.prefix.tree names there (nodes.Directory g) × (d.slots ≡ g.slots)
        × (directory_links (tree_behind (opening_of s) end.host r.found) d ≡ directory_links is.prefix.tree g) }
    ensures no_more { (s : SessionScript) (end : EndState) (r : SessionReport) (is : HeadlineOn s end r) (names : List (List ℕ)) →
        IsOk (node_of_path is.prefix.tree names) → IsOk (node_of_path (tree_behind (opening_of s) end.host r.found) names) }
    ensures one_node { (s : SessionScript) (end : EndState) (r : SessionReport) (is : HeadlineOn s end r) (names more : List (List ℕ)) (a b x y : ℕ) →
        node_of_path (tree_behind (opening_of s) end.host r.found) names ≡ Ok a → node_of_path (tree_behind (opening_of s) end.host r.found) more ≡ Ok b →
        node_of_path is.prefix.tree names ≡ Ok x → node_of_path is.prefix.tree more ≡ Ok y → (a ≡ b) ↔ (x ≡ y) }
{}

/// A law, which does nothing when it is called: a reply of the tree to a call that is no barrier or sync call is what the
/// tree says right where the call ends, and not what it said at some entry before.
pub fn replies_are_of_the_tree_there()
    ensures { (s : SessionScript) (end : EndState) (r : SessionReport) → HeadlineOn s end r → (i t : ℕ) (c : Call) (reply : Reply) →
        is_barrier_or_sync c ≡ false → IsTreesReply (opening_of s) end.host i t c reply →
        reply ≡ reply_of (room_of (opening_of s).geometry) (tree_at (opening_of s) end.host i) (i + 1) c }
{}
