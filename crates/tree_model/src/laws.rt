//! Laws of trees, their text and calls on them.
ghost use Rattle.std.specs.Prelude.{◌≡◌, ℕ, List, [], ◌∷◌, ◌↔◌, Some, Ok, codes};
ghost use Rattle.std.specs.List.{slice_get};
ghost use Rattle.blk_base.specs.Members.{In};
ghost use Rattle.tree_model.specs.declared.node.Node.{Node};
ghost use Rattle.tree_model.specs.laws.Listing.{Listed, Lists, listed_root, listing_text};
ghost use Rattle.tree_model.specs.Rooted.{IsRooted};
ghost use Rattle.tree_model.specs.Text.{tree_text};
ghost use Rattle.tree_model.specs.Trees.{node_of_path, AreAlike, IsSameButBirths};
ghost use Rattle.tree_model.specs.Maps.{at_number};
ghost use Rattle.tree_model.specs.declared.call.Call.TheVariants as calls;
ghost use Rattle.tree_model.specs.laws.Examples.{new_tree, small_room, replies_to, needs_after, write_block, names_session, names_replies, moves_session, moves_replies, last_block_session, last_block_replies};

/// A law, which does nothing when it is called: the text of a tree that hangs together has the lines of each of its
/// paths, once, each path before those that its directory leads to.
pub fn texts_list_paths()
    ensures text { (tree : List (ℕ × Node)) → IsRooted tree →
        (listing : List Listed) × Lists tree (listed_root ∷ []) listing × (tree_text tree ≡ listing_text tree [] listing) }
    ensures paths { (tree : List (ℕ × Node)) → IsRooted tree →
        (listing : List Listed) → Lists tree (listed_root ∷ []) listing → (names : List (List ℕ)) (birth : ℕ) →
        (node_of_path tree names ≡ Ok birth) ↔ In (record { names = names; birth = birth }) listing }
    ensures once { (tree : List (ℕ × Node)) → IsRooted tree →
        (listing : List Listed) → Lists tree (listed_root ∷ []) listing → (i j : ℕ) (e f : Listed) →
        slice_get listing i ≡ Some e → slice_get listing j ≡ Some f → e.names ≡ f.names → i ≡ j }
{}

/// A law, which does nothing when it is called: trees with the same metadata. A tree has the same as itself, and what
/// has the same as a second tree has the same as a third that the second has the same as; so where the bytes of files
/// count too.
pub fn same_metadata_chains()
    ensures itself { (tree : List (ℕ × Node)) → IsRooted tree → AreAlike tree tree }
    ensures chain { (tree second third : List (ℕ × Node)) → AreAlike tree second → AreAlike second third → AreAlike tree third }
    ensures same_itself { (tree : List (ℕ × Node)) → IsRooted tree → IsSameButBirths tree tree }
    ensures same_chain { (tree second third : List (ℕ × Node)) →
        IsSameButBirths tree second → IsSameButBirths second third → IsSameButBirths tree third }
{}

/// A law, which does nothing when it is called: each node of a tree that hangs together has a path, and each path leads
/// to a node.
pub fn nodes_have_paths()
    ensures path { (tree : List (ℕ × Node)) → IsRooted tree → (birth : ℕ) (node : Node) → at_number tree birth ≡ Some node →
        (names : List (List ℕ)) × (node_of_path tree names ≡ Ok birth) }
    ensures node { (tree : List (ℕ × Node)) → IsRooted tree → (names : List (List ℕ)) (birth : ℕ) → node_of_path tree names ≡ Ok birth →
        (node : Node) × (at_number tree birth ≡ Some node) }
{}

/// A law, which does nothing when it is called: examples of calls on a new volume. A session gets most of the replies
/// there are, and one with links and renames too; a file can have bytes up to 268,966,912 and not one more; and a first byte in a file takes one zone, with
/// an indirect block two, with a double indirect one three, and in a group of blocks that has its second-level block
/// one again.
pub fn examples_of_calls()
    ensures replies { replies_to small_room (new_tree 14) 1 names_session ≡ names_replies }
    ensures moves { replies_to small_room (new_tree 14) 1 moves_session ≡ moves_replies }
    ensures last_block { replies_to small_room (new_tree 14) 1 last_block_session ≡ last_block_replies }
    ensures direct { needs_after (calls.Create (codes "/f") ∷ []) (write_block 0) ≡ 1 }
    ensures indirect { needs_after (calls.Create (codes "/f") ∷ []) (write_block 7) ≡ 2 }
    ensures double_indirect { needs_after (calls.Create (codes "/f") ∷ []) (write_block 519) ≡ 3 }
    ensures same_group { needs_after (calls.Create (codes "/f") ∷ write_block 519 ∷ []) (write_block 1030) ≡ 1 }
    ensures next_group { needs_after (calls.Create (codes "/f") ∷ write_block 519 ∷ []) (write_block 1031) ≡ 2 }
{}
