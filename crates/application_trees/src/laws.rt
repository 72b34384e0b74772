//! The laws, each a public function that does nothing when it is called.
ghost use Rattle.std.specs.Prelude.{◌≡◌, ◌⊎◌, ◌<◌, ◌≤◌, ℕ, List, Ok, IsOk};
ghost use Rattle.tree_model.specs.declared.call.Room.{Room};
ghost use Rattle.tree_model.specs.declared.node.File.{File};
ghost use Rattle.tree_model.specs.Calls.{Tree, bytes_from};
ghost use Rattle.tree_model.specs.Trees.{node_of_path};
ghost use Rattle.application_trees.specs.Outcomes.{Outcome, HasHistory, Holds, Shows};
ghost use Rattle.application_trees.specs.Runs.{ArePlain, IsMoved, IsReplacing};

/// A law, which does nothing when it is called: a file that is replaced is all of the old one or all of the new one; and what a
/// path shows is what is read there.
pub fn files_are_replaced_whole()
    ensures whole { (room : Room) (T : ℕ → Tree) → ArePlain T → (o : Outcome) → ((n : ℕ) → o.tree_at n ≡ T n) → HasHistory o →
        (path other : List ℕ) (fresh names : List (List ℕ)) (old a : ℕ) (before : File) (new b p : ℕ) (after : File) → IsReplacing room T path other fresh names old a before new b p after →
        a ≤ o.cut → Holds o old a → (p < o.cut → Holds o new b) → Shows o.tree names before ⊎ Shows o.tree names after }
    ensures read { (tree : Tree) (names : List (List ℕ)) (g : File) (x : Shows tree names g) (off len : ℕ) → bytes_from x.file off len ≡ bytes_from g off len }
{}

/// A law, which does nothing when it is called: a message that was moved to its place is whole wherever its name is, and it is
/// there where the rename was recovered.
pub fn messages_are_whole()
    ensures whole { (room : Room) (T : ℕ → Tree) → ArePlain T → (o : Outcome) → ((n : ℕ) → o.tree_at n ≡ T n) → HasHistory o →
        (path other : List ℕ) (fresh names : List (List ℕ)) (new b p : ℕ) (g : File) → IsMoved room T path other fresh names new b p g →
        ((v birth : ℕ) → v ≤ p → node_of_path (T v) names ≡ Ok birth → ⊥) → (p < o.cut → Holds o new b) → IsOk (node_of_path o.tree names) → Shows o.tree names g }
    ensures there { (room : Room) (T : ℕ → Tree) → ArePlain T → (o : Outcome) → ((n : ℕ) → o.tree_at n ≡ T n) → HasHistory o →
        (path other : List ℕ) (fresh names : List (List ℕ)) (new b p : ℕ) (g : File) → IsMoved room T path other fresh names new b p g →
        p < o.cut → Holds o new b → Shows o.tree names g }
{}
