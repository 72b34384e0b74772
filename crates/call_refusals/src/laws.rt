//! The laws, each a public function that does nothing when it is called.
ghost use Rattle.std.specs.Prelude.{◌≡◌, ◌↔◌, ℕ, List, Ok, Err, IsOk, codes};
ghost use Rattle.tree_model.specs.declared.call.Call.{Call};
ghost use Rattle.tree_model.specs.declared.call.Call.TheVariants as calls;
ghost use Rattle.tree_model.specs.declared.call.Reply.{Reply};
ghost use Rattle.tree_model.specs.declared.call.Reply.TheVariants as replies;
ghost use Rattle.tree_model.specs.declared.call.Room.{Room};
ghost use Rattle.tree_model.specs.Calls.{Tree, outcome};
ghost use Rattle.tree_model.specs.Plain.{IsPlain, AreBornBefore};
ghost use Rattle.call_refusals.specs.Conditions.Condition.{there, parent_linked, file_linked, file_met, goal_linked, no_space};
ghost use Rattle.call_refusals.specs.Examples.{AreBoth, linked_tree, named_tree, wide_room, four_zones};
ghost use Rattle.call_refusals.specs.Tables.{table, IsFirst, NoneHolds};

/// A law, which does nothing when it is called: a call is refused with a reply just where the first row of its table
/// that holds has this reply, and it is done just where no row holds.
pub fn calls_are_refused_by_the_first_row()
    ensures refused { (room : Room) (tree : Tree) → IsPlain tree → (n : ℕ) → AreBornBefore n tree → (c : Call) (reply : Reply) →
        (outcome room tree n c ≡ Err reply) ↔ IsFirst room tree (table c) reply }
    ensures done { (room : Room) (tree : Tree) → IsPlain tree → (n : ℕ) → AreBornBefore n tree → (c : Call) →
        IsOk (outcome room tree n c) ↔ NoneHolds room tree (table c) }
{}

/// A law, which does nothing when it is called: examples in which two rows of a table hold, so that the order of these
/// tells the reply; and one in which a directory has all its links and gets another name in the same parent.
pub fn the_order_of_rows_tells()
    ensures kind_before_links { AreBoth wide_room linked_tree 300 (calls.Rename (codes "/q/x") (codes "/p/f"))
        (file_met (codes "/q/x") (codes "/p/f")) (goal_linked (codes "/q/x") (codes "/p/f")) replies.NotDir }
    ensures within_one_parent { IsOk (outcome wide_room linked_tree 300 (calls.Rename (codes "/p/d000") (codes "/p/e000"))) }
    ensures name_before_links { AreBoth wide_room linked_tree 300 (calls.Mkdir (codes "/p/d005"))
        (there (codes "/p/d005")) (parent_linked (codes "/p/d005")) replies.Exists }
    ensures name_before_file_links { AreBoth four_zones named_tree 300 (calls.Link (codes "/d000") (codes "/d001"))
        (there (codes "/d001")) (file_linked (codes "/d000")) replies.Exists }
    ensures links_before_space { AreBoth four_zones named_tree 300 (calls.Link (codes "/d000") (codes "/new"))
        (file_linked (codes "/d000")) (no_space 0 (codes "/new")) replies.TooManyLinks }
{}
