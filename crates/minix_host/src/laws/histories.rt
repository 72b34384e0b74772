//! Laws of histories and of their trees.
ghost use Rattle.std.specs.Prelude.{◌≡◌, ℕ, ◌+◌, List, map};
ghost use Rattle.minix_layout.specs.declared.division.Geometry.{Geometry};
ghost use Rattle.tree_model.specs.declared.call.Call.{Call};
ghost use Rattle.tree_model.specs.declared.call.Reply.{Reply};
ghost use Rattle.tree_model.specs.Histories.{tree_after_entries};
ghost use Rattle.tree_model.specs.Plain.{AreBornBefore};
ghost use Rattle.volume_steps.specs.Now.{room_of};
ghost use Rattle.crash_laws.specs.TreeHistory.{IsPlaceIn};
ghost use Rattle.host_machine.specs.State.{Entry};
ghost use Rattle.host_machine.specs.Views.{tree_after};
ghost use Rattle.minix_host.specs.Numbers.{number_in};
ghost use Rattle.minix_host.specs.Paths.{place_in};
ghost use Rattle.minix_host.specs.PlainTrees.{PlainTree};
ghost use Rattle.minix_host.specs.Runs.{acting};
ghost use Rattle.minix_host.specs.Sessions.{model_from};

/// A law, which does nothing when it is called: in a history each call has the number of its entry, which is above all
/// births; so the trees of the host's history are those that the tree model has after the same calls. It holds of any
/// entries that have calls of the tree model.
pub fn histories_number_their_calls<C>()
    ensures numbers { (call_of : C → Call) (g : Geometry) (opened : PlainTree) (first : ℕ) → AreBornBefore (first + 1) opened.tree → (es : List (Entry C Reply)) (n : ℕ) →
        number_in (tree_after (model_from call_of g opened first) es n).tree (first + (n + 1)) ≡ first + (n + 1) }
    ensures trees { (call_of : C → Call) (g : Geometry) (opened : PlainTree) (first : ℕ) → AreBornBefore (first + 1) opened.tree → (es : List (Entry C Reply)) (n : ℕ) →
        (tree_after (model_from call_of g opened first) es n).tree ≡ tree_after_entries (room_of g) opened.tree first (map (acting call_of) es) n }
{}

/// A law, which does nothing when it is called: a block of a file has its place on any path which leads to the file.
pub fn files_have_places()
    ensures places { (g : Geometry) (t : PlainTree) → IsPlaceIn g t.tree (λ found birth index. place_in found t.tree birth index) }
{}
