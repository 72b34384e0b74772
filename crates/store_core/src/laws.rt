//! The laws of a store. Each call does nothing.
ghost use Rattle.std.specs.Prelude.{◌≡◌, ℕ, ◌<◌, ◌≤◌, List, Some, None, Ok, length, take, slice_get};
ghost use Rattle.tree_model.specs.declared.call.Call.TheVariants.{Fdatasync};
ghost use Rattle.tree_model.specs.Histories.{block_at};
ghost use Rattle.tree_model.specs.Trees.{node_of_path};
ghost use Rattle.wal_store.specs.declared.puts.Put.{Put};
ghost use Rattle.wal_store.specs.Blocks.{decode};
ghost use Rattle.wal_store.specs.calls.Calls.{log_path};
ghost use Rattle.store_grammar.specs.declared.script.StoreScript.{StoreScript};
ghost use Rattle.store_grammar.specs.Made.{volume_script};
ghost use Rattle.store_grammar.specs.WellFormed.{IsWellFormed};
ghost use Rattle.call_sessions.specs.promises.Answers.{AnsweredAt};
ghost use Rattle.session_core.specs.Core.{EndState};
ghost use Rattle.session_core.specs.Headline.{HeadlineOn};
ghost use Rattle.session_core.specs.declared.report.SessionReport.{SessionReport};
ghost use Rattle.store_core.specs.Program.{NoneFull, log_names};
ghost use Rattle.store_core.specs.Stores.{IsPutBefore, WasPut, acknowledged_in, held_of, puts_in};

/// Where no call was turned away for want of requests, each put that stands before a flush which was answered Ok is held.
/// So as many are held as were acknowledged.
pub fn acknowledged_puts_are_held()
    ensures each { (x : StoreScript) (end : EndState) (r : SessionReport) → IsWellFormed x → (is : HeadlineOn (volume_script x) end r) → NoneFull end →
        (e t : ℕ) → AnsweredAt end.host e t (Fdatasync log_path) → (i : ℕ) → IsPutBefore x end i e → i < length (held_of x is.prefix.tree) }
    ensures count { (x : StoreScript) (end : EndState) (r : SessionReport) → IsWellFormed x → (is : HeadlineOn (volume_script x) end r) → NoneFull end →
        acknowledged_in end ≤ length (held_of x is.prefix.tree) }
{}

/// The puts that are held are the first ones of the script, and each of them was answered Ok.
pub fn held_puts_were_answered()
    ensures first { (x : StoreScript) (end : EndState) (r : SessionReport) → IsWellFormed x → (is : HeadlineOn (volume_script x) end r) → NoneFull end →
        held_of x is.prefix.tree ≡ take (length (held_of x is.prefix.tree)) (puts_in x.ops) }
    ensures answered { (x : StoreScript) (end : EndState) (r : SessionReport) → IsWellFormed x → (is : HeadlineOn (volume_script x) end r) → NoneFull end →
        (i : ℕ) (p : Put) → i < length (held_of x is.prefix.tree) → slice_get (puts_in x.ops) i ≡ Some p → WasPut end i p }
{}

/// No block of the log behind the puts that are held spells a put: so nothing that was put later survived a put that was
/// lost. The barrier call behind each put stands for this, and no flush.
pub fn nothing_put_later_survives_a_lost_put()
    ensures { (x : StoreScript) (end : EndState) (r : SessionReport) → IsWellFormed x → (is : HeadlineOn (volume_script x) end r) → NoneFull end →
        (g j : ℕ) (b : List ℕ) → node_of_path is.prefix.tree log_names ≡ Ok g → length (held_of x is.prefix.tree) ≤ j → block_at is.prefix.tree g j ≡ Some b → decode b ≡ None }
{}
