//! Laws of calls and their words.
ghost use Rattle.std.specs.Prelude.{◌≡◌, ℕ, ◌↔◌, List, Ok};
ghost use Rattle.tree_model.specs.declared.call.Call.{Call};
ghost use Rattle.line_grammar.specs.calls.WellFormed.{IsWellFormed};
ghost use Rattle.line_grammar.specs.calls.laws.Speller.{call_words, with_lower_digits, line_of};

/// A law, which does nothing when it is called: words are read as a call exactly where that is well-formed and they
/// are what the speller writes of it, but for hexadecimal digits in upper case; and what it writes is read back.
pub fn calls_are_spelled()
    ensures read { (ws : List (List ℕ)) (c : Call) → (line_of ws ≡ Ok c) ↔ (IsWellFormed c × (with_lower_digits ws ≡ call_words c)) }
    ensures spelled { (c : Call) → IsWellFormed c → line_of (call_words c) ≡ Ok c }
{}
