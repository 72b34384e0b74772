//! The law of call lines. The call does nothing.
ghost use Rattle.std.specs.Prelude.{◌≡◌, Ok};
ghost use Rattle.line_grammar.specs.calls.WellFormed.{IsWellFormed};
ghost use Rattle.line_grammar.specs.calls.laws.Speller.{line_of};
ghost use Rattle.script_words.specs.Spelling.{words_of};
ghost use Rattle.tree_model.specs.declared.call.Call.{Call};
ghost use Rattle.wal_store.specs.calls.CallText.{call_line};

/// The line that is written of a call is read as that call.
pub fn calls_are_read_back()
    ensures { (c : Call) → IsWellFormed c → line_of (words_of (call_line c)) ≡ Ok c }
{}
