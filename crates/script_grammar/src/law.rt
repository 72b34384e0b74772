//! Laws of the grammar. Each call does nothing.
ghost use Rattle.std.specs.Prelude.{◌≡◌, ℕ, ◌↔◌, List, Ok, Err};
ghost use Rattle.script_grammar.specs.declared.kinds.ScriptKind.{ScriptKind};
ghost use Rattle.script_grammar.specs.declared.script.Script.{Script};
ghost use Rattle.script_words.specs.Spelling.{lines_of};
ghost use Rattle.script_words.specs.laws.Texts.{kept_lines};
ghost use Rattle.script_grammar.specs.Grammar.{script_of};
ghost use Rattle.script_grammar.specs.laws.FirstFault.{IsFirstFault};
ghost use Rattle.script_grammar.specs.laws.Speller.{script_text};
ghost use Rattle.script_grammar.specs.WellFormed.{IsWellFormed};
ghost use Rattle.script_grammar.specs.laws.Accepted.{SaysScript};

use crate::kinds::ScriptKind;

/// A text is refused at a line with a kind exactly where that is its first faulty line.
pub fn tells_first_fault()
    ensures { (bytes : List ℕ) (n : ℕ) (kind : ScriptKind) → (script_of bytes ≡ Err (n, kind)) ↔ IsFirstFault (lines_of bytes) n kind }
{}

/// What the speller writes of a well-formed script is read back as that script, and every script that is
/// read is well-formed.
pub fn reads_what_is_spelled()
    ensures spelled { (s : Script) → IsWellFormed s → script_of (script_text s) ≡ Ok s }
    ensures read { (bytes : List ℕ) (s : Script) → script_of bytes ≡ Ok s → IsWellFormed s }
{}

/// A text is accepted as a script exactly where that is well-formed and the text is what the speller writes of
/// it, but for skipped lines, the order of header lines, and what may be left out because it is the default.
pub fn accepts_what_is_spelled()
    ensures { (bytes : List ℕ) (s : Script) → (script_of bytes ≡ Ok s) ↔ (IsWellFormed s × SaysScript s (kept_lines (lines_of bytes))) }
{}
