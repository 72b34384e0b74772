//! Laws of the grammar. Each call does nothing.
ghost use Rattle.std.specs.Prelude.{◌≡◌, ℕ, ◌↔◌, List, Ok, Err};
ghost use Rattle.script_words.specs.Spelling.{lines_of};
ghost use Rattle.script_words.specs.laws.Texts.{kept_lines};
ghost use Rattle.script_grammar.specs.declared.kinds.ScriptKind.{ScriptKind};
ghost use Rattle.session_grammar.specs.declared.session_script.SessionScript.{SessionScript};
ghost use Rattle.session_grammar.specs.Grammar.{session_of};
ghost use Rattle.session_grammar.specs.WellFormed.{IsWellFormed};
ghost use Rattle.session_grammar.specs.laws.Accepted.{SaysSession};
ghost use Rattle.session_grammar.specs.laws.FirstFault.{IsFirstFault};
ghost use Rattle.session_grammar.specs.laws.Speller.{session_text};

use script_grammar::ScriptKind;

/// A text is refused at a line with a kind exactly where that is its first faulty line.
pub fn sessions_tell_first_fault()
    ensures { (bytes : List ℕ) (n : ℕ) (kind : ScriptKind) → (session_of bytes ≡ Err (n, kind)) ↔ IsFirstFault (lines_of bytes) n kind }
{}

/// What the speller writes of a well-formed volume script is read back as that script, and every script that is
/// read is well-formed.
pub fn sessions_are_read_back()
    ensures spelled { (s : SessionScript) → IsWellFormed s → session_of (session_text s) ≡ Ok s }
    ensures read { (bytes : List ℕ) (s : SessionScript) → session_of bytes ≡ Ok s → IsWellFormed s }
{}

/// A text is accepted as a volume script exactly where that is well-formed and the text is what the speller writes
/// of it, but for skipped lines, the order of header lines, how turns are parted (`round 2 x 3` is `round 6`), and what
/// may be left out because it is the default.
pub fn sessions_are_what_is_spelled()
    ensures { (bytes : List ℕ) (s : SessionScript) → (session_of bytes ≡ Ok s) ↔ (IsWellFormed s × SaysSession s (kept_lines (lines_of bytes))) }
{}
