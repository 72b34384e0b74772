//! Laws of the grammar and of the script that is made. Each call does nothing.
ghost use Rattle.std.specs.Prelude.{◌≡◌, ℕ, ◌↔◌, List, Ok, Err};
ghost use Rattle.script_words.specs.Spelling.{lines_of};
ghost use Rattle.script_words.specs.laws.Texts.{kept_lines};
ghost use Rattle.script_grammar.specs.declared.kinds.ScriptKind.{ScriptKind};
ghost use Rattle.session_grammar.specs.WellFormed as session;
ghost use Rattle.store_grammar.specs.declared.script.StoreScript.{StoreScript};
ghost use Rattle.store_grammar.specs.Grammar.{store_of};
ghost use Rattle.store_grammar.specs.Made.{volume_script};
ghost use Rattle.store_grammar.specs.WellFormed.{IsWellFormed};
ghost use Rattle.store_grammar.specs.laws.Accepted.{SaysStore};
ghost use Rattle.store_grammar.specs.laws.FirstFault.{IsFirstFault};
ghost use Rattle.store_grammar.specs.laws.Speller.{store_text};

use script_grammar::ScriptKind;

/// A text is refused at a line with a kind exactly where that is its first faulty line.
pub fn stores_tell_first_fault()
    ensures { (bytes : List ℕ) (n : ℕ) (kind : ScriptKind) → (store_of bytes ≡ Err (n, kind)) ↔ IsFirstFault (lines_of bytes) n kind }
{}

/// What the speller writes of a well-formed script is read back as that script, and every script that is read is
/// well-formed.
pub fn stores_are_read_back()
    ensures spelled { (s : StoreScript) → IsWellFormed s → store_of (store_text s) ≡ Ok s }
    ensures read { (bytes : List ℕ) (s : StoreScript) → store_of bytes ≡ Ok s → IsWellFormed s }
{}

/// A text is accepted as a store's script exactly where that is well-formed and the text is what the speller writes
/// of it, but for skipped lines, the order of header lines, how turns are parted (`round 2 x 3` is `round 6`), and what
/// may be left out because it is the default.
pub fn stores_are_what_is_spelled()
    ensures { (bytes : List ℕ) (s : StoreScript) → (store_of bytes ≡ Ok s) ↔ (IsWellFormed s × SaysStore s (kept_lines (lines_of bytes))) }
{}

/// The volume script that is made of a store's script is a well-formed one.
pub fn made_scripts_are_well_formed()
    ensures { (s : StoreScript) → IsWellFormed s → session.IsWellFormed (volume_script s) }
{}
