//! The laws. Each call does nothing.
ghost use Rattle.std.specs.Prelude.{◌≡◌, ℕ, ◌≤◌, ◌↔◌, List, Ok};
ghost use Rattle.script_words.specs.Spelling.{lines_of};
ghost use Rattle.script_words.specs.laws.Texts.{kept_lines};
ghost use Rattle.session_grammar.specs.Grammar.{session_of};
ghost use Rattle.session_grammar.specs.WellFormed.{IsWellFormed};
ghost use Rattle.session_grammar.specs.laws.Accepted.{SaysSession};
ghost use Rattle.session_grammar.specs.laws.Speller.{session_text};
ghost use Rattle.session_report.specs.bulk.Workload.{bulk_of};
ghost use Rattle.session_report.specs.declared.bulk.limits.TheConstants.{MOST_GENERATED};

/// A law, which does nothing when it is called: the workload of a number is a well-formed script. The text that the
/// speller writes of it is read as it, and so is each text that says it, and no other.
pub fn workloads_are_scripts()
    ensures formed { (n : ℕ) → 1 ≤ n → n ≤ MOST_GENERATED → IsWellFormed (bulk_of n) }
    ensures spelled { (n : ℕ) → 1 ≤ n → n ≤ MOST_GENERATED → session_of (session_text (bulk_of n)) ≡ Ok (bulk_of n) }
    ensures read { (n : ℕ) → 1 ≤ n → n ≤ MOST_GENERATED → (bytes : List ℕ) →
        (session_of bytes ≡ Ok (bulk_of n)) ↔ SaysSession (bulk_of n) (kept_lines (lines_of bytes)) }
{}
