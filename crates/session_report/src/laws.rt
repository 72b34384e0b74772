//! The law. It does nothing when it is called.
ghost use Rattle.session_grammar.specs.declared.session_script.SessionScript.{SessionScript};
ghost use Rattle.session_grammar.specs.WellFormed.{IsWellFormed};
ghost use Rattle.session_report.specs.ReportText.{AreAscii};

/// A law, which does nothing when it is called: the lines of a script that was read are of ASCII, so they are written as
/// they stand.
pub fn lines_of_scripts_are_ascii()
    ensures { (s : SessionScript) → IsWellFormed s → AreAscii s.lines }
{}
