//! Laws of event lines and `recover` lines.
ghost use Rattle.std.specs.Prelude.{◌≡◌, ℕ, ◌↔◌, List, Ok};
ghost use Rattle.line_grammar.specs.declared.events.event.EventLine.{EventLine};
ghost use Rattle.line_grammar.specs.declared.events.steer.Steer.{Steer};
ghost use Rattle.line_grammar.specs.events.SteerLines.{steers_of};
ghost use Rattle.line_grammar.specs.events.WellFormed.{IsEventLine, IsSteerLine};
ghost use Rattle.line_grammar.specs.events.laws.Speller.{SaysEvent, event_line_words, line_of, steer_words};

/// A law, which does nothing when it is called: words are read as an event line exactly where that is well-formed and
/// they say it, where a count of 1 may be left out and turns may be parted in any way (`round 2 x 3` is `round 6`); and
/// what the speller writes of it is read back.
pub fn events_are_spelled()
    ensures read { (ws : List (List ℕ)) (l : EventLine) → (line_of ws ≡ Ok l) ↔ (IsEventLine l × SaysEvent l ws) }
    ensures spelled { (l : EventLine) → IsEventLine l → line_of (event_line_words l) ≡ Ok l }
{}

/// A law, which does nothing when it is called: the words behind `recover` are read as steps exactly where these are
/// within their limits and the words are what the speller writes of them.
pub fn steers_are_spelled()
    ensures { (ws : List (List ℕ)) (ss : List Steer) → (steers_of ws ≡ Ok ss) ↔ (IsSteerLine ss × (ws ≡ steer_words ss)) }
{}
