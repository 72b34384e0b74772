//! Laws of words and numbers.
ghost use Rattle.std.specs.Prelude.{◌≡◌, ℕ, ◌-◌, ◌^◌, ◌<◌, ◌↔◌, List, ◌∷◌, Some, map, true};
ghost use Rattle.std.specs.List.{join_with_byte, list_all};
ghost use Rattle.std.specs.Fmt.{decimal};
ghost use Rattle.byte_text.specs.Hex.{hex_text};
ghost use Rattle.script_words.specs.Spelling.{lines_of, words_of, numeral, hex_byte};
ghost use Rattle.script_words.specs.laws.Texts.{are_clear, lines_text};

/// A law, which does nothing when it is called: a word is read as a number below the end of 64 bits exactly where
/// it is how the number is written, and as a byte exactly where it is the byte's two digits.
pub fn numbers_are_spelled()
    ensures number { (w : List ℕ) (n : ℕ) → n < 2 ^ 64 - 1 → (numeral w ≡ Some n) ↔ (w ≡ decimal n) }
    ensures byte { (w : List ℕ) (v : ℕ) → v < 256 → (hex_byte w ≡ Some v) ↔ (w ≡ hex_text v) }
{}

/// A law, which does nothing when it is called: a text of lines is cut into these lines, and each line into its
/// words, where no word has a space or a line feed; and a line is its words with a space between each two.
pub fn texts_are_cut()
    ensures lines { (l : List (List ℕ)) (ls : List (List (List ℕ))) → list_all are_clear (l ∷ ls) ≡ true → lines_of (lines_text (l ∷ ls)) ≡ map (join_with_byte 32) (l ∷ ls) }
    ensures words { (w : List ℕ) (ws : List (List ℕ)) → are_clear (w ∷ ws) ≡ true → words_of (join_with_byte 32 (w ∷ ws)) ≡ w ∷ ws }
    ensures joined { (line : List ℕ) → join_with_byte 32 (words_of line) ≡ line }
{}
