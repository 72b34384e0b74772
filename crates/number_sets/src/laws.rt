//! Laws of sets of numbers.
ghost use Rattle.std.specs.Prelude.{◌≡◌, ◌↔◌, ℕ, ◌<◌, ◌≤◌, ◌⊎◌, true, List, length};
ghost use Rattle.blk_base.specs.Members.{In};
ghost use Rattle.number_sets.specs.Sets.{has, with, with_all, without_all, IsRising};

/// A law, which does nothing when it is called: a set has what was added and not taken away, and nothing else; each
/// number stands in it once, in rising order; and a set of numbers below `n` has at most `n` of them.
pub fn sets_have_what_was_added()
    ensures has { (xs : List ℕ) (x : ℕ) → (has xs x ≡ true) ↔ In x xs }
    ensures with { (xs : List ℕ) (x y : ℕ) → In y (with xs x) ↔ (In y xs ⊎ (x ≡ y)) }
    ensures with_all { (xs ys : List ℕ) (y : ℕ) → In y (with_all xs ys) ↔ (In y xs ⊎ In y ys) }
    ensures without_all { (xs ys : List ℕ) (y : ℕ) → In y (without_all xs ys) ↔ (In y xs × (In y ys → ⊥)) }
    ensures rising_with { (xs ys : List ℕ) → IsRising xs → IsRising (with_all xs ys) }
    ensures rising_without { (xs ys : List ℕ) → IsRising xs → IsRising (without_all xs ys) }
    ensures few { (xs : List ℕ) (n : ℕ) → IsRising xs → ((x : ℕ) → In x xs → x < n) → length xs ≤ n }
{}
