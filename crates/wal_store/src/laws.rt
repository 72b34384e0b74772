//! Laws of puts and their blocks. Each call does nothing.
ghost use Rattle.std.specs.Prelude.{◌≡◌, ℕ, ◌^◌, ◌<◌, ◌↔◌, List, Some, length};
ghost use Rattle.wal_store.specs.declared.puts.Put.{Put};
ghost use Rattle.wal_store.specs.Puts.{IsPut};
ghost use Rattle.wal_store.specs.Blocks.{encode, decode};
ghost use Rattle.wal_store.specs.Log.{AreHeld, held_puts, pairs_of, last_value};
ghost use Rattle.tree_model.specs.Maps.{at_name};
ghost use Rattle.tree_model.specs.laws.MapOrder.{NamesInOrder};

/// What is written of a put is read as that put, and a block is read as a put exactly where it is what is written of
/// it.
pub fn puts_are_read_back()
    ensures written { (n : ℕ) (p : Put) → n < 2 ^ 32 → IsPut p → decode (encode n p) ≡ Some (n, p) }
    ensures read { (b : List ℕ) (n : ℕ) (p : Put) → (decode b ≡ Some (n, p)) ↔ ((n < 2 ^ 32) × IsPut p × (b ≡ encode n p)) }
    ensures size { (n : ℕ) (p : Put) → IsPut p → length (encode n p) ≡ 1024 }
{}

/// As many puts are held as the first blocks of a log spell, each the one of its place: the block behind them spells no
/// put, or another one.
pub fn logs_hold_the_first_puts()
    ensures { (blocks : List (List ℕ)) → AreHeld blocks (length (held_puts blocks)) }
{}

/// Puts leave each of their keys once, in the order of the keys' bytes, with the value of its last put.
pub fn pairs_have_last_values()
    ensures value { (ps : List Put) (key : List ℕ) → at_name (pairs_of ps) key ≡ last_value ps key }
    ensures order { (ps : List Put) → NamesInOrder (pairs_of ps) }
{}
