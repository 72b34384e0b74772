//! What is read after a write. Each call does nothing.
ghost use Rattle.std.specs.Prelude.{◌≡◌, ◌≢◌, ℕ, ◌+◌, ◌*◌, ◌^◌, ◌<◌, ◌≤◌, List, ◌∷◌, true, length, slice_index};
ghost use Rattle.byte_fields.specs.Fields.{Apart, Order, Field, number_at, put, put_bytes, written, are_laid_out, HaveFields, record_at, put_record};

/// A law, which does nothing when it is called: a number is read as it was written, and as before where
/// bytes are written that are not its own.
pub fn numbers_are_read()
    ensures read { (order : Order) (n at x : ℕ) (b : List ℕ) →
        at ≤ length b → x < 256 ^ n →
        number_at order n at (put order n at x b) ≡ x }
    ensures other { (order : Order) (n at start : ℕ) (ys b : List ℕ) →
        at + n ≤ length b → start + length ys ≤ length b → Apart n at (length ys) start →
        number_at order n at (put_bytes start ys b) ≡ number_at order n at b }
{}

/// A law, which does nothing when it is called: each field of a table is read as it was written, and a
/// field that has no byte of the table's is read as before.
pub fn fields_are_read()
    ensures read { (order : Order) (size : ℕ) (fs : List Field) (b : List ℕ) →
        are_laid_out size fs ≡ true → length b ≡ size →
        HaveFields order (written order fs b) fs }
    ensures other { (order : Order) (size : ℕ) (f : Field) (fs : List Field) (b : List ℕ) →
        are_laid_out size (f ∷ fs) ≡ true → length b ≡ size →
        number_at order f.width f.at (written order fs b) ≡ number_at order f.width f.at b }
{}

/// A law, which does nothing when it is called: a record is read as it was written, another record as
/// before, and no byte outside the record changes.
pub fn records_are_read()
    ensures read { (n index : ℕ) (ys b : List ℕ) →
        length ys ≡ n → n * index + n ≤ length b →
        record_at n index (put_record n index ys b) ≡ ys }
    ensures other { (n i j : ℕ) (ys b : List ℕ) →
        length ys ≡ n → n * i + n ≤ length b → n * j + n ≤ length b → i ≢ j →
        record_at n j (put_record n i ys b) ≡ record_at n j b }
    ensures bytes { (n i : ℕ) (ys b : List ℕ) (k : ℕ) →
        n * i ≤ length b → Apart 1 k (length ys) (n * i) →
        slice_index (put_record n i ys b) k ≡ slice_index b k }
{}
