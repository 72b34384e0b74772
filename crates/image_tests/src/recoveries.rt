//! Laws of logs and of what a recovery leaves, in the words of the format. Each does nothing when it is called.
ghost use Rattle.std.specs.Prelude.{◌≡◌, ◌≢◌, ◌⊎◌, ◌<◌, ◌≤◌, ℕ, ◌+◌, ◌^◌, ◌%◌, Bool, true, List, [], ◌∷◌, ◌++◌, length, slice_index, Some, None, Ok, Err};
ghost use Rattle.byte_fields.specs.Fields.{Apart};
ghost use Rattle.order_model.specs.declared.command.Command.{Command};
ghost use Rattle.order_model.specs.declared.command.Priority.TheVariants.{Ordered};
ghost use Rattle.journal_blocks.specs.declared.super_block.JournalSuper.{JournalSuper};
ghost use Rattle.journal_blocks.specs.declared.fault.JournalFault.TheVariants.{BadKind, NotMagic};
ghost use Rattle.journal_blocks.specs.Header.{sequence_of};
ghost use Rattle.journal_blocks.specs.Super.{super_of, super_block, FitSuper};
ghost use Rattle.journal_blocks.specs.Blocks.{log_block_of};
ghost use Rattle.journal_blocks.specs.Log.{Reading, Entry, found, goes_on, read_log, body_at, log_of};
ghost use Rattle.journal_replay.specs.Recovered.{recovered};
ghost use Rattle.journal_replay.specs.Commands.{commands};

/// A law, which does nothing when it is called: where a header is due, the log ends at a block without the magic number,
/// at one of a type that no block of a log has, and at one of another sequence. Nothing behind it counts.
pub fn logs_end_where_no_header_stands()
    ensures no_header { (wide : Bool) (zones : ℕ) (r : Reading) (e : Entry) (rest : List Entry) → r.tags ≡ [] → log_block_of wide e.body ≡ Err NotMagic →
        found (read_log wide zones (goes_on r) (e ∷ rest)) ≡ r }
    ensures other_type { (wide : Bool) (zones : ℕ) (r : Reading) (e : Entry) (rest : List Entry) → r.tags ≡ [] → log_block_of wide e.body ≡ Err BadKind →
        found (read_log wide zones (goes_on r) (e ∷ rest)) ≡ r }
    ensures other_sequence { (wide : Bool) (zones : ℕ) (r : Reading) (e : Entry) (rest : List Entry) → r.tags ≡ [] → sequence_of e.body ≢ r.sequence →
        found (read_log wide zones (goes_on r) (e ∷ rest)) ≡ r }
{}

/// A law, which does nothing when it is called: a superblock that is read has a first block of the log behind itself and
/// before the journal's end, also where the log is empty, and a start that is 0 or one of these blocks. And each
/// superblock with such numbers, which has no features but the two lowest, is read as it was written.
pub fn superblocks_have_a_log()
    ensures read { (b : List ℕ) (s : JournalSuper) → super_of b ≡ Ok s →
        (0 < s.first) × (s.first < s.maxlen) × ((s.start ≡ 0) ⊎ ((s.first ≤ s.start) × (s.start < s.maxlen))) }
    ensures written { (s : JournalSuper) → FitSuper s → s.incompat < 4 → 0 < s.first → s.first < s.maxlen → (s.start ≡ 0) ⊎ ((s.first ≤ s.start) × (s.start < s.maxlen)) →
        super_of (super_block s) ≡ Ok s }
{}

/// A law, which does nothing when it is called: a recovery of a log leaves the journal's superblock with start 0 and, one
/// past the first sequence that is missing, with the next sequence, both counted round at 2^32. No other byte of it changes.
pub fn recoveries_change_the_tail_alone()
    ensures numbers { (base : ℕ) (image : List (List ℕ)) (s : JournalSuper) → base < length image → length (body_at image base) ≡ 1024 →
        super_of (body_at image base) ≡ Ok s → s.sequence < 2 ^ 32 → s.start ≢ 0 →
        super_of (body_at (recovered base image) base) ≡ Ok (record s { sequence = ((s.sequence + length (log_of base s image).done) % 2 ^ 32 + 1) % 2 ^ 32; start = 0 }) }
    ensures bytes { (base : ℕ) (image : List (List ℕ)) (s : JournalSuper) → base < length image → length (body_at image base) ≡ 1024 →
        super_of (body_at image base) ≡ Ok s → s.start ≢ 0 → (at : ℕ) → Apart 1 at 8 0x18 →
        slice_index (body_at (recovered base image) base) at ≡ slice_index (body_at image base) at }
{}

/// A law, which does nothing when it is called: what a recovery sends ends in the superblock, for its own block, and in a
/// flush. Both are ordered, and each is a barrier.
pub fn recoveries_end_in_barrier_and_flush()
    ensures { (base : ℕ) (image : List (List ℕ)) (s : JournalSuper) → super_of (body_at image base) ≡ Ok s → s.start ≢ 0 →
        (homes : List Command) × (id : ℕ) × (body : List ℕ) × (commands base image ≡ homes
        ++ record { parts = record { id = id; block = base; body = body } ∷ []; priority = Ordered; barrier = true; flush = None }
        ∷ record { parts = []; priority = Ordered; barrier = true; flush = Some (id + 1) } ∷ []) }
{}
