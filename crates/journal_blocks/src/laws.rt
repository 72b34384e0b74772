//! Laws of the blocks of a journal.
ghost use Rattle.std.specs.Prelude.{◌≡◌, ◌≢◌, ◌↔◌, ℕ, Bool, not, ◌+◌, ◌^◌, ◌%◌, ◌<◌, ◌≤◌, List, None, Some, All, Ok, length, slice_index, Err, true, [], ◌∷◌};
ghost use Rattle.std.specs.List.{list_any};
ghost use Rattle.journal_blocks.specs.declared.fault.JournalFault.{JournalFault};
ghost use Rattle.byte_fields.specs.Fields.{Apart};
ghost use Rattle.journal_blocks.specs.declared.super_block.JournalSuper.{JournalSuper};
ghost use Rattle.journal_blocks.specs.declared.tag.Tag.{Tag};
ghost use Rattle.journal_blocks.specs.declared.log_block.LogBlock.{LogBlock};
ghost use Rattle.journal_blocks.specs.Header.{magic_of, sequence_of};
ghost use Rattle.journal_blocks.specs.Super.{super_of, super_block, with_tail, is_wide, IsSound};
ghost use Rattle.journal_blocks.specs.Blocks.{log_block_of, number_size, escaped, restored};
ghost use Rattle.blk_base.specs.Members.{In};
ghost use Rattle.log_model.specs.Log as model;
ghost use Rattle.log_model.specs.Marks.{Set, mark_in};
ghost use Rattle.journal_blocks.specs.Log.{Reading, Entry, Ends, said, found, goes_on, read_log, body_at, is_outside, log_of, places, IsFaulty};
ghost use Rattle.journal_blocks.specs.Readers.{format, ring_of};
ghost use Rattle.journal_blocks.specs.Written.{descriptor_block, revoke_block, commit_block, most_tags, most_revokes};

/// A law, which does nothing when it is called: what `write_super` writes of a sound superblock is read back as that
/// superblock. It has no features but those of the two lowest bits, and wide tags by the second. What `set_tail` writes
/// into one changes its sequence and its start, and no other byte.
pub fn superblocks_are_read()
    ensures read { (s : JournalSuper) → IsSound s → super_of (super_block s) ≡ Ok s }
    ensures kind { (s : JournalSuper) → IsSound s → (s.incompat < 4) × ((is_wide s ≡ true) ↔ (2 ≤ s.incompat)) }
    ensures tail { (b : List ℕ) (s : JournalSuper) (sequence : ℕ) → length b ≡ 1024 → super_of b ≡ Ok s → sequence < 2 ^ 32 →
        super_of (with_tail sequence 0 b) ≡ Ok (record s { sequence = sequence; start = 0 }) }
    ensures bytes { (b : List ℕ) (sequence start k : ℕ) → length b ≡ 1024 → Apart 1 k 8 0x18 →
        slice_index (with_tail sequence start b) k ≡ slice_index b k }
{}

/// A law, which does nothing when it is called: what is written of a descriptor, a revoke block or a commit block is
/// read back as that block, in a journal with narrow tags and in one with wide tags, whose block numbers may have 64
/// bits. A revoke block that was written for one kind of journal is not read so in the other.
pub fn log_blocks_are_read()
    ensures descriptor { (wide : Bool) (sequence : ℕ) (tags : List Tag) → sequence < 2 ^ 32 → 0 < length tags → length tags ≤ most_tags wide →
        All (λ t. t.block < 256 ^ number_size wide) tags → log_block_of wide (descriptor_block wide sequence tags) ≡ Ok (LogBlock.Descriptor sequence tags) }
    ensures revoke { (wide : Bool) (sequence : ℕ) (blocks : List ℕ) → sequence < 2 ^ 32 → length blocks ≤ most_revokes wide →
        All (λ n. n < 256 ^ number_size wide) blocks → log_block_of wide (revoke_block wide sequence blocks) ≡ Ok (LogBlock.Revoke sequence blocks) }
    ensures other { (wide : Bool) (sequence : ℕ) (blocks : List ℕ) → 0 < length blocks → length blocks ≤ most_revokes wide →
        log_block_of (not wide) (revoke_block wide sequence blocks) ≢ Ok (LogBlock.Revoke sequence blocks) }
    ensures commit { (wide : Bool) (sequence : ℕ) → sequence < 2 ^ 32 → log_block_of wide (commit_block sequence) ≡ Ok (LogBlock.Commit sequence) }
{}

/// A law, which does nothing when it is called: a body that stands in the log does not begin with the magic number,
/// and is restored as it was.
pub fn bodies_are_restored()
    ensures unlike { (b : List ℕ) → magic_of (escaped b).0 ≢ 0xC03B3998 }
    ensures back { (b : List ℕ) → length b ≡ 1024 → ((i : ℕ) → slice_index b i < 256) →
        restored (escaped b).1 (escaped b).0 ≡ b }
{}

/// A law, which does nothing when it is called: the log of an image has the transactions that the reader of
/// `log_model` reads by this format, as long as sequences do not come round. So its laws are laws of this log.
pub fn readers_agree()
    ensures { (base : ℕ) (s : JournalSuper) (image : List (List ℕ)) →
        super_of (body_at image base) ≡ Ok s → s.first ≤ s.start → s.start < s.maxlen → 0 < s.start → s.sequence + s.maxlen < 2 ^ 32 →
        model.log_of (format (is_wide s)) (ring_of s) base (body_at image) ≡ (log_of base s image).done }
{}

/// A law, which does nothing when it is called: blocks of which none is a commit block of the sequence that is
/// expected add no transaction; the sequence behind the log counts its transactions; the fault of a log is at one of its
/// blocks, which has one; and of a log without a fault no body is for the boot block, the superblock or a block past
/// the volume.
pub fn logs_hold_whole_transactions()
    ensures end { (wide : Bool) (zones : ℕ) (r : Reading) (entries : List Entry) →
        ((e : Entry) → In e entries → said wide r.sequence e.body ≢ Ends) →
        (found (read_log wide zones (goes_on r) entries)).done ≡ r.done }
    ensures counts { (base : ℕ) (s : JournalSuper) (image : List (List ℕ)) → s.sequence < 2 ^ 32 →
        (log_of base s image).sequence ≡ (s.sequence + length (log_of base s image).done) % 2 ^ 32 }
    ensures fault { (base : ℕ) (s : JournalSuper) (image : List (List ℕ)) (at : ℕ) → (log_of base s image).fault ≡ Some at →
        (place : ℕ) × In place (places s) × (base + place ≡ at) × IsFaulty (is_wide s) base (body_at image at) }
    ensures inside { (base : ℕ) (s : JournalSuper) (image : List (List ℕ)) (b : ℕ) (x : List ℕ) →
        (log_of base s image).fault ≡ None → mark_in (log_of base s image).done b ≡ Set x → (2 ≤ b) × (b < base) }
{}

/// A law, which does nothing when it is called: a revoke block with a bad count and a descriptor with a tag for a block
/// outside are suspected where they are read; what is suspected counts once its transaction is whole; and the first
/// fault along the log stays.
pub fn faults_count_in_whole_transactions()
    ensures revoke { (wide : Bool) (zones : ℕ) (r : Reading) (e : Entry) →
        r.tags ≡ [] → r.suspect ≡ None → sequence_of e.body ≡ r.sequence → log_block_of wide e.body ≡ Err JournalFault.BadCount →
        (found (read_log wide zones (goes_on r) (e ∷ []))).suspect ≡ Some e.at }
    ensures descriptor { (wide : Bool) (zones n : ℕ) (tags : List Tag) (r : Reading) (e : Entry) →
        r.tags ≡ [] → r.suspect ≡ None → sequence_of e.body ≡ r.sequence → log_block_of wide e.body ≡ Ok (LogBlock.Descriptor n tags) →
        list_any (is_outside zones) tags ≡ true →
        (found (read_log wide zones (goes_on r) (e ∷ []))).suspect ≡ Some e.at }
    ensures whole { (wide : Bool) (zones : ℕ) (r : Reading) (entries : List Entry) (at : ℕ) →
        r.suspect ≡ Some at → length r.done < length (found (read_log wide zones (goes_on r) entries)).done →
        (first : ℕ) × ((found (read_log wide zones (goes_on r) entries)).fault ≡ Some first) }
    ensures first { (wide : Bool) (zones : ℕ) (r : Reading) (entries : List Entry) (at : ℕ) →
        r.fault ≡ Some at → (found (read_log wide zones (goes_on r) entries)).fault ≡ Some at }
{}
