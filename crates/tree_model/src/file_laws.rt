//! Laws of what calls do to files, in words of sizes, bytes and mapped blocks before and after.
ghost use Rattle.std.specs.Prelude.{◌≡◌, ◌≢◌, ◌⊎◌, ◌↔◌, ◌<◌, ◌≤◌, ℕ, ◌+◌, ◌*◌, ◌-◌, true, false, List, length, replicate, slice_index, Some, None, Ok, Err, is_some};
ghost use Rattle.tree_model.specs.declared.call.Call.{Call};
ghost use Rattle.tree_model.specs.declared.call.Call.TheVariants as calls;
ghost use Rattle.tree_model.specs.declared.call.Reply.TheVariants as replies;
ghost use Rattle.tree_model.specs.declared.call.Room.{Room};
ghost use Rattle.tree_model.specs.declared.node.Directory.{Directory};
ghost use Rattle.tree_model.specs.declared.node.File.{File};
ghost use Rattle.tree_model.specs.declared.node.Node.TheVariants as nodes;
ghost use Rattle.tree_model.specs.Maps.{at_number};
ghost use Rattle.tree_model.specs.Trees.{node_of_path};
ghost use Rattle.tree_model.specs.Calls.{Tree, Done, row, outcome, reply_of, tree_after, byte_at};
ghost use Rattle.tree_model.specs.CallWords.{StandsAt, IsFileChange, IsGreater, HasByteIn, HasSoundFiles, IsSameFile};
ghost use Rattle.tree_model.specs.Histories.{Entry, tree_at, tree_after_entries, changed, changed_after};
ghost use Rattle.tree_model.specs.Plain.{IsPlain};
ghost use Rattle.tree_model.specs.laws.Examples.{new_tree};

/// A law, which does nothing when it is called: a write that is done leaves a file whose size is the greater of the
/// old one and its end. A read of what was written gives the bytes, all others are as before, and those between the
/// old size and the offset are zeros. The blocks that have one of the bytes are mapped beside those that were. All
/// else stays.
pub fn writes_fill_their_range()
    ensures repeated { (room : Room) (tree : Tree) (n : ℕ) (path : List ℕ) (off len value : ℕ) →
        outcome room tree n (calls.Write path off len value) ≡ outcome room tree n (calls.Bytes path off (replicate len value)) }
    ensures file { (room : Room) (tree : Tree) (n : ℕ) (path : List ℕ) (off : ℕ) (bytes : List ℕ) (d : Done) → outcome room tree n (calls.Bytes path off bytes) ≡ Ok d →
        (birth : ℕ) × (f : File) × (g : File) × IsFileChange room tree n (calls.Bytes path off bytes) path d birth f g }
    ensures size { (room : Room) (tree : Tree) (n : ℕ) (path : List ℕ) (off : ℕ) (bytes : List ℕ) (d : Done) (birth : ℕ) (f g : File) →
        IsFileChange room tree n (calls.Bytes path off bytes) path d birth f g → IsGreater g.size f.size (off + length bytes) }
    ensures read_back { (room : Room) (tree : Tree) (n m : ℕ) (path : List ℕ) (off : ℕ) (bytes : List ℕ) (d : Done) → HasSoundFiles tree →
        outcome room tree n (calls.Bytes path off bytes) ≡ Ok d → reply_of room d.tree m (calls.Read path off (length bytes)) ≡ replies.Bytes bytes }
    ensures others { (room : Room) (tree : Tree) (n : ℕ) (path : List ℕ) (off : ℕ) (bytes : List ℕ) (d : Done) (birth : ℕ) (f g : File) → HasSoundFiles tree →
        IsFileChange room tree n (calls.Bytes path off bytes) path d birth f g → (at : ℕ) → (at < off) ⊎ (off + length bytes ≤ at) → byte_at g at ≡ byte_at f at }
    ensures gap { (room : Room) (tree : Tree) (n : ℕ) (path : List ℕ) (off : ℕ) (bytes : List ℕ) (d : Done) (birth : ℕ) (f g : File) → HasSoundFiles tree →
        IsFileChange room tree n (calls.Bytes path off bytes) path d birth f g → (at : ℕ) → f.size ≤ at → at < off → byte_at g at ≡ 0 }
    ensures mapped { (room : Room) (tree : Tree) (n : ℕ) (path : List ℕ) (off : ℕ) (bytes : List ℕ) (d : Done) (birth : ℕ) (f g : File) →
        IsFileChange room tree n (calls.Bytes path off bytes) path d birth f g → (index : ℕ) →
        (is_some (at_number g.blocks index) ≡ true) ↔ ((is_some (at_number f.blocks index) ≡ true) ⊎ HasByteIn off (length bytes) index) }
    ensures links { (room : Room) (tree : Tree) (n : ℕ) (path : List ℕ) (off : ℕ) (bytes : List ℕ) (d : Done) (birth : ℕ) (f g : File) →
        IsFileChange room tree n (calls.Bytes path off bytes) path d birth f g → g.links ≡ f.links }
    ensures rest { (room : Room) (tree : Tree) (n : ℕ) (path : List ℕ) (off : ℕ) (bytes : List ℕ) (d : Done) (birth : ℕ) (f g : File) →
        IsFileChange room tree n (calls.Bytes path off bytes) path d birth f g → (other : ℕ) → other ≢ birth → at_number d.tree other ≡ at_number tree other }
    ensures paths { (room : Room) (tree : Tree) (n : ℕ) (path : List ℕ) (off : ℕ) (bytes : List ℕ) (d : Done) → outcome room tree n (calls.Bytes path off bytes) ≡ Ok d →
        (names : List (List ℕ)) → node_of_path d.tree names ≡ node_of_path tree names }
{}

/// A law, which does nothing when it is called: a truncate that is done leaves a file of just the size. The bytes
/// below both sizes stay, and all others are zeros; so they are where a file was cut first and made longer then. Of
/// the mapped blocks those are left that begin below the size. All else stays.
pub fn truncates_give_the_size()
    ensures file { (room : Room) (tree : Tree) (n : ℕ) (path : List ℕ) (size : ℕ) (d : Done) → outcome room tree n (calls.Truncate path size) ≡ Ok d →
        (birth : ℕ) × (f : File) × (g : File) × IsFileChange room tree n (calls.Truncate path size) path d birth f g }
    ensures size { (room : Room) (tree : Tree) (n : ℕ) (path : List ℕ) (size : ℕ) (d : Done) (birth : ℕ) (f g : File) →
        IsFileChange room tree n (calls.Truncate path size) path d birth f g → g.size ≡ size }
    ensures stays { (room : Room) (tree : Tree) (n : ℕ) (path : List ℕ) (size : ℕ) (d : Done) (birth : ℕ) (f g : File) → HasSoundFiles tree →
        IsFileChange room tree n (calls.Truncate path size) path d birth f g → (at : ℕ) → at < f.size → at < size → byte_at g at ≡ byte_at f at }
    ensures zeros { (room : Room) (tree : Tree) (n : ℕ) (path : List ℕ) (size : ℕ) (d : Done) (birth : ℕ) (f g : File) → HasSoundFiles tree →
        IsFileChange room tree n (calls.Truncate path size) path d birth f g → (at : ℕ) → (f.size ≤ at) ⊎ (size ≤ at) → byte_at g at ≡ 0 }
    ensures regrown { (room : Room) (tree : Tree) (n m : ℕ) (path : List ℕ) (small large : ℕ) (d e : Done) (birth : ℕ) (f g h : File) → HasSoundFiles tree →
        IsFileChange room tree n (calls.Truncate path small) path d birth f g → IsFileChange room d.tree m (calls.Truncate path large) path e birth g h →
        (at : ℕ) → small ≤ at → byte_at h at ≡ 0 }
    ensures mapped { (room : Room) (tree : Tree) (n : ℕ) (path : List ℕ) (size : ℕ) (d : Done) (birth : ℕ) (f g : File) →
        IsFileChange room tree n (calls.Truncate path size) path d birth f g → (index : ℕ) →
        (is_some (at_number g.blocks index) ≡ true) ↔ ((is_some (at_number f.blocks index) ≡ true) × (1024 * index < size)) }
    ensures links { (room : Room) (tree : Tree) (n : ℕ) (path : List ℕ) (size : ℕ) (d : Done) (birth : ℕ) (f g : File) →
        IsFileChange room tree n (calls.Truncate path size) path d birth f g → g.links ≡ f.links }
    ensures rest { (room : Room) (tree : Tree) (n : ℕ) (path : List ℕ) (size : ℕ) (d : Done) (birth : ℕ) (f g : File) →
        IsFileChange room tree n (calls.Truncate path size) path d birth f g → (other : ℕ) → other ≢ birth → at_number d.tree other ≡ at_number tree other }
    ensures paths { (room : Room) (tree : Tree) (n : ℕ) (path : List ℕ) (size : ℕ) (d : Done) → outcome room tree n (calls.Truncate path size) ≡ Ok d →
        (names : List (List ℕ)) → node_of_path d.tree names ≡ node_of_path tree names }
{}

/// A law, which does nothing when it is called: a read gives the bytes of its range that lie below the size, and no
/// more. A byte of a block that is not mapped is zero, and one of a mapped block is the block's.
pub fn reads_give_what_stands()
    ensures bytes { (room : Room) (tree : Tree) (n : ℕ) (path : List ℕ) (off len : ℕ) (d : Done) → outcome room tree n (calls.Read path off len) ≡ Ok d →
        (birth : ℕ) × (f : File) × (bytes : List ℕ) × StandsAt tree path birth (nodes.File f) × (d.reply ≡ replies.Bytes bytes) }
    ensures below { (room : Room) (tree : Tree) (n : ℕ) (path : List ℕ) (off len : ℕ) (birth : ℕ) (f : File) (bytes : List ℕ) → StandsAt tree path birth (nodes.File f) →
        reply_of room tree n (calls.Read path off len) ≡ replies.Bytes bytes → (i : ℕ) → (i < length bytes) ↔ ((i < len) × (off + i < f.size)) }
    ensures each { (room : Room) (tree : Tree) (n : ℕ) (path : List ℕ) (off len : ℕ) (birth : ℕ) (f : File) (bytes : List ℕ) → StandsAt tree path birth (nodes.File f) →
        reply_of room tree n (calls.Read path off len) ≡ replies.Bytes bytes → (i : ℕ) → i < length bytes → slice_index bytes i ≡ byte_at f (off + i) }
    ensures hole { (f : File) (index j : ℕ) → j < 1024 → at_number f.blocks index ≡ None → byte_at f (1024 * index + j) ≡ 0 }
    ensures mapped { (f : File) (index j : ℕ) (body : List ℕ) → j < 1024 → at_number f.blocks index ≡ Some body → byte_at f (1024 * index + j) ≡ slice_index body j }
{}

/// A law, which does nothing when it is called: a write or a truncate of a directory is refused as that, and of a file
/// only for an end past 268,966,912 bytes. A truncate of a file is done else, and so is a write for which there are
/// zones (`calls_stay_within_room`).
pub fn kind_and_size_are_refused()
    ensures write_directory { (room : Room) (tree : Tree) (n : ℕ) (path : List ℕ) (off : ℕ) (bytes : List ℕ) (birth : ℕ) (e : Directory) → StandsAt tree path birth (nodes.Directory e) →
        outcome room tree n (calls.Bytes path off bytes) ≡ Err replies.IsDir }
    ensures write_too_big { (room : Room) (tree : Tree) (n : ℕ) (path : List ℕ) (off : ℕ) (bytes : List ℕ) (birth : ℕ) (f : File) → StandsAt tree path birth (nodes.File f) →
        268966912 < off + length bytes → outcome room tree n (calls.Bytes path off bytes) ≡ Err replies.TooBig }
    ensures write { (tree : Tree) (n : ℕ) (path : List ℕ) (off : ℕ) (bytes : List ℕ) (birth : ℕ) (f : File) → StandsAt tree path birth (nodes.File f) →
        off + length bytes ≤ 268966912 → (d : Done) × (row tree n (calls.Bytes path off bytes) ≡ Ok d) }
    ensures truncate_directory { (room : Room) (tree : Tree) (n : ℕ) (path : List ℕ) (size birth : ℕ) (e : Directory) → StandsAt tree path birth (nodes.Directory e) →
        outcome room tree n (calls.Truncate path size) ≡ Err replies.IsDir }
    ensures truncate_too_big { (room : Room) (tree : Tree) (n : ℕ) (path : List ℕ) (size birth : ℕ) (f : File) → StandsAt tree path birth (nodes.File f) →
        268966912 < size → outcome room tree n (calls.Truncate path size) ≡ Err replies.TooBig }
    ensures truncate { (room : Room) (tree : Tree) → IsPlain tree → (n : ℕ) (path : List ℕ) (size birth : ℕ) (f : File) → StandsAt tree path birth (nodes.File f) →
        size ≤ 268966912 → (d : Done) × (outcome room tree n (calls.Truncate path size) ≡ Ok d) }
{}

/// A law, which does nothing when it is called: each call leaves sound files, if all were sound, and so does a history
/// of calls. A new volume has no other.
pub fn calls_keep_files_sound()
    ensures kept { (room : Room) (tree : Tree) (n : ℕ) (c : Call) → IsPlain tree → HasSoundFiles tree → HasSoundFiles (tree_after room tree n c) }
    ensures new { (width : ℕ) → HasSoundFiles (new_tree width) }
{}

/// A law, which does nothing when it is called: an entry changes a file just where the size or the mapped blocks after
/// it are others than before it, or where it makes or removes the file. Of several entries one changes it where one of
/// them does for itself, also where the last leaves what stood before the first.
pub fn changes_are_of_size_or_blocks()
    ensures unchanged { (room : Room) (opened : Tree) (first : ℕ) (entries : List Entry) (n birth : ℕ) → changed room opened first entries n birth ≡ false →
        IsSameFile (at_number (tree_at room opened first entries (n - 1)) birth) (at_number (tree_at room opened first entries n) birth) }
    ensures same { (room : Room) (opened : Tree) (first : ℕ) (entries : List Entry) (n birth : ℕ) →
        HasSoundFiles (tree_at room opened first entries (n - 1)) → HasSoundFiles (tree_at room opened first entries n) →
        IsSameFile (at_number (tree_at room opened first entries (n - 1)) birth) (at_number (tree_at room opened first entries n) birth) →
        changed room opened first entries n birth ≡ false }
    ensures one_of { (room : Room) (opened : Tree) (first : ℕ) (entries : List Entry) (n d birth : ℕ) →
        (changed_after room opened first entries n d birth ≡ true) ↔ ((m : ℕ) × (n < m) × (m ≤ n + d) × (changed room opened first entries m birth ≡ true)) }
{}
