//! Laws of calls on trees: what a call keeps, why it is refused, and what a history of calls has.
ghost use Rattle.std.specs.Prelude.{◌*◌, ◌≡◌, ◌⊎◌, ◌<◌, ◌≤◌, ℕ, ◌+◌, ◌-◌, ◌%◌, ◌==◌, if◌then◌else◌, true, false, List, length, slice_index, Some, None, Ok, Err, is_some};
ghost use Rattle.blk_base.specs.Members.{In};
ghost use Rattle.tree_model.specs.declared.call.Call.{Call};
ghost use Rattle.tree_model.specs.declared.call.Call.TheVariants as calls;
ghost use Rattle.tree_model.specs.Trees.{node_of_path};
ghost use Rattle.tree_model.specs.declared.call.Reply.{Reply};
ghost use Rattle.tree_model.specs.declared.call.Reply.TheVariants as replies;
ghost use Rattle.tree_model.specs.declared.call.Room.{Room};
ghost use Rattle.tree_model.specs.Maps.{at_number};
ghost use Rattle.tree_model.specs.Paths.{path_of};
ghost use Rattle.minix_layout.specs.Widths.{slots_a_block};
ghost use Rattle.tree_model.specs.Calls.{Tree, Done, leaves_tree, row, outcome, tree_after, reply_of, needs, used_zones, directory_zones};
ghost use Rattle.tree_model.specs.Causes.{paths_of, IsCause};
ghost use Rattle.tree_model.specs.laws.Examples.{new_tree};
ghost use Rattle.tree_model.specs.Histories.{Entry, block_at, maps_block, writes, tree_after_entries, wrote, maps, content, last, changed_after};
ghost use Rattle.tree_model.specs.Plain.{IsPlain, AreBornBefore, HasWholeBlocks};
ghost use Rattle.tree_model.specs.declared.node.File.{File};
ghost use Rattle.tree_model.specs.Calls.{HasInode, written_file, cut_file, byte_at, takes_no_zone};

/// A law, which does nothing when it is called: a call keeps a tree plain, so that it hangs together, its names are
/// those of paths, and links and parents are right. Births rise: a node that a call makes has the call's number. A new
/// volume's tree is plain.
pub fn calls_keep_trees_plain()
    ensures plain { (room : Room) (tree : Tree) (n : ℕ) (c : Call) → IsPlain tree → AreBornBefore n tree → IsPlain (tree_after room tree n c) }
    ensures births { (room : Room) (tree : Tree) (n : ℕ) (c : Call) → IsPlain tree → (birth : ℕ) →
        is_some (at_number (tree_after room tree n c) birth) ≡ true → (is_some (at_number tree birth) ≡ true) ⊎ (birth ≡ n) }
    ensures rise { (room : Room) (tree : Tree) (n : ℕ) (c : Call) → IsPlain tree → AreBornBefore n tree → AreBornBefore (n + 1) (tree_after room tree n c) }
    ensures new_plain { (width : ℕ) → IsPlain (new_tree width) }
    ensures new_born { (width : ℕ) → AreBornBefore 1 (new_tree width) }
{}

/// A law, which does nothing when it is called: a refused call has a cause for its reply and changes nothing. A text
/// that is no path is told before all else.
pub fn refusals_have_causes()
    ensures cause { (room : Room) (tree : Tree) → IsPlain tree → (n : ℕ) (c : Call) (reply : Reply) → outcome room tree n c ≡ Err reply → IsCause room tree n c reply }
    ensures unchanged { (room : Room) (tree : Tree) (n : ℕ) (c : Call) (reply : Reply) → outcome room tree n c ≡ Err reply →
        (tree_after room tree n c ≡ tree) × (reply_of room tree n c ≡ reply) }
    ensures bad_path { (room : Room) (tree : Tree) (n : ℕ) (c : Call) (path : List ℕ) → In path (paths_of c) → path_of path ≡ None →
        outcome room tree n c ≡ Err replies.BadPath }
{}

/// A law, which does nothing when it is called: calls that read, list, tell of a node or wait change nothing.
pub fn asking_changes_nothing()
    ensures same { (room : Room) (tree : Tree) (n : ℕ) (c : Call) → leaves_tree c ≡ true → tree_after room tree n c ≡ tree }
{}

/// A law, which does nothing when it is called: a call that nothing else refuses is done exactly where there is an inode
/// for a node that it makes and it needs no more zones than are left; want of an inode is told first. Removing, cutting
/// and asking need none. So a volume's zones hold the tree after each call.
pub fn calls_stay_within_room()
    ensures done { (room : Room) (tree : Tree) (n : ℕ) (c : Call) (d : Done) → row tree n c ≡ Ok d → HasInode room tree d →
        needs tree n c ≤ room.capacity - used_zones tree → outcome room tree n c ≡ Ok d }
    ensures no_inode { (room : Room) (tree : Tree) (n : ℕ) (c : Call) (d : Done) → row tree n c ≡ Ok d → d.takes_inode ≡ true →
        room.inodes ≤ length tree → outcome room tree n c ≡ Err replies.NoInode }
    ensures no_space { (room : Room) (tree : Tree) (n : ℕ) (c : Call) (d : Done) → row tree n c ≡ Ok d → HasInode room tree d →
        room.capacity - used_zones tree < needs tree n c → outcome room tree n c ≡ Err replies.NoSpace }
    ensures none { (tree : Tree) → IsPlain tree → (n : ℕ) (c : Call) → takes_no_zone c ≡ true → needs tree n c ≡ 0 }
    ensures kept { (room : Room) (tree : Tree) (n : ℕ) (c : Call) → used_zones tree ≤ room.capacity → used_zones (tree_after room tree n c) ≤ room.capacity }
    ensures slot { (width slots : ℕ) → directory_zones width (slots + 1) ≡
        directory_zones width slots + (if slots % slots_a_block width == 0 then 1 else 0) + (if slots == 7 * slots_a_block width then 1 else 0) }
{}

/// A law, which does nothing when it is called: only a call that writes a block of a file maps it, a block that is
/// written is mapped, and one that is not written keeps its bytes while it is mapped.
pub fn calls_map_by_writing()
    ensures only { (room : Room) (tree : Tree) → IsPlain tree → (n : ℕ) (c : Call) (birth index : ℕ) →
        maps_block tree birth index ≡ false → maps_block (tree_after room tree n c) birth index ≡ true → writes room tree n c birth index ≡ true }
    ensures mapped { (room : Room) (tree : Tree) → IsPlain tree → (n : ℕ) (c : Call) (birth index : ℕ) →
        writes room tree n c birth index ≡ true → maps_block (tree_after room tree n c) birth index ≡ true }
    ensures kept { (room : Room) (tree : Tree) → IsPlain tree → (n : ℕ) (c : Call) (birth index : ℕ) → writes room tree n c birth index ≡ false →
        (block_at (tree_after room tree n c) birth index ≡ None) ⊎ (block_at (tree_after room tree n c) birth index ≡ block_at tree birth index) }
{}

/// A law, which does nothing when it is called: along a history from a plain tree each tree is plain, only an entry that
/// writes a block maps it and leaves it mapped, others keep its bytes while it is mapped, entries that do not change a
/// file neither map nor unmap its blocks, and the last entry that wrote a block is the last that did.
pub fn histories_map_by_writing()
    ensures plain { (room : Room) (opened : Tree) (first : ℕ) (entries : List Entry) → IsPlain opened → AreBornBefore (first + 1) opened →
        (k : ℕ) → IsPlain (tree_after_entries room opened first entries k) }
    ensures only { (room : Room) (opened : Tree) (first : ℕ) (entries : List Entry) → IsPlain opened → AreBornBefore (first + 1) opened →
        (n birth index : ℕ) → maps room opened first entries n birth index ≡ false → maps room opened first entries (n + 1) birth index ≡ true →
        wrote room opened first entries (n + 1) birth index ≡ true }
    ensures mapped { (room : Room) (opened : Tree) (first : ℕ) (entries : List Entry) → IsPlain opened → AreBornBefore (first + 1) opened →
        (n birth index : ℕ) → wrote room opened first entries n birth index ≡ true → maps room opened first entries n birth index ≡ true }
    ensures kept { (room : Room) (opened : Tree) (first : ℕ) (entries : List Entry) → IsPlain opened → AreBornBefore (first + 1) opened →
        (n birth index : ℕ) → wrote room opened first entries (n + 1) birth index ≡ false → maps room opened first entries (n + 1) birth index ≡ true →
        content room opened first entries (n + 1) birth index ≡ content room opened first entries n birth index }
    ensures unchanged { (room : Room) (opened : Tree) (first : ℕ) (entries : List Entry) →
        (n d birth index m : ℕ) → changed_after room opened first entries n d birth ≡ false → n < m → m ≤ n + d →
        maps room opened first entries m birth index ≡ maps room opened first entries (m - 1) birth index }
    ensures last { (room : Room) (opened : Tree) (first : ℕ) (entries : List Entry) →
        (n birth index : ℕ) → 0 < last room opened first entries n birth index →
        wrote room opened first entries (last room opened first entries n birth index) birth index ≡ true }
    ensures none_later { (room : Room) (opened : Tree) (first : ℕ) (entries : List Entry) →
        (n birth index m : ℕ) → last room opened first entries n birth index < m → m ≤ n → wrote room opened first entries m birth index ≡ false }
{}

/// A law, which does nothing when it is called: the bytes of a write are read back and all others stay; a cut keeps the
/// bytes below the size and makes those from it on zeros. Blocks keep their 1,024 bytes.
pub fn written_bytes_are_read_back()
    ensures written { (f : File) (off : ℕ) (bytes : List ℕ) → HasWholeBlocks f → (at : ℕ) → off ≤ at → at < off + length bytes →
        byte_at (written_file f off bytes) at ≡ slice_index bytes (at - off) }
    ensures others { (f : File) (off : ℕ) (bytes : List ℕ) → HasWholeBlocks f → (at : ℕ) → (at < off) ⊎ (off + length bytes ≤ at) →
        byte_at (written_file f off bytes) at ≡ byte_at f at }
    ensures below { (f : File) (size : ℕ) → HasWholeBlocks f → (at : ℕ) → at < size → byte_at (cut_file f size) at ≡ byte_at f at }
    ensures past { (f : File) (size : ℕ) → HasWholeBlocks f → (at : ℕ) → size ≤ at → byte_at (cut_file f size) at ≡ 0 }
    ensures whole { (f : File) (off : ℕ) (bytes : List ℕ) → HasWholeBlocks f → HasWholeBlocks (written_file f off bytes) }
    ensures whole_cut { (f : File) (size : ℕ) → HasWholeBlocks f → HasWholeBlocks (cut_file f size) }
{}
