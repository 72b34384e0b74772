//! Laws of what calls do to names, in words of paths, links and slots before and after.
ghost use Rattle.std.specs.Prelude.{◌≡◌, ◌≢◌, ◌⊎◌, ◌↔◌, ◌<◌, ◌≤◌, ℕ, ◌+◌, ◌*◌, true, false, List, [], ◌∷◌, ◌++◌, length, Some, None, Ok, IsOk};
ghost use Rattle.std.specs.List.Sorted.{IsStrictlySortedBy};
ghost use Rattle.blk_base.specs.Members.{In};
ghost use Rattle.minix_layout.specs.Widths.{slot_size};
ghost use Rattle.tree_model.specs.declared.call.Call.TheVariants as calls;
ghost use Rattle.tree_model.specs.declared.call.Reply.TheVariants as replies;
ghost use Rattle.tree_model.specs.declared.call.Room.{Room};
ghost use Rattle.tree_model.specs.declared.node.Directory.{Directory};
ghost use Rattle.tree_model.specs.declared.node.File.{File};
ghost use Rattle.tree_model.specs.declared.node.Node.{Node};
ghost use Rattle.tree_model.specs.declared.node.Node.TheVariants as nodes;
ghost use Rattle.tree_model.specs.Maps.{at_number, name_cmp};
ghost use Rattle.tree_model.specs.Paths.{path_of};
ghost use Rattle.tree_model.specs.Trees.{node_of_path, is_directory};
ghost use Rattle.tree_model.specs.Calls.{Tree, Done, outcome, reply_of};
ghost use Rattle.tree_model.specs.Causes.{LeadsTo, IsInDirectory};
ghost use Rattle.tree_model.specs.CallWords.{StandsAt, Begins, IsParentOf, HasNameMore, HasNameLess, HasNameMoved, HasLinkLess, link_of};
ghost use Rattle.tree_model.specs.Plain.{IsPlain, AreBornBefore};

/// A law, which does nothing when it is called: after `mkdir`, `create` and `link` just one path is there that was not
/// before. It leads to the new node, or to the file that the other path leads to, and all other paths lead where they
/// led.
pub fn one_path_comes()
    ensures mkdir { (room : Room) (tree : Tree) → IsPlain tree → (n : ℕ) → AreBornBefore n tree → (path : List ℕ) (names : List (List ℕ)) (d : Done) → path_of path ≡ Some names →
        outcome room tree n (calls.Mkdir path) ≡ Ok d → (ns : List (List ℕ)) (birth : ℕ) →
        (node_of_path d.tree ns ≡ Ok birth) ↔ ((node_of_path tree ns ≡ Ok birth) ⊎ ((ns ≡ names) × (birth ≡ n))) }
    ensures create { (room : Room) (tree : Tree) → IsPlain tree → (n : ℕ) → AreBornBefore n tree → (path : List ℕ) (names : List (List ℕ)) (d : Done) → path_of path ≡ Some names →
        outcome room tree n (calls.Create path) ≡ Ok d → (ns : List (List ℕ)) (birth : ℕ) →
        (node_of_path d.tree ns ≡ Ok birth) ↔ ((node_of_path tree ns ≡ Ok birth) ⊎ ((ns ≡ names) × (birth ≡ n))) }
    ensures link { (room : Room) (tree : Tree) → IsPlain tree → (n : ℕ) (path other : List ℕ) (names more : List (List ℕ)) (d : Done) → path_of path ≡ Some names → path_of other ≡ Some more →
        outcome room tree n (calls.Link path other) ≡ Ok d → (ns : List (List ℕ)) (birth : ℕ) →
        (node_of_path d.tree ns ≡ Ok birth) ↔ ((node_of_path tree ns ≡ Ok birth) ⊎ ((ns ≡ more) × (node_of_path tree names ≡ Ok birth))) }
    ensures link_new { (room : Room) (tree : Tree) → IsPlain tree → (n : ℕ) (path other : List ℕ) (more : List (List ℕ)) (d : Done) → path_of other ≡ Some more →
        outcome room tree n (calls.Link path other) ≡ Ok d → (birth : ℕ) → node_of_path tree more ≡ Ok birth → ⊥ }
{}

/// A law, which does nothing when it is called: after `unlink` and `rmdir` just the path is gone, and all others lead
/// where they led.
pub fn one_path_goes()
    ensures unlink { (room : Room) (tree : Tree) → IsPlain tree → (n : ℕ) (path : List ℕ) (names : List (List ℕ)) (d : Done) → path_of path ≡ Some names →
        outcome room tree n (calls.Unlink path) ≡ Ok d → (ns : List (List ℕ)) (birth : ℕ) → (node_of_path d.tree ns ≡ Ok birth) ↔ ((node_of_path tree ns ≡ Ok birth) × (ns ≢ names)) }
    ensures rmdir { (room : Room) (tree : Tree) → IsPlain tree → (n : ℕ) (path : List ℕ) (names : List (List ℕ)) (d : Done) → path_of path ≡ Some names →
        outcome room tree n (calls.Rmdir path) ≡ Ok d → (ns : List (List ℕ)) (birth : ℕ) → (node_of_path d.tree ns ≡ Ok birth) ↔ ((node_of_path tree ns ≡ Ok birth) × (ns ≢ names)) }
{}

/// A law, which does nothing when it is called: a `rename` of two paths of one node changes nothing. Any other moves the
/// old path, with all paths below it, to the new one: the new ones lead where the old ones led, the old ones lead
/// nowhere, and all other paths lead where they led.
pub fn paths_move_along()
    ensures stays { (room : Room) (tree : Tree) → IsPlain tree → (n : ℕ) (path other : List ℕ) (names more : List (List ℕ)) (d : Done) → path_of path ≡ Some names → path_of other ≡ Some more →
        outcome room tree n (calls.Rename path other) ≡ Ok d → (birth : ℕ) → node_of_path tree names ≡ Ok birth → node_of_path tree more ≡ Ok birth → d.tree ≡ tree }
    ensures moved { (room : Room) (tree : Tree) → IsPlain tree → (n : ℕ) (path other : List ℕ) (names more : List (List ℕ)) (d : Done) → path_of path ≡ Some names → path_of other ≡ Some more →
        outcome room tree n (calls.Rename path other) ≡ Ok d → ((birth : ℕ) → node_of_path tree names ≡ Ok birth → node_of_path tree more ≡ Ok birth → ⊥) →
        (below : List (List ℕ)) (birth : ℕ) → (node_of_path d.tree (more ++ below) ≡ Ok birth) ↔ (node_of_path tree (names ++ below) ≡ Ok birth) }
    ensures gone { (room : Room) (tree : Tree) → IsPlain tree → (n : ℕ) (path other : List ℕ) (names more : List (List ℕ)) (d : Done) → path_of path ≡ Some names → path_of other ≡ Some more →
        outcome room tree n (calls.Rename path other) ≡ Ok d → ((birth : ℕ) → node_of_path tree names ≡ Ok birth → node_of_path tree more ≡ Ok birth → ⊥) →
        (below : List (List ℕ)) (birth : ℕ) → node_of_path d.tree (names ++ below) ≡ Ok birth → ⊥ }
    ensures others { (room : Room) (tree : Tree) → IsPlain tree → (n : ℕ) (path other : List ℕ) (names more : List (List ℕ)) (d : Done) → path_of path ≡ Some names → path_of other ≡ Some more →
        outcome room tree n (calls.Rename path other) ≡ Ok d → ((birth : ℕ) → node_of_path tree names ≡ Ok birth → node_of_path tree more ≡ Ok birth → ⊥) →
        (ns : List (List ℕ)) (birth : ℕ) → (Begins ns names → ⊥) → (Begins ns more → ⊥) → (node_of_path d.tree ns ≡ Ok birth) ↔ (node_of_path tree ns ≡ Ok birth) }
{}

/// A law, which does nothing when it is called: a node that `rename` moves stays what it was, but that a directory has
/// its new parent. A file that it replaces loses a link, and leaves its slot. The old directory keeps its slots, the new
/// one gets one where it has none that is free, and where both are one, the old name is taken out first. All other
/// nodes stay.
pub fn a_move_keeps_its_node()
    ensures file { (room : Room) (tree : Tree) → IsPlain tree → (n : ℕ) (path other : List ℕ) (names more : List (List ℕ)) (d : Done) → path_of path ≡ Some names → path_of other ≡ Some more →
        outcome room tree n (calls.Rename path other) ≡ Ok d → ((birth : ℕ) → node_of_path tree names ≡ Ok birth → node_of_path tree more ≡ Ok birth → ⊥) →
        (birth : ℕ) (f : File) → LeadsTo tree names birth (nodes.File f) → at_number d.tree birth ≡ Some (nodes.File f) }
    ensures directory { (room : Room) (tree : Tree) → IsPlain tree → (n : ℕ) (path other : List ℕ) (names more : List (List ℕ)) (d : Done) → path_of path ≡ Some names → path_of other ≡ Some more →
        outcome room tree n (calls.Rename path other) ≡ Ok d → ((birth : ℕ) → node_of_path tree names ≡ Ok birth → node_of_path tree more ≡ Ok birth → ⊥) →
        (birth : ℕ) (e : Directory) → LeadsTo tree names birth (nodes.Directory e) → (before : Directory) (name : List ℕ) (i : IsInDirectory tree more before name) →
        at_number d.tree birth ≡ Some (nodes.Directory (record { parent = i.birth; width = e.width; slots = e.slots; names = e.names })) }
    ensures replaced { (room : Room) (tree : Tree) → IsPlain tree → (n : ℕ) (path other : List ℕ) (names more : List (List ℕ)) (d : Done) → path_of path ≡ Some names → path_of other ≡ Some more →
        outcome room tree n (calls.Rename path other) ≡ Ok d → ((birth : ℕ) → node_of_path tree names ≡ Ok birth → node_of_path tree more ≡ Ok birth → ⊥) →
        (birth : ℕ) (f : File) → LeadsTo tree more birth (nodes.File f) → HasLinkLess d.tree birth f }
    ensures others { (room : Room) (tree : Tree) → IsPlain tree → (n : ℕ) (path other : List ℕ) (names more : List (List ℕ)) (d : Done) → path_of path ≡ Some names → path_of other ≡ Some more →
        outcome room tree n (calls.Rename path other) ≡ Ok d → ((birth : ℕ) → node_of_path tree names ≡ Ok birth → node_of_path tree more ≡ Ok birth → ⊥) →
        (birth : ℕ) → (node_of_path tree names ≡ Ok birth → ⊥) → (node_of_path tree more ≡ Ok birth → ⊥) → (IsParentOf tree names birth → ⊥) → (IsParentOf tree more birth → ⊥) →
        at_number d.tree birth ≡ at_number tree birth }
    ensures old_directory { (room : Room) (tree : Tree) → IsPlain tree → (n : ℕ) (path other : List ℕ) (names more : List (List ℕ)) (d : Done) → path_of path ≡ Some names → path_of other ≡ Some more →
        outcome room tree n (calls.Rename path other) ≡ Ok d → ((birth : ℕ) → node_of_path tree names ≡ Ok birth → node_of_path tree more ≡ Ok birth → ⊥) →
        (birth : ℕ) (node : Node) → LeadsTo tree names birth node → (before : Directory) (name : List ℕ) (i : IsInDirectory tree names before name) → (IsParentOf tree more i.birth → ⊥) →
        (after : Directory) × (at_number d.tree i.birth ≡ Some (nodes.Directory after)) × HasNameLess tree d.tree before after (link_of node) }
    ensures new_directory { (room : Room) (tree : Tree) → IsPlain tree → (n : ℕ) (path other : List ℕ) (names more : List (List ℕ)) (d : Done) → path_of path ≡ Some names → path_of other ≡ Some more →
        outcome room tree n (calls.Rename path other) ≡ Ok d → ((birth : ℕ) → node_of_path tree names ≡ Ok birth → node_of_path tree more ≡ Ok birth → ⊥) →
        (birth : ℕ) (node : Node) → LeadsTo tree names birth node → ((met : ℕ) → node_of_path tree more ≡ Ok met → ⊥) →
        (before : Directory) (name : List ℕ) (i : IsInDirectory tree more before name) → (IsParentOf tree names i.birth → ⊥) →
        (after : Directory) × (at_number d.tree i.birth ≡ Some (nodes.Directory after)) × HasNameMore tree d.tree before after (link_of node) }
    ensures replacing { (room : Room) (tree : Tree) → IsPlain tree → (n : ℕ) (path other : List ℕ) (names more : List (List ℕ)) (d : Done) → path_of path ≡ Some names → path_of other ≡ Some more →
        outcome room tree n (calls.Rename path other) ≡ Ok d → ((birth : ℕ) → node_of_path tree names ≡ Ok birth → node_of_path tree more ≡ Ok birth → ⊥) →
        (met : ℕ) (node : Node) → LeadsTo tree more met node → (before : Directory) (name : List ℕ) (i : IsInDirectory tree more before name) →
        (after : Directory) × (at_number d.tree i.birth ≡ Some (nodes.Directory after)) × (after.slots ≡ before.slots) }
    ensures one_directory { (room : Room) (tree : Tree) → IsPlain tree → (n : ℕ) (path other : List ℕ) (names more : List (List ℕ)) (d : Done) → path_of path ≡ Some names → path_of other ≡ Some more →
        outcome room tree n (calls.Rename path other) ≡ Ok d → ((birth : ℕ) → node_of_path tree names ≡ Ok birth → node_of_path tree more ≡ Ok birth → ⊥) →
        ((met : ℕ) → node_of_path tree more ≡ Ok met → ⊥) → (before : Directory) (name : List ℕ) (i : IsInDirectory tree names before name) → IsParentOf tree more i.birth →
        (after : Directory) × (at_number d.tree i.birth ≡ Some (nodes.Directory after)) × HasNameMoved tree d.tree before after }
{}

/// A law, which does nothing when it is called: a new directory has two slots and no name, and a new file no byte and
/// one link. `link` gives a file one link more and `unlink` one less; with its last one it is gone, and so is a
/// directory that `rmdir` removes. A directory gets a slot for a name where it has none that is free, keeps its slots
/// where a name goes, and has a link for each directory in it.
pub fn links_and_slots_count_names()
    ensures new_directory { (room : Room) (tree : Tree) → IsPlain tree → (n : ℕ) → AreBornBefore n tree → (path : List ℕ) (d : Done) → outcome room tree n (calls.Mkdir path) ≡ Ok d →
        (e : Directory) × (at_number d.tree n ≡ Some (nodes.Directory e)) × (e.slots ≡ 2) × (e.names ≡ []) }
    ensures new_file { (room : Room) (tree : Tree) → IsPlain tree → (n : ℕ) → AreBornBefore n tree → (path : List ℕ) (d : Done) → outcome room tree n (calls.Create path) ≡ Ok d →
        (f : File) × (at_number d.tree n ≡ Some (nodes.File f)) × (f.size ≡ 0) × (f.links ≡ 1) × (f.blocks ≡ []) }
    ensures link { (room : Room) (tree : Tree) → IsPlain tree → (n : ℕ) (path other : List ℕ) (d : Done) (birth : ℕ) (f : File) → StandsAt tree path birth (nodes.File f) → outcome room tree n (calls.Link path other) ≡ Ok d →
        (g : File) × (at_number d.tree birth ≡ Some (nodes.File g)) × (g.links ≡ f.links + 1) × (g.size ≡ f.size) × (g.blocks ≡ f.blocks) }
    ensures unlink { (room : Room) (tree : Tree) → IsPlain tree → (n : ℕ) (path : List ℕ) (d : Done) (birth : ℕ) (f : File) → StandsAt tree path birth (nodes.File f) → outcome room tree n (calls.Unlink path) ≡ Ok d →
        HasLinkLess d.tree birth f }
    ensures rmdir { (room : Room) (tree : Tree) → IsPlain tree → (n : ℕ) (path : List ℕ) (d : Done) (birth : ℕ) (node : Node) → StandsAt tree path birth node → outcome room tree n (calls.Rmdir path) ≡ Ok d →
        at_number d.tree birth ≡ None }
    ensures in_mkdir { (room : Room) (tree : Tree) → IsPlain tree → (n : ℕ) → AreBornBefore n tree → (path : List ℕ) (names : List (List ℕ)) (d : Done) → path_of path ≡ Some names → outcome room tree n (calls.Mkdir path) ≡ Ok d →
        (before : Directory) (name : List ℕ) (i : IsInDirectory tree names before name) → (after : Directory) × (at_number d.tree i.birth ≡ Some (nodes.Directory after)) × HasNameMore tree d.tree before after 1 }
    ensures in_create { (room : Room) (tree : Tree) → IsPlain tree → (n : ℕ) → AreBornBefore n tree → (path : List ℕ) (names : List (List ℕ)) (d : Done) → path_of path ≡ Some names → outcome room tree n (calls.Create path) ≡ Ok d →
        (before : Directory) (name : List ℕ) (i : IsInDirectory tree names before name) → (after : Directory) × (at_number d.tree i.birth ≡ Some (nodes.Directory after)) × HasNameMore tree d.tree before after 0 }
    ensures in_link { (room : Room) (tree : Tree) → IsPlain tree → (n : ℕ) (path other : List ℕ) (more : List (List ℕ)) (d : Done) → path_of other ≡ Some more → outcome room tree n (calls.Link path other) ≡ Ok d →
        (before : Directory) (name : List ℕ) (i : IsInDirectory tree more before name) → (after : Directory) × (at_number d.tree i.birth ≡ Some (nodes.Directory after)) × HasNameMore tree d.tree before after 0 }
    ensures in_unlink { (room : Room) (tree : Tree) → IsPlain tree → (n : ℕ) (path : List ℕ) (names : List (List ℕ)) (d : Done) → path_of path ≡ Some names → outcome room tree n (calls.Unlink path) ≡ Ok d →
        (before : Directory) (name : List ℕ) (i : IsInDirectory tree names before name) → (after : Directory) × (at_number d.tree i.birth ≡ Some (nodes.Directory after)) × HasNameLess tree d.tree before after 0 }
    ensures in_rmdir { (room : Room) (tree : Tree) → IsPlain tree → (n : ℕ) (path : List ℕ) (names : List (List ℕ)) (d : Done) → path_of path ≡ Some names → outcome room tree n (calls.Rmdir path) ≡ Ok d →
        (before : Directory) (name : List ℕ) (i : IsInDirectory tree names before name) → (after : Directory) × (at_number d.tree i.birth ≡ Some (nodes.Directory after)) × HasNameLess tree d.tree before after 1 }
{}

/// A law, which does nothing when it is called: all other nodes stay as they were. Those that change are the directory
/// of the name, and the node that is made, or that the path leads to.
pub fn other_nodes_stay()
    ensures mkdir { (room : Room) (tree : Tree) (n : ℕ) (path : List ℕ) (names : List (List ℕ)) (d : Done) → path_of path ≡ Some names → outcome room tree n (calls.Mkdir path) ≡ Ok d →
        (birth : ℕ) → birth ≢ n → (IsParentOf tree names birth → ⊥) → at_number d.tree birth ≡ at_number tree birth }
    ensures create { (room : Room) (tree : Tree) (n : ℕ) (path : List ℕ) (names : List (List ℕ)) (d : Done) → path_of path ≡ Some names → outcome room tree n (calls.Create path) ≡ Ok d →
        (birth : ℕ) → birth ≢ n → (IsParentOf tree names birth → ⊥) → at_number d.tree birth ≡ at_number tree birth }
    ensures link { (room : Room) (tree : Tree) (n : ℕ) (path other : List ℕ) (names more : List (List ℕ)) (d : Done) → path_of path ≡ Some names → path_of other ≡ Some more → outcome room tree n (calls.Link path other) ≡ Ok d →
        (birth : ℕ) → (node_of_path tree names ≡ Ok birth → ⊥) → (IsParentOf tree more birth → ⊥) → at_number d.tree birth ≡ at_number tree birth }
    ensures unlink { (room : Room) (tree : Tree) → IsPlain tree → (n : ℕ) (path : List ℕ) (names : List (List ℕ)) (d : Done) → path_of path ≡ Some names → outcome room tree n (calls.Unlink path) ≡ Ok d →
        (birth : ℕ) → (node_of_path tree names ≡ Ok birth → ⊥) → (IsParentOf tree names birth → ⊥) → at_number d.tree birth ≡ at_number tree birth }
    ensures rmdir { (room : Room) (tree : Tree) → IsPlain tree → (n : ℕ) (path : List ℕ) (names : List (List ℕ)) (d : Done) → path_of path ≡ Some names → outcome room tree n (calls.Rmdir path) ≡ Ok d →
        (birth : ℕ) → (node_of_path tree names ≡ Ok birth → ⊥) → (IsParentOf tree names birth → ⊥) → at_number d.tree birth ≡ at_number tree birth }
{}

/// A law, which does nothing when it is called: `stat` tells the size and the links of a file, and of a directory 16
/// bytes a slot and a link for each directory in it beside two. `list` tells each name in a directory once, in the
/// order of the bytes.
pub fn answers_tell_what_stands()
    ensures file { (room : Room) (tree : Tree) (n : ℕ) (path : List ℕ) (birth : ℕ) (f : File) → StandsAt tree path birth (nodes.File f) →
        reply_of room tree n (calls.Stat path) ≡ replies.Stat false f.size f.links }
    ensures directory { (room : Room) (tree : Tree) → IsPlain tree → (n : ℕ) (path : List ℕ) (birth : ℕ) (e : Directory) (s : StandsAt tree path birth (nodes.Directory e)) →
        (links : ℕ) × (reply_of room tree n (calls.Stat path) ≡ replies.Stat true (slot_size e.width * e.slots) links) × (within : List (List ℕ)) × (links ≡ 2 + length within) × IsStrictlySortedBy name_cmp within ×
        ((name : List ℕ) → In name within ↔ ((child : ℕ) × (node_of_path tree (s.names ++ name ∷ []) ≡ Ok child) × (is_directory (at_number tree child) ≡ true))) }
    ensures names { (room : Room) (tree : Tree) → IsPlain tree → (n : ℕ) (path : List ℕ) (birth : ℕ) (e : Directory) (s : StandsAt tree path birth (nodes.Directory e)) →
        (names : List (List ℕ)) × (reply_of room tree n (calls.List path) ≡ replies.Names names) × IsStrictlySortedBy name_cmp names ×
        ((name : List ℕ) → In name names ↔ IsOk (node_of_path tree (s.names ++ name ∷ []))) }
{}
