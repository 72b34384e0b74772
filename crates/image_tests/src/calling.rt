//! Laws of calls on trees and volumes, in the words of the tables of calls. Each does nothing when it is called.
ghost use Rattle.std.specs.Prelude.{◌≡◌, ◌≢◌, ◌⊎◌, ◌<◌, ◌≤◌, ℕ, ◌+◌, ◌-◌, ◌*◌, ◌/◌, ◌%◌, true, List, [], ◌∷◌, length, slice_index, Some, None, Err, codes};
ghost use Rattle.blk_base.specs.Members.{In};
ghost use Rattle.minix_layout.specs.declared.division.Geometry.{Geometry};
ghost use Rattle.minix_layout.specs.declared.inode.Inode.{Inode};
ghost use Rattle.tree_model.specs.declared.call.Call.{Call};
ghost use Rattle.tree_model.specs.declared.call.Call.TheVariants as calls;
ghost use Rattle.tree_model.specs.declared.call.Reply.{Reply};
ghost use Rattle.tree_model.specs.declared.call.Reply.TheVariants as replies;
ghost use Rattle.tree_model.specs.declared.call.Room.{Room};
ghost use Rattle.tree_model.specs.declared.node.Directory.{Directory};
ghost use Rattle.tree_model.specs.declared.node.File.{File};
ghost use Rattle.tree_model.specs.declared.node.Node.{Node};
ghost use Rattle.tree_model.specs.declared.node.Node.TheVariants as nodes;
ghost use Rattle.tree_model.specs.Maps.{at_number, at_name};
ghost use Rattle.tree_model.specs.Trees.{directory_links};
ghost use Rattle.tree_model.specs.Calls.{Tree, outcome};
ghost use Rattle.tree_model.specs.Causes.{LeadsTo};
ghost use Rattle.tree_model.specs.CallWords.{StandsAt};
ghost use Rattle.tree_model.specs.laws.Examples.{small_room, replies_to};
ghost use Rattle.minix_tables.specs.zones.Zones.{Zones, taken};
ghost use Rattle.volume_model.specs.declared.placed.Placed.{Placed};
ghost use Rattle.volume_model.specs.Touched.{IsMeta};
ghost use Rattle.volume_model.specs.Plain.{HasSlotZones};
ghost use Rattle.volume_model.specs.Volume.{Place, block, indirect, double, inner, zone_in};
ghost use Rattle.volume_steps.specs.Called.{FindsRoom};
ghost use Rattle.volume_steps.specs.Calls.{called};
ghost use Rattle.volume_steps.specs.Cuts.{cuts_nothing};
ghost use Rattle.volume_steps.specs.Now.{VolumeNow};
ghost use Rattle.volume_steps.specs.Zones.{new_number, next_zone, take_zones};
ghost use Rattle.volume_steps.specs.laws.Sample.{small_volume, after_calls, numbers_of};
ghost use Rattle.image_tests.specs.Calling.{GoesTo, HasAllSlots, three_names, replacing_session, full_root, first_zones_of};

/// A law, which does nothing when it is called: where several tests would refuse a new name, the first of the table is
/// told. That the name is there comes before links and slots, and all links before all slots; with both it does not matter
/// how many inodes and zones are left.
pub fn new_names_are_refused_in_order()
    ensures mkdir_exists { (room : Room) (tree : Tree) (n : ℕ) (path : List ℕ) (d : Directory) (name : List ℕ) (birth : ℕ) → GoesTo tree path d name →
        at_name d.names name ≡ Some birth → outcome room tree n (calls.Mkdir path) ≡ Err replies.Exists }
    ensures mkdir_links { (room : Room) (tree : Tree) (n : ℕ) (path : List ℕ) (d : Directory) (name : List ℕ) → GoesTo tree path d name →
        at_name d.names name ≡ None → directory_links tree d ≡ 250 → outcome room tree n (calls.Mkdir path) ≡ Err replies.TooManyLinks }
    ensures mkdir_slots { (room : Room) (tree : Tree) (n : ℕ) (path : List ℕ) (d : Directory) (name : List ℕ) → GoesTo tree path d name →
        at_name d.names name ≡ None → directory_links tree d ≢ 250 → HasAllSlots d → outcome room tree n (calls.Mkdir path) ≡ Err replies.TooBig }
    ensures create_exists { (room : Room) (tree : Tree) (n : ℕ) (path : List ℕ) (d : Directory) (name : List ℕ) (birth : ℕ) → GoesTo tree path d name →
        at_name d.names name ≡ Some birth → outcome room tree n (calls.Create path) ≡ Err replies.Exists }
    ensures create_slots { (room : Room) (tree : Tree) (n : ℕ) (path : List ℕ) (d : Directory) (name : List ℕ) → GoesTo tree path d name →
        at_name d.names name ≡ None → HasAllSlots d → outcome room tree n (calls.Create path) ≡ Err replies.TooBig }
    ensures link_exists { (room : Room) (tree : Tree) (n : ℕ) (path other : List ℕ) (from : ℕ) (f : File) (d : Directory) (name : List ℕ) (birth : ℕ) → StandsAt tree path from (nodes.File f) → GoesTo tree other d name →
        at_name d.names name ≡ Some birth → outcome room tree n (calls.Link path other) ≡ Err replies.Exists }
    ensures link_links { (room : Room) (tree : Tree) (n : ℕ) (path other : List ℕ) (from : ℕ) (f : File) (d : Directory) (name : List ℕ) → StandsAt tree path from (nodes.File f) → GoesTo tree other d name →
        at_name d.names name ≡ None → f.links ≡ 250 → outcome room tree n (calls.Link path other) ≡ Err replies.TooManyLinks }
    ensures link_slots { (room : Room) (tree : Tree) (n : ℕ) (path other : List ℕ) (from : ℕ) (f : File) (d : Directory) (name : List ℕ) → StandsAt tree path from (nodes.File f) → GoesTo tree other d name →
        at_name d.names name ≡ None → f.links ≢ 250 → HasAllSlots d → outcome room tree n (calls.Link path other) ≡ Err replies.TooBig }
{}

/// A law, which does nothing when it is called: a directory has a zone for each of its slots, that of the block in which the
/// slot lies. A block has 64 slots with names of 14 bytes, and 32 with names of 30.
pub fn slots_stand_in_zones()
    ensures short { (g : Geometry) (blocks : List (List ℕ)) (i : Inode) (slots k : ℕ) → g.width ≡ 14 → HasSlotZones g blocks i slots → k < slots → zone_in blocks i (block (k / 64)) ≢ 0 }
    ensures long { (g : Geometry) (blocks : List (List ℕ)) (i : Inode) (slots k : ℕ) → g.width ≡ 30 → HasSlotZones g blocks i slots → k < slots → zone_in blocks i (block (k / 32)) ≢ 0 }
{}

/// A law, which does nothing when it is called: of a `rename` the walk of the first path is told before the parent of
/// the second, that parent before a directory that would go below itself, and this before what stands at the new place.
pub fn renames_are_refused_in_order()
    ensures { replies_to small_room three_names 4
        (calls.Rename (codes "/x") (codes "/f/y") ∷ calls.Rename (codes "/a") (codes "/a/x/y") ∷ calls.Rename (codes "/a") (codes "/a/b") ∷ [])
        ≡ replies.NotFound ∷ replies.NotFound ∷ replies.Invalid ∷ [] }
{}

/// A law, which does nothing when it is called: a node that gets another name in its directory is never refused for the
/// directory's links or slots, also where it has all its links, and all its slots with none that is free.
pub fn renames_within_a_directory_need_no_room()
    ensures { (room : Room) (tree : Tree) (n : ℕ) (path other : List ℕ) (d : Directory) (name more : List ℕ) (birth : ℕ) (node : Node)
        (from : GoesTo tree path d name) (to : GoesTo tree other d more) → from.within.birth ≡ to.within.birth →
        LeadsTo tree from.names birth node → at_name d.names name ≡ Some birth → length d.names + 2 ≤ d.slots →
        (reply : Reply) → outcome room tree n (calls.Rename path other) ≡ Err reply → (reply ≢ replies.TooManyLinks) × (reply ≢ replies.TooBig) }
{}

/// A law, which does nothing when it is called: a new node takes the lowest inode that no node has, so that one that
/// went is the next to come.
pub fn new_nodes_take_the_lowest_inode()
    ensures lowest { (g : Geometry) (placed : List (ℕ × Placed)) (lower : ℕ) → 0 < lower → lower < new_number g placed →
        (e : ℕ × Placed) × In e placed × (e.1.number ≡ lower) }
    ensures replaced { numbers_of (after_calls 1 1 small_volume replacing_session) ≡ 1 ∷ 2 ∷ 4 ∷ 3 ∷ [] }
{}

/// A law, which does nothing when it is called: a block takes the lowest free zone for itself, and the next ones for the
/// zones of numbers on its way that are not there, from the inode down: the indirect one, or the doubly indirect one and
/// then the one behind that.
pub fn blocks_take_zones_before_their_numbers()
    ensures own { (own : Place → ℕ) (index : ℕ) (m : Zones) → (take_zones own index m).taken.data_zone ≡ next_zone m }
    ensures indirect { (own : Place → ℕ) (index : ℕ) (m : Zones) → 7 ≤ index → index < 519 → own indirect ≡ 0 →
        (take_zones own index m).taken.outer ≡ next_zone (taken m) }
    ensures double { (own : Place → ℕ) (index : ℕ) (m : Zones) → 519 ≤ index → own double ≡ 0 →
        (take_zones own index m).taken.outer ≡ next_zone (taken m) }
    ensures behind_double { (own : Place → ℕ) (index : ℕ) (m : Zones) → 519 ≤ index → own double ≡ 0 → own (inner ((index - 519) / 512)) ≡ 0 →
        (take_zones own index m).taken.second ≡ next_zone (taken (taken m)) }
    ensures behind_it_alone { (own : Place → ℕ) (index : ℕ) (m : Zones) → 519 ≤ index → own double ≢ 0 → own (inner ((index - 519) / 512)) ≡ 0 →
        (take_zones own index m).taken.second ≡ next_zone (taken m) }
{}

/// A law, which does nothing when it is called: a new directory takes the lowest zone that is free before the call. So where
/// its parent needs one for the new name, that gets a later one: in one worked call on a root with all its slots in use.
pub fn new_directories_take_their_zone_first()
    ensures own { (v : VolumeNow) (n tx : ℕ) (path : List ℕ) (p : Placed) → FindsRoom v n (calls.Mkdir path) →
        at_number (called v n tx (calls.Mkdir path)).change.volume.contents.nodes n ≡ Some p → slice_index p.inode.zones 0 ≡ next_zone v.zones }
    ensures child { first_zones_of (called full_root 2 1 (calls.Mkdir (codes "/d"))).change.volume 2 ≡ Some (6 ∷ 0 ∷ []) }
    ensures parent { first_zones_of (called full_root 2 1 (calls.Mkdir (codes "/d"))).change.volume 0 ≡ Some (5 ∷ 7 ∷ []) }
{}

/// A law, which does nothing when it is called: each block that a call revokes was metadata before the call, done or refused.
/// So the blocks of a file never are, and neither is a block that was free.
pub fn revoked_blocks_were_metadata()
    ensures { (v : VolumeNow) (n tx : ℕ) (c : Call) (b : ℕ) → FindsRoom v n c → In b (called v n tx c).change.touched.revoked → IsMeta v.geometry v.contents b }
{}

/// A law, which does nothing when it is called: a truncate is one that changes nothing exactly where the file has the
/// size, each of its blocks begins below it, and it does not end within one of them.
pub fn cuts_that_change_nothing_are_known()
    ensures still { (tree : Tree) (path : List ℕ) (size birth : ℕ) (f : File) → StandsAt tree path birth (nodes.File f) → cuts_nothing tree path size ≡ true →
        (f.size ≡ size) × ((e : ℕ × List ℕ) → In e f.blocks → 1024 * e.0 < size) × ((size % 1024 ≡ 0) ⊎ (at_number f.blocks (size / 1024) ≡ None)) }
    ensures known { (tree : Tree) (path : List ℕ) (size birth : ℕ) (f : File) → StandsAt tree path birth (nodes.File f) → f.size ≡ size →
        ((e : ℕ × List ℕ) → In e f.blocks → 1024 * e.0 < size) → (size % 1024 ≡ 0) ⊎ (at_number f.blocks (size / 1024) ≡ None) → cuts_nothing tree path size ≡ true }
{}
