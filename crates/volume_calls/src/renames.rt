//! What refuses a rename, and which zones it takes.
ghost use Rattle.std.specs.Prelude.{◌≡◌, ◌==◌, ◌+◌, ◌&&◌, ℕ, List, IfSome, IsNone, IsTrue, Some, None, length};
ghost use Rattle.std.specs.List.{list_all, list_any};
ghost use Rattle.std.specs.Option.{option_map};
ghost use Rattle.tree_model.specs.Calls.{above, changes_parent, directory_zones, is_file, is_full, is_root, meets_directory, meets_file, most_links, moves_directory, place_after, rename, rename_to, slots_with, target_at};
ghost use Rattle.tree_model.specs.Maps.{at_name, at_number};
ghost use Rattle.tree_model.specs.Paths.{is_path_name};
ghost use Rattle.tree_model.specs.Trees.{directory_links, is_directory};
ghost use Rattle.tree_model.specs.code.PathTexts.{names_below};
ghost use Rattle.volume_model.specs.Trees.{directory_from, node_now};
ghost use Rattle.volume_steps.specs.Now.{tree_of_now};
ghost use Rattle.volume_calls.specs.code.Asked.{IsAsked};
ghost use Rattle.volume_calls.specs.code.Rows.{Agrees};
ghost use Rattle.volume_calls.specs.code.Renames.{HasSlots, found_from, move_from, place_from};

use crate::PlainVolume;
use crate::directories::{is_full, slot_zones};
use crate::takes::Wants;
use crate::walk::{Found, Place};
use minix_layout::MOST_LINKS;
use tree_model::{ByteList, Reply, first_name, names_of};
use volume_model::{Part, Placed};

// A node that moves from one place to another, and what stands there.
#[derive(Drop)]
pub struct Moved<'a> {
    pub moved: Found<'a>,
    pub from: Place<'a>,
    pub to: Place<'a>,
    pub target: Option<Found<'a>>,
}

fn is_directory(placed: &Placed) -> bool
    ensures { (blocks : List (List ℕ)) → result ≡ is_directory (Some (node_now blocks placed.now)) }
{
    match &placed.part {
        Part::Directory(_) => true,
        Part::File(_) => false,
    }
}

fn is_file(placed: &Placed) -> bool
    ensures { (blocks : List (List ℕ)) → result ≡ is_file (Some (node_now blocks placed.now)) }
{
    match &placed.part {
        Part::Directory(_) => false,
        Part::File(_) => true,
    }
}

fn is_root(names: &[u8]) -> bool
    ensures empty { result ≡ (length names.now == 0) }
    ensures root { result ≡ is_root (names_below names.now) }
{
    names.is_empty()
}

impl Moved<'_> {
    fn moves_directory(&self) -> bool
        ensures { (blocks : List (List ℕ)) → result ≡ moves_directory (move_from blocks self.now) }
    {
        is_directory(self.moved.placed)
    }

    // Another directory stands there.
    fn meets_directory(&self) -> bool
        ensures { (blocks : List (List ℕ)) → result ≡ meets_directory (move_from blocks self.now) }
    {
        match &self.target {
            Some(target) => is_directory(target.placed) && target.birth != self.moved.birth,
            None => false,
        }
    }

    fn meets_file(&self) -> bool
        ensures { (blocks : List (List ℕ)) → result ≡ meets_file (move_from blocks self.now) }
    {
        match &self.target {
            Some(target) => is_file(target.placed),
            None => false,
        }
    }

    // A directory would stand in place of a file.
    fn replaces_file(&self) -> bool
        ensures { (blocks : List (List ℕ)) → result ≡ (meets_file (move_from blocks self.now) && moves_directory (move_from blocks self.now)) }
    {
        if !self.meets_file() {
            return false;
        }
        self.moves_directory()
    }

    fn changes_parent(&self) -> bool
        ensures { (blocks : List (List ℕ)) → result ≡ changes_parent (move_from blocks self.now) }
    {
        self.to.parent != self.from.parent
    }

    // The new parent of a directory has as many links as it can have.
    fn lacks_links(&self) -> bool
        ensures { (blocks : List (List ℕ)) → result ≡ (moves_directory (move_from blocks self.now)
            && (changes_parent (move_from blocks self.now) && (self.now.to.placed.now.inode.links == most_links))) }
    {
        if !self.moves_directory() {
            return false;
        }
        if !self.changes_parent() {
            return false;
        }
        self.to.placed.inode.links == MOST_LINKS
    }

    // One name more would make the new parent too big, once the old name is gone.
    fn is_full(&self) -> bool
        requires { HasSlots self.now }
        ensures { (blocks : List (List ℕ)) → result ≡ is_full (place_after (move_from blocks self.now)).directory }
    {
        if !self.changes_parent() {
            return false;
        }
        is_full(self.to.directory)
    }

    // The zones that the new parent takes, where no node stands at the new place.
    fn zones(&self) -> u32
        requires { HasSlots self.now }
        ensures { (blocks : List (List ℕ)) → at_name self.now.to.directory.now.names self.now.to.name ≡ None →
            directory_zones (place_after (move_from blocks self.now)).directory.width (place_after (move_from blocks self.now)).directory.slots + result ≡
            directory_zones (place_after (move_from blocks self.now)).directory.width (slots_with (place_after (move_from blocks self.now)).directory self.now.to.name) }
    {
        if !self.changes_parent() {
            return 0;
        }
        slot_zones(self.to.directory)
    }
}

impl PlainVolume {
    // The node that stands at a place.
    fn target_at(&self, place: &Place<'_>) -> Option<Found<'_>>
        ensures { option_map (found_from self.now.contents.blocks) result ≡ target_at (tree_of_now self.now) (place_from place.now) }
    {
        let birth = place.directory.names.get(&place.name)?;
        let placed = self.node_at(birth)?;
        Some(Found { birth, placed })
    }

    // The way to the last of some names comes by this node.
    fn comes_by(&self, names: &[u8], birth: u64) -> bool
        requires { IsTrue (list_all is_path_name (names_below names.now)) }
        ensures { result ≡ list_any (λ b. b == birth) (above (tree_of_now self.now) 0 (names_below names.now)) }
    {
        let mut at = 0;
        let mut left = names;
        while !left.is_empty() {
            let (name, more) = first_name(left);
            if at == birth {
                return true;
            }
            let Ok(next) = self.step(at, name) else {
                return false;
            };
            at = next;
            left = more;
        }
        false
    }

    // A directory that moves would stand below itself.
    fn goes_below(&self, found: &Found<'_>, names: &[u8]) -> bool
        requires { IsTrue (list_all is_path_name (names_below names.now)) }
        ensures { result ≡ (is_directory (Some (node_now self.now.contents.blocks found.now.placed.now))
            && list_any (λ b. b == found.now.birth) (above (tree_of_now self.now) 0 (names_below names.now))) }
    {
        is_directory(found.placed) && self.comes_by(names, found.birth)
    }

    // What refuses a move, by what stands at the new place.
    fn refused_move(&self, moved: &Moved<'_>) -> Result<(), Reply>
        requires slots { HasSlots moved.now }
        requires links { moved.now.to.placed.now.inode.links ≡ directory_links (tree_of_now self.now) (directory_from moved.now.to.directory.now) }
        ensures { Agrees result (rename_to (tree_of_now self.now) (move_from self.now.contents.blocks moved.now)) }
    {
        let _ = &self.parts.geometry;
        if moved.meets_directory() {
            return Err(if moved.moves_directory() {
                Reply::Exists
            } else {
                Reply::IsDir
            });
        }
        if moved.replaces_file() {
            return Err(Reply::NotDir);
        }
        if moved.lacks_links() {
            return Err(Reply::TooManyLinks);
        }
        if moved.target.is_some() {
            return Ok(());
        }
        if moved.is_full() {
            return Err(Reply::TooBig);
        }
        Ok(())
    }

    pub(crate) fn rename(&self, path: &ByteList, other: &ByteList) -> Result<Wants, Reply>
        ensures { IsAsked (tree_of_now self.now) result (rename (tree_of_now self.now) path.now other.now) }
    {
        let _ = &self.parts.geometry;
        let names = names_of(path)?;
        let more = names_of(other)?;
        if is_root(names) || is_root(more) {
            return Err(Reply::Invalid);
        }
        let found = self.found(names)?;
        let from = self.place_of(names)?;
        let to = self.place_of(more)?;
        if self.goes_below(&found, more) {
            return Err(Reply::Invalid);
        }
        let target = self.target_at(&to);
        let moved = Moved {
            moved: found,
            from,
            to,
            target,
        };
        if let Err(reply) = self.refused_move(&moved) {
            return Err(reply);
        }
        if moved.target.is_some() {
            return Ok(Wants {
                inode: false,
                zones: 0,
            });
        }
        Ok(Wants {
            inode: false,
            zones: moved.zones(),
        })
    }
}
