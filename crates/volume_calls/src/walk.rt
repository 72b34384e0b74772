//! Where paths lead in a volume.
ghost use Rattle.std.specs.Prelude.{◌≡◌, ℕ, List, IfOk, IfErr, IfSome, IsNone, Ok, Err, Some, None, IsTrue, length, ◌<◌, ◌≤◌, ◌+◌};
ghost use Rattle.std.specs.List.{list_all};
ghost use Rattle.minix_tables.specs.directories.Slots.{used_count};
ghost use Rattle.volume_model.specs.declared.placed.DirectoryPart.{DirectoryPart};
ghost use Rattle.tree_model.specs.Calls.{birth_at, parent_of, walk};
ghost use Rattle.tree_model.specs.declared.call.Reply.{Reply};
ghost use Rattle.tree_model.specs.Maps.{at_number};
ghost use Rattle.tree_model.specs.Paths.{is_path_name};
ghost use Rattle.tree_model.specs.Trees.{directory_links, step_at};
ghost use Rattle.minix_layout.specs.declared.inode.Inode.{Inode};
ghost use Rattle.volume_model.specs.Trees.{directory_from, node_from, node_now};
ghost use Rattle.volume_model.specs.declared.placed.Part.TheVariants as parts;
ghost use Rattle.volume_steps.specs.Now.{tree_of_now};
ghost use Rattle.volume_calls.specs.Births.{birth_in};
ghost use Rattle.tree_model.specs.code.PathTexts.{names_below, replied, next_at, led_from, above_last, last_in};

use crate::PlainVolume;
use minix_layout::Name;
use tree_model::{ByteList, Reply, first_name, names_of, short_name};
use volume_model::{DirectoryPart, Part, Placed};

// A node with its birth.
#[derive(Drop)]
pub struct Found<'a> {
    pub birth: u64,
    pub placed: &'a Placed,
}

// A directory with its birth, and a name that it has or may get.
#[derive(Drop)]
pub struct Place<'a> {
    pub parent: u64,
    pub placed: &'a Placed,
    pub directory: &'a DirectoryPart,
    pub name: Name,
}

// Where a name leads from a node of this kind.
fn step_in(part: &Part, name: &[u8]) -> Result<u64, Reply>
    requires word { IsTrue (is_path_name name.now) }
    requires narrow { (d : DirectoryPart) → part.now ≡ parts.Directory d → d.width ≤ 30 }
    ensures { (blocks : List (List ℕ)) (i : Inode) → result ≡ replied (step_at (Some (node_from blocks i part.now)) name.now) }
{
    let Part::Directory(directory) = part else {
        return Err(Reply::NotDir);
    };
    let name = short_name(name, directory.width)?;
    match directory.names.get(&name) {
        Some(birth) => Ok(birth),
        None => Err(Reply::NotFound),
    }
}

impl PlainVolume {
    /// The birth of the node to which a path leads. None exactly where the text is no path, or its walk is refused.
    pub fn node(&self, path: &ByteList) -> Option<u64>
        ensures { result ≡ birth_in (tree_of_now self.now) path.now }
    {
        let Ok(names) = names_of(path) else {
            return None;
        };
        match self.found(names) {
            Ok(found) => Some(found.birth),
            Err(_) => None,
        }
    }

    pub(crate) fn node_at(&self, birth: u64) -> Option<&Placed>
        ensures some { IfSome result (λ p. at_number self.now.contents.nodes birth ≡ Some p.now) }
        ensures none { IsNone result → at_number self.now.contents.nodes birth ≡ None }
    {
        self.parts.nodes.get(&birth)
    }

    // Where a name leads from a node.
    pub(crate) fn step(&self, birth: u64, name: &[u8]) -> Result<u64, Reply>
        requires { IsTrue (is_path_name name.now) }
        ensures { result ≡ next_at (tree_of_now self.now) birth name.now }
    {
        let _ = &self.parts.geometry;
        match self.node_at(birth) {
            Some(placed) => step_in(&placed.part, name),
            None => Err(Reply::NotDir),
        }
    }

    // The birth of the node to which names lead, each behind a slash.
    fn birth_at(&self, names: &[u8]) -> Result<u64, Reply>
        requires { IsTrue (list_all is_path_name (names_below names.now)) }
        ensures { result ≡ birth_at (tree_of_now self.now) (names_below names.now) }
    {
        let mut birth = 0;
        let mut left = names;
        while !left.is_empty() {
            let (name, more) = first_name(left);
            birth = self.step(birth, name)?;
            left = more;
        }
        Ok(birth)
    }

    // The node to which names lead.
    pub(crate) fn found(&self, names: &[u8]) -> Result<Found<'_>, Reply>
        requires { IsTrue (list_all is_path_name (names_below names.now)) }
        ensures found { IfOk result (λ f. walk (tree_of_now self.now) (names_below names.now) ≡
            Ok (record { birth = f.birth; node = node_now self.now.contents.blocks f.placed.now })) }
        ensures stands { IfOk result (λ f. at_number self.now.contents.nodes f.birth ≡ Some f.placed.now) }
        ensures counted { IfOk result (λ f. (d : DirectoryPart) → f.placed.now.part ≡ parts.Directory d → used_count d.slots ≡ 2 + length d.names) }
        ensures fault { IfErr result (λ reply. walk (tree_of_now self.now) (names_below names.now) ≡ Err reply) }
    {
        let _ = &self.parts.geometry;
        let birth = self.birth_at(names)?;
        match self.node_at(birth) {
            Some(placed) => Ok(Found { birth, placed }),
            None => Err(Reply::NotFound),
        }
    }

    // The last of some names, each behind a slash, and the birth of the node to which those before it lead.
    fn above<'a>(&self, names: &'a [u8]) -> Result<(u64, &'a [u8]), Reply>
        requires some { 0 < length names.now }
        requires words { IsTrue (list_all is_path_name (names_below names.now)) }
        ensures led { IfOk result (λ x. led_from (tree_of_now self.now) 0 (above_last (names_below names.now)) ≡ Ok x.0) }
        ensures name { IfOk result (λ x. x.1.now ≡ last_in (names_below names.now)) }
        ensures word { IfOk result (λ x. IsTrue (is_path_name x.1.now)) }
        ensures fault { IfErr result (λ reply. led_from (tree_of_now self.now) 0 (above_last (names_below names.now)) ≡ Err reply) }
    {
        let (first, rest) = first_name(names);
        let mut birth = 0;
        let mut name = first;
        let mut left = rest;
        while !left.is_empty() {
            let (next, more) = first_name(left);
            birth = self.step(birth, name)?;
            name = next;
            left = more;
        }
        Ok((birth, name))
    }

    // The directory of a path's last name. The root has none: a call answers that in a way of its own.
    pub(crate) fn place_of(&self, names: &[u8]) -> Result<Place<'_>, Reply>
        requires some { 0 < length names.now }
        requires words { IsTrue (list_all is_path_name (names_below names.now)) }
        ensures place { IfOk result (λ p. (at_root : Reply) → parent_of at_root (tree_of_now self.now) (names_below names.now) ≡
            Ok (record { parent = p.parent; directory = directory_from p.directory.now; name = p.name })) }
        ensures stands { IfOk result (λ p. at_number self.now.contents.nodes p.parent ≡ Some p.placed.now) }
        ensures kind { IfOk result (λ p. p.placed.now.part ≡ parts.Directory p.directory.now) }
        ensures counted { IfOk result (λ p. used_count p.directory.now.slots ≡ 2 + length p.directory.now.names) }
        ensures links { IfOk result (λ p. p.placed.now.inode.links ≡ directory_links (tree_of_now self.now) (directory_from p.directory.now)) }
        ensures fault { IfErr result (λ reply. (at_root : Reply) → parent_of at_root (tree_of_now self.now) (names_below names.now) ≡ Err reply) }
    {
        let _ = &self.parts.geometry;
        let (parent, last) = self.above(names)?;
        let Some(placed) = self.node_at(parent) else {
            return Err(Reply::NotFound);
        };
        let Part::Directory(directory) = &placed.part else {
            return Err(Reply::NotDir);
        };
        let Ok(name) = short_name(last, directory.width) else {
            return Err(Reply::NameTooLong);
        };
        Ok(Place {
            parent,
            placed,
            directory,
            name,
        })
    }
}
