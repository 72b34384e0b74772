//! The nodes of a volume by their births.
ghost use Rattle.std.specs.Prelude.{◌≡◌, ◌<◌, ◌↔◌, true, IfOk, length, slice_set};
ghost use Rattle.std.specs.Option.{option_copied, option_map};
ghost use Rattle.tree_model.specs.Maps.{at_number};
ghost use Rattle.volume_ops.specs.Faultless.{IsReached};
ghost use Rattle.volume_ops.specs.Volume.{node_of};
ghost use Rattle.vol_check.specs.Clean.{IsOther};
ghost use Rattle.vol_check.specs.code.Births.{AreBirths, HasPlaces, directory_at, found_at, is_other, tree_in};

use crate::places::birth_of;
use blk_base::NoMemory;
use std::alloc::Global;
use std::marker::Model;
use tree_model::Directory;
use volume_ops::{Found, FoundNode, Volume};

/// For each birth the place of its node among those that the walk met, counted from 1; 0 where there is none.
#[derive(Drop)]
pub struct Births {
    places: Vec<usize>,
}

impl Model for Births {
    ghost use Rattle.std.specs.Prelude.{List, ℕ};

    ghost Value = { List ℕ };

    ghost view = { λ b. b.places.items };
}

impl Births {
    pub fn of(alloc: Global, volume: &Volume) -> Result<Births, NoMemory>
        ensures { IfOk result (λ b. AreBirths volume.now.geometry volume.now.blocks b) }
    {
        // By this call the volume tells that its geometry is sound.
        let _ = volume.disk();
        let numbers = usize::from(volume.geometry().inodes) + 1;
        let mut places = vec![in alloc; 0; numbers]?;
        note_places(volume.nodes(), &mut places);
        Ok(Births { places })
    }

    /// The node of this birth.
    fn find<'v>(&self, volume: &'v Volume, birth: u64) -> Option<&'v Found>
        requires { AreBirths volume.now.geometry volume.now.blocks self.now }
        ensures { option_map (node_of volume.now.blocks) (option_copied result) ≡ at_number (tree_in volume.now.geometry volume.now.blocks) birth }
    {
        match node_at(volume.nodes(), &self.places, birth) {
            Some(node) => Some(&node.found),
            None => None,
        }
    }

    /// The directory of this birth, where the node is one.
    pub fn directory<'v>(&self, volume: &'v Volume, birth: u64) -> Option<&'v Directory>
        requires { AreBirths volume.now.geometry volume.now.blocks self.now }
        ensures { option_copied result ≡ directory_at (at_number (tree_in volume.now.geometry volume.now.blocks) birth) }
    {
        match self.find(volume, birth) {
            Some(Found::Directory(directory)) => Some(directory),
            _ => None,
        }
    }

    /// Whether names lead to this inode.
    pub fn reaches(&self, volume: &Volume, inode: u16) -> bool
        requires births { AreBirths volume.now.geometry volume.now.blocks self.now }
        requires some { 0 < inode }
        ensures { (result ≡ true) ↔ IsReached volume.now.geometry volume.now.blocks inode }
    {
        self.find(volume, birth_of(inode)).is_some()
    }

    /// Whether names lead to this inode, and it is neither a directory nor a file.
    pub fn is_other(&self, volume: &Volume, inode: u16) -> bool
        requires births { AreBirths volume.now.geometry volume.now.blocks self.now }
        requires some { 0 < inode }
        ensures { (result ≡ true) ↔ IsOther volume.now.geometry volume.now.blocks inode }
    {
        match self.find(volume, birth_of(inode)) {
            Some(found) => is_other(found),
            None => false,
        }
    }
}

// Whether a node is neither a directory nor a file.
fn is_other(found: &Found) -> bool
    ensures { result ≡ is_other found.now }
{
    match found {
        Found::Other(_) => true,
        Found::Directory(_) | Found::File(_) => false,
    }
}

// Notes the places of the nodes.
fn note_places(nodes: &[FoundNode], places: &mut Vec<usize>)
    ensures size { length places.new.items ≡ length places.old.items }
    ensures places { HasPlaces nodes.now places.old.items places.new.items }
{
    for (k, node) in nodes.iter().enumerate() {
        note_place(places, node.birth, k + 1);
    }
}

// Notes the place of the node of a birth, where the table has this birth.
fn note_place(places: &mut Vec<usize>, birth: u64, place: usize)
    ensures { places.new.items ≡ slice_set places.old.items birth place }
{
    if let Some(noted) = places.get_mut(birth as usize) {
        *noted = place;
    }
}

// The node of this birth, by the table of places.
fn node_at<'n>(nodes: &'n [FoundNode], places: &[usize], birth: u64) -> Option<&'n FoundNode>
    ensures { option_copied result ≡ found_at nodes.now places.now birth }
{
    match places.get(birth as usize) {
        Some(place) if *place > 0 => nodes.get(*place - 1),
        _ => None,
    }
}
