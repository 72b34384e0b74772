//! The links of the inodes.
ghost use Rattle.std.specs.Prelude.{◌≡◌, ◌+◌, ◌<◌, ◌≤◌, ◌↔◌, true, length, Some};
ghost use Rattle.tree_model.specs.declared.node.Node.{Node};
ghost use Rattle.tree_model.specs.Maps.{at_number};
ghost use Rattle.tree_model.specs.Trees.{directory_links};
ghost use Rattle.volume_ops.specs.Places.{birth_of};
ghost use Rattle.vol_check.specs.Clean.{HasLinks, links_in};
ghost use Rattle.vol_check.specs.Verdicts.{IsFound};
ghost use Rattle.vol_check.specs.code.Births.{AreBirths, tree_in};
ghost use Rattle.vol_check.specs.code.Names.{AreCounts, IsWanted};

use crate::births::Births;
use crate::name_counts::NameCounts;
use crate::places::birth_of;
use tree_model::Directory;
use volume_ops::{Volume, inode_at};

/// The first inode whose links are wrong.
pub fn wrong_links(volume: &Volume, births: &Births, names: &NameCounts) -> Option<u16>
    requires births { AreBirths volume.now.geometry volume.now.blocks births.now }
    requires names { AreCounts volume.now.geometry volume.now.blocks names.now }
    ensures { IsFound 1 (volume.now.geometry.inodes + 1) (HasLinks volume.now.geometry volume.now.blocks) result }
{
    for before in 0..volume.geometry().inodes {
        if !has_links(volume, births, names, before + 1) {
            return Some(before + 1);
        }
    }
    None
}

// Whether the links of an inode are right.
fn has_links(volume: &Volume, births: &Births, names: &NameCounts, inode: u16) -> bool
    requires births { AreBirths volume.now.geometry volume.now.blocks births.now }
    requires names { AreCounts volume.now.geometry volume.now.blocks names.now }
    requires some { 0 < inode }
    requires within { inode ≤ volume.now.geometry.inodes }
    ensures { (result ≡ true) ↔ HasLinks volume.now.geometry volume.now.blocks inode }
{
    if !births.reaches(volume, inode) {
        return true;
    }
    let i = inode_at(volume.disk(), volume.geometry(), inode);
    usize::from(i.links) == wanted(volume, births, names, inode)
}

// How many links an inode should have that names lead to; no more than its field can hold are told apart.
fn wanted(volume: &Volume, births: &Births, names: &NameCounts, inode: u16) -> usize
    requires births { AreBirths volume.now.geometry volume.now.blocks births.now }
    requires names { AreCounts volume.now.geometry volume.now.blocks names.now }
    requires some { 0 < inode }
    requires within { inode ≤ volume.now.geometry.inodes }
    ensures { (node : Node) → at_number (tree_in volume.now.geometry volume.now.blocks) (birth_of inode) ≡ Some node →
        IsWanted (links_in (tree_in volume.now.geometry volume.now.blocks) (birth_of inode) node) result }
{
    let birth = birth_of(inode);
    match births.directory(volume, birth) {
        Some(directory) => directory_links(volume, births, directory),
        None => usize::from(names.count(birth)),
    }
}

// The links of a directory: 2, and one for each of its directories.
fn directory_links(volume: &Volume, births: &Births, directory: &Directory) -> usize
    requires { AreBirths volume.now.geometry volume.now.blocks births.now }
    ensures value { result ≡ directory_links (tree_in volume.now.geometry volume.now.blocks) directory.now }
    ensures most { result ≤ length directory.now.names + 2 }
{
    let mut links = 2;
    for (_, birth) in directory.names.as_map() {
        if births.directory(volume, *birth).is_some() {
            links += 1;
        }
    }
    links
}
