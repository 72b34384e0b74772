//! How many names each node has.
ghost use Rattle.std.specs.Prelude.{◌≡◌, ℕ, ◌+◌, ◌<◌, ◌≤◌, ◌==◌, min, IfOk, length, replicate, slice_index_or, slice_set};
ghost use Rattle.std.specs.List.{count_by};
ghost use Rattle.std.specs.Map.{values_of};
ghost use Rattle.vol_check.specs.code.Births.{AreBirths, tree_in};
ghost use Rattle.vol_check.specs.code.Names.{AreCounts, IsCount, most, names_by};

use crate::births::Births;
use blk_base::NoMemory;
use std::alloc::Global;
use std::marker::Model;
use tree_model::Names;
use volume_ops::Volume;

/// For each birth how many names the node has. A count ends at 65,535, more than an inode's field can hold.
#[derive(Drop)]
pub struct NameCounts {
    counts: Vec<u16>,
}

impl Model for NameCounts {
    ghost use Rattle.std.specs.Prelude.{List, ℕ};

    ghost Value = { List ℕ };

    ghost view = { λ n. n.counts.items };
}

impl NameCounts {
    pub fn of(alloc: Global, volume: &Volume, births: &Births) -> Result<NameCounts, NoMemory>
        requires { AreBirths volume.now.geometry volume.now.blocks births.now }
        ensures { IfOk result (λ n. AreCounts volume.now.geometry volume.now.blocks n) }
    {
        let numbers = usize::from(volume.geometry().inodes) + 1;
        let mut counts = vec![in alloc; 0; numbers]?;
        count_all(volume, births, &mut counts);
        Ok(NameCounts { counts })
    }

    pub fn count(&self, birth: u64) -> u16
        ensures { result ≡ slice_index_or self.now birth 0 }
    {
        match self.counts.get(birth as usize) {
            Some(count) => *count,
            None => 0,
        }
    }
}

// Counts the names of all directories, in a table of zeros.
fn count_all(volume: &Volume, births: &Births, counts: &mut Vec<u16>)
    requires births { AreBirths volume.now.geometry volume.now.blocks births.now }
    requires zeros { counts.old.items ≡ replicate (volume.now.geometry.inodes + 1) 0 }
    ensures { AreCounts volume.now.geometry volume.now.blocks counts.new.items }
{
    let numbers = usize::from(volume.geometry().inodes) + 1;
    for birth in 0..numbers {
        count_birth(volume, births, birth as u64, counts);
    }
}

// Counts the names of the directory of this birth, where the node is one.
fn count_birth(volume: &Volume, births: &Births, birth: u64, counts: &mut Vec<u16>)
    requires { AreBirths volume.now.geometry volume.now.blocks births.now }
    ensures size { length counts.new.items ≡ length counts.old.items }
    ensures counts { (other : ℕ) → other < length counts.old.items →
        IsCount (slice_index_or counts.new.items other 0) (slice_index_or counts.old.items other 0 + names_by (tree_in volume.now.geometry volume.now.blocks) birth other) }
{
    match births.directory(volume, birth) {
        Some(directory) => count_names(&directory.names, counts),
        None => {}
    }
}

// Counts the names of a directory, each at the birth of its node.
fn count_names(names: &Names, counts: &mut Vec<u16>)
    ensures size { length counts.new.items ≡ length counts.old.items }
    ensures counts { (birth : ℕ) → birth < length counts.old.items →
        IsCount (slice_index_or counts.new.items birth 0) (slice_index_or counts.old.items birth 0 + count_by (λ b. b == birth) (values_of names.now)) }
{
    for (_, birth) in names.as_map() {
        count_one(*birth, counts);
    }
}

// Counts one name.
fn count_one(birth: u64, counts: &mut Vec<u16>)
    ensures { counts.new.items ≡ slice_set counts.old.items birth (min (slice_index_or counts.old.items birth 0 + 1) most) }
{
    let at = birth as usize;
    if at < counts.len() {
        let count = counts[at];
        counts[at] = count.saturating_add(1);
    }
}
