//! Which inodes of a volume are in use.
ghost use Rattle.std.specs.Prelude.{◌≡◌, ◌≤◌, ◌<◌, ◌==◌, ◌+◌, ◌^◌, ℕ, length, slice_set, IfOk};
ghost use Rattle.std.specs.List.{list_any};
ghost use Rattle.std.specs.Map.{values_of};
ghost use Rattle.tree_model.specs.laws.MapOrder.{InOrder};
ghost use Rattle.volume_ops.specs.Marks.{is_marked, marked};
ghost use Rattle.volume_names.specs.UsedInodes.{MarksNodes, lowest_unmarked, unmarked};
ghost use Rattle.volume_names.specs.code.InodeMap.{AreUsedBelow};

use blk_base::NoMemory;
use minix_layout::Geometry;
use std::alloc::Global;
use std::collections::BTreeMap;
use std::marker::Model;
use volume_model::Placed;

/// Marks of the inodes that are in use, by number. No call but `of` takes memory.
#[derive(Drop)]
pub struct InodeMap {
    // Number 0 is no inode's.
    marks: Vec<bool>,
    // Each inode below this one is in use.
    low: usize,
}

impl Model for InodeMap {
    ghost use Rattle.std.specs.Prelude.{Bool, List};
    ghost use Rattle.volume_names.specs.code.InodeMap.{IsInodeMap};

    ghost Value = { List Bool };

    ghost view = { λ m. m.marks.items };

    ghost invariant = { λ m. IsInodeMap m.marks.items m.low };
}

impl InodeMap {
    /// The inodes that the nodes of a volume have, by one pass over the nodes.
    pub fn of(
        alloc: Global,
        g: &Geometry,
        nodes: &BTreeMap<u64, Placed>,
    ) -> Result<InodeMap, NoMemory>
        ensures { IfOk result (λ m. MarksNodes g.now nodes.now.entries m) }
    {
        let marks = used_numbers(alloc, nodes, g.inodes)?;
        Ok(InodeMap { marks, low: 1 })
    }

    /// The lowest inode that is not in use; 0 where each is.
    pub fn lowest(&self) -> u16
        ensures { result ≡ lowest_unmarked self.now }
    {
        first_unmarked(&self.marks, self.low)
    }

    /// The lowest inode that is not in use comes into use.
    pub fn take(&mut self, number: u16)
        requires { number ≡ lowest_unmarked self.old }
        ensures { self.new ≡ marked self.old number }
    {
        set_mark(&mut self.marks, number, true);
        self.low = usize::from(number) + 1;
    }

    /// An inode is in use no more.
    pub fn give_back(&mut self, number: u16)
        requires { 0 < number }
        ensures { self.new ≡ unmarked self.old number }
    {
        set_mark(&mut self.marks, number, false);
        if usize::from(number) < self.low {
            self.low = usize::from(number);
        }
    }
}

// Which numbers up to the last inode's the nodes have.
fn used_numbers(
    alloc: Global,
    nodes: &BTreeMap<u64, Placed>,
    inodes: u16,
) -> Result<Vec<bool>, NoMemory>
    ensures size { IfOk result (λ used. length used.items ≡ inodes + 1) }
    ensures marked { IfOk result (λ used. (i : ℕ) → i ≤ inodes →
        is_marked used.items i ≡ list_any (λ p. p.number == i) (values_of nodes.now.entries)) }
    ensures ordered { IfOk result (λ used. InOrder nodes.now.entries) }
{
    let mut used = vec![in alloc; false; usize::from(inodes) + 1]?;
    for placed in nodes.values() {
        set_mark(&mut used, placed.number, true);
    }
    Ok(used)
}

fn set_mark(marks: &mut Vec<bool>, number: u16, used: bool)
    ensures { marks.new.items ≡ slice_set marks.old.items number used }
{
    if let Some(mark) = marks.get_mut(usize::from(number)) {
        *mark = used;
    }
}

// The lowest number from 1 on that is not marked, where each below `low` is; 0 where each is marked.
fn first_unmarked(marks: &[bool], low: usize) -> u16
    requires some { 0 < low }
    requires used { AreUsedBelow marks.now low }
    requires few { length marks.now ≤ 2 ^ 16 }
    ensures { result ≡ lowest_unmarked marks.now }
{
    for number in low..marks.len() {
        if !marks[number] {
            return number as u16;
        }
    }
    0
}
