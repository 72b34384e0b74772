//! Visits of inodes, each where it is met first.
ghost use Rattle.std.specs.Prelude.{◌≡◌, ◌^◌, ◌<◌, ◌++◌, [], Ok, OnOk, IfOk, IfErr, reverse};
ghost use Rattle.std.specs.List.{All};
ghost use Rattle.minix_layout.specs.Widths.{IsWidth};
ghost use Rattle.volume_ops.specs.Marks.{is_marked, marked};
ghost use Rattle.volume_ops.specs.Reads.{answer};
ghost use Rattle.volume_ops.specs.code.Visits.{met_next, file_visit, directory_visit, ArePending};
ghost use Rattle.volume_ops.specs.Volume.{disk_of, IsTold};
ghost use Rattle.volume_ops.specs.Walk.{at_start, found_in, met_node, is_bad_inode, pending_in, visit};

use crate::disk::Disk;
use crate::marks::Marks;
use crate::places::{birth_of, inode_at, inode_of_birth, is_directory, is_file, table_block};
use crate::slots::scan_slots;
use crate::walk_fault::WalkFault;
use crate::zones::scan_zones;
use crate::{Found, FoundFile, FoundNode};
use blk_base::NoMemory;
use minix_layout::{Geometry, Inode, LARGEST_SIZE, LayoutFault, slot_size};
use std::alloc::Global;
use std::marker::Model;
use tree_model::{Directory, Names};

/// An inode that is to be met, and the birth of the directory that names it.
#[derive(Drop)]
pub struct Pending {
    pub inode: u16,
    pub parent: u64,
}

impl Model for Pending {
    ghost use Rattle.volume_ops.specs.Walk as walk;

    ghost Value = { walk.Pending };

    ghost view = { λ p. record { inode = p.inode; parent = p.parent } };

    ghost inverse = { λ p. record { inode = p.inode; parent = p.parent } };
}

/// What a walk finds.
#[derive(Drop)]
pub struct Walked {
    /// For each zone whether an inode has it.
    pub zones: Marks,
    /// The nodes in the order in which they were met.
    pub nodes: Vec<FoundNode>,
}

impl Model for Walked {
    ghost use Rattle.volume_ops.specs.Walk as walk;

    ghost Value = { walk.Walked };

    ghost view = { λ w. record { zones = w.zones; nodes = w.nodes.items } };
}

/// A walk on its way: the zones and inodes that were met, the directories that were named, and the nodes in the
/// order in which they were met.
#[derive(Drop)]
pub struct Walker {
    zones: Marks,
    inodes: Marks,
    named: Marks,
    nodes: Vec<FoundNode>,
}

impl Model for Walker {
    ghost use Rattle.volume_ops.specs.Walk.{WalkState};

    ghost Value = { WalkState };

    ghost view = { λ w. record { zones = w.zones; inodes = w.inodes; named = w.named; nodes = w.nodes.items } };
}

impl Walker {
    /// Nothing was met, and of the directories the root was named.
    pub fn at_start(alloc: Global, g: &Geometry) -> Result<Walker, NoMemory>
        ensures { IfOk result (λ w. w ≡ at_start g.now) }
    {
        let inodes = usize::from(g.inodes) + 1;
        let mut named = Marks::make(alloc, inodes)?;
        named.mark(1);
        Ok(Walker {
            zones: Marks::make(alloc, usize::from(g.zones))?,
            inodes: Marks::make(alloc, inodes)?,
            named,
            nodes: Vec::new(alloc),
        })
    }

    pub fn has_met(&self, inode: u16) -> bool
        ensures { result ≡ is_marked self.now.inodes inode }
    {
        self.inodes.is_marked(usize::from(inode))
    }

    pub fn into_found(self) -> Walked
        ensures { result ≡ found_in self }
    {
        Walked {
            zones: self.zones,
            nodes: self.nodes,
        }
    }

    /// Tests an inode and what it holds, and notes its node. What a directory names is put on the stack, the
    /// first name on top.
    pub fn visit(
        &mut self,
        alloc: Global,
        disk: &Disk,
        g: &Geometry,
        e: Pending,
        stack: &mut Vec<Pending>,
    ) -> Result<(), WalkFault>
        requires width { IsWidth g.now.width }
        requires some { 0 < e.inode }
        ensures ok { OnOk result (met_next (answer (disk_of disk.now) (visit g.now self.old e)) (reverse stack.old.items) ≡ Ok (self.new, reverse stack.new.items)) }
        ensures marks { OnOk result (self.new.inodes ≡ marked self.old.inodes e.inode) }
        ensures within { OnOk result (ArePending g.now stack.old.items → ArePending g.now stack.new.items) }
        ensures fault { IfErr result (IsTold (answer (disk_of disk.now) (visit g.now self.old e))) }
    {
        let i = inode_at(disk, g, e.inode);
        if is_bad_inode(g, e.inode, &i) {
            let block = table_block(g, e.inode);
            return Err(WalkFault::Layout(LayoutFault::BadInode, block));
        }
        if is_directory(i.mode) {
            return self.visit_directory(alloc, disk, g, e, &i, stack);
        }
        if is_file(i.mode) {
            return self.visit_file(alloc, disk, g, e.inode, &i);
        }
        self.meet(e.inode, Found::Other(i.mode))?;
        Ok(())
    }

    fn visit_directory(
        &mut self,
        alloc: Global,
        disk: &Disk,
        g: &Geometry,
        e: Pending,
        i: &Inode,
        stack: &mut Vec<Pending>,
    ) -> Result<(), WalkFault>
        requires width { IsWidth g.now.width }
        requires some { 0 < e.inode }
        ensures ok { OnOk result (met_next (answer (disk_of disk.now) (directory_visit g.now self.old e i.now)) (reverse stack.old.items) ≡ Ok (self.new, reverse stack.new.items)) }
        ensures marks { OnOk result (self.new.inodes ≡ marked self.old.inodes e.inode) }
        ensures within { OnOk result (ArePending g.now stack.old.items → ArePending g.now stack.new.items) }
        ensures fault { IfErr result (IsTold (answer (disk_of disk.now) (directory_visit g.now self.old e i.now))) }
    {
        let pointer_block = table_block(g, e.inode);
        let zones = scan_zones(alloc, disk, g, pointer_block, &i.zones, &mut self.zones)?;
        let slots = i.size / slot_size(g.width);
        let names = scan_slots(alloc, disk, g, slots, zones.as_slice(), &mut self.named)?;
        push_names(stack, birth_of(e.inode), &names)?;
        self.meet(
            e.inode,
            Found::Directory(Directory {
                parent: e.parent,
                width: g.width,
                slots,
                names,
            }),
        )?;
        Ok(())
    }

    fn visit_file(
        &mut self,
        alloc: Global,
        disk: &Disk,
        g: &Geometry,
        inode: u16,
        i: &Inode,
    ) -> Result<(), WalkFault>
        requires { 0 < inode }
        ensures ok { OnOk result (answer (disk_of disk.now) (file_visit g.now self.old inode i.now) ≡ Ok (record { state = self.new; names = [] })) }
        ensures marks { OnOk result (self.new.inodes ≡ marked self.old.inodes inode) }
        ensures fault { IfErr result (IsTold (answer (disk_of disk.now) (file_visit g.now self.old inode i.now))) }
    {
        let pointer_block = table_block(g, inode);
        let zones = scan_zones(alloc, disk, g, pointer_block, &i.zones, &mut self.zones)?;
        self.meet(
            inode,
            Found::File(FoundFile {
                size: i.size,
                links: i.links,
                zones,
            }),
        )?;
        Ok(())
    }

    // Notes the node of an inode.
    fn meet(&mut self, inode: u16, found: Found) -> Result<(), NoMemory>
        ensures { OnOk result (self.new ≡ met_node self.old inode self.old.zones self.old.named found) }
    {
        self.inodes.mark(usize::from(inode));
        self.nodes.push(FoundNode {
            birth: birth_of(inode),
            found,
        })?;
        Ok(())
    }
}

// Whether the root is no directory, a size is past the largest, or a directory's size is no whole number of
// slots.
fn is_bad_inode(g: &Geometry, number: u16, i: &Inode) -> bool
    ensures { result ≡ is_bad_inode g.now number i.now }
{
    let directory = is_directory(i.mode);
    (number == 1 && !directory)
        || (i.size > LARGEST_SIZE && (directory || is_file(i.mode)))
        || (directory && i.size % slot_size(g.width) != 0)
}

// Puts what a directory names on the stack, the last name first.
fn push_names(stack: &mut Vec<Pending>, parent: u64, names: &Names) -> Result<(), NoMemory>
    requires { All (λ e. e.1 < 2 ^ 16) names.now }
    ensures { OnOk result (stack.new.items ≡ stack.old.items ++ reverse (pending_in parent names.now)) }
{
    for (_, birth) in names.as_map().iter().rev() {
        stack.push(Pending {
            inode: inode_of_birth(*birth),
            parent,
        })?;
    }
    Ok(())
}
