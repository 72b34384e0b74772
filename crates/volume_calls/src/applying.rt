//! Calls that are done.
ghost use Rattle.std.specs.Prelude.{◌≡◌, ◌<◌, ℕ, false, unwrap_or, IfOk, IfErr, OnErr, IsOk, Err, Some, None};
ghost use Rattle.tree_model.specs.declared.call.Call.TheVariants as calls;
ghost use Rattle.tree_model.specs.Calls.{leaves_tree, outcome};
ghost use Rattle.tree_model.specs.Maps.{at_number};
ghost use Rattle.volume_model.specs.declared.placed.Placed.{Placed};
ghost use Rattle.volume_steps.specs.Now.{room_of, tree_of_now};
ghost use Rattle.volume_steps.specs.Calls.{called, changed};
ghost use Rattle.volume_steps.specs.Called.{FindsRoom};
ghost use Rattle.volume_names.specs.UsedInodes.{unmarked};
ghost use Rattle.volume_names.specs.renames.Renamed.{birth_named};
ghost use Rattle.volume_calls.specs.code.Sites.{IsSite, place_in};
ghost use Rattle.volume_calls.specs.code.Writes.{write_call};

use crate::PlainVolume;
use crate::answer::Answer;
use blk_base::NoMemory;
use std::alloc::Global;
use tree_model::{ByteList, Call, Reply, names_of};
use volume_in_use::bytes::Content;
use volume_in_use::now::{Touched, VolumeNow};
use volume_names::renames::{Site, birth_named};
use volume_names::{InodeMap, number_of};

fn leaves_tree(call: &Call) -> bool
    ensures { result ≡ leaves_tree call.now }
{
    matches!(
        call,
        Call::Read { .. }
            | Call::List(_)
            | Call::Stat(_)
            | Call::Fsync(_)
            | Call::Fdatasync(_)
            | Call::Fbarrier(_)
            | Call::Fdatabarrier(_)
            | Call::Sync
    )
}

// A node with its inode.
#[derive(Clone, Copy)]
pub struct Met {
    pub birth: u64,
    pub number: u16,
}

// The node that has a name, or else the one with this birth.
fn met_at(v: &VolumeNow, site: &Site, birth: u64) -> Met
    ensures met { result.birth ≡ unwrap_or (birth_named v.now.contents.nodes site.now.parent site.now.name) birth }
    ensures number { (p : Placed) → at_number v.now.contents.nodes result.birth ≡ Some p → result.number ≡ p.number }
{
    let met = birth_named(&v.nodes, site).unwrap_or(birth);
    Met {
        birth: met,
        number: number_of(&v.nodes, met),
    }
}

// Gives back the inode of a node that is gone.
fn give_back(inodes: &mut InodeMap, v: &VolumeNow, birth: u64, number: u16)
    requires { 0 < number }
    ensures gone { at_number v.now.contents.nodes birth ≡ None → inodes.new ≡ unmarked inodes.old number }
    ensures stays { (p : Placed) → at_number v.now.contents.nodes birth ≡ Some p → inodes.new ≡ inodes.old }
{
    match v.nodes.get(&birth) {
        Some(_) => {}
        None => inodes.give_back(number),
    }
}

impl PlainVolume {
    fn site(&self, path: &ByteList) -> Result<Site, Reply>
        ensures site { IfOk result (λ s. IsSite (tree_of_now self.now) path.now s.parent s.name) }
        ensures fault { IfErr result (λ reply. place_in (tree_of_now self.now) path.now ≡ Err reply) }
    {
        let names = names_of(path)?;
        if names.is_empty() {
            return Err(Reply::Invalid);
        }
        let place = self.place_of(names)?;
        Ok(Site {
            parent: place.parent,
            name: place.name,
        })
    }

    fn make_file(&mut self, alloc: Global, n: u64, path: &ByteList) -> Result<Touched, NoMemory>
        requires room { FindsRoom self.old n (calls.Create path.now) }
        requires may { IsOk (outcome (room_of self.old.geometry) (tree_of_now self.old) n (calls.Create path.now)) }
        ensures done { (tx : ℕ) → IfOk result (λ t. record { volume = self.new; touched = t.touched } ≡ changed self.old n tx (calls.Create path.now)) }
        ensures memory { OnErr result (self.new ≡ self.old) }
    {
        let Ok(site) = self.site(path) else {
            unreachable!();
        };
        let number = self.inodes.lowest();
        let parts = &mut self.parts;
        let touched = volume_names::create(alloc, parts, n, number, site.parent, &site.name)?;
        self.inodes.take(number);
        Ok(touched)
    }

    fn make_directory(
        &mut self,
        alloc: Global,
        n: u64,
        path: &ByteList,
    ) -> Result<Touched, NoMemory>
        requires room { FindsRoom self.old n (calls.Mkdir path.now) }
        requires may { IsOk (outcome (room_of self.old.geometry) (tree_of_now self.old) n (calls.Mkdir path.now)) }
        ensures done { (tx : ℕ) → IfOk result (λ t. record { volume = self.new; touched = t.touched } ≡ changed self.old n tx (calls.Mkdir path.now)) }
        ensures memory { OnErr result (self.new ≡ self.old) }
    {
        let Ok(site) = self.site(path) else {
            unreachable!();
        };
        let number = self.inodes.lowest();
        let parts = &mut self.parts;
        let touched = volume_names::mkdir(alloc, parts, n, number, site.parent, &site.name)?;
        self.inodes.take(number);
        Ok(touched)
    }

    fn add_link(
        &mut self,
        alloc: Global,
        n: u64,
        path: &ByteList,
        other: &ByteList,
    ) -> Result<Touched, NoMemory>
        requires room { FindsRoom self.old n (calls.Link path.now other.now) }
        requires may { IsOk (outcome (room_of self.old.geometry) (tree_of_now self.old) n (calls.Link path.now other.now)) }
        ensures done { (tx : ℕ) → IfOk result (λ t. record { volume = self.new; touched = t.touched } ≡ changed self.old n tx (calls.Link path.now other.now)) }
        ensures memory { OnErr result (self.new ≡ self.old) }
    {
        let birth = match self.reached(path) {
            Ok(found) => found.birth,
            Err(_) => unreachable!(),
        };
        let Ok(site) = self.site(other) else {
            unreachable!();
        };
        let touched = volume_names::link(alloc, &mut self.parts, birth, site.parent, &site.name)?;
        Ok(touched)
    }

    fn take_link(
        &mut self,
        alloc: Global,
        n: u64,
        tx: u32,
        path: &ByteList,
    ) -> Result<Touched, NoMemory>
        requires room { FindsRoom self.old n (calls.Unlink path.now) }
        requires may { IsOk (outcome (room_of self.old.geometry) (tree_of_now self.old) n (calls.Unlink path.now)) }
        ensures done { IfOk result (λ t. record { volume = self.new; touched = t.touched } ≡ changed self.old n tx (calls.Unlink path.now)) }
        ensures memory { OnErr result (self.new ≡ self.old) }
    {
        let (birth, number) = match self.reached(path) {
            Ok(found) => (found.birth, found.placed.number),
            Err(_) => unreachable!(),
        };
        let Ok(site) = self.site(path) else {
            unreachable!();
        };
        let parts = &mut self.parts;
        let touched = volume_names::removals::unlink(
            alloc,
            parts,
            tx,
            birth,
            site.parent,
            &site.name,
        )?;
        give_back(&mut self.inodes, &self.parts, birth, number);
        Ok(touched)
    }

    fn remove_directory(
        &mut self,
        alloc: Global,
        n: u64,
        tx: u32,
        path: &ByteList,
    ) -> Result<Touched, NoMemory>
        requires room { FindsRoom self.old n (calls.Rmdir path.now) }
        requires may { IsOk (outcome (room_of self.old.geometry) (tree_of_now self.old) n (calls.Rmdir path.now)) }
        ensures done { IfOk result (λ t. record { volume = self.new; touched = t.touched } ≡ changed self.old n tx (calls.Rmdir path.now)) }
        ensures memory { OnErr result (self.new ≡ self.old) }
    {
        let (birth, number) = match self.reached(path) {
            Ok(found) => (found.birth, found.placed.number),
            Err(_) => unreachable!(),
        };
        let Ok(site) = self.site(path) else {
            unreachable!();
        };
        let parts = &mut self.parts;
        let touched = volume_names::removals::rmdir(
            alloc,
            parts,
            tx,
            birth,
            site.parent,
            &site.name,
        )?;
        give_back(&mut self.inodes, &self.parts, birth, number);
        Ok(touched)
    }

    fn move_node(
        &mut self,
        alloc: Global,
        n: u64,
        tx: u32,
        path: &ByteList,
        other: &ByteList,
    ) -> Result<Touched, NoMemory>
        requires room { FindsRoom self.old n (calls.Rename path.now other.now) }
        requires may { IsOk (outcome (room_of self.old.geometry) (tree_of_now self.old) n (calls.Rename path.now other.now)) }
        ensures done { IfOk result (λ t. record { volume = self.new; touched = t.touched } ≡ changed self.old n tx (calls.Rename path.now other.now)) }
        ensures memory { OnErr result (self.new ≡ self.old) }
    {
        let birth = match self.reached(path) {
            Ok(found) => found.birth,
            Err(_) => unreachable!(),
        };
        let Ok(from) = self.site(path) else {
            unreachable!();
        };
        let Ok(to) = self.site(other) else {
            unreachable!();
        };
        let met = met_at(&self.parts, &to, birth);
        let touched = volume_names::renames::rename(alloc, &mut self.parts, tx, &from, &to, birth)?;
        give_back(&mut self.inodes, &self.parts, met.birth, met.number);
        Ok(touched)
    }

    fn cut_file(
        &mut self,
        alloc: Global,
        n: u64,
        tx: u32,
        path: &ByteList,
        size: u32,
    ) -> Result<Touched, NoMemory>
        requires room { FindsRoom self.old n (calls.Truncate path.now size) }
        requires may { IsOk (outcome (room_of self.old.geometry) (tree_of_now self.old) n (calls.Truncate path.now size)) }
        ensures done { IfOk result (λ t. record { volume = self.new; touched = t.touched } ≡ changed self.old n tx (calls.Truncate path.now size)) }
        ensures memory { OnErr result (self.new ≡ self.old) }
    {
        let birth = match self.reached(path) {
            Ok(found) => found.birth,
            Err(_) => unreachable!(),
        };
        let touched = volume_in_use::bytes::truncate(alloc, &mut self.parts, tx, birth, size)?;
        Ok(touched)
    }

    fn write_file(
        &mut self,
        alloc: Global,
        n: u64,
        path: &ByteList,
        off: u32,
        content: &Content<'_>,
    ) -> Result<Touched, NoMemory>
        requires room { FindsRoom self.old n (write_call path.now off content.now) }
        requires may { IsOk (outcome (room_of self.old.geometry) (tree_of_now self.old) n (write_call path.now off content.now)) }
        ensures done { (tx : ℕ) → IfOk result (λ t. record { volume = self.new; touched = t.touched } ≡ changed self.old n tx (write_call path.now off content.now)) }
        ensures memory { OnErr result (self.new ≡ self.old) }
    {
        let birth = match self.reached(path) {
            Ok(found) => found.birth,
            Err(_) => unreachable!(),
        };
        let touched = volume_in_use::bytes::write(alloc, &mut self.parts, birth, off, content)?;
        Ok(touched)
    }

    // Does a call that nothing refuses.
    fn change(&mut self, alloc: Global, n: u64, tx: u32, call: &Call) -> Result<Touched, NoMemory>
        requires room { FindsRoom self.old n call.now }
        requires may { IsOk (outcome (room_of self.old.geometry) (tree_of_now self.old) n call.now) }
        requires changes { leaves_tree call.now ≡ false }
        ensures done { IfOk result (λ t. record { volume = self.new; touched = t.touched } ≡ changed self.old n tx call.now) }
        ensures memory { OnErr result (self.new ≡ self.old) }
    {
        match call {
            Call::Mkdir(path) => self.make_directory(alloc, n, path),
            Call::Create(path) => self.make_file(alloc, n, path),
            Call::Link(path, other) => self.add_link(alloc, n, path, other),
            Call::Unlink(path) => self.take_link(alloc, n, tx, path),
            Call::Rename(path, other) => self.move_node(alloc, n, tx, path, other),
            Call::Rmdir(path) => self.remove_directory(alloc, n, tx, path),
            Call::Truncate(path, size) => self.cut_file(alloc, n, tx, path, *size),
            Call::Write {
                path,
                off,
                len,
                value,
            } => {
                let content = Content::Same {
                    len: *len,
                    value: *value,
                };
                self.write_file(alloc, n, path, *off, &content)
            }
            Call::Bytes { path, off, bytes } => {
                let content = Content::Bytes(bytes.as_slice());
                self.write_file(alloc, n, path, *off, &content)
            }
            _ => unreachable!(),
        }
    }

    /// Does the call with number `n` in transaction `tx`, and gives its reply and what it touched. Memory is asked for
    /// before the first write, and where it is refused all is as before.
    pub fn apply(
        &mut self,
        alloc: Global,
        n: u64,
        tx: u32,
        call: &Call,
    ) -> Result<(Reply, Touched), NoMemory>
        requires room { FindsRoom self.old n call.now }
        ensures done { IfOk result (λ x. record { change = record { volume = self.new; touched = x.1.touched }; reply = x.0 } ≡ called self.old n tx call.now) }
        ensures memory { OnErr result (self.new ≡ self.old) }
    {
        match self.reply(call) {
            Answer::Refused(reply) => {
                let touched = Touched::with_room(alloc, 0)?;
                Ok((reply, touched))
            }
            Answer::Change => self.perform(alloc, n, tx, call),
        }
    }

    /// `apply` for a call that nothing refuses, as `asked` told: it is not asked again.
    pub fn perform(
        &mut self,
        alloc: Global,
        n: u64,
        tx: u32,
        call: &Call,
    ) -> Result<(Reply, Touched), NoMemory>
        requires room { FindsRoom self.old n call.now }
        requires may { IsOk (outcome (room_of self.old.geometry) (tree_of_now self.old) n call.now) }
        ensures done { IfOk result (λ x. record { change = record { volume = self.new; touched = x.1.touched }; reply = x.0 } ≡ called self.old n tx call.now) }
        ensures memory { OnErr result (self.new ≡ self.old) }
    {
        if leaves_tree(call) {
            let reply = self.ask(alloc, call)?;
            let touched = Touched::with_room(alloc, 0)?;
            return Ok((reply, touched));
        }
        let touched = self.change(alloc, n, tx, call)?;
        Ok((Reply::Ok, touched))
    }
}
