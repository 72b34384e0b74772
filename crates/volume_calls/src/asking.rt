//! Calls that change nothing: what they are answered.
ghost use Rattle.std.specs.Prelude.{◌≡◌, ℕ, true, IfOk, IfErr, Ok, Err, Some};
ghost use Rattle.tree_model.specs.Calls.{barrier, leaves_tree, list, read, reply_from, reply_of, row, stat, walk_path};
ghost use Rattle.tree_model.specs.Maps.{at_number};
ghost use Rattle.volume_model.specs.Trees.{node_now};
ghost use Rattle.volume_steps.specs.Now.{room_of, tree_of_now};

use crate::PlainVolume;
use crate::walk::Found;
use blk_base::NoMemory;
use std::alloc::Global;
use tree_model::{ByteList, Call, Reply, names_of};

impl PlainVolume {
    // The node to which a path leads.
    pub(crate) fn reached(&self, path: &ByteList) -> Result<Found<'_>, Reply>
        ensures found { IfOk result (λ f. walk_path (tree_of_now self.now) path.now ≡
            Ok (record { birth = f.birth; node = node_now self.now.contents.blocks f.placed.now })) }
        ensures stands { IfOk result (λ f. at_number self.now.contents.nodes f.birth ≡ Some f.placed.now) }
        ensures fault { IfErr result (λ reply. walk_path (tree_of_now self.now) path.now ≡ Err reply) }
    {
        let names = names_of(path)?;
        self.found(names)
    }

    fn bytes_read(
        &self,
        alloc: Global,
        path: &ByteList,
        off: u32,
        len: u32,
    ) -> Result<Reply, NoMemory>
        ensures { IfOk result (λ reply. reply ≡ reply_from (read (tree_of_now self.now) path.now off len)) }
    {
        let _ = &self.parts;
        match self.reached(path) {
            Ok(found) => volume_in_use::reads::read(alloc, &self.parts, found.placed, off, len),
            Err(reply) => Ok(reply),
        }
    }

    fn names_listed(&self, alloc: Global, path: &ByteList) -> Result<Reply, NoMemory>
        ensures { IfOk result (λ reply. reply ≡ reply_from (list (tree_of_now self.now) path.now)) }
    {
        let _ = &self.parts;
        match self.reached(path) {
            Ok(found) => volume_in_use::reads::list(alloc, &self.parts, found.placed),
            Err(reply) => Ok(reply),
        }
    }

    fn node_told(&self, path: &ByteList) -> Reply
        ensures { result ≡ reply_from (stat (tree_of_now self.now) path.now) }
    {
        let _ = &self.parts;
        match self.reached(path) {
            Ok(found) => volume_in_use::reads::stat(&self.parts, found.placed),
            Err(reply) => reply,
        }
    }

    fn node_there(&self, path: &ByteList) -> Reply
        ensures { result ≡ reply_from (barrier (tree_of_now self.now) path.now) }
    {
        match self.reached(path) {
            Ok(_) => Reply::Ok,
            Err(reply) => reply,
        }
    }

    // What the row of a call says that changes nothing.
    #[tactic(auto, unfolding(tree_model::specs::Calls::row))]
    fn row_reply(&self, alloc: Global, call: &Call) -> Result<Reply, NoMemory>
        requires { leaves_tree call.now ≡ true }
        ensures { (n : ℕ) → IfOk result (λ reply. reply ≡ reply_from (row (tree_of_now self.now) n call.now)) }
    {
        match call {
            Call::Read { path, off, len } => self.bytes_read(alloc, path, *off, *len),
            Call::List(path) => self.names_listed(alloc, path),
            Call::Stat(path) => Ok(self.node_told(path)),
            Call::Fsync(path)
            | Call::Fdatasync(path)
            | Call::Fbarrier(path)
            | Call::Fdatabarrier(path) => Ok(self.node_there(path)),
            _ => Ok(Reply::Ok),
        }
    }

    /// What a call is answered that changes nothing, whatever its number is. A read copies its bytes once, from their
    /// blocks.
    pub fn ask(&self, alloc: Global, call: &Call) -> Result<Reply, NoMemory>
        requires { leaves_tree call.now ≡ true }
        ensures { (n : ℕ) → IfOk result (λ reply. reply ≡ reply_of (room_of self.now.geometry) (tree_of_now self.now) n call.now) }
    {
        self.row_reply(alloc, call)
    }
}
