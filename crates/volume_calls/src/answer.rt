//! What a volume answers to a call before it is done.
ghost use Rattle.std.specs.Prelude.{◌≡◌, ◌-◌, ℕ, true, ◌&&◌, nat_le, length, Ok};
ghost use Rattle.tree_model.specs.Calls.{Done, if_room, needs, outcome, row, takes_no_zone, used_zones};
ghost use Rattle.tree_model.specs.Plain.{AreBornBefore};
ghost use Rattle.volume_steps.specs.Now.{room_of, tree_of_now};
ghost use Rattle.volume_calls.specs.Asked.{Answers};
ghost use Rattle.volume_calls.specs.code.Asked.{IsAsked};
ghost use Rattle.volume_calls.specs.code.Rows.{Agrees};

use crate::PlainVolume;
use crate::takes::Wants;
use tree_model::{Call, Reply};

/// What a call is answered before it is done.
#[derive(Drop, Debug)]
pub enum Answer {
    /// It is refused.
    Refused(Reply),
    /// Nothing refuses it. Its reply comes with what it does.
    Change,
}

impl PlainVolume {
    // What refuses a call that takes no zone.
    #[tactic(auto, unfolding(tree_model::specs::Calls::row))]
    fn refused(&self, call: &Call) -> Result<(), Reply>
        requires { takes_no_zone call.now ≡ true }
        ensures { (n : ℕ) → Agrees result (row (tree_of_now self.now) n call.now) }
    {
        match call {
            Call::Rmdir(path) => self.rmdir(path),
            Call::Unlink(path) => self.unlink(path),
            Call::Truncate(path, size) => self.truncate(path, *size),
            Call::Read { path, .. } => self.read(path),
            Call::List(path) => self.list(path),
            Call::Stat(path) => self.stat(path),
            Call::Fsync(path)
            | Call::Fdatasync(path)
            | Call::Fbarrier(path)
            | Call::Fdatabarrier(path) => self.barrier(path),
            _ => Ok(()),
        }
    }

    // What a call takes that takes no zone.
    fn takes_nothing(&self, call: &Call) -> Result<Wants, Reply>
        requires { takes_no_zone call.now ≡ true }
        ensures { (n : ℕ) → IsAsked (tree_of_now self.now) result (row (tree_of_now self.now) n call.now) }
    {
        let _ = &self.parts.geometry;
        match self.refused(call) {
            Ok(()) => Ok(Wants {
                inode: false,
                zones: 0,
            }),
            Err(reply) => Err(reply),
        }
    }

    // What refuses a call, or what it takes.
    #[tactic(auto, unfolding(tree_model::specs::Calls::row))]
    fn asks(&self, call: &Call) -> Result<Wants, Reply>
        ensures { (n : ℕ) → AreBornBefore n (tree_of_now self.now) →
            IsAsked (tree_of_now self.now) result (row (tree_of_now self.now) n call.now) }
    {
        match call {
            Call::Mkdir(path) => self.mkdir(path),
            Call::Create(path) => self.create(path),
            Call::Link(path, other) => self.link(path, other),
            Call::Rename(path, other) => self.rename(path, other),
            Call::Write { path, off, len, .. } => self.write(path, *off, *len as usize),
            Call::Bytes { path, off, bytes } => self.write(path, *off, bytes.as_slice().len()),
            _ => self.takes_nothing(call),
        }
    }

    /// How many zones the call would take, where its number is above those of all nodes.
    pub fn needs(&self, call: &Call) -> u32
        ensures { (n : ℕ) → AreBornBefore n (tree_of_now self.now) → result ≡ needs (tree_of_now self.now) n call.now }
    {
        let Ok(wants) = self.asks(call) else {
            return 0;
        };
        wants.zones
    }

    // It takes an inode, and none is free.
    fn lacks_inode(&self, wants: Wants) -> bool
        ensures { result ≡ (wants.inode && nat_le self.now.geometry.inodes (length (tree_of_now self.now))) }
    {
        let parts = &self.parts;
        wants.inode && parts.nodes.len() >= usize::from(parts.geometry.inodes)
    }

    // The zones that the tree does not use, those that wait too.
    fn zones_left(&self) -> u32
        ensures { result ≡ (room_of self.now.geometry).capacity - used_zones (tree_of_now self.now) }
    {
        let parts = &self.parts;
        parts.zones.free_count() + parts.zones.quarantined()
    }

    // The last refusals: no inode, and no space.
    fn if_room(&self, wants: Wants) -> Answer
        ensures { (d : Done) → IsAsked (tree_of_now self.now) (Ok wants) (Ok d) →
            Answers result (if_room (room_of self.now.geometry) (tree_of_now self.now) d) }
    {
        if self.lacks_inode(wants) {
            return Answer::Refused(Reply::NoInode);
        }
        if self.zones_left() < wants.zones {
            return Answer::Refused(Reply::NoSpace);
        }
        Answer::Change
    }

    /// What refuses a call, if anything does, where its number is above those of all nodes.
    pub fn reply(&self, call: &Call) -> Answer
        ensures { (n : ℕ) → AreBornBefore n (tree_of_now self.now) →
            Answers result (outcome (room_of self.now.geometry) (tree_of_now self.now) n call.now) }
    {
        let (answer, _) = self.asked(call);
        answer
    }

    /// What `reply` and `needs` tell of a call, with its paths walked once.
    pub fn asked(&self, call: &Call) -> (Answer, u32)
        ensures answer { (n : ℕ) → AreBornBefore n (tree_of_now self.now) →
            Answers result.0 (outcome (room_of self.now.geometry) (tree_of_now self.now) n call.now) }
        ensures zones { (n : ℕ) → AreBornBefore n (tree_of_now self.now) → result.1 ≡ needs (tree_of_now self.now) n call.now }
    {
        match self.asks(call) {
            Ok(wants) => (self.if_room(wants), wants.zones),
            Err(reply) => (Answer::Refused(reply), 0),
        }
    }
}
