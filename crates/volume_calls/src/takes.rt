//! What refuses a call that makes a name or writes bytes, and which zones it takes.
ghost use Rattle.std.specs.Prelude.{◌≡◌, ◌+◌, ℕ, List, is_some, length, nat_lt};
ghost use Rattle.tree_model.specs.Maps.{at_name};
ghost use Rattle.tree_model.specs.Calls.{mkdir, create, largest_size, link, write};
ghost use Rattle.tree_model.specs.Plain.{AreBornBefore};
ghost use Rattle.volume_steps.specs.Now.{tree_of_now};
ghost use Rattle.volume_calls.specs.code.Asked.{IsAsked};

use crate::PlainVolume;
use crate::directories::{is_full, slot_zones};
use crate::walk::Place;
use minix_layout::{LARGEST_SIZE, MOST_LINKS};
use tree_model::{ByteList, Reply, names_of};
use volume_model::Part;

/// What a call takes that nothing refuses.
#[derive(Clone, Copy, PartialEq, Eq, Debug)]
pub struct Wants {
    pub inode: bool,
    pub zones: u32,
}

fn is_named(place: &Place<'_>) -> bool
    ensures { result ≡ is_some (at_name place.now.directory.now.names place.now.name) }
{
    place.directory.names.get(&place.name).is_some()
}

// So many bytes from `off` on end behind the largest size.
fn is_too_big(off: u32, len: usize) -> bool
    ensures { result ≡ nat_lt largest_size (off + len) }
{
    off > LARGEST_SIZE || len > (LARGEST_SIZE - off) as usize
}

impl PlainVolume {
    pub(crate) fn mkdir(&self, path: &ByteList) -> Result<Wants, Reply>
        ensures { (n : ℕ) → AreBornBefore n (tree_of_now self.now) →
            IsAsked (tree_of_now self.now) result (mkdir (tree_of_now self.now) n path.now) }
    {
        let _ = &self.parts.geometry;
        let names = names_of(path)?;
        if names.is_empty() {
            return Err(Reply::Exists);
        }
        let place = self.place_of(names)?;
        if is_named(&place) {
            return Err(Reply::Exists);
        }
        if place.placed.inode.links == MOST_LINKS {
            return Err(Reply::TooManyLinks);
        }
        if is_full(place.directory) {
            return Err(Reply::TooBig);
        }
        Ok(Wants {
            inode: true,
            zones: 1 + slot_zones(place.directory),
        })
    }

    pub(crate) fn create(&self, path: &ByteList) -> Result<Wants, Reply>
        ensures { (n : ℕ) → AreBornBefore n (tree_of_now self.now) →
            IsAsked (tree_of_now self.now) result (create (tree_of_now self.now) n path.now) }
    {
        let _ = &self.parts.geometry;
        let names = names_of(path)?;
        if names.is_empty() {
            return Err(Reply::Exists);
        }
        let place = self.place_of(names)?;
        if is_named(&place) {
            return Err(Reply::Exists);
        }
        if is_full(place.directory) {
            return Err(Reply::TooBig);
        }
        Ok(Wants {
            inode: true,
            zones: slot_zones(place.directory),
        })
    }

    pub(crate) fn link(&self, path: &ByteList, other: &ByteList) -> Result<Wants, Reply>
        ensures { IsAsked (tree_of_now self.now) result (link (tree_of_now self.now) path.now other.now) }
    {
        let _ = &self.parts.geometry;
        let names = names_of(path)?;
        let more = names_of(other)?;
        let found = self.found(names)?;
        if let Part::Directory(_) = &found.placed.part {
            return Err(Reply::IsDir);
        }
        if more.is_empty() {
            return Err(Reply::Exists);
        }
        let place = self.place_of(more)?;
        if is_named(&place) {
            return Err(Reply::Exists);
        }
        if found.placed.inode.links == MOST_LINKS {
            return Err(Reply::TooManyLinks);
        }
        if is_full(place.directory) {
            return Err(Reply::TooBig);
        }
        Ok(Wants {
            inode: false,
            zones: slot_zones(place.directory),
        })
    }

    // A write of so many bytes from `off` on.
    pub(crate) fn write(&self, path: &ByteList, off: u32, len: usize) -> Result<Wants, Reply>
        ensures { (bytes : List ℕ) → length bytes ≡ len →
            IsAsked (tree_of_now self.now) result (write (tree_of_now self.now) path.now off bytes) }
    {
        let parts = &self.parts;
        let found = self.reached(path)?;
        if let Part::Directory(_) = &found.placed.part {
            return Err(Reply::IsDir);
        }
        if is_too_big(off, len) {
            return Err(Reply::TooBig);
        }
        let zones = volume_in_use::bytes::wanted(
            &parts.blocks,
            &found.placed.inode,
            off,
            len as u32,
        );
        Ok(Wants {
            inode: false,
            zones,
        })
    }
}
