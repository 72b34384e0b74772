//! What a volume tells that a call asks before it is done: its number, and whether a cut changes anything.
ghost use Rattle.std.specs.Prelude.{◌≡◌, ◌*◌, ◌==◌, nat_le, IfSome};
ghost use Rattle.std.specs.List.{list_any};
ghost use Rattle.volume_steps.specs.Now.{tree_of_now};
ghost use Rattle.volume_steps.specs.Cuts.{cuts_nothing};
ghost use Rattle.volume_steps.specs.Numbers.{number_in};
ghost use Rattle.volume_calls.specs.code.Kept.{keeps_mapped};

use crate::PlainVolume;
use tree_model::ByteList;
use volume_model::Part;
use volume_ops::Mapped;

// A block of a file stands at this size or behind it.
fn reaches(zones: &[Mapped], size: u32) -> bool
    ensures { result ≡ list_any (λ m. nat_le size (1024 * m.index)) zones.now }
{
    zones
        .iter()
        .any(|mapped| u64::from(size) <= 1024 * u64::from(mapped.index))
}

// A file has this block.
fn has_block(zones: &[Mapped], index: u32) -> bool
    ensures { result ≡ list_any (λ m. m.index == index) zones.now }
{
    zones.iter().any(|mapped| mapped.index == index)
}

// A file of this size, with these blocks, keeps its size and its blocks, and no byte of them is cleared.
fn keeps_mapped(zones: &[Mapped], old: u32, size: u32) -> bool
    ensures { result ≡ keeps_mapped size old zones.now }
{
    let past = reaches(zones, size);
    let last = has_block(zones, size / 1024);
    old == size && !past && (size % 1024 == 0 || !last)
}

impl PlainVolume {
    /// The number of a call that is given `n`: that, or the least number above all births, where it is greater. None
    /// where this has more than 64 bits.
    pub fn number_in(&self, n: u64) -> Option<u64>
        ensures { IfSome result (λ number. number ≡ number_in (tree_of_now self.now) n) }
    {
        let parts = &self.parts;
        let (last, _) = parts.nodes.last_key_value()?;
        let next = last.checked_add(1)?;
        if n < next { Some(next) } else { Some(n) }
    }

    /// Whether the path leads to a file that a cut to this size would leave as it is.
    pub fn cuts_nothing(&self, path: &ByteList, size: u32) -> bool
        ensures { result ≡ cuts_nothing (tree_of_now self.now) path.now size }
    {
        let _ = &self.parts;
        let Ok(found) = self.reached(path) else {
            return false;
        };
        let Part::File(zones) = &found.placed.part else {
            return false;
        };
        keeps_mapped(zones.as_slice(), found.placed.inode.size, size)
    }
}
