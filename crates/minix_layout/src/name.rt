//! Names of 1 to 30 bytes.
ghost use Rattle.std.specs.Prelude.{◌≡◌, IsTrue, Some, nat_eq, refl};
ghost use Rattle.std.specs.Cmp.{partial_equiv_from_equiv};
ghost use Rattle.std.specs.Cmp.Lexicographic.{nat_list_cmp_total, nat_list_eq_equiv, pointwise, slice_cmp, texts_po, texts_ties};
ghost use Rattle.std.specs.Ordering.{nat_cmp};
ghost use Rattle.minix_layout.specs.Words.{is_name, name_from};

use std::cmp::Ordering;
use std::marker::Model;

/// A name of 1 to 30 bytes, none of them 0. It is stored in place.
#[derive(Drop, Debug)]
pub struct Name {
    bytes: [u8; 30],
    len: u8,
}

impl Model for Name {
    ghost use Rattle.std.specs.Prelude.{◌≤◌, List, ℕ, take, IsTrue};
    ghost use Rattle.minix_layout.specs.Words.{is_name};

    ghost Value = { List ℕ };

    ghost view = { λ n. take n.len n.bytes };

    ghost invariant = { λ n. (n.len ≤ 30) × IsTrue (is_name (take n.len n.bytes)) };
}

impl Name {
    /// The name of these bytes, if they are 1 to 30 and none of them is 0.
    pub fn of(bytes: &[u8]) -> Option<Name>
        ensures { result ≡ name_from bytes.now }
    {
        if bytes.is_empty() || bytes.len() > 30 || bytes.contains(&0) {
            return None;
        }
        let mut name = [0; 30];
        name[..bytes.len()].copy_from_slice(bytes);
        Some(Name {
            bytes: name,
            len: bytes.len() as u8,
        })
    }

    /// The bytes of the name.
    pub fn as_slice(&self) -> &[u8]
        ensures value { result.now ≡ self.now }
        ensures name { IsTrue (is_name self.now) }
    {
        &self.bytes[..self.len as usize]
    }

    /// The same name again. It takes no memory.
    pub fn copy(&self) -> Name
        ensures { result ≡ self.now }
    {
        Name {
            bytes: self.bytes,
            len: self.len,
        }
    }
}

impl PartialEq for Name {
    ghost eq = { pointwise nat_eq };

    ghost laws = { partial_equiv_from_equiv nat_list_eq_equiv };

    fn eq(&self, other: &Name) -> bool {
        self.as_slice() == other.as_slice()
    }
}

impl Eq for Name {
    ghost laws = { nat_list_eq_equiv };
}

// Names stand in the order of their bytes.
impl PartialOrd for Name {
    ghost partial_cmp = { λ a b. Some (slice_cmp nat_cmp a b) };

    ghost laws = { texts_po };

    fn partial_cmp(&self, other: &Name) -> Option<Ordering> {
        Some(self.cmp(other))
    }
}

impl Ord for Name {
    ghost cmp = { slice_cmp nat_cmp };

    ghost total = { nat_list_cmp_total };

    ghost matches_partial_cmp = { λ a b. refl };

    ghost matches_eq = { texts_ties };

    fn cmp(&self, other: &Name) -> Ordering {
        self.as_slice().cmp(other.as_slice())
    }
}
