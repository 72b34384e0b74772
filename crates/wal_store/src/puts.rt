//! Puts, and what may stand in them.
ghost use Rattle.std.specs.Prelude.{◌≡◌, ◌∷◌, ◌++◌, [], IfOk, OnOk, Some, length, nat_eq, refl};
ghost use Rattle.std.specs.Cmp.{partial_equiv_from_equiv};
ghost use Rattle.std.specs.Cmp.Lexicographic.{nat_list_cmp_total, nat_list_eq_equiv, pointwise, slice_cmp, texts_po, texts_ties};
ghost use Rattle.std.specs.List.{list_all};
ghost use Rattle.std.specs.Ordering.{nat_cmp};
ghost use Rattle.tree_model.specs.Paths.{is_name_byte};
ghost use Rattle.wal_store.specs.Puts.{is_text, is_key, is_value};

use blk_base::NoMemory;
use std::alloc::Global;
use std::cmp::Ordering;
use std::marker::Model;

/// The most bytes of a key.
pub const MOST_KEY: usize = 32;

/// The most bytes of a value.
pub const MOST_VALUE: usize = 200;

/// The bytes of a key or a value.
#[derive(Drop)]
pub struct Text {
    bytes: Vec<u8>,
}

impl Model for Text {
    ghost use Rattle.std.specs.Prelude.{List, ℕ};

    ghost Value = { List ℕ };

    ghost view = { λ t. t.bytes.items };
}

impl Text {
    /// These bytes.
    pub fn of(bytes: Vec<u8>) -> Text
        ensures { result ≡ bytes.items }
    {
        Text { bytes }
    }

    /// The bytes in order.
    pub fn as_slice(&self) -> &[u8]
        ensures { result.now ≡ self.now }
    {
        &self.bytes
    }

    /// The same bytes again.
    pub fn copy(&self, alloc: Global) -> Result<Text, NoMemory>
        ensures { IfOk result (λ t. t ≡ self.now) }
    {
        Ok(Text {
            bytes: self.bytes.to_vec(alloc)?,
        })
    }
}

impl PartialEq for Text {
    ghost eq = { pointwise nat_eq };

    ghost laws = { partial_equiv_from_equiv nat_list_eq_equiv };

    fn eq(&self, other: &Text) -> bool {
        self.as_slice() == other.as_slice()
    }
}

impl Eq for Text {
    ghost laws = { nat_list_eq_equiv };
}

// Keys stand in the order of their bytes.
impl PartialOrd for Text {
    ghost partial_cmp = { λ a b. Some (slice_cmp nat_cmp a b) };

    ghost laws = { texts_po };

    fn partial_cmp(&self, other: &Text) -> Option<Ordering> {
        Some(self.cmp(other))
    }
}

impl Ord for Text {
    ghost cmp = { slice_cmp nat_cmp };

    ghost total = { nat_list_cmp_total };

    ghost matches_partial_cmp = { λ a b. refl };

    ghost matches_eq = { texts_ties };

    fn cmp(&self, other: &Text) -> Ordering {
        self.as_slice().cmp(other.as_slice())
    }
}

/// A key gets a value.
#[derive(Drop)]
pub struct Put {
    pub key: Text,
    pub value: Text,
}

/// What a user asks of a store.
#[derive(Drop)]
pub enum Op {
    Put(Put),
    /// All puts before it are to be durable.
    Flush,
}

/// What is asked of a store, in order.
#[derive(Drop)]
pub struct Ops {
    items: Vec<Op>,
}

impl Model for Ops {
    ghost use Rattle.std.specs.Prelude.{List};
    ghost use Rattle.wal_store.specs.declared.puts.Op.{Op};

    ghost Value = { List Op };

    ghost view = { λ o. o.items.items };
}

impl Ops {
    /// Nothing is asked. It takes no memory.
    pub fn new(alloc: Global) -> Ops
        ensures { result ≡ [] }
    {
        Ops {
            items: Vec::new(alloc),
        }
    }

    /// Asks for something behind the others.
    pub fn push(&mut self, op: Op) -> Result<(), NoMemory>
        ensures { OnOk result (self.new ≡ self.old ++ op ∷ []) }
    {
        match self.items.push(op) {
            Ok(()) => Ok(()),
            Err(_) => Err(NoMemory),
        }
    }

    /// What is asked in order.
    pub fn as_slice(&self) -> &[Op]
        ensures { result.now ≡ self.now }
    {
        &self.items
    }
}

impl Put {
    /// The same put again.
    pub fn copy(&self, alloc: Global) -> Result<Put, NoMemory>
        ensures { IfOk result (λ p. p ≡ self.now) }
    {
        Ok(Put {
            key: self.key.copy(alloc)?,
            value: self.value.copy(alloc)?,
        })
    }
}

fn is_name_byte(b: u8) -> bool
    ensures { result ≡ is_name_byte b }
{
    (b >= b'A' && b <= b'Z')
        || (b >= b'a' && b <= b'z')
        || (b >= b'0' && b <= b'9')
        || b == b'.'
        || b == b'_'
        || b == b'-'
}

fn are_name_bytes(text: &[u8]) -> bool
    ensures { result ≡ list_all is_name_byte text.now }
{
    text.iter().all(|b| is_name_byte(*b))
}

fn is_text(most: usize, text: &[u8]) -> bool
    ensures { result ≡ is_text most text.now }
{
    !text.is_empty() && text.len() <= most && are_name_bytes(text)
}

/// Whether these bytes may be a key.
pub fn is_key(text: &[u8]) -> bool
    ensures { result ≡ is_key text.now }
{
    is_text(MOST_KEY, text)
}

/// Whether these bytes may be a value.
pub fn is_value(text: &[u8]) -> bool
    ensures { result ≡ is_value text.now }
{
    is_text(MOST_VALUE, text)
}
