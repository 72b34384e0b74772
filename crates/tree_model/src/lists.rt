//! The lists in calls and replies. Contracts see each as the list of its items.
ghost use Rattle.std.specs.Prelude.{◌≡◌, [], ◌∷◌, ◌++◌, map, IfOk, OnOk};

use blk_base::NoMemory;
use std::alloc::Global;
use std::marker::Model;

/// Bytes, as the text of a path or what a file has.
#[derive(Drop, Debug)]
pub struct ByteList {
    bytes: Vec<u8>,
}

impl Model for ByteList {
    ghost use Rattle.std.specs.Prelude.{List, ℕ};

    ghost Value = { List ℕ };

    ghost view = { λ b. b.bytes.items };
}

impl ByteList {
    /// These bytes.
    pub fn of(bytes: Vec<u8>) -> ByteList
        ensures { result ≡ bytes.items }
    {
        ByteList { bytes }
    }

    /// The bytes in order.
    pub fn as_slice(&self) -> &[u8]
        ensures { result.now ≡ self.now }
    {
        &self.bytes
    }

    /// The same bytes again.
    pub fn copy(&self, alloc: Global) -> Result<ByteList, NoMemory>
        ensures { IfOk result (λ b. b ≡ self.now) }
    {
        Ok(ByteList {
            bytes: self.bytes.to_vec(alloc)?,
        })
    }
}

/// The names in a directory.
#[derive(Drop, Debug)]
pub struct NameList {
    names: Vec<ByteList>,
}

impl Model for NameList {
    ghost use Rattle.std.specs.Prelude.{List, ℕ};

    ghost Value = { List (List ℕ) };

    ghost view = { λ n. n.names.items };
}

impl NameList {
    /// No names. It takes no memory.
    pub fn new(alloc: Global) -> NameList
        ensures { result ≡ [] }
    {
        NameList {
            names: Vec::new(alloc),
        }
    }

    /// Puts a name behind the others.
    pub fn push(&mut self, name: ByteList) -> Result<(), NoMemory>
        ensures { OnOk result (self.new ≡ self.old ++ name ∷ []) }
    {
        match self.names.push(name) {
            Ok(()) => Ok(()),
            Err(_) => Err(NoMemory),
        }
    }

    /// The names in order.
    pub fn as_slice(&self) -> &[ByteList]
        ensures { result.now ≡ self.now }
    {
        &self.names
    }

    /// The same names again.
    pub fn copy(&self, alloc: Global) -> Result<NameList, NoMemory>
        ensures { IfOk result (λ n. n ≡ self.now) }
    {
        let mut copy = NameList::new(alloc);
        for name in &self.names {
            copy.push(name.copy(alloc)?)?;
        }
        Ok(copy)
    }
}
