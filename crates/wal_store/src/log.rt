//! What the blocks of a log hold.
ghost use Rattle.std.specs.Prelude.{◌≡◌, ◌<◌, ◌^◌, [], length, IfOk, OnOk};
ghost use Rattle.tree_model.specs.Maps.{put_name};
ghost use Rattle.wal_store.specs.Log.{held_in, put_numbered};

use crate::blocks::decode;
use crate::puts::{Put, Text};
use blk_base::{Block, NoMemory};
use std::alloc::Global;
use std::collections::BTreeMap;
use std::marker::Model;

/// Keys with their values, in the order of the keys' bytes.
#[derive(Drop)]
pub struct Pairs {
    map: BTreeMap<Text, Text>,
}

impl Model for Pairs {
    ghost use Rattle.std.specs.Prelude.{List, ℕ};

    ghost Value = { List (List ℕ × List ℕ) };

    ghost view = { λ p. p.map.entries };
}

impl Pairs {
    /// No keys. It takes no memory.
    pub fn new(alloc: Global) -> Pairs
        ensures { result ≡ [] }
    {
        Pairs {
            map: BTreeMap::new(alloc),
        }
    }

    /// Gives a key a value, in place of the one that it had.
    pub fn put(&mut self, key: Text, value: Text) -> Result<(), NoMemory>
        ensures { OnOk result (self.new ≡ put_name self.old key value) }
    {
        match self.map.insert(key, value) {
            Ok(_) => Ok(()),
            Err(_) => Err(NoMemory),
        }
    }

    /// The keys in the order of their bytes, with their values.
    pub fn as_map(&self) -> &BTreeMap<Text, Text>
        ensures { result.now.entries ≡ self.now }
    {
        &self.map
    }
}

/// What a log holds.
#[derive(Drop)]
pub struct LogContents {
    /// How many puts, from the first one on.
    pub count: u32,
    /// What these puts leave.
    pub pairs: Pairs,
}

// The put of a block that spells the one with this number.
fn put_numbered(alloc: Global, number: u32, block: &Block) -> Result<Option<Put>, NoMemory>
    ensures { IfOk result (λ o. o ≡ put_numbered number block.now) }
{
    match decode(alloc, block)? {
        Some((found, put)) if found == number => Ok(Some(put)),
        _ => Ok(None),
    }
}

/// Reads the blocks of a log, from its first one on.
pub fn read_log(alloc: Global, blocks: &[Block]) -> Result<LogContents, NoMemory>
    requires { length blocks.now < 2 ^ 32 }
    ensures { IfOk result (λ h. h ≡ held_in blocks.now) }
{
    let mut count = 0;
    let mut pairs = Pairs::new(alloc);
    for block in blocks {
        let Some(put) = put_numbered(alloc, count + 1, block)? else {
            return Ok(LogContents { count, pairs });
        };
        pairs.put(put.key, put.value)?;
        count += 1;
    }
    Ok(LogContents { count, pairs })
}
