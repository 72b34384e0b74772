//! The block of a put.
ghost use Rattle.std.specs.Prelude.{◌≡◌, ◌<◌, ◌≤◌, ◌+◌, ◌^◌, length, IfOk};
ghost use Rattle.std.specs.Str.{bytes_eq};
ghost use Rattle.wal_store.specs.declared.puts.Put.{Put};
ghost use Rattle.wal_store.specs.Puts.{IsPut, is_key, is_value};
ghost use Rattle.wal_store.specs.Blocks.{encode, decode, spelled, spells, number_in, key_in, value_in};

use crate::front::Front;
use crate::puts::{Put, Text, is_key, is_value};
use blk_base::{Block, NoMemory};
use byte_fields::u32_at_be;
use std::alloc::Global;

// `WAL1`: what a block of a put begins with.
const MAGIC: [u8; 4] = *b"WAL1";

// The bytes in front of the key.
const FRONT: usize = 10;

/// The block that spells a put and its number: the magic number, the number, how long key and value are, key, value
/// and zeros.
pub fn encode(number: u32, put: &Put) -> Block
    requires { IsPut put.now }
    ensures { result ≡ encode number put.now }
{
    spell(number, put.key.as_slice(), put.value.as_slice())
}

fn spell(number: u32, key: &[u8], value: &[u8]) -> Block
    requires key { length key.now ≤ 32 }
    requires value { length value.now ≤ 200 }
    ensures { result ≡ spelled number key.now value.now }
{
    let mut front = Front::new();
    front.put(&MAGIC);
    front.put(&number.to_be_bytes());
    front.put(&[key.len() as u8, value.len() as u8]);
    front.put(key);
    front.put(value);
    front.block()
}

fn key_in(bytes: &[u8]) -> &[u8]
    requires { length bytes.now ≡ 1024 }
    ensures { result.now ≡ key_in bytes.now }
{
    &bytes[FRONT..][..bytes[8] as usize]
}

fn value_in(bytes: &[u8]) -> &[u8]
    requires { length bytes.now ≡ 1024 }
    ensures { result.now ≡ value_in bytes.now }
{
    &bytes[FRONT..][bytes[8] as usize..][..bytes[9] as usize]
}

fn is_spelled(bytes: &[u8], key: &[u8], value: &[u8]) -> bool
    requires bytes { length bytes.now ≡ 1024 }
    requires key { length key.now ≤ 32 }
    requires value { length value.now ≤ 200 }
    ensures { result ≡ bytes_eq bytes.now (spelled (number_in bytes.now) key.now value.now) }
{
    bytes == spell(u32_at_be(bytes, 4), key, value).as_slice()
}

fn spells(bytes: &[u8]) -> bool
    requires { length bytes.now ≡ 1024 }
    ensures { result ≡ spells bytes.now }
{
    let (key, value) = (key_in(bytes), value_in(bytes));
    is_key(key) && is_value(value) && is_spelled(bytes, key, value)
}

/// The number and the put that a block spells, where it spells one.
pub fn decode(alloc: Global, block: &Block) -> Result<Option<(u32, Put)>, NoMemory>
    ensures { IfOk result (λ o. o ≡ decode block.now) }
{
    let bytes = block.as_slice();
    if !spells(bytes) {
        return Ok(None);
    }
    let key = Text::of(key_in(bytes).to_vec(alloc)?);
    let value = Text::of(value_in(bytes).to_vec(alloc)?);
    Ok(Some((u32_at_be(bytes, 4), Put { key, value })))
}
