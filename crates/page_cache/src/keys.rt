//! Lists of the births and indexes of pages, in order.
ghost use Rattle.std.specs.Prelude.{◌≡◌, ◌≤◌, ◌<◌, true, false, length, IsOk, IfOk, IsErr, IfErr};
ghost use Rattle.std.specs.List.{filter, slice_get};
ghost use Rattle.page_cache.specs.code.Keys.{IsRisingKeys, is_before, is_key, place_of, stands, put_key, drop_key, with_key, is_key_in, next_in, first_of};
ghost use Rattle.number_sets.specs.Sets as sets;

use crate::gap_list::GapList;
use blk_base::NoMemory;
use std::alloc::Global;

// Whether the key stands before that one.
fn is_before(key: (u64, u32), birth: u64, index: u32) -> bool
    ensures { result ≡ is_before key birth index }
{
    key.0 < birth || key.0 == birth && key.1 < index
}

// How many keys stand before that one.
fn place_of(keys: &GapList<(u64, u32)>, birth: u64, index: u32) -> usize
    requires { IsRisingKeys keys.now.items }
    ensures value { result ≡ place_of keys.now.items birth index }
    ensures within { result ≤ length keys.now.items }
{
    let mut low = 0;
    let mut high = keys.len();
    while low < high {
        let middle = low + (high - low) / 2;
        if is_before(keys.at(middle), birth, index) {
            low = middle + 1;
        } else {
            high = middle;
        }
    }
    low
}

// Whether this is that key.
fn is_key(key: (u64, u32), birth: u64, index: u32) -> bool
    ensures { result ≡ is_key key birth index }
{
    key.0 == birth && key.1 == index
}

// The place of a key, or else the place where it would stand.
pub fn find_key(keys: &GapList<(u64, u32)>, birth: u64, index: u32) -> Result<usize, usize>
    requires { IsRisingKeys keys.now.items }
    ensures there { IsOk result → stands keys.now.items birth index ≡ true }
    ensures place { IfOk result (λ at. (at < length keys.now.items) × (at ≡ place_of keys.now.items birth index)) }
    ensures absent { IsErr result → stands keys.now.items birth index ≡ false }
    ensures new_place { IfErr result (λ at. (at ≤ length keys.now.items) × (at ≡ place_of keys.now.items birth index)) }
{
    let at = place_of(keys, birth, index);
    if at < keys.len() && is_key(keys.at(at), birth, index) {
        Ok(at)
    } else {
        Err(at)
    }
}

// The first key at that one or behind it.
pub fn key_from(keys: &GapList<(u64, u32)>, birth: u64, index: u32) -> Option<(u64, u32)>
    requires { IsRisingKeys keys.now.items }
    ensures { result ≡ slice_get keys.now.items (place_of keys.now.items birth index) }
{
    keys.get(place_of(keys, birth, index))
}

// The first key of this file, from that index on.
fn next_in(keys: &GapList<(u64, u32)>, birth: u64, from: u32) -> Option<(u64, u32)>
    requires { IsRisingKeys keys.now.items }
    ensures { result ≡ next_in keys.now.items birth from }
{
    let key = key_from(keys, birth, from)?;
    if key.0 == birth { Some(key) } else { None }
}

// Whether the key is of that file; of any, where none is said.
fn is_in(key: (u64, u32), file: Option<u64>) -> bool
    ensures { result ≡ is_key_in file key }
{
    match file {
        Some(birth) => key.0 == birth,
        None => true,
    }
}

// The keys of this file; all, where none is said.
pub fn keys_in(
    alloc: Global,
    keys: &GapList<(u64, u32)>,
    file: Option<u64>,
) -> Result<Vec<(u64, u32)>, NoMemory>
    ensures { IfOk result (λ found. found.items ≡ filter (is_key_in file) keys.now.items) }
{
    let mut found = Vec::new(alloc);
    for at in 0..keys.len() {
        if is_in(keys.at(at), file) {
            found.push(keys.at(at))?;
        }
    }
    Ok(found)
}

// The first key of one of these files: each is looked for in turn, so that other files cost nothing.
pub fn first_of(keys: &GapList<(u64, u32)>, births: &[u64]) -> Option<(u64, u32)>
    requires keys { IsRisingKeys keys.now.items }
    requires births { sets.IsRising births.now }
    ensures { result ≡ first_of births.now keys.now.items }
{
    for at in 0..births.len() {
        if let Some(key) = next_in(keys, births[at], 0) {
            return Some(key);
        }
    }
    None
}

// A key comes to where it stands in order, if it is not there.
pub fn put_key(keys: &mut GapList<(u64, u32)>, birth: u64, index: u32)
    requires rising { IsRisingKeys keys.old.items }
    requires room { length (put_key keys.old.items birth index) ≤ keys.old.capacity }
    ensures items { keys.new.items ≡ put_key keys.old.items birth index }
    ensures capacity { keys.new.capacity ≡ keys.old.capacity }
{
    if let Err(at) = find_key(keys, birth, index) {
        keys.insert(at, (birth, index));
    }
}

// A key goes, if it is there.
pub fn drop_key(keys: &mut GapList<(u64, u32)>, birth: u64, index: u32)
    requires { IsRisingKeys keys.old.items }
    ensures items { keys.new.items ≡ drop_key keys.old.items birth index }
    ensures capacity { keys.new.capacity ≡ keys.old.capacity }
{
    if let Ok(at) = find_key(keys, birth, index) {
        keys.remove(at);
    }
}

// A key is there exactly where `listed` says so.
pub fn list_key(keys: &mut GapList<(u64, u32)>, birth: u64, index: u32, listed: bool)
    requires rising { IsRisingKeys keys.old.items }
    requires room { length (with_key keys.old.items birth index listed) ≤ keys.old.capacity }
    ensures items { keys.new.items ≡ with_key keys.old.items birth index listed }
    ensures capacity { keys.new.capacity ≡ keys.old.capacity }
{
    if listed {
        put_key(keys, birth, index);
    } else {
        drop_key(keys, birth, index);
    }
}
