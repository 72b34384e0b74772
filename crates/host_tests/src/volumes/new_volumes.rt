//! What a volume is asked by rows of calls, and the bytes that they leave.
#![tactic(auto, using(minix_layout::specs::Widths::of_14, minix_layout::specs::Widths::of_30))]

ghost use Rattle.std.specs.Prelude.{◌≡◌, true, false};
ghost use Rattle.minix_layout.specs.Geometry.{IsSound};
ghost use Rattle.tree_model.specs.Calls.{leaves_tree};

use crate::same::expect;
use crate::volumes::rows::{MOVED, NEW, REPLACED, SLOTS};
use blk_base::NoMemory;
use line_grammar::calls::{read_call, read_call_word};
use minix_layout::{DEFAULT_WIDTH, Geometry};
use script_words::words;
use std::alloc::Global;
use std::process::Abort;
use tree_model::{ByteList, Call, Reply, put_tree};
use volume_calls::{PlainVolume, volumes_are_plain};
use volume_steps::new_volumes_are_in_use;

// What is asked of a volume, beside a line: of a call, of a path, or of nothing.
#[derive(Clone, Copy)]
pub enum Ask {
    // What the call is answered before it is done, and the zones that it would take.
    Before,
    // What the call is answered, which changes nothing.
    Reply,
    // The call is done, and answered this.
    Do,
    // So many names of the file `/0`, which is new.
    Names(u32),
    Tree,
    // The birth of the node to which the path leads.
    Birth,
    // The first zone of data.
    First,
    // How many zones are free.
    Free,
    // The same once this transaction is released.
    Release(u32),
}

// A new volume, what it is asked and told, and the bytes that blocks of it then have: a block, a place in it, and the bytes there.
pub struct Row {
    pub name: &'static str,
    // Whether names have up to 30 bytes.
    pub is_wide: bool,
    pub steps: &'static [(Ask, &'static str, &'static str)],
    pub bytes: &'static [(u32, usize, &'static [u8])],
    // Whether all other bytes of blocks 2 to 6 are zeros.
    pub is_whole: bool,
}

// Five blocks are no zones of data.
const SMALL: Geometry = Geometry {
    inodes: 32,
    zones: 64,
    imap: 1,
    zmap: 1,
    first: 5,
    width: DEFAULT_WIDTH,
};

// The same division, with names of up to 30 bytes.
const WIDE: Geometry = Geometry {
    inodes: 32,
    zones: 64,
    imap: 1,
    zmap: 1,
    first: 5,
    width: 30,
};

fn new_volume(rt: &impl Abort, alloc: Global, g: Geometry) -> PlainVolume
    requires { IsSound g }
{
    new_volumes_are_in_use();
    let parts = volume_in_use::now::new_volume(alloc, g).expect(rt, "no parts");
    PlainVolume::of(alloc, parts).expect(rt, "no volume")
}

// The call of a line.
fn call_of(rt: &impl Abort, alloc: Global, line: &str) -> Call {
    let found = words(alloc, line.as_bytes()).expect(rt, "no words");
    let (first, rest) = found.as_slice().split_first().expect(rt, "no word");
    let word = read_call_word(first).expect(rt, "no call's word");
    read_call(alloc, word, rest).expect(rt, "no call")
}

fn leaves_tree(call: &Call) -> bool
    ensures { result ≡ leaves_tree call.now }
{
    matches!(
        call,
        Call::Read { .. }
            | Call::List(_)
            | Call::Stat(_)
            | Call::Fsync(_)
            | Call::Fdatasync(_)
            | Call::Fbarrier(_)
            | Call::Fdatabarrier(_)
            | Call::Sync
    )
}

// Does a call, under the first number from 1 that it can have, where there is room for it.
pub fn reply_done(alloc: Global, volume: &mut PlainVolume, call: &Call) -> Result<Reply, NoMemory> {
    volumes_are_plain(volume);
    let Some(number) = volume.number_in(1) else {
        return Err(NoMemory);
    };
    if volume.needs(call) > volume.zones().free_count() {
        return Err(NoMemory);
    }
    let (reply, _) = volume.apply(alloc, number, 1, call)?;
    Ok(reply)
}

fn tree_text(rt: &impl Abort, alloc: Global, volume: &PlainVolume) -> String {
    let mut text = String::new(alloc);
    let tree = volume.tree(alloc).expect(rt, "no tree");
    put_tree(alloc, &mut text, tree).expect(rt, "no text");
    text
}

// Does a call, and again where it wanted memory that was refused: then all was left as it was.
fn done(
    rt: &impl Abort,
    alloc: Global,
    volume: &mut PlainVolume,
    call: &Call,
    line: &str,
) -> Reply {
    let before = tree_text(rt, alloc, volume);
    match reply_done(alloc, volume, call) {
        Ok(reply) => reply,
        Err(NoMemory) => {
            let after = tree_text(rt, alloc, volume);
            expect_text(rt, "refused memory", line, after.as_str(), before.as_str());
            reply_done(alloc, volume, call).expect(rt, "not done")
        }
    }
}

// What the call of a line is answered before it is done, and the zones that it would take.
fn shown(rt: &impl Abort, alloc: Global, volume: &PlainVolume, line: &str) -> String {
    let call = call_of(rt, alloc, line);
    let zones = volume.needs(&call);
    let answer = volume.reply(&call);
    drop(call);
    let text = format!(in alloc; "{answer:?}, {zones}").expect(rt, "no text");
    drop(answer);
    text
}

// What the call of a line is answered. One that is only asked changes nothing.
fn replied(
    rt: &impl Abort,
    alloc: Global,
    volume: &mut PlainVolume,
    is_asked: bool,
    line: &str,
) -> String {
    let call = call_of(rt, alloc, line);
    let reply = if is_asked {
        assert!(rt; leaves_tree(&call));
        volume.ask(alloc, &call).expect(rt, "no reply")
    } else {
        done(rt, alloc, volume, &call, line)
    };
    drop(call);
    let text = format!(in alloc; "{reply:?}").expect(rt, "no text");
    drop(reply);
    text
}

// Gives the root of a new volume so many names of one file.
fn fill_root(rt: &impl Abort, alloc: Global, volume: &mut PlainVolume, names: u32) -> String {
    let mut last = replied(rt, alloc, volume, false, "create /0");
    for name in 1..names {
        let line = format!(in alloc; "link /0 /{name}").expect(rt, "no line");
        last = replied(rt, alloc, volume, false, line.as_str());
    }
    last
}

// The numbers that are asked for.
fn number(
    rt: &impl Abort,
    alloc: Global,
    volume: &mut PlainVolume,
    ask: Ask,
    path: &str,
) -> Option<u64> {
    match ask {
        Ask::Birth => {
            let path = path.as_bytes().to_vec(alloc).expect(rt, "no path");
            volume.node(&ByteList::of(path))
        }
        Ask::First => Some(u64::from(volume.geometry().first)),
        Ask::Release(transaction) => {
            volume.release(transaction);
            Some(u64::from(volume.zones().free_count()))
        }
        _ => Some(u64::from(volume.zones().free_count())),
    }
}

// What is told where this is asked.
fn told(rt: &impl Abort, alloc: Global, volume: &mut PlainVolume, ask: Ask, line: &str) -> String {
    match ask {
        Ask::Before => shown(rt, alloc, volume, line),
        Ask::Reply => replied(rt, alloc, volume, true, line),
        Ask::Do => replied(rt, alloc, volume, false, line),
        Ask::Names(names) => fill_root(rt, alloc, volume, names),
        Ask::Tree => tree_text(rt, alloc, volume),
        Ask::Birth | Ask::First | Ask::Free | Ask::Release(_) => {
            let number = number(rt, alloc, volume, ask, line);
            format!(in alloc; "{number:?}").expect(rt, "no text")
        }
    }
}

// The byte that a row tells of a place, where it does.
fn byte_of(row: &Row, block: u32, at: usize) -> Option<u8> {
    for (place, first, bytes) in row.bytes {
        if *place == block
            && let Some(k) = at.checked_sub(*first)
            && let Some(byte) = bytes.get(k)
        {
            return Some(*byte);
        }
    }
    if row.is_whole && block < 7 {
        return Some(0);
    }
    None
}

// The first place at which a block has another byte than the row tells.
fn first_other(volume: &PlainVolume, row: &Row, block: u32) -> Option<usize> {
    for (at, byte) in volume.block_bytes(block).as_slice().iter().enumerate() {
        if byte_of(row, block, at).unwrap_or(*byte) != *byte {
            return Some(at);
        }
    }
    None
}

// The blocks of which rows tell bytes. A failure tells the block as its step.
static BLOCKS: [u32; 8] = [2, 3, 4, 5, 6, 7, 8, 64];

fn expect_bytes(rt: &impl Abort, volume: &PlainVolume, row: &Row) {
    for block in &BLOCKS {
        let other = first_other(volume, row, *block);
        expect(rt, row.name, *block as usize, other.is_none());
    }
}

fn expect_text(rt: &impl Abort, row: &str, line: &str, came: &str, wanted: &str) {
    assert!(rt; came == wanted, "{row}: {line}: {came}");
}

fn plays(rt: &impl Abort, alloc: Global, row: &Row) {
    let mut volume = if row.is_wide {
        new_volume(rt, alloc, WIDE)
    } else {
        new_volume(rt, alloc, SMALL)
    };
    for (ask, line, wanted) in row.steps {
        let text = told(rt, alloc, &mut volume, *ask, line);
        expect_text(rt, row.name, line, text.as_str(), wanted);
    }
    expect_bytes(rt, &volume, row);
    drop(volume);
}

fn plays_all(rt: &impl Abort, alloc: Global, rows: &[Row]) {
    for row in rows {
        plays(rt, alloc, row);
    }
}

#[test]
fn volumes_tell_what_calls_leave(rt: HostRuntime) {
    plays_all(&rt, rt.alloc(), &NEW);
    plays_all(&rt, rt.alloc(), &SLOTS);
    plays_all(&rt, rt.alloc(), &MOVED);
    plays_all(&rt, rt.alloc(), &REPLACED);
}
