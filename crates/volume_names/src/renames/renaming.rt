//! A node gets another name, whatever stands there.
ghost use Rattle.std.specs.Prelude.{◌≡◌, IfOk, OnErr};
ghost use Rattle.volume_names.specs.renames.May.{MayRename};
ghost use Rattle.volume_names.specs.renames.Renamed.{birth_named, is_directory_at, renamed_at};

use crate::renames::moving::{move_across, move_below, move_within};
use crate::renames::replacing::replace;
use crate::renames::site::Site;
use blk_base::NoMemory;
use std::alloc::Global;
use std::collections::BTreeMap;
use volume_in_use::now::{Touched, VolumeNow};
use volume_model::{Part, Placed};

/// Gives the node with this birth another name in place of its own, in transaction `tx`, and tells what that touched. A
/// file that has the other name loses it, and goes with its last one. Where both names are of one node, nothing changes.
/// Memory is asked for before the first write, and where it is refused all is as before.
pub fn rename(
    alloc: Global,
    v: &mut VolumeNow,
    tx: u32,
    from: &Site,
    to: &Site,
    birth: u64,
) -> Result<Touched, NoMemory>
    requires { MayRename v.old from.now.parent from.now.name to.now.parent to.now.name birth }
    ensures done { IfOk result (λ t. record { volume = v.new; touched = t.touched } ≡ renamed_at v.old tx from.now.parent from.now.name to.now.parent to.now.name birth) }
    ensures memory { OnErr result (v.new ≡ v.old) }
{
    match birth_named(&v.nodes, to) {
        Some(gone) if gone == birth => Touched::with_room(alloc, 0),
        Some(gone) => replace(alloc, v, tx, from, to, birth, gone),
        None if from.parent == to.parent => move_within(alloc, v, from, &to.name, birth),
        None if is_directory(&v.nodes, birth) => move_below(alloc, v, from, to, birth),
        None => move_across(alloc, v, from, to, birth),
    }
}

/// The birth of the node with a name, if its directory has the name.
pub fn birth_named(nodes: &BTreeMap<u64, Placed>, site: &Site) -> Option<u64>
    ensures { result ≡ birth_named nodes.now.entries site.now.parent site.now.name }
{
    match &nodes.get(&site.parent)?.part {
        Part::Directory(directory) => directory.names.get(&site.name),
        Part::File(_) => None,
    }
}

fn is_directory(nodes: &BTreeMap<u64, Placed>, birth: u64) -> bool
    ensures { result ≡ is_directory_at nodes.now.entries birth }
{
    match nodes.get(&birth) {
        Some(placed) => matches!(placed.part, Part::Directory(_)),
        None => false,
    }
}
