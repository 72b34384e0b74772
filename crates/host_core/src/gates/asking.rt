//! What a volume says of a call before it is done.
ghost use Rattle.std.specs.Prelude.{◌≡◌};
ghost use Rattle.minix_host.specs.Calls.{refusal, needed, would_change, node_of, names_one};
ghost use Rattle.volume_steps.specs.Now.{tree_of_now};

use crate::gates::kinds::call_path;
use tree_model::{ByteList, Call, Reply};
use volume_calls::{Answer, PlainVolume};

/// What refuses a call, if anything does, and how many zones it would take. Its paths are walked once.
pub fn asked(volume: &PlainVolume, call: &Call) -> (Option<Reply>, u32)
    ensures refusal { result.0 ≡ refusal volume.now call.now }
    ensures zones { result.1 ≡ needed volume.now call.now }
{
    let (answer, zones) = volume.asked(call);
    match answer {
        Answer::Refused(reply) => (Some(reply), zones),
        Answer::Change => (None, zones),
    }
}

// Both paths lead to one node.
fn names_one(volume: &PlainVolume, path: &ByteList, other: &ByteList) -> bool
    ensures { result ≡ names_one (tree_of_now volume.now) path.now other.now }
{
    match (volume.node(path), volume.node(other)) {
        (Some(birth), Some(also)) => also == birth,
        _ => false,
    }
}

/// Whether a call that nothing refuses would change the tree or a page.
#[tactic(auto, unfolding(minix_host::specs::Calls::would_change))]
pub fn would_change(volume: &PlainVolume, call: &Call) -> bool
    ensures { result ≡ would_change volume.now call.now }
{
    match call {
        Call::Mkdir(_)
        | Call::Rmdir(_)
        | Call::Create(_)
        | Call::Unlink(_)
        | Call::Link(_, _)
        | Call::Write { .. }
        | Call::Bytes { .. } => true,
        Call::Rename(path, other) => !names_one(volume, path, other),
        Call::Truncate(path, size) => !volume.cuts_nothing(path, *size),
        _ => false,
    }
}

/// The birth of the node that a call is on; the root's where its path leads to none.
pub fn node_of(volume: &PlainVolume, call: &Call) -> u64
    ensures { result ≡ node_of volume.now call.now }
{
    match call_path(call) {
        Some(path) => volume.node(path).unwrap_or(0),
        None => 0,
    }
}
