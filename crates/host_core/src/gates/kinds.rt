//! What a call is.
ghost use Rattle.std.specs.Prelude.{◌≡◌};
ghost use Rattle.std.specs.Option.{option_copied};
ghost use Rattle.minix_host.specs.Calls.{kind_of, path_of_call};

use flush_actor::CallKind;
use tree_model::{ByteList, Call};

/// The kind of a call.
pub fn kind_of(call: &Call) -> CallKind
    ensures { result ≡ kind_of call.now }
{
    match call {
        Call::Read { .. } | Call::List(_) | Call::Stat(_) => CallKind::Reading,
        Call::Fsync(_) => CallKind::FileSync,
        Call::Fdatasync(_) => CallKind::DataSync,
        Call::Fbarrier(_) => CallKind::FileBarrier,
        Call::Fdatabarrier(_) => CallKind::DataBarrier,
        Call::Sync => CallKind::WholeSync,
        _ => CallKind::Changing,
    }
}

/// The path of the node that a call is on; a sync call of all has none.
pub fn call_path(call: &Call) -> Option<&ByteList>
    ensures { option_copied result ≡ path_of_call call.now }
{
    match call {
        Call::Mkdir(path)
        | Call::Rmdir(path)
        | Call::Create(path)
        | Call::Unlink(path)
        | Call::Link(path, _)
        | Call::Rename(path, _)
        | Call::Truncate(path, _)
        | Call::Write { path, .. }
        | Call::Bytes { path, .. }
        | Call::Read { path, .. }
        | Call::List(path)
        | Call::Stat(path)
        | Call::Fsync(path)
        | Call::Fdatasync(path)
        | Call::Fbarrier(path)
        | Call::Fdatabarrier(path) => Some(path),
        Call::Sync => None,
    }
}
