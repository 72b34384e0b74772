//! How many bytes an input may have.
ghost use Rattle.std.specs.Prelude.{◌≡◌, Bool};
ghost use Rattle.barrierfs_top.specs.Tasks.{most_of};
ghost use Rattle.barrierfs_top.specs.declared.command_line.InputTask.TheVariants as commands;

/// A law, which does nothing when it is called: a script has at most four mebibytes, which are 4,194,304 bytes, and an image at
/// most 128, which are 134,217,728. That one byte more is too long is said by the clauses of the top call.
pub fn inputs_have_so_many_bytes_at_most()
    ensures replay { (raw : Bool) → most_of (commands.Replay raw) ≡ 4194304 }
    ensures run { (raw : Bool) → most_of (commands.Run raw) ≡ 4194304 }
    ensures kv { most_of commands.Kv ≡ 4194304 }
    ensures show { most_of commands.Show ≡ 134217728 }
    ensures widen { (raw : Bool) → most_of (commands.Widen raw) ≡ 134217728 }
    ensures check { most_of commands.Check ≡ 134217728 }
{}
