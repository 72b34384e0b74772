//! Why a text is not read as a script.
ghost use Rattle.std.specs.Prelude.{◌≡◌};
ghost use Rattle.script_grammar.specs.code.Readers.{fault_at};

use crate::kinds::ScriptKind;
use blk_base::NoMemory;

/// Why one line is not read.
#[derive(Clone, Copy, PartialEq, Eq, Debug)]
pub enum LineError {
    Kind(ScriptKind),
    NoMemory,
}

/// Why a text is not read: its first faulty line, counted from 1, or want of memory.
#[derive(Clone, Copy, PartialEq, Eq, Debug)]
pub enum ScriptError {
    Fault(u32, ScriptKind),
    NoMemory,
}

impl From<NoMemory> for LineError {
    ghost use Rattle.std.specs.Prelude.{◌≡◌};
    ghost use Rattle.script_grammar.specs.declared.script_error.LineError.TheVariants as errors;

    ghost from_gives = { λ _ e. e ≡ errors.NoMemory };

    fn from(_: NoMemory) -> Self {
        LineError::NoMemory
    }
}

impl From<NoMemory> for ScriptError {
    ghost use Rattle.std.specs.Prelude.{◌≡◌};
    ghost use Rattle.script_grammar.specs.declared.script_error.ScriptError.TheVariants as errors;

    ghost from_gives = { λ _ e. e ≡ errors.NoMemory };

    fn from(_: NoMemory) -> Self {
        ScriptError::NoMemory
    }
}

/// The fault of the line with this number.
pub fn fault_at(number: u32, fault: LineError) -> ScriptError
    ensures { result ≡ fault_at number fault }
{
    match fault {
        LineError::Kind(kind) => ScriptError::Fault(number, kind),
        LineError::NoMemory => ScriptError::NoMemory,
    }
}
