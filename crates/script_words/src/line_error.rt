//! Why the words of a line are not read.
use blk_base::NoMemory;

/// What is wrong with the words of a line. Where both are, the spelling counts.
#[derive(Clone, Copy, PartialEq, Eq, Debug)]
pub enum LineFault {
    /// The words are wrong in number or spelling.
    Spelling,
    /// A number is outside its limit.
    Number,
}

/// Why words are not read: a fault, or want of memory.
#[derive(Clone, Copy, PartialEq, Eq, Debug)]
pub enum WordsError {
    Fault(LineFault),
    NoMemory,
}

impl From<NoMemory> for WordsError {
    ghost use Rattle.std.specs.Prelude.{◌≡◌};
    ghost use Rattle.script_words.specs.declared.line_error.WordsError.TheVariants as errors;

    ghost from_gives = { λ _ e. e ≡ errors.NoMemory };

    fn from(_: NoMemory) -> Self {
        WordsError::NoMemory
    }
}
