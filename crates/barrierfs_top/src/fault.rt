//! What may be wrong.
use mount_make::ImageFault;
use script_grammar::ScriptKind;
use thiserror::Error;
use vol_check::Verdict;

/// Why the program did not end well. Its text is what the program prints behind its own name.
#[derive(Clone, Copy, PartialEq, Eq, Debug, Error)]
pub enum TopFault {
    #[error("bad words")]
    BadWords,
    #[error("script line {0}: {1}")]
    Script(u32, ScriptKind),
    #[error("image: {0} at block {1}")]
    Image(ImageFault, u32),
    #[error("source fault")]
    SourceFault,
    #[error("sink fault")]
    SinkFault,
    #[error("input too long")]
    TooLong,
    #[error("no memory")]
    NoMemory,
    #[error("no room")]
    NoRoom,
    #[error("unsound: {0}")]
    Unsound(Verdict),
}
