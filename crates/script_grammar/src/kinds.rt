//! What may be wrong with a line.
use std::fmt;

/// What is wrong with a line of a script. Where several things are, the first of these counts, but that
/// the words behind the first are looked at behind `Twice`.
#[derive(Clone, Copy, PartialEq, Eq, Debug)]
pub enum ScriptKind {
    /// A word is not known, or the words are wrong in number or spelling.
    Word,
    /// The line may not stand here, or in this kind of script.
    Order,
    /// The header line stood before.
    Twice,
    /// A number is outside its limit.
    Number,
    /// Of the sizes in the first line no volume with a journal can be made.
    Geometry,
}

impl fmt::Display for ScriptKind {
    fn fmt<W: fmt::Write>(&self, f: &mut fmt::Formatter<W>) -> fmt::Result {
        f.write_str(match self {
            ScriptKind::Word => "word",
            ScriptKind::Order => "order",
            ScriptKind::Twice => "twice",
            ScriptKind::Number => "number",
            ScriptKind::Geometry => "geometry",
        })
    }
}
