//! What a check tells.
use std::fmt;

/// What a check of a volume tells: that it is clean, or the first fault, with the block at which it stands.
#[derive(Clone, Copy, Debug, PartialEq, Eq)]
pub enum Verdict {
    Clean,
    /// A bit of the map of the inodes.
    InodeMap(u32),
    /// A bit of the map of the zones.
    ZoneMap(u32),
    /// The links of an inode.
    Links(u32),
    /// The first two slots of a directory.
    Dots(u32),
}

impl fmt::Display for Verdict {
    fn fmt<W: fmt::Write>(&self, f: &mut fmt::Formatter<W>) -> fmt::Result {
        match self {
            Verdict::Clean => f.write_str("clean"),
            Verdict::InodeMap(block) => write!(f, "inode map at block {block}"),
            Verdict::ZoneMap(block) => write!(f, "zone map at block {block}"),
            Verdict::Links(block) => write!(f, "links at block {block}"),
            Verdict::Dots(block) => write!(f, "dots at block {block}"),
        }
    }
}
