//! Where a name stands.
use minix_layout::Name;

/// A name in a directory: the directory's birth, and the name.
#[derive(Drop)]
pub struct Site {
    pub parent: u64,
    pub name: Name,
}
