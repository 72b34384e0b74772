//! Paths.
ghost use Rattle.std.specs.Prelude.{◌≡◌, ℕ, ◌==◌, List, Some, map, IfOk, IsTrue, ◌↔◌};
ghost use Rattle.std.specs.List.{list_all, slice_split};
ghost use Rattle.tree_model.specs.Paths.{is_dot, is_name_byte, is_path_name, path_of, spelled};

use blk_base::NoMemory;
use std::alloc::{AllocError, Global};
use std::marker::Model;

/// The names of a path, from the root on. The root's path has none.
#[derive(Drop, Debug)]
pub struct Path {
    names: Vec<Vec<u8>>,
}

impl Model for Path {
    ghost use Rattle.std.specs.Prelude.{List, ℕ, map};

    ghost Value = { List (List ℕ) };

    ghost view = { λ p. map (λ n. n.items) p.names.items };
}

fn is_name_byte(b: u8) -> bool
    ensures { result ≡ is_name_byte b }
{
    (b >= b'A' && b <= b'Z')
        || (b >= b'a' && b <= b'z')
        || (b >= b'0' && b <= b'9')
        || b == b'.'
        || b == b'_'
        || b == b'-'
}

/// Whether it is the name of a directory for itself or for its parent.
pub fn is_dot(name: &[u8]) -> bool
    ensures { result ≡ is_dot name.now }
{
    name == b".".as_slice() || name == b"..".as_slice()
}

fn are_name_bytes(name: &[u8]) -> bool
    ensures { result ≡ list_all is_name_byte name.now }
{
    name.iter().all(|b| is_name_byte(*b))
}

pub fn is_path_name(name: &[u8]) -> bool
    ensures { result ≡ is_path_name name.now }
{
    !name.is_empty() && are_name_bytes(name) && !is_dot(name)
}

fn are_path_names(names: &[&[u8]]) -> bool
    ensures { result ≡ list_all is_path_name (map (λ x. x.now) names.now) }
{
    names.iter().all(|name| is_path_name(name))
}

// The pieces between slashes.
fn pieces(alloc: Global, text: &[u8]) -> Result<Vec<&[u8]>, AllocError>
    ensures { IfOk result (λ v. map (λ x. x.now) v.items ≡ slice_split (λ b. b == 47) text.now) }
{
    text.split(|b| *b == b'/').collect(alloc)
}

fn copied(alloc: Global, names: &[&[u8]]) -> Result<Vec<Vec<u8>>, AllocError>
    ensures { IfOk result (λ v. map (λ n. n.items) v.items ≡ map (λ x. x.now) names.now) }
{
    let mut copies = Vec::new(alloc);
    for name in names {
        copies.push(name.to_vec(alloc)?)?;
    }
    Ok(copies)
}

impl Path {
    /// The names in order.
    pub fn as_slice(&self) -> &[Vec<u8>]
        ensures { map (λ n. n.items) result.now ≡ self.now }
    {
        &self.names
    }
}

/// Reads a path: `/`, or one or more times `/` and a name of letters, digits, `.`, `_` and `-` that is neither
/// `.` nor `..`. A name may be longer than a directory can have. None where the text is no path.
pub fn read_path(alloc: Global, text: &[u8]) -> Result<Option<Path>, NoMemory>
    ensures { IfOk result (λ path. path ≡ path_of text.now) }
{
    let Some((first, rest)) = text.split_first() else {
        return Ok(None);
    };
    if *first != b'/' {
        return Ok(None);
    }
    if rest.is_empty() {
        return Ok(Some(Path {
            names: Vec::new(alloc),
        }));
    }
    let names = pieces(alloc, rest)?;
    if !are_path_names(&names) {
        return Ok(None);
    }
    Ok(Some(Path {
        names: copied(alloc, &names)?,
    }))
}

/// A law, which does nothing when it is called: a text is read as these names exactly where it is how they are
/// spelled, and each of them is a name.
pub fn paths_are_spelled()
    ensures { (text : List ℕ) (names : List (List ℕ)) →
        (path_of text ≡ Some names) ↔ ((text ≡ spelled names) × IsTrue (list_all is_path_name names)) }
{}
