//! Paths as texts: their names, one after the other, with no list of them.
ghost use Rattle.std.specs.Prelude.{◌≡◌, ◌==◌, ◌∷◌, ◌<◌, ◌≤◌, take, drop, IfOk, IfErr, Ok, Err, IsTrue, length, nat_lt, true, false};
ghost use Rattle.std.specs.List.{list_all, position};
ghost use Rattle.tree_model.specs.declared.call.Reply.TheVariants as replies;
ghost use Rattle.tree_model.specs.Calls.{names_in};
ghost use Rattle.tree_model.specs.Paths.{is_path_name};
ghost use Rattle.tree_model.specs.code.PathTexts.{names_below};

use crate::path::is_path_name;
use crate::{ByteList, Reply};
use minix_layout::Name;

/// The first name in a text of names, each behind a slash, and the text behind it.
pub fn first_name(text: &[u8]) -> (&[u8], &[u8])
    requires { 0 < length text.now }
    ensures names { names_below text.now ≡ result.0.now ∷ names_below result.1.now }
    ensures less { length result.1.now < length text.now }
{
    let bytes = &text[1..];
    bytes.split_at(name_end(bytes))
}

// Where the name ends at which a text begins.
fn name_end(bytes: &[u8]) -> usize
    ensures names { names_below (47 ∷ bytes.now) ≡ take result bytes.now ∷ names_below (drop result bytes.now) }
    ensures within { result ≤ length bytes.now }
{
    first_slash(bytes).unwrap_or(bytes.len())
}

fn first_slash(bytes: &[u8]) -> Option<usize>
    ensures { result ≡ position (λ b. b == 47) bytes.now }
{
    bytes.iter().position(|b| *b == b'/')
}

// Whether all names of a text can stand in a path.
fn have_path_names(text: &[u8]) -> bool
    ensures { result ≡ list_all is_path_name (names_below text.now) }
{
    let mut left = text;
    while !left.is_empty() {
        let (name, more) = first_name(left);
        if !is_path_name(name) {
            return false;
        }
        left = more;
    }
    true
}

/// The text of a path's names, each behind a slash; an empty one for the root. It takes no memory.
pub fn names_of(path: &ByteList) -> Result<&[u8], Reply>
    ensures names { IfOk result (λ text. names_in path.now ≡ Ok (names_below text.now)) }
    ensures words { IfOk result (λ text. IsTrue (list_all is_path_name (names_below text.now))) }
    ensures fault { IfErr result (λ reply. names_in path.now ≡ Err reply) }
{
    let text = path.as_slice();
    let Some((slash, rest)) = text.split_first() else {
        return Err(Reply::BadPath);
    };
    if *slash != b'/' {
        return Err(Reply::BadPath);
    }
    if rest.is_empty() {
        return Ok(rest);
    }
    if !have_path_names(text) {
        return Err(Reply::BadPath);
    }
    Ok(text)
}

/// The name that a directory can have, if a path's name is not too long for it.
pub fn short_name(name: &[u8], width: u16) -> Result<Name, Reply>
    requires plain { IsTrue (is_path_name name.now) }
    requires narrow { width ≤ 30 }
    ensures name { IfOk result (λ n. n ≡ name.now) }
    ensures short { IfOk result (λ n. nat_lt width (length name.now) ≡ false) }
    ensures fault { IfErr result (λ reply. reply ≡ replies.NameTooLong) }
    ensures long { IfErr result (λ reply. nat_lt width (length name.now) ≡ true) }
{
    if name.len() > width as usize {
        return Err(Reply::NameTooLong);
    }
    match Name::of(name) {
        Some(name) => Ok(name),
        None => Err(Reply::NameTooLong),
    }
}
