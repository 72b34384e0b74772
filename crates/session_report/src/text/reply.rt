//! The text of a reply.
ghost use Rattle.std.specs.Prelude.{◌≡◌, ◌++◌, OnOk, codes};
ghost use Rattle.std.specs.String.{string_bytes};
ghost use Rattle.session_report.specs.text.Replies.{spaced, names_text, kind_text, reply_text};

use byte_text::put_runs;
use std::alloc::AllocError;
use tree_model::{ByteList, Reply, put_name};

// Each name behind a space.
fn put_spaced(out: &mut String, names: &[ByteList]) -> Result<(), AllocError>
    ensures { OnOk result (string_bytes out.new ≡ string_bytes out.old ++ spaced names.now) }
{
    for name in names {
        out.push_str(" ")?;
        put_name(out, name.as_slice())?;
    }
    Ok(())
}

// A dash where there is no name.
fn put_names(out: &mut String, names: &[ByteList]) -> Result<(), AllocError>
    ensures { OnOk result (string_bytes out.new ≡ string_bytes out.old ++ names_text names.now) }
{
    if names.is_empty() {
        out.push_str(" -")
    } else {
        put_spaced(out, names)
    }
}

fn kind(dir: bool) -> &'static str
    ensures { result.now ≡ kind_text dir }
{
    if dir { "dir" } else { "file" }
}

/// Appends the text of a reply, without a line feed.
#[tactic(auto, using(std::proofs::lemmas::List::append_assoc))]
pub fn put_reply(out: &mut String, reply: &Reply) -> Result<(), AllocError>
    ensures { OnOk result (string_bytes out.new ≡ string_bytes out.old ++ reply_text reply.now) }
{
    match reply {
        Reply::Ok => out.push_str("ok"),
        Reply::Bytes(bytes) => {
            out.push_str("bytes ")?;
            put_runs(out, bytes.as_slice())
        }
        Reply::Names(names) => {
            out.push_str("names")?;
            put_names(out, names.as_slice())
        }
        Reply::Stat { dir, size, links } => {
            out.push_str(kind(*dir))?;
            write!(out, " size {size} links {links}")
        }
        Reply::NotFound => out.push_str("not found"),
        Reply::Exists => out.push_str("exists"),
        Reply::NotDir => out.push_str("not a directory"),
        Reply::IsDir => out.push_str("is a directory"),
        Reply::NotEmpty => out.push_str("not empty"),
        Reply::NameTooLong => out.push_str("name too long"),
        Reply::TooManyLinks => out.push_str("too many links"),
        Reply::TooBig => out.push_str("too big"),
        Reply::NoSpace => out.push_str("no space"),
        Reply::NoInode => out.push_str("no inode"),
        Reply::BadPath => out.push_str("bad path"),
        Reply::Invalid => out.push_str("invalid"),
        Reply::ReadOnly(id) => write!(out, "read-only {id}"),
        Reply::Down => out.push_str("down"),
        Reply::SessionFull => out.push_str("session full"),
    }
}
