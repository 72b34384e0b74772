//! The text of a report.
ghost use Rattle.std.specs.Prelude.{◌≡◌, ℕ, ◌<◌, ◌++◌, length, OnOk, Some, slice_get};
ghost use Rattle.std.specs.String.{string_bytes};
ghost use Rattle.barrierfs_top.specs.Text.{origin_text, block_line, block_lines, report_text, byte_of, origin_at};

use blk_base::{Block, Image};
use byte_text::put_hex;
use std::alloc::AllocError;

fn put_origin(out: &mut String, origin: Option<u64>) -> Result<(), AllocError>
    ensures { OnOk result (string_bytes out.new ≡ string_bytes out.old ++ origin_text origin) }
{
    match origin {
        None => out.push_str("-"),
        Some(id) => write!(out, "{id}"),
    }
}

#[tactic(auto, using(std::proofs::lemmas::List::append_assoc))]
fn put_block(out: &mut String, index: u32, value: u8, origin: Option<u64>) -> Result<(), AllocError>
    ensures { OnOk result (string_bytes out.new ≡ string_bytes out.old ++ block_line index value origin) }
{
    write!(out, "block {index} ")?;
    put_hex(out, value)?;
    out.push_str(" ")?;
    put_origin(out, origin)?;
    out.push_str("\n")
}

// The byte that a block begins with.
fn first_byte(body: &Block) -> u8
    ensures { result ≡ byte_of (Some body.now) }
{
    body.as_slice()[0]
}

fn origin_at(origins: &[Option<u64>], b: u32) -> Option<u64>
    ensures { result ≡ origin_at origins.now b }
{
    match origins.get(b as usize) {
        Some(origin) => *origin,
        None => None,
    }
}

fn put_blocks(out: &mut String, image: &Image, origins: &[Option<u64>]) -> Result<(), AllocError>
    requires { length origins.now ≡ length image.now }
    ensures { OnOk result (string_bytes out.new ≡ string_bytes out.old ++ block_lines image.now origins.now 0 (length image.now)) }
{
    for b in 0..image.len() {
        put_block(out, b, first_byte(image.block(b)), origin_at(origins, b))?;
    }
    Ok(())
}

#[tactic(auto, using(std::proofs::lemmas::List::append_assoc), unfolding(crate::specs::Text::report_text))]
/// Appends the text of a report: its steps, and for each block its byte and the id of its origin.
pub fn put_report(
    out: &mut String,
    steps: u64,
    image: &Image,
    origins: &[Option<u64>],
) -> Result<(), AllocError>
    requires { length origins.now ≡ length image.now }
    ensures { OnOk result (string_bytes out.new ≡ string_bytes out.old ++ report_text steps image.now origins.now) }
{
    writeln!(out, "steps {steps}")?;
    put_blocks(out, image, origins)
}
