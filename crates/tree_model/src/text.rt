//! The text of a tree.
ghost use Rattle.std.specs.Prelude.{◌≡◌, ◌+◌, ◌<◌, ◌≤◌, ◌++◌, [], ◌∷◌, codes, reverse, map, IfOk, OnOk, MatchOption, Some};
ghost use Rattle.std.specs.Option.{option_map_or};
ghost use Rattle.std.specs.Fmt.{decimal};
ghost use Rattle.std.specs.String.{string_bytes};
ghost use Rattle.byte_text.specs.Runs.{runs_text};
ghost use Rattle.tree_model.specs.code.TextWalk.{with_names, text_left, names_left};
ghost use Rattle.tree_model.specs.Text.{octal_digit, mode_text, byte_text, name_text, path_text, below, block_text, blocks_text, directory_line, file_line, file_lines, other_line, link_line, first_path, file_met, tree_text};

use crate::{File, FileBlocks, Names, Node, Tree};
use blk_base::{Block, NoMemory};
use byte_text::{put_hex, put_runs};
use minix_layout::Name;
use std::alloc::{AllocError, Global};
use std::collections::BTreeMap;
use std::marker::Model;

// ---- paths

fn put_byte(out: &mut String, b: u8) -> Result<(), AllocError>
    ensures { OnOk result (string_bytes out.new ≡ string_bytes out.old ++ byte_text b) }
{
    if b >= 33 && b <= 126 && b != b'\\' {
        return out.push(b as char);
    }
    out.push_str("\\x")?;
    put_hex(out, b)
}

/// Appends a name. A byte that is no printable ASCII, a space and the backslash are written as `\xVV`.
pub fn put_name(out: &mut String, name: &[u8]) -> Result<(), AllocError>
    ensures { OnOk result (string_bytes out.new ≡ string_bytes out.old ++ name_text name.now) }
{
    for b in name {
        put_byte(out, *b)?;
    }
    Ok(())
}

// The root's path is put together from no names.
fn put_path(out: &mut String, path: &str) -> Result<(), AllocError>
    ensures { OnOk result (string_bytes out.new ≡ string_bytes out.old ++ path_text path.now) }
{
    if path.is_empty() {
        out.push_str("/")
    } else {
        out.push_str(path)
    }
}

#[tactic(auto, using(std::proofs::lemmas::List::append_assoc))]
fn path_below(alloc: Global, path: &str, name: &Name) -> Result<String, AllocError>
    ensures { IfOk result (λ s. string_bytes s ≡ path.now ++ codes "/" ++ name_text name.now) }
{
    let mut below = String::from_str(alloc, path)?;
    below.push_str("/")?;
    put_name(&mut below, name.as_slice())?;
    Ok(below)
}

// ---- lines

#[tactic(auto, using(std::proofs::lemmas::List::append_assoc))]
fn put_directory(out: &mut String, path: &str) -> Result<(), AllocError>
    ensures { OnOk result (string_bytes out.new ≡ string_bytes out.old ++ directory_line path.now) }
{
    out.push_str("dir ")?;
    put_path(out, path)?;
    out.push_str("\n")
}

#[tactic(auto, using(std::proofs::lemmas::List::append_assoc))]
fn put_file_line(out: &mut String, path: &str, file: &File) -> Result<(), AllocError>
    ensures { OnOk result (string_bytes out.new ≡ string_bytes out.old ++ file_line path.now file.now) }
{
    let size = file.size;
    let links = file.links;
    out.push_str("file ")?;
    put_path(out, path)?;
    writeln!(out, " size {size} links {links}")
}

#[tactic(auto, using(std::proofs::lemmas::List::append_assoc))]
fn put_block_line(out: &mut String, index: u32, bytes: &[u8]) -> Result<(), AllocError>
    ensures { OnOk result (string_bytes out.new ≡ string_bytes out.old ++ (codes "block " ++ decimal index ++ codes " " ++ runs_text bytes.now ++ codes "\n")) }
{
    write!(out, "block {index} ")?;
    put_runs(out, bytes)?;
    out.push_str("\n")
}

// The block's bytes up to the size; nothing of a block past it.
fn put_block(out: &mut String, size: u32, index: u32, block: &Block) -> Result<(), AllocError>
    ensures { OnOk result (string_bytes out.new ≡ string_bytes out.old ++ block_text size (index, block.now)) }
{
    let start = 1024 * u64::from(index);
    let size = u64::from(size);
    if start >= size {
        return Ok(());
    }
    let len = (size - start).min(1024) as usize;
    put_block_line(out, index, &block.as_slice()[..len])
}

fn put_blocks(out: &mut String, size: u32, blocks: &FileBlocks) -> Result<(), AllocError>
    ensures { OnOk result (string_bytes out.new ≡ string_bytes out.old ++ blocks_text size blocks.now) }
{
    for (index, body) in blocks.as_map() {
        put_block(out, size, *index, body.block())?;
    }
    Ok(())
}

#[tactic(auto, using(std::proofs::lemmas::List::append_assoc))]
fn put_file(out: &mut String, path: &str, file: &File) -> Result<(), AllocError>
    ensures { OnOk result (string_bytes out.new ≡ string_bytes out.old ++ file_lines path.now file.now) }
{
    put_file_line(out, path, file)?;
    put_blocks(out, file.size, &file.blocks)
}

fn octal_char(n: u16) -> char
    ensures value { result ≡ octal_digit n }
    ensures ascii { result < 128 }
{
    (b'0' + (n % 8) as u8) as char
}

#[tactic(auto, using(std::proofs::lemmas::List::append_assoc))]
fn put_mode(out: &mut String, mode: u16) -> Result<(), AllocError>
    ensures { OnOk result (string_bytes out.new ≡ string_bytes out.old ++ mode_text mode) }
{
    out.push(octal_char(mode / 0o100000))?;
    out.push(octal_char(mode / 0o10000))?;
    out.push(octal_char(mode / 0o1000))?;
    out.push(octal_char(mode / 0o100))?;
    out.push(octal_char(mode / 0o10))?;
    out.push(octal_char(mode))
}

#[tactic(auto, using(std::proofs::lemmas::List::append_assoc))]
fn put_other(out: &mut String, path: &str, mode: u16) -> Result<(), AllocError>
    ensures { OnOk result (string_bytes out.new ≡ string_bytes out.old ++ other_line path.now mode) }
{
    out.push_str("other ")?;
    put_path(out, path)?;
    out.push_str(" mode ")?;
    put_mode(out, mode)?;
    out.push_str("\n")
}

// ---- the walk

// A name that is still to be shown.
#[derive(Drop)]
struct Place {
    path: String,
    birth: u64,
}

impl Model for Place {
    ghost use Rattle.std.specs.String.{string_bytes};
    ghost use Rattle.tree_model.specs.Text.{Named};

    ghost Value = { Named };

    ghost view = { λ p. record { path = string_bytes p.path; birth = p.birth } };
}

// Puts the names of a directory before the others. The next name stands last.
fn push_names(
    alloc: Global,
    places: &mut Vec<Place>,
    path: &str,
    names: &Names,
) -> Result<(), NoMemory>
    ensures { OnOk result (reverse places.new.items ≡ below path.now names.now ++ reverse places.old.items) }
{
    for (name, birth) in names.as_map().iter().rev() {
        places.push(Place {
            path: path_below(alloc, path, name)?,
            birth: *birth,
        })?;
    }
    Ok(())
}

// The nodes that were not met yet, the first paths of the files that were, and the names that are still
// to be shown, the next one last.
#[derive(Drop)]
struct Walk {
    left: BTreeMap<u64, Node>,
    firsts: BTreeMap<u64, String>,
    places: Vec<Place>,
}

impl Model for Walk {
    ghost use Rattle.std.specs.Prelude.{map, reverse};
    ghost use Rattle.std.specs.String.{string_bytes};
    ghost use Rattle.tree_model.specs.code.TextWalk.{Walking};

    ghost Value = { Walking };

    ghost view = { λ w. record { showing = record { left = w.left.entries; firsts = map (λ e. (e.0, string_bytes e.1)) w.firsts.entries }; names = reverse w.places.items } };
}

impl Walk {
    fn start(alloc: Global, tree: Tree) -> Result<Walk, NoMemory>
        ensures { IfOk result (λ w. text_left w ≡ tree_text tree) }
    {
        let mut places = Vec::new(alloc);
        places.push(Place {
            path: String::new(alloc),
            birth: 0,
        })?;
        Ok(Walk {
            left: tree.nodes,
            firsts: BTreeMap::new(alloc),
            places,
        })
    }

    fn next(&mut self) -> Option<Place>
        ensures { MatchOption result (self.old.names ≡ []) (λ p. self.old ≡ with_names (p ∷ []) self.new) }
    {
        self.places.pop()
    }

    fn put_first(&self, out: &mut String, birth: u64) -> Result<(), AllocError>
        ensures { OnOk result (string_bytes out.new ≡ string_bytes out.old ++ first_path self.now.showing birth) }
    {
        match self.firsts.get(&birth) {
            Some(path) => put_path(out, path.as_str()),
            None => Ok(()),
        }
    }

    #[tactic(auto, using(std::proofs::lemmas::List::append_assoc))]
    fn put_link(&self, out: &mut String, path: &str, birth: u64) -> Result<(), AllocError>
        ensures { OnOk result (string_bytes out.new ≡ string_bytes out.old ++ link_line path.now (first_path self.now.showing birth)) }
    {
        out.push_str("link ")?;
        put_path(out, path)?;
        out.push_str(" ")?;
        self.put_first(out, birth)?;
        out.push_str("\n")
    }

    fn meet_file(&mut self, place: Place) -> Result<(), NoMemory>
        ensures { OnOk result (self.new ≡ record { showing = file_met self.old.showing place; names = self.old.names }) }
    {
        let _ = self.left.remove(&place.birth);
        self.firsts.insert(place.birth, place.path)?;
        Ok(())
    }

    // Appends the lines of a name. A directory's names are shown next.
    fn show(&mut self, alloc: Global, out: &mut String, place: Place) -> Result<(), NoMemory>
        ensures text { OnOk result (string_bytes out.new ++ text_left self.new ≡ string_bytes out.old ++ text_left (with_names (place ∷ []) self.old)) }
        ensures fewer { OnOk result (names_left self.new ≤ names_left self.old) }
    {
        let path = place.path.as_str();
        match self.left.get(&place.birth) {
            None => self.put_link(out, path, place.birth)?,
            Some(Node::Other(mode)) => put_other(out, path, *mode)?,
            Some(Node::File(file)) => {
                put_file(out, path, file)?;
                self.meet_file(place)?;
            }
            Some(Node::Directory(directory)) => {
                put_directory(out, path)?;
                push_names(alloc, &mut self.places, path, &directory.names)?;
                let _ = self.left.remove(&place.birth);
            }
        }
        Ok(())
    }
}

/// Appends the text of a tree, a line for each name: each directory before its entries, and these in the order
/// of the bytes of their names. It uses the tree up.
///
/// | line | of |
/// |---|---|
/// | `dir PATH` | a directory |
/// | `file PATH size S links L` | a file at its first name, and then the lines of its mapped blocks below the size |
/// | `block I RUNS` | such a block, with the runs of its bytes up to the size |
/// | `link PATH FIRST` | a file at a later name, with its first |
/// | `other PATH mode M` | anything else, with its mode in six octal digits |
///
/// In a path, a byte of a name outside 0x21 to 0x7E, and the backslash, is `\xVV`.
pub fn put_tree(alloc: Global, out: &mut String, tree: Tree) -> Result<(), NoMemory>
    ensures { OnOk result (string_bytes out.new ≡ string_bytes out.old ++ tree_text tree) }
{
    let mut walk = Walk::start(alloc, tree)?;
    while let Some(place) = walk.next() {
        walk.show(alloc, out, place)?;
    }
    Ok(())
}
