//! The text of a tree, paths, copies of names, and the laws of calls.
use crate::same::expect;
use blk_base::Block;
use minix_layout::{DEFAULT_WIDTH, Name};
use std::alloc::Global;
use std::process::Abort;
use tree_model::{
    Directory, File, FileBlocks, Names, Node, Room, Tree, a_move_keeps_its_node,
    answers_tell_what_stands, asking_changes_nothing, calls_keep_files_sound,
    calls_keep_trees_plain, calls_map_by_writing, calls_stay_within_room,
    changes_are_of_size_or_blocks, examples_of_calls, histories_map_by_writing, is_dot,
    kind_and_size_are_refused, links_and_slots_count_names, nodes_have_paths, one_path_comes,
    one_path_goes, other_nodes_stay, paths_are_spelled, paths_move_along, put_tree, read_path,
    reads_give_what_stands, refusals_have_causes, same_metadata_chains, texts_list_paths,
    truncates_give_the_size, writes_fill_their_range, written_bytes_are_read_back,
};

fn name(rt: &impl Abort, bytes: &[u8]) -> Name {
    Name::of(bytes).expect(rt, "no name")
}

// These names, in this order, with the births that they lead to.
fn names_of(rt: &impl Abort, alloc: Global, rows: &[(&[u8], u64)]) -> Names {
    let mut names = Names::new(alloc);
    for (bytes, birth) in rows {
        let placed: Result<_, _> = names.put(name(rt, bytes), *birth);
        placed.expect(rt, "no place for a name");
    }
    names
}

fn directory(rt: &impl Abort, alloc: Global, names: &[(&[u8], u64)]) -> Node {
    Node::Directory(Directory {
        parent: 0,
        width: DEFAULT_WIDTH,
        slots: 2,
        names: names_of(rt, alloc, names),
    })
}

// Blocks 0, 2, 3 and 4 are mapped, and the size ends in block 3.
fn file(rt: &impl Abort, alloc: Global) -> Node {
    let mut blocks = FileBlocks::new(alloc);
    for (at, byte, last) in [(4, 9, 9), (3, 7, 7), (2, 0, 1), (0, b'a', b'a')] {
        let mut body = Block::fill(byte);
        body.set(1023, last);
        let placed: Result<_, _> = blocks.put(at, body);
        placed.expect(rt, "no place for a block");
    }
    Node::File(File {
        size: 3075,
        links: 2,
        blocks,
    })
}

const TEXT: &str = "dir /
file /a size 3075 links 2
block 0 1024x61
block 2 1023x00+1x01
block 3 3x07
dir /d
link /d/a /a
dir /d/e
other /x\\x20\\x5c\\xff mode 020644
";

// What a node of that tree is.
enum Kind {
    Other(u16),
    File,
    // A directory of these names, with the births that they lead to.
    Directory(&'static [(&'static [u8], u64)]),
}

// The nodes of the tree of that text, by their births.
static NODES: [(u64, Kind); 5] = [
    (4, Kind::Other(0o020644)),
    (3, Kind::Directory(&[])),
    (2, Kind::File),
    (1, Kind::Directory(&[(b"e", 3), (b"a", 2)])),
    (
        0,
        Kind::Directory(&[(b"x \\\xFF", 4), (b"d", 1), (b"a", 2)]),
    ),
];

fn node(rt: &impl Abort, alloc: Global, kind: &Kind) -> Node {
    match kind {
        Kind::Other(mode) => Node::Other(*mode),
        Kind::File => file(rt, alloc),
        Kind::Directory(names) => directory(rt, alloc, names),
    }
}

fn tree(rt: &impl Abort, alloc: Global) -> Tree {
    let mut tree = Tree::new(alloc);
    for (birth, kind) in &NODES {
        let placed: Result<_, _> = tree.put(*birth, node(rt, alloc, kind));
        placed.expect(rt, "no place for a node");
    }
    tree
}

#[test]
fn shows_a_tree(rt: HostRuntime) {
    let mut out = String::new(rt.alloc());
    put_tree(rt.alloc(), &mut out, tree(&rt, rt.alloc())).expect(&rt, "no text");
    expect(&rt, &"a tree", &out.as_str(), &TEXT);
    texts_list_paths();
}

fn shown(rt: &impl Abort, alloc: Global, text: &[u8]) -> String {
    let path = read_path(alloc, text).expect(rt, "no memory for a path");
    format!(in alloc; "{path:?}").expect(rt, "no text")
}

// Whether a text is a path whose last name is this one.
fn ends_in(rt: &impl Abort, alloc: Global, text: &[u8], end: &[u8]) -> bool {
    match read_path(alloc, text).expect(rt, "no memory for a path") {
        Some(path) => path
            .as_slice()
            .last()
            .is_some_and(|name| name.as_slice() == end),
        None => false,
    }
}

// Texts, and the paths that they are.
static PATHS: [(&str, &str); 10] = [
    ("/", "Some(Path { names: [] })"),
    ("/a", "Some(Path { names: [[97]] })"),
    ("/a/b", "Some(Path { names: [[97], [98]] })"),
    (
        "/Z_0/..-",
        "Some(Path { names: [[90, 95, 48], [46, 46, 45]] })",
    ),
    ("", "None"),
    ("a", "None"),
    ("/a/", "None"),
    ("//a", "None"),
    ("/.", "None"),
    ("/a b", "None"),
];

#[test]
fn reads_paths(rt: HostRuntime) {
    for (text, path) in &PATHS {
        let read = shown(&rt, rt.alloc(), text.as_bytes());
        expect(&rt, text, &read.as_str(), path);
    }
    assert!(rt; ends_in(&rt, rt.alloc(), b"/a/bc", b"bc"));
    assert!(rt; is_dot(b".") && is_dot(b"..") && !is_dot(b"..."));
    paths_are_spelled();
}

#[test]
fn copies_names(rt: HostRuntime) {
    let names = names_of(&rt, rt.alloc(), &[(b"b", 7), (b"a", 5), (b"b", 8)]);
    let copy = names.copy(rt.alloc()).expect(&rt, "no copy");
    let found = [b"a", b"b", b"c"].map(|bytes| copy.get(&name(&rt, bytes)));
    let blocks = FileBlocks::new(rt.alloc());
    let lengths = [copy.as_map().len(), blocks.as_map().len()];
    expect(
        &rt,
        &"names",
        &(found, lengths),
        &([Some(5), Some(8), None], [2, 0]),
    );
}

#[test]
fn laws_do_nothing(rt: HostRuntime) {
    same_metadata_chains();
    nodes_have_paths();
    examples_of_calls();
    calls_keep_trees_plain();
    refusals_have_causes();
    asking_changes_nothing();
    calls_stay_within_room();
    calls_map_by_writing();
    histories_map_by_writing();
    written_bytes_are_read_back();
    writes_fill_their_range();
    truncates_give_the_size();
    reads_give_what_stands();
    kind_and_size_are_refused();
    calls_keep_files_sound();
    changes_are_of_size_or_blocks();
    one_path_comes();
    one_path_goes();
    paths_move_along();
    a_move_keeps_its_node();
    links_and_slots_count_names();
    other_nodes_stay();
    answers_tell_what_stands();
    let room = Room {
        inodes: 32,
        capacity: 59,
    };
    assert!(rt; room.capacity == 59);
}
