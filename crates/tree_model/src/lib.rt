//! Trees of directories and files, the paths that lead through them, and their text.
//!
//! A tree has its nodes by their births: the root has birth 0, and a node that was read of a volume has the
//! number of its inode. `node` has the parts of a tree, `maps` the maps in them, `path` reads paths, `path_text` takes
//! their names from the text with no list of them, and `text` writes the text of a tree. `call` has the calls on a tree
//! and their replies, and `lists` the lists in them.
//!
//! `specs/Trees.antt` says what a path leads to and when two trees have the same metadata, `specs/Text.antt` has the
//! text as it is made, `specs/laws/Listing.antt` the names of a tree in its order. `specs/Calls.antt` has the row of each
//! call: what refuses it, in order, and what it does else; `specs/Causes.antt` why a call is refused,
//! `specs/Plain.antt` the trees that calls keep, `specs/Histories.antt` what a list of calls writes,
//! `specs/CallWords.antt` the words for what a call did to files, names and links, and `specs/laws/Examples.antt`
//! sessions with their replies. `laws`, `call_laws`, `file_laws` and `name_laws` name the laws, whose proofs stand in
//! `proofs/`.
//!
//! Stands on `minix_layout` for the names of 1 to 30 bytes, `blk_base` for the bodies of files, and
//! `byte_text`.
#![tactic(auto)]

mod call;
mod call_laws;
mod file_laws;
mod laws;
mod lists;
mod maps;
mod name_laws;
mod node;
mod path;
mod path_text;
mod text;

pub use call::{Call, Reply, Room};
pub use call_laws::{
    asking_changes_nothing, calls_keep_trees_plain, calls_map_by_writing, calls_stay_within_room,
    histories_map_by_writing, refusals_have_causes, written_bytes_are_read_back,
};
pub use file_laws::{
    calls_keep_files_sound, changes_are_of_size_or_blocks, kind_and_size_are_refused,
    reads_give_what_stands, truncates_give_the_size, writes_fill_their_range,
};
pub use laws::{examples_of_calls, nodes_have_paths, same_metadata_chains, texts_list_paths};
pub use lists::{ByteList, NameList};
pub use maps::{Body, FileBlocks, Names};
pub use name_laws::{
    a_move_keeps_its_node, answers_tell_what_stands, links_and_slots_count_names, one_path_comes,
    one_path_goes, other_nodes_stay, paths_move_along,
};
pub use node::{Directory, File, Node, Tree};
pub use path::{Path, is_dot, paths_are_spelled, read_path};
pub use path_text::{first_name, names_of, short_name};
pub use text::{put_name, put_tree};
