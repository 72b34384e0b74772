//! Tests of the cache of pages.
use crate::same::expect;
use blk_base::Block;
use page_cache::{PageState, Pages, next_page_is_least, pages_are_a_map, pages_stand_in_order};

// What is done with a page or asked of it, with the answer that is wanted. A body is filled with its first byte up to its last.
#[derive(Clone, Copy)]
enum Step {
    // The page's block, the two bytes of its body and its version, and whether there was room.
    Set(u32, u8, u8, u64, bool),
    Drop,
    // The page was sent so.
    Mark(PageState),
    Body(u8, u8),
    Block(u32),
    Version(u64),
    State(Option<PageState>),
    // The dirty page with this number, whatever its file.
    Dirty(u64, u32),
    // The unsent page from this one on.
    Unsent(u64, u32),
    // The unsent page of this file from this one on.
    OfFile(u32),
    // The first unsent page of this file.
    FirstOf(u32),
}

// Pages by their file and their index there. The cache has room for pages 9 of file 2, and 0 and 3 of file 7, and no other.
static ROWS: [(&str, &[(u64, u32, Step)]); 3] = [
    // Page 0 of file 7 goes, and page 1 comes in its place.
    (
        "pages in order",
        &[
            (7, 0, Step::Set(40, 1, 1, 1, true)),
            (2, 9, Step::Set(41, 2, 2, 2, true)),
            (7, 3, Step::Set(42, 3, 3, 3, true)),
            (7, 1, Step::Set(43, 4, 4, 4, false)),
            (2, 9, Step::Set(44, 5, 5, 5, true)),
            (2, 9, Step::Block(44)),
            (2, 9, Step::Version(5)),
            (0, 1, Step::Dirty(7, 0)),
            (2, 9, Step::Body(5, 5)),
            (7, 0, Step::Drop),
            (7, 0, Step::State(None)),
            (7, 3, Step::State(Some(PageState::Dirty))),
            (7, 1, Step::Set(45, 6, 6, 6, true)),
            (2, 10, Step::Unsent(7, 1)),
            (7, 2, Step::OfFile(3)),
        ],
    ),
    // A page is kept whose bytes are all equal but the last, and again one whose bytes are all equal.
    (
        "each byte",
        &[
            (7, 0, Step::Set(40, 1, 1, 1, true)),
            (2, 9, Step::Set(41, 2, 2, 2, true)),
            (7, 3, Step::Set(42, 3, 3, 3, true)),
            (7, 1, Step::Set(43, 4, 4, 4, false)),
            (2, 9, Step::Set(44, 5, 5, 5, true)),
            (2, 9, Step::Set(41, 5, 6, 6, true)),
            (2, 9, Step::Body(5, 6)),
            (7, 0, Step::Body(1, 1)),
            (2, 9, Step::Set(41, 7, 7, 7, true)),
            (2, 9, Step::Body(7, 7)),
        ],
    ),
    // A page that was sent without order is next still. One that goes leaves the bytes of the others, and is no longer dirty.
    (
        "what was sent and what goes",
        &[
            (7, 0, Step::Set(40, 1, 1, 1, true)),
            (2, 9, Step::Set(41, 2, 3, 2, true)),
            (7, 3, Step::Set(42, 3, 3, 3, true)),
            (7, 3, Step::Mark(PageState::Loose)),
            (7, 1, Step::OfFile(3)),
            (7, 0, Step::FirstOf(0)),
            (7, 3, Step::Drop),
            (2, 9, Step::Body(2, 3)),
            (2, 9, Step::Drop),
            (0, 0, Step::Dirty(7, 0)),
        ],
    ),
];

fn body_of(byte: u8, last: u8) -> Block {
    let mut body = Block::fill(byte);
    body.set(1023, last);
    body
}

fn has_body(pages: &Pages, birth: u64, index: u32, wanted: &Block) -> bool {
    match pages.body(birth, index) {
        Some(body) => body == *wanted,
        None => false,
    }
}

// Notes how the page was sent, and tells whether it was there.
fn is_marked(pages: &mut Pages, birth: u64, index: u32, state: PageState) -> bool {
    if pages.state(birth, index).is_none() {
        return false;
    }
    pages.mark(birth, index, state);
    true
}

fn is_first(pages: &Pages, birth: u64, index: u32) -> bool {
    match pages.unsent_of(&[birth]) {
        Some(page) => page.index == index,
        None => false,
    }
}

// Does the step of a page, and tells whether it came as wanted.
fn does(pages: &mut Pages, birth: u64, index: u32, step: Step) -> bool {
    match step {
        Step::Set(block, byte, last, version, has_room) => {
            let body = body_of(byte, last).copy();
            pages.set(birth, index, block, body, version).is_ok() == has_room
        }
        Step::Drop => {
            pages.drop_page(birth, index);
            true
        }
        Step::Mark(state) => is_marked(pages, birth, index, state),
        Step::Body(byte, last) => has_body(pages, birth, index, &body_of(byte, last)),
        Step::Block(block) => pages.block(birth, index) == Some(block),
        Step::Version(version) => pages.version(birth, index) == Some(version),
        Step::State(state) => pages.state(birth, index) == state,
        Step::Dirty(file, page) => pages.dirty(index) == Some((file, page)),
        Step::Unsent(file, page) => pages.next_unsent(birth, index) == Some((file, page)),
        Step::OfFile(page) => pages.of_file(birth, index) == Some(page),
        Step::FirstOf(page) => is_first(pages, birth, page),
    }
}

#[test]
fn keeps_pages_in_order(rt: HostRuntime) {
    pages_are_a_map();
    pages_stand_in_order();
    next_page_is_least();
    for (name, steps) in &ROWS {
        let mut pages = Pages::load(rt.alloc(), 3).expect(&rt, "no pages");
        for (at, (birth, index, step)) in steps.iter().enumerate() {
            expect(&rt, name, at, does(&mut pages, *birth, *index, *step));
        }
    }
}
