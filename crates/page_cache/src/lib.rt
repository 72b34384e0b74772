//! The cached pages of files, and how each was sent.
//!
//! A page is a block of a file, named by the birth of its file and its index there. A changed page is unsent, until
//! it is sent without order or with it; a call that takes pages to the device asks for the next one that is left.
//!
//! `pages` has the cache: `frames` keep the pages where they are, and lists of `keys` have them in order, all of them
//! and those that are unsent. `page_store` has what is in the frames, and the bodies apart (`page_body`): one whose
//! bytes are all equal takes no kilobyte. `cached_page` is a page, and `laws` what a list of pages says as a map.
//!
//! Stands on `blk_base`, whose `Block` has the bytes of a page, and on `number_sets`.
#![tactic(auto)]

mod cached_page;
mod frames;
mod gap_list;
mod keys;
mod laws;
mod page_body;
mod page_store;
mod pages;

pub use cached_page::{CachedPage, PageState};
pub use laws::{next_page_is_least, pages_are_a_map, pages_stand_in_order};
pub use pages::{NoRoom, Pages};
