//! What is kept of a page.
ghost use Rattle.std.specs.Prelude.{◌≡◌};
ghost use Rattle.page_cache.specs.Pages.{is_unsent, is_dirty};

use blk_base::Block;

/// How a page was sent.
#[derive(Clone, Copy, Debug, PartialEq, Eq)]
pub enum PageState {
    /// As it stands in the image.
    Clean,
    /// Not sent.
    Dirty,
    /// Sent, but without order.
    Loose,
    /// Sent in order.
    Firm,
}

/// A page: the birth of its file and its index there, the block of the volume that it goes to, its bytes, the call
/// that changed it last, and how it was sent.
#[derive(Drop, Debug)]
pub struct CachedPage {
    pub birth: u64,
    pub index: u32,
    pub block: u32,
    pub body: Block,
    pub version: u64,
    pub state: PageState,
}

// Whether no order holds the page yet.
pub fn is_unsent(state: PageState) -> bool
    ensures { result ≡ is_unsent state }
{
    match state {
        PageState::Dirty | PageState::Loose => true,
        PageState::Clean | PageState::Firm => false,
    }
}

pub fn is_dirty(state: PageState) -> bool
    ensures { result ≡ is_dirty state }
{
    match state {
        PageState::Dirty => true,
        PageState::Clean | PageState::Loose | PageState::Firm => false,
    }
}
