//! The cache of pages.
ghost use Rattle.std.specs.Prelude.{◌≡◌, ◌≢◌, ◌↔◌, IfOk, OnErr, IsErr, Some, None, [], filter, length};
ghost use Rattle.std.specs.Option.{option_map};
ghost use Rattle.page_cache.specs.declared.cached_page.CachedPage.{CachedPage};
ghost use Rattle.page_cache.specs.declared.cached_page.PageState.TheVariants as page_states;
ghost use Rattle.page_cache.specs.Pages.{Cache, with_pages, page_at, put_page, drop_page, mark_page, next_in_file, next_unsent, unsent_of, dirty_page, key_of, is_dirty as page_is_dirty};
ghost use Rattle.page_cache.specs.Unsent.{with_room_for, unsent_keys};
ghost use Rattle.number_sets.specs.Sets as sets;

use crate::cached_page::{is_dirty, is_unsent};
use crate::frames::Frames;
use crate::gap_list::GapList;
use crate::keys::{drop_key, first_of, key_from, keys_in, list_key, put_key};
use crate::{CachedPage, PageState};
use blk_base::{Block, NoMemory};
use std::alloc::Global;
use std::marker::Model;

/// The page is new, and there is no room for one more.
#[derive(Clone, Copy, Debug, PartialEq, Eq)]
pub struct NoRoom;

/// The pages of files, in order of birth and index. Only `load`, `reserve` and `unsent_keys` take memory. A page whose
/// bytes are all equal takes no kilobyte of what was reserved.
#[derive(Drop)]
pub struct Pages {
    pages: Frames,
    // Birth and index of each page that is Dirty or Loose, in order.
    unsent: GapList<(u64, u32)>,
    // Of each that is Dirty.
    dirty: GapList<(u64, u32)>,
}

impl Model for Pages {
    ghost use Rattle.page_cache.specs.Pages.{Cache};
    ghost use Rattle.page_cache.specs.code.Pages.{IsCache};

    ghost Value = { Cache };

    ghost view = { λ p. p.pages };

    ghost invariant = { λ p. IsCache p.pages p.unsent.items p.unsent.capacity p.dirty.items p.dirty.capacity };
}

impl Pages {
    /// An empty cache with room for so many pages.
    pub fn load(alloc: Global, room: u32) -> Result<Pages, NoMemory>
        ensures { IfOk result (λ p. p ≡ record { room = room; pages = [] }) }
    {
        let room_size = room as usize;
        Ok(Pages {
            pages: Frames::load(alloc, room)?,
            unsent: GapList::with_capacity(alloc, room_size)?,
            dirty: GapList::with_capacity(alloc, room_size)?,
        })
    }

    /// Makes room for at least `more` pages besides those that are there.
    pub fn reserve(&mut self, _alloc: Global, more: u32) -> Result<(), NoMemory>
        ensures ok { IfOk result (λ u. self.new ≡ with_room_for more self.old) }
        ensures err { OnErr result (self.new ≡ self.old) }
    {
        let room = self.pages.room();
        let Some(wanted) = (self.pages.len() as u32).checked_add(more) else {
            return Err(NoMemory);
        };
        if wanted <= room {
            return Ok(());
        }
        self.unsent.reserve(wanted as usize)?;
        self.dirty.reserve(wanted as usize)?;
        self.pages.reserve(more, wanted)
    }

    /// Birth and index of each page, in order, that is not sent, or was sent without order; of one file, or of all.
    pub fn unsent_keys(&self, alloc: Global, file: Option<u64>) -> Result<Vec<(u64, u32)>, NoMemory>
        ensures { IfOk result (λ keys. keys.items ≡ unsent_keys file self.now.pages) }
    {
        keys_in(alloc, &self.unsent, file)
    }

    /// Keeps the bytes that call `call` gave a page, as not sent; it goes to this block. `NoRoom` where the page is
    /// new and the cache is full.
    pub fn set(
        &mut self,
        birth: u64,
        index: u32,
        block: u32,
        body: Block,
        call: u64,
    ) -> Result<(), NoRoom>
        ensures ok { IfOk result (λ u. self.new ≡ with_pages self.old (put_page self.old.pages
            (record { birth = birth; index = index; block = block; body = body; version = call; state = page_states.Dirty }))) }
        ensures no_room { IsErr result ↔ ((page_at self.old.pages birth index ≡ None) × (length self.old.pages ≡ self.old.room)) }
        ensures err { OnErr result (self.new ≡ self.old) }
    {
        let page = CachedPage {
            birth,
            index,
            block,
            body,
            version: call,
            state: PageState::Dirty,
        };
        self.pages.set(page)?;
        put_key(&mut self.unsent, birth, index);
        put_key(&mut self.dirty, birth, index);
        Ok(())
    }

    /// A copy of the bytes of a page, if it is there.
    pub fn body(&self, birth: u64, index: u32) -> Option<Block>
        ensures { result ≡ option_map (λ p. p.body) (page_at self.now.pages birth index) }
    {
        Some(self.page(birth, index)?.body)
    }

    /// How a page was sent, if it is there.
    pub fn state(&self, birth: u64, index: u32) -> Option<PageState>
        ensures { result ≡ option_map (λ p. p.state) (page_at self.now.pages birth index) }
    {
        Some(self.pages.head(birth, index)?.state)
    }

    /// The block of the volume that a page goes to, if it is there.
    pub fn block(&self, birth: u64, index: u32) -> Option<u32>
        ensures { result ≡ option_map (λ p. p.block) (page_at self.now.pages birth index) }
    {
        Some(self.pages.head(birth, index)?.block)
    }

    /// The call that changed a page last, if it is there.
    pub fn version(&self, birth: u64, index: u32) -> Option<u64>
        ensures { result ≡ option_map (λ p. p.version) (page_at self.now.pages birth index) }
    {
        Some(self.pages.head(birth, index)?.version)
    }

    /// Notes how a page was sent.
    pub fn mark(&mut self, birth: u64, index: u32, s: PageState)
        requires { page_at self.old.pages birth index ≢ None }
        ensures { self.new ≡ with_pages self.old (mark_page self.old.pages birth index s) }
    {
        self.pages.mark(birth, index, s);
        list_key(&mut self.unsent, birth, index, is_unsent(s));
        list_key(&mut self.dirty, birth, index, is_dirty(s));
    }

    /// Lets a page go, if it is there.
    pub fn drop_page(&mut self, birth: u64, index: u32)
        ensures { self.new ≡ with_pages self.old (drop_page self.old.pages birth index) }
    {
        self.pages.drop_page(birth, index);
        drop_key(&mut self.unsent, birth, index);
        drop_key(&mut self.dirty, birth, index);
    }

    /// The least index from `from` on at which a page of the file is not sent, or was sent without order.
    pub fn of_file(&self, birth: u64, from: u32) -> Option<u32>
        ensures { result ≡ option_map (λ p. p.index) (next_in_file self.now.pages birth from) }
    {
        let (file, index) = key_from(&self.unsent, birth, from)?;
        if file == birth { Some(index) } else { None }
    }

    /// The least birth and index, from these on, at which a page is not sent, or was sent without order.
    pub fn next_unsent(&self, birth: u64, from: u32) -> Option<(u64, u32)>
        ensures { result ≡ option_map key_of (next_unsent self.now.pages birth from) }
    {
        key_from(&self.unsent, birth, from)
    }

    /// A copy of the first page, in order, of one of the files with these births that is not sent, or was sent without
    /// order.
    pub fn unsent_of(&self, births: &[u64]) -> Option<CachedPage>
        requires { sets.IsRising births.now }
        ensures page { result ≡ unsent_of self.now.pages births.now }
        ensures found { (p : CachedPage) → unsent_of self.now.pages births.now ≡ Some p → page_at self.now.pages p.birth p.index ≡ Some p }
    {
        let (birth, index) = first_of(&self.unsent, births)?;
        self.pages.page(birth, index)
    }

    /// How many pages are Dirty.
    pub fn dirty_count(&self) -> usize
        ensures { result ≡ length (filter (λ p. page_is_dirty p.state) self.now.pages) }
    {
        self.dirty.len()
    }

    /// The Dirty page number `pick`, in order, as its birth and index.
    pub fn dirty(&self, pick: u32) -> Option<(u64, u32)>
        ensures { result ≡ option_map key_of (dirty_page self.now.pages pick) }
    {
        self.dirty.get(pick as usize)
    }

    /// A copy of the Dirty page number `pick`, in order.
    pub fn dirty_page(&self, pick: u32) -> Option<CachedPage>
        ensures page { result ≡ dirty_page self.now.pages pick }
        ensures found { (p : CachedPage) → dirty_page self.now.pages pick ≡ Some p → page_at self.now.pages p.birth p.index ≡ Some p }
    {
        let (birth, index) = self.dirty(pick)?;
        self.pages.page(birth, index)
    }

    /// A copy of a page, if it is there.
    pub fn page(&self, birth: u64, index: u32) -> Option<CachedPage>
        ensures { result ≡ page_at self.now.pages birth index }
    {
        self.pages.page(birth, index)
    }
}
