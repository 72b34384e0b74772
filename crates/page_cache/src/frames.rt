//! Pages in frames.
ghost use Rattle.std.specs.Prelude.{◌≡◌, ◌≢◌, ◌↔◌, ◌+◌, ◌≤◌, length, IfOk, OnErr, IsErr, None, []};
ghost use Rattle.std.specs.Option.{option_map};
ghost use Rattle.page_cache.specs.declared.cached_page.CachedPage.{CachedPage};
ghost use Rattle.page_cache.specs.Pages.{Cache, with_pages, page_at, put_page, drop_page, mark_page};
ghost use Rattle.page_cache.specs.Unsent.{with_room_for};

use crate::gap_list::GapList;
use crate::keys::find_key;
use crate::page_store::{PageHead, PageStore};
use crate::{CachedPage, NoRoom, PageState};
use blk_base::NoMemory;
use std::alloc::Global;
use std::marker::Model;

/// The pages, each in a frame that it keeps until it goes. The frame then serves the next new page. What is asked of a
/// page's head copies no body.
#[derive(Drop)]
pub struct Frames {
    frames: PageStore,
    // Birth and index of each page, in order.
    keys: GapList<(u64, u32)>,
    // The frame of each page, in the same order.
    places: GapList<usize>,
    room: u32,
}

impl Model for Frames {
    ghost use Rattle.page_cache.specs.Pages.{Cache};
    ghost use Rattle.page_cache.specs.code.Frames.{pages_in, AreFrames};

    ghost Value = { Cache };

    ghost view = { λ f. record { room = f.room; pages = pages_in f.frames f.places.items } };

    ghost invariant = { λ f. AreFrames f.frames f.places.items f.places.capacity f.keys.items f.keys.capacity f.room };
}

impl Frames {
    /// No page yet, and so many frames.
    pub fn load(alloc: Global, room: u32) -> Result<Frames, NoMemory>
        ensures { IfOk result (λ f. f ≡ record { room = room; pages = [] }) }
    {
        let room_size = room as usize;
        Ok(Frames {
            frames: PageStore::with_capacity(alloc, room_size)?,
            keys: GapList::with_capacity(alloc, room_size)?,
            places: GapList::with_capacity(alloc, room_size)?,
            room,
        })
    }

    /// How many pages there are.
    pub fn len(&self) -> usize
        ensures { result ≡ length self.now.pages }
    {
        self.places.len()
    }

    /// How many pages there is room for.
    pub fn room(&self) -> u32
        ensures { result ≡ self.now.room }
    {
        self.room
    }

    /// Makes frames for `more` pages besides those that are there, which are `wanted` pages then.
    pub fn reserve(&mut self, more: u32, wanted: u32) -> Result<(), NoMemory>
        requires { wanted ≡ length self.old.pages + more }
        ensures ok { IfOk result (λ u. self.new ≡ record { room = wanted; pages = self.old.pages }) }
        ensures err { OnErr result (self.new ≡ self.old) }
    {
        self.frames.reserve(more as usize, wanted as usize)?;
        self.keys.reserve(more as usize)?;
        self.places.reserve(more as usize)?;
        self.room = wanted;
        Ok(())
    }

    /// A page comes in the place of the one with its birth and index, or into a frame that is free. `NoRoom` where
    /// the page is new and none is.
    pub fn set(&mut self, page: CachedPage) -> Result<(), NoRoom>
        ensures ok { IfOk result (λ u. self.new ≡ with_pages self.old (put_page self.old.pages page)) }
        ensures no_room { IsErr result ↔ ((page_at self.old.pages page.birth page.index ≡ None) × (length self.old.pages ≡ self.old.room)) }
        ensures err { OnErr result (self.new ≡ self.old) }
        ensures within { length self.new.pages ≤ self.new.room }
    {
        let (birth, index) = (page.birth, page.index);
        match find_key(&self.keys, birth, index) {
            Ok(at) => {
                self.frames.set(self.places.at(at), page);
                Ok(())
            }
            Err(at) => {
                if self.places.len() >= self.room as usize {
                    return Err(NoRoom);
                }
                let frame = self.frames.insert(page);
                self.keys.insert(at, (birth, index));
                self.places.insert(at, frame);
                Ok(())
            }
        }
    }

    /// Notes how a page was sent.
    pub fn mark(&mut self, birth: u64, index: u32, s: PageState)
        requires { page_at self.old.pages birth index ≢ None }
        ensures { self.new ≡ with_pages self.old (mark_page self.old.pages birth index s) }
    {
        if let Ok(at) = find_key(&self.keys, birth, index) {
            self.frames.mark(self.places.at(at), s);
        }
    }

    /// Lets a page go, if it is there.
    pub fn drop_page(&mut self, birth: u64, index: u32)
        ensures { self.new ≡ with_pages self.old (drop_page self.old.pages birth index) }
    {
        if let Ok(at) = find_key(&self.keys, birth, index) {
            self.frames.remove(self.places.at(at));
            self.keys.remove(at);
            self.places.remove(at);
        }
    }

    /// The head of a page, if it is there.
    pub fn head(&self, birth: u64, index: u32) -> Option<PageHead>
        ensures block { option_map (λ h. h.block) result ≡ option_map (λ p. p.block) (page_at self.now.pages birth index) }
        ensures version { option_map (λ h. h.version) result ≡ option_map (λ p. p.version) (page_at self.now.pages birth index) }
        ensures state { option_map (λ h. h.state) result ≡ option_map (λ p. p.state) (page_at self.now.pages birth index) }
    {
        match find_key(&self.keys, birth, index) {
            Ok(at) => self.frames.head(self.places.at(at)),
            Err(_) => None,
        }
    }

    /// A page, if it is there.
    pub fn page(&self, birth: u64, index: u32) -> Option<CachedPage>
        ensures { result ≡ page_at self.now.pages birth index }
    {
        match find_key(&self.keys, birth, index) {
            Ok(at) => self.frames.get(self.places.at(at)),
            Err(_) => None,
        }
    }
}
