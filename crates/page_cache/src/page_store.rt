//! Frames for pages, with their bodies apart.
ghost use Rattle.std.specs.Prelude.{◌≡◌, ◌+◌, ◌≤◌, [], None, IfOk, OnOk, IsSome};
ghost use Rattle.std.specs.Option.{option_map};
ghost use Rattle.slab.specs.Slab.{get, slab_len, HasRoomFor, Updates};
ghost use Rattle.page_cache.specs.Pages.{marked};

use crate::page_body::{PageBody, body, keep, release};
use crate::{CachedPage, PageState};
use blk_base::{Block, NoMemory};
use slab::Slab;
use std::alloc::Global;
use std::marker::Model;

/// What a frame has of a page: all but its bytes, and where these are.
#[derive(Clone, Copy, Debug)]
pub struct PageHead {
    pub birth: u64,
    pub index: u32,
    pub block: u32,
    pub version: u64,
    pub state: PageState,
    pub body: PageBody,
}

/// Frames, each with a page or free. A body whose bytes are all equal takes no kilobyte; each other has a slot of its
/// own until it goes. All is reserved, but memory that was never written costs none.
#[derive(Drop)]
pub struct PageStore {
    heads: Slab<PageHead>,
    bodies: Slab<Block>,
    // How many frames there are, and how many slots at least.
    room: usize,
}

// Seen as if each page stood in its frame as a whole.
impl Model for PageStore {
    ghost use Rattle.slab.specs.Slab.{Slab as Slots};
    ghost use Rattle.page_cache.specs.declared.cached_page.CachedPage.{CachedPage};
    ghost use Rattle.page_cache.specs.code.Store.{stored, AreStored};

    ghost Value = { Slots CachedPage };

    ghost view = { λ s. stored s.bodies s.heads s.room };

    ghost invariant = { λ s. AreStored s.bodies s.heads s.room };
}

// A page's head, with its body kept so.
fn head_of(page: &CachedPage, body: PageBody) -> PageHead
    ensures { result ≡ record { birth = page.now.birth; index = page.now.index; block = page.now.block; version = page.now.version; state = page.now.state; body = body } }
{
    PageHead {
        birth: page.birth,
        index: page.index,
        block: page.block,
        version: page.version,
        state: page.state,
        body,
    }
}

impl PageStore {
    /// No page yet, and so many frames.
    pub fn with_capacity(alloc: Global, room: usize) -> Result<PageStore, NoMemory>
        ensures empty { IfOk result (λ s. s.slots ≡ []) }
        ensures capacity { IfOk result (λ s. room ≤ s.capacity) }
    {
        Ok(PageStore {
            heads: Slab::with_capacity(alloc, room)?,
            bodies: Slab::with_capacity(alloc, room)?,
            room,
        })
    }

    /// Makes frames for `more` pages besides those that are there, which are `wanted` pages then.
    pub fn reserve(&mut self, more: usize, wanted: usize) -> Result<(), NoMemory>
        requires { wanted ≡ slab_len self.old + more }
        ensures room { OnOk result (wanted ≤ self.new.capacity) }
        ensures capacity { self.old.capacity ≤ self.new.capacity }
        ensures rest_kept { self.new ≡ record self.old { capacity = self.new.capacity } }
    {
        self.heads.reserve(more)?;
        self.bodies.reserve(wanted - self.bodies.len())?;
        if wanted > self.room {
            self.room = wanted;
        }
        Ok(())
    }

    /// A page comes into a frame that is free, and keeps it until it goes.
    pub fn insert(&mut self, page: CachedPage) -> usize
        requires { HasRoomFor self.old 1 }
        ensures was_vacant { get self.old result ≡ None }
        ensures updates { Updates self.old self.new result (Some page) }
        ensures len { slab_len self.new ≡ slab_len self.old + 1 }
        ensures capacity { self.new.capacity ≡ self.old.capacity }
    {
        let mut head = head_of(&page, PageBody::Full(0));
        head.body = keep(&mut self.bodies, page.body);
        self.heads.insert_reserved(head)
    }

    /// A page comes in the place of the one in this frame.
    pub fn set(&mut self, key: usize, page: CachedPage)
        requires { IsSome (get self.old key) }
        ensures updates { Updates self.old self.new key (Some page) }
        ensures len { slab_len self.new ≡ slab_len self.old }
        ensures capacity { self.new.capacity ≡ self.old.capacity }
    {
        let mut head = head_of(&page, PageBody::Full(0));
        release(&mut self.bodies, self.heads[key].body);
        head.body = keep(&mut self.bodies, page.body);
        self.heads[key] = head;
    }

    /// Notes how the page in this frame was sent.
    pub fn mark(&mut self, key: usize, s: PageState)
        requires { IsSome (get self.old key) }
        ensures updates { Updates self.old self.new key (option_map (λ p. marked p s) (get self.old key)) }
        ensures len { slab_len self.new ≡ slab_len self.old }
        ensures capacity { self.new.capacity ≡ self.old.capacity }
    {
        self.heads[key].state = s;
    }

    /// The page in this frame goes.
    pub fn remove(&mut self, key: usize)
        requires { IsSome (get self.old key) }
        ensures updates { Updates self.old self.new key None }
        ensures len { slab_len self.new + 1 ≡ slab_len self.old }
        ensures capacity { self.new.capacity ≡ self.old.capacity }
    {
        let head = self.heads.remove(key);
        release(&mut self.bodies, head.body);
    }

    /// The head of the page in this frame, if there is one.
    pub fn head(&self, key: usize) -> Option<PageHead>
        ensures block { option_map (λ h. h.block) result ≡ option_map (λ p. p.block) (get self.now key) }
        ensures version { option_map (λ h. h.version) result ≡ option_map (λ p. p.version) (get self.now key) }
        ensures state { option_map (λ h. h.state) result ≡ option_map (λ p. p.state) (get self.now key) }
    {
        self.heads.get(key).copied()
    }

    /// The page in this frame, if there is one.
    pub fn get(&self, key: usize) -> Option<CachedPage>
        ensures { result ≡ get self.now key }
    {
        let head = self.heads.get(key).copied()?;
        Some(CachedPage {
            birth: head.birth,
            index: head.index,
            block: head.block,
            body: body(&self.bodies, head.body),
            version: head.version,
            state: head.state,
        })
    }
}
