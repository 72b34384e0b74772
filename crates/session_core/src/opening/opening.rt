//! The session.
ghost use Rattle.minix_layout.specs.declared.limits.TheConstants.{LEAST_JOURNAL, MOST_JOURNAL};
ghost use Rattle.std.specs.Prelude.{◌≡◌, ◌+◌, ◌<◌, ◌≤◌, ◌^◌, ℕ, [], IfOk, length, slice_index_or};
ghost use Rattle.minix_layout.specs.Geometry.{geometry_made};
ghost use Rattle.minix_layout.specs.Widths.{IsWidth};
ghost use Rattle.minix_layout.specs.Words.{first_zone};
ghost use Rattle.mount_make.specs.Made.{made_image};
ghost use Rattle.session_core.specs.opening.Opened.{opened_now};

use crate::opening::programs::host_programs;
use crate::opening::volume::made_volume;
use blk_base::{Image, NoMemory};
use host_core::Host;
use journal_ring::Ring;
use minix_layout::Geometry;
use mount_make::{make_volume, new_journal};
use page_cache::Pages;
use std::alloc::Global;

/// The image of a new volume with its journal, and the host of a session on it.
#[derive(Drop)]
pub struct OpenedSession {
    pub image: Image,
    pub host: Host,
}

/// Opens a session on a new image of these sizes, with names of at most `width` bytes, 14 or 30, whose journal has tags
/// of 64 bits where `wide`, of at most `limit` requests, with the calls of each thread.
pub fn open_session(
    alloc: Global,
    inodes: u16,
    zones: u16,
    journal: u32,
    width: u16,
    wide: bool,
    limit: u64,
    programs: &line_grammar::calls::Programs,
) -> Result<OpenedSession, NoMemory>
    requires some_inode { 1 ≤ inodes }
    requires width { IsWidth width }
    requires some_data { first_zone inodes zones < zones }
    requires least { LEAST_JOURNAL ≤ journal }
    requires most { journal ≤ MOST_JOURNAL }
    requires limit { limit + 2 < 2 ^ 32 }
    requires threads { length programs.now < 2 ^ 32 }
    requires short { (i : ℕ) → length (slice_index_or programs.now i []) < 2 ^ 32 }
    ensures image { IfOk result (λ o. o.image ≡ made_image (geometry_made inodes zones width) journal wide) }
    ensures host { IfOk result (λ o. o.host ≡ opened_now (geometry_made inodes zones width) journal wide limit programs.now) }
{
    let (Ok(g), Ok(image)) = (
        Geometry::make(inodes, zones, width),
        make_volume(alloc, inodes, zones, journal, width, wide),
    ) else {
        return Err(NoMemory);
    };
    let volume = made_volume(alloc, &g, journal, wide, &image)?;
    let ring = Ring::make(alloc, &new_journal(journal, wide), limit)?;
    let pages = Pages::load(alloc, zones.into())?;
    let programs = host_programs(alloc, programs)?;
    let host = Host::make(alloc, volume, pages, ring, programs, limit)?;
    Ok(OpenedSession { image, host })
}
