//! What a call makes of the cached pages, and of the owners of zones.
ghost use Rattle.std.specs.Prelude.{◌≡◌, ◌+◌, ◌≤◌, length};
ghost use Rattle.page_cache.specs.Pages.{with_pages};
ghost use Rattle.host_core.specs.effects.Effects.{dropped_pages, written_pages, taken_zones};

use blk_base::BodySource;
use page_cache::{NoRoom, Pages};
use volume_in_use::now::Page;

// Blocks of files are mapped no longer: their pages go.
pub fn drop_pages(pages: &mut Pages, dropped: &[Page])
    ensures { pages.new ≡ with_pages pages.old (dropped_pages pages.old.pages dropped.now) }
{
    for page in dropped {
        pages.drop_page(page.birth, page.index);
    }
}

// Blocks of files were written by the call with this number.
pub fn write_pages<B: BodySource>(pages: &mut Pages, bodies: &B, number: u64, written: &[Page])
    requires { length pages.old.pages + length written.now ≤ pages.old.room }
    ensures { pages.new ≡ with_pages pages.old (written_pages (B.bodies bodies.now) number pages.old.pages written.now) }
{
    for page in written {
        let block = u32::from(page.zone);
        let body = bodies.block_bytes(block);
        match pages.set(page.birth, page.index, block, body, number) {
            Ok(()) => {}
            Err(NoRoom) => unreachable!(),
        }
    }
}

// The transaction `tx` takes the zones of those blocks of which no page was there.
pub fn take_zones(owners: &mut Vec<u64>, pages: &Pages, tx: u64, written: &[Page])
    ensures { owners.new.items ≡ taken_zones tx pages.now.pages owners.old.items written.now }
{
    for page in written {
        let is_new = pages.state(page.birth, page.index).is_none();
        if is_new && let Some(owner) = owners.get_mut(usize::from(page.zone)) {
            *owner = tx;
        }
    }
}
