//! A call was done.
ghost use Rattle.std.specs.Prelude.{◌≡◌, ◌+◌, ◌<◌, ◌≤◌, ℕ, length};
ghost use Rattle.blk_base.specs.Members.{In};
ghost use Rattle.page_cache.specs.Pages.{with_pages};
ghost use Rattle.host_core.specs.effects.Effects.{noted_part, with_part, dropped_pages, written_pages, taken_zones};

use crate::effects::notes::note_call;
use crate::effects::pages::{drop_pages, take_zones, write_pages};
use blk_base::BodySource;
use commit_actor::JournalPart;
use page_cache::Pages;
use volume_in_use::now::Touched;

/// Call `number` was done, which touched this: it is noted in the running transaction, which also owns the zones that the
/// call took for files; pages that are mapped no longer go, and those that were written have their bytes of `bodies`.
pub fn change<B: BodySource>(
    journal: &mut JournalPart,
    pages: &mut Pages,
    owners: &mut Vec<u64>,
    bodies: &B,
    number: u64,
    touched: &Touched,
)
    requires notes { length touched.now.touched.blocks + length touched.now.touched.revoked + length touched.now.touched.nodes ≤ journal.old.spare }
    requires blocks { (b : ℕ) → In b touched.now.touched.blocks → b < journal.old.blocks }
    requires room { length pages.old.pages + length touched.now.touched.pages ≤ pages.old.room }
    ensures journal { journal.new ≡ with_part journal.old journal.new.spare (noted_part touched.now.touched journal.old.part) }
    ensures pages { pages.new ≡ with_pages pages.old
        (written_pages (B.bodies bodies.now) number (dropped_pages pages.old.pages touched.now.touched.dropped) touched.now.touched.pages) }
    ensures owners { owners.new.items ≡ taken_zones journal.old.part.running.number pages.old.pages owners.old.items touched.now.touched.pages }
{
    let tx = journal.running().number();
    take_zones(owners, pages, tx, touched.pages());
    drop_pages(pages, touched.dropped());
    write_pages(pages, bodies, number, touched.pages());
    note_call(journal, touched);
}
