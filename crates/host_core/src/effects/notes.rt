//! What a call touched is noted in the running transaction.
ghost use Rattle.std.specs.Prelude.{◌≡◌, ◌+◌, ◌<◌, ◌≤◌, ℕ, length};
ghost use Rattle.blk_base.specs.Members.{In};
ghost use Rattle.number_sets.specs.Sets.{has, without_all};
ghost use Rattle.host_core.specs.effects.Effects.{noted_part, with_part};
ghost use Rattle.host_core.specs.effects.code.Noting.{touches, revokes, changes, wants};

use commit_actor::JournalPart;
use volume_in_use::now::Touched;

// Notes all that a call touched.
pub fn note_call(journal: &mut JournalPart, touched: &Touched)
    requires notes { length touched.now.touched.blocks + length touched.now.touched.revoked + length touched.now.touched.nodes ≤ journal.old.spare }
    requires blocks { (b : ℕ) → In b touched.now.touched.blocks → b < journal.old.blocks }
    ensures { journal.new ≡ with_part journal.old journal.new.spare (noted_part touched.now.touched journal.old.part) }
{
    touch_all(journal, touched.blocks());
    revoke_all(journal, touched.revoked());
    change_all(journal, touched.nodes());
    want_kept(journal, touched.blocks(), touched.revoked());
}

fn touch_all(journal: &mut JournalPart, blocks: &[u32])
    requires notes { length blocks.now ≤ journal.old.spare }
    requires blocks { (b : ℕ) → In b blocks.now → b < journal.old.blocks }
    ensures { journal.new ≡ touches blocks.now journal.old }
{
    for block in blocks {
        journal.touch(*block);
    }
}

fn revoke_all(journal: &mut JournalPart, zones: &[u16])
    requires { length zones.now ≤ journal.old.spare }
    ensures { journal.new ≡ revokes zones.now journal.old }
{
    for zone in zones {
        journal.revoke(u32::from(*zone));
    }
}

fn change_all(journal: &mut JournalPart, births: &[u64])
    requires { length births.now ≤ journal.old.spare }
    ensures { journal.new ≡ changes births.now journal.old }
{
    for birth in births {
        journal.change(*birth);
    }
}

fn is_among(zones: &[u16], block: u32) -> bool
    ensures { result ≡ has zones.now block }
{
    zones.iter().any(|zone| u32::from(*zone) == block)
}

// The transaction wants the blocks that were touched, without those that were revoked.
fn want_kept(journal: &mut JournalPart, blocks: &[u32], revoked: &[u16])
    requires { (b : ℕ) → In b blocks.now → b < journal.old.blocks }
    ensures { journal.new ≡ wants (without_all blocks.now revoked.now) journal.old }
{
    for block in blocks {
        if !is_among(revoked, *block) {
            journal.want_block(*block);
        }
    }
}
