//! Mounting what a power cut left of a session.
ghost use Rattle.std.specs.Prelude.{◌≡◌, ℕ, ◌+◌, ◌<◌, ◌≤◌, ◌^◌, List, length, [], Ok, Err, IfOk, IfErr};
ghost use Rattle.order_model.specs.Device.{IsQuiet};
ghost use Rattle.tree_model.specs.Calls.{Tree};
ghost use Rattle.tree_model.specs.Trees.{AreAlike};
ghost use Rattle.volume_ops.specs.Volume.{tree_of};
ghost use Rattle.crash_laws.specs.Session.{Medium};
ghost use Rattle.host_machine.specs.runs.Runs.{Event};
ghost use Rattle.call_sessions.specs.power_cuts.images.SessionImages.{Start, HasSizes, IsCutOf, kept_tree};

use minix_host::new_volumes_are_in_use;
use mount_make::{ImageFault, MountFault, Mounted, made_images_are_plain, mount};
use order_model::OrderedDev;
use std::alloc::Global;

/// Mounts as `mount` does. Of an image that a power cut left of a session no fault is told, and on a sound device only
/// that there is no memory; what is mounted has the tree after the first transactions.
pub fn mount_after_a_cut<D: OrderedDev>(alloc: Global, dev: &mut D) -> Result<Mounted, MountFault>
    requires quiet { IsQuiet (D.seen (D.state dev.old)) }
    requires fresh { (D.seen (D.state dev.old)).took ≡ [] }
    requires on { D.stays_on (D.state dev.old) }
    requires room { length (D.seen (D.state dev.old)).surface + 2 ≤ (D.seen (D.state dev.old)).limit }
    ensures no_fault { (s : Start) (events : List Event) (m : Medium) → HasSizes s → IsCutOf s events m →
        m.image ≡ (D.seen (D.state dev.old)).surface → (fault : ImageFault) (block : ℕ) →
        result ≡ Err (MountFault.Image fault block) → ⊥ }
    ensures sound { (s : Start) (events : List Event) (m : Medium) → HasSizes s → IsCutOf s events m →
        m.image ≡ (D.seen (D.state dev.old)).surface → D.sound (D.state dev.old) → (D.seen (D.state dev.old)).faults + 1 < 2 ^ 64 →
        IfErr result (λ fault. fault ≡ MountFault.NoMemory) }
    ensures tree { (s : Start) (events : List Event) (m : Medium) → HasSizes s → IsCutOf s events m →
        m.image ≡ (D.seen (D.state dev.old)).surface →
        IfOk result (λ found. (tree : Tree) × (tree_of found.volume.geometry found.volume.blocks ≡ Ok tree) × AreAlike (kept_tree s events m) tree) }
{
    made_images_are_plain();
    new_volumes_are_in_use();
    mount(alloc, dev)
}
