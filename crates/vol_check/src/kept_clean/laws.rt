//! Laws of clean volumes that change. Each does nothing when it is called.
ghost use Rattle.std.specs.Prelude.{◌≡◌, ℕ, ◌↔◌};
ghost use Rattle.tree_model.specs.declared.call.Call.{Call};
ghost use Rattle.vol_check.specs.Clean.{IsClean};
ghost use Rattle.volume_steps.specs.Now.{VolumeNow};
ghost use Rattle.volume_steps.specs.Plain.{IsPlainNow};
ghost use Rattle.volume_steps.specs.Calls.{called, after_release};
ghost use Rattle.volume_steps.specs.Called.{FindsRoom};
ghost use Rattle.vol_check.specs.kept_clean.Marked.{IsMarked};

/// A law, which does nothing when it is called: a plain volume in use has its links and its dots by itself, so it is clean
/// just where its maps mark the inodes of its nodes and the zones in use.
pub fn marked_volumes_are_clean()
    ensures { (v : VolumeNow) → IsPlainNow v →
        IsClean v.geometry v.contents.blocks ↔ IsMarked v.geometry v.contents v.zones }
{}

/// A law, which does nothing when it is called: a call on a clean volume, done or refused, leaves it clean. A release
/// changes no block of it.
pub fn calls_keep_volumes_clean()
    ensures calls { (v : VolumeNow) (n tx : ℕ) (c : Call) → FindsRoom v n c → IsClean v.geometry v.contents.blocks →
        IsClean v.geometry (called v n tx c).change.volume.contents.blocks }
    ensures releases { (v : VolumeNow) (tx : ℕ) → IsClean v.geometry v.contents.blocks →
        IsClean v.geometry (after_release v tx).contents.blocks }
{}
