//! The law. It does nothing when it is called.
ghost use Rattle.std.specs.Prelude.{ℕ, ◌+◌, ◌*◌, ◌<◌, ◌≤◌, length};
ghost use Rattle.blk_base.specs.Members.{In};
ghost use Rattle.tree_model.specs.declared.call.Call.{Call};
ghost use Rattle.volume_steps.specs.Now.{VolumeNow};
ghost use Rattle.volume_steps.specs.Calls.{called};
ghost use Rattle.volume_steps.specs.Called.{FindsRoom};
ghost use Rattle.host_core.specs.lengths.Lengths.{notes_in, blocks_in};

/// A law, which does nothing when it is called: a call tells at most twice as many notes as there are zones of data, and
/// eleven more for each block that it may write; it writes at most so many blocks of files; and each block of metadata
/// that it touches is one of the volume.
pub fn calls_tell_few()
    ensures notes { (v : VolumeNow) (n tx : ℕ) (c : Call) → FindsRoom v n c →
        notes_in (called v n tx c).change.touched ≤ 2 * length v.zones.states + 11 * blocks_in c + 30 }
    ensures pages { (v : VolumeNow) (n tx : ℕ) (c : Call) → FindsRoom v n c →
        length (called v n tx c).change.touched.pages ≤ blocks_in c }
    ensures inside { (v : VolumeNow) (n tx : ℕ) (c : Call) → FindsRoom v n c → (b : ℕ) →
        In b (called v n tx c).change.touched.blocks → b < v.geometry.zones }
{}
