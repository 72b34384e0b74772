//! The laws of touched blocks and of tidy volumes. Each does nothing when it is called.
ghost use Rattle.std.specs.Prelude.{◌≡◌, ℕ, true, List};
ghost use Rattle.tree_model.specs.declared.call.Call.{Call};
ghost use Rattle.tree_model.specs.declared.call.Call.TheVariants as calls;
ghost use Rattle.tree_model.specs.Calls.{leaves_tree};
ghost use Rattle.volume_steps.specs.Now.{VolumeNow};
ghost use Rattle.volume_steps.specs.Calls.{called, after_release};
ghost use Rattle.volume_steps.specs.Called.{FindsRoom};
ghost use Rattle.vol_check.specs.kept_clean.Marked.{IsMarked};
ghost use Rattle.vol_check.specs.kept_clean.changed.Changed.{HasChanged};
ghost use Rattle.vol_check.specs.kept_clean.changed.Tidy.{IsTidy};

/// A law, which does nothing when it is called: each block that a call touches and that was metadata before has other
/// bytes after the whole call, done or refused. The maps must mark what is in use, which calls keep; where a name comes,
/// the volume must be tidy.
pub fn touched_blocks_have_changed()
    ensures quiet { (v : VolumeNow) (n tx : ℕ) (c : Call) → leaves_tree c ≡ true → HasChanged v (called v n tx c).change }
    ensures unlink { (v : VolumeNow) (n tx : ℕ) (path : List ℕ) →
        FindsRoom v n (calls.Unlink path) → IsMarked v.geometry v.contents v.zones →
        HasChanged v (called v n tx (calls.Unlink path)).change }
    ensures rmdir { (v : VolumeNow) (n tx : ℕ) (path : List ℕ) →
        FindsRoom v n (calls.Rmdir path) → IsMarked v.geometry v.contents v.zones →
        HasChanged v (called v n tx (calls.Rmdir path)).change }
    ensures truncate { (v : VolumeNow) (n tx : ℕ) (path : List ℕ) (size : ℕ) →
        FindsRoom v n (calls.Truncate path size) → IsMarked v.geometry v.contents v.zones →
        HasChanged v (called v n tx (calls.Truncate path size)).change }
    ensures write { (v : VolumeNow) (n tx : ℕ) (path : List ℕ) (off len value : ℕ) →
        FindsRoom v n (calls.Write path off len value) → IsMarked v.geometry v.contents v.zones →
        HasChanged v (called v n tx (calls.Write path off len value)).change }
    ensures bytes { (v : VolumeNow) (n tx : ℕ) (path : List ℕ) (off : ℕ) (bytes : List ℕ) →
        FindsRoom v n (calls.Bytes path off bytes) → IsMarked v.geometry v.contents v.zones →
        HasChanged v (called v n tx (calls.Bytes path off bytes)).change }
    ensures create { (v : VolumeNow) (n tx : ℕ) (path : List ℕ) →
        FindsRoom v n (calls.Create path) → IsTidy v.geometry v.contents v.zones →
        HasChanged v (called v n tx (calls.Create path)).change }
    ensures mkdir { (v : VolumeNow) (n tx : ℕ) (path : List ℕ) →
        FindsRoom v n (calls.Mkdir path) → IsTidy v.geometry v.contents v.zones →
        HasChanged v (called v n tx (calls.Mkdir path)).change }
    ensures link { (v : VolumeNow) (n tx : ℕ) (path other : List ℕ) →
        FindsRoom v n (calls.Link path other) → IsTidy v.geometry v.contents v.zones →
        HasChanged v (called v n tx (calls.Link path other)).change }
    ensures rename { (v : VolumeNow) (n tx : ℕ) (path other : List ℕ) →
        FindsRoom v n (calls.Rename path other) → IsTidy v.geometry v.contents v.zones →
        HasChanged v (called v n tx (calls.Rename path other)).change }
{}

/// A law, which does nothing when it is called: a call on a tidy volume, done or refused, leaves it tidy, and so does a
/// release of zones.
pub fn calls_keep_volumes_tidy()
    ensures calls { (v : VolumeNow) (n tx : ℕ) (c : Call) → FindsRoom v n c → IsTidy v.geometry v.contents v.zones →
        IsTidy v.geometry (called v n tx c).change.volume.contents (called v n tx c).change.volume.zones }
    ensures releases { (v : VolumeNow) (tx : ℕ) → IsTidy v.geometry v.contents v.zones →
        IsTidy v.geometry (after_release v tx).contents (after_release v tx).zones }
{}
