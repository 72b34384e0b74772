//! Which calls a host lets wait for nothing, in the words of the calls.
ghost use Rattle.std.specs.Prelude.{◌≡◌, ℕ, Bool, true, false, List};
ghost use Rattle.tree_model.specs.declared.call.Call.TheVariants as calls;
ghost use Rattle.tree_model.specs.declared.node.Node.{Node};
ghost use Rattle.tree_model.specs.CallWords.{StandsAt};
ghost use Rattle.volume_steps.specs.Cuts.{cuts_nothing};
ghost use Rattle.volume_steps.specs.Now.{VolumeNow, tree_of_now};
ghost use Rattle.minix_host.specs.Calls.{would_change};

/// A law, which does nothing when it is called: a call that asks, a barrier or sync call, a `rename` of two names of one node
/// and a truncate that changes nothing are never hindered: not while a transaction is closed, not by a full one, and not for
/// want of zones. That a call which is not hindered changes nothing is a law of volumes.
pub fn calls_that_change_nothing_wait_for_nothing()
    ensures read { (v : VolumeNow) (path : List ℕ) (off len : ℕ) → would_change v (calls.Read path off len) ≡ false }
    ensures list { (v : VolumeNow) (path : List ℕ) → would_change v (calls.List path) ≡ false }
    ensures stat { (v : VolumeNow) (path : List ℕ) → would_change v (calls.Stat path) ≡ false }
    ensures fsync { (v : VolumeNow) (path : List ℕ) → would_change v (calls.Fsync path) ≡ false }
    ensures fdatasync { (v : VolumeNow) (path : List ℕ) → would_change v (calls.Fdatasync path) ≡ false }
    ensures fbarrier { (v : VolumeNow) (path : List ℕ) → would_change v (calls.Fbarrier path) ≡ false }
    ensures fdatabarrier { (v : VolumeNow) (path : List ℕ) → would_change v (calls.Fdatabarrier path) ≡ false }
    ensures sync { (v : VolumeNow) → would_change v calls.Sync ≡ false }
    ensures rename { (v : VolumeNow) (path other : List ℕ) (birth : ℕ) (node : Node) → StandsAt (tree_of_now v) path birth node →
        StandsAt (tree_of_now v) other birth node → would_change v (calls.Rename path other) ≡ false }
    ensures truncate { (v : VolumeNow) (path : List ℕ) (size : ℕ) → cuts_nothing (tree_of_now v) path size ≡ true →
        would_change v (calls.Truncate path size) ≡ false }
{}
