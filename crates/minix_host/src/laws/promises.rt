//! Laws of volumes: what the host sees of them is what is there, and what it is promised holds.
ghost use Rattle.std.specs.Prelude.{◌≡◌, ◌≤◌, ◌↔◌, ℕ, Bool, true, false, Some, None};
ghost use Rattle.blk_base.specs.Members.{In, IsAscending};
ghost use Rattle.tree_model.specs.declared.call.Call.{Call};
ghost use Rattle.tree_model.specs.Calls.{outcome, needs, tree_after};
ghost use Rattle.tree_model.specs.Histories.{writes};
ghost use Rattle.tree_model.specs.Plain.{AreBornBefore};
ghost use Rattle.minix_tables.specs.declared.zones.zone_state.ZoneState.TheVariants as states;
ghost use Rattle.minix_tables.specs.zones.Zones.{state_of};
ghost use Rattle.volume_model.specs.Touched.{IsMeta, HasPage};
ghost use Rattle.volume_steps.specs.Now.{VolumeNow, tree_of_now, room_of};
ghost use Rattle.volume_steps.specs.Plain.{IsPlainNow};
ghost use Rattle.host_machine.specs.Views.{waits_for};
ghost use Rattle.host_machine.specs.laws.Contract.{Contract};
ghost use Rattle.host_machine.specs.runs.Runs.{HasBlocks};
ghost use Rattle.minix_host.specs.Calls.{refused_by, refusal, needed, would_change};
ghost use Rattle.minix_host.specs.Sessions.{Opening, over, Stands};
ghost use Rattle.minix_host.specs.Volumes.{is_metadata, zone_of, zones_of};

/// A law, which does nothing when it is called: a plain volume in use keeps all that the host is promised of volumes, and
/// plain trees all that it is promised of trees; and the volume has whole blocks.
pub fn volumes_keep_their_promises()
    ensures contract { (s : Opening) → Contract (over s) (Stands s) }
    ensures blocks { (s : Opening) → HasBlocks (over s) (Stands s) }
{}

/// A law, which does nothing when it is called: what the host sees of a plain volume. Its test of metadata decides what
/// is metadata; a block of a file has the zone to which the file maps it; a zone waits for the transaction that freed it;
/// and the free zones are listed, in rising order.
pub fn volumes_are_seen_as_they_are()
    ensures metadata { (v : VolumeNow) → IsPlainNow v → (b : ℕ) → (is_metadata v b ≡ true) ↔ IsMeta v.geometry v.contents b }
    ensures zones { (v : VolumeNow) (birth index zone : ℕ) →
        (zone_of v birth index ≡ Some zone) ↔ HasPage v.contents (record { birth = birth; index = index; zone = zone }) }
    ensures waiting { (v : VolumeNow) (zone transaction : ℕ) →
        (waits_for (zones_of v).waiting zone ≡ Some transaction) ↔ (state_of v.zones zone ≡ Some (states.Quarantined transaction)) }
    ensures free { (v : VolumeNow) (zone : ℕ) → In zone (zones_of v).free ↔ (state_of v.zones zone ≡ Some states.Free) }
    ensures rising { (v : VolumeNow) → IsAscending (λ (zone : ℕ). zone) (zones_of v).free }
{}

/// A law, which does nothing when it is called: what the host asks of a call before it is done, what refuses it and how
/// many zones it needs, is what the tree model says of the call with any number above all births.
pub fn calls_are_asked_without_a_number()
    ensures refusal { (v : VolumeNow) (n : ℕ) (c : Call) → IsPlainNow v → AreBornBefore n (tree_of_now v) →
        refusal v c ≡ refused_by (outcome (room_of v.geometry) (tree_of_now v) n c) }
    ensures needed { (v : VolumeNow) (n : ℕ) (c : Call) → IsPlainNow v → AreBornBefore n (tree_of_now v) →
        needed v c ≡ needs (tree_of_now v) n c }
{}

/// A law, which does nothing when it is called: a call that nothing refuses, and that is not hindered where the journal
/// has no room, changes neither the tree nor a page. Such are calls that read, barrier and sync calls, and those that
/// cut a file where it ends.
pub fn calls_that_change_nothing_are_not_hindered()
    ensures still { (v : VolumeNow) (n : ℕ) (c : Call) → IsPlainNow v → refusal v c ≡ None → would_change v c ≡ false →
        (tree_after (room_of v.geometry) (tree_of_now v) n c ≡ tree_of_now v) ×
        ((birth index : ℕ) → writes (room_of v.geometry) (tree_of_now v) n c birth index ≡ false) }
{}
