//! The law of sessions on images that were made.
ghost use Rattle.minix_layout.specs.declared.limits.TheConstants.{LEAST_JOURNAL, MOST_JOURNAL};
ghost use Rattle.std.specs.Prelude.{◌≤◌, ◌<◌, ◌+◌, ℕ, Bool, List};
ghost use Rattle.minix_layout.specs.declared.division.Geometry.{Geometry};
ghost use Rattle.minix_layout.specs.Geometry.{IsSound};
ghost use Rattle.volume_steps.specs.Plain.{IsPlainNow};
ghost use Rattle.minix_host.specs.ByteCalls.{ByteCall};
ghost use Rattle.minix_host.specs.Runs.{Event, host_after, KeepsSession};
ghost use Rattle.call_sessions.specs.made.MadeSessions.{made_now, made_opening, made_ring};

use minix_host::new_volumes_are_in_use;

/// A law, which does nothing when it is called: whatever callers and actors do in a session on an image that was made,
/// with any division of its volume and a JBD2 journal of a size that is allowed, with wide tags or not, the submitted list keeps all order
/// rules, and a power cut leaves a volume whose tree is that after a prefix of the calls.
pub fn sessions_on_made_images_keep_rules_and_trees()
    ensures plain { (g : Geometry) → IsSound g → IsPlainNow (made_now g) }
    ensures kept { (g : Geometry) (journal : ℕ) (wide : Bool) (quota limit : ℕ) (programs : List (List ByteCall)) (events : List Event) →
        IsSound g → LEAST_JOURNAL ≤ journal → journal ≤ MOST_JOURNAL → limit + 2 < 4294967296 →
        KeepsSession (made_opening g journal wide quota) (host_after (made_opening g journal wide quota) (made_now g) (made_ring journal) limit programs events) }
{
    new_volumes_are_in_use();
}
