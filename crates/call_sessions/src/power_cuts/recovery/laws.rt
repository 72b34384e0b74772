//! What was found after a power cut is what the session kept, and attempts on model devices are those that the function
//! says.
ghost use Rattle.std.specs.Prelude.{◌≡◌, ℕ, List};
ghost use Rattle.stack_core.specs.Core.{epoch_machine};
ghost use Rattle.stack_core.specs.Fresh.{device_over};
ghost use Rattle.line_grammar.specs.declared.events.steer.Steer.{Steer};
ghost use Rattle.crash_laws.specs.Session.{Medium};
ghost use Rattle.host_machine.specs.runs.Runs.{Event};
ghost use Rattle.mount_make.specs.Made.{new_journal};
ghost use Rattle.call_sessions.specs.power_cuts.images.SessionImages.{Start, HasSizes, IsCutOf, kept_transactions};
ghost use Rattle.call_sessions.specs.power_cuts.recovery.Found.{found_in};
ghost use Rattle.call_sessions.specs.declared.power_cuts.recovery.attempts.Attempt.{Attempt};
ghost use Rattle.call_sessions.specs.power_cuts.recovery.Attempts.{AreAttempts, attempts_of, image_after};

use crate::power_cuts::images::new_volumes_are_in_use;
use mount_make::made_images_are_plain;

/// A law, which only calls laws: whatever callers and actors do in a session on an image that was made, and wherever the
/// power is cut, the number that is counted by the journal's superblock and its log is that of the transactions whose
/// commit block is on the medium.
pub fn found_is_what_was_kept()
    ensures { (s : Start) (events : List Event) (m : Medium) → HasSizes s → IsCutOf s events m →
        found_in s.geometry.zones (new_journal s.journal s.wide).sequence m.image ≡ kept_transactions s events m }
{
    made_images_are_plain();
    new_volumes_are_in_use();
}

/// A law, which does nothing when it is called: attempts on model devices of one depth tell, and leave, what the function
/// says.
pub fn attempts_on_model_devices()
    ensures { (depth base : ℕ) (image : List (List ℕ)) (lines : List (List Steer)) (attempts : List Attempt) (left : List (List ℕ)) →
        AreAttempts epoch_machine (device_over depth) base image lines attempts left →
        (attempts ≡ attempts_of depth base image lines) × (left ≡ image_after depth base image lines) }
{}
