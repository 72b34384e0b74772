//! Laws of sessions and clean volumes. Each does nothing when it is called.
ghost use Rattle.minix_layout.specs.declared.limits.TheConstants.{LEAST_JOURNAL, MOST_JOURNAL};
ghost use Rattle.std.specs.Prelude.{◌≤◌, ◌<◌, ◌+◌, ℕ, Bool, List, take};
ghost use Rattle.minix_layout.specs.declared.division.Geometry.{Geometry};
ghost use Rattle.minix_layout.specs.Geometry.{IsSound};
ghost use Rattle.tree_model.specs.declared.call.Call.{Call};
ghost use Rattle.mount_make.specs.Images.{volume_in};
ghost use Rattle.mount_make.specs.Made.{made_image};
ghost use Rattle.vol_check.specs.Clean.{IsClean};
ghost use Rattle.vol_check.specs.Images.{HasVolume};
ghost use Rattle.crash_laws.specs.Session.{Medium};
ghost use Rattle.host_machine.specs.runs.Runs.{Event};
ghost use Rattle.call_sessions.specs.Sessions.{WriteBytes};
ghost use Rattle.call_sessions.specs.power_cuts.calls.CallImages.{made_session, IsCut};
ghost use Rattle.session_grammar.specs.declared.session_script.SessionScript.{SessionScript};
ghost use Rattle.session_grammar.specs.WellFormed.{IsWellFormed};
ghost use Rattle.session_core.specs.Headline.{Headline};
ghost use Rattle.session_core.specs.Report.{IsCoreReport};
ghost use Rattle.session_core.specs.declared.report.SessionReport.{SessionReport};

use call_sessions::calls_of_scripts_write_bytes;
use minix_host::new_volumes_are_in_use;
use mount_make::made_maps_mark_the_root;

/// A law, which only calls laws: the volume of an image that was made is clean, however it is divided, and whatever
/// journal stands behind it.
pub fn made_volumes_are_clean()
    ensures { (g : Geometry) (journal : ℕ) (wide : Bool) → IsSound g → IsClean g (take g.zones (made_image g journal wide)) }
{
    made_maps_mark_the_root();
    new_volumes_are_in_use();
}

/// A law, which only calls laws: whatever callers and actors do in a session on an image that was made, the volume that
/// its host has in use is clean after each step.
pub fn sessions_keep_volumes_clean()
    ensures { (g : Geometry) (journal : ℕ) (wide : Bool) (limit : ℕ) (programs : List (List Call)) (events : List Event) →
        IsSound g → LEAST_JOURNAL ≤ journal → journal ≤ MOST_JOURNAL → limit + journal < 4294967296 → WriteBytes programs →
        IsClean g (made_session g journal wide limit programs events).volume.contents.blocks }
{
    made_maps_mark_the_root();
    new_volumes_are_in_use();
}

/// A law, which only calls laws: wherever the power is cut in such a session, the volume of the image is clean once its
/// journal was recovered.
pub fn cut_sessions_are_clean()
    ensures { (g : Geometry) (journal : ℕ) (wide : Bool) (limit : ℕ) (programs : List (List Call)) (events : List Event) (m : Medium) →
        IsCut g journal wide limit programs events m → IsClean g (volume_in g m.image) }
{
    made_maps_mark_the_root();
    new_volumes_are_in_use();
}

/// A law, which only calls laws: the volume that is mounted behind the power cut of a script's session is clean, and so is
/// that of the image which recovery left. That image can be checked, so its check tells that it is clean.
pub fn sessions_leave_clean_volumes()
    ensures volume { (s : SessionScript) (r : SessionReport) → IsWellFormed s → IsCoreReport s r → Headline s r →
        IsClean r.volume.geometry r.volume.blocks }
    ensures image { (s : SessionScript) (r : SessionReport) → IsWellFormed s → IsCoreReport s r → Headline s r →
        HasVolume r.image r.volume.geometry × IsClean r.volume.geometry (take r.volume.geometry.zones r.image) }
{
    made_maps_mark_the_root();
    new_volumes_are_in_use();
    calls_of_scripts_write_bytes();
}
