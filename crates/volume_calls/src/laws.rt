//! The law of volumes in use. It does nothing when it is called.
ghost use Rattle.volume_steps.specs.Plain.{IsPlainNow};

use crate::PlainVolume;

/// A law, which does nothing when it is called: a volume is plain in use.
pub fn volumes_are_plain(volume: &PlainVolume)
    ensures { IsPlainNow volume.now }
{
    let _ = &volume.parts;
}
