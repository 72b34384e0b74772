//! The law of volumes that were made. It only calls laws.
ghost use Rattle.minix_layout.specs.declared.division.Geometry.{Geometry};
ghost use Rattle.minix_layout.specs.Geometry.{IsSound};
ghost use Rattle.call_sessions.specs.made.MadeSessions.{made_now};
ghost use Rattle.vol_check.specs.kept_clean.changed.Tidy.{IsTidy};

use crate::sessions::made_volumes_are_clean;
use call_sessions::made::sessions_on_made_images_keep_rules_and_trees;
use vol_check::kept_clean::marked_volumes_are_clean;

/// A law, which only calls laws: the volume of an image that was made is tidy, however it is divided.
pub fn made_volumes_are_tidy()
    ensures { (g : Geometry) → IsSound g → IsTidy g (made_now g).contents (made_now g).zones }
{
    made_volumes_are_clean();
    marked_volumes_are_clean();
    sessions_on_made_images_keep_rules_and_trees();
}
