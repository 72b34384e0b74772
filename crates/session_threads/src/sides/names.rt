//! What a session is called.
ghost use Rattle.minix_host.specs.Sessions.{Opening};
ghost use Rattle.session_core.specs.run.machine.Machine.{Start};

use std::marker::Brand;
use thread_sides::PartNames;

/// Which session it is, as the meaning of a type: what the script opens. It has no calls. Sides that have the same N are of one
/// session, whatever locks they come out of.
pub trait SessionNames: PartNames {
    /// The volume and the journal of the session.
    ghost opening: { Opening };

    /// What its host starts with: volume, ring, limit, programs.
    ghost start: { Start };
}

/// What passes `Brand` for N picks its meanings itself: these here are of no session.
impl SessionNames for Brand {
    ghost use Rattle.session_threads.specs.sides.NoSession.{no_opening, no_start};

    ghost opening = { no_opening };

    ghost start = { no_start };
}
