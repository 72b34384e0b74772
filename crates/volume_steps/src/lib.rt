//! Calls on a volume as steps on plain data: which inodes and zones they take, which blocks they write, and what they
//! tell of it.
//!
//! `specs/Now.antt` has a volume that is in use, `specs/NewNow.antt` a new one, `specs/Zones.antt` how zones and inodes are
//! taken, `specs/Steps.antt` the steps, and `specs/Calls.antt` the calls; `specs/Numbers.antt` has the numbers of calls, and
//! `specs/Cuts.antt` the cuts that change nothing.
//!
//! Stands on `volume_model`, whose moves the steps are, on `minix_tables::zones`, and on `tree_model`, which says what refuses a
//! call and what it replies.
#![tactic(auto)]

mod laws;

pub use laws::{
    calls_do_the_tree_step, calls_keep_volumes_plain, calls_mark_what_is_in_use,
    calls_take_what_they_need, calls_tell_what_they_touch, examples_of_changes,
    new_volumes_are_in_use, refused_calls_change_nothing, releases_only_free,
};
