//! The converse of the promise of order, for scripts of block requests: each medium that is order-closed is left by some events,
//! where no more requests are asked for than the scheduler holds. So no more is promised than is kept, and what is proved of
//! order-closed media is all that a program above may rest on.
//!
//! `specs/Left` says what it is that some events leave a medium, `specs/Events` works such events out from the medium,
//! `specs/Example` has small scripts. The public functions do nothing when they are called: each is a law, and its clauses say it.
//!
//! Stands on `stack_core`.
#![tactic(auto)]

mod laws;

pub use laws::{
    events_leave_closed_media, left_media_are_reported, left_media_are_the_closed_ones,
    order_says_what_may_be_lost,
};
