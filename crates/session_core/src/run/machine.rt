//! A session as one machine: the host, the block layer, the device, and the completions that come back.
//!
//! `specs/Machine` has its state, what each event does, event lines, and the session that is opened; `specs/Fits` how its
//! parts fit. The public functions do nothing when they are called: each is a law, and its clauses say it. They are
//! generic over the traits of schedulers and of devices.
//!
//! Stands on `call_sessions`, whose host it is, on `stack_core` for the steps of the block layer, and on `line_grammar::events`,
//! which has the events.
mod laws;

pub use laws::{
    event_lines_go_in_order, full_queues_stop_requests_alone, hosts_of_sessions_take_their_steps,
    parts_of_sessions_fit, sessions_can_start_on_made_images, sessions_keep_order_to_the_medium,
};
