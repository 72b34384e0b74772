//! Laws of refused calls: which of the causes that hold is told.
#![tactic(auto)]

mod laws;

pub use laws::{calls_are_refused_by_the_first_row, the_order_of_rows_tells};
