// Rows of verdict bytes in a lent buffer: a row is n bytes, one for each state, and a slice that is handed to a function begins with the row
// that is filled.

#![tactic(auto)]

mod bound;
mod byte;
mod lent;
mod row;

pub use bound::Bound;
pub use lent::length;
pub use row::{all_decided, clear, fill_label, fill_yes, join, judge, negate, tell, tell_next};
