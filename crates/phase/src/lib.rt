// One phase over the lent vector words (crates/vectors has their places): the weights for a load, a beginning from a start vector, one step
// after the other, and the ends. What stands between two steps stands in the words alone: the values, the sums of weight times value, what
// stays put, the weights with their total, and the number of the step.

#![tactic(auto)]

mod ends;
mod load;
mod steps;
mod values;

pub use ends::{lower_ends, upper_ends};
pub use load::{depth_of, last_step, weigh};
pub use steps::{begin, step};
