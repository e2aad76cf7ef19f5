// The tokens of a formula: what the first of a state formula says, what a `P` is followed by, and what a path formula begins with. Besides,
// laws on the grammar.

#![tactic(auto)]

mod chance;
mod head;
mod hours;
mod path_start;

pub use chance::{Bound, read_bound};
pub use head::{Head, after_three, after_two, read_head};
pub use path_start::{PathStart, read_path_start};
