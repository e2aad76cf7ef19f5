// The rate matrix of a sheet by rows: each move in one word of 64 bits, the words in the order of the states that they leave, and with them
// the exit rate of each state, where its row of words ends, and its rate to its own state, which until leaves out.

#![tactic(auto)]

mod own;
mod rows;
pub mod sorting;
mod word;

pub use own::{HALF, own_rate_of, row_end_of};
pub use rows::prepare;
pub use word::{from_of, pack, rate_of, to_of};
