// The moves text: what its lines say, for the refusals; and its moves as words.

#![tactic(auto)]

mod facts;
mod lines;
mod tally;
mod totals;
mod words;

pub use facts::{MovesFacts, read};
pub use words::store;
