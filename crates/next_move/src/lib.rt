// The two ends of a next move at every state, in their places among the lent vector words; all other words are left as they were.

#![tactic(auto)]

mod ends;
mod entering;

pub use ends::next_move;
