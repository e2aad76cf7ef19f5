// Verdicts, and what they come from and go into: comparisons, intervals in billionths, and what a job is accepted or
// turned back with.

#![tactic(auto)]

mod answer;
mod comparison;
mod interval;
mod refusal;
mod told;
mod verdict;

pub use answer::Accepted;
pub use comparison::Comparison;
pub use interval::Interval;
pub use refusal::Refusal;
pub use told::{by_moves, zero_or_one};
pub use verdict::{Verdict, holds, is_decided};
