// The labels text: the names of its first line, what its lines say, for the refusals, and its marks as words.

#![tactic(auto)]

mod facts;
mod lines;
mod names;
mod words;

pub use facts::{LabelsFacts, read};
pub use names::{names_part, place};
pub use words::store;
