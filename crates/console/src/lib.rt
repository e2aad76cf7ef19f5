// What the programs share: texts from files, what is printed, and what is said of a refusal.

#![tactic(auto)]

mod files;
mod printing;

pub use files::read_text;
pub use printing::{Written, print};
