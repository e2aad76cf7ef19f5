// From the formula text to the nodes of the formula, and the tests of its nodes.

#![tactic(auto)]

mod lay;
mod nodes;
mod operands;
mod pass;
mod reading;
mod size;
mod waiting;

pub use nodes::{Kind, Nodes, Path};
pub use operands::Operands;
pub use reading::{Reading, read};
