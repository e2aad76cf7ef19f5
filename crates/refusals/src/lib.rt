// Document 01's refusals: the tests of a sheet's two texts, of a formula over a sheet, and of the lengths of the lent buffers.

#![tactic(auto)]

mod formula_tests;
mod lengths;
mod sheet_tests;

pub use formula_tests::{TestedFormula, test_formula};
pub use lengths::{Lengths, too_short};
pub use sheet_tests::{Dimensions, out_of_bytes, test_sheet};
