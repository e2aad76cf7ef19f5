// What stands at the start of a text: a number, the bytes before a mark, a field of a sheet line; and whether a text is a word.

#![tactic(auto, using(crate::proofs::CutLaw::cut_laws))]

mod digits;
mod fields;
mod parts;
mod words;

pub use digits::{Numeral, number};
pub use fields::{field, known_field, marks};
pub use parts::{after, behind_first, first_part, part, span};
pub use words::is_word;
