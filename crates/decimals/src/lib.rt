// Bytes and decimal numbers at a place in a lent buffer, for whoever writes a text part by part.

#![tactic(auto)]

mod bytes;
mod number;

pub use bytes::{write_byte, write_bytes};
pub use number::{decimal_length, write_decimal, write_field};
