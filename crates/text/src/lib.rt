// Texts of `key=value` lines, in ASCII.
#![tactic(auto)]

mod fields;
mod lines;
mod numbers;

pub use fields::Lines;
pub use lines::{put_bytes, put_decimal_line, put_hexadecimal_line};
pub use numbers::{decimal_length, read_bits, read_number, read_signed};
