//! ASCII texts as slices of bytes: classes of bytes, fronts of texts, and numbers in decimal digits.
#![tactic(auto)]

mod classes;
mod fronts;
mod numbers;

pub use classes::{is_in_line, is_line_end, is_printable, is_white, is_word_byte};
pub use fronts::{begins_with, begins_with_digit, digits_len, front, line_len, skip, word_len};
pub use numbers::{is_plain_number, number_up_to, plain_value};
