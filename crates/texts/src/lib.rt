//! Keys, values and numbers as they are written in a command line and in answers: hexadecimal
//! digits, or text with escapes.
//!
//! 1. [`text_of`] makes the text of bytes as hexadecimal digits, and [`key_of`] reads one, in
//!    digits of either case.
//! 2. [`bytes_of_escaped`] reads a text of characters and `\xHH`.
//! 3. [`Spelling`] says which of the ways is meant, and has the texts of keys and values.
//!    [`texts_law`]: they read back. [`is_utf8`]: whether bytes are UTF-8.
//! 4. [`number_of`] reads a number of decimal digits.
//!
//!     61 62    <->    `6162`   or `ab`        no bytes    <->    `-` or `""`
//!     61 00    <->    `6100`   or `a\x00`     5c          <->    `5c` or `\x5c`
#![tactic(auto)]

mod digits;
mod escaped;
mod hex_text;
mod spelling;

pub use escaped::bytes_of_escaped;
pub use hex_text::{key_of, number_of, text_of};
pub use spelling::{Spelling, is_utf8, texts_law};
