//! Keys that are read from the standard input.

use checks::{Fault, FaultName};
use session::{Refusal, RefusalText, read_file};
use std::alloc::Global;
use std::rt::Files;
use std::str;
use texts::Spelling;

/// The standard input as a file.
const INPUT: &str = "/dev/stdin";

/// The keys in the standard input, one a line. Key if a line is the text of no key; Size if there
/// are more than 2^30 bytes.
pub fn keys_in_input<R: Files + AllocGlobal>(
    rt: &R,
    spelling: Spelling,
) -> Result<Vec<Vec<u8>>, Refusal> {
    let bytes = read_file(rt, INPUT)?;
    if bytes.is_empty() {
        return Ok(Vec::new(rt.alloc()));
    }
    // The last line may have no newline.
    let lines = bytes.strip_suffix(b"\n").unwrap_or(&bytes);
    keys_of_lines(rt.alloc(), spelling, lines)
}

/// The keys of lines with a newline between two.
fn keys_of_lines(alloc: Global, spelling: Spelling, lines: &[u8]) -> Result<Vec<Vec<u8>>, Refusal> {
    let mut keys = Vec::new(alloc);
    for line in lines.split(|byte| *byte == b'\n') {
        let key = match str::from_utf8(line) {
            Ok(text) => spelling.bytes_of(alloc, text)?,
            Err(_) => None,
        };
        let Some(key) = key else {
            return Err(no_key(alloc, keys.len().saturating_add(1), line, spelling));
        };
        keys.push(key)?;
    }
    Ok(keys)
}

/// The refusal of the line of this number.
fn no_key(alloc: Global, number: usize, line: &[u8], spelling: Spelling) -> Refusal {
    let (is, remedy) = if line.is_empty() {
        (
            "is empty",
            "leave it out; the empty key is -, with --text \"\"",
        )
    } else if line.ends_with(b"\r") {
        (
            "ends with a carriage return",
            "end lines with a newline alone",
        )
    } else if spelling == Spelling::Hexadecimal {
        ("is no key", "give hexadecimal digits, or texts with --text")
    } else {
        (
            "is no key",
            "give a byte as \\xHH, and a backslash as \\x5c",
        )
    };
    let wrong = format!(in alloc; "line {number} {is}");
    let told = RefusalText::new(alloc, "standard input", wrong, remedy);
    Refusal::new(Fault::of(FaultName::Key), told)
}
