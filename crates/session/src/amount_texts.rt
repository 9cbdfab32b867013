//! Amounts as people read them.

ghost use Rattle.std.specs.Prelude.{◌<◌};

use std::alloc::{AllocError, Global};

/// The bytes from which on an amount is told in KB: fewer are told as they are.
const KILOBYTE: u64 = 1_000;

/// The bytes from which on an amount, rounded, is told in MB.
const MEGABYTE: u64 = 999_950;

/// The bytes from which on an amount, rounded, is told in GB.
const GIGABYTE: u64 = 999_950_000;

/// The digits of a number, with a comma before each three.
pub fn grouped(alloc: Global, number: u64) -> Result<String, AllocError> {
    let digits = format!(in alloc; "{number}")?;
    let mut text = String::new(alloc);
    let mut left = digits.len();
    for digit in digits.chars() {
        if left % 3 == 0 && left < digits.len() {
            text.push(',')?;
        }
        text.push(digit)?;
        left = left.saturating_sub(1);
    }
    Ok(text)
}

/// How many files there are and their bytes, as `36 files, 32.8 MB`.
pub fn total_text(alloc: Global, files: u64, bytes: u64) -> Result<String, AllocError> {
    let size = size_text(alloc, bytes)?;
    match files {
        0 => String::from_str(alloc, "no file"),
        1 => format!(in alloc; "1 file, {size}"),
        count => {
            let files = grouped(alloc, count)?;
            format!(in alloc; "{files} files, {size}")
        }
    }
}

/// A number of bytes, rounded: `999 bytes`, `32.8 KB`, `32.8 MB` or `32.8 GB`.
fn size_text(alloc: Global, bytes: u64) -> Result<String, AllocError> {
    if bytes < KILOBYTE {
        format!(in alloc; "{bytes} bytes")
    } else if bytes < MEGABYTE {
        in_tenths(alloc, bytes, 100, "KB")
    } else if bytes < GIGABYTE {
        in_tenths(alloc, bytes, 100_000, "MB")
    } else {
        in_tenths(alloc, bytes, 100_000_000, "GB")
    }
}

/// A number of bytes in a unit that has ten times `tenth`, rounded to a tenth of it.
fn in_tenths(alloc: Global, bytes: u64, tenth: u64, unit: &str) -> Result<String, AllocError>
    requires { 0 < tenth }
{
    let tenths = bytes.saturating_add(tenth / 2) / tenth;
    let whole = grouped(alloc, tenths / 10)?;
    let rest = tenths % 10;
    format!(in alloc; "{whole}.{rest} {unit}")
}
