//! What every format is made of: varints, CRC-32C, and the one fault of all crates.
//!
//! - [`Fault`] and [`FaultName`]: why a call is refused.
//! - [`push_varint`], [`push_slice`], [`read_u32_varint`], [`read_u64_varint`]: numbers of 1 to 10
//!   bytes, and slices after their length.
//! - [`crc32c`], [`crc32c_pair`], [`mask`], [`unmask`]: checksums, and the form in which they are
//!   stored.
//! - [`common_len`]: how long the common beginning of two slices is.
//! - [`one_reading`], [`remainder_law`]: laws of these formats.
//!
//! Numbers of fixed width are little-endian; `byteorder` reads and writes them. No contract says
//! that only a refused growth of memory answers Memory, or how fast a checksum is.
#![tactic(auto)]

mod common_prefix;
mod crc;
mod fault;
mod varint;

pub use common_prefix::common_len;
pub use crc::{crc32c, crc32c_pair, crc32c_plain, mask, remainder_law, unmask};
pub use fault::{Fault, FaultName};
pub use varint::{one_reading, push_slice, push_varint, read_u32_varint, read_u64_varint};
