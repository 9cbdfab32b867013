//! A log of records, as a manifest is one.
//!
//!     log       = blocks of 32,768 bytes; only the last may be shorter
//!     fragment  = checksum   4 bytes, little-endian: masked CRC-32C of type and content
//!                 length     2 bytes, little-endian: 0 to 32,761
//!                 type       1 byte: FULL 1, FIRST 2, MIDDLE 3, LAST 4
//!                 content
//!
//! 1. A record is one FULL fragment, or a FIRST, MIDDLEs and a LAST. No fragment crosses a block's
//!    end.
//! 2. All fragments of a record but the last fill their block. A LAST is never empty.
//! 3. If fewer than 7 bytes are left in a block, zeros fill them before the next record.
//!
//! [`append`] answers a log with one more record. [`records`] answers the records of a log, and
//! refuses all other bytes, a torn tail too. A [`RecordReader`] reads them one at a time.
//! [`log_laws`] are laws of the format.
//!
//! That a checksum finds each damage is not claimed: it has 32 bits.
#![tactic(auto)]

mod format;
mod log_format_laws;
mod log_reader;
mod log_writer;
mod record_reader;

pub use log_format_laws::log_laws;
pub use log_reader::records;
pub use log_writer::append;
pub use record_reader::RecordReader;
