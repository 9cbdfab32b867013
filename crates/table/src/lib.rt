//! Tables: sorted lists of entries in files. `layout.rt` shows the format.
//!
//! 1. A [`TableBuilder`] with its [`Options`] writes a table, entry by entry.
//! 2. [`check`] reads bytes as a table and answers a [`SoundTable`]. An [`OwnedTable`] keeps its
//!    bytes with the [`Bounds`] that this check found, and lends a `SoundTable` again and again.
//!    [`reopen_table`] makes one of bytes that are lent again, with these bounds.
//! 3. A [`TableCursor`] walks a `SoundTable`, and seeks in it, without a further test. [`Cursor`]
//!    is what each cursor over sorted entries promises.
//!
//! Beside the blocks a table has these:
//!
//!     handle     offset, size: varint64       where a block is
//!     trailer    type: 1 byte; checksum: 4    after the contents of each block
//!     footer     48 bytes                     two handles, zeros and the magic
//!
//! A [`BlockHandle`] and a [`Footer`] are written by `push` and read by `read`. [`Trailer::of`] and
//! [`Trailer::push`] write a trailer; [`contents`] reads a stored block, [`reopen_contents`]
//! without its tests. That a checksum finds each damage is not claimed: it has 32 bits.
//!
//! [`push_stored`], [`push_index_entry`] and [`push_closing`] write the parts of a table, for a
//! writer that has its data blocks already. [`data_blocks_law`], [`reads_tables`],
//! [`table_reads_back`] and [`parts_read_back`] are laws of the format.
//!
//! No contract says how much of a table a seek reads, or how much memory a cursor takes.
#![tactic(auto)]

mod block_walk;
mod bounds;
mod builder;
mod cursor;
mod data_bounds;
mod flushed;
mod flushed_block;
mod footer;
mod handle;
mod indexed_block;
mod key_list;
mod layout;
mod named_block;
mod options;
mod owned_table;
mod parts_law;
mod sound_table;
mod table_check;
mod table_cursor;
mod table_laws;
mod tally;
mod trailer;

pub use bounds::Bounds;
pub use builder::TableBuilder;
pub use coding::{Fault, FaultName};
pub use cursor::{Cursor, Entries};
pub use footer::{FOOTER_LEN, Footer, HANDLES_LEN};
pub use handle::{BlockHandle, HandleBehind};
pub use ikey::{Comparator, InternalKey, KeyBuf, MAX_SEQUENCE};
pub use key_list::KeyList;
pub use layout::{push_closing, push_index_entry, push_stored};
pub use options::{
    DEFAULT_BLOCK_SIZE, DEFAULT_FILE_SIZE, DEFAULT_RESTART_INTERVAL, MAX_BLOCK_SIZE, Options,
};
pub use owned_table::{OwnedTable, reopen_table};
pub use parts_law::parts_read_back;
pub use sound_table::SoundTable;
pub use table_check::{MAX_TABLE_LEN, MAX_VALUE_LEN, check, reads_tables};
pub use table_cursor::TableCursor;
pub use table_laws::{data_blocks_law, table_reads_back};
pub use tally::Tally;
pub use trailer::{TRAILER_LEN, Trailer, contents, reopen_contents};
