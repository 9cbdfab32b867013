//! Blocks: lists of entries whose keys share their beginnings. `layout.rt` shows the format.
//!
//! 1. A [`BlockBuilder`] writes a block, entry by entry.
//! 2. [`check`] reads bytes as a block and answers a [`SoundBlock`]. [`reopen`] does the same of
//!    bytes that are known to be a block, without a test.
//! 3. A [`BlockCursor`] walks a `SoundBlock` without a further test. A [`CheckingCursor`] walks
//!    bytes that may be a block, and makes the tests of `check` on its way.
//!
//! [`push_fields`] and [`push_restarts`] write the parts of a block, for a writer without a
//! builder. [`reads_back`] and [`reads_blocks`] are laws of the format.
//!
//! No contract says that keys are in order: a block's keys are any bytes.
#![tactic(auto)]

ghost use Rattle.std.specs.Prelude.{◌^◌, ◌≤◌, length, List, ℕ};
ghost use Rattle.block.specs.EncodedEntry.{Entry, IsBlock};
ghost use Rattle.block.specs.BlockReading.{ReadsBlocks};
ghost use Rattle.block.specs.BlockFormat.{block};
ghost use Rattle.block.specs.declared.builder.TheConstants.{MAX_BLOCK_LEN};

mod builder;
mod checking_cursor;
mod cursor;
mod front;
mod front_entry;
mod key_room;
mod layout;
mod read_ahead;
mod sound_block;

pub use builder::{BlockBuilder, EMPTY_BLOCK_LEN, MAX_BLOCK_LEN, MAX_RESTART_INTERVAL};
pub use checking_cursor::CheckingCursor;
pub use cursor::BlockCursor;
pub use layout::{next_since, push_fields, push_restarts, shared_len};
pub use sound_block::{RESTART_LEN, SoundBlock, check, reopen};

/// The law that the block of a list, at any restart interval and of at most 2^31 bytes, reads as
/// that list. A call does nothing.
pub fn reads_back()
    ensures { (r : ℕ) (q : List Entry) → length (block r q) ≤ MAX_BLOCK_LEN →
        IsBlock (block r q) q }
{}

/// The law that bytes read as a list exactly if they are a block of it. A call does nothing.
pub fn reads_blocks()
    ensures { ReadsBlocks }
{}
