//! The options of a writer of tables.

ghost use Rattle.std.specs.Prelude.{◌≡◌, ◌↔◌, IsTrue};

use crate::table_check::MAX_TABLE_LEN;
use block::MAX_RESTART_INTERVAL;

/// The greatest block size, in bytes.
pub const MAX_BLOCK_SIZE: u64 = 4_194_304;

/// The default block size, in bytes.
pub const DEFAULT_BLOCK_SIZE: u64 = 4_096;

/// The default restart interval, in entries.
pub const DEFAULT_RESTART_INTERVAL: u64 = 16;

/// The default file size, in bytes.
pub const DEFAULT_FILE_SIZE: u64 = 2_097_152;

/// The options of a writer of tables. Each has its limits.
#[derive(Clone, Copy, PartialEq, Eq)]
pub struct Options {
    /// A data block ends with the entry that makes it at least this long: 1 to 4,194,304 bytes.
    pub block_size: u64,
    /// In a data block, each entry at a multiple of this is stored with its whole key, and a
    /// restart points at it: 1 to 1,024.
    pub restart_interval: u64,
    /// The maximal file size: an output may end when its flushed blocks are at least this long. 1
    /// to 2^30 bytes.
    pub file_size: u64,
}

impl Options {
    ghost use Rattle.table.specs.Options.{are_in_limits, AreInLimits};

    /// Whether each option is in its limits.
    pub fn are_in_limits(&self) -> bool
        ensures test { result ≡ are_in_limits self.now }
        ensures limits { IsTrue result ↔ AreInLimits self.now }
    {
        (1..=MAX_BLOCK_SIZE).contains(&self.block_size)
            && (1..=MAX_RESTART_INTERVAL).contains(&self.restart_interval)
            && (1..=MAX_TABLE_LEN as u64).contains(&self.file_size)
    }
}

impl Default for Options {
    ghost use Rattle.table.specs.declared.options.TheConstants.{DEFAULT_BLOCK_SIZE};
    ghost use Rattle.table.specs.declared.options.TheConstants.{DEFAULT_FILE_SIZE};
    ghost use Rattle.table.specs.declared.options.TheConstants.{DEFAULT_RESTART_INTERVAL};

    ghost is_default = { λ o. o ≡ record {
      block_size = DEFAULT_BLOCK_SIZE;
      restart_interval = DEFAULT_RESTART_INTERVAL;
      file_size = DEFAULT_FILE_SIZE;
    } };

    /// Blocks of 4,096 bytes, a restart for each 16 entries, and files of 2,097,152 bytes.
    fn default() -> Self {
        Options {
            block_size: DEFAULT_BLOCK_SIZE,
            restart_interval: DEFAULT_RESTART_INTERVAL,
            file_size: DEFAULT_FILE_SIZE,
        }
    }
}
