//! The settings of a compaction.

use keep::Snapshots;
use table::Options;

/// What a compaction of a folder is asked to keep to.
#[derive(Clone, Copy)]
pub struct Settings<'s> {
    /// Its workers: 1 to 64.
    pub workers: u64,
    /// The most ranges of user keys into which it is split: 1 to 4,096.
    pub ranges: u64,
    /// Which sequences stay readable. If it is an empty list, these are the version's last sequence
    /// and all later ones.
    pub snapshots: Snapshots<'s>,
    /// The options of the outputs.
    pub options: Options,
}

impl<'s> Default for Settings<'s> {
    ghost use Rattle.std.specs.Prelude.{◌≡◌};
    ghost use Rattle.table.specs.declared.options.TheConstants.{DEFAULT_BLOCK_SIZE};
    ghost use Rattle.table.specs.declared.options.TheConstants.{DEFAULT_FILE_SIZE};
    ghost use Rattle.table.specs.declared.options.TheConstants.{DEFAULT_RESTART_INTERVAL};

    ghost is_default = { λ s. (s.workers ≡ 4) × (s.ranges ≡ 8)
        × (s.options ≡ record {
          block_size = DEFAULT_BLOCK_SIZE;
          restart_interval = DEFAULT_RESTART_INTERVAL;
          file_size = DEFAULT_FILE_SIZE;
        }) };

    /// Four workers, eight ranges, an empty list of snapshots, and the defaults of the options.
    fn default() -> Self {
        Settings {
            workers: 4,
            ranges: 8,
            snapshots: Snapshots::Listed(&[]),
            options: Options::default(),
        }
    }
}
