//! The host's request.

ghost use Rattle.std.specs.Prelude.{◌≡◌};
ghost use Rattle.c_api.specs.Requests.{options_of, snapshots_of};

use compact::Snapshots;
use table::Options;

/// What a host asks for.
#[repr(C)]
#[derive(Clone, Copy, Drop)]
pub struct HostRequest {
    /// The order of user keys.
    pub order: u32,
    /// Not 0 if the readable sequences are listed.
    pub is_listed: u32,
    /// The level of the compaction, from 0 to 5.
    pub level: u64,
    /// If no sequences are listed, this one and every later one stay readable.
    pub oldest: u64,
    /// The version's last sequence. If sequences are listed, all from it on stay readable, too.
    pub last_sequence: u64,
    /// The limits of the outputs' blocks and sizes.
    pub block_size: u64,
    pub restart_interval: u64,
    pub file_size: u64,
    /// The number of the first output; any if the host numbers them after the plan.
    pub first_number: u64,
}

impl HostRequest {
    /// The options of the outputs.
    pub(crate) fn options(&self) -> Options
        ensures { result ≡ options_of self.now }
    {
        Options {
            block_size: self.block_size,
            restart_interval: self.restart_interval,
            file_size: self.file_size,
        }
    }

    /// Which sequences stay readable, if `listed` are those that are listed.
    pub(crate) fn snapshots<'a>(&self, listed: &'a [u64]) -> Snapshots<'a>
        ensures { result ≡ snapshots_of self.now listed.entry }
    {
        if self.is_listed == 0 {
            Snapshots::From(self.oldest)
        } else {
            Snapshots::Listed(listed)
        }
    }
}
