//! A request, and its tests.

ghost use Rattle.std.specs.Prelude.{◌≡◌};
ghost use Rattle.compact.specs.Request.{request_in, request_test};

use crate::request_conditions::{has_levels, has_options, has_snapshots, is_snapshot_list};
use ikey::{Comparator, Fault, FaultName};
use keep::Snapshots;
use pick::Inputs;
use table::Options;

/// What a compaction is asked for.
#[derive(Clone, Copy)]
pub struct Request<'a> {
    /// The inputs, and what has to be known of the deeper levels.
    pub picked: &'a Inputs,
    /// The bytes of the inputs' tables, in the order of the inputs.
    pub tables: &'a [&'a [u8]],
    /// The sequences that stay readable.
    pub snapshots: Snapshots<'a>,
    /// The number of the first output. The others are numbered from there on.
    pub first_number: u64,
    /// The version's log number, for the edit: that of the write-ahead log in use.
    pub log_number: u64,
    /// The version's previous log number, for the edit.
    pub previous_log: u64,
    /// The version's last sequence, for the edit. If snapshots are listed, all sequences from it on
    /// stay readable.
    pub last_sequence: u64,
    /// The limits of the outputs' blocks and sizes.
    pub options: Options,
}

impl<'a> Request<'a> {
    /// Tests the request, and answers the first refusal in this order. Takes no memory.
    ///
    /// 1. NoInput: there is no input.
    /// 2. Level: the level is above 5, or an input is neither of the level nor of the next.
    /// 3. Options: an option is outside its limits, there are more than 256 inputs, tables and
    ///    inputs are not equally many, or the largest keys of the grandparents don't rise strictly.
    /// 4. Snapshot: the oldest snapshot, a listed one, or the last sequence is 2^56 - 1 or more.
    /// 5. SnapshotList: more than 4,096 snapshots are listed, they don't rise strictly, or one is
    ///    above the last sequence.
    pub fn check<C: Comparator>(&self) -> Result<(), Fault>
        ensures { result ≡ request_test C.cmp (request_in self.now) }
    {
        if self.picked.files.is_empty() {
            return Err(Fault::of(FaultName::NoInput));
        }
        if !has_levels(self.picked) {
            return Err(Fault::of(FaultName::Level));
        }
        if !has_options::<C>(self) {
            return Err(Fault::of(FaultName::Options));
        }
        if !has_snapshots(self) {
            return Err(Fault::of(FaultName::Snapshot));
        }
        if !is_snapshot_list(self.snapshots, self.last_sequence) {
            return Err(Fault::of(FaultName::SnapshotList));
        }
        Ok(())
    }
}
