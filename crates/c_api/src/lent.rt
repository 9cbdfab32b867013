//! What is lent to the calls of a compaction.

ghost use Rattle.std.specs.Prelude.{◌≡◌};
ghost use Rattle.c_api.specs.Held.{have_all_keys};
ghost use Rattle.c_api.specs.Merges.{are_inputs as are_within, asked_in};
ghost use Rattle.c_api.specs.Merges.{is_lent as lies_lent};

use crate::file::File;
use crate::input::{Input, is_input};
use crate::picked::have_keys;
use crate::request::HostRequest;
use crate::user_range::{UserRange, is_range};

/// What a compaction is asked for, and where that lies.
#[repr(C)]
#[derive(Clone, Copy)]
pub struct Lent<'a, 't> {
    /// The length of what the host knows of it. No call reads that.
    pub size: usize,
    pub request: HostRequest,
    /// The listed snapshots.
    pub snapshots: &'a [u64],
    /// The bytes in which all keys lie.
    pub keys: &'a [u8],
    /// The bytes in which all tables lie.
    pub tables: &'t [u8],
    pub inputs: &'a [Input],
    /// The files of the levels from `level` + 2 on.
    pub deeper: &'a [File],
    /// The range that is merged.
    pub range: UserRange,
}

/// What is lent, and the files of its inputs.
#[derive(Clone, Copy)]
pub(crate) struct LentFiles<'a> {
    pub lent: &'a Lent<'a, 'a>,
    pub files: &'a [File],
}

impl<'a> LentFiles<'a> {
    /// Whether all keys of the files, and of the deeper ones, are internal keys.
    pub(crate) fn have_keys(&self) -> bool
        ensures { result ≡ have_all_keys self.now }
    {
        have_keys(self.lent.keys, self.files) && have_keys(self.lent.keys, self.lent.deeper)
    }
}

/// Whether all inputs lie in what is lent.
pub(crate) fn are_inputs(keys: &[u8], tables: &[u8], inputs: &[Input]) -> bool
    ensures { result ≡ are_within keys.now tables.now inputs.now }
{
    inputs.iter().all(|input| is_input(keys, tables, input))
}

impl<'a, 't> Lent<'a, 't> {
    /// Whether each place lies in what is lent.
    pub(crate) fn is_lent(&self) -> bool
        ensures { result ≡ lies_lent (asked_in self.now) }
    {
        are_inputs(self.keys, self.tables, self.inputs)
            && have_keys(self.keys, self.deeper)
            && is_range(self.keys, &self.range)
    }
}
