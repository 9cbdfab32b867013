//! Which rows of a version are wanted.

ghost use Rattle.std.specs.Prelude.{◌≡◌};
ghost use Rattle.reads.specs.Ranges.{key_range};
ghost use Rattle.scan.specs.ChosenRows.{chosen_range};

use reads::Range;

/// Which rows of a version are wanted.
#[derive(Clone, Copy)]
pub struct RowChoice<'k> {
    /// The first user key that may have a row. None excludes no key.
    pub from: Option<&'k [u8]>,
    /// The first user key after those that may have a row. None excludes no key.
    pub to: Option<&'k [u8]>,
    /// The sequence of the gets: any number. None is the version's last sequence.
    pub at: Option<u64>,
    /// The most rows. None is no limit.
    pub limit: Option<u64>,
}

impl<'k> RowChoice<'k> {
    /// The range of the user keys that may have a row.
    pub(crate) fn range(self) -> Range<'k>
        ensures { key_range result ≡ chosen_range self.entry }
    {
        Range {
            lower: self.from,
            upper: self.to,
        }
    }
}
