//! A walk over the entries of a range.

use crate::last_version::LastVersion;
use crate::range_run::RangeRun;
use std::marker::Model;

/// How far a range was walked: the run so far, the previous entry, and how many grandparents lie
/// below the first entry of its user key.
#[derive(Drop)]
pub(crate) struct Walk<'a> {
    pub run: RangeRun<'a>,
    pub last: LastVersion,
    pub passed: usize,
}

impl<'a> Model for Walk<'a> {
    ghost use Rattle.std.specs.Prelude.{[]};
    ghost use Rattle.reads.specs.BuilderView.{last_key};
    ghost use Rattle.keep.specs.Versions.{last_version};
    ghost use Rattle.keep.specs.WalkedRange.{WalkedRange, IsKeptLast};

    ghost Value = { WalkedRange };

    ghost view = { λ w. record {
      run = w.run;
      last = last_version (last_key [] w.run.kept) w.last;
      passed = w.passed;
    } };

    ghost invariant = { λ w. IsKeptLast w.run.kept w.last };
}
