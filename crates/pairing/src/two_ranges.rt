//! The jobs of merging two files.

use crate::range_pair::RangePair;
use crate::tested_entry::TestedEntry;
use board::Labour;
use ikey::Fault;
use std::alloc::Global;

/// Two ranges of user keys, one after the other. A job makes the union of the entries in one of
/// them.
#[derive(Drop)]
pub(crate) struct TwoRanges<'r, 'a> {
    pub alloc: Global,
    pub before: RangePair<'r, 'a>,
    pub from: RangePair<'r, 'a>,
}

impl<'r, 'a> Labour for TwoRanges<'r, 'a> {
    type Out = Vec<TestedEntry<'a>>;

    ghost use Rattle.board.specs.CollectedResults.{refusal_at, HasValue};
    ghost use Rattle.pairing.specs.TestedUnion.{tested_entries, unions_of};

    ghost jobs = { λ _. 2 };

    ghost refusal = { λ s job. refusal_at (unions_of s.before s.from) job };

    ghost gives = { λ s job out.
        HasValue (unions_of s.before s.from) job (tested_entries out.items) };

    fn work(&self, job: u64) -> Result<Vec<TestedEntry<'a>>, Fault> {
        if job == 0 {
            self.before.union(self.alloc)
        } else {
            self.from.union(self.alloc)
        }
    }
}
