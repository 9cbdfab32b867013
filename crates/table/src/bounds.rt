//! What a check finds of a table beside its bytes.

ghost use Rattle.std.specs.Prelude.{Ok};
ghost use Rattle.coding.specs.Answers.{EqualOrMemory};

use crate::tally::Tally;
use coding::Fault;
use ikey::KeyBuf;
use std::alloc::Global;

/// The first and the last key of entries, and what was counted of them.
#[derive(Drop)]
pub struct Bounds {
    pub smallest: KeyBuf,
    pub largest: KeyBuf,
    pub tally: Tally,
}

impl Bounds {
    /// A copy.
    pub(crate) fn copied(&self, alloc: Global) -> Result<Bounds, Fault>
        ensures { EqualOrMemory (λ bounds. bounds) result (Ok self.now) }
    {
        Ok(Bounds {
            smallest: KeyBuf::of(alloc, self.smallest.as_key())?,
            largest: KeyBuf::of(alloc, self.largest.as_key())?,
            tally: self.tally,
        })
    }
}
