//! Tables of a folder that were checked so far.

ghost use Rattle.std.specs.Prelude.{◌≡◌, ◌++◌, IfOk, IfErr};
ghost use Rattle.ikey.specs.Answers.{fault};
ghost use Rattle.ikey.specs.fault.FaultName.TheVariants.{Memory};
ghost use Rattle.checks.specs.HeldTables.{held_numbers};

use crate::held_tables::HeldTables;
use ikey::{Comparator, Fault};
use std::alloc::Global;

/// Tables of a folder that were checked so far: those that are held still, and the numbers of all
/// that are valid.
#[derive(Drop)]
pub(crate) struct CheckedTables<C: Comparator> {
    pub held: HeldTables<C>,
    pub sound: Vec<u64>,
}

impl<C: Comparator> CheckedTables<C> {
    /// Notes the numbers of those that are held.
    pub fn note(&mut self, alloc: Global) -> Result<(), Fault>
        ensures held { self.new.held ≡ self.old.held }
        ensures sound { IfOk result (λ _. self.new.sound.items
            ≡ self.old.sound.items ++ held_numbers self.old.held) }
        ensures memory { IfErr result (λ e. e ≡ fault Memory) }
    {
        let mut numbers = self.held.numbers(alloc)?;
        self.sound.append(&mut numbers)?;
        Ok(())
    }
}
