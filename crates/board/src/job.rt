//! A job that a seat draws.

use std::marker::Model;

/// A job that was drawn. It has to be spent at the seat that drew it, by `done`, `fail` or `skip`.
/// Contracts see its number.
pub struct Job {
    number: u64,
}

impl Model for Job {
    ghost use Rattle.std.specs.Prelude.{ℕ};

    ghost Value = { ℕ };

    ghost view = { λ j. j.number };
}

impl Job {
    ghost use Rattle.std.specs.Prelude.{◌≡◌};

    pub(crate) fn new(number: u64) -> Job
        ensures { result ≡ number }
    {
        Job { number }
    }

    /// The job's number, from 0 on.
    pub fn number(&self) -> u64
        ensures { result ≡ self.now }
    {
        self.number
    }

    pub(crate) fn spend(self) -> u64
        ensures { result ≡ self }
    {
        let Job { number } = self;
        number
    }
}
