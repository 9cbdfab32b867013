//! The jobs that were done at a seat, for contracts alone.

ghost use Rattle.std.specs.Prelude.{◌≡◌, ℕ, List, [], ◌∷◌, ◌++◌};
ghost use Rattle.std.specs.Borrow.{ftrue};

use crate::job::Job;
use std::marker::Model;

// A ghost list of the numbers of the jobs done at a seat. It takes no memory, and does nothing at
// run time. By the invariant of `Seat`, each was drawn there and is listed once.
#[derive(Drop)]
pub struct Trail {
    pub ghost items: { List ℕ },
}

impl Model for Trail {
    ghost also_owns = { λ _. ftrue };
}

// It owns nothing.
unsafe impl Send for Trail {}

impl Trail {
    pub(crate) fn new() -> Trail
        ensures { result.items ≡ [] }
    {
        Trail {}
    }

    pub(crate) fn with(_before: &Trail, _job: &Job) -> Trail
        ensures { result.items ≡ _before.now.items ++ _job.now ∷ [] }
    {
        Trail {}
    }
}
