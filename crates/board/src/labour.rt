//! What the jobs are, and who is told of them.

ghost use Rattle.std.specs.Prelude.{◌<◌, ℕ, Option, IfOk, IfErr};
ghost use Rattle.coding.specs.declared.fault.Fault.{Fault};
ghost use Rattle.board.specs.RunAnswer.{IsResult, IsFaultOf};

use coding::Fault;

/// Work in numbered jobs, none of which needs another. Workers share it, and do its jobs in any
/// order.
pub trait Labour {
    /// The result of a job.
    type Out;

    /// How many jobs there are.
    ghost jobs: { Self → ℕ };

    /// The one fault that refuses the job, if one does. `Memory` is no such fault.
    ghost refusal: { Self → ℕ → Option Fault };

    /// Whether the job gives this result.
    ghost gives: { Self → ℕ → Self.Out → Type 0 };

    /// Does the job of this number. The fault is the stated one, or `Memory`.
    fn work(&self, job: u64) -> Result<Self::Out, Fault>
        requires { job < jobs self.now }
        ensures ok { IfOk result (λ out. IsResult (refusal self.now) (gives self.now) (job, out)) }
        ensures err { IfErr result (IsFaultOf (refusal self.now) job) };
}

/// An observer: each worker calls it around each job that it draws, and around one that it skips
/// too.
pub trait Gate {
    /// The worker at `seat` drew `job`, and has not begun it.
    fn pass(&self, seat: u32, job: u64);

    /// The worker at `seat` has done, failed or skipped `job`.
    fn left(&self, seat: u32, job: u64);
}

/// The gate that does nothing.
#[derive(Clone, Copy)]
pub struct Open;

impl Gate for Open {
    fn pass(&self, _seat: u32, _job: u64) {}

    fn left(&self, _seat: u32, _job: u64) {}
}
