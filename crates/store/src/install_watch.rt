//! Who is told of compactions that were installed.

use crate::compaction_step::CompactionStep;
use folder::Version;

/// Who is told of the compactions of all levels, of each when it is installed.
pub trait InstallWatch {
    ghost use Rattle.std.specs.Prelude.{Bool};
    ghost use Rattle.store.specs.Step.{StepView, step_in};

    /// The change that a call of `installed` makes for a step, with its answer. By default any
    /// change is allowed.
    ghost tells: { Self → StepView → Bool → Self → Type 0 } = { λ _ _ _ _. Unit {0} };

    /// Tells of a `step`, the compaction of a `level`, with the version `before` it and the one
    /// `after` it; None if memory ran out for that one. The answer is whether to go on.
    fn installed(
        &mut self,
        level: u64,
        step: &CompactionStep,
        before: &Version,
        after: Option<&Version>,
    ) -> bool
        ensures { tells self.old (step_in step.now) result self.new };
}
