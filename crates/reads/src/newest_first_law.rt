//! Laws of what a version answers.

ghost use Rattle.reads.specs.NewestFirst.{AnswersNewestFirst};

/// The law that a version answers of a user key what the entries of the user key answer, the newest
/// first: the first that the sequence sees. A call does nothing.
pub fn answers_newest_first()
    ensures { AnswersNewestFirst }
{}
