//! Who is told of compactions, and of the removals of files after them.

use crate::install_watch::InstallWatch;
use folder::Opened;
use install::RemovalWatch;

/// Who is told of the compactions of all levels, says after each which files may be removed, and is
/// told of these.
pub trait CleanWatch: InstallWatch + RemovalWatch {
    ghost use Rattle.std.specs.Prelude.{Bool, ℕ, List, Option};
    ghost use Rattle.store.specs.Cleaning.{names_in};

    /// The change that a call of `names` makes, with the names. By default any change is allowed.
    ghost lists: { Self → Option (List (List ℕ)) → Self → Type 0 } = { λ _ _ _. Unit {0} };

    /// The change that a call of `cleaned` makes, with its answer. By default any is allowed.
    ghost ends: { Self → Bool → Self → Type 0 } = { λ _ _ _. Unit {0} };

    /// Names of files of a folder that was `opened` as this: any list. Those that the version
    /// doesn't need are removed. None if nothing is to be removed, and no compaction to follow.
    fn names(&mut self, opened: &Opened) -> Option<Vec<String>>
        ensures { lists self.old (names_in result) self.new };

    /// Tells that these files are removed. The answer is whether to go on with what the folder was
    /// `opened` as.
    fn cleaned(&mut self, opened: &Opened) -> bool
        ensures { ends self.old result self.new };
}
