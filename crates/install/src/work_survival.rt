//! What work on a folder leaves of it.

ghost use Rattle.install.specs.Installation.{InstallCallsSurvive, InstallationSurvives};
ghost use Rattle.install.specs.NothingNamed.{NothingIsNamed};
ghost use Rattle.install.specs.Work.{WorkSurvives};

use folder::Folder;

/// Whatever pieces of work follow one another, a crash at any moment leaves a version that was
/// named. A call does nothing.
pub fn work_survives<F: Folder>(_folder: &F)
    ensures { WorkSurvives F.Folder }
{}

/// So a crash at any moment of an installation leaves the version before or the edited one, each
/// with its manifest. A call does nothing.
pub fn installation_survives<F: Folder>(_folder: &F)
    ensures { InstallationSurvives F.Folder }
{}

/// The same is so of the calls of an installation alone, whoever made them on whichever folder. A
/// call does nothing.
pub fn install_calls_survive()
    ensures { InstallCallsSurvive }
{}

/// A manifest whose edit is that of no outcome names no version. So work can't name one before it
/// has written an outcome. A call does nothing.
pub fn nothing_named()
    ensures { NothingIsNamed }
{}
