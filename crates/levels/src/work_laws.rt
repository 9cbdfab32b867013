//! What a crash leaves of compactions of levels.

ghost use Rattle.store.specs.Cleaning.{teller_by};
ghost use Rattle.levels.specs.Survival.{DescentsSurvive, LevelsSurvive};

use folder::Folder;
use install::{installation_survives, work_survives};
use store::{CleanWatch, compactions_survive};

/// A crash at any moment of the compaction of a level leaves the version before or the edited one,
/// whatever was read. It asks that the folder stands for the version, as after its syncs, and that
/// the numbers of its files are below next file. A call does nothing.
pub fn levels_survive<F: Folder>(folder: &F)
    ensures { LevelsSurvive F.Folder }
{
    work_survives(folder);
    installation_survives(folder);
    compactions_survive(folder);
}

/// Of compactions of levels, one after the other, with removals between, each that was told is
/// durable: no crash after that leaves a version before it. A call does nothing.
pub fn descents_survive<F: Folder, T: CleanWatch>(folder: &F, _told: &T)
    ensures { DescentsSurvive F.Folder
        (teller_by T.InstallWatch.tells T.lists T.RemovalWatch.tells T.ends) }
{
    levels_survive(folder);
    work_survives(folder);
}
