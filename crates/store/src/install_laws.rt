//! The laws of a sync, and of what a crash leaves of a compaction.

ghost use Rattle.store.specs.Compaction.{SyncLaw};
ghost use Rattle.store.specs.CompactionWork.{CompactionsSurvive, SyncsStand};

use folder::Folder;
use install::install_calls_survive;

/// If CURRENT, its manifest and the tables were synced or are missing, a sync of the folder makes
/// it stand for the version that it reads as. `sync_version` syncs those too. A call does nothing.
pub fn sync_stands()
    ensures { SyncLaw }
{}

/// What `runs` says of a compaction, of any folder, says what a crash leaves: the version before or
/// the edited one, each with its manifest. It asks that the folder stands for the version, as after
/// the syncs, and that the answer's edit makes the edited one (`closed_is_installed`). A call does
/// nothing.
pub fn compactions_survive<F: Folder>(_folder: &F)
    ensures installed { CompactionsSurvive F.Folder }
    ensures synced { SyncsStand F.Folder }
{
    install_calls_survive();
}
