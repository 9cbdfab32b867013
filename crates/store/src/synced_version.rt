//! What a folder was opened as, and synced as.

ghost use Rattle.std.specs.Prelude.{◌≡◌};

use folder::{Opened, Order, Version};

/// Says that the files of a version were synced. Only this crate makes one.
#[derive(Clone, Copy, Drop)]
pub struct SyncMark;

/// What a folder was opened as, after its files were synced: what a compaction that installs
/// something asks for, so that none can begin without that sync.
///
/// [`sync_version`](crate::sync_version) makes it of what was opened, and
/// [`opened_after`](crate::opened_after) of what a compaction left, which is synced by then.
#[derive(Drop)]
pub struct SyncedVersion {
    /// The order of the user keys.
    pub order: Order,
    /// The version that the manifest gives.
    pub version: Version,
    /// The number of the manifest, which CURRENT names.
    pub manifest: u64,
    pub(crate) mark: SyncMark,
}

impl SyncedVersion {
    /// What the folder was opened as, of which this crate knows that its files were synced.
    pub(crate) fn of_synced(opened: Opened) -> SyncedVersion
        ensures order { result.order ≡ opened.order }
        ensures version { result.version ≡ opened.version }
        ensures manifest { result.manifest ≡ opened.manifest }
    {
        SyncedVersion {
            order: opened.order,
            version: opened.version,
            manifest: opened.manifest,
            mark: SyncMark,
        }
    }

    /// What the folder was opened as.
    pub fn into_opened(self) -> Opened
        ensures order { result.order ≡ self.order }
        ensures version { result.version ≡ self.version }
        ensures manifest { result.manifest ≡ self.manifest }
    {
        Opened {
            order: self.order,
            version: self.version,
            manifest: self.manifest,
        }
    }
}
