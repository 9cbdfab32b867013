//! A folder that is changed.

use session::{Host, Refusal, Session, refused_at};
use store::{SyncedVersion, sync_version};

/// The session of a folder that is changed, after what it was opened as is synced, so that it
/// outlives a crash.
pub(crate) fn begin_change<R: Host>(
    session: Session<'_, R>,
) -> Result<Session<'_, R, SyncedVersion>, Refusal> {
    let Session {
        rt,
        telling,
        begun,
        mut disk,
        opened,
        logs,
        ..
    } = session;
    disk.sync_ahead(opened.order, &opened.version, opened.manifest);
    match sync_version(rt.alloc(), &mut disk, opened) {
        Ok(opened) => Ok(Session {
            rt,
            telling,
            begun,
            disk,
            opened,
            logs,
            manifest: None,
        }),
        Err(fault) => Err(refused_at(rt, telling.folder, &disk, fault)),
    }
}
