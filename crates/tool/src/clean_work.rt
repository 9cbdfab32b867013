//! The files of a folder that its version doesn't need, which are listed or removed.

use crate::folder_change::begin_change;
use crate::printed_work::{DoneWork, unprinted};
use answers::{json_line, removed_json};
use disk::{Disk, SystemFiles};
use folder::{Fault, FaultName};
use install::{RemovalWatch, remove_obsolete};
use session::{
    Answer, Host, Opened, Refusal, Session, UnneededFiles, open_in, print_lines, refused_at,
    sizes_tested, unneeded_files,
};

/// Removes the files of a folder that its version doesn't need, and prints each when it is removed,
/// as JSON if that is asked for.
pub fn clean_folder<R: Host>(session: Session<'_, R>, is_json: bool) -> Result<(), Refusal> {
    let files = files_to_clean(&session)?;
    if files.names.is_empty() {
        return Ok(());
    }
    let Session {
        rt,
        telling,
        mut disk,
        opened,
        ..
    } = begin_change(session)?;
    let opened = opened.into_opened();
    remove_files(rt, telling.folder, &mut disk, &opened, files, is_json)
}

/// The lines of the files that a folder's version doesn't need. Nothing is written.
pub fn removable_answer<R: Host>(session: &Session<'_, R>) -> Answer {
    let files = files_to_clean(session)?;
    let mut lines = String::new(session.rt.alloc());
    for (name, bytes) in files.names.iter().zip(&files.lengths) {
        writeln!(lines, "removable {name} {bytes}")?;
    }
    Ok(lines.into_bytes())
}

/// The files of a folder that its version doesn't need, if its tables are there. Of files that stay
/// and that a new one may replace it is told.
fn files_to_clean<R: Host>(session: &Session<'_, R>) -> Result<UnneededFiles, Refusal> {
    let (rt, telling, opened) = (session.rt, session.telling, &session.opened);
    sizes_tested(rt, telling.folder, opened)?;
    let files = unneeded_files(rt, telling.folder, opened)?;
    telling.tell_replaceable(rt, &opened.version, &files.names);
    Ok(files)
}

/// Removes these files of a folder that stands for the version that it was opened as, and prints
/// each when it is removed, as JSON if that is asked for.
fn remove_files<R: SystemFiles + Print + AllocGlobal>(
    rt: &R,
    path: &str,
    folder: &mut Disk<'_, R>,
    opened: &Opened,
    files: UnneededFiles,
    is_json: bool,
) -> Result<(), Refusal> {
    let mut printer = RemovalPrinter::new(rt, is_json);
    let UnneededFiles { names, lengths } = files;
    printer.begin(lengths);
    if let Err(fault) = remove_obsolete(rt.alloc(), folder, opened, &names, &mut printer) {
        return Err(refused_at(rt, path, folder, fault));
    }
    printer.take_refusal(path).map_or(Ok(()), Err)
}

/// Removes the files of a folder that the version doesn't need that was installed by the manifest
/// of this number, as [`files_named`] lists them. They are printed, as JSON if that is asked for.
pub(crate) fn clean_named<R: SystemFiles + Print + AllocGlobal>(
    rt: &R,
    path: &str,
    folder: &mut Disk<'_, R>,
    manifest: Option<u64>,
    is_json: bool,
) -> Result<(), Refusal> {
    let (opened, files) = files_named(rt, path, folder, manifest)?;
    remove_files(rt, path, folder, &opened, files, is_json)
}

/// What a folder is opened as, and the files that it doesn't need, if its tables are there. Changed
/// if CURRENT names another manifest than that of this number. It only reads.
pub(crate) fn files_named<R: SystemFiles + AllocGlobal>(
    rt: &R,
    path: &str,
    folder: &mut Disk<'_, R>,
    manifest: Option<u64>,
) -> Result<(Opened, UnneededFiles), Refusal> {
    let opened = open_in(rt, path, folder)?;
    if manifest != Some(opened.manifest) {
        return Err(Fault::of(FaultName::Changed).into());
    }
    sizes_tested(rt, path, &opened)?;
    let files = unneeded_files(rt, path, &opened)?;
    Ok((opened, files))
}

/// Who prints files when they are removed.
#[derive(Drop)]
pub(crate) struct RemovalPrinter<'t, R> {
    rt: &'t R,
    /// Whether the lines are JSON.
    is_json: bool,
    /// How many bytes each file has that is to be removed, the first one's last.
    lengths: Vec<u64>,
    /// Why the first line that could not be printed was not.
    refusal: Option<Refusal>,
}

impl<'t, R: AllocGlobal> RemovalPrinter<'t, R> {
    /// Who prints files, as JSON if that is asked for. None is to be removed yet.
    pub fn new(rt: &'t R, is_json: bool) -> RemovalPrinter<'t, R> {
        RemovalPrinter {
            rt,
            is_json,
            lengths: Vec::new(rt.alloc()),
            refusal: None,
        }
    }

    /// Files of these `lengths` will be removed, in this order.
    pub fn begin(&mut self, lengths: Vec<u64>) {
        self.lengths = lengths;
        self.lengths.reverse();
    }

    /// The refusal if a line of the files of a `folder` could not be printed.
    pub fn take_refusal(&mut self, folder: &str) -> Option<Refusal> {
        let refusal = self.refusal.take()?;
        Some(unprinted(self.rt.alloc(), folder, DoneWork::Removal, refusal))
    }
}

impl<'t, R: Print + AllocGlobal> RemovalPrinter<'t, R> {
    /// Prints the line of a file that is removed.
    fn print(&self, name: &str, length: u64) -> Result<(), Refusal> {
        let alloc = self.rt.alloc();
        if self.is_json {
            let line = json_line(alloc, &removed_json(alloc, name, length)?)?;
            return print_lines(self.rt, line.as_bytes());
        }
        let printed = println!(self.rt; "removed {name} {length}");
        printed.map_err(|error| Refusal::of_output(alloc, &error))
    }
}

impl<'t, R: Print + AllocGlobal> RemovalWatch for RemovalPrinter<'t, R> {
    fn removed(&mut self, name: &str) {
        let length = self.lengths.pop().unwrap_or(0);
        if self.refusal.is_none() {
            self.refusal = self.print(name, length).err();
        }
    }
}
