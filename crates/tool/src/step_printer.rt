//! What is printed and told of the steps of a compaction, and of the files that are removed after
//! each.

use crate::clean_work::{RemovalPrinter, files_named};
use crate::compaction_notes::{note_of, tell_made, tell_no_step, version_total};
use crate::printed_work::{DoneWork, print_compaction, tell_step, unprinted};
use answers::{CompactionEnd, FileTotal};
use disk::Disk;
use folder::{Bytewise, Fault, Opened, Version};
use install::RemovalWatch;
use session::{
    Beginning, Host, LAST_LEVEL, ProgressLine, Refusal, Telling, UnneededFiles, WorkLeft,
    bytes_of_files,
};
use std::time::Clock;
use store::{CleanWatch, CompactionStep, InstallWatch, bottom, next_level};
use usage::CompactLine;

/// Who prints the steps of a compaction of all levels. If files are removed after each, it lists
/// these, and prints them.
#[derive(Drop)]
pub(crate) struct StepPrinter<'t, R> {
    rt: &'t R,
    telling: Telling<'t>,
    progress: &'t ProgressLine<'t, R>,
    /// The bytes of full blocks that a new file has when it ends.
    file_size: u64,
    /// Whether the lines are JSON.
    is_json: bool,
    /// Whether files are removed after each step.
    cleans: bool,
    /// Who prints these.
    removals: RemovalPrinter<'t, R>,
    /// The level to which all files go.
    bottom: u64,
    /// All files before the first step.
    before: FileTotal,
    /// All files after the last step. None if they can't be counted.
    after: Option<FileTotal>,
    /// Whether it was told that filters are gone.
    has_told_filters: bool,
    /// How many steps are done.
    done: u64,
    /// When the step began, if that is told.
    begun: Option<Beginning>,
    /// Why the lines of a step could not be printed, or why it was refused to go on after it. No
    /// step comes after that one.
    refusal: Option<Refusal>,
}

impl<'t, R: Eprint + Clock + AllocGlobal> StepPrinter<'t, R> {
    /// Who prints the steps from a version on. The first one begins.
    pub fn new(
        rt: &'t R,
        telling: Telling<'t>,
        progress: &'t ProgressLine<'t, R>,
        version: &Version,
        line: &CompactLine<'_>,
    ) -> Result<StepPrinter<'t, R>, Fault> {
        let bottom = bottom(rt.alloc(), version)?;
        let before = version_total(rt.alloc(), version)?;
        let steps = StepPrinter {
            rt,
            telling,
            progress,
            file_size: line.settings.options.file_size,
            is_json: line.options.is_json,
            cleans: line.options.cleans,
            removals: RemovalPrinter::new(rt, line.options.is_json),
            bottom,
            before,
            after: None,
            has_told_filters: false,
            done: 0,
            begun: telling.begin(rt),
            refusal: None,
        };
        steps.show_left(version);
        Ok(steps)
    }

    /// Whether all steps could be printed, and none was the last one for a reason. If so, it is
    /// told what was made of all files.
    pub fn end(&mut self) -> Result<(), Refusal> {
        if let Some(refusal) = self.refusal.take() {
            return Err(refusal);
        }
        if self.done == 0 {
            tell_no_step(self.rt, self.telling, self.bottom, self.before.files);
        } else if let Some(after) = self.after {
            tell_made(self.rt, self.telling, self.before, after);
        }
        Ok(())
    }

    /// Has the line of progress show the step that begins at a version.
    fn show_left(&self, version: &Version) {
        if let Ok(Some(left)) = self.work_left(version) {
            self.progress.begin_step(self.done, left);
        }
    }

    /// What is left above the bottom of a version. None if no file is above it.
    ///
    /// A level takes one step if it is level 0, or if all that comes down to it is no larger
    /// together with the next level than the parts that a step takes. Else one file is moved down a
    /// step, of its own or from above.
    fn work_left(&self, version: &Version) -> Result<Option<WorkLeft>, Fault> {
        let alloc = self.rt.alloc();
        let bottom = self.bottom.min(LAST_LEVEL);
        let Some(level) = next_level(alloc, version, bottom)? else {
            return Ok(None);
        };
        let (mut steps, mut bytes) = (0u64, 0u64);
        for level in 0..bottom {
            let files = version.files::<Bytewise>(alloc, level)?;
            let below = version.files::<Bytewise>(alloc, level + 1)?;
            let new_files = bytes.div_ceil(self.file_size.max(1));
            let come = new_files.saturating_add(files.len() as u64);
            bytes = bytes.saturating_add(bytes_of_files(&files));
            let together = bytes.saturating_add(bytes_of_files(&below));
            let is_one = level == 0 || together <= self.telling.memory;
            steps = steps.saturating_add(if is_one { come.min(1) } else { come });
        }
        Ok(Some(WorkLeft {
            level,
            steps,
            bytes,
        }))
    }

    /// Ends a step, and begins the next one.
    pub fn end_step(&mut self, after: Option<&Version>) {
        self.done = self.done.saturating_add(1);
        self.after = None;
        if let Some(after) = after {
            self.after = version_total(self.rt.alloc(), after).ok();
            self.show_left(after);
        }
        self.begun = self.telling.begin(self.rt);
    }
}

impl<'t, R: Host> InstallWatch for StepPrinter<'t, R> {
    fn installed(
        &mut self,
        level: u64,
        step: &CompactionStep,
        before: &Version,
        after: Option<&Version>,
    ) -> bool {
        let (rt, outputs, deleted) = (self.rt, &step.outputs, &step.deleted);
        self.progress.erase();
        tell_step(rt, level, self.begun);
        let note = if self.has_told_filters {
            None
        } else {
            note_of(rt, self.telling, before, outputs, deleted)
        };
        let end = CompactionEnd::Installed(step.manifest);
        if let Err(refusal) = print_compaction(rt, level, outputs, deleted, end, self.is_json) {
            let folder = self.telling.folder;
            self.refusal = Some(unprinted(rt.alloc(), folder, DoneWork::Step, refusal));
            return false;
        }
        if let Some(note) = note {
            self.has_told_filters = note.tell_filters(rt, self.telling);
        }
        if !self.cleans {
            self.end_step(after);
        }
        true
    }
}

impl<'t, R: Host> RemovalWatch for StepPrinter<'t, R> {
    fn removed(&mut self, name: &str) {
        self.removals.removed(name);
    }
}

impl<'t, R: Host> CleanWatch for StepPrinter<'t, R> {
    fn names(&mut self, opened: &Opened) -> Option<Vec<String>> {
        if !self.cleans {
            return Some(Vec::new(self.rt.alloc()));
        }
        let folder = self.telling.folder;
        let mut disk = Disk::new(self.rt, folder);
        match files_named(self.rt, folder, &mut disk, Some(opened.manifest)) {
            Ok((_, files)) => {
                let UnneededFiles { names, lengths } = files;
                self.removals.begin(lengths);
                Some(names)
            }
            Err(refusal) => {
                self.refusal = Some(refusal);
                None
            }
        }
    }

    fn cleaned(&mut self, opened: &Opened) -> bool {
        if self.cleans {
            self.refusal = self.removals.take_refusal(self.telling.folder);
            if self.refusal.is_none() {
                self.end_step(Some(&opened.version));
            }
        }
        self.refusal.is_none()
    }
}
