//! What is done to a folder, and what is told of it.

use crate::rows::{Act, Row};
use crate::silent_shelf::SilentShelf;
use crate::steps::Step;
use adoption::{Comparison, begin_taking, install_taken, take_outcome};
use coding::Fault;
use edit::{DeletedFile, Version};
use folder::{Opened, ReadsTables, WritesTables, open};
use keep::Snapshots;
use levels::{Descent, DescentEnd, Selection};
use std::alloc::Global;
use std::collections::BTreeSet;
use std::test::*;
use std::thread::Threads;
use store::{
    Choice, CleanWatch, CompactionOutcome, CompactionStep, InstallWatch, Open, OutcomeSettings,
    RemovalWatch, Settings, SyncedVersion, checkers, outcome, sync_version, write_outcome,
};

/// How many bytes of tables are held while a version is tested.
const MEMORY: u64 = 1_073_741_824;

/// Compacts a level of a folder, as the program does.
pub(crate) fn compact_dir<F: ReadsTables + WritesTables, R: Threads + Sync>(
    rt: &R,
    alloc: Global,
    folder: &mut F,
    level: u64,
) -> Result<CompactionStep, Fault> {
    let workers = checkers(rt, alloc, &Open);
    store::compact_dir(&workers, folder, level, &Settings::default(), MEMORY)
}

/// Who is told of steps and of removed files, and gives the names of files after each step.
#[derive(Drop)]
pub(crate) struct Told {
    alloc: Global,
    /// What is done.
    row: &'static Row,
    /// How many steps were told, and whether they are those of the row, in order.
    pub steps: usize,
    pub is_right: bool,
    /// How many files were told.
    pub removed: usize,
}

impl Told {
    /// Nothing was told yet.
    pub fn none(alloc: Global, row: &'static Row) -> Told {
        Told {
            alloc,
            row,
            steps: 0,
            is_right: true,
            removed: 0,
        }
    }

    /// The step that is to be told next.
    fn next(&self) -> Option<&'static Step> {
        self.row.steps.get(self.steps)
    }

    /// Is told of a step.
    fn tell(&mut self, step: &CompactionStep) {
        let next = self.next();
        self.count(next.is_some_and(|wanted| is_step(step, wanted)));
    }

    /// Is told of an outcome that was written.
    fn tell_outcome(&mut self, made: &CompactionOutcome) {
        let edit = made.outcome.edit.as_slice();
        let next = self.next();
        self.count(next.is_some_and(|one| is_made(&made.outputs, &made.deleted, edit, one)));
    }

    /// Is told of the manifest of a step alone.
    fn tell_manifest(&mut self, manifest: u64) {
        let next = self.next();
        self.count(next.is_some_and(|wanted| manifest == wanted.manifest));
    }

    /// Counts a step, which is the next one of the row or is not.
    fn count(&mut self, is_next: bool) {
        self.is_right = self.is_right && is_next;
        self.steps = self.steps.saturating_add(1);
    }

    /// Whether compactions are to end after the first step.
    fn stops(&self) -> bool {
        matches!(self.row.act, Act::Stop(_))
    }
}

/// Whether deleted files are these.
fn are_deleted(deleted: &BTreeSet<DeletedFile>, wanted: &[(u64, u64)]) -> bool {
    for (file, one) in deleted.iter().zip(wanted) {
        if (file.level, file.number) != *one {
            return false;
        }
    }
    deleted.len() == wanted.len()
}

/// Whether these are the outputs, the deleted files and the edit of the wanted step.
fn is_made(
    outputs: &[(u64, u64)],
    deleted: &BTreeSet<DeletedFile>,
    edit: &[u8],
    wanted: &Step,
) -> bool {
    outputs == wanted.outputs && are_deleted(deleted, wanted.deleted) && edit == wanted.edit
}

/// Whether a step is the wanted one.
fn is_step(step: &CompactionStep, wanted: &Step) -> bool {
    step.manifest == wanted.manifest && is_made(&step.outputs, &step.deleted, &step.edit, wanted)
}

impl InstallWatch for Told {
    fn installed(
        &mut self,
        _level: u64,
        step: &CompactionStep,
        _before: &Version,
        _after: Option<&Version>,
    ) -> bool {
        self.tell(step);
        !self.stops()
    }
}

impl RemovalWatch for Told {
    fn removed(&mut self, _name: &str) {
        self.removed = self.removed.saturating_add(1);
    }
}

impl CleanWatch for Told {
    fn names(&mut self, _opened: &Opened) -> Option<Vec<String>> {
        let step = self.row.steps.get(self.steps.saturating_sub(1))?;
        names_of(self.alloc, step.listed)
    }

    fn cleaned(&mut self, _opened: &Opened) -> bool {
        true
    }
}

/// Names, each in a string of its own.
fn names_of(alloc: Global, listed: &[&str]) -> Option<Vec<String>> {
    let mut names = Vec::new(alloc);
    for name in listed {
        names.push(String::from_str(alloc, name).ok()?).ok()?;
    }
    Some(names)
}

/// What a folder is opened as, synced.
fn synced(alloc: Global, folder: &mut SilentShelf<'_>) -> Result<SyncedVersion, Fault> {
    let opened = open(alloc, folder)?;
    sync_version(alloc, folder, opened)
}

/// Compacts level 1 of a folder, all of it.
fn compact_level<R: Threads + Sync>(
    rt: &R,
    folder: &mut SilentShelf<'_>,
    told: &mut Told,
) -> Result<CompactionStep, Fault> {
    let opened = synced(told.alloc, folder)?;
    let workers = checkers(rt, told.alloc, &Open);
    levels::compact_level(&workers, folder, &opened, 1, &Settings::default(), MEMORY)
}

/// Compacts all levels of a folder, by parts that have at most so many bytes.
fn compact_levels<R: Threads + Sync>(
    rt: &R,
    folder: &mut SilentShelf<'_>,
    told: &mut Told,
    fitting: u64,
) -> Result<(), Fault> {
    let opened = synced(told.alloc, folder)?;
    let workers = checkers(rt, told.alloc, &Open);
    let descent = Descent {
        selection: Selection::Fitting(fitting),
        settings: Settings::default(),
        test: Some(MEMORY),
    };
    let end = levels::compact_levels(&workers, folder, opened, &descent, told)?;
    told.is_right = told.is_right && (end == DescentEnd::Stopped) == told.stops();
    Ok(())
}

/// Installs the outcomes that other folders hold, by one manifest, and answers its number.
fn install<R: Threads + Sync>(
    rt: &R,
    alloc: Global,
    folder: &mut SilentShelf<'_>,
    sources: &mut [SilentShelf<'_>],
) -> Result<u64, Fault> {
    let opened = synced(alloc, folder)?;
    let workers = checkers(rt, alloc, &Open);
    let comparison = Comparison::With(Snapshots::Listed(&[]));
    let mut taken = begin_taking(&workers, folder, &opened, comparison, MEMORY)?;
    for source in sources {
        taken = take_outcome(&workers, folder, source, taken)?.taken;
    }
    Ok(install_taken(&workers, folder, taken, MEMORY)?.manifest)
}

/// Writes the outcome of a compaction of level 1 of another folder into a folder.
fn write_from<R: Threads + Sync>(
    rt: &R,
    alloc: Global,
    folder: &mut SilentShelf<'_>,
    source: &mut SilentShelf<'_>,
) -> Result<CompactionOutcome, Fault> {
    let opened = open(alloc, source)?;
    let workers = checkers(rt, alloc, &Open);
    let asked = OutcomeSettings {
        first: None,
        settings: Settings::default(),
    };
    let level = Choice::Picked(1);
    let made = outcome(&workers, source, &opened, level, &asked, Some(MEMORY))?;
    write_outcome(rt, folder, &made.outcome)?;
    Ok(made)
}

/// Writes the outcomes of all these folders.
fn write<R: Threads + Sync>(
    rt: &R,
    folder: &mut SilentShelf<'_>,
    sources: &mut [SilentShelf<'_>],
    told: &mut Told,
) -> Result<(), Fault> {
    for source in sources {
        let made = write_from(rt, told.alloc, folder, source)?;
        told.tell_outcome(&made);
    }
    Ok(())
}

/// Does what a row says to a folder, with others that are only read.
pub(crate) fn done<R: Threads + Sync>(
    rt: &R,
    folder: &mut SilentShelf<'_>,
    sources: &mut [SilentShelf<'_>],
    told: &mut Told,
) -> Result<(), Fault> {
    match told.row.act {
        Act::Compact => {
            let step = compact_dir(rt, told.alloc, folder, 1)?;
            told.tell(&step);
        }
        Act::Whole => {
            let step = compact_level(rt, folder, told)?;
            told.tell(&step);
        }
        Act::All(fitting) | Act::Stop(fitting) => compact_levels(rt, folder, told, fitting)?,
        Act::Install => {
            let manifest = install(rt, told.alloc, folder, sources)?;
            told.tell_manifest(manifest);
        }
        Act::Write => write(rt, folder, sources, told)?,
    }
    Ok(())
}
