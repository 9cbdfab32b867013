//! What is told if the outcome of a compaction is refused.

use disk::Disk;
use folder::{Fault, FaultName, Folder, Order, VersionEdit};
use refusals::{Stated, compaction_explained, file_fault, is_of_no_file, unlike_edit};
use session::{
    Host, Refusal, RefusalText, Telling, Words, deleted_files, is_there, of_file, path_in, said,
    table_file_name, told_of_file,
};
use std::alloc::Global;
use store::{EDIT, SyncedVersion, manifest_of};
use usage::{InstallLine, Settings};

/// What to do about an outcome.
const REMEDY: &str = "make the outcome again";

/// What is wrong with an outcome without EDIT.
const NO_EDIT: &str = "it is missing: the folder has no whole outcome";

/// What EDIT states of a table.
const BY_EDIT: Stated = Stated {
    by: "EDIT",
    remedy: REMEDY,
};

/// What to do about an outcome whose numbers were given away since.
const NUMBER_REMEDY: &str = "make the outcome again with a --first-number above it";

/// The same if outcomes before it have them.
const ORDER_REMEDY: &str = "give the outcomes in the order of their numbers, or make this one \
    again with a --first-number above it";

/// The refusal of an installation of outcomes in what a folder was `opened` as, with what is told
/// of it. That is the first refused file of the outcome after those that were taken in, else the
/// first one of the folder. The name is told before they are read.
pub(crate) fn outcome_explained<'a, R: Host>(
    rt: &'a R,
    telling: Telling<'_>,
    line: &InstallLine<'a>,
    done: u64,
    opened: &SyncedVersion,
    refusal: Refusal,
) -> Refusal {
    let name = refusal.fault.name;
    if refusal.told.is_some() || is_of_no_file(name) {
        return refusal;
    }
    let Some(out) = line.outs.get(done as usize) else {
        return refusal;
    };
    let mut refusal = refusal;
    refusal.tell_name(rt);
    let told = file_told(rt, telling, out, opened.order, name);
    if told.is_some() {
        return refusal.telling(told);
    }
    if name == FaultName::Apply {
        return refusal.telling(misfit(rt, line, out, done, opened));
    }
    explained_of_folder(rt, telling, line, out, refusal)
}

/// What is told of the file of an outcome that is refused by this name. None if none is.
fn file_told<R: Host>(
    rt: &R,
    telling: Telling<'_>,
    out: &str,
    order: Order,
    name: FaultName,
) -> Option<RefusalText> {
    match outcome_edit(rt, out) {
        Ok(Some(edit)) => table_told(rt, telling, out, order, name, &edit),
        Ok(None) if name == FaultName::Missing => words_told(rt.alloc(), out, EDIT, NO_EDIT),
        Err(fault) if fault.name == name => words_told(rt.alloc(), out, EDIT, edit_words(name)),
        _ => None,
    }
}

/// The same of the tables of its edit.
fn table_told<R: Host>(
    rt: &R,
    telling: Telling<'_>,
    out: &str,
    order: Order,
    name: FaultName,
    edit: &VersionEdit,
) -> Option<RefusalText> {
    let alloc = rt.alloc();
    let mut outcome = Disk::new(rt, out);
    match name {
        FaultName::Missing => {
            let table = first_missing(rt, out, edit)?;
            let wrong = "it is missing, and EDIT names it";
            words_told(alloc, out, table.as_str(), wrong)
        }
        FaultName::Bounds => {
            let (number, fault) = unlike_edit(alloc, &mut outcome, order, edit).ok()??;
            let table = table_file_name(alloc, &mut outcome, number).ok()?;
            let path = path_in(alloc, out, table.as_str()).ok()?;
            file_fault(alloc, path.as_str(), fault, BY_EDIT)
        }
        name => {
            let number = telling.refused.number()?;
            if !edit.added.iter().any(|file| file.meta.number == number) {
                return None;
            }
            let table = table_file_name(alloc, &mut outcome, number).ok()?;
            words_told(alloc, out, table.as_str(), of_file(name).wrong)
        }
    }
}

/// What is told of an outcome's file of this name.
fn words_told(alloc: Global, out: &str, file: &str, wrong: &'static str) -> Option<RefusalText> {
    let remedy = REMEDY;
    told_of_file(alloc, out, file, Words { wrong, remedy })
}

/// What is wrong with an EDIT that is refused by this name.
fn edit_words(name: FaultName) -> &'static str {
    match name {
        FaultName::EditTag => "it has an unknown tag",
        FaultName::EditField => "a field of it cannot be read",
        name => of_file(name).wrong,
    }
}

/// The name of the first new table of an edit that an outcome lacks.
fn first_missing<R: Host>(rt: &R, out: &str, edit: &VersionEdit) -> Option<String> {
    let mut outcome = Disk::new(rt, out);
    for file in &edit.added {
        let table = table_file_name(rt.alloc(), &mut outcome, file.meta.number).ok()?;
        if !matches!(is_there(rt, out, table.as_str()), Ok(true)) {
            return Some(table);
        }
    }
    None
}

/// What is told of an outcome, with as many before it, that doesn't fit what a folder was `opened`
/// as.
fn misfit<R: Host>(
    rt: &R,
    line: &InstallLine<'_>,
    out: &str,
    done: u64,
    opened: &SyncedVersion,
) -> Option<RefusalText> {
    let alloc = rt.alloc();
    let path = path_in(alloc, out, EDIT).ok()?;
    let (whose, remedy, whole) = if done == 0 {
        (
            "the database",
            NUMBER_REMEDY,
            "it does not fit the version of the database",
        )
    } else {
        (
            "the outcomes before it",
            ORDER_REMEDY,
            "it does not fit the version that the outcomes before it leave",
        )
    };
    let Ok(Some((number, next))) = number_taken(rt, line, out, done, opened) else {
        return said(alloc, path.as_str(), whole, REMEDY);
    };
    let wrong = format!(in alloc;
        "its table {number} is not above the next file number of {whose}, {next}"
    );
    RefusalText::new(alloc, path.as_str(), wrong, remedy)
}

/// The number of the first new file of an outcome that isn't above the next file number that it
/// comes to, and that. None if there is none, or if an input isn't there.
fn number_taken<R: Host>(
    rt: &R,
    line: &InstallLine<'_>,
    out: &str,
    done: u64,
    opened: &SyncedVersion,
) -> Result<Option<(u64, u64)>, Fault> {
    let Some(edit) = outcome_edit(rt, out)? else {
        return Ok(None);
    };
    let inputs = deleted_files(rt.alloc(), &opened.version, &edit.deleted)?;
    if inputs.len() != edit.deleted.len() {
        return Ok(None);
    }
    let Some(next) = next_before(rt, line, done, opened, &edit)? else {
        return Ok(None);
    };
    Ok(first_at_most(&edit, next).map(|number| (number, next)))
}

/// The edit of the outcome in a folder, if it has one.
fn outcome_edit<R: Host>(rt: &R, out: &str) -> Result<Option<VersionEdit>, Fault> {
    match Disk::new(rt, out).read(EDIT)? {
        Some(bytes) => Ok(Some(VersionEdit::decode(rt.alloc(), &bytes)?)),
        None => Ok(None),
    }
}

/// The next file number that the outcomes before one with this edit leave. None if one of them
/// deletes an input of it.
fn next_before<R: Host>(
    rt: &R,
    line: &InstallLine<'_>,
    done: u64,
    opened: &SyncedVersion,
    edit: &VersionEdit,
) -> Result<Option<u64>, Fault> {
    let mut next = manifest_of(&opened.version);
    for out in line.outs.iter().take(done as usize) {
        let Some(before) = outcome_edit(rt, out)? else {
            return Ok(None);
        };
        if !before.deleted.is_disjoint(&edit.deleted) {
            return Ok(None);
        }
        next = next.max(before.next_file.unwrap_or(0));
    }
    Ok(Some(next))
}

/// The number of the first new file of an edit that isn't above this one.
fn first_at_most(edit: &VersionEdit, next: u64) -> Option<u64> {
    for file in &edit.added {
        if file.meta.number <= next {
            return Some(file.meta.number);
        }
    }
    None
}

/// The refusal of an outcome none of whose files is refused, with what is told of it.
fn explained_of_folder<'a, R: Host>(
    rt: &'a R,
    telling: Telling<'_>,
    line: &InstallLine<'a>,
    out: &str,
    refusal: Refusal,
) -> Refusal {
    let name = refusal.fault.name;
    let settings = Settings {
        snapshots: line.snapshots,
        ..Settings::default()
    };
    let explained = compaction_explained(rt, telling, None, &settings, refusal);
    if explained.told.is_some() || name != FaultName::Lawless {
        return explained;
    }
    let wrong = "its tables do not have what a compaction keeps, or do not go with those of the \
        database";
    explained.telling(said(rt.alloc(), out, wrong, REMEDY))
}
