//! What is wrong with the files of a version.

ghost use Rattle.std.specs.Prelude.{◌≡◌, ◌++◌, ◌&&◌, map, not, true, Ok, OnOk, IsOkUnless, IfErr};
ghost use Rattle.std.specs.Prelude.{unwrap_or};
ghost use Rattle.table.specs.Answers.{EqualOrMemory, fault};
ghost use Rattle.table.specs.fault.FaultName.TheVariants.{Memory};
ghost use Rattle.reads.specs.StatedFiles.{is_below};
ghost use Rattle.reads.specs.FileList.{level_file_in};
ghost use Rattle.faults.specs.FileFaults.{lies_before, overlap, overlap_faults, unless};
ghost use Rattle.faults.specs.FileOrder.{are_in_order, is_in_order, is_past};
ghost use Rattle.faults.specs.Findings.{faults_of_found, finding_faults, found_faults};
ghost use Rattle.faults.specs.Findings.{found_in};
ghost use Rattle.faults.specs.ToldFaults.{IsTelling};

use crate::fault_count::{FaultCount, FaultTaker, tell_file};
use crate::file_fault::FileFault;
use crate::table_test::{TableFinding, TestedFile};
use folder::FileMeta;
use reads::{LevelFile, is_below};
use std::alloc::Global;
use table::{Comparator, Fault};

/// Tells what is wrong with files of which this was found, one after the other, until the taker
/// says to stop. `next` is the version's next file.
///
/// If the files are in version order, each is compared with those that it overlaps and one more.
pub(crate) fn tell_files<C: Comparator, T: FaultTaker>(
    alloc: Global,
    tested: &[TestedFile<'_>],
    next: Option<u64>,
    taker: &mut T,
) -> Result<FaultCount, Fault>
    ensures told { IsTelling T.tells (faults_of_found C.cmp next (map found_in tested.now))
        taker.old 0 taker.new result }
    ensures memory { IfErr result (λ e. e ≡ fault Memory) }
{
    let is_ordered = are_in_order::<C>(tested);
    let mut told = FaultCount {
        count: 0,
        goes: true,
    };
    for place in 0..tested.len() {
        let file = &tested[place];
        let faults = file_faults::<C>(alloc, next, file, &tested[place + 1..], is_ordered)?;
        told = tell_file(taker, file.file.meta.number, &faults, told);
        if !told.goes {
            return Ok(told);
        }
    }
    Ok(told)
}

/// Whether files are by level and in version order.
fn are_in_order<C: Comparator>(tested: &[TestedFile<'_>]) -> bool
    ensures { result ≡ are_in_order C.cmp (map (λ t. level_file_in t.file) tested.now) }
{
    for place in 1..tested.len() {
        if !is_in_order::<C>(&tested[place - 1].file, &tested[place].file) {
            return false;
        }
    }
    true
}

/// Whether a file is above another one, or at its level and doesn't begin after it.
fn is_in_order<C: Comparator>(file: &LevelFile<'_>, other: &LevelFile<'_>) -> bool
    ensures { result ≡ is_in_order C.cmp (level_file_in file.now) (level_file_in other.now) }
{
    let (smallest, next) = (file.meta.smallest.as_key(), other.meta.smallest.as_key());
    file.level < other.level || file.level == other.level && smallest.compare::<C>(&next).is_le()
}

/// What is wrong with a file of which this was found, if these come after it. `is_ordered` says
/// whether these are in order.
fn file_faults<C: Comparator>(
    alloc: Global,
    next: Option<u64>,
    tested: &TestedFile<'_>,
    behind: &[TestedFile<'_>],
    is_ordered: bool,
) -> Result<Vec<FileFault>, Fault>
    requires { is_ordered ≡ true →
        are_in_order C.cmp (map (λ t. level_file_in t.file) behind.now) ≡ true }
    ensures { EqualOrMemory (λ v. v.items) result
        (Ok (found_faults C.cmp next (found_in tested.now)
        (map (λ t. level_file_in t.file) behind.now))) }
{
    let mut faults = Vec::new(alloc);
    let meta = tested.file.meta;
    if !is_below(next, meta.number) {
        faults.push(FileFault::NotBelow(next.unwrap_or(0)))?;
    }
    push_finding(&mut faults, meta, tested.finding)?;
    push_overlaps::<C>(&mut faults, tested.file, behind, is_ordered)?;
    Ok(faults)
}

/// Appends what is wrong with a file's table.
fn push_finding(
    faults: &mut Vec<FileFault>,
    file: &FileMeta,
    finding: TableFinding,
) -> Result<(), Fault>
    ensures ok { OnOk result (faults.new.items
        ≡ faults.old.items ++ finding_faults file.now finding) }
    ensures memory { IsOkUnless result (fault Memory) }
{
    match finding {
        TableFinding::Unreadable(name) => push_unless(faults, false, FileFault::Refused(name)),
        TableFinding::Readable {
            length,
            has_smallest,
            has_largest,
        } => {
            let stated = file.size;
            let wrong = FileFault::Length {
                held: length,
                stated,
            };
            push_unless(faults, stated == length, wrong)?;
            push_unless(faults, has_smallest, FileFault::Smallest)?;
            push_unless(faults, has_largest, FileFault::Largest)
        }
    }
}

/// Appends a fault, unless a test holds.
fn push_unless(faults: &mut Vec<FileFault>, holds: bool, wrong: FileFault) -> Result<(), Fault>
    ensures ok { OnOk result (faults.new.items ≡ faults.old.items ++ unless holds wrong) }
    ensures memory { IsOkUnless result (fault Memory) }
{
    if !holds {
        faults.push(wrong)?;
    }
    Ok(())
}

/// Appends that a file overlaps some of those that come after it. `is_ordered` says whether these
/// are in order: then those after one that it lies before aren't looked at.
fn push_overlaps<C: Comparator>(
    faults: &mut Vec<FileFault>,
    file: LevelFile<'_>,
    behind: &[TestedFile<'_>],
    is_ordered: bool,
) -> Result<(), Fault>
    requires { is_ordered ≡ true →
        are_in_order C.cmp (map (λ t. level_file_in t.file) behind.now) ≡ true }
    ensures ok { OnOk result (faults.new.items ≡ faults.old.items
        ++ overlap_faults C.cmp (level_file_in file.entry)
        (map (λ t. level_file_in t.file) behind.now)) }
    ensures memory { IsOkUnless result (fault Memory) }
{
    for tested in behind {
        if is_ordered && is_past::<C>(&file, &tested.file) {
            return Ok(());
        }
        if overlap::<C>(&file, &tested.file) {
            faults.push(FileFault::Overlaps(tested.file.meta.number))?;
        }
    }
    Ok(())
}

/// Whether a file overlaps neither another one nor any that comes after that in order: it is at
/// level 0, or above the other, or at its level and ends before it begins.
fn is_past<C: Comparator>(file: &LevelFile<'_>, other: &LevelFile<'_>) -> bool
    ensures { result ≡ is_past C.cmp (level_file_in file.now) (level_file_in other.now) }
{
    file.level == 0
        || file.level < other.level
        || file.level == other.level && lies_before::<C>(file.meta, other.meta)
}

/// Whether two files are at one level from 1 on, and their ranges of internal keys are not
/// disjoint.
fn overlap<C: Comparator>(file: &LevelFile<'_>, other: &LevelFile<'_>) -> bool
    ensures { result ≡ overlap C.cmp (level_file_in file.now) (level_file_in other.now) }
{
    file.level > 0
        && file.level == other.level
        && !(lies_before::<C>(file.meta, other.meta) || lies_before::<C>(other.meta, file.meta))
}

/// Whether a file ends before another one begins.
fn lies_before<C: Comparator>(file: &FileMeta, other: &FileMeta) -> bool
    ensures { result ≡ lies_before C.cmp file.now other.now }
{
    let largest = file.largest.as_key();
    let smallest = other.smallest.as_key();
    largest.compare::<C>(&smallest).is_lt()
}
