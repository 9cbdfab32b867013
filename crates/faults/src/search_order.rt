//! The files whose entries are compared, in the order in which a get searches them.

ghost use Rattle.std.specs.Prelude.{◌≡◌, map, IfOk, IfErr};
ghost use Rattle.std.specs.List.{IsDistinct};
ghost use Rattle.std.specs.Ordering.{nat_cmp};
ghost use Rattle.table.specs.Answers.{fault};
ghost use Rattle.table.specs.fault.FaultName.TheVariants.{Memory};
ghost use Rattle.reads.specs.FileList.{same_file, newer_number, level_file_in};
ghost use Rattle.faults.specs.Findings.{found_in, is_deep_found, is_sound_finding};
ghost use Rattle.faults.specs.Findings.{is_top_found, metas_found, searched_found};

use crate::table_test::{TableFinding, TestedFile};
use folder::FileMeta;
use std::alloc::Global;
use std::cmp::Ordering;
use table::Fault;

/// Of files by level and in version order those whose tables can be read and are what the version
/// states: those of level 0 by falling number, then the others.
pub(crate) fn searched_files<'v>(
    alloc: Global,
    tested: &[TestedFile<'v>],
) -> Result<Vec<&'v FileMeta>, Fault>
    requires { IsDistinct same_file (map (λ t. level_file_in t.file) tested.now) }
    ensures searched { IfOk result (λ v. map (λ f. f.now) v.items
        ≡ searched_found (map found_in tested.now)) }
    ensures memory { IfErr result (λ e. e ≡ fault Memory) }
{
    let mut files = Vec::new(alloc);
    let mut deep = Vec::new(alloc);
    for file in tested {
        let is_sound = is_sound(file);
        if file.file.level == 0 && is_sound {
            files.push(file.file.meta)?;
        }
        if file.file.level != 0 && is_sound {
            deep.push(file.file.meta)?;
        }
    }
    files.sort_unstable_by(|file, other| falling_order(file, other));
    files.append(&mut deep)?;
    Ok(files)
}

/// Whether a file's table can be read, and has the length and bounds that the version states.
fn is_sound(tested: &TestedFile<'_>) -> bool
    ensures { result ≡ is_sound_finding tested.now.file.meta.now tested.now.finding }
{
    match tested.finding {
        TableFinding::Unreadable(_) => false,
        TableFinding::Readable {
            length,
            has_smallest,
            has_largest,
        } => {
            let stated = tested.file.meta.size;
            stated == length && has_smallest && has_largest
        }
    }
}

/// The order of files by falling number.
fn falling_order(file: &FileMeta, other: &FileMeta) -> Ordering
    ensures { result ≡ newer_number file.now other.now }
{
    other.number.cmp(&file.number)
}
