//! Counting the entries of tables that are what a version states.

ghost use Rattle.std.specs.Prelude.{◌≡◌, ◌≤◌, ◌^◌, length, map, IfSome};
ghost use Rattle.split.specs.Ranges.{key_range};
ghost use Rattle.checks.specs.GroupTest.{IsFileCount, IsFileCounts, contents_of_all};
ghost use Rattle.board.specs.declared.limits.TheConstants.{MAX_JOBS};

use crate::range_files::starts_in;
use folder::FileMeta;
use ikey::Comparator;
use reads::{NumberedTable, is_stated};
use split::Range;
use table::SoundTable;

/// How many entries the tables of these files have that begin in `range`. None if one of the tables
/// isn't what the version states of its file; `next` is the version's next file.
pub(crate) fn counted_files<C: Comparator>(
    files: &[&FileMeta],
    next: Option<u64>,
    tables: &[NumberedTable<'_, C>],
    range: Range<'_>,
) -> Option<u128>
    requires same { length tables.now ≡ length files.now }
    requires few { length files.now ≤ MAX_JOBS }
    ensures counted { IsFileCounts C.cmp next (key_range range.entry) (map (λ f. f.now) files.now)
        (contents_of_all tables.now) result }
    ensures small { IfSome result (λ count. count ≤ 2 ^ 100) }
{
    let mut count = 0;
    for place in 0..files.len() {
        let table = tables[place].table();
        let Some(entries) = counted_file(files[place], next, table, range) else {
            return None;
        };
        count += u128::from(entries);
    }
    Some(count)
}

/// How many entries a file's table has, if the file begins in `range`; else 0. None if the table
/// isn't what the version states of the file.
fn counted_file<C: Comparator>(
    file: &FileMeta,
    next: Option<u64>,
    table: &SoundTable<'_, C>,
    range: Range<'_>,
) -> Option<u64>
    ensures counted { IsFileCount C.cmp next (key_range range.entry) file.now table.now result }
    ensures small { IfSome result (λ count. count ≤ 2 ^ 60) }
{
    if !is_stated(next, file, table.bytes(), table.smallest(), table.largest()) {
        return None;
    }
    if !starts_in::<C>(file, range) {
        return Some(0);
    }
    Some(table.tally().entries)
}
