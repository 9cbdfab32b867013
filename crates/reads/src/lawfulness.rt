//! Whether a version is lawful.
//!
//! The files are ordered so that newer entries of a user key come first: by level, at level 0 by
//! falling number, at each other level by smallest key. Then a version is lawful if each file is
//! what the version states, each comes before the next one, and of each user key the sequences fall
//! through all tables.

ghost use Rattle.std.specs.Prelude.{◌≡◌, ◌↔◌, true, map, Ok, IsTrue, IfOk, IfErr, length};
ghost use Rattle.std.specs.List.{All};
ghost use Rattle.std.specs.Result.{MatchResult};
ghost use Rattle.std.specs.Option.{MatchOption, is_some};
ghost use Rattle.ikey.specs.Answers.{fault, UnlessMemory};
ghost use Rattle.ikey.specs.fault.FaultName.TheVariants.{Memory};
ghost use Rattle.reads.specs.Tables.{table_of_number, table_entries, tables_test};
ghost use Rattle.reads.specs.Lawful.{IsBelowNextFile, IsLawful, IsUnlawful};
ghost use Rattle.reads.specs.StatedFiles.{is_below, matches_metadata, IsStatedFile};
ghost use Rattle.reads.specs.TableOrder.{AreAllAdded, AreStanding, AreStandingFiles, IsNeverLawful};

use crate::bounds::has_bounds;
use crate::entries_walk::falls_in;
use crate::file_order::{are_in_turn, listed_files};
use crate::level_file::LevelFile;
use crate::numbered_table::NumberedTable;
use crate::table_places::TablePlaces;
use crate::table_search::tables_test;
use edit::{FileMeta, Version};
use ikey::{Comparator, Fault, FaultName, InternalKey};
use split::Range;
use std::alloc::Global;
use table::{SoundTable, TableCursor};

/// Whether the version is lawful with these tables:
///
/// - each file's size, smallest and largest key are those of its table;
/// - each number is there once, and below next file;
/// - the files of each level from 1 on have disjoint ranges of internal keys;
/// - no user key has one sequence twice in the whole version;
/// - of one user key, each entry at a shallower level has a greater sequence than each at a deeper
///   one;
/// - the same at level 0 of entries in a file of higher number and in one of lower number.
///
/// The table of a file is the first in `tables` that has its number.
///
/// Faults: Missing if a file of the version has no table; else Lawless if the version isn't lawful;
/// else only Memory.
///
/// It walks over all tables once, in the order of their keys. An entry takes a time that grows with
/// the logarithm of the number of files; no contract says so.
pub fn lawful<C: Comparator>(
    alloc: Global,
    version: &Version,
    tables: &[NumberedTable<'_, C>],
) -> Result<(), Fault>
    ensures { MatchResult result (λ none. IsLawful C.cmp version.now tables.now)
        (λ e. UnlessMemory e (IsUnlawful C.cmp version.now tables.now e)) }
{
    let standing = tables_newest_first(alloc, version, tables)?;
    let all = Range {
        lower: None,
        upper: None,
    };
    if !falls_in(alloc, cursors_over(alloc, &standing)?, all)? {
        return Err(Fault::of(FaultName::Lawless));
    }
    Ok(())
}

/// The version's tables, those with newer entries first: by level, at level 0 by falling number, at
/// each other level by smallest key.
///
/// It makes all tests of [`lawful`] but one, which [`falls_in`] makes: that of each user key the
/// sequences fall through these tables. Faults as of `lawful`, for these tests.
pub fn tables_newest_first<'t, 'a, C: Comparator>(
    alloc: Global,
    version: &Version,
    tables: &'t [NumberedTable<'a, C>],
) -> Result<Vec<&'t SoundTable<'a, C>>, Fault>
    ensures { MatchResult result
        (λ v. AreStanding C.cmp version.now tables.now (map (λ t. t.now.entries) v.items))
        (λ e. UnlessMemory e (IsUnlawful C.cmp version.now tables.now e)) }
{
    let tables = TablePlaces::of(alloc, tables)?;
    newest_first_among(alloc, version, &tables)
}

/// As [`tables_newest_first`], of tables whose places are known.
fn newest_first_among<'t, 'a, C: Comparator>(
    alloc: Global,
    version: &Version,
    tables: &TablePlaces<'t, 'a, C>,
) -> Result<Vec<&'t SoundTable<'a, C>>, Fault>
    ensures { MatchResult result
        (λ v. AreStanding C.cmp version.now tables.now (map (λ t. t.now.entries) v.items))
        (λ e. UnlessMemory e (IsUnlawful C.cmp version.now tables.now e)) }
{
    tables_test(alloc, version, tables)?;
    let files = listed_files::<C>(alloc, version)?;
    if !are_as_stated(&files, tables, version.next_file()) {
        return Err(Fault::of(FaultName::Lawless));
    }
    if !are_in_turn::<C>(&files) {
        return Err(Fault::of(FaultName::Lawless));
    }
    tables_of(alloc, &files, tables)
}

/// All files of a version, those with newer entries first: by level, at level 0 by falling number,
/// at each other level by smallest key. None if a file doesn't come before the next one, so that
/// the version is lawful with no tables.
///
/// It makes all tests of [`lawful`] but those that need a table: that of each file, which
/// [`is_stated`] makes, and that of each user key the sequences fall.
pub fn files_newest_first<'v, C: Comparator>(
    alloc: Global,
    version: &'v Version,
) -> Result<Option<Vec<&'v FileMeta>>, Fault>
    ensures standing { IfOk result (λ found.
        MatchOption found (IsNeverLawful C.cmp version.now)
        (λ files. AreStandingFiles C.cmp version.now (map (λ f. f.now) files.items))) }
    ensures added { IfOk result (λ _. AreAllAdded C.cmp version.now) }
    ensures memory { IfErr result (λ e. e ≡ fault Memory) }
{
    let files = listed_files::<C>(alloc, version)?;
    if !are_in_turn::<C>(&files) {
        return Ok(None);
    }
    Ok(Some(metas_of(alloc, &files)?))
}

/// What the version states of each file.
fn metas_of<'v>(alloc: Global, files: &[LevelFile<'v>]) -> Result<Vec<&'v FileMeta>, Fault>
    ensures metas { IfOk result (λ v. map (λ f. f.now) v.items
        ≡ map (λ f. f.meta.now) files.now) }
    ensures memory { IfErr result (λ e. e ≡ fault Memory) }
{
    let mut metas = Vec::with_capacity(alloc, files.len())?;
    for file in files {
        metas.push(file.meta)?;
    }
    Ok(metas)
}

/// Whether `number` is below `next`; false if there is no `next`.
pub fn is_below(next: Option<u64>, number: u64) -> bool
    ensures test { result ≡ is_below next number }
    ensures below { IsTrue result ↔ IsBelowNextFile next number }
{
    match next {
        Some(next) => number < next,
        None => false,
    }
}

/// Whether the version states of `file` the length of `bytes` and these smallest and largest keys,
/// and its number is below `next`, the version's next file.
pub fn is_stated(
    next: Option<u64>,
    file: &FileMeta,
    bytes: &[u8],
    smallest: InternalKey<'_>,
    largest: InternalKey<'_>,
) -> bool
    ensures { result
        ≡ matches_metadata next file.now (length bytes.now) smallest.entry.bytes.now
        largest.entry.bytes.now }
{
    is_below(next, file.number) && has_bounds(file, bytes, smallest, largest)
}

/// Whether a file's table is what the version states.
fn is_as_stated<C: Comparator>(
    file: &FileMeta,
    tables: &TablePlaces<'_, '_, C>,
    next: Option<u64>,
) -> bool
    requires { is_some (table_of_number tables.now file.now.number) ≡ true }
    ensures { IsTrue result ↔ IsStatedFile C.cmp tables.now next file.now }
{
    let Some(table) = tables.table(file.number) else {
        unreachable!();
    };
    let smallest = table.smallest();
    let largest = table.largest();
    is_stated(next, file, table.bytes(), smallest, largest)
}

/// Whether each file's table is what the version states.
fn are_as_stated<C: Comparator>(
    files: &[LevelFile<'_>],
    tables: &TablePlaces<'_, '_, C>,
    next: Option<u64>,
) -> bool
    requires { All (λ f. is_some (table_of_number tables.now f.meta.now.number) ≡ true) files.now }
    ensures { IsTrue result ↔ All (λ f. IsStatedFile C.cmp tables.now next f.meta.now) files.now }
{
    for file in files {
        if !is_as_stated(file.meta, tables, next) {
            return false;
        }
    }
    true
}

/// The table of each file.
fn tables_of<'t, 'a, C: Comparator>(
    alloc: Global,
    files: &[LevelFile<'_>],
    tables: &TablePlaces<'t, 'a, C>,
) -> Result<Vec<&'t SoundTable<'a, C>>, Fault>
    requires { All (λ f. is_some (table_of_number tables.now f.meta.now.number) ≡ true) files.now }
    ensures tables { IfOk result (λ v. map (λ t. t.now.entries) v.items
        ≡ map (λ f. table_entries tables.now f.meta.now.number) files.now) }
    ensures memory { IfErr result (λ e. e ≡ fault Memory) }
{
    let mut found = Vec::with_capacity(alloc, files.len())?;
    for file in files {
        let Some(table) = tables.table(file.meta.number) else {
            unreachable!();
        };
        found.push(table)?;
    }
    Ok(found)
}

/// A cursor over each table.
fn cursors_over<'a, C: Comparator>(
    alloc: Global,
    tables: &[&SoundTable<'a, C>],
) -> Result<Vec<TableCursor<'a, C>>, Fault>
    ensures cursors { IfOk result (λ cursors. cursors.items ≡ map (λ t. t.now.entries) tables.now) }
    ensures memory { IfErr result (λ e. e ≡ fault Memory) }
{
    let mut cursors = Vec::with_capacity(alloc, tables.len())?;
    for table in tables {
        cursors.push(TableCursor::new(alloc, table)?)?;
    }
    Ok(cursors)
}
