//! What a version answers of a user key.
//!
//! (1) It goes from level to level, and stops at the first level that has an entry. Why: of one
//!     user key, entries at shallower levels are newer, if the version is lawful.
//! (2) At a level it looks into the tables whose range of user keys holds the key, and takes the
//!     entry of the greatest sequence. Why: tables of level 0 overlap.

ghost use Rattle.std.specs.Prelude.{◌≡◌, ◌&&◌, true, Ok, IfOk, IfErr};
ghost use Rattle.std.specs.List.{All, flat_map};
ghost use Rattle.std.specs.Option.{option_map, is_some};
ghost use Rattle.std.specs.Ordering.{is_le};
ghost use Rattle.ikey.specs.Answers.{EqualOrMemory, fault};
ghost use Rattle.ikey.specs.fault.FaultName.TheVariants.{Memory};
ghost use Rattle.ikey.specs.Key.{user_of, sequence_of, kind_of};
ghost use Rattle.ikey.specs.declared.kind.Kind.TheVariants.{Put};
ghost use Rattle.reads.specs.Bounds.{may_hold};
ghost use Rattle.reads.specs.Tables.{table_of_number, table_entries, all_entries, tables_test};
ghost use Rattle.reads.specs.Visible.{visible_in, newer_visible, IsAnswer};
ghost use Rattle.reads.specs.Gets.{get_of};
ghost use Rattle.reads.specs.Lawful.{IsFileOf, IsLawful};

use crate::found_entry::Found;
use crate::numbered_table::NumberedTable;
use crate::table_places::TablePlaces;
use crate::table_search::{newest_in_table, tables_test};
use edit::{FileMeta, LEVELS, Version};
use ikey::{Comparator, Fault, InternalKey, KeyBuf, Kind, MAX_SEQUENCE, MAX_USER_KEY};
use std::alloc::Global;

/// The value of the user key `key` at the sequence `at`. Of all its entries in the version's tables
/// with a sequence of at most `at`, the one of the greatest sequence answers. None if that is a
/// deletion, or if there is no such entry.
///
/// The table of a file is the first in `tables` that has its number.
///
/// Faults: Missing if a file of the version has no table, else only Memory. If the version isn't
/// lawful, the answer may be another.
///
/// It copies no value. It takes the memory of one key, of a place for each table, of a level's list
/// of files, and of a cursor; no contract says so.
pub fn get<'a, C: Comparator>(
    alloc: Global,
    version: &Version,
    tables: &[NumberedTable<'a, C>],
    key: &[u8],
    at: u64,
) -> Result<Option<&'a [u8]>, Fault>
    ensures missing { EqualOrMemory (λ value. tt) result
        (tables_test tables.now version.now.files) }
    ensures lawful { IsLawful C.cmp version.now tables.now →
        EqualOrMemory (option_map (λ value. value.now)) result
        (Ok (get_of version.now tables.now key.now at)) }
{
    let tables = TablePlaces::of(alloc, tables)?;
    get_among(alloc, version, &tables, key, at)
}

/// As [`get`], of tables whose places are known.
fn get_among<'a, C: Comparator>(
    alloc: Global,
    version: &Version,
    tables: &TablePlaces<'_, 'a, C>,
    key: &[u8],
    at: u64,
) -> Result<Option<&'a [u8]>, Fault>
    ensures missing { EqualOrMemory (λ value. tt) result
        (tables_test tables.now version.now.files) }
    ensures lawful { IsLawful C.cmp version.now tables.now →
        EqualOrMemory (option_map (λ value. value.now)) result
        (Ok (get_of version.now tables.now key.now at)) }
{
    tables_test(alloc, version, tables)?;
    if key.len() > MAX_USER_KEY {
        return Ok(None);
    }
    let target = KeyBuf::new(alloc, key, at.min(MAX_SEQUENCE), Kind::Put)?;
    let Some(found) = newest_in_version(alloc, version, tables, target.as_key())? else {
        return Ok(None);
    };
    Ok(found.value())
}

/// The newest entry of a user key that a sequence sees, at the first level that has one. `target`
/// is both, as a put.
fn newest_in_version<'a, C: Comparator>(
    alloc: Global,
    version: &Version,
    tables: &TablePlaces<'_, 'a, C>,
    target: InternalKey<'_>,
) -> Result<Option<Found<'a>>, Fault>
    requires kind { kind_of target.bytes.now ≡ Put }
    requires there { tables_test tables.now version.now.files ≡ Ok tt }
    ensures found { IsLawful C.cmp version.now tables.now → IfOk result (λ found.
        IsAnswer (all_entries tables.now version.now.files)
        (user_of target.entry.bytes.now) (sequence_of target.entry.bytes.now)
        (option_map visible_in found)) }
    ensures memory { IfErr result (λ e. e ≡ fault Memory) }
{
    for level in 0..LEVELS {
        let files = version.files::<C>(alloc, level)?;
        let newest = newest_at_level(alloc, &files, tables, target)?;
        if newest.is_some() {
            return Ok(newest);
        }
    }
    Ok(None)
}

/// The newest entry of a user key that a sequence sees, among the files of a level. `target` is
/// both, as a put.
fn newest_at_level<'a, C: Comparator>(
    alloc: Global,
    files: &[&FileMeta],
    tables: &TablePlaces<'_, 'a, C>,
    target: InternalKey<'_>,
) -> Result<Option<Found<'a>>, Fault>
    requires kind { kind_of target.bytes.now ≡ Put }
    requires there { All (λ f. is_some (table_of_number tables.now f.now.number) ≡ true) files.now }
    ensures found { All (λ f. IsFileOf C.cmp tables.now f.now) files.now → IfOk result (λ found.
        IsAnswer (flat_map (λ f. table_entries tables.now f.now.number) files.now)
        (user_of target.entry.bytes.now) (sequence_of target.entry.bytes.now)
        (option_map visible_in found)) }
    ensures memory { IfErr result (λ e. e ≡ fault Memory) }
{
    let mut newest = None;
    for file in files {
        if !may_hold::<C>(file, target.user()) {
            continue;
        }
        let Some(table) = tables.table(file.number) else {
            unreachable!();
        };
        newest = newer(newest, newest_in_table(alloc, table, target)?);
    }
    Ok(newest)
}

/// The entry of the greater sequence; the first if they are equal.
fn newer<'a>(one: Option<Found<'a>>, other: Option<Found<'a>>) -> Option<Found<'a>>
    ensures { option_map visible_in result
        ≡ newer_visible (option_map visible_in one.entry) (option_map visible_in other.entry) }
{
    match (one, other) {
        (Some(first), Some(second)) if first.sequence < second.sequence => Some(second),
        (None, _) => other,
        _ => one,
    }
}

/// Whether the file's range of user keys holds `user`.
pub fn may_hold<C: Comparator>(file: &FileMeta, user: &[u8]) -> bool
    ensures { result ≡ may_hold C.cmp file.now user.now }
{
    C::compare(file.smallest.as_key().user(), user).is_le()
        && C::compare(user, file.largest.as_key().user()).is_le()
}
