//! The inputs of a request, and what is known of the deeper files.

ghost use Rattle.std.specs.Prelude.{◌≡◌, ◌+◌, ◌≤◌, true, map, filter, nat_le, if◌then◌else◌, []};
ghost use Rattle.std.specs.Prelude.{Ok};
ghost use Rattle.std.specs.List.{list_all};
ghost use Rattle.std.specs.Option.{option_copied};
ghost use Rattle.ikey.specs.Answers.{EqualOrMemory};
ghost use Rattle.pick.specs.Boundaries.{greater_key, largest_key, with_largest};
ghost use Rattle.pick.specs.PickedInputs.{picked_in};
ghost use Rattle.pick.specs.Ranges.{begins_by as is_begun, ends_at_or_after as is_ended};
ghost use Rattle.c_api.specs.Files.{has_keys as has_both, meta_at as stated_at};
ghost use Rattle.pick.specs.Ranges.{overlaps as is_overlapping};
ghost use Rattle.c_api.specs.Held.{have_all_keys, near_of, overlaps_at, picked_over};
ghost use Rattle.c_api.specs.Requests.{files_of as all_files, grandparents_of as overlapped};
ghost use Rattle.c_api.specs.Requests.{input_file, metas_of as stated_of};

use crate::file::{File, has_keys, key_at, meta_at};
use crate::input::Input;
use crate::lent::LentFiles;
use edit::{CompactPointer, FileMeta};
use ikey::{Comparator, Fault, KeyBuf};
use pick::{InputFile, Inputs, LAST_INPUT_LEVEL};
use std::alloc::Global;
use std::sync::Arc;

/// The files of inputs.
pub(crate) fn files_of(alloc: Global, inputs: &[Input]) -> Result<Vec<File>, Fault>
    ensures { EqualOrMemory (λ files. files.items) result (Ok (all_files inputs.now)) }
{
    let mut files = Vec::with_capacity(alloc, inputs.len())?;
    for input in inputs {
        files.push(input.file)?;
    }
    Ok(files)
}

/// Whether all keys of files are internal keys.
pub(crate) fn have_keys(keys: &[u8], files: &[File]) -> bool
    ensures { result ≡ list_all (has_both keys.now) files.now }
{
    files.iter().all(|file| has_keys(keys, file))
}

/// What the version states of each file.
pub(crate) fn metas_at(alloc: Global, keys: &[u8], files: &[File]) -> Result<Vec<FileMeta>, Fault>
    requires { list_all (has_both keys.now) files.now ≡ true }
    ensures { EqualOrMemory (λ metas. metas.items) result
        (Ok (map (stated_at keys.now) files.now)) }
{
    let mut metas = Vec::with_capacity(alloc, files.len())?;
    for file in files {
        metas.push(meta_at(alloc, keys, file)?)?;
    }
    Ok(metas)
}

/// What the version states of each file of a level.
fn metas_of(alloc: Global, keys: &[u8], level: u64, files: &[File]) -> Result<Vec<FileMeta>, Fault>
    requires { list_all (has_both keys.now) files.now ≡ true }
    ensures { EqualOrMemory (λ metas. metas.items) result
        (Ok (stated_of keys.now level files.now)) }
{
    let mut metas = Vec::new(alloc);
    for file in files {
        if file.level == level {
            metas.push(meta_at(alloc, keys, file)?)?;
        }
    }
    Ok(metas)
}

/// Each file as an input.
pub(crate) fn input_files(
    alloc: Global,
    keys: &[u8],
    files: &[File],
) -> Result<Vec<InputFile>, Fault>
    requires { list_all (has_both keys.now) files.now ≡ true }
    ensures { EqualOrMemory (λ inputs. inputs.items) result
        (Ok (map (input_file keys.now) files.now)) }
{
    let mut inputs = Vec::with_capacity(alloc, files.len())?;
    for file in files {
        let meta = meta_at(alloc, keys, file)?;
        inputs.push(InputFile {
            level: file.level,
            meta,
        })?;
    }
    Ok(inputs)
}

/// The greater of two internal keys.
fn greater_of<'a, C: Comparator>(a: &'a KeyBuf, b: &'a KeyBuf) -> &'a KeyBuf
    ensures { result.now ≡ greater_key C.cmp a.now b.now }
{
    if a.as_key().compare::<C>(&b.as_key()).is_lt() {
        b
    } else {
        a
    }
}

/// The greatest key so far, after one more file with its largest key.
fn largest_with<'a, C: Comparator>(
    key: Option<&'a KeyBuf>,
    file: &'a FileMeta,
) -> Option<&'a KeyBuf>
    ensures { option_copied result ≡ with_largest C.cmp (option_copied key.entry) file.now }
{
    match key {
        Some(key) => Some(greater_of::<C>(key, &file.largest)),
        None => Some(&file.largest),
    }
}

/// The greatest of the files' largest keys; None if there is no file.
fn largest_of<C: Comparator>(files: &[FileMeta]) -> Option<&KeyBuf>
    ensures { option_copied result ≡ largest_key C.cmp files.now }
{
    let mut largest = None;
    for file in files {
        largest = largest_with::<C>(largest, file);
    }
    largest
}

/// The compact pointer of a level: the greatest of its files' largest keys. None if no file is of
/// the level.
pub(crate) fn pointer_of<C: Comparator>(
    alloc: Global,
    keys: &[u8],
    level: u64,
    files: &[File],
) -> Result<Option<KeyBuf>, Fault>
    requires { list_all (has_both keys.now) files.now ≡ true }
    ensures { EqualOrMemory (λ key. key) result
        (Ok (largest_key C.cmp (stated_of keys.now level files.now))) }
{
    let metas = metas_of(alloc, keys, level, files)?;
    match largest_of::<C>(&metas) {
        Some(key) => Ok(Some(KeyBuf::of(alloc, key.as_key())?)),
        None => Ok(None),
    }
}

/// Whether the user keys of some file begin at or before `user`.
fn begins_by<C: Comparator>(files: &[FileMeta], user: &[u8]) -> bool
    ensures { result ≡ is_begun C.cmp files.now user.now }
{
    files.iter().any(|file| C::compare(file.smallest.as_key().user(), user).is_le())
}

/// Whether the user keys of some file end at or after `user`.
fn ends_at_or_after<C: Comparator>(files: &[FileMeta], user: &[u8]) -> bool
    ensures { result ≡ is_ended C.cmp files.now user.now }
{
    files.iter().any(|file| C::compare(user, file.largest.as_key().user()).is_le())
}

/// Whether the range of a file that is lent overlaps that of the files.
fn overlaps<C: Comparator>(keys: &[u8], files: &[FileMeta], file: &File) -> bool
    requires { has_both keys.now file.now ≡ true }
    ensures { result ≡ overlaps_at C.cmp keys.now files.now file.now }
{
    begins_by::<C>(files, key_at(keys, file.largest).user())
        && ends_at_or_after::<C>(files, key_at(keys, file.smallest).user())
}

/// Those of `files` whose range overlaps that of `all`.
fn overlapping<C: Comparator>(
    alloc: Global,
    keys: &[u8],
    all: &[FileMeta],
    files: &[File],
) -> Result<Vec<File>, Fault>
    requires { list_all (has_both keys.now) files.now ≡ true }
    ensures { EqualOrMemory (λ found. found.items) result
        (Ok (filter (overlaps_at C.cmp keys.now all.now) files.now)) }
{
    let mut found = Vec::new(alloc);
    for file in files {
        if overlaps::<C>(keys, all, file) {
            found.push(*file)?;
        }
    }
    Ok(found)
}

/// The deeper files whose range overlaps that of the inputs. The others change nothing of a merge.
pub(crate) fn near_files<C: Comparator>(
    alloc: Global,
    asked: &LentFiles<'_>,
) -> Result<Vec<File>, Fault>
    requires { have_all_keys asked.now ≡ true }
    ensures { EqualOrMemory (λ near. near.items) result (Ok (near_of C.cmp
        asked.now.lent.now.keys.now asked.now.files.now asked.now.lent.now.deeper.now)) }
{
    let keys = asked.lent.keys;
    let all = metas_at(alloc, keys, asked.files)?;
    overlapping::<C>(alloc, keys, &all, asked.lent.deeper)
}

/// What the version states of the deeper files of a level whose range overlaps that of the inputs.
fn near_metas<C: Comparator>(
    alloc: Global,
    asked: &LentFiles<'_>,
    level: u64,
) -> Result<Vec<FileMeta>, Fault>
    requires { have_all_keys asked.now ≡ true }
    ensures { EqualOrMemory (λ found. found.items) result (Ok (filter (is_overlapping C.cmp
        (map (stated_at asked.now.lent.now.keys.now) asked.now.files.now))
        (stated_of asked.now.lent.now.keys.now level asked.now.lent.now.deeper.now))) }
{
    let near = near_files::<C>(alloc, asked)?;
    metas_of(alloc, asked.lent.keys, level, &near)
}

/// The grandparents: of the deeper files those of level + 2 whose range overlaps that of the
/// inputs.
pub(crate) fn grandparents_of<C: Comparator>(
    alloc: Global,
    asked: &LentFiles<'_>,
) -> Result<Vec<FileMeta>, Fault>
    requires { have_all_keys asked.now ≡ true }
    ensures { EqualOrMemory (λ found. found.items) result (Ok (overlapped C.cmp
        asked.now.lent.now.keys.now asked.now.lent.now.request.level asked.now.files.now
        asked.now.lent.now.deeper.now)) }
{
    let level = asked.lent.request.level;
    if level > LAST_INPUT_LEVEL {
        return Ok(Vec::new(alloc));
    }
    near_metas::<C>(alloc, asked, level + 2)
}

/// The inputs, without the deeper files: the tests of a request read the grandparents alone.
/// `pointer` is the new compact pointer.
pub(crate) fn tested_inputs<C: Comparator>(
    alloc: Global,
    asked: &LentFiles<'_>,
    pointer: KeyBuf,
) -> Result<Inputs, Fault>
    requires { have_all_keys asked.now ≡ true }
    ensures { EqualOrMemory picked_in result
        (Ok (record (picked_over C.cmp asked.now pointer) { deeper = [] })) }
{
    let level = asked.lent.request.level;
    Ok(Inputs {
        level,
        files: input_files(alloc, asked.lent.keys, asked.files)?,
        grandparents: grandparents_of::<C>(alloc, asked)?,
        deeper: Arc::new(alloc, Vec::new(alloc))?,
        pointer: CompactPointer {
            level,
            key: pointer,
        },
    })
}

/// The inputs, and what is known of the deeper files.
pub(crate) fn picked_with<C: Comparator>(
    alloc: Global,
    asked: &LentFiles<'_>,
    pointer: KeyBuf,
) -> Result<Inputs, Fault>
    requires { have_all_keys asked.now ≡ true }
    ensures { EqualOrMemory picked_in result (Ok (picked_over C.cmp asked.now pointer)) }
{
    let mut picked = tested_inputs::<C>(alloc, asked, pointer)?;
    picked.deeper = Arc::new(alloc, metas_at(alloc, asked.lent.keys, asked.lent.deeper)?)?;
    Ok(picked)
}
