//! The tests of a file that holds a block's contents.

ghost use Rattle.std.specs.Prelude.{◌≡◌, ◌≤◌, ◌++◌, [], ◌∷◌, IfErr, IfOk, None, Ok, OnOk, length};
ghost use Rattle.std.specs.Option.{option_map};
ghost use Rattle.std.specs.Result.{result_map_both};
ghost use Rattle.block.specs.EncodedEntry.{Entry};
ghost use Rattle.block.specs.BlockReading.{block_reading};
ghost use Rattle.ikey.specs.Answers.{EqualOrMemory, HoldsOrMemory, fault};
ghost use Rattle.ikey.specs.fault.FaultName.TheVariants.{Memory};
ghost use Rattle.pairing.specs.Blocks.{IsFileAnswer};
ghost use Rattle.pairing.specs.TestedUnion.{last_key_or, tested_entries};
ghost use Rattle.ikey.specs.Bytewise.{bytewise_cmp};
ghost use Rattle.table.specs.EntriesFrom.{EntriesRise};
ghost use Rattle.pairing.specs.EntryTests.{file_entry_test, tested_after};

use crate::tested_entry::TestedEntry;
use block::{BlockCursor, check};
use ikey::{Bytewise, Fault, FaultName, InternalKey, KeyBuf};
use std::alloc::Global;
use std::cmp::Ordering;
use table::MAX_VALUE_LEN;

/// The entries of a file, if each passes its tests.
///
/// Block if `bytes` aren't a block; else the first test that fails.
pub(crate) fn tested(alloc: Global, bytes: &[u8]) -> Result<Vec<TestedEntry<'_>>, Fault>
    ensures found { IfOk result (λ v. block_reading bytes.now ≡ Ok (tested_entries v.items)) }
    ensures rising { IfOk result (λ v. EntriesRise bytewise_cmp (tested_entries v.items)) }
    ensures answer { HoldsOrMemory (λ v. tested_entries v.items) result (IsFileAnswer bytes.now) }
{
    let block = check(bytes)?;
    tested_all(alloc, BlockCursor::new(alloc, &block)?)
}

/// The key of the last entry; None if there is no entry.
pub(crate) fn last_of<'r>(entries: &'r [TestedEntry<'_>]) -> Option<InternalKey<'r>>
    ensures { option_map (λ key. key.bytes.now) result
        ≡ last_key_or None (tested_entries entries.now) }
{
    let last = entries.last()?;
    Some(last.key.as_key())
}

/// The entries still to come, if each passes its tests after the one before it; else the first test
/// that fails, or Memory.
fn tested_all<'a>(alloc: Global, mut cursor: BlockCursor<'a>) -> Result<Vec<TestedEntry<'a>>, Fault>
    ensures { EqualOrMemory (λ v. tested_entries v.items) result (tested_after None cursor.entry) }
{
    let mut entries: Vec<TestedEntry<'a>> = Vec::new(alloc);
    while cursor.valid() {
        let value = cursor.value();
        let tested = test_entry(last_of(&entries), cursor.key(), value)?;
        push_entry(alloc, &mut entries, tested, value)?;
        cursor.advance()?;
    }
    Ok(entries)
}

/// Tests an entry after the key before it, if there is one. The first test that fails names the
/// fault:
///
/// 1. Key, TooLarge: the key is an internal key, and its user key has at most 65,535 bytes.
/// 2. TooLarge: the value has at most 16,777,215 bytes.
/// 3. Order: the key is above the one before it.
fn test_entry<'k>(
    before: Option<InternalKey<'_>>,
    key: &'k [u8],
    value: &[u8],
) -> Result<InternalKey<'k>, Fault>
    ensures { result_map_both (λ key. key.bytes.now) (λ e. e) result
        ≡ file_entry_test (option_map (λ key. key.bytes.now) before.entry) key.now value.now }
{
    let key = InternalKey::parse(key)?;
    if value.len() > MAX_VALUE_LEN {
        return Err(Fault::of(FaultName::TooLarge));
    }
    match before {
        Some(before) if before.compare::<Bytewise>(&key) != Ordering::Less => Err(Fault::of(
            FaultName::Order,
        )),
        _ => Ok(key),
    }
}

/// Appends an entry.
pub(crate) fn push_entry<'a>(
    alloc: Global,
    entries: &mut Vec<TestedEntry<'a>>,
    key: InternalKey<'_>,
    value: &'a [u8],
) -> Result<(), Fault>
    requires { length value.now ≤ 16777215 }
    ensures ok { let entry : Entry = record { key = key.entry.bytes.now; value = value.now } in
        OnOk result (tested_entries entries.new.items ≡ tested_entries entries.old.items
        ++ entry ∷ []) }
    ensures memory { IfErr result (λ e. e ≡ fault Memory) }
{
    let key = KeyBuf::of(alloc, key)?;
    entries.push(TestedEntry { key, value })?;
    Ok(())
}
