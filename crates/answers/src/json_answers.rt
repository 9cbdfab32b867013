//! The JSON objects that are a row of fields: of verdicts, files, values and entries.

ghost use Rattle.std.specs.Prelude.{◌≡◌, ◌++◌, IsOkUnless, Ok, OnErr, OnOk, option_map};
ghost use Rattle.table.specs.Answers.{EqualOrMemory, fault};
ghost use Rattle.table.specs.Saturated.{saturated};
ghost use Rattle.table.specs.fault.FaultName.TheVariants.{Memory};
ghost use Rattle.serde_json.specs.View.{view};
ghost use Rattle.answers.specs.Objects.{count_object, entry_object, json_line, lawful_object};
ghost use Rattle.answers.specs.Objects.{logs_object, name_object, pair_object, removed_object};
ghost use Rattle.answers.specs.Objects.{valid_object, value_object};

use crate::history_lines::EntryPlace;
use crate::json_object::{Cell, NO_KEYS, capped, json_line, object};
use serde_json::Value;
use std::alloc::Global;
use table::Fault;
use texts::Spelling;

/// The object `{"entries":E,"files":F,"lawful":true,"logs":N,"missing_log":M}` of a lawful version.
/// So many `logs` have writes that are in no table: null if that isn't known. The log `missing` is
/// named and isn't there: null if none is. Of more than 2^64 - 1 entries that number stands.
pub fn lawful_json(
    alloc: Global,
    files: usize,
    entries: u128,
    logs: Option<u64>,
    missing: Option<u64>,
) -> Result<Value, Fault>
    ensures { EqualOrMemory view result
        (Ok (lawful_object files (saturated entries) logs missing)) }
{
    let fields = [
        ("entries", Cell::Number(capped(entries))),
        ("files", Cell::Number(files as u64)),
        ("lawful", Cell::True),
        ("logs", Cell::Count(logs)),
        ("missing_log", Cell::Count(missing)),
    ];
    object(alloc, NO_KEYS, &fields)
}

/// The object `{"logs":N}` after rows: how many logs have writes that are in no table, null if it
/// isn't known.
pub fn logs_json(alloc: Global, logs: Option<u64>) -> Result<Value, Fault>
    ensures { EqualOrMemory view result (Ok (logs_object logs)) }
{
    object(alloc, NO_KEYS, &[("logs", Cell::Count(logs))])
}

/// The object `{"count":N,"logs":N}`: how many rows there are, and how many logs as after rows.
pub fn count_json(alloc: Global, count: u64, logs: Option<u64>) -> Result<Value, Fault>
    ensures { EqualOrMemory view result (Ok (count_object count logs)) }
{
    let fields = [("count", Cell::Number(count)), ("logs", Cell::Count(logs))];
    object(alloc, NO_KEYS, &fields)
}

/// The object `{"bytes":B,"removed":NAME}` of a file that was removed.
pub fn removed_json(alloc: Global, name: &str, bytes: u64) -> Result<Value, Fault>
    ensures { EqualOrMemory view result (Ok (removed_object name.now bytes)) }
{
    let fields = [
        ("bytes", Cell::Number(bytes)),
        ("removed", Cell::Text(name)),
    ];
    object(alloc, NO_KEYS, &fields)
}

/// The object `{"name":NAME}` of a file that a copy needs.
pub fn name_json(alloc: Global, name: &str) -> Result<Value, Fault>
    ensures { EqualOrMemory view result (Ok (name_object name.now)) }
{
    object(alloc, NO_KEYS, &[("name", Cell::Text(name))])
}

/// The object `{"entries":E,"valid":true}` of a valid table.
pub fn valid_json(alloc: Global, entries: u64) -> Result<Value, Fault>
    ensures { EqualOrMemory view result (Ok (valid_object entries)) }
{
    let fields = [("entries", Cell::Number(entries)), ("valid", Cell::True)];
    object(alloc, NO_KEYS, &fields)
}

/// The object `{"key":K,"logs":N,"value":V}` of a key and its value; `"value":null` if it has none.
/// So many `logs` have writes that are in no table: null if that isn't known.
pub fn value_json<'a>(
    alloc: Global,
    spelling: Spelling,
    key: &'a [u8],
    value: Option<&'a [u8]>,
    logs: Option<u64>,
) -> Result<Value, Fault>
    ensures { EqualOrMemory view result (Ok (value_object spelling key.now
        (option_map (λ bytes. bytes.now) value.entry) logs)) }
{
    let fields = [
        ("key", Cell::Key(key)),
        ("logs", Cell::Count(logs)),
        ("value", Cell::Value(value)),
    ];
    object(alloc, spelling, &fields)
}

/// The object `{"file":F,"level":L,"sequence":S,"value":V}` of an entry, with null in place of V
/// for a deletion.
pub fn entry_json(
    alloc: Global,
    spelling: Spelling,
    place: EntryPlace,
    value: Option<&[u8]>,
) -> Result<Value, Fault>
    ensures { EqualOrMemory view result
        (Ok (entry_object spelling place (option_map (λ bytes. bytes.now) value.entry))) }
{
    let fields = [
        ("file", Cell::Number(place.file)),
        ("level", Cell::Number(place.level)),
        ("sequence", Cell::Number(place.sequence)),
        ("value", Cell::Value(value)),
    ];
    object(alloc, spelling, &fields)
}

/// Appends the line `{"key":K,"value":V}` of one key of many; `{"key":K}` if no value is given.
#[tactic(auto, using(crate::proofs::JsonLemmas::pair_has_no_float))]
pub fn push_row_json<'a>(
    alloc: Global,
    lines: &mut Vec<u8>,
    spelling: Spelling,
    key: &'a [u8],
    value: Option<&'a [u8]>,
) -> Result<(), Fault>
    ensures ok { OnOk result (lines.new.items ≡ lines.old.items ++ json_line (pair_object spelling
        key.now (option_map (λ bytes. bytes.now) value.entry))) }
    ensures err { OnErr result (lines.new.items ≡ lines.old.items) }
    ensures memory { IsOkUnless result (fault Memory) }
{
    let pair = pair_json(alloc, spelling, key, value)?;
    let line = json_line(alloc, &pair)?;
    lines.extend_from_slice(line.as_bytes())?;
    Ok(())
}

/// The object of that line.
fn pair_json<'a>(
    alloc: Global,
    spelling: Spelling,
    key: &'a [u8],
    value: Option<&'a [u8]>,
) -> Result<Value, Fault>
    ensures { EqualOrMemory view result (Ok (pair_object spelling key.now
        (option_map (λ bytes. bytes.now) value.entry))) }
{
    let key = ("key", Cell::Key(key));
    match value {
        Some(_) => object(alloc, spelling, &[key, ("value", Cell::Value(value))]),
        None => object(alloc, spelling, &[key]),
    }
}
