//! JSON objects of named fields, and their lines.

ghost use Rattle.std.specs.Prelude.{◌≡◌, false, map, Ok, string_bytes};
ghost use Rattle.table.specs.Answers.{EqualOrMemory};
ghost use Rattle.table.specs.Saturated.{saturated};
ghost use Rattle.serde_json.specs.View.{members_view, view};
ghost use Rattle.serde_json.specs.Written.{has_float};
ghost use Rattle.answers.specs.Fields.{cell_data, field_data};
ghost use Rattle.answers.specs.Objects.{hex_object, json_line, key_data, members_of, object_of};
ghost use Rattle.answers.specs.Objects.{some_data, utf8_data};

use serde_json::{Map, Value, json, put};
use std::alloc::Global;
use std::str;
use table::Fault;
use texts::{Spelling, text_of};

/// What stands in a field of an object.
#[derive(Clone, Copy)]
pub(crate) enum Cell<'a> {
    /// The mark that something holds.
    True,
    Number(u64),
    /// A number; null if there is none.
    Count(Option<u64>),
    Text(&'a str),
    /// A key in the spelling of the object.
    Key(&'a [u8]),
    /// A value in that spelling; null if there is none.
    Value(Option<&'a [u8]>),
}

/// The spelling of an object that has no keys.
pub(crate) const NO_KEYS: Spelling = Spelling::Hexadecimal;

/// The object of these fields.
pub(crate) fn object(
    alloc: Global,
    spelling: Spelling,
    fields: &[(&str, Cell<'_>)],
) -> Result<Value, Fault>
    ensures { EqualOrMemory view result (Ok (object_of (map (field_data spelling) fields.now))) }
{
    Ok(Value::Object(members(alloc, spelling, fields)?))
}

/// The members of that object.
pub(crate) fn members(
    alloc: Global,
    spelling: Spelling,
    fields: &[(&str, Cell<'_>)],
) -> Result<Map<String, Value>, Fault>
    ensures { EqualOrMemory (λ m. members_view m.entries) result
        (Ok (members_of (map (field_data spelling) fields.now))) }
{
    let mut members = Map::new(alloc);
    for (name, cell) in fields {
        let value = cell_json(alloc, spelling, *cell)?;
        put(&mut members, alloc, name, value)?;
    }
    Ok(members)
}

/// What a field holds. Keys and values are strings of their texts; with `Utf8` one that isn't UTF-8
/// is an object of its digits.
fn cell_json(alloc: Global, spelling: Spelling, cell: Cell<'_>) -> Result<Value, Fault>
    ensures { EqualOrMemory view result (Ok (cell_data spelling cell.entry)) }
{
    match cell {
        Cell::True => Ok(Value::Bool(true)),
        Cell::Number(number) => Ok(Value::from(number)),
        Cell::Count(Some(number)) => Ok(Value::from(number)),
        Cell::Text(text) => Ok(Value::try_from_str(alloc, text)?),
        Cell::Key(key) => key_json(alloc, spelling, key),
        Cell::Value(Some(value)) => some_json(alloc, spelling, value),
        Cell::Count(None) | Cell::Value(None) => Ok(Value::Null),
    }
}

fn key_json(alloc: Global, spelling: Spelling, key: &[u8]) -> Result<Value, Fault>
    ensures { EqualOrMemory view result (Ok (key_data spelling key.now)) }
{
    match spelling {
        Spelling::Utf8 => utf8_json(alloc, key),
        _ => Ok(Value::from(spelling.key_text(alloc, key)?)),
    }
}

fn some_json(alloc: Global, spelling: Spelling, value: &[u8]) -> Result<Value, Fault>
    ensures { EqualOrMemory view result (Ok (some_data spelling value.now)) }
{
    match spelling {
        Spelling::Utf8 => utf8_json(alloc, value),
        _ => Ok(Value::from(spelling.value_text(alloc, value)?)),
    }
}

/// Bytes that are UTF-8 as a JSON string of their characters, others as `{"hex":H}`.
fn utf8_json(alloc: Global, bytes: &[u8]) -> Result<Value, Fault>
    ensures { EqualOrMemory view result (Ok (utf8_data bytes.now)) }
{
    match str::from_utf8(bytes) {
        Ok(text) => Ok(Value::try_from_str(alloc, text)?),
        Err(_) => hex_json(alloc, bytes),
    }
}

fn hex_json(alloc: Global, bytes: &[u8]) -> Result<Value, Fault>
    ensures { EqualOrMemory view result (Ok (hex_object bytes.now)) }
{
    let digits = text_of(alloc, bytes)?;
    Ok(json!(in alloc; {"hex": digits})?)
}

/// A count, or 2^64 - 1 if it is more.
pub(crate) fn capped(count: u128) -> u64
    ensures { result ≡ saturated count }
{
    count.min(u128::from(u64::MAX)) as u64
}

/// The line of a value: its text without blanks, members by name, and a newline.
pub fn json_line(alloc: Global, value: &Value) -> Result<String, Fault>
    ensures { has_float (view value.now) ≡ false →
        EqualOrMemory string_bytes result (Ok (json_line (view value.now))) }
{
    let mut line = value.to_string(alloc)?;
    line.push('\n')?;
    Ok(line)
}
