//! What is printed of the value of a user key.

ghost use Rattle.std.specs.Prelude.{◌≡◌, ◌++◌, ℕ, List, Option, Some, Ok, IsOkUnless, OnOk};
ghost use Rattle.std.specs.Prelude.{option_map, string_bytes};
ghost use Rattle.table.specs.Answers.{EqualOrMemory, fault};
ghost use Rattle.table.specs.fault.FaultName.TheVariants.{Memory};
ghost use Rattle.texts.specs.Escaped.{first_in_value};
ghost use Rattle.texts.specs.Spelling.{ArePrintable, ReadBack};
ghost use Rattle.answers.specs.ValueForms.{ValueLinesDiffer, lone_text, value_answer, value_line};
ghost use Rattle.answers.specs.ValueForms.{named_value_line, value_line_text};

use std::alloc::Global;
use table::Fault;
use texts::Spelling;

/// In which form the value of a key is answered.
#[derive(Clone, Copy, PartialEq, Eq)]
pub enum ValueForm {
    /// Its text and a newline; the line `none` if the key has no value. The text of the four bytes
    /// `none` is `\x6eone` here.
    Line(Spelling),
    /// The bytes of the value and nothing else; no answer if the key has no value.
    Raw,
}

/// What is printed of a value, or of none, in a form; None if nothing is.
pub fn value_answer(
    alloc: Global,
    form: ValueForm,
    value: Option<Vec<u8>>,
) -> Result<Option<Vec<u8>>, Fault>
    ensures { EqualOrMemory (option_map (λ bytes. bytes.items)) result
        (Ok (value_answer form (option_map (λ bytes. bytes.items) value))) }
{
    match form {
        ValueForm::Line(spelling) => Ok(Some(value_line(alloc, spelling, value)?)),
        ValueForm::Raw => Ok(value),
    }
}

/// Appends the line of a key, and of what the line of its value says: `KEY VALUE`, or `KEY none`.
pub fn push_named_value(
    lines: &mut Vec<u8>,
    spelling: Spelling,
    key: &[u8],
    line: &[u8],
) -> Result<(), Fault>
    ensures ok { (value : Option (List ℕ)) → line.now ≡ value_line spelling value →
        OnOk result (lines.new.items ≡ lines.old.items ++ named_value_line spelling key.now value) }
    ensures memory { IsOkUnless result (fault Memory) }
{
    spelling.push_key(lines, key)?;
    lines.push(b' ')?;
    lines.extend_from_slice(line)?;
    Ok(())
}

/// The line of a value, or of none.
fn value_line(alloc: Global, spelling: Spelling, value: Option<Vec<u8>>) -> Result<Vec<u8>, Fault>
    ensures { EqualOrMemory (λ line. line.items) result
        (Ok (value_line spelling (option_map (λ bytes. bytes.items) value))) }
{
    match value {
        Some(bytes) => {
            let mut line = lone_text(alloc, spelling, bytes.as_slice())?.into_bytes();
            line.push(b'\n')?;
            Ok(line)
        }
        None => Ok(Vec::from_slice(alloc, b"none\n")?),
    }
}

/// The text of a value on a line of its own.
fn lone_text(alloc: Global, spelling: Spelling, value: &[u8]) -> Result<String, Fault>
    ensures { EqualOrMemory string_bytes result (Ok (lone_text spelling value.now)) }
{
    match spelling {
        Spelling::Hexadecimal => spelling.value_text(alloc, value),
        Spelling::Text | Spelling::Utf8 => {
            if value == "none".as_bytes() {
                return Ok(String::from_str(alloc, "\\x6eone")?);
            }
            spelling.value_text(alloc, value)
        }
    }
}

/// The law of the line of a value, in either spelling. But for its newline it is printable ASCII
/// and is read as this value. It is never the line of a key without a value. A call does nothing.
pub fn value_lines_law()
    ensures values { ReadBack value_line_text }
    ensures characters { ArePrintable first_in_value value_line_text }
    ensures none { ValueLinesDiffer }
{}
