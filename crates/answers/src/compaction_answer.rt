//! The lines of a compaction, and its JSON object.

ghost use Rattle.std.specs.Prelude.{◌≡◌, ◌++◌, map, IfErr, Ok, OnOk, string_bytes};
ghost use Rattle.table.specs.Answers.{EqualOrMemory, fault};
ghost use Rattle.table.specs.fault.FaultName.TheVariants.{Memory};
ghost use Rattle.serde_json.specs.View.{view};
ghost use Rattle.answers.specs.CompactionAnswer.{compaction_lines, compaction_object, end_field};
ghost use Rattle.answers.specs.CompactionAnswer.{field_line, output_row};
ghost use Rattle.answers.specs.Rows.{deleted};
ghost use Rattle.answers.specs.Seen.{seen};

use crate::json_object::{Cell, NO_KEYS, members};
use crate::rows::{Row, objects, push_rows};
use edit::DeletedFile;
use folder::manifest_name;
use serde_json::{Value, put};
use std::alloc::Global;
use std::collections::BTreeSet;
use table::Fault;

/// What becomes of the outputs and the edit of a compaction.
#[derive(Clone, Copy, Debug)]
pub enum CompactionEnd<'a> {
    /// They are installed, by the manifest of this number.
    Installed(u64),
    /// They are written aside, the edit to a file of this name.
    Written(&'a str),
}

/// The lines of a compaction that made `outputs`, of which it has the numbers and the lengths, and
/// deletes its inputs. Each has its newline:
///
/// - `output NUMBER SIZE` of each output in order;
/// - `deleted LEVEL NUMBER` of each input by level and number;
/// - `installed MANIFEST-NNNNNN`, or `written NAME`.
pub fn compaction_lines(
    alloc: Global,
    outputs: &[(u64, u64)],
    deleted: &BTreeSet<DeletedFile>,
    end: CompactionEnd<'_>,
) -> Result<String, Fault>
    ensures { EqualOrMemory string_bytes result
        (Ok (compaction_lines outputs.now deleted.now.keys end.entry)) }
{
    let mut text = String::new(alloc);
    let outputs = output_rows(alloc, outputs)?;
    let deleted = deleted_rows(alloc, deleted)?;
    push_rows(alloc, &mut text, NO_KEYS, &outputs)?;
    push_rows(alloc, &mut text, NO_KEYS, &deleted)?;
    let (name, value) = end_field(alloc, end)?;
    push_field(&mut text, name, value.as_str())?;
    Ok(text)
}

/// The object of the compaction of a `level`, with these members:
///
/// - `"deleted":[{"level":L,"number":N},..]`, the inputs by level and number;
/// - `"installed":MANIFEST` or `"written":NAME`;
/// - `"level":L`;
/// - `"outputs":[{"number":N,"size":B},..]`, the outputs in their order.
pub fn compaction_json(
    alloc: Global,
    level: u64,
    outputs: &[(u64, u64)],
    deleted: &BTreeSet<DeletedFile>,
    end: CompactionEnd<'_>,
) -> Result<Value, Fault>
    ensures { EqualOrMemory view result
        (Ok (compaction_object level outputs.now deleted.now.keys end.entry)) }
{
    let outputs = objects(alloc, NO_KEYS, &output_rows(alloc, outputs)?)?;
    let deleted = objects(alloc, NO_KEYS, &deleted_rows(alloc, deleted)?)?;
    let (name, value) = end_field(alloc, end)?;
    let fields = [
        ("level", Cell::Number(level)),
        (name, Cell::Text(value.as_str())),
    ];
    let mut members = members(alloc, NO_KEYS, &fields)?;
    put(&mut members, alloc, "outputs", Value::Array(outputs))?;
    put(&mut members, alloc, "deleted", Value::Array(deleted))?;
    Ok(Value::Object(members))
}

/// The name and the text of what became of it.
fn end_field(alloc: Global, end: CompactionEnd<'_>) -> Result<(&'static str, String), Fault>
    ensures { EqualOrMemory (λ field. (field.0.now, string_bytes field.1)) result
        (Ok (end_field end.entry)) }
{
    match end {
        CompactionEnd::Installed(number) => Ok(("installed", manifest_name(alloc, number)?)),
        CompactionEnd::Written(name) => Ok(("written", String::from_str(alloc, name)?)),
    }
}

fn push_field(text: &mut String, name: &str, value: &str) -> Result<(), Fault>
    ensures ok { OnOk result (string_bytes text.new ≡ string_bytes text.old
        ++ field_line (name.now, value.now)) }
    ensures memory { IfErr result (λ e. e ≡ fault Memory) }
{
    writeln!(text, "{name} {value}")?;
    Ok(())
}

fn output_rows(alloc: Global, outputs: &[(u64, u64)]) -> Result<Vec<Row<'static>>, Fault>
    ensures { EqualOrMemory (λ rows. map seen rows.items) result
        (Ok (map output_row outputs.now)) }
{
    let mut rows = Vec::with_capacity(alloc, outputs.len())?;
    for (number, size) in outputs {
        rows.push(Row::Output(*number, *size))?;
    }
    Ok(rows)
}

fn deleted_rows(alloc: Global, files: &BTreeSet<DeletedFile>) -> Result<Vec<Row<'static>>, Fault>
    ensures { EqualOrMemory (λ rows. map seen rows.items) result
        (Ok (map deleted files.now.keys)) }
{
    let mut rows = Vec::new(alloc);
    for file in files.iter() {
        rows.push(Row::Deleted(*file))?;
    }
    Ok(rows)
}
