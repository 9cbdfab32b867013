//! The rows of answers that are lists: their lines, and their JSON objects.

ghost use Rattle.std.specs.Prelude.{◌≡◌, ◌++◌, IfErr, Ok, OnOk, map, string_bytes};
ghost use Rattle.std.specs.List.{flat_map};
ghost use Rattle.table.specs.Answers.{EqualOrMemory, fault};
ghost use Rattle.table.specs.fault.FaultName.TheVariants.{Memory};
ghost use Rattle.serde_json.specs.View.{view};
ghost use Rattle.answers.specs.Rows.{listed, pointer, row_line, row_object};
ghost use Rattle.answers.specs.Seen.{seen};

use crate::json_object::{Cell, object};
use edit::{DeletedFile, FileMeta};
use serde_json::Value;
use std::alloc::Global;
use table::{Fault, KeyBuf};
use texts::Spelling;

/// A row of an answer.
#[derive(Clone, Copy)]
pub(crate) enum Row<'a> {
    /// An output of a compaction, by its number and its length.
    Output(u64, u64),
    /// An input of a compaction.
    Deleted(DeletedFile),
    /// The compact pointer of a level.
    Pointer(u64, &'a KeyBuf),
    /// A file of a level.
    File(u64, &'a FileMeta),
}

/// Appends the lines of rows.
pub(crate) fn push_rows(
    alloc: Global,
    text: &mut String,
    spelling: Spelling,
    rows: &[Row<'_>],
) -> Result<(), Fault>
    ensures ok { OnOk result (string_bytes text.new ≡ string_bytes text.old
        ++ flat_map (λ row. row_line spelling (seen row)) rows.now) }
    ensures memory { IfErr result (λ e. e ≡ fault Memory) }
{
    for row in rows {
        push_line(alloc, text, spelling, *row)?;
    }
    Ok(())
}

fn push_line(
    alloc: Global,
    text: &mut String,
    spelling: Spelling,
    row: Row<'_>,
) -> Result<(), Fault>
    ensures ok { OnOk result (string_bytes text.new ≡ string_bytes text.old
        ++ row_line spelling (seen row.entry)) }
    ensures memory { IfErr result (λ e. e ≡ fault Memory) }
{
    match row {
        Row::Output(number, size) => writeln!(text, "output {number} {size}")?,
        Row::Deleted(DeletedFile { level, number }) => {
            writeln!(text, "deleted {level} {number}")?;
        }
        Row::Pointer(level, key) => push_pointer(alloc, text, spelling, level, key)?,
        Row::File(level, file) => {
            let number = file.number;
            let size = file.size;
            writeln!(text, "file {level} {number} {size}")?;
        }
    }
    Ok(())
}

fn push_pointer(
    alloc: Global,
    text: &mut String,
    spelling: Spelling,
    level: u64,
    key: &KeyBuf,
) -> Result<(), Fault>
    ensures ok { OnOk result (string_bytes text.new ≡ string_bytes text.old
        ++ row_line spelling (pointer level key.now)) }
    ensures memory { IfErr result (λ e. e ≡ fault Memory) }
{
    let key = key.as_key();
    let user = spelling.key_text(alloc, key.user())?;
    let sequence = key.sequence();
    let kind = key.kind().number();
    writeln!(text, "pointer {level} {user} {sequence} {kind}")?;
    Ok(())
}

/// The objects of rows.
pub(crate) fn objects(
    alloc: Global,
    spelling: Spelling,
    rows: &[Row<'_>],
) -> Result<Vec<Value>, Fault>
    ensures { EqualOrMemory (λ v. map view v.items) result
        (Ok (map (λ row. row_object spelling (seen row)) rows.now)) }
{
    let mut values = Vec::new(alloc);
    for row in rows {
        values.push(row_json(alloc, spelling, *row)?)?;
    }
    Ok(values)
}

fn row_json(alloc: Global, spelling: Spelling, row: Row<'_>) -> Result<Value, Fault>
    ensures { EqualOrMemory view result (Ok (row_object spelling (seen row.entry))) }
{
    match row {
        Row::Output(number, size) => {
            let fields = [
                ("number", Cell::Number(number)),
                ("size", Cell::Number(size)),
            ];
            object(alloc, spelling, &fields)
        }
        Row::Deleted(DeletedFile { level, number }) => {
            let fields = [
                ("level", Cell::Number(level)),
                ("number", Cell::Number(number)),
            ];
            object(alloc, spelling, &fields)
        }
        Row::Pointer(level, key) => pointer_json(alloc, spelling, level, key),
        Row::File(level, file) => file_json(alloc, spelling, level, file),
    }
}

fn pointer_json(alloc: Global, spelling: Spelling, level: u64, key: &KeyBuf) -> Result<Value, Fault>
    ensures { EqualOrMemory view result (Ok (row_object spelling (pointer level key.now))) }
{
    let key = key.as_key();
    let fields = [
        ("key", Cell::Key(key.user())),
        ("level", Cell::Number(level)),
        ("sequence", Cell::Number(key.sequence())),
        ("type", Cell::Number(u64::from(key.kind().number()))),
    ];
    object(alloc, spelling, &fields)
}

fn file_json(alloc: Global, spelling: Spelling, level: u64, file: &FileMeta) -> Result<Value, Fault>
    ensures { EqualOrMemory view result (Ok (row_object spelling (listed level file.now))) }
{
    let fields = [
        ("largest", Cell::Key(file.largest.as_key().user())),
        ("level", Cell::Number(level)),
        ("number", Cell::Number(file.number)),
        ("size", Cell::Number(file.size)),
        ("smallest", Cell::Key(file.smallest.as_key().user())),
    ];
    object(alloc, spelling, &fields)
}
