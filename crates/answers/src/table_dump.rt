//! The entries of a table as text.

ghost use Rattle.std.specs.Prelude.{◌≡◌, ◌<◌, ◌++◌, IfErr, Ok, OnOk, drop, length, string_bytes};
ghost use Rattle.table.specs.EncodedEntry.{Entry};
ghost use Rattle.table.specs.Answers.{EqualOrMemory, fault};
ghost use Rattle.table.specs.fault.FaultName.TheVariants.{Memory};
ghost use Rattle.answers.specs.Dump.{dump_line, dump_lines, table_dump};

use folder::Bytewise;
use scan::Kind;
use std::alloc::Global;
use std::fmt::Write;
use table::{Cursor, Fault, InternalKey, SoundTable, TableCursor, check};
use texts::Spelling;

/// The lines of a table in bytewise order, one for each entry: `KEY SEQ put VALUE` or `KEY SEQ
/// del`.
///
/// Keys and values are in this spelling; a sequence is decimal. An invalid table is refused by the
/// first test that fails, as `table::check` refuses it.
pub fn dump(alloc: Global, spelling: Spelling, bytes: &[u8]) -> Result<Vec<u8>, Fault>
    ensures { EqualOrMemory (λ lines. lines.items) result (table_dump spelling bytes.now) }
{
    let table = check::<Bytewise>(alloc, bytes)?;
    let mut out = String::new(alloc);
    push_lines(alloc, &mut out, spelling, &table)?;
    Ok(out.into_bytes())
}

/// Appends the lines of a table.
fn push_lines(
    alloc: Global,
    out: &mut String,
    spelling: Spelling,
    table: &SoundTable<'_, Bytewise>,
) -> Result<(), Fault>
    ensures ok { OnOk result (string_bytes out.new ≡ string_bytes out.old
        ++ dump_lines spelling table.now.entries) }
    ensures memory { IfErr result (λ e. e ≡ fault Memory) }
{
    let mut cursor = TableCursor::new(alloc, table)?;
    while cursor.valid() {
        push_next(alloc, out, spelling, &mut cursor)?;
    }
    Ok(())
}

/// Appends the line of a cursor's entry, and takes the cursor on.
fn push_next(
    alloc: Global,
    out: &mut String,
    spelling: Spelling,
    cursor: &mut TableCursor<'_, Bytewise>,
) -> Result<(), Fault>
    requires { 0 < length cursor.old }
    ensures line { OnOk result (string_bytes out.new ++ dump_lines spelling cursor.new
        ≡ string_bytes out.old ++ dump_lines spelling cursor.old) }
    ensures rest { OnOk result (cursor.new ≡ drop 1 cursor.old) }
    ensures memory { IfErr result (λ e. e ≡ fault Memory) }
{
    push_line(alloc, out, spelling, cursor.key(), cursor.value())?;
    cursor.advance()
}

/// Appends the line of an entry.
fn push_line(
    alloc: Global,
    out: &mut String,
    spelling: Spelling,
    key: InternalKey<'_>,
    value: &[u8],
) -> Result<(), Fault>
    ensures ok { let entry : Entry = record { key = key.entry.bytes.now; value = value.now } in
        OnOk result (string_bytes out.new ≡ string_bytes out.old
        ++ dump_line spelling entry) }
    ensures memory { IfErr result (λ e. e ≡ fault Memory) }
{
    let user = spelling.key_text(alloc, key.user())?;
    let sequence = key.sequence();
    match key.kind() {
        Kind::Put => {
            let value = spelling.value_text(alloc, value)?;
            out.reserve(value.len())?;
            writeln!(out, "{user} {sequence} put {value}")?;
        }
        Kind::Delete => writeln!(out, "{user} {sequence} del")?,
    }
    Ok(())
}
