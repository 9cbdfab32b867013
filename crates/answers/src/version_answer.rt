//! The lines that show a version, and its JSON object.

ghost use Rattle.std.specs.Prelude.{◌≡◌, ◌++◌, ◌≤◌, IfErr, Ok, OnOk, map, string_bytes};
ghost use Rattle.table.specs.Answers.{EqualOrMemory, fault};
ghost use Rattle.table.specs.fault.FaultName.TheVariants.{Memory};
ghost use Rattle.edit.specs.declared.meta.TheConstants.{LAST_LEVEL};
ghost use Rattle.folder.specs.Orders.{order_cmp};
ghost use Rattle.serde_json.specs.View.{members_view, view};
ghost use Rattle.answers.specs.Objects.{members_of};
ghost use Rattle.answers.specs.Rows.{listed};
ghost use Rattle.answers.specs.Seen.{seen};
ghost use Rattle.answers.specs.VersionAnswer.{counters_of, file_rows, head_fields, head_lines};
ghost use Rattle.answers.specs.VersionAnswer.{pointer_row, pointer_rows, version_lines};
ghost use Rattle.answers.specs.VersionAnswer.{version_object};

use crate::json_object::{Cell, NO_KEYS, members};
use crate::rows::{Row, objects, push_rows};
use edit::{FileMeta, LEVELS, Version};
use folder::{Bytewise, Order, Shortlex};
use serde_json::{Map, Value, put};
use std::alloc::Global;
use table::{Comparator, Fault};
use texts::Spelling;

/// The lines of a `version` of this `order`: what [`manifest`](crate::manifest) answers of a folder
/// that is opened already.
pub fn manifest_lines(
    alloc: Global,
    spelling: Spelling,
    order: Order,
    version: &Version,
) -> Result<Vec<u8>, Fault>
    ensures { EqualOrMemory (λ v. v.items) result
        (Ok (version_lines spelling order version.now)) }
{
    let mut text = head_text(alloc, order.name(), Counters::of(version))?;
    let pointers = pointer_rows(alloc, version)?;
    let files = file_rows(alloc, order, version)?;
    push_rows(alloc, &mut text, spelling, &pointers)?;
    push_rows(alloc, &mut text, spelling, &files)?;
    Ok(text.into_bytes())
}

/// The object of a `version` of this `order`, with these members:
///
/// - `"comparator":NAME`; the counters `"last":N`, `"log":N`, `"next":N`, `"previous":N`;
/// - `"files":[{"largest":K,"level":L,"number":N,"size":B,"smallest":K},..]`, by level and in
///   version order;
/// - `"pointers":[{"key":K,"level":L,"sequence":S,"type":T},..]`, by level.
///
/// Keys are user keys. A counter that was never set is 0.
pub fn version_json(
    alloc: Global,
    spelling: Spelling,
    order: Order,
    version: &Version,
) -> Result<Value, Fault>
    ensures { EqualOrMemory view result (Ok (version_object spelling order version.now)) }
{
    let files = objects(alloc, spelling, &file_rows(alloc, order, version)?)?;
    let pointers = objects(alloc, spelling, &pointer_rows(alloc, version)?)?;
    let mut members = head_members(alloc, order.name(), Counters::of(version))?;
    put(&mut members, alloc, "files", Value::Array(files))?;
    put(&mut members, alloc, "pointers", Value::Array(pointers))?;
    Ok(Value::Object(members))
}

/// The counters of a version. One that was never set is 0.
#[derive(Clone, Copy)]
struct Counters {
    last: u64,
    log: u64,
    next: u64,
    previous: u64,
}

impl Counters {
    fn of(version: &Version) -> Counters
        ensures { result ≡ counters_of version.now }
    {
        Counters {
            last: version.last_sequence().unwrap_or(0),
            log: version.log_number().unwrap_or(0),
            next: version.next_file().unwrap_or(0),
            previous: version.previous_log().unwrap_or(0),
        }
    }
}

/// The lines of a comparator's name and of counters.
fn head_text(alloc: Global, name: &str, counters: Counters) -> Result<String, Fault>
    ensures { EqualOrMemory string_bytes result (Ok (head_lines name.now counters)) }
{
    let Counters {
        last,
        log,
        next,
        previous,
    } = counters;
    Ok(format!(in alloc;
        "comparator {name}\nlog {log}\nprevious {previous}\nnext {next}\nlast {last}\n"
    )?)
}

/// The members of these.
fn head_members(alloc: Global, name: &str, counters: Counters) -> Result<Map<String, Value>, Fault>
    ensures { EqualOrMemory (λ m. members_view m.entries) result
        (Ok (members_of (head_fields name.now counters))) }
{
    let fields = [
        ("comparator", Cell::Text(name)),
        ("last", Cell::Number(counters.last)),
        ("log", Cell::Number(counters.log)),
        ("next", Cell::Number(counters.next)),
        ("previous", Cell::Number(counters.previous)),
    ];
    members(alloc, NO_KEYS, &fields)
}

/// The compact pointers, by level.
fn pointer_rows(alloc: Global, version: &Version) -> Result<Vec<Row<'_>>, Fault>
    ensures { EqualOrMemory (λ rows. map seen rows.items) result
        (Ok (pointer_rows version.now)) }
{
    let mut rows = Vec::new(alloc);
    for level in 0..LEVELS {
        push_pointer(&mut rows, version, level)?;
    }
    Ok(rows)
}

/// Appends a level's compact pointer, if it has one.
fn push_pointer<'v>(rows: &mut Vec<Row<'v>>, version: &'v Version, level: u64) -> Result<(), Fault>
    requires { level ≤ LAST_LEVEL }
    ensures ok { OnOk result (map seen rows.new.items ≡ map seen rows.old.items
        ++ pointer_row version.now level) }
    ensures memory { IfErr result (λ e. e ≡ fault Memory) }
{
    if let Some(key) = version.pointer(level) {
        rows.push(Row::Pointer(level, key))?;
    }
    Ok(())
}

/// The files: by level, and in the version order of this `order`.
fn file_rows(alloc: Global, order: Order, version: &Version) -> Result<Vec<Row<'_>>, Fault>
    ensures { EqualOrMemory (λ rows. map seen rows.items) result
        (Ok (file_rows (order_cmp order) version.now)) }
{
    match order {
        Order::Bytewise => rows_by::<Bytewise>(alloc, version),
        Order::Shortlex => rows_by::<Shortlex>(alloc, version),
    }
}

/// The same by this comparator.
fn rows_by<C: Comparator>(alloc: Global, version: &Version) -> Result<Vec<Row<'_>>, Fault>
    ensures { EqualOrMemory (λ rows. map seen rows.items) result
        (Ok (file_rows C.cmp version.now)) }
{
    let mut rows = Vec::new(alloc);
    for level in 0..LEVELS {
        push_files(&mut rows, level, &version.files::<C>(alloc, level)?)?;
    }
    Ok(rows)
}

/// Appends the files of a level.
fn push_files<'v>(rows: &mut Vec<Row<'v>>, level: u64, files: &[&'v FileMeta]) -> Result<(), Fault>
    ensures ok { OnOk result (map seen rows.new.items ≡ map seen rows.old.items
        ++ map (λ f. listed level f.now) files.now) }
    ensures memory { IfErr result (λ e. e ≡ fault Memory) }
{
    for file in files {
        rows.push(Row::File(level, *file))?;
    }
    Ok(())
}
