//! The bytes of one output.

ghost use Rattle.std.specs.Prelude.{◌≡◌, true, map, OnOk, OnErr, IfErr, Ok, None};
ghost use Rattle.std.specs.List.{list_all};
ghost use Rattle.ikey.specs.Answers.{EqualOrMemory, FailsOrMemory};
ghost use Rattle.reads.specs.BuilderView.{with_entry};
ghost use Rattle.table.specs.EntryTests.{entry_test, last_key_after};
ghost use Rattle.table.specs.Options.{AreInLimits};
ghost use Rattle.c_api.specs.Orders.{by_orders};
ghost use Rattle.c_api.specs.Outputs.{entry_at, is_entry as lies_lent};
ghost use Rattle.c_api.specs.Held.{entries_reading};
ghost use Rattle.c_api.specs.Outputs.{output_answer, output_reading};
ghost use Rattle.c_api.specs.Requests.{options_of};
ghost use Rattle.c_api.specs.Rooms.{IsWrittenOrMemory};

use crate::code::{MISUSE, code_of};
use crate::order::{BYTEWISE, SHORTLEX};
use crate::place::{Place, is_within, part_of};
use crate::request::HostRequest;
use crate::room::put;
use ikey::{Bytewise, Comparator, Fault, FaultName, InternalKey, Shortlex};
use std::alloc::Global;
use table::{MAX_VALUE_LEN, Options, TableBuilder};

/// An entry of an output.
#[repr(C)]
#[derive(Clone, Copy, Drop)]
pub struct Entry {
    /// Its internal key, in the keys that are lent.
    pub key: Place,
    /// Its value, in the values that are lent.
    pub value: Place,
}

/// Writes the table of `entries` into `room`. `len` is its length, also if `room` is too small.
#[unsafe(no_mangle)]
pub extern "C" fn proved_output(
    alloc: Global,
    request: &HostRequest,
    keys: &[u8],
    values: &[u8],
    entries: &[Entry],
    room: &mut [u8],
    len: &mut u64,
) -> u32
    ensures answer { IsWrittenOrMemory result room.old room.new len.old len.new
        (output_answer request.now keys.now values.now entries.now) }
{
    if !are_entries(keys, values, entries) {
        return MISUSE;
    }
    match output_by(alloc, request, keys, values, entries) {
        Ok(table) => put(&table, room, len),
        Err(fault) => code_of(fault),
    }
}

/// Whether the key and the value of an entry lie in what is lent.
fn is_entry(keys: &[u8], values: &[u8], entry: &Entry) -> bool
    ensures { result ≡ lies_lent keys.now values.now entry.now }
{
    is_within(keys, entry.key) && is_within(values, entry.value)
}

/// Whether all entries lie in what is lent.
fn are_entries(keys: &[u8], values: &[u8], entries: &[Entry]) -> bool
    ensures { result ≡ list_all (lies_lent keys.now values.now) entries.now }
{
    entries.iter().all(|entry| is_entry(keys, values, entry))
}

/// The table of entries, in the request's order.
fn output_by(
    alloc: Global,
    request: &HostRequest,
    keys: &[u8],
    values: &[u8],
    entries: &[Entry],
) -> Result<Vec<u8>, Fault>
    requires { list_all (lies_lent keys.now values.now) entries.now ≡ true }
    ensures { EqualOrMemory (λ table. table.items) result (by_orders request.now.order
        (output_reading (options_of request.now)
        (map (entry_at keys.now values.now) entries.now))) }
{
    let options = request.options();
    match request.order {
        BYTEWISE => output::<Bytewise>(alloc, options, keys, values, entries),
        SHORTLEX => output::<Shortlex>(alloc, options, keys, values, entries),
        _ => Err(Fault::of(FaultName::Comparator)),
    }
}

/// The table of entries.
fn output<C: Comparator>(
    alloc: Global,
    options: Options,
    keys: &[u8],
    values: &[u8],
    entries: &[Entry],
) -> Result<Vec<u8>, Fault>
    requires { list_all (lies_lent keys.now values.now) entries.now ≡ true }
    ensures { EqualOrMemory (λ table. table.items) result
        (output_reading options (map (entry_at keys.now values.now) entries.now) C.cmp
        C.short_keys) }
{
    if !options.are_in_limits() {
        return Err(Fault::of(FaultName::Options));
    }
    if entries.is_empty() {
        return Err(Fault::of(FaultName::Empty));
    }
    let table = building::<C>(alloc, options, keys, values, entries)?;
    table.finish()
}

/// The table that is being written, after all entries.
fn building<C: Comparator>(
    alloc: Global,
    options: Options,
    keys: &[u8],
    values: &[u8],
    entries: &[Entry],
) -> Result<TableBuilder<C>, Fault>
    requires limits { AreInLimits options }
    requires lent { list_all (lies_lent keys.now values.now) entries.now ≡ true }
    ensures { EqualOrMemory (λ table. table) result
        (entries_reading options (map (entry_at keys.now values.now) entries.now) C.cmp) }
{
    let mut table = TableBuilder::<C>::new(alloc, options);
    for entry in entries {
        add(
            &mut table,
            part_of(keys, entry.key),
            part_of(values, entry.value),
        )?;
    }
    Ok(table)
}

/// Adds an entry, if it passes its tests after the last one.
fn add<C: Comparator>(table: &mut TableBuilder<C>, key: &[u8], value: &[u8]) -> Result<(), Fault>
    ensures ok { OnOk result (entry_test C.cmp (last_key_after None table.old.entries)
        (record { key = key.now; value = value.now }) ≡ Ok tt) }
    ensures added { OnOk result (table.new ≡ record {
      options = table.old.options;
      entries = with_entry table.old.entries key.now value.now;
    }) }
    ensures err { OnErr result (table.new ≡ table.old) }
    ensures refused { IfErr result (λ e. FailsOrMemory e (entry_test C.cmp
        (last_key_after None table.old.entries) (record { key = key.now; value = value.now }))) }
{
    let key = InternalKey::parse(key)?;
    if value.len() > MAX_VALUE_LEN {
        return Err(Fault::of(FaultName::TooLarge));
    }
    if !table.is_above_last(&key) {
        return Err(Fault::of(FaultName::Order));
    }
    table.add(key, value)
}
