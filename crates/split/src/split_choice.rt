//! Boundaries taken from the index keys of tables.

ghost use Rattle.std.specs.Prelude.{◌≡◌, ◌*◌, ◌/◌, ◌<◌, ◌≤◌, ◌++◌, Ok, map, length, Contains, IfOk};
ghost use Rattle.std.specs.Prelude.{OnOk, IsOkUnless};
ghost use Rattle.std.specs.List.{flat_map};
ghost use Rattle.table.specs.Answers.{EqualOrMemory, fault};
ghost use Rattle.table.specs.fault.FaultName.TheVariants.{Memory};
ghost use Rattle.split.specs.Boundaries.{KeysRise};
ghost use Rattle.split.specs.SplitChoice.{IsListOf, IsAtPlaceBelow, IsChoice};
ghost use Rattle.split.specs.SplitChoice.{every, every_of, sample_of};

use crate::split::{RANGE_SAMPLES, SAMPLE_STEP};
use std::alloc::Global;
use table::{Comparator, Fault, KeyList, SoundTable};

/// The user keys of each table's index.
pub(crate) fn index_lists<C: Comparator>(
    alloc: Global,
    tables: &[SoundTable<'_, C>],
) -> Result<Vec<KeyList>, Fault>
    ensures { EqualOrMemory (λ lists. lists.items) result
        (Ok (map (λ table. table.index_users) tables.now)) }
{
    let mut lists = Vec::with_capacity(alloc, tables.len())?;
    for table in tables {
        lists.push(table.index_keys(alloc)?)?;
    }
    Ok(lists)
}

/// Appends every `step`-th key of a list, from place `step / 2` on, without copying them.
fn push_lent<'k>(keys: &mut Vec<&'k [u8]>, list: &'k KeyList, step: usize) -> Result<(), Fault>
    requires { 0 < step }
    ensures ok { OnOk result (map (λ key. key.now) keys.new.items
        ≡ map (λ key. key.now) keys.old.items ++ every step list.now) }
    ensures memory { IsOkUnless result (fault Memory) }
{
    for place in (step / 2..list.len()).step_by(step) {
        keys.push(list.get(place))?;
    }
    Ok(())
}

/// Every `step`-th key of each list, from place `step / 2` on, without copying them. So step 1
/// gives all.
pub(crate) fn lent_keys<'k>(
    alloc: Global,
    lists: &'k [KeyList],
    step: usize,
) -> Result<Vec<&'k [u8]>, Fault>
    requires { 0 < step }
    ensures { EqualOrMemory (λ keys. map (λ key. key.now) keys.items) result
        (Ok (every_of step lists.now)) }
{
    let mut keys = Vec::new(alloc);
    for list in lists {
        push_lent(&mut keys, list, step)?;
    }
    Ok(keys)
}

/// A sample of the keys of all lists, for `want` ranges: every 16th, if those are at least 4 for
/// each range, and else all.
pub(crate) fn sampled_keys<'k>(
    alloc: Global,
    lists: &'k [KeyList],
    want: u64,
) -> Result<Vec<&'k [u8]>, Fault>
    requires { want ≤ 4096 }
    ensures { EqualOrMemory (λ keys. map (λ key. key.now) keys.items) result
        (Ok (sample_of want lists.now)) }
{
    let sample = lent_keys(alloc, lists, SAMPLE_STEP)?;
    if RANGE_SAMPLES * want <= sample.len() as u64 {
        return Ok(sample);
    }
    lent_keys(alloc, lists, 1)
}

/// The boundaries for `want` ranges, taken from these keys.
pub(crate) fn boundaries_from<C: Comparator>(
    alloc: Global,
    keys: Vec<&[u8]>,
    want: u64,
) -> Result<Vec<Vec<u8>>, Fault>
    requires least { 0 < want }
    requires most { want ≤ 4096 }
    ensures few { IfOk result (λ boundaries. length boundaries.items < want) }
    ensures chosen { IfOk result (λ boundaries.
        IsChoice C.cmp (map (λ key. key.now) keys.entry.items) want
        (map (λ key. key.items) boundaries.items)) }
    ensures memory { IsOkUnless result (fault Memory) }
{
    let keys = each_once::<C>(keys)?;
    at_places::<C>(alloc, &keys, want)
}

/// The keys in order, each once.
///
/// The keys of each table are in order already, so a stable sort has only to merge them.
fn each_once<'k, C: Comparator>(mut keys: Vec<&'k [u8]>) -> Result<Vec<&'k [u8]>, Fault>
    ensures once { IfOk result
        (λ once. IsListOf C.cmp (Contains (map (λ key. key.now) keys.entry.items))
        (map (λ key. key.now) once.items)) }
    ensures memory { IsOkUnless result (fault Memory) }
{
    keys.sort_by(|key, other| C::compare(key, other))?;
    keys.dedup();
    Ok(keys)
}

/// The keys at the places of the boundaries, each once.
fn at_places<C: Comparator>(alloc: Global, keys: &[&[u8]], want: u64) -> Result<Vec<Vec<u8>>, Fault>
    requires least { 0 < want }
    requires most { want ≤ 4096 }
    requires rising { KeysRise C.cmp (map (λ key. key.now) keys.now) }
    ensures few { IfOk result (λ boundaries. length boundaries.items < want) }
    ensures places { IfOk result (λ boundaries.
        IsListOf C.cmp (IsAtPlaceBelow (map (λ key. key.now) keys.now) want want)
        (map (λ key. key.items) boundaries.items)) }
    ensures memory { IsOkUnless result (fault Memory) }
{
    let mut boundaries = Vec::new(alloc);
    let mut free = 0;
    for number in 1..want {
        let place = place_of(number, keys.len(), want);
        if free <= place && place < keys.len() {
            boundaries.push(Vec::from_slice(alloc, keys[place])?)?;
            free = place + 1;
        }
    }
    Ok(boundaries)
}

/// The place of boundary `number` among `count` keys, if `want` ranges are wanted.
fn place_of(number: u64, count: usize, want: u64) -> usize
    requires number { number < want }
    requires want { want ≤ 4096 }
    ensures { result ≡ number * count / want }
{
    (u128::from(number) * count as u128 / u128::from(want)) as usize
}
