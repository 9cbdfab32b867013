//! Boundaries between ranges of about one size, taken from the tables' indexes. Which boundaries
//! these are changes no answer, so no contract says which.

ghost use Rattle.std.specs.Prelude.{◌≡◌, ◌<◌, IfErr, IsOkUnless};
ghost use Rattle.ikey.specs.Answers.{fault};
ghost use Rattle.ikey.specs.fault.FaultName.TheVariants.{Memory};

use ikey::{Comparator, Fault};
use split::Split;
use std::alloc::Global;
use table::SoundTable;

/// About how many boundaries all tables give together.
const BOUNDARIES: usize = 64;

/// The most tables of which boundaries are taken.
const MAX_SAMPLED: usize = 1024;

/// A split of the tables' user keys into ranges of about one size.
pub(crate) fn sampled_split<C: Comparator>(
    alloc: Global,
    tables: &[&SoundTable<'_, C>],
) -> Result<Split<C>, Fault>
    ensures memory { IfErr result (λ e. e ≡ fault Memory) }
{
    let mut keys = sampled_keys(alloc, tables)?;
    keys.sort_unstable_by(|key, other| C::compare(key, other));
    match Split::from_keys(rising::<C>(alloc, keys)?) {
        Ok(split) => Ok(split),
        Err(_) => Split::from_keys(Vec::new(alloc)),
    }
}

/// User keys of the tables' indexes, in no order.
fn sampled_keys<C: Comparator>(
    alloc: Global,
    tables: &[&SoundTable<'_, C>],
) -> Result<Vec<Vec<u8>>, Fault>
    ensures memory { IfErr result (λ e. e ≡ fault Memory) }
{
    let wanted = (BOUNDARIES / tables.len().max(1)).max(1);
    let stride = tables.len() / MAX_SAMPLED + 1;
    let mut keys = Vec::new(alloc);
    for (place, table) in tables.iter().enumerate() {
        if place % stride == 0 {
            push_keys(alloc, &mut keys, table, wanted)?;
        }
    }
    Ok(keys)
}

/// Appends about `wanted` user keys of a table's index, in equal steps.
fn push_keys<C: Comparator>(
    alloc: Global,
    keys: &mut Vec<Vec<u8>>,
    table: &SoundTable<'_, C>,
    wanted: usize,
) -> Result<(), Fault>
    requires { 0 < wanted }
    ensures memory { IsOkUnless result (fault Memory) }
{
    let index = table.index_keys(alloc)?;
    let step = (index.len() / wanted).max(1);
    for place in 0..index.len() {
        if place % step == 0 {
            keys.push(Vec::from_slice(alloc, index.get(place))?)?;
        }
    }
    Ok(())
}

/// The keys, which are in order, without those that aren't above the one before.
fn rising<C: Comparator>(alloc: Global, keys: Vec<Vec<u8>>) -> Result<Vec<Vec<u8>>, Fault>
    ensures memory { IfErr result (λ e. e ≡ fault Memory) }
{
    let mut kept = Vec::<Vec<u8>>::new(alloc);
    for key in keys {
        let is_above = match kept.last() {
            Some(last) => C::compare(last, &key).is_lt(),
            None => true,
        };
        if is_above {
            kept.push(key)?;
        }
    }
    Ok(kept)
}
