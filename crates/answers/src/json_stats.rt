//! The JSON object of how much a version has.

ghost use Rattle.std.specs.Prelude.{map, Ok};
ghost use Rattle.table.specs.Answers.{EqualOrMemory};
ghost use Rattle.serde_json.specs.View.{view};
ghost use Rattle.answers.specs.StatsObject.{level_object, stats_object, total_object};

use crate::json_object::{Cell, NO_KEYS, capped, object};
use scan::{FileTotal, LevelStats, VersionStats};
use serde_json::{Map, Value, put};
use std::alloc::Global;
use table::Fault;
use texts::Spelling;

/// The object of how much a version has, with these members:
///
/// - `"levels":[{"bytes":B,"deletions":N,"entries":N,"files":N,"hidden":N,"largest":K,"level":L,
///   "smallest":K},..]`, by level;
/// - `"logs":{"bytes":B,"files":N}`, and the same as `"unnamed"` for the files that no version
///   names.
///
/// Keys are user keys. Of more than 2^64 - 1 entries that number stands.
pub fn stats_json(
    alloc: Global,
    spelling: Spelling,
    stats: &VersionStats,
    logs: FileTotal,
    unnamed: FileTotal,
) -> Result<Value, Fault>
    ensures { EqualOrMemory view result
        (Ok (stats_object spelling stats.now.levels.items logs unnamed)) }
{
    let levels = levels_json(alloc, spelling, &stats.levels)?;
    let logs = total_json(alloc, logs)?;
    let unnamed = total_json(alloc, unnamed)?;
    let mut members = Map::new(alloc);
    put(&mut members, alloc, "levels", Value::Array(levels))?;
    put(&mut members, alloc, "logs", logs)?;
    put(&mut members, alloc, "unnamed", unnamed)?;
    Ok(Value::Object(members))
}

/// The objects of levels.
fn levels_json(
    alloc: Global,
    spelling: Spelling,
    levels: &[LevelStats],
) -> Result<Vec<Value>, Fault>
    ensures { EqualOrMemory (λ v. map view v.items) result
        (Ok (map (level_object spelling) levels.now)) }
{
    let mut values = Vec::new(alloc);
    for level in levels {
        values.push(level_json(alloc, spelling, level)?)?;
    }
    Ok(values)
}

/// The object of a level.
fn level_json(alloc: Global, spelling: Spelling, stats: &LevelStats) -> Result<Value, Fault>
    ensures { EqualOrMemory view result (Ok (level_object spelling stats.now)) }
{
    let fields = [
        ("bytes", Cell::Number(stats.amounts.bytes)),
        ("deletions", Cell::Number(capped(stats.amounts.deletions))),
        ("entries", Cell::Number(capped(stats.amounts.entries))),
        ("files", Cell::Number(stats.amounts.files)),
        ("hidden", Cell::Number(capped(stats.amounts.hidden))),
        ("largest", Cell::Key(stats.largest.as_key().user())),
        ("level", Cell::Number(stats.level)),
        ("smallest", Cell::Key(stats.smallest.as_key().user())),
    ];
    object(alloc, spelling, &fields)
}

/// The object of files that are counted.
fn total_json(alloc: Global, total: FileTotal) -> Result<Value, Fault>
    ensures { EqualOrMemory view result (Ok (total_object total)) }
{
    let fields = [
        ("bytes", Cell::Number(total.bytes)),
        ("files", Cell::Number(total.files)),
    ];
    object(alloc, NO_KEYS, &fields)
}
