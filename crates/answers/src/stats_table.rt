//! The lines of how much a version has, with bars.

use scan::{Amounts, FileTotal, LevelStats, VersionStats};
use std::alloc::Global;
use table::Fault;
use texts::Spelling;

/// How many places the longest bar has.
const PLACES: u64 = 40;

/// The lines of how much a version has, each with its newline:
///
/// 1. a table with the columns `level`, `files`, `bytes`, `entries`, `deletions`, `hidden` and
///    `share`: a heading, a line for each level that has a file, and a line for all;
/// 2. `level L: from KEY to KEY` for each of these levels, with its smallest and its largest user
///    key;
/// 3. `logs: N, B bytes` and `files that no version names: N, B bytes`.
///
/// Columns are as wide as their widest cell, with two spaces between. Cells are at their right. A
/// share is that of the bytes in whole percent, rounded down, and 0 if there are none. After it a
/// level's line has a bar of its bytes, if it has any. No line ends with a blank.
pub fn stats_text(
    alloc: Global,
    spelling: Spelling,
    stats: &VersionStats,
    logs: FileTotal,
    unnamed: FileTotal,
) -> Result<Vec<u8>, Fault> {
    let mut text = String::new(alloc);
    push_headings(alloc, &mut text, stats.all)?;
    push_levels(alloc, &mut text, stats)?;
    push_amounts(alloc, &mut text, "all", stats.all, stats.all)?;
    text.push('\n')?;
    push_bounds(alloc, &mut text, spelling, &stats.levels)?;
    push_total(&mut text, "logs", logs)?;
    push_total(&mut text, "files that no version names", unnamed)?;
    Ok(text.into_bytes())
}

/// The heading and the number of each column that has numbers.
fn columns(amounts: Amounts) -> [(&'static str, u128); 5] {
    [
        ("files", u128::from(amounts.files)),
        ("bytes", u128::from(amounts.bytes)),
        ("entries", amounts.entries),
        ("deletions", amounts.deletions),
        ("hidden", amounts.hidden),
    ]
}

/// How wide a column of this heading and this greatest number is.
fn width(alloc: Global, heading: &str, greatest: u128) -> Result<usize, Fault> {
    Ok(format!(in alloc; "{greatest}")?.len().max(heading.len()))
}

/// Appends the line of the headings. The numbers of `all` levels are the greatest.
fn push_headings(alloc: Global, text: &mut String, all: Amounts) -> Result<(), Fault> {
    let columns = columns(all);
    text.push_str("level")?;
    for (heading, greatest) in &columns {
        let width = width(alloc, heading, *greatest)?;
        write!(text, "  {heading:>width$}")?;
    }
    text.push_str("  share\n")?;
    Ok(())
}

/// Appends a line for each level, with a bar of its bytes if it has any.
fn push_levels(alloc: Global, text: &mut String, stats: &VersionStats) -> Result<(), Fault> {
    let levels = &stats.levels;
    let most = levels
        .iter()
        .map(|level| level.amounts.bytes)
        .max()
        .unwrap_or(0);
    for LevelStats { level, amounts, .. } in levels {
        let subject = format!(in alloc; "{level}")?;
        push_amounts(alloc, text, subject.as_str(), *amounts, stats.all)?;
        if amounts.bytes > 0 {
            let bar = bar(alloc, amounts.bytes, most)?;
            write!(text, "  {bar}")?;
        }
        text.push('\n')?;
    }
    Ok(())
}

/// The bar of an `amount`: a mark for each place i, from 0 on, with `i * most < amount * 40`. In
/// its group `most` is the largest amount.
fn bar(alloc: Global, amount: u64, most: u64) -> Result<String, Fault> {
    let mut text = String::new(alloc);
    for place in 0..PLACES {
        if u128::from(place) * u128::from(most) < u128::from(amount) * u128::from(PLACES) {
            text.push('#')?;
        }
    }
    Ok(text)
}

/// Appends the cells of a line, in columns as wide as the amounts of `all` levels need.
fn push_amounts(
    alloc: Global,
    text: &mut String,
    subject: &str,
    amounts: Amounts,
    all: Amounts,
) -> Result<(), Fault> {
    let (columns, numbers) = (columns(all), columns(amounts));
    write!(text, "{subject:>5}")?;
    for place in 0..5 {
        let (heading, greatest) = columns[place];
        let width = width(alloc, heading, greatest)?;
        write!(text, "  {:>width$}", numbers[place].1)?;
    }
    let share = percent(amounts.bytes, all.bytes);
    write!(text, "  {share:>3} %")?;
    Ok(())
}

/// A share in whole percent, rounded down; 0 of nothing.
fn percent(amount: u64, all: u64) -> u128 {
    if all == 0 {
        return 0;
    }
    u128::from(amount) * 100 / u128::from(all)
}

/// Appends the lines of the levels' smallest and largest user keys.
fn push_bounds(
    alloc: Global,
    text: &mut String,
    spelling: Spelling,
    levels: &[LevelStats],
) -> Result<(), Fault> {
    for stats in levels {
        let level = stats.level;
        let smallest = spelling.key_text(alloc, stats.smallest.as_key().user())?;
        let largest = spelling.key_text(alloc, stats.largest.as_key().user())?;
        writeln!(text, "level {level}: from {smallest} to {largest}")?;
    }
    Ok(())
}

/// Appends the line of files that are counted.
fn push_total(text: &mut String, name: &str, total: FileTotal) -> Result<(), Fault> {
    let FileTotal { files, bytes } = total;
    writeln!(text, "{name}: {files}, {bytes} bytes")?;
    Ok(())
}
