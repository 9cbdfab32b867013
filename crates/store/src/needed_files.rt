//! The names of the files that a compaction of a level reads.

ghost use Rattle.std.specs.Prelude.{◌≡◌, ◌++◌, codes, is_some, IfErr, IfOk, OnOk, Ok};
ghost use Rattle.std.specs.Prelude.{string_bytes};
ghost use Rattle.folder.specs.Answers.{EqualOrMemory, fault};
ghost use Rattle.folder.specs.fault.FaultName.TheVariants.{Memory};
ghost use Rattle.folder.specs.Calls.{Files, Tells};
ghost use Rattle.folder.specs.Folder.{TellsSame, failures_after};
ghost use Rattle.folder.specs.Names.{current_text};
ghost use Rattle.folder.specs.OpenAnswer.{FolderAnswers};
ghost use Rattle.folder.specs.Orders.{order_cmp};
ghost use Rattle.folder.specs.Reports.{OnlyReads, ReportsDevice};
ghost use Rattle.store.specs.FilesToCompact.{AreFilesToCompact, name_line, name_there};
ghost use Rattle.store.specs.InputsCompaction.{input_numbers};
ghost use Rattle.store.specs.NameLines.{line_after, lines_after};

use crate::choice::{Choice, chosen};
use folder::{
    Bytewise, Comparator, Fault, FaultName, Folder, FolderFault, Opened, Order, Shortlex,
    current_text, old_table_name, table_name,
};
use pick::InputFile;
use std::alloc::Global;

/// The names of the files that [`outcome`](crate::outcome) without a test needs of a folder to
/// compact a `level` of what it was `opened` as, a line each. These are CURRENT, the manifest, and
/// of each input in order the name under which its table is there, `%06d.ldb`, or else `%06d.sst`.
/// It only reads, and no byte of a table.
///
/// The first that applies:
///
/// - Lawless: a file's number isn't below next file, or the files of a level from 1 on don't rise;
/// - Level: the level is above 5; NoInput: it has no file;
/// - Missing: an input's table is missing.
pub fn files_to_compact<F: Folder>(
    alloc: Global,
    folder: &mut F,
    opened: &Opened,
    level: u64,
) -> Result<Vec<u8>, Fault>
    ensures answer { (files : Files) → Tells (F.tells folder.old) files →
        FolderAnswers (λ v. v.items) (F.failed folder.old) (F.failed folder.new) result
        (AreFilesToCompact (order_cmp opened.now.order) files opened.now.version
        opened.now.manifest level) }
    ensures device { ReportsDevice F.Folder folder.old folder.new result }
    ensures reads { OnlyReads F.Folder folder.old folder.new }
{
    match opened.order {
        Order::Bytewise => level_files::<Bytewise, F>(alloc, folder, opened, level),
        Order::Shortlex => level_files::<Shortlex, F>(alloc, folder, opened, level),
    }
}

/// The lines of the files that a compaction of a `level` needs.
fn level_files<C: Comparator, F: Folder>(
    alloc: Global,
    folder: &mut F,
    opened: &Opened,
    level: u64,
) -> Result<Vec<u8>, Fault>
    ensures answer { (files : Files) → Tells (F.tells folder.old) files →
        FolderAnswers (λ v. v.items) (F.failed folder.old) (F.failed folder.new) result
        (AreFilesToCompact C.cmp files opened.now.version opened.now.manifest level) }
    ensures device { ReportsDevice F.Folder folder.old folder.new result }
    ensures reads { OnlyReads F.Folder folder.old folder.new }
{
    let picked = chosen::<C>(alloc, &opened.version, Choice::Picked(level))?;
    let mut text = opened_lines(alloc, opened.manifest)?;
    push_names(alloc, folder, &picked.files, &mut text)?;
    Ok(text.into_bytes())
}

/// The lines of CURRENT and of the manifest of this `number`.
fn opened_lines(alloc: Global, number: u64) -> Result<String, Fault>
    ensures { EqualOrMemory string_bytes result (Ok (codes "CURRENT\n" ++ current_text number)) }
{
    let manifest = current_text(alloc, number)?;
    let mut text = String::from_str(alloc, "CURRENT\n")?;
    text.push_str(manifest.as_str())?;
    Ok(text)
}

/// Appends the lines of the tables of `inputs`. Missing at the first that is missing.
fn push_names<F: Folder>(
    alloc: Global,
    folder: &mut F,
    inputs: &[InputFile],
    text: &mut String,
) -> Result<(), Fault>
    ensures answer { (files : Files) → Tells (F.tells folder.old) files →
        FolderAnswers (λ _. string_bytes text.new) (F.failed folder.old) (F.failed folder.new)
        result (λ answer. answer
        ≡ lines_after files (string_bytes text.old) (input_numbers inputs.now)) }
    ensures device { ReportsDevice F.Folder folder.old folder.new result }
    ensures reads { OnlyReads F.Folder folder.old folder.new }
{
    for input in inputs {
        push_name(alloc, folder, input.meta.number, text)?;
    }
    Ok(())
}

/// Appends the line of the table of a `number`. Missing if it is missing.
fn push_name<F: Folder>(
    alloc: Global,
    folder: &mut F,
    number: u64,
    text: &mut String,
) -> Result<(), Fault>
    ensures answer { (files : Files) → Tells (F.tells folder.old) files →
        FolderAnswers (λ _. string_bytes text.new) (F.failed folder.old) (F.failed folder.new)
        result (λ answer. answer ≡ line_after files (string_bytes text.old) number) }
    ensures device { ReportsDevice F.Folder folder.old folder.new result }
    ensures reads { OnlyReads F.Folder folder.old folder.new }
{
    let name = name_there(alloc, folder, number)?;
    push_line(text, name.as_str())
}

/// Appends a line.
fn push_line(text: &mut String, name: &str) -> Result<(), Fault>
    ensures ok { OnOk result
        (string_bytes text.new ≡ string_bytes text.old ++ name_line name.now) }
    ensures memory { IfErr result (λ e. e ≡ fault Memory) }
{
    writeln!(text, "{name}")?;
    Ok(())
}

/// The name under which the table of a `number` is there. Missing if it is missing.
fn name_there<F: Folder>(alloc: Global, folder: &mut F, number: u64) -> Result<String, Fault>
    ensures answer { (files : Files) → Tells (F.tells folder.old) files →
        FolderAnswers string_bytes (F.failed folder.old) (F.failed folder.new) result
        (λ answer. answer ≡ name_there files number) }
    ensures device { ReportsDevice F.Folder folder.old folder.new result }
    ensures reads { OnlyReads F.Folder folder.old folder.new }
{
    let name = table_name(alloc, number)?;
    let old_name = old_table_name(alloc, number)?;
    if is_there(folder, name.as_str())? {
        return Ok(name);
    }
    if is_there(folder, old_name.as_str())? {
        return Ok(old_name);
    }
    Err(Fault::of(FaultName::Missing))
}

/// Whether a file has this `name`. No byte of it is read.
fn is_there<F: Folder>(folder: &mut F, name: &str) -> Result<bool, FolderFault>
    ensures there { (files : Files) → Tells (F.tells folder.old) files →
        IfOk result (λ b. b ≡ is_some (files name.now)) }
    ensures same { TellsSame (F.tells folder.old) (F.tells folder.new) }
    ensures calls { F.calls folder.new ≡ F.calls folder.old }
    ensures failures { F.failed folder.new ≡ failures_after (F.failed folder.old) result }
{
    let part = folder.read_part(name, 0, 0)?;
    Ok(part.is_some())
}
