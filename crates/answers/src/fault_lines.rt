//! The lines of what is wrong with a version.

ghost use Rattle.std.specs.Prelude.{◌≡◌, Ok};
ghost use Rattle.table.specs.Answers.{EqualOrMemory};
ghost use Rattle.answers.specs.FaultLines.{fault_count_line, file_fault_line, key_fault_line};
ghost use Rattle.answers.specs.FaultLines.{name_text};

use faults::FileFault;
use std::alloc::Global;
use table::{Fault, FaultName};
use texts::Spelling;

/// The line of what is wrong with the file of a number: `NUMBER WHAT`.
///
/// `WHAT` is one of `not below NEXT`, the name of a fault, `length HELD, not STATED`, `smallest`,
/// `largest` and `overlaps OTHER`.
pub fn file_fault_line(alloc: Global, number: u64, wrong: FileFault) -> Result<Vec<u8>, Fault>
    ensures { EqualOrMemory (λ line. line.items) result (Ok (file_fault_line number wrong)) }
{
    match wrong {
        FileFault::NotBelow(next) => {
            Ok(format!(in alloc; "{number} not below {next}\n")?.into_bytes())
        }
        FileFault::Refused(name) => {
            let name = name_text(name);
            Ok(format!(in alloc; "{number} {name}\n")?.into_bytes())
        }
        FileFault::Length { held, stated } => {
            Ok(format!(in alloc; "{number} length {held}, not {stated}\n")?.into_bytes())
        }
        FileFault::Smallest => Ok(format!(in alloc; "{number} smallest\n")?.into_bytes()),
        FileFault::Largest => Ok(format!(in alloc; "{number} largest\n")?.into_bytes()),
        FileFault::Overlaps(other) => {
            Ok(format!(in alloc; "{number} overlaps {other}\n")?.into_bytes())
        }
    }
}

/// The line `key KEY FILE OTHER` of a user key whose entries are not in their order, with the
/// numbers of two files that hold it.
pub fn key_fault_line(
    alloc: Global,
    spelling: Spelling,
    user: &[u8],
    file: u64,
    other: u64,
) -> Result<Vec<u8>, Fault>
    ensures { EqualOrMemory (λ line. line.items) result
        (Ok (key_fault_line spelling user.now file other)) }
{
    let user = spelling.key_text(alloc, user)?;
    Ok(format!(in alloc; "key {user} {file} {other}\n")?.into_bytes())
}

/// The line `faults: N` of how many faults a version has.
pub fn fault_count_line(alloc: Global, count: u64) -> Result<Vec<u8>, Fault>
    ensures { EqualOrMemory (λ line. line.items) result (Ok (fault_count_line count)) }
{
    Ok(format!(in alloc; "faults: {count}\n")?.into_bytes())
}

/// The name of a fault as text, as it prints.
fn name_text(name: FaultName) -> &'static str
    ensures { result.now ≡ name_text name }
{
    match name {
        FaultName::NoInput => "NoInput",
        FaultName::Level => "Level",
        FaultName::Options => "Options",
        FaultName::SplitOrder => "SplitOrder",
        FaultName::SplitCount => "SplitCount",
        FaultName::Workers => "Workers",
        FaultName::Snapshot => "Snapshot",
        FaultName::Size => "Size",
        FaultName::Short => "Short",
        FaultName::Magic => "Magic",
        FaultName::Handle => "Handle",
        FaultName::Range => "Range",
        FaultName::Trailer => "Trailer",
        FaultName::Compressed => "Compressed",
        FaultName::BlockType => "BlockType",
        FaultName::Block => "Block",
        FaultName::Key => "Key",
        FaultName::Index => "Index",
        FaultName::Order => "Order",
        FaultName::Empty => "Empty",
        FaultName::Bounds => "Bounds",
        FaultName::Duplicate => "Duplicate",
        FaultName::Numbers => "Numbers",
        FaultName::TooLarge => "TooLarge",
        FaultName::SnapshotList => "SnapshotList",
        FaultName::LogChecksum => "LogChecksum",
        FaultName::LogShape => "LogShape",
        FaultName::EditTag => "EditTag",
        FaultName::EditField => "EditField",
        FaultName::Comparator => "Comparator",
        FaultName::Apply => "Apply",
        FaultName::Lawless => "Lawless",
        FaultName::Device => "Device",
        FaultName::Missing => "Missing",
        FaultName::Locked => "Locked",
        FaultName::Changed => "Changed",
        FaultName::Logs => "Logs",
        FaultName::Memory => "Memory",
    }
}
