//! The line of an entry of a user key.

ghost use Rattle.std.specs.Prelude.{Ok, option_map, string_bytes};
ghost use Rattle.table.specs.Answers.{EqualOrMemory};
ghost use Rattle.answers.specs.Dump.{entry_line};

use std::alloc::Global;
use table::Fault;
use texts::Spelling;

/// Where an entry is: the level and the number of its file, and its sequence.
#[derive(Clone, Copy)]
pub struct EntryPlace {
    pub level: u64,
    pub file: u64,
    pub sequence: u64,
}

/// The line `LEVEL FILE SEQUENCE put VALUE` of an entry; `LEVEL FILE SEQUENCE del` of a deletion,
/// which has no value.
pub fn entry_line(
    alloc: Global,
    spelling: Spelling,
    place: EntryPlace,
    value: Option<&[u8]>,
) -> Result<String, Fault>
    ensures { EqualOrMemory string_bytes result
        (Ok (entry_line spelling place (option_map (λ bytes. bytes.now) value.entry))) }
{
    let EntryPlace {
        level,
        file,
        sequence,
    } = place;
    match value {
        Some(bytes) => {
            let value = spelling.value_text(alloc, bytes)?;
            Ok(format!(in alloc; "{level} {file} {sequence} put {value}\n")?)
        }
        None => Ok(format!(in alloc; "{level} {file} {sequence} del\n")?),
    }
}
