//! Why CURRENT or a manifest is refused, by the name of the fault.

ghost use Rattle.folder.specs.Reports.{OnlyReads};

use crate::edit_fields::{Limit, limit_passed};
use crate::words::Text;
use coding::{Fault, FaultName};
use edit::{NewFile, VersionEdit};
use folder::{CURRENT, Folder, Order, number_in_current};
use logrec::RecordReader;
use session::{RefusalText, of_file, path_in, told};
use std::alloc::Global;
use std::collections::BTreeSet;

/// What is told of the `file` of a folder at a path, which is CURRENT or a manifest and is refused
/// by this name. A manifest is read again. None of any other file. It only reads.
pub(crate) fn manifest_refusal<F: Folder>(
    alloc: Global,
    folder: &mut F,
    path: &str,
    file: &str,
    name: FaultName,
) -> Result<Option<RefusalText>, Fault>
    ensures reads { OnlyReads F.Folder folder.old folder.new }
{
    if file != CURRENT && !file.starts_with("MANIFEST-") {
        return Ok(None);
    }
    let path = path_in(alloc, path, file)?;
    let path = path.as_str();
    let has_detail = matches!(
        name,
        FaultName::EditField | FaultName::Comparator | FaultName::Apply
    );
    if file == CURRENT || !has_detail {
        return Ok(told(alloc, path, of_file(name)));
    }
    let Some(bytes) = folder.read(file)? else {
        return Ok(None);
    };
    let edits = edits_seen(alloc, &bytes)?;
    let detail = match name {
        FaultName::EditField => field_text(alloc, &edits),
        FaultName::Comparator => comparator_text(alloc, &edits),
        _ => misfit_text(alloc, &edits, number_of(alloc, file)),
    };
    if let Some((wrong, remedy)) = detail {
        return Ok(RefusalText::new(alloc, path, wrong, remedy));
    }
    Ok(told(alloc, path, of_file(name)))
}

/// The number of the manifest of this name. 0 if that is none.
fn number_of(alloc: Global, file: &str) -> u64 {
    match format!(in alloc; "{file}\n") {
        Ok(text) => number_in_current(alloc, text.as_bytes()).unwrap_or(0),
        Err(_) => 0,
    }
}

/// What the edits of a manifest tell, up to the first that can't be read.
#[derive(Default, Drop)]
struct EditsSeen {
    /// The first comparator that is named.
    comparator: Option<String>,
    /// The first one that is another.
    other: Option<String>,
    log_number: Option<u64>,
    next_file: Option<u64>,
    last_sequence: Option<u64>,
    /// Whether an edit adds two files of one number.
    adds_twice: bool,
    /// The limit that the edit passes which can't be read, if it does.
    limit: Option<Limit>,
}

/// What the edits of a manifest tell. It takes the memory of one record at a time.
fn edits_seen(alloc: Global, bytes: &[u8]) -> Result<EditsSeen, Fault> {
    let mut seen = EditsSeen::default();
    let mut records = RecordReader::new(bytes);
    while let Some(record) = records.next(alloc)? {
        match VersionEdit::decode(alloc, &record) {
            Ok(edit) => seen.take(alloc, edit)?,
            Err(_) => {
                seen.limit = limit_passed(&record);
                return Ok(seen);
            }
        }
    }
    Ok(seen)
}

impl EditsSeen {
    /// Takes in one more edit.
    fn take(&mut self, alloc: Global, edit: VersionEdit) -> Result<(), Fault> {
        self.log_number = edit.log_number.or(self.log_number);
        self.next_file = edit.next_file.or(self.next_file);
        self.last_sequence = edit.last_sequence.or(self.last_sequence);
        if adds_twice(alloc, &edit.added)? {
            self.adds_twice = true;
        }
        let named = edit.comparator;
        if let Some(name) = named {
            self.name(name);
        }
        Ok(())
    }

    /// Takes in the name of a comparator.
    fn name(&mut self, name: String) {
        if self.comparator.is_none() {
            self.comparator = Some(name);
        } else if self.other.is_none() && !self.is_named(name.as_str()) {
            self.other = Some(name);
        }
    }

    /// The first counter that no edit sets.
    fn unset(&self) -> Option<&'static str> {
        if self.log_number.is_none() {
            Some("log number")
        } else if self.last_sequence.is_none() {
            Some("last sequence")
        } else if self.next_file.is_none() {
            Some("next file number")
        } else {
            None
        }
    }

    /// Whether the first comparator has this name.
    fn is_named(&self, name: &str) -> bool {
        match &self.comparator {
            Some(first) => first.as_str() == name,
            None => false,
        }
    }
}

/// Whether two of these files have one number.
fn adds_twice(alloc: Global, files: &[NewFile]) -> Result<bool, Fault> {
    let mut numbers = BTreeSet::new(alloc);
    for file in files {
        if !numbers.insert(file.meta.number)? {
            return Ok(true);
        }
    }
    Ok(false)
}

/// Why a field is refused, if that is a limit.
fn field_text(alloc: Global, edits: &EditsSeen) -> Option<Text> {
    match edits.limit? {
        Limit::Level(level) => {
            let wrong = format!(in alloc; "it names level {level}, and LevelDB's levels end at 6");
            let remedy = "use the program that wrote it, or restore the folder from a copy";
            Some((wrong, remedy))
        }
        Limit::Key => {
            let wrong = "a key in it has more than 65535 bytes, the most that is compacted here";
            let remedy = "leave its compaction to LevelDB, which has no such limit";
            Some((String::from_str(alloc, wrong), remedy))
        }
    }
}

/// What is wrong with the comparators that edits name. None if nothing is.
fn comparator_text(alloc: Global, edits: &EditsSeen) -> Option<Text> {
    let Some(first) = &edits.comparator else {
        let wrong = String::from_str(alloc, "no record names a comparator");
        let remedy = "open the database once with LevelDB, which writes the manifest anew";
        return Some((wrong, remedy));
    };
    if Order::named(first.as_str()).is_err() {
        let wrong = format!(in alloc;
            "it names the comparator {first:?}, and only leveldb.BytewiseComparator and \
                subcompaction.ShortlexComparator are known"
        );
        return Some((wrong, "compact it with the program that wrote it"));
    }
    let other = edits.other.as_ref()?;
    let wrong = format!(in alloc;
        "it names a second comparator, {other:?}: the database is damaged"
    );
    Some((wrong, "restore the folder from a copy"))
}

/// Why the edits of the manifest of this `number` don't fit together.
fn misfit_text(alloc: Global, edits: &EditsSeen, number: u64) -> Option<Text> {
    if let Some(counter) = edits.unset() {
        let wrong = format!(in alloc; "no record sets the {counter}: the database is damaged");
        let remedy = "restore the folder from a copy, or have LevelDB repair it";
        return Some((wrong, remedy));
    }
    let next = edits.next_file.unwrap_or(0);
    if number >= next {
        let wrong = format!(in alloc; "its number is not below the next file number, {next}");
        return Some((wrong, "open the database once with LevelDB, which mends it"));
    }
    let (wrong, remedy) = if edits.adds_twice {
        (
            "one version edit adds a file twice, as goleveldb does when it opens a database over a \
                log with data",
            "open and close it with goleveldb until its log is empty, which takes two times",
        )
    } else {
        (
            "its edits do not fit together",
            "restore the folder from a copy, or open it once with LevelDB, which writes the \
                manifest anew",
        )
    };
    Some((String::from_str(alloc, wrong), remedy))
}
