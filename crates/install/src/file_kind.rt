//! Kinds of files that may be obsolete, and their names.

ghost use Rattle.std.specs.Prelude.{◌≡◌, ◌<◌, ◌^◌, ℕ, Some, Ok, IfOk, IfErr, string_bytes};
ghost use Rattle.std.specs.Option.{option_map};
ghost use Rattle.edit.specs.Answers.{EqualOrMemory, fault};
ghost use Rattle.edit.specs.fault.FaultName.TheVariants.{Memory};
ghost use Rattle.folder.specs.Names.{six_digits};
ghost use Rattle.install.specs.ObsoleteFile.{name_of};
ghost use Rattle.install.specs.NumberIn.{IsNumberIn};

use edit::Fault;
use folder::{manifest_name, old_table_name, table_name, temporary_name};
use std::alloc::Global;
use std::str;

/// A kind of file that may be obsolete, by its name.
#[derive(Clone, Copy, PartialEq, Eq, Drop)]
pub enum FileKind {
    /// A table: `%06d.ldb`.
    Table,
    /// A table under its older name: `%06d.sst`.
    OldTable,
    /// A manifest: `MANIFEST-%06d`.
    Manifest,
    /// A text of CURRENT that was not renamed: `%06d.dbtmp`.
    Temporary,
}

/// All kinds.
pub(crate) const KINDS: &[FileKind] = &[
    FileKind::Table,
    FileKind::OldTable,
    FileKind::Manifest,
    FileKind::Temporary,
];

impl FileKind {
    /// The number of the file of this kind that has this `name`, exactly as it is written. None if
    /// it is no name of this kind.
    pub(crate) fn number(self, alloc: Global, name: &str) -> Result<Option<u64>, Fault>
        ensures number { IfOk result (λ number. IsNumberIn self name.now number) }
        ensures memory { IfErr result (λ e. e ≡ fault Memory) }
    {
        let Some(number) = self.number_between(name.as_bytes()) else {
            return Ok(None);
        };
        let written = self.name(alloc, number)?;
        if name == written.as_str() {
            Ok(Some(number))
        } else {
            Ok(None)
        }
    }

    /// The name of the file of this `number`.
    fn name(self, alloc: Global, number: u64) -> Result<String, Fault>
        ensures { EqualOrMemory string_bytes result (Ok (name_of self number)) }
    {
        match self {
            FileKind::Table => table_name(alloc, number),
            FileKind::OldTable => old_table_name(alloc, number),
            FileKind::Manifest => manifest_name(alloc, number),
            FileKind::Temporary => temporary_name(alloc, number),
        }
    }

    /// The number that is in a `name` of this kind. None if there is none.
    fn number_between(self, name: &[u8]) -> Option<u64>
        ensures { (n : ℕ) → n < 2 ^ 64 → name.now ≡ name_of self n → result ≡ Some n }
    {
        let digits = self.digits(name)?;
        str::from_utf8(digits).ok()?.parse().ok()
    }

    /// What stands in a `name` of this kind for the number.
    fn digits(self, name: &[u8]) -> Option<&[u8]>
        ensures { (n : ℕ) → name.now ≡ name_of self n →
            option_map (λ digits. digits.now) result ≡ Some (six_digits n) }
    {
        match self {
            FileKind::Table => name.strip_suffix(b".ldb"),
            FileKind::OldTable => name.strip_suffix(b".sst"),
            FileKind::Manifest => name.strip_prefix(b"MANIFEST-"),
            FileKind::Temporary => name.strip_suffix(b".dbtmp"),
        }
    }
}
