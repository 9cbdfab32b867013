//! How much files and their tables have.

ghost use Rattle.std.specs.Prelude.{◌≡◌, if◌then◌else◌, fold, map};
ghost use Rattle.std.specs.List.{sum_by};
ghost use Rattle.table.specs.Saturated.{saturated};
ghost use Rattle.scan.specs.Counts.{capped_files, capped_plus, entry_amounts};
ghost use Rattle.scan.specs.HiddenEntries.{is_delete};
ghost use Rattle.scan.specs.Stats.{no_amounts};

use folder::FileMeta;
use reads::Kind;

/// How much files have together, and the entries of their tables.
#[derive(Clone, Copy, PartialEq, Eq)]
pub struct Amounts {
    /// How many files there are.
    pub files: u64,
    /// How many bytes they have, or 2^64 - 1 if they have more.
    pub bytes: u64,
    /// How many entries their tables have.
    pub entries: u128,
    /// How many of the entries are deletions.
    pub deletions: u128,
    /// How many of the entries a newer entry of the version hides, at its last sequence.
    pub hidden: u128,
}

impl Amounts {
    /// No file and no entry.
    pub(crate) fn none() -> Amounts
        ensures { result ≡ no_amounts }
    {
        Amounts {
            files: 0,
            bytes: 0,
            entries: 0,
            deletions: 0,
            hidden: 0,
        }
    }

    /// How much these files have, without an entry. The bytes saturate at 2^64 - 1.
    pub(crate) fn of_files(files: &[&FileMeta]) -> Amounts
        ensures { result ≡ capped_files (map (λ f. f.now) files.now) }
    {
        Amounts {
            files: files.len() as u64,
            bytes: bytes_of(files),
            entries: 0,
            deletions: 0,
            hidden: 0,
        }
    }

    /// One entry of this type.
    pub(crate) fn of_entry(kind: Kind, is_hidden: bool) -> Amounts
        ensures { result ≡ entry_amounts kind is_hidden }
    {
        Amounts {
            files: 0,
            bytes: 0,
            entries: 1,
            deletions: one_if(is_delete(kind)),
            hidden: one_if(is_hidden),
        }
    }

    /// Both together. Sums saturate: of files and bytes at 2^64 - 1, of entries at 2^128 - 1.
    pub(crate) fn plus(self, other: Amounts) -> Amounts
        ensures { result ≡ capped_plus self other }
    {
        Amounts {
            files: self.files.saturating_add(other.files),
            bytes: self.bytes.saturating_add(other.bytes),
            entries: self.entries.saturating_add(other.entries),
            deletions: self.deletions.saturating_add(other.deletions),
            hidden: self.hidden.saturating_add(other.hidden),
        }
    }

    /// All of them together. Sums saturate as in `plus`.
    pub(crate) fn sum(all: &[Amounts]) -> Amounts
        ensures { result ≡ fold capped_plus no_amounts all.now }
    {
        let mut sum = Amounts::none();
        for amounts in all {
            sum = sum.plus(*amounts);
        }
        sum
    }
}

/// How many bytes these files have, or 2^64 - 1 if they have more.
fn bytes_of(files: &[&FileMeta]) -> u64
    ensures { result ≡ saturated (sum_by (λ f. f.size) (map (λ f. f.now) files.now)) }
{
    let mut bytes: u64 = 0;
    for file in files {
        bytes = bytes.saturating_add(file.size);
    }
    bytes
}

/// Whether a type is that of deletions.
fn is_delete(kind: Kind) -> bool
    ensures { result ≡ is_delete kind }
{
    match kind {
        Kind::Delete => true,
        Kind::Put => false,
    }
}

/// 1 if it counts, else 0.
fn one_if(counts: bool) -> u128
    ensures { result ≡ (if counts then 1 else 0) }
{
    if counts { 1 } else { 0 }
}
