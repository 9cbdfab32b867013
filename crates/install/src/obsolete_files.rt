//! Which files a version doesn't need. These names are obsolete for a version that was opened, and
//! no others:
//!
//! 1. That of a table, `%06d.ldb` or `%06d.sst`, whose number is below next file and no file's.
//!    Why: the version reads no table but those of its files, and no new file gets a number below
//!    next file.
//! 2. That of a manifest, `MANIFEST-%06d`, whose number is below that of the one that CURRENT
//!    names. Why: what it says is in the newer one.
//! 3. That of a temporary file, `%06d.dbtmp`, whose number is no file's. Why: it is renamed to
//!    CURRENT as soon as it is written, so one that is there was left by a crash or a failure. Why
//!    no file's number: LevelDB keeps such a file. It makes none of that name.
//!
//! LevelDB removes each of these too when it opens the database (`RemoveObsoleteFiles`), so nothing
//! that it would keep is removed. It removes more, which stays here:
//!
//! 1. Logs below the version's log number. Why not here: compactions here leave none. LevelDB
//!    leaves them, and removes them itself.
//! 2. Tables of no file from next file on. Why not here: if CURRENT and the manifest are of an
//!    older copy, these tables may be all that is left of newer data. So a user has to look.
//! 3. Names that it reads as the same ones, as `7.ldb`. Why not here: it writes none.
//!
//! CURRENT, LOCK, LOG, newer manifests and all other files stay, there as here.

ghost use Rattle.std.specs.Prelude.{◌≡◌, ◌↔◌, ◌<◌, ◌^◌, ℕ, map, Ok, IfOk, IfErr, IsTrue};
ghost use Rattle.std.specs.Prelude.{string_bytes};
ghost use Rattle.edit.specs.Answers.{EqualOrMemory, fault};
ghost use Rattle.edit.specs.fault.FaultName.TheVariants.{Memory};
ghost use Rattle.folder.specs.Levels.{file_numbers};
ghost use Rattle.folder.specs.Orders.{order_cmp};
ghost use Rattle.folder.specs.ReadsAs.{IsOneOf};
ghost use Rattle.install.specs.ObsoleteFile.{AreObsolete, IsObsoleteFile, IsOldNumber, IsUnneeded};
ghost use Rattle.install.specs.NumberIn.{IsNumberSet};

use crate::file_kind::{FileKind, KINDS};
use edit::Fault;
use folder::{Bytewise, Opened, Order, Shortlex, file_numbers};
use std::alloc::Global;
use std::collections::BTreeSet;

/// Whether the version that a folder was `opened` as doesn't need the file of this `name`, as the
/// head of this crate says. The name may be any text.
///
/// It goes through the numbers of all files of the version.
pub fn is_obsolete_file(alloc: Global, opened: &Opened, name: &str) -> Result<bool, Fault>
    ensures exact { IfOk result (λ b. IsTrue b ↔ IsObsoleteFile (order_cmp opened.now.order)
        opened.now.version opened.now.manifest name.now) }
    ensures memory { IfErr result (λ e. e ≡ fault Memory) }
{
    let numbers = number_set(alloc, &numbers_of(alloc, opened)?)?;
    test_name(alloc, opened, opened.manifest, &numbers, name)
}

/// Those of these `names` that [`is_obsolete_file`] tells, in their order.
pub fn obsolete_names<'a>(
    alloc: Global,
    opened: &Opened,
    names: &'a [String],
) -> Result<Vec<&'a str>, Fault>
    ensures obsolete { IfOk result (λ obsolete. AreObsolete (order_cmp opened.now.order)
        opened.now.version opened.now.manifest (map string_bytes names.now)
        (map (λ name. name.now) obsolete.items)) }
    ensures memory { IfErr result (λ e. e ≡ fault Memory) }
    // The numbers of the version's files and of its manifest have 64 bits.
    ensures small { IfOk result (λ _. (n : ℕ) →
        IsOneOf (file_numbers (order_cmp opened.now.order) opened.now.version) n → n < 2 ^ 64) }
    ensures small_manifest { opened.now.manifest < 2 ^ 64 }
{
    let manifest = opened.manifest;
    let numbers = numbers_of(alloc, opened)?;
    let numbers = number_set(alloc, &numbers)?;
    let mut obsolete = Vec::new(alloc);
    for name in names {
        if test_name(alloc, opened, manifest, &numbers, name.as_str())? {
            obsolete.push(name.as_str())?;
        }
    }
    Ok(obsolete)
}

/// Whether the version doesn't need the file of this `name`, if its files have these `numbers` and
/// CURRENT names the manifest of the number `manifest`.
fn test_name(
    alloc: Global,
    opened: &Opened,
    manifest: u64,
    numbers: &BTreeSet<u64>,
    name: &str,
) -> Result<bool, Fault>
    requires { IsNumberSet numbers.now
        (file_numbers (order_cmp opened.now.order) opened.now.version) }
    ensures exact { IfOk result (λ b. IsTrue b ↔ IsObsoleteFile (order_cmp opened.now.order)
        opened.now.version manifest name.now) }
    ensures memory { IfErr result (λ e. e ≡ fault Memory) }
{
    for kind in KINDS {
        if let Some(number) = kind.number(alloc, name)? {
            return Ok(is_unneeded(opened, manifest, numbers, *kind, number));
        }
    }
    Ok(false)
}

/// Whether the version needs no file of this `kind` and `number`.
fn is_unneeded(
    opened: &Opened,
    manifest: u64,
    numbers: &BTreeSet<u64>,
    kind: FileKind,
    number: u64,
) -> bool
    requires { IsNumberSet numbers.now
        (file_numbers (order_cmp opened.now.order) opened.now.version) }
    ensures { IsTrue result ↔ IsUnneeded (order_cmp opened.now.order) opened.now.version manifest
        kind number }
{
    match kind {
        FileKind::Table | FileKind::OldTable => is_old(opened, numbers, number),
        FileKind::Manifest => number < manifest,
        FileKind::Temporary => !numbers.contains(&number),
    }
}

/// Whether a `number` is below next file, and no file has it.
fn is_old(opened: &Opened, numbers: &BTreeSet<u64>, number: u64) -> bool
    requires { IsNumberSet numbers.now
        (file_numbers (order_cmp opened.now.order) opened.now.version) }
    ensures { IsTrue result ↔ IsOldNumber (order_cmp opened.now.order) opened.now.version number }
{
    match opened.version.next_file() {
        Some(next) => number < next && !numbers.contains(&number),
        None => false,
    }
}

/// The numbers of the version's files.
fn numbers_of(alloc: Global, opened: &Opened) -> Result<Vec<u64>, Fault>
    ensures { EqualOrMemory (λ v. v.items) result
        (Ok (file_numbers (order_cmp opened.now.order) opened.now.version)) }
{
    match opened.order {
        Order::Bytewise => file_numbers::<Bytewise>(alloc, &opened.version),
        Order::Shortlex => file_numbers::<Shortlex>(alloc, &opened.version),
    }
}

/// These `numbers` as a set.
fn number_set(alloc: Global, numbers: &[u64]) -> Result<BTreeSet<u64>, Fault>
    ensures set { IfOk result (λ set. IsNumberSet set numbers.now) }
    ensures memory { IfErr result (λ e. e ≡ fault Memory) }
    ensures small { (n : ℕ) → IsOneOf numbers.now n → n < 2 ^ 64 }
{
    let mut set = BTreeSet::new(alloc);
    for number in numbers {
        set.insert(*number)?;
    }
    Ok(set)
}
