//! What the bytes of a manifest say.

ghost use Rattle.std.specs.Prelude.{◌≡◌, ℕ, List, IfOk, IfErr, Ok};
ghost use Rattle.ikey.specs.Answers.{EqualOrMemory, FailsOrMemory, HoldsOrMemory};
ghost use Rattle.ikey.specs.Answers.{UnlessMemory};
ghost use Rattle.logrec.specs.LogReader.{records_of};
ghost use Rattle.edit.specs.Edit.{Edit, HasValidLevels, IsEdit, IsEditRefused, edit_in};
ghost use Rattle.edit.specs.Version.{empty_state};
ghost use Rattle.folder.specs.Manifest.{AreEdits, IsManifestAnswer, is_complete, order_name};
ghost use Rattle.folder.specs.Manifest.{version_after_edits};
ghost use Rattle.folder.specs.ManifestReading.{IsLog, IsOrderAnswer, order_with};

use crate::order::Order;
use edit::{Version, VersionEdit};
use ikey::{Bytewise, Comparator, Fault, FaultName, Shortlex};
use logrec::RecordReader;
use std::alloc::Global;

/// The order and the version that the `bytes` of the manifest of this `number` give.
///
/// The first that applies:
///
/// - LogShape or LogChecksum: the bytes are no log.
/// - EditTag or EditField: of the first record that is no edit.
/// - Comparator: no record names one, or the first name is neither order's.
/// - Comparator or Apply: of the first edit that doesn't fit what the earlier ones made.
/// - Apply: log number, next file or last sequence was never set, or `number` isn't below next
///   file.
///
/// Memory may come at any point. The log is read three times, one record after the other: for each
/// kind of refusal, all that come before it have to be known not to come. So no more is held than
/// a record or its edit, and the version. No contract says so.
pub(crate) fn version_in(
    alloc: Global,
    number: u64,
    bytes: &[u8],
) -> Result<(Order, Version), Fault>
    ensures { HoldsOrMemory (λ r. (r.0, r.1)) result (IsManifestAnswer number bytes.now) }
{
    test_log(alloc, bytes)?;
    let order = order_in(alloc, bytes)?;
    let version = version_by(alloc, order, bytes)?;
    if is_complete(number, &version) {
        Ok((order, version))
    } else {
        Err(Fault::of(FaultName::Apply))
    }
}

/// Tests whether `bytes` are a log.
fn test_log(alloc: Global, bytes: &[u8]) -> Result<(), Fault>
    ensures log { IfOk result (λ _. IsLog bytes.now) }
    ensures refused { IfErr result (λ e. FailsOrMemory e (records_of bytes.now)) }
{
    let mut records = RecordReader::new(bytes);
    while let Some(_) = records.next(alloc)? {}
    Ok(())
}

/// The edit that the `encoded` bytes of a record are, which are let go.
fn edit_of(alloc: Global, encoded: Vec<u8>) -> Result<VersionEdit, Fault>
    ensures found { IfOk result (λ e. IsEdit encoded.items (edit_in e)) }
    ensures only { (e : Edit) → IsEdit encoded.items e → EqualOrMemory edit_in result (Ok e) }
    ensures refused { IfErr result (λ e. UnlessMemory e (IsEditRefused encoded.items e)) }
    ensures levels { IfOk result (λ e. HasValidLevels (edit_in e)) }
{
    VersionEdit::decode(alloc, &encoded)
}

/// The order of the first comparator's name in the edits of a log. The refusal of the first record
/// that is no edit, or else Comparator if none has a name, or if it is neither order's.
fn order_in(alloc: Global, bytes: &[u8]) -> Result<Order, Fault>
    ensures { (rs : List (List ℕ)) → records_of bytes.now ≡ Ok rs →
        HoldsOrMemory (λ order. order) result (IsOrderAnswer rs) }
{
    let mut records = RecordReader::new(bytes);
    let mut named = None;
    while let Some(encoded) = records.next(alloc)? {
        let edit = edit_of(alloc, encoded)?;
        named = order_with(named, &edit);
    }
    named.unwrap_or(Err(Fault::of(FaultName::Comparator)))
}

/// The order of the first name: `named` is that of earlier edits, if they have one.
fn order_with(
    named: Option<Result<Order, Fault>>,
    edit: &VersionEdit,
) -> Option<Result<Order, Fault>>
    ensures { result ≡ order_with named (edit_in edit.now) }
{
    match (named, &edit.comparator) {
        (None, Some(name)) => Some(Order::named(name.as_str())),
        (named, _) => named,
    }
}

/// The version after all edits of a log, by the comparator of `order`.
fn version_by(alloc: Global, order: Order, bytes: &[u8]) -> Result<Version, Fault>
    ensures { (rs : List (List ℕ)) (es : List Edit) → records_of bytes.now ≡ Ok rs →
        AreEdits rs es → EqualOrMemory (λ v. v) result
        (version_after_edits (order_name order) empty_state es) }
{
    match order {
        Order::Bytewise => version_after::<Bytewise>(alloc, bytes),
        Order::Shortlex => version_after::<Shortlex>(alloc, bytes),
    }
}

/// The version after all edits of a log, applied one after the other.
fn version_after<C: Comparator>(alloc: Global, bytes: &[u8]) -> Result<Version, Fault>
    ensures { (rs : List (List ℕ)) (es : List Edit) → records_of bytes.now ≡ Ok rs →
        AreEdits rs es → EqualOrMemory (λ v. v) result
        (version_after_edits C.name_bytes empty_state es) }
{
    let mut records = RecordReader::new(bytes);
    let mut version = Version::empty(alloc);
    while let Some(encoded) = records.next(alloc)? {
        let edit = edit_of(alloc, encoded)?;
        version = version.applied::<C>(edit)?;
    }
    Ok(version)
}

/// Whether log number, last sequence and next file were set, and `number` is below next file.
fn is_complete(number: u64, version: &Version) -> bool
    ensures { result ≡ is_complete number version.now }
{
    version.log_number().is_some()
        && version.last_sequence().is_some()
        && version.next_file().is_some_and(|next| number < next)
}
