//! The names of a folder's files, and what CURRENT holds.

ghost use Rattle.std.specs.Prelude.{◌≡◌, ◌<◌, ◌^◌, ℕ, Some, Ok, string_bytes};
ghost use Rattle.ikey.specs.Answers.{EqualOrMemory, HoldsOrMemory};
ghost use Rattle.folder.specs.Names.{IsNumberAnswer, current_text, manifest_name, old_table_name};
ghost use Rattle.folder.specs.Names.{table_name, temporary_name};

use ikey::{Fault, FaultName};
use std::alloc::Global;
use std::str;

/// The file that names the manifest in use.
pub const CURRENT: &str = "CURRENT";

/// What the name of each manifest begins with.
const MANIFEST: &[u8] = b"MANIFEST-";

/// The name of the manifest of this `number`: `MANIFEST-` and its decimal digits, at least six.
pub fn manifest_name(alloc: Global, number: u64) -> Result<String, Fault>
    ensures { EqualOrMemory string_bytes result (Ok (manifest_name number)) }
{
    Ok(format!(in alloc; "MANIFEST-{number:06}")?)
}

/// The name of the table of this `number`: `%06d.ldb`.
pub fn table_name(alloc: Global, number: u64) -> Result<String, Fault>
    ensures { EqualOrMemory string_bytes result (Ok (table_name number)) }
{
    Ok(format!(in alloc; "{number:06}.ldb")?)
}

/// The older name of the table of this `number`: `%06d.sst`.
pub fn old_table_name(alloc: Global, number: u64) -> Result<String, Fault>
    ensures { EqualOrMemory string_bytes result (Ok (old_table_name number)) }
{
    Ok(format!(in alloc; "{number:06}.sst")?)
}

/// The name under which CURRENT's text is written first: `%06d.dbtmp`, with the `number` of the
/// manifest that it names.
pub fn temporary_name(alloc: Global, number: u64) -> Result<String, Fault>
    ensures { EqualOrMemory string_bytes result (Ok (temporary_name number)) }
{
    Ok(format!(in alloc; "{number:06}.dbtmp")?)
}

/// The text of CURRENT that names the manifest of this `number`: its name and a newline.
pub fn current_text(alloc: Global, number: u64) -> Result<String, Fault>
    ensures { EqualOrMemory string_bytes result (Ok (current_text number)) }
{
    Ok(format!(in alloc; "MANIFEST-{number:06}\n")?)
}

/// The number of the manifest that CURRENT names by these `bytes`.
///
/// Apply if they aren't a manifest's name, exactly as it is written, and one newline. The only
/// other fault is Memory.
pub fn number_in_current(alloc: Global, bytes: &[u8]) -> Result<u64, Fault>
    ensures { HoldsOrMemory (λ n. n) result (IsNumberAnswer bytes.now) }
{
    let Some(number) = number_between(bytes) else {
        return Err(Fault::of(FaultName::Apply));
    };
    let text = current_text(alloc, number)?;
    if bytes == text.as_bytes() {
        Ok(number)
    } else {
        Err(Fault::of(FaultName::Apply))
    }
}

/// The number between `MANIFEST-` and a newline. None if there is none.
fn number_between(bytes: &[u8]) -> Option<u64>
    ensures { (n : ℕ) → n < 2 ^ 64 → bytes.now ≡ current_text n → result ≡ Some n }
{
    let digits = bytes.strip_prefix(MANIFEST)?.strip_suffix(b"\n")?;
    str::from_utf8(digits).ok()?.parse().ok()
}
