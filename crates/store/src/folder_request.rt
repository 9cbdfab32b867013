//! What is asked of a compaction by the version and the tables that a folder holds.

ghost use Rattle.std.specs.Prelude.{◌≡◌, ◌<◌, ◌^◌, ℕ, List, map, unwrap_or, IfOk};
ghost use Rattle.folder.specs.Answers.{EqualOrMemory};
ghost use Rattle.install.specs.Install.{table_bytes_of};
ghost use Rattle.pick.specs.PickedInputs.{picked_in};
ghost use Rattle.compact.specs.Request.{request_in};
ghost use Rattle.store.specs.FolderRequest.{first_output, manifest_of, numbered_request};

use compact::{Request, Settings};
use folder::{Fault, FaultName, Version};
use pick::Inputs;

/// The number of the new manifest: the version's next file.
pub fn manifest_of(version: &Version) -> u64
    ensures { result ≡ manifest_of version.now }
{
    version.next_file().unwrap_or(0)
}

/// The number of the first output: that which is `asked` for, if it is above the manifest's; or
/// else the one after the manifest's. None if there is no such number.
fn first_output(version: &Version, asked: Option<u64>) -> Option<u64>
    ensures { result ≡ first_output version.now asked }
{
    let manifest = manifest_of(version);
    match asked {
        Some(number) => {
            if manifest < number {
                Some(number)
            } else {
                None
            }
        }
        None => manifest.checked_add(1),
    }
}

/// The request for the `picked` inputs of `version`, whose tables these are. The outputs have the
/// numbers from `first` on, or else those after the manifest's. `Numbers` if `first` isn't above
/// the manifest's number, or if no number is left after it. It takes no memory.
pub(crate) fn request_of<'a>(
    version: &Version,
    picked: &'a Inputs,
    tables: &'a [&'a [u8]],
    first: Option<u64>,
    settings: &Settings<'a>,
) -> Result<Request<'a>, Fault>
    ensures asked { (loaded : List (ℕ × List ℕ)) →
        map (λ t. t.now) tables.now
        ≡ map (λ i. table_bytes_of loaded i.meta.number) picked.now.files.items →
        EqualOrMemory request_in result
        (numbered_request first version.now loaded (picked_in picked.now) settings.now) }
    ensures lent { IfOk result (λ r. (r.picked.now ≡ picked.now) × (r.tables.now ≡ tables.now)) }
    ensures logs { (unwrap_or version.now.log_number 0 < 2 ^ 64)
        × (unwrap_or version.now.previous_log 0 < 2 ^ 64) }
{
    let log_number = version.log_number().unwrap_or(0);
    let previous_log = version.previous_log().unwrap_or(0);
    let Some(first_number) = first_output(version, first) else {
        return Err(Fault::of(FaultName::Numbers));
    };
    Ok(Request {
        picked,
        tables,
        snapshots: settings.snapshots,
        first_number,
        log_number,
        previous_log,
        last_sequence: version.last_sequence().unwrap_or(0),
        options: settings.options,
    })
}
