//! Version order: by smallest internal key, then number.

ghost use Rattle.std.specs.Prelude.{◌≡◌, map, true, Ok};
ghost use Rattle.coding.specs.Answers.{EqualOrMemory};
ghost use Rattle.edit.specs.Version.{are_apart};
ghost use Rattle.edit.specs.VersionOrder.{file_cmp, in_version_order, files_at};

use crate::files::Files;
use crate::meta::FileMeta;
use coding::Fault;
use ikey::Comparator;
use std::alloc::Global;
use std::cmp::Ordering;

/// The files at `level` in version order.
pub(crate) fn ordered_at<C: Comparator>(
    alloc: Global,
    files: &Files,
    level: u64,
) -> Result<Vec<&FileMeta>, Fault>
    ensures ordered { EqualOrMemory (λ v. map (λ f. f.now) v.items) result
        (Ok (in_version_order C.cmp (files_at files.now level))) }
    ensures apart { are_apart files.now ≡ true }
{
    let mut found = files.at_level(alloc, level)?;
    found.sort_unstable_by(|a, b| version_order::<C>(a, b));
    Ok(found)
}

/// Version order of two files.
fn version_order<C: Comparator>(a: &FileMeta, b: &FileMeta) -> Ordering
    ensures { result ≡ file_cmp C.cmp a.now b.now }
{
    let keys = a.smallest.as_key().compare::<C>(&b.smallest.as_key());
    keys.then(a.number.cmp(&b.number))
}
