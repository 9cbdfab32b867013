//! The user keys that begin with given bytes, as a range.

ghost use Rattle.std.specs.Prelude.{◌≡◌, IfErr, IfOk};
ghost use Rattle.std.specs.Option.{option_map};
ghost use Rattle.table.specs.Answers.{fault};
ghost use Rattle.table.specs.fault.FaultName.TheVariants.{Memory};
ghost use Rattle.scan.specs.Prefixes.{IsPrefixEnd};

use std::alloc::Global;
use table::Fault;

/// The user key, by unsigned bytes, at which the range of the keys ends that begin with `prefix`:
/// it begins with `prefix` itself. None if the range has no end, since all bytes of `prefix` are
/// 0xff.
pub fn prefix_end(alloc: Global, prefix: &[u8]) -> Result<Option<Vec<u8>>, Fault>
    ensures keys { IfOk result (λ end. IsPrefixEnd prefix.now (option_map (λ k. k.items) end)) }
    ensures memory { IfErr result (λ e. e ≡ fault Memory) }
{
    let mut front = prefix;
    while let Some((last, rest)) = front.split_last() {
        if *last < u8::MAX {
            let mut end = Vec::with_capacity(alloc, front.len())?;
            end.extend_from_slice(rest)?;
            end.push(*last + 1)?;
            return Ok(Some(end));
        }
        front = rest;
    }
    Ok(None)
}
