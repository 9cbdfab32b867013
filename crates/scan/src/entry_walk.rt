//! What one entry does to a scan.

ghost use Rattle.std.specs.Prelude.{◌≡◌, [], ◌∷◌, Ok, OnOk, IfErr};
ghost use Rattle.table.specs.Answers.{fault};
ghost use Rattle.table.specs.fault.FaultName.TheVariants.{Memory};
ghost use Rattle.scan.specs.EntryRows.{decided_after, entry_rows, is_passed_over};
ghost use Rattle.scan.specs.RowParts.{AreTelling, AreWanted};

use crate::decided_user::DecidedUser;
use crate::row_limit::RowLimit;
use crate::row_taker::RowTaker;
use reads::Kind;
use table::{Fault, InternalKey};

/// Walks the next entry of sorted ones. Of each user key the first entry that the sequence `at`
/// sees decides, and is told if it is a value. At most `left` rows may be told.
///
/// It copies no value.
pub(crate) fn walk_entry<T: RowTaker>(
    decided: &mut DecidedUser,
    key: InternalKey<'_>,
    value: &[u8],
    at: u64,
    left: Option<u64>,
    taker: &mut T,
) -> Result<RowLimit, Fault>
    requires { AreWanted left }
    ensures told { AreTelling T.tells
        (entry_rows at decided.old (record { key = key.entry.bytes.now; value = value.now }))
        taker.old left taker.new result }
    ensures decided { OnOk result (decided.new
        ≡ decided_after at decided.old (record { key = key.entry.bytes.now; value = value.now })) }
    ensures memory { IfErr result (λ e. e ≡ fault Memory) }
{
    let is_over = is_passed_over(decided, &key, at);
    if is_over {
        return Ok(RowLimit::More(left));
    }
    let user = key.user();
    decided.set(user)?;
    match key.kind() {
        Kind::Put => Ok(tell(taker, user, value, left)),
        Kind::Delete => Ok(RowLimit::More(left)),
    }
}

/// Whether the entry of `key` tells nothing: `at` doesn't see it, or a newer entry decided.
fn is_passed_over(decided: &DecidedUser, key: &InternalKey<'_>, at: u64) -> bool
    ensures { result
        ≡ is_passed_over at decided.now (record { key = key.now.bytes.now; value = [] }) }
{
    let is_seen = key.sequence() <= at;
    !is_seen || decided.is(key.user())
}

/// Tells a row, if at most `left` may be told.
fn tell<T: RowTaker>(taker: &mut T, key: &[u8], value: &[u8], left: Option<u64>) -> RowLimit
    requires { AreWanted left }
    ensures { AreTelling T.tells (record { key = key.now; value = value.now } ∷ [])
        taker.old left taker.new (Ok result) }
{
    let goes_on = taker.row(key, value);
    if goes_on {
        RowLimit::after(left)
    } else {
        RowLimit::Enough
    }
}
