//! How many rows are wanted still.

ghost use Rattle.std.specs.Prelude.{◌≡◌, true, false, Some};
ghost use Rattle.scan.specs.RowParts.{AreWanted, IsAfterOne};

/// How many rows are wanted still.
#[derive(Clone, Copy)]
pub(crate) enum RowLimit {
    /// More rows: at most this many, which isn't 0. None is no limit.
    More(Option<u64>),
    /// No more rows.
    Enough,
}

impl RowLimit {
    /// What is wanted after one more row, if at most `left` were, which isn't 0.
    pub fn after(left: Option<u64>) -> RowLimit
        requires { AreWanted left }
        ensures { IsAfterOne left result }
    {
        match left {
            None => RowLimit::More(None),
            Some(1) => RowLimit::Enough,
            Some(most) => RowLimit::More(Some(most - 1)),
        }
    }
}

/// Whether no more rows are wanted, if at most `left` are.
pub(crate) fn is_done(left: Option<u64>) -> bool
    ensures done { result ≡ true → left ≡ Some 0 }
    ensures wanted { result ≡ false → AreWanted left }
{
    match left {
        Some(most) => most == 0,
        None => false,
    }
}
