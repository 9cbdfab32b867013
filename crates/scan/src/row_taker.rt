//! Who is told the rows of a scan.

/// Who is told rows, in the order of their user keys.
pub trait RowTaker {
    ghost use Rattle.std.specs.Prelude.{Bool};
    ghost use Rattle.scan.specs.Row.{Row};

    /// The change that a call of `row` with this row and this answer makes. By default any change
    /// is allowed.
    ghost tells: { Self → Row → Bool → Self → Type 0 } = { λ _ _ _ _. Unit {0} };

    /// Takes a row: a user key and its value. The answer is whether to go on.
    fn row(&mut self, key: &[u8], value: &[u8]) -> bool
        ensures { tells self.old (record { key = key.now; value = value.now }) result self.new };
}
