//! Who is told of files that were removed.

/// Who is told of the obsolete files of a folder, of each when it is removed.
pub trait RemovalWatch {
    ghost use Rattle.std.specs.Prelude.{ℕ, List};

    /// The change that a call of `removed` with this name makes. By default any change is allowed.
    ghost tells: { Self → List ℕ → Self → Type 0 } = { λ _ _ _. Unit {0} };

    /// Tells the name of a file that was removed.
    fn removed(&mut self, name: &str)
        ensures { tells self.old name.now self.new };
}
