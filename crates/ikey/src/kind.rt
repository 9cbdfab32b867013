//! What an entry does to its user key.

ghost use Rattle.std.specs.Prelude.{◌≡◌};

/// The type of an internal key.
#[derive(Clone, Copy, PartialEq, Eq)]
pub enum Kind {
    /// The user key is deleted: type 0.
    Delete,
    /// The user key gets a value: type 1.
    Put,
}

impl Kind {
    ghost use Rattle.ikey.specs.Key.{kind_number};

    /// The number of the type, 0 or 1.
    pub fn number(self) -> u8
        ensures { result ≡ kind_number self }
    {
        match self {
            Kind::Delete => 0,
            Kind::Put => 1,
        }
    }
}
