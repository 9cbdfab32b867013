//! What was found of an entry.

ghost use Rattle.std.specs.Prelude.{◌≡◌};
ghost use Rattle.std.specs.Option.{option_map};
ghost use Rattle.reads.specs.Gets.{value_by};

use ikey::Kind;

/// The sequence, the kind and the value of an entry. Its user key is known.
#[derive(Clone, Copy)]
pub(crate) struct Found<'a> {
    /// Below 2^56.
    pub sequence: u64,
    /// Whether it is a value or a deletion.
    pub kind: Kind,
    /// A part of the table's bytes.
    pub value: &'a [u8],
}

impl<'a> Found<'a> {
    /// The value; None if the entry is a deletion.
    pub fn value(self) -> Option<&'a [u8]>
        ensures { option_map (λ value. value.now) result
            ≡ value_by self.entry.kind self.entry.value.now }
    {
        match self.kind {
            Kind::Put => Some(self.value),
            Kind::Delete => None,
        }
    }
}
