//! The tags of an edit's fields.

ghost use Rattle.std.specs.Prelude.{◌≡◌};

/// The kind of a field of an edit.
#[derive(Clone, Copy, PartialEq, Eq)]
pub(crate) enum Tag {
    /// The comparator's name.
    Comparator,
    LogNumber,
    /// The next file's number.
    NextFile,
    LastSequence,
    /// A compact pointer.
    Pointer,
    /// A deleted file.
    Deleted,
    /// A new file.
    Added,
    /// The previous log number.
    PreviousLog,
}

impl Tag {
    ghost use Rattle.edit.specs.Tag.{tag_number, listed_tag};

    /// The tag of this number; None if no tag has it.
    pub fn listed(number: u32) -> Option<Tag>
        ensures { result ≡ listed_tag number }
    {
        match number {
            1 => Some(Tag::Comparator),
            2 => Some(Tag::LogNumber),
            3 => Some(Tag::NextFile),
            4 => Some(Tag::LastSequence),
            5 => Some(Tag::Pointer),
            6 => Some(Tag::Deleted),
            7 => Some(Tag::Added),
            9 => Some(Tag::PreviousLog),
            _ => None,
        }
    }

    /// The tag's number.
    pub fn number(self) -> u64
        ensures { result ≡ tag_number self }
    {
        match self {
            Tag::Comparator => 1,
            Tag::LogNumber => 2,
            Tag::NextFile => 3,
            Tag::LastSequence => 4,
            Tag::Pointer => 5,
            Tag::Deleted => 6,
            Tag::Added => 7,
            Tag::PreviousLog => 9,
        }
    }
}
