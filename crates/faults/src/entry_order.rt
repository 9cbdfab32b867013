//! Whether the entries of a user key are in their order.

ghost use Rattle.std.specs.Prelude.{◌≡◌, ◌∷◌, ℕ, List};
ghost use Rattle.table.specs.Key.{sequence_of};
ghost use Rattle.faults.specs.KeyFaults.{SearchedEntry};
ghost use Rattle.faults.specs.KeyWalk.{break_of};

/// What is known of a user key's entries, after some were read in the order of search.
#[derive(Clone, Copy)]
pub(crate) enum EntryOrder {
    /// None was read yet.
    Begun,
    /// Each is older than the one before it.
    Falling {
        /// The file of the last one.
        file: u64,
        sequence: u64,
    },
    /// One isn't older than the one before it.
    Broken {
        /// The file of the first one that such an entry follows.
        file: u64,
        /// The file of that entry.
        other: u64,
    },
}

impl EntryOrder {
    /// What is known after one more entry: that of a file, with this sequence.
    pub fn with(self, file: u64, sequence: u64) -> EntryOrder
        ensures { (key : List ℕ) (rest : List SearchedEntry) → sequence_of key ≡ sequence →
            break_of result rest
            ≡ break_of self (record { file = file; key = key } ∷ rest) }
    {
        match self {
            EntryOrder::Broken { .. } => self,
            EntryOrder::Falling {
                file: before,
                sequence: least,
            } if least <= sequence => EntryOrder::Broken {
                file: before,
                other: file,
            },
            _ => EntryOrder::Falling { file, sequence },
        }
    }
}
