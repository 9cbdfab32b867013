//! The one fault of all crates.

ghost use Rattle.std.specs.Prelude.{◌≡◌, ℕ, None, Some};
ghost use Rattle.coding.specs.Answers.{code_of, fault};
ghost use Rattle.coding.specs.declared.fault.FaultName.TheVariants.{Memory};

use std::alloc::{AllocError, AllocFailed};
use std::error::Error;
use std::fmt::{self, Debug, Display, Formatter, Write};

/// What is wrong, by name. It prints as its name alone.
#[derive(Clone, Copy, Debug, PartialEq, Eq)]
pub enum FaultName {
    /// There is no input to compact.
    NoInput,
    /// A level above 5 was asked for, or an input is neither of that level nor of the next.
    Level,
    /// An option is outside its limits, there are more than 256 inputs, tables and inputs aren't
    /// equally many, or the grandparents' largest keys don't rise strictly.
    Options,
    /// The boundaries of a split don't rise strictly.
    SplitOrder,
    /// There are more than 4,095 boundaries, or a wanted number of ranges is outside 1 to 4,096.
    SplitCount,
    /// The number of workers is outside 1 to 64.
    Workers,
    /// The oldest snapshot, a listed one, or the last sequence is 2^56 - 1 or more.
    Snapshot,
    /// A table has more than 2^30 bytes.
    Size,
    /// A table has fewer than the 48 bytes of its footer.
    Short,
    /// A table doesn't end with the magic number.
    Magic,
    /// The bytes of a block handle can't be read.
    Handle,
    /// A block handle points outside its file.
    Range,
    /// The checksum after a block isn't that of the block and its type.
    Trailer,
    /// A block is compressed.
    Compressed,
    /// The type of a block is neither 0 nor 1.
    BlockType,
    /// The bytes aren't a block.
    Block,
    /// The bytes aren't an internal key.
    Key,
    /// A key of the index isn't between its block's last key and the next block's first.
    Index,
    /// Keys don't rise strictly.
    Order,
    /// A table, or a block of it, has no entry.
    Empty,
    /// A file's size, smallest or largest key isn't what the version states.
    Bounds,
    /// One user key and sequence are there twice.
    Duplicate,
    /// File numbers would exceed 2^64 - 1.
    Numbers,
    /// A user key, a value or an output is over its limit.
    TooLarge,
    /// More than 4,096 snapshots are listed, they don't rise strictly, or one is above the last
    /// sequence.
    SnapshotList,
    /// The checksum of a log's fragment isn't that of its type and content.
    LogChecksum,
    /// The bytes aren't laid out as a log.
    LogShape,
    /// A version edit has an unknown tag.
    EditTag,
    /// A field of a version edit can't be read.
    EditField,
    /// A comparator's name is missing, or is another one than the caller's.
    Comparator,
    /// An edit doesn't fit its version, or CURRENT or the manifest lacks what is needed.
    Apply,
    /// A version isn't lawful.
    Lawless,
    /// The device failed.
    Device,
    /// A file or table that is named isn't there.
    Missing,
    /// The folder is in use by another program.
    Locked,
    /// The folder's version changed while the command worked.
    Changed,
    /// A log has writes that are in no table, and such a database is to be refused.
    Logs,
    /// A growth of memory was refused.
    Memory,
}

impl FaultName {
    /// The number of the name, from 1 to 99.
    pub fn code(self) -> u64
        ensures { result ≡ code_of self }
    {
        match self {
            FaultName::NoInput => 1,
            FaultName::Level => 2,
            FaultName::Options => 3,
            FaultName::SplitOrder => 4,
            FaultName::SplitCount => 5,
            FaultName::Workers => 6,
            FaultName::Snapshot => 7,
            FaultName::Size => 8,
            FaultName::Short => 9,
            FaultName::Magic => 10,
            FaultName::Handle => 11,
            FaultName::Range => 12,
            FaultName::Trailer => 13,
            FaultName::Compressed => 14,
            FaultName::BlockType => 15,
            FaultName::Block => 16,
            FaultName::Key => 17,
            FaultName::Index => 18,
            FaultName::Order => 19,
            FaultName::Empty => 20,
            FaultName::Bounds => 21,
            FaultName::Duplicate => 22,
            FaultName::Numbers => 23,
            FaultName::TooLarge => 24,
            FaultName::SnapshotList => 25,
            FaultName::LogChecksum => 30,
            FaultName::LogShape => 31,
            FaultName::EditTag => 32,
            FaultName::EditField => 33,
            FaultName::Comparator => 34,
            FaultName::Apply => 35,
            FaultName::Lawless => 36,
            FaultName::Device => 40,
            FaultName::Missing => 41,
            FaultName::Locked => 42,
            FaultName::Changed => 43,
            FaultName::Logs => 44,
            FaultName::Memory => 99,
        }
    }
}

impl Display for FaultName {
    fn fmt<W: Write>(&self, f: &mut Formatter<W>) -> fmt::Result {
        Debug::fmt(self, f)
    }
}

impl Error for FaultName {}

/// A named refusal, with the position of the input that it is about, if it is about one.
#[derive(Clone, Copy, Debug, PartialEq, Eq, thiserror::Error)]
#[error("{name}")]
pub struct Fault {
    /// What is wrong.
    pub name: FaultName,
    /// Which input, counted from 0; none for a fault that is about no input.
    pub input: Option<u64>,
}

impl Fault {
    /// The fault of this name, about no input.
    pub fn of(name: FaultName) -> Fault
        ensures { result ≡ fault name }
    {
        Fault { name, input: None }
    }

    /// The number of the fault's name, from 1 to 99.
    pub fn code(&self) -> u64
        ensures { result ≡ code_of self.now.name }
    {
        self.name.code()
    }
}

impl From<AllocError> for Fault {
    ghost from_gives = { λ _ e. e ≡ fault Memory };

    fn from(_e: AllocError) -> Fault {
        Fault::of(FaultName::Memory)
    }
}

impl<T: Drop> From<AllocFailed<T>> for Fault {
    ghost from_gives = { λ _ e. e ≡ fault Memory };

    fn from(_e: AllocFailed<T>) -> Fault {
        Fault::of(FaultName::Memory)
    }
}
