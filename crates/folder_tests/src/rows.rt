//! What is done to folders that tell contracts nothing, and the calls that it makes on them.

use crate::calls::Piece::{Calls, Installed, Table};
use crate::calls::{OPENED_5, OPENED_15, PART_10, PART_26, Piece, REMOVED_15, REMOVED_19, WRITTEN};
use crate::compaction_crash_tests::FILES;
use crate::known_versions::{A, B, Files, NEWER_B, NO_OUTCOME, OUTCOME};
use crate::steps::{BOTH, FIRST, FIRST_EDIT, FOURTH, LAST, ONE, SECOND_EDIT, Step, THIRD};
use shelf::Failing;

/// What is done to a folder.
#[derive(Clone, Copy)]
pub(crate) enum Act {
    /// Level 1 is compacted, of inputs that the rules pick.
    Compact,
    /// All of level 1 is.
    Whole,
    /// All levels are, by parts that have at most so many bytes. Files that are listed are removed
    /// after each step.
    All(u64),
    /// The same, but who is told of the first step says to stop.
    Stop(u64),
    /// Outcomes are installed, which other folders hold.
    Install,
    /// The outcome of a compaction of another folder is written into it.
    Write,
}

/// What goes wrong.
#[derive(Clone, Copy)]
pub(crate) enum Wrong {
    Nothing,
    /// A call on the folder.
    Call(Failing),
    /// A call of this number, from 1, on the other folder at a place.
    SourceCall(usize, u64),
    /// The last byte of a file is never read, in any folder.
    Short(&'static str),
}

/// What is done to a folder of these files, and the calls that it gets.
#[derive(Clone, Copy)]
pub(crate) struct Row {
    pub name: &'static str,
    pub act: Act,
    pub files: Files,
    /// The files of other folders, which are only read.
    pub sources: &'static [Files],
    /// The calls in order, piece by piece.
    pub calls: &'static [Piece],
    /// The steps that are told.
    pub steps: &'static [Step],
    /// The version before, and the one after each step, by next file.
    pub versions: &'static [u64],
    /// What ends it otherwise, and how many calls that write are made before that.
    pub ends: &'static [(Wrong, usize)],
}

/// `log: comparator leveldb.BytewiseComparator, log 3, previous 0, next 19, last 4, file 1 17 114
/// a@1 put .. a@1 put, file 1 18 114 b@2 put .. b@2 put, file 3 16 114 b@1 put .. b@1 put`
const MANIFEST: &[u8] = b"\
    Z8\xdesl\0\x01\x01\x1aleveldb.BytewiseComparator\x02\x03\x09\0\x03\x13\x04\x04\x07\x01\x11r\
    \x09a\x01\x01\0\0\0\0\0\0\x09a\x01\x01\0\0\0\0\0\0\x07\x01\x12r\x09b\x01\x02\0\0\0\0\0\0\x09b\
    \x01\x02\0\0\0\0\0\0\x07\x03\x10r\x09b\x01\x01\0\0\0\0\0\0\x09b\x01\x01\0\0\0\0\0\0";

/// A folder of two files at level 1, and one at level 3 that overlaps the second. So level 1 has
/// two parts of 114 bytes. After their compaction level 2 has one of 114 bytes and one of 228.
const LEVELS: Files = &[
    ("CURRENT", b"MANIFEST-000015\n"),
    ("MANIFEST-000015", MANIFEST),
    ("000017.ldb", A),
    ("000018.ldb", NEWER_B),
    ("000016.sst", B),
];

/// The compaction of a whole level.
const WHOLE: Row = Row {
    name: "a whole level",
    act: Act::Whole,
    files: LEVELS,
    sources: &[],
    calls: &[
        Calls(OPENED_15),
        Table("000020.ldb"),
        Table("000022.ldb"),
        Installed("MANIFEST-000019", "000019.dbtmp"),
    ],
    steps: &[BOTH],
    versions: &[19, 23],
    ends: &[
        (Wrong::Short("CURRENT"), 0),
        (Wrong::Short("MANIFEST-000015"), 0),
        (Wrong::Short("000017.ldb"), 9),
        (Wrong::Short("000018.ldb"), 9),
        (Wrong::Short("000016.sst"), 9),
    ],
};

/// Compactions of one level; of all levels, if all parts fit, if the largest one has a byte too
/// many, and if none fits; two outcomes, which are installed together; and one that is written.
pub(crate) const ROWS: &[Row] = &[
    Row {
        name: "a compaction",
        act: Act::Compact,
        files: FILES,
        calls: &[
            Calls(OPENED_5),
            Calls(PART_10),
            Installed("MANIFEST-000009", "000009.dbtmp"),
        ],
        steps: &[ONE],
        versions: &[9, 11],
        ends: &[
            (Wrong::Short("CURRENT"), 0),
            (Wrong::Short("MANIFEST-000005"), 0),
            (Wrong::Short("000007.sst"), 5),
        ],
        ..WHOLE
    },
    WHOLE,
    Row {
        name: "parts that fit, with removals",
        act: Act::All(228),
        calls: &[
            Calls(OPENED_15),
            Table("000020.ldb"),
            Table("000022.ldb"),
            Installed("MANIFEST-000019", "000019.dbtmp"),
            Calls(REMOVED_15),
            Table("000024.ldb"),
            Calls(PART_26),
            Installed("MANIFEST-000023", "000023.dbtmp"),
            Calls(REMOVED_19),
        ],
        steps: &[
            Step {
                listed: &["000016.sst", "000017.ldb", "000018.ldb", "MANIFEST-000015"],
                ..BOTH
            },
            Step {
                listed: &[
                    "000016.sst",
                    "000020.ldb",
                    "000022.ldb",
                    "CURRENT",
                    "MANIFEST-000019",
                ],
                ..LAST
            },
        ],
        versions: &[19, 23, 27],
        ends: &[
            (Wrong::Short("000016.sst"), 9),
            (Wrong::Short("000020.ldb"), 24),
            (Wrong::Short("000022.ldb"), 26),
        ],
        ..WHOLE
    },
    Row {
        name: "a part that doesn't fit",
        act: Act::All(227),
        calls: &[
            Calls(OPENED_15),
            Table("000020.ldb"),
            Table("000022.ldb"),
            Installed("MANIFEST-000019", "000019.dbtmp"),
            Table("000024.ldb"),
            Installed("MANIFEST-000023", "000023.dbtmp"),
            Calls(PART_26),
            Installed("MANIFEST-000025", "000025.dbtmp"),
        ],
        steps: &[BOTH, THIRD, FOURTH],
        versions: &[19, 23, 25, 27],
        ends: &[
            (Wrong::Short("000020.ldb"), 20),
            (Wrong::Short("000022.ldb"), 29),
        ],
        ..WHOLE
    },
    Row {
        name: "no part that fits, told to stop",
        act: Act::Stop(113),
        calls: &[
            Calls(OPENED_15),
            Table("000020.ldb"),
            Installed("MANIFEST-000019", "000019.dbtmp"),
        ],
        steps: &[FIRST],
        versions: &[19, 21],
        ..WHOLE
    },
    Row {
        name: "two outcomes",
        act: Act::Install,
        sources: &[
            &[("EDIT", FIRST_EDIT), ("000020.ldb", A)],
            &[("EDIT", SECOND_EDIT), ("000022.ldb", NEWER_B)],
        ],
        ends: &[
            (Wrong::SourceCall(0, 1), 9),
            (Wrong::SourceCall(0, 2), 9),
            (Wrong::SourceCall(1, 1), 11),
            (Wrong::SourceCall(1, 2), 11),
            (Wrong::Short("EDIT"), 9),
            (Wrong::Short("000020.ldb"), 9),
            (Wrong::Short("000022.ldb"), 11),
        ],
        ..WHOLE
    },
    Row {
        name: "an outcome",
        act: Act::Write,
        files: &[],
        sources: &[FILES],
        calls: &[Calls(WRITTEN)],
        steps: &[ONE],
        versions: &[NO_OUTCOME, OUTCOME],
        ends: &[
            (Wrong::SourceCall(0, 1), 0),
            (Wrong::SourceCall(0, 2), 0),
            (Wrong::SourceCall(0, 3), 0),
            (Wrong::SourceCall(0, 4), 0),
            (Wrong::Short("CURRENT"), 0),
            (Wrong::Short("MANIFEST-000005"), 0),
            (Wrong::Short("000007.sst"), 0),
        ],
    },
];
