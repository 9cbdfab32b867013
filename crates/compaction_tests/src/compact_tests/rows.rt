//! Compactions and their answers.

use crate::compact_tests::edits::*;
use crate::compact_tests::gates::Wait;
use crate::compact_tests::tables::*;
use crate::tested_tables::Parting;
use coding::FaultName;
use keep::Snapshots;

/// Into one range.
pub(crate) const WHOLE: Parting = (0, 0, 0);

/// Into three ranges, at `c` and `f`.
pub(crate) const AT_C_AND_F: Parting = (0x6300, 0x0300, 2);

/// Into two ranges, at `c`.
const AT_C: Parting = (0x6300, 0, 1);

/// Into 4,096 ranges, from `f` on; a range begins at each of `g` and `u` too.
pub(crate) const AT_MANY: Parting = (0x6600, 1, 4_095);

/// Ranges and a number of workers.
pub(crate) type Run = (Parting, u64);

/// One range, three and 4,096, by 1, 2 and 64 workers.
const EACH_RUN: &[Run] = &[
    (WHOLE, 1),
    (WHOLE, 2),
    (WHOLE, 64),
    (AT_C_AND_F, 1),
    (AT_C_AND_F, 2),
    (AT_C_AND_F, 64),
    (AT_MANY, 1),
    (AT_MANY, 2),
    (AT_MANY, 64),
];

/// No worker, and more than there may be.
pub(crate) const NO_WORKERS: &[Run] = &[(WHOLE, 0), (AT_C_AND_F, 0), (AT_MANY, 65)];

/// What a compaction answers.
#[derive(Clone, Copy)]
pub(crate) enum Answer {
    /// Tables with their numbers, and the edit; any edit if none is named.
    Tables(&'static [(u64, &'static [u8])], &'static [u8]),
    /// A refusal, and the input that it is about.
    Refused(FaultName, Option<u64>),
}

/// A compaction, and its answer in each of these runs.
#[derive(Clone, Copy)]
pub(crate) struct Row {
    pub name: &'static str,
    /// The edit's fields that add the files of a version, and the level of the inputs.
    pub files: &'static [u8],
    pub from: u64,
    /// The level that is asked for. It is the same, unless a refusal is expected.
    pub level: u64,
    /// The tables of the inputs. As many inputs are taken.
    pub tables: &'static [&'static [u8]],
    pub snapshots: Snapshots<'static>,
    pub last_sequence: u64,
    pub first_number: u64,
    pub block_size: u64,
    pub file_size: u64,
    pub runs: &'static [Run],
    /// What jobs wait for, and in how many runs of a board.
    pub wait: Wait,
    pub boards: u64,
    pub answer: Answer,
}

/// What rows have if they say nothing else. Without tables there is no input.
pub(crate) const PLAIN: Row = Row {
    name: "",
    files: b"",
    from: 0,
    level: 0,
    tables: &[],
    snapshots: Snapshots::Listed(&[]),
    last_sequence: 9,
    first_number: 9,
    block_size: 4_096,
    file_size: 2_097_152,
    runs: EACH_RUN,
    wait: Wait::ForNone,
    boards: 0,
    answer: Answer::Refused(FaultName::NoInput, None),
};

/// A deletion over a put at level 1, and the last sequence 4.
pub(crate) const LEVEL_ONE: Row = Row {
    files: DELETED_FILE,
    from: 1,
    level: 1,
    tables: &[U4_DELETED_U2],
    snapshots: Snapshots::From(4),
    last_sequence: 4,
    answer: Answer::Tables(&[], NOTHING_LEFT),
    ..PLAIN
};

/// Three grandparents, and outputs from number 5 on, each of which is full with ten bytes.
const TEN_BYTES: Row = Row {
    files: APART_FILES,
    tables: &[A_F, B_G, C_DELETED],
    snapshots: Snapshots::From(9),
    first_number: 5,
    file_size: 10,
    answer: Answer::Tables(&[(5, A_B), (6, F), (7, G)], b""),
    ..PLAIN
};

/// Newer entries of a user key, and older ones.
const BESIDE: Row = Row {
    files: NEWER_AND_OLDER,
    tables: &[U9_U5, U7_U3],
    ..PLAIN
};

/// Outputs from number 5 on: each block is full with one entry, and each output with one block.
const SMALLEST: Row = Row {
    snapshots: Snapshots::From(2),
    first_number: 5,
    block_size: 1,
    file_size: 1,
    ..PLAIN
};

/// Rows that have tables and an edit.
pub(crate) const WRITTEN: &[Row] = &[
    Row {
        name: "a deletion",
        ..LEVEL_ONE
    },
    Row {
        name: "a deletion above a deeper file",
        files: DELETED_FILE_ABOVE,
        answer: Answer::Tables(&[(9, U4_DELETED)], DELETION_LEFT),
        ..LEVEL_ONE
    },
    Row {
        name: "a deletion and no snapshot",
        snapshots: Snapshots::Listed(&[]),
        ..LEVEL_ONE
    },
    Row {
        name: "three grandparents",
        ..TEN_BYTES
    },
    // Each of the three boards has three jobs.
    Row {
        name: "three grandparents, and job 0 after job 2",
        runs: &[(AT_C_AND_F, 2)],
        wait: Wait::ForTheLast,
        boards: 3,
        ..TEN_BYTES
    },
    // Each of the three boards has two jobs. A caller that does both itself would give up here.
    Row {
        name: "two workers that meet",
        files: A_U_AND_U,
        tables: &[A_U, U9],
        snapshots: Snapshots::From(9),
        runs: &[(AT_C, 2)],
        wait: Wait::ForEachOther,
        boards: 3,
        answer: Answer::Tables(&[(5, A), (6, U9)], b""),
        ..SMALLEST
    },
    Row {
        name: "a stop between two versions",
        files: WAITING_FILES,
        tables: &[A_F_F_G],
        snapshots: Snapshots::From(0),
        answer: Answer::Tables(&[(5, A_F_F), (6, G)], b""),
        ..TEN_BYTES
    },
    Row {
        name: "an output for each entry",
        files: A_C_AND_B,
        tables: &[A_C, B],
        answer: Answer::Tables(&[(5, A), (6, B), (7, C)], EACH_EDIT),
        ..SMALLEST
    },
    Row {
        name: "three versions",
        files: U_THRICE,
        tables: &[U9_U5_U3],
        answer: Answer::Tables(&[(5, U9_U5_U3_APART)], THRICE_EDIT),
        ..SMALLEST
    },
    Row {
        name: "three versions and another user key",
        files: U_AND_V,
        tables: &[U9_V, U5_U3],
        answer: Answer::Tables(&[(5, U9_U5_U3_APART), (6, V)], b""),
        ..SMALLEST
    },
    Row {
        name: "newer and older entries",
        answer: Answer::Tables(&[(9, U9)], b""),
        ..BESIDE
    },
    Row {
        name: "an entry above the last sequence",
        files: ABOVE_LAST,
        tables: &[U12_U9],
        answer: Answer::Tables(&[(9, U12_U9)], b""),
        ..PLAIN
    },
];

/// Rows that have listed snapshots, tables and an edit.
pub(crate) const LISTED: &[Row] = &[
    Row {
        name: "a deletion and a listed snapshot",
        snapshots: Snapshots::Listed(&[2]),
        answer: Answer::Tables(&[(9, U4_DELETED_U2)], b""),
        ..LEVEL_ONE
    },
    Row {
        name: "a deletion and the last sequence listed",
        snapshots: Snapshots::Listed(&[4]),
        ..LEVEL_ONE
    },
    Row {
        name: "a deletion above a deeper file and the last sequence listed",
        files: DELETED_FILE_ABOVE,
        snapshots: Snapshots::Listed(&[4]),
        answer: Answer::Tables(&[(9, U4_DELETED)], DELETION_LEFT),
        ..LEVEL_ONE
    },
    Row {
        name: "three grandparents and the last sequence listed",
        snapshots: Snapshots::Listed(&[9]),
        ..TEN_BYTES
    },
    Row {
        name: "an output for each entry and snapshot 2",
        files: A_C_AND_B,
        tables: &[A_C, B],
        snapshots: Snapshots::Listed(&[2]),
        answer: Answer::Tables(&[(5, A), (6, B), (7, C)], EACH_EDIT),
        ..SMALLEST
    },
    Row {
        name: "snapshot 5",
        snapshots: Snapshots::Listed(&[5]),
        answer: Answer::Tables(&[(9, U9_U5)], b""),
        ..BESIDE
    },
    Row {
        name: "snapshot 6",
        snapshots: Snapshots::Listed(&[6]),
        answer: Answer::Tables(&[(9, U9_U5)], b""),
        ..BESIDE
    },
    Row {
        name: "snapshot 7",
        snapshots: Snapshots::Listed(&[7]),
        answer: Answer::Tables(&[(9, U9_U7)], b""),
        ..BESIDE
    },
    Row {
        name: "snapshots 3 and 6",
        snapshots: Snapshots::Listed(&[3, 6]),
        answer: Answer::Tables(&[(9, U9_U5_U3)], b""),
        ..BESIDE
    },
];
