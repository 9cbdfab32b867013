//! Compactions that are refused.

use crate::compact_tests::edits::*;
use crate::compact_tests::gates::Wait;
use crate::compact_tests::rows::{AT_C_AND_F, AT_MANY, Answer, NO_WORKERS, PLAIN, Row, WHOLE};
use crate::compact_tests::tables::*;
use coding::FaultName;
use keep::Snapshots;

/// The first sequence that no snapshot may have, 2^56 - 1.
const TOO_HIGH: u64 = 72_057_594_037_927_935;

/// A spoilt block, if the request isn't refused for its snapshots before.
const SPOILT: Row = Row {
    files: SAME,
    tables: &[U5_BLOCK],
    answer: Answer::Refused(FaultName::Snapshot, None),
    ..PLAIN
};

/// Rows that are refused.
pub(crate) const REFUSED: &[Row] = &[
    Row {
        name: "no input, level 6 and a high snapshot",
        files: SAME,
        level: 6,
        snapshots: Snapshots::From(TOO_HIGH),
        ..PLAIN
    },
    Row {
        name: "no input and no workers",
        files: SAME,
        runs: NO_WORKERS,
        answer: Answer::Refused(FaultName::Workers, None),
        ..PLAIN
    },
    Row {
        name: "a high oldest snapshot, and a spoilt block",
        snapshots: Snapshots::From(TOO_HIGH),
        ..SPOILT
    },
    Row {
        name: "a high listed snapshot, and a spoilt block",
        snapshots: Snapshots::Listed(&[TOO_HIGH]),
        ..SPOILT
    },
    Row {
        name: "a high last sequence, and a spoilt block",
        last_sequence: TOO_HIGH,
        ..SPOILT
    },
    Row {
        name: "a snapshot that is listed twice, and a spoilt block",
        snapshots: Snapshots::Listed(&[6, 6]),
        answer: Answer::Refused(FaultName::SnapshotList, None),
        ..SPOILT
    },
    Row {
        name: "a snapshot above the last sequence, and a spoilt block",
        snapshots: Snapshots::Listed(&[10]),
        answer: Answer::Refused(FaultName::SnapshotList, None),
        ..SPOILT
    },
    Row {
        name: "two spoilt blocks around an input, and job 0 after job 2",
        tables: &[U5_BLOCK, U5, U5_BLOCK],
        runs: &[(WHOLE, 2), (AT_C_AND_F, 2), (AT_MANY, 2)],
        wait: Wait::ForTheLast,
        boards: 1,
        answer: Answer::Refused(FaultName::Trailer, Some(0)),
        ..SPOILT
    },
    Row {
        name: "two spoilt blocks",
        tables: &[U5_BLOCK, U5_BLOCK],
        answer: Answer::Refused(FaultName::Trailer, Some(0)),
        ..SPOILT
    },
    Row {
        name: "another magic between two of one key",
        tables: &[U5, U5_MAGIC, U5],
        answer: Answer::Refused(FaultName::Magic, Some(1)),
        ..SPOILT
    },
    Row {
        name: "two of one key, and no number left",
        tables: &[U5, U5],
        first_number: u64::MAX,
        answer: Answer::Refused(FaultName::Duplicate, None),
        ..SPOILT
    },
    Row {
        name: "no number left",
        tables: &[U5],
        first_number: u64::MAX,
        answer: Answer::Refused(FaultName::Numbers, None),
        ..SPOILT
    },
];
