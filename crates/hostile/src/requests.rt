//! Compactions that are refused for their inputs or for what is stated of them, and accepted ones
//! beside them.

use crate::case::{Case, Meta, Want};
use crate::cases::{PLAIN, WIDE};
use crate::rows::{Compaction, Workers};
use crate::worked_bytes::{
    A_AT_ONE, B_AT_ONE, B_AT_TWO, B_AT_ZERO, C_AT_ONE, TABLE, TABLE_B_AT_ONE, TABLE_B_SPOILT,
    TABLE_OF_ANOTHER_MAGIC, TABLE_SPOILT, TABLE_U, U_AT_ONE,
};
use coding::FaultName::{Bounds, Duplicate, Magic, Options as OptionsFault, Trailer};

/// Files of `a`, of `b` and of `u`, each put at 1.
const A: Meta<'static> = (97, 114, &A_AT_ONE, &A_AT_ONE);

const B: Meta<'static> = (98, 114, &B_AT_ONE, &B_AT_ONE);

const U: Meta<'static> = (117, 114, &U_AT_ONE, &U_AT_ONE);

/// Files from `a` to `b` and to `c`.
const TO_B: Meta<'static> = (3, 1, &A_AT_ONE, &B_AT_ONE);

const TO_C: Meta<'static> = (3, 1, &A_AT_ONE, &C_AT_ONE);

/// A request of one input that is accepted.
pub const REQUEST: Case = Case {
    files: &[A],
    tables: &[TABLE],
    oldest: 9,
    first_number: 9,
    options: WIDE,
    ..PLAIN
};

/// Two faults in one request, grandparents whose largest keys rise, stay the same and fall, and
/// statements of an input that are off by one.
pub const REQUESTS: &[Compaction] = &[
    (
        &Case {
            files: &[U, A, U],
            tables: &[TABLE_U, TABLE_OF_ANOTHER_MAGIC, TABLE_U],
            want: Want::Refused(Magic, Some(1)),
            ..REQUEST
        },
        Workers::Free,
        "another magic between two of one key: Magic at 1",
    ),
    (
        &Case {
            files: &[U, A, U],
            tables: &[TABLE_U, TABLE, TABLE_U],
            want: Want::Refused(Duplicate, None),
            ..REQUEST
        },
        Workers::Free,
        "two of one key: Duplicate",
    ),
    (
        &Case {
            files: &[A, B],
            tables: &[TABLE_SPOILT, TABLE_B_SPOILT],
            workers: 64,
            want: Want::Refused(Trailer, Some(0)),
            ..REQUEST
        },
        Workers::Free,
        "two spoilt blocks: Trailer at 0",
    ),
    (
        &Case {
            grandparents: &[TO_B, TO_C],
            ..REQUEST
        },
        Workers::Free,
        "grandparents that rise: accepted",
    ),
    (
        &Case {
            grandparents: &[TO_B, TO_B],
            want: Want::Refused(OptionsFault, None),
            ..REQUEST
        },
        Workers::Free,
        "grandparents that stand: Options",
    ),
    (
        &Case {
            grandparents: &[TO_C, TO_B],
            want: Want::Refused(OptionsFault, None),
            ..REQUEST
        },
        Workers::Free,
        "grandparents that fall: Options",
    ),
    (
        &Case {
            files: &[A, (98, 115, &B_AT_ONE, &B_AT_ONE)],
            tables: &[TABLE, TABLE_B_AT_ONE],
            want: Want::Refused(Bounds, Some(1)),
            ..REQUEST
        },
        Workers::Free,
        "a size above: Bounds at 1",
    ),
    (
        &Case {
            files: &[A, (98, 113, &B_AT_ONE, &B_AT_ONE)],
            tables: &[TABLE, TABLE_B_AT_ONE],
            want: Want::Refused(Bounds, Some(1)),
            ..REQUEST
        },
        Workers::Free,
        "a size below: Bounds at 1",
    ),
    (
        &Case {
            files: &[A, (98, 114, &B_AT_TWO, &B_AT_ONE)],
            tables: &[TABLE, TABLE_B_AT_ONE],
            want: Want::Refused(Bounds, Some(1)),
            ..REQUEST
        },
        Workers::Free,
        "another smallest key: Bounds at 1",
    ),
    (
        &Case {
            files: &[A, (98, 114, &B_AT_ONE, &B_AT_ZERO)],
            tables: &[TABLE, TABLE_B_AT_ONE],
            want: Want::Refused(Bounds, Some(1)),
            ..REQUEST
        },
        Workers::Free,
        "another largest key: Bounds at 1",
    ),
];
