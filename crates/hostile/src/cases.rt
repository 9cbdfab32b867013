//! Worked compactions by two workers over three ranges.

use crate::case::{Case, Meta, Want};
use crate::worked_bytes::{
    DELETION_BLOCKS_EDIT, DELETION_LEFT, GRANDPARENT_BLOCKS_EDIT, GRANDPARENTS_EDIT, OUTPUTS_EDIT,
    SIZE_BLOCKS_EDIT, TABLE, TABLE_A_AND_B, TABLE_A_AND_F, TABLE_A_B_BLOCKS, TABLE_A_U_DELETED,
    TABLE_A_U_TWICE, TABLE_B, TABLE_B_AND_G, TABLE_B_TWO_SPOILT, TABLE_C, TABLE_C_DELETED,
    TABLE_C_F_BLOCKS, TABLE_F, TABLE_F_G_U_BLOCKS, TABLE_G, TABLE_SPOILT, TABLE_U, TABLE_U_DELETED,
    TABLE_U_TWICE,
};
use coding::FaultName;
use table::Options;

/// Options: blocks, restarts and files have the default sizes.
pub const WIDE: Options = Options {
    block_size: 4_096,
    restart_interval: 16,
    file_size: 2_097_152,
};

/// Options with which each entry is a block and an output.
pub const SMALLEST: Options = Options {
    block_size: 1,
    restart_interval: 16,
    file_size: 1,
};

/// The same, and an output ends with the second of two puts: a block of one has 26 bytes with its
/// trailer.
const TWO_BLOCKS: Options = Options {
    file_size: 52,
    ..SMALLEST
};

/// The same, and an output ends with the fourth of four puts.
pub const FOUR_BLOCKS: Options = Options {
    file_size: 104,
    ..SMALLEST
};

/// Files of `a` at 1, `b` at 2 and `c` at 3.
const A: Meta<'static> = (7, 114, b"a\x01\x01\0\0\0\0\0\0", b"a\x01\x01\0\0\0\0\0\0");

const C: Meta<'static> = (8, 114, b"c\x01\x03\0\0\0\0\0\0", b"c\x01\x03\0\0\0\0\0\0");

const B: Meta<'static> = (9, 114, b"b\x01\x02\0\0\0\0\0\0", b"b\x01\x02\0\0\0\0\0\0");

/// Files of `f` at 4, `g` at 5 and `u` at 1.
const F: Meta<'static> = (10, 114, b"f\x01\x04\0\0\0\0\0\0", b"f\x01\x04\0\0\0\0\0\0");

const G: Meta<'static> = (11, 114, b"g\x01\x05\0\0\0\0\0\0", b"g\x01\x05\0\0\0\0\0\0");

const U: Meta<'static> = (12, 114, b"u\x01\x01\0\0\0\0\0\0", b"u\x01\x01\0\0\0\0\0\0");

/// What cases have if they say nothing else: each entry fills a block, and two blocks an output.
pub const PLAIN: Case = Case {
    level: 1,
    files: &[],
    tables: &[],
    grandparents: &[],
    deeper: &[],
    oldest: 1,
    last_sequence: 9,
    first_number: 5,
    options: TWO_BLOCKS,
    workers: 2,
    want: Want::Accepted,
};

/// Each entry fills a block, and each block an output.
const EACH: Case = Case {
    files: &[A, C, B],
    tables: &[TABLE, TABLE_C, TABLE_B],
    options: SMALLEST,
    want: Want::Outcome(&[(5, TABLE), (6, TABLE_B), (7, TABLE_C)], OUTPUTS_EDIT),
    ..PLAIN
};

pub const OUTPUTS: &Case = &EACH;

/// `OUTPUTS` by four workers.
pub const FOUR_WORKERS: &Case = &Case { workers: 4, ..EACH };

/// A deletion is kept, since a file of level 3 may hold the user key.
const KEPT: Case = Case {
    files: &[(7, 125, b"u\0\x04\0\0\0\0\0\0", b"u\x01\x02\0\0\0\0\0\0")],
    tables: &[TABLE_U_TWICE],
    deeper: &[(3, 1, b"t0\x01\x01\0\0\0\0\0\0", b"v0\x01\x01\0\0\0\0\0\0")],
    oldest: 4,
    last_sequence: 4,
    first_number: 9,
    options: WIDE,
    want: Want::Outcome(&[(9, TABLE_U_DELETED)], DELETION_LEFT),
    ..PLAIN
};

pub const DELETION: &Case = &KEPT;

/// The same after a put of `a`. The output has two blocks.
pub const DELETION_BLOCKS: &Case = &Case {
    files: &[(7, 138, b"a\x01\x01\0\0\0\0\0\0", b"u\x01\x02\0\0\0\0\0\0")],
    tables: &[TABLE_A_U_TWICE],
    options: FOUR_BLOCKS,
    want: Want::Outcome(&[(9, TABLE_A_U_DELETED)], DELETION_BLOCKS_EDIT),
    ..KEPT
};

/// Outputs end at grandparents of more than ten times the file size: after `b`, and after `f`.
const APART: Case = Case {
    level: 0,
    files: &[
        (7, 127, b"a\x01\x01\0\0\0\0\0\0", b"f\x01\x04\0\0\0\0\0\0"),
        (8, 127, b"b\x01\x02\0\0\0\0\0\0", b"g\x01\x05\0\0\0\0\0\0"),
        (9, 113, b"c\0\x03\0\0\0\0\0\0", b"c\0\x03\0\0\0\0\0\0"),
    ],
    tables: &[TABLE_A_AND_F, TABLE_B_AND_G, TABLE_C_DELETED],
    grandparents: &[
        (3, 120, b"bb\x01\x01\0\0\0\0\0\0", b"bb\x01\x01\0\0\0\0\0\0"),
        (3, 60, b"d0\x01\x01\0\0\0\0\0\0", b"d0\x01\x01\0\0\0\0\0\0"),
        (3, 60, b"ff\x01\x01\0\0\0\0\0\0", b"ff\x01\x01\0\0\0\0\0\0"),
    ],
    oldest: 9,
    options: Options {
        file_size: 10,
        ..WIDE
    },
    want: Want::Outcome(
        &[(5, TABLE_A_AND_B), (6, TABLE_F), (7, TABLE_G)],
        GRANDPARENTS_EDIT,
    ),
    ..PLAIN
};

pub const GRANDPARENTS: &Case = &APART;

/// An output of two blocks ends at a grandparent of more than ten times the file size: after `b`.
/// The other one has three blocks.
pub const GRANDPARENT_BLOCKS: &Case = &Case {
    files: &[
        (7, 127, b"a\x01\x01\0\0\0\0\0\0", b"f\x01\x04\0\0\0\0\0\0"),
        (8, 127, b"b\x01\x02\0\0\0\0\0\0", b"g\x01\x05\0\0\0\0\0\0"),
        (9, 113, b"c\0\x03\0\0\0\0\0\0", b"c\0\x03\0\0\0\0\0\0"),
        (10, 114, b"u\x01\x01\0\0\0\0\0\0", b"u\x01\x01\0\0\0\0\0\0"),
    ],
    tables: &[TABLE_A_AND_F, TABLE_B_AND_G, TABLE_C_DELETED, TABLE_U],
    grandparents: &[(
        3,
        1_041,
        b"bb\x01\x01\0\0\0\0\0\0",
        b"bb\x01\x01\0\0\0\0\0\0",
    )],
    options: FOUR_BLOCKS,
    want: Want::Outcome(
        &[(5, TABLE_A_B_BLOCKS), (6, TABLE_F_G_U_BLOCKS)],
        GRANDPARENT_BLOCKS_EDIT,
    ),
    ..APART
};

/// Each entry fills a block, and two blocks an output.
pub const SIZE_BLOCKS: &Case = &Case {
    files: &[A, C, B, F],
    tables: &[TABLE, TABLE_C, TABLE_B, TABLE_F],
    want: Want::Outcome(
        &[(5, TABLE_A_B_BLOCKS), (6, TABLE_C_F_BLOCKS)],
        SIZE_BLOCKS_EDIT,
    ),
    ..PLAIN
};

/// Two inputs have a changed byte in their data blocks. Without it an output would have two blocks.
pub const SPOILT: &Case = &Case {
    files: &[A, C, B],
    tables: &[TABLE_SPOILT, TABLE_C, TABLE_B_TWO_SPOILT],
    want: Want::Refused(FaultName::Trailer, Some(0)),
    ..PLAIN
};

/// The third of six inputs has a changed byte in its data block.
pub const THIRD_SPOILT: &Case = &Case {
    files: &[A, C, B, F, G, U],
    tables: &[
        TABLE,
        TABLE_C,
        TABLE_B_TWO_SPOILT,
        TABLE_F,
        TABLE_G,
        TABLE_U,
    ],
    want: Want::Refused(FaultName::Trailer, Some(2)),
    ..PLAIN
};
