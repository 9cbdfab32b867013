//! Rows of calls that take memory, of which a request is refused by each number in turn
//! (`refused_requests.rt`).
//!
//! | Row | Calls | Compared |
//! |---|---|---|
//! | a block is built (1) | `BlockBuilder`: `add`, `finish` | bytes |
//! | a table is built (1) | `TableBuilder`: `add`, `finish` | bytes |
//! | a table is walked (2) | `check`, `new`, `advance`, `seek` | user keys left |
//! | three tables as one (2) | the same and `Merging::take` | user keys left |
//! | three tables, sought (3) | `Merging`: `seek`, `into_cursors` | user keys left of each |
//! | a range of two tables (3) | `merge_range` | user keys left of each, length |
//! | a log | `append`, `records` | length, end, records |
//! | an edit | `decode`, `applied`, `apply`, `snapshot_edit`, `encode` | bytes, numbers |
//! | a range and a plan | `check`, `merge_range`, `plan`, `encode` | numbers, lengths |
//! | blocks are joined | the same and `assemble` | tables, numbers |
//! | a boundary | `check`, `Split::choose` | ranges, boundary |
//! | a board | `Board::new` | seats, jobs, counts |
//! | a block is walked (2) | `BlockCursor`: `new`, `advance` | entries |
//! | a folder is asked | `manifest`, `verify`, `get_dir` | lines |
//! | tables are loaded | `load` | tables |
//! | an outcome (4) | `open`, `install`, `load` | tables of the version left |
//! | compactions (5) | `compact`, two workers, three ranges | outcome, or `Trailer` |
//!
//! If a call was refused, the next try makes all anew, except:
//!
//! 1. `add` is made again on the same builder, which has to be as it was.
//! 2. `advance`, `seek` and `take` are made again on the same cursors. After `advance` the entry
//!    has to be the same.
//! 3. The cursors may only have lost entries before the key, or before the end of the range.
//! 4. `install` is called again on the same folder, if that has the version before.
//! 5. The next try has the same inputs and split.
//!
//! The cases `refused_memory` and `refused_compaction` of `tests/run` try the commands so.
//!
//! Calls that take no memory are made in these rows while a request ends the program:
//!
//! | Row | Calls |
//! |---|---|
//! | numbers and keys | `read_u32_varint`, `read_u64_varint`, `crc32c`, `mask`, `unmask` |
//! | | `status`, `Comparator`: `name`, `compare`, `KeyBuf`: `as_key` |
//! | | `InternalKey`: `parse`, `user`, `sequence`, `kind`, `compare` |
//! | a block is built | `BlockBuilder`: `estimate`, `is_empty` |
//! | a table is built | `TableBuilder`: `flushed`, `is_above_last` |
//! | those that walk | `valid`, `key`, `value`, `SoundBlock::restarts` |
//! | a range of two tables | `Split`: `len`, `range`, `is_base` |
//! | an edit | `Version`: the numbers, `pointer` |
//! | a range and a plan | `RangeRun`: `len`, `Plan`: `jobs`, `len`, `output` |
//! | a boundary | `SoundTable`: `bytes`, `smallest`, `largest` |
//! | a board | `Board`: `draw`, `done`, `fail`, `skip`, `least_fault`, `close` |

use crate::case::Case;
use crate::cases::{
    DELETION, DELETION_BLOCKS, FOUR_WORKERS, GRANDPARENT_BLOCKS, GRANDPARENTS, OUTPUTS,
    SIZE_BLOCKS, SPOILT, THIRD_SPOILT,
};

/// What is called.
#[derive(Clone, Copy)]
pub enum Row {
    Numbers,
    Block,
    Table,
    Cursor,
    Merging,
    Seek,
    Range,
    Log,
    Edit,
    Plan,
    Join,
    Split,
    Board,
    BlockCursor,
    Folder,
    Load,
    Install,
}

/// The rows, but for compactions.
pub const GROWTHS: &[(Row, &str)] = &[
    (Row::Numbers, "  numbers and keys are read"),
    (Row::Block, "  a block is built"),
    (Row::Table, "  a table is built"),
    (Row::Cursor, "  a table is walked"),
    (Row::Merging, "  three tables are walked as one"),
    (Row::Seek, "  three tables are sought as one"),
    (Row::Range, "  a range of two tables is merged"),
    (Row::Log, "  a log is written and read"),
    (Row::Edit, "  an edit is read, applied and written"),
    (
        Row::Plan,
        "  a range is merged, and its outputs planned and encoded",
    ),
    (
        Row::Join,
        "  outputs of several blocks are planned, encoded and joined",
    ),
    (Row::Split, "  a boundary is chosen"),
    (Row::Board, "  a board is made and worked"),
    (Row::BlockCursor, "  a block is walked"),
    (
        Row::Folder,
        "  a folder is shown, verified and asked for a key",
    ),
    (Row::Load, "  the tables of a version are loaded"),
    (Row::Install, "  an outcome is installed"),
];

/// How the workers of a compaction do their jobs, and what is refused of it.
#[derive(Clone, Copy)]
pub enum Workers {
    /// Jobs are done as they come. A request for memory is refused.
    Free,
    /// Job 0 is held until job 2 has ended. A request for memory is refused.
    Held,
    /// Each thread from some number on is refused. The answer has to come all the same.
    Fewer,
    /// Job 0 is held until job 2 has ended. A request of job 0 for memory is refused, which has to
    /// be told.
    FirstWants,
    /// Job 2 is held until job 5 has ended. A request of job 5 for memory is refused. The answer
    /// has to come all the same, since job 2 is refused for another reason.
    LastWants,
}

/// A compaction, how its workers do their jobs, and the words for it.
pub type Compaction = (&'static Case, Workers, &'static str);

/// The compaction of which threads are refused.
pub const THREADS: &[Compaction] = &[(FOUR_WORKERS, Workers::Fewer, "  three outputs")];

/// Compactions of which requests for memory are refused.
pub const COMPACTIONS: &[Compaction] = &[
    (
        DELETION,
        Workers::Free,
        "  compact: a hidden version, and a deletion that is kept",
    ),
    (
        GRANDPARENTS,
        Workers::Free,
        "  compact: three outputs, two ended by grandparents",
    ),
    (
        OUTPUTS,
        Workers::Free,
        "  compact: three outputs, ended by size",
    ),
    (
        DELETION_BLOCKS,
        Workers::Free,
        "  compact: the same deletion, in an output of two blocks",
    ),
    (
        GRANDPARENT_BLOCKS,
        Workers::Free,
        "  compact: outputs of two and three blocks, one ended by a grandparent",
    ),
    (
        SIZE_BLOCKS,
        Workers::Free,
        "  compact: two outputs of two blocks, ended by size",
    ),
    (SPOILT, Workers::Free, "  compact: Trailer at 0"),
    (
        SPOILT,
        Workers::Held,
        "  compact: Trailer at 0, held until input 2 was refused",
    ),
    (
        THIRD_SPOILT,
        Workers::FirstWants,
        "  compact: Memory at 0, held until input 2 was refused as Trailer",
    ),
    (
        THIRD_SPOILT,
        Workers::LastWants,
        "  compact: Trailer at 2, held until input 5 was refused as Memory",
    ),
];
