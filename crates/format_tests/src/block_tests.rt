ghost use Rattle.std.specs.Prelude.{◌≤◌};

use block::{BlockBuilder, BlockCursor, CheckingCursor, check, reopen};
use coding::{Fault, FaultName};
use std::alloc::Global;
use std::process::Abort;
use std::test::*;

/// `a` at 2, put: the user key, then type and sequence in eight bytes, the lowest first.
const FIRST_KEY: [u8; 9] = *b"a\x01\x02\0\0\0\0\0\0";
/// `a` at 1, put.
const SECOND_KEY: [u8; 9] = *b"a\x01\x01\0\0\0\0\0\0";

/// The entries `a@2` with `x` and `a@1` with `y` at interval 16: the second key shares two bytes.
/// `block: a@2 put x, a@1 put y`
const SHARING: &[u8] =
    b"\0\x09\x01a\x01\x02\0\0\0\0\0\0x\x02\x07\x01\x01\0\0\0\0\0\0y\0\0\0\0\x01\0\0\0";

/// The same entries at interval 1: both keys are whole, with a restart each.
const WHOLE: &[u8] =
    b"\0\x09\x01a\x01\x02\0\0\0\0\0\0x\0\x09\x01a\x01\x01\0\0\0\0\0\0y\0\0\0\0\x0d\0\0\0\x02\0\0\0";

/// The block of no entries, which has one restart, 0.
const NOTHING: &[u8] = b"\0\0\0\0\x01\0\0\0";

/// Adds an entry to a builder of a block that has `estimate` bytes.
#[tactic(auto, using(block::proofs::Sizes::fits_with_entry))]
fn add(
    rt: &impl Abort,
    builder: &mut BlockBuilder,
    estimate: usize,
    key: &[u8; 9],
    value: &[u8; 1],
) {
    assert!(rt; estimate <= 21 && builder.estimate() == estimate);
    builder.add(key, value).expect(rt, "memory");
}

/// Adds both entries to an empty builder.
fn add_both(rt: &impl Abort, builder: &mut BlockBuilder) {
    assert!(rt; builder.is_empty() && builder.last_key().is_empty());
    add(rt, builder, 8, &FIRST_KEY, b"x");
    assert!(rt; !builder.is_empty() && builder.last_key() == FIRST_KEY.as_slice());
    add(rt, builder, 21, &SECOND_KEY, b"y");
}

/// The block of both entries, written by a builder that had them before and was cleared. Its block
/// of no entries is appended to `nothing`.
fn written(rt: &impl Abort, alloc: Global, interval: u64, nothing: &mut Vec<u8>) -> Vec<u8>
    requires positive { 1 ≤ interval }
    requires limited { interval ≤ 1024 }
{
    let mut builder = BlockBuilder::new(alloc, interval);
    add_both(rt, &mut builder);
    builder.clear();
    builder.push_block(nothing).expect(rt, "memory");
    add_both(rt, &mut builder);
    builder.finish().expect(rt, "memory")
}

/// Whether both entries are written as these bytes at this interval.
fn is_written(rt: &impl Abort, alloc: Global, interval: u64, wanted: &[u8]) -> bool
    requires positive { 1 ≤ interval }
    requires limited { interval ≤ 1024 }
{
    let mut nothing = Vec::new(alloc);
    let block = written(rt, alloc, interval, &mut nothing);
    nothing.as_slice() == NOTHING && block.as_slice() == wanted
}

/// An entry: its key, its value, and whether it is the last one.
type Entry = (&'static [u8], &'static [u8], bool);

const ENTRIES: &[Entry] = &[(&FIRST_KEY, b"x", false), (&SECOND_KEY, b"y", true)];

/// Bytes that are a block.
struct Row {
    name: &'static str,
    bytes: &'static [u8],
    entries: &'static [Entry],
    /// How many restarts it has.
    restarts: u64,
    /// The key of the entry at the last restart.
    last_key: Option<&'static [u8]>,
    /// The entries from there on.
    from_last: &'static [Entry],
}

const ROWS: &[Row] = &[
    Row {
        name: "two bytes are shared",
        bytes: SHARING,
        entries: ENTRIES,
        restarts: 1,
        last_key: Some(&FIRST_KEY),
        from_last: ENTRIES,
    },
    Row {
        name: "no entries",
        bytes: NOTHING,
        entries: &[],
        restarts: 1,
        last_key: None,
        from_last: &[],
    },
    Row {
        name: "a restart at each of two whole keys",
        bytes: WHOLE,
        entries: ENTRIES,
        restarts: 2,
        last_key: Some(&SECOND_KEY),
        from_last: &[(&SECOND_KEY, b"y", true)],
    },
    Row {
        name: "a whole key without a restart",
        bytes: b"\
            \0\x09\x01a\x01\x02\0\0\0\0\0\0x\0\x09\x01a\x01\x01\0\0\0\0\0\0y\0\0\0\0\x01\0\0\0",
        entries: ENTRIES,
        restarts: 1,
        last_key: Some(&FIRST_KEY),
        from_last: ENTRIES,
    },
];

/// Takes a cursor past its entry. Whether that is this one.
fn goes(rt: &impl Abort, cursor: &mut BlockCursor<'_>, entry: &Entry) -> bool {
    if !cursor.valid() {
        return false;
    }
    let is_this = cursor.key() == entry.0
        && cursor.value() == entry.1
        && cursor.is_last() == entry.2;
    cursor.advance().expect(rt, "memory");
    is_this
}

/// Whether a cursor has these entries and no more. It ends after them.
fn has(rt: &impl Abort, cursor: &mut BlockCursor<'_>, entries: &[Entry]) -> bool {
    for entry in entries {
        if !goes(rt, cursor, entry) {
            return false;
        }
    }
    !cursor.valid()
}

/// Whether a block has its restarts, and its entries from the last of them on.
fn is_read_from_last(rt: &impl Abort, alloc: Global, row: &Row) -> bool {
    let block = check(row.bytes).expect(rt, "a block");
    if block.restarts() != row.restarts {
        return false;
    }
    let last = block.restarts() - 1;
    if block.key_at(last) != row.last_key {
        return false;
    }
    let mut cursor = BlockCursor::at(alloc, &block, last).expect(rt, "memory");
    has(rt, &mut cursor, row.from_last)
}

/// A cursor over a block that is reopened, since its bytes were checked.
fn reopened(alloc: Global, bytes: &[u8]) -> Result<BlockCursor<'_>, Fault> {
    let sound = check(bytes)?;
    let block = reopen(bytes);
    let cursor = BlockCursor::new(alloc, &block)?;
    Ok(cursor)
}

/// Whether a block reopened has its entries, and a cursor at its end moves to them again.
fn is_read_again(rt: &impl Abort, alloc: Global, row: &Row) -> bool {
    let mut cursor = reopened(alloc, row.bytes).expect(rt, "a block");
    let is_read = has(rt, &mut cursor, row.entries);
    let sound = check(row.bytes).expect(rt, "a block");
    cursor.enter(&sound.copy()).expect(rt, "memory");
    is_read && has(rt, &mut cursor, row.entries)
}

/// Takes a checking cursor past its entry. Whether that is this one.
fn tests(rt: &impl Abort, cursor: &mut CheckingCursor<'_>, entry: &Entry) -> bool {
    if !cursor.valid() {
        return false;
    }
    let is_this = cursor.key() == entry.0 && cursor.value() == entry.1;
    cursor.advance().expect(rt, "a block");
    is_this
}

/// Whether a checking cursor finds these entries and no more.
fn is_tested(rt: &impl Abort, cursor: &mut CheckingCursor<'static>, row: &Row) -> bool {
    cursor.enter(row.bytes).expect(rt, "a block");
    for entry in row.entries {
        if !tests(rt, cursor, entry) {
            return false;
        }
    }
    !cursor.valid()
}

/// Whether a block is read in each way.
fn is_read(
    rt: &impl Abort,
    alloc: Global,
    cursor: &mut CheckingCursor<'static>,
    row: &Row,
) -> bool {
    is_read_from_last(rt, alloc, row) && is_read_again(rt, alloc, row) && is_tested(rt, cursor, row)
}

#[test]
fn blocks_are_written_and_read(rt: HostRuntime) {
    assert!(rt; is_written(&rt, rt.alloc(), 16, SHARING));
    assert!(rt; is_written(&rt, rt.alloc(), 1, WHOLE));
    let mut cursor = CheckingCursor::none(rt.alloc());
    assert!(rt; !cursor.valid());
    for row in ROWS {
        assert!(rt; is_read(&rt, rt.alloc(), &mut cursor, row), "{}", row.name);
    }
}

/// Invalid blocks, and why they are.
const NO_BLOCKS: &[(&str, &[u8])] = &[
    ("no bytes", b""),
    ("no restart", b"\0\0\0\0"),
    ("a restart, and none told", b"\0\0\0\0\0\0\0\0"),
];

/// Whether bytes are refused as an invalid block.
fn is_refused(bytes: &[u8]) -> bool {
    match check(bytes) {
        Ok(_) => false,
        Err(refused) => refused == Fault::of(FaultName::Block),
    }
}

#[test]
fn what_is_no_block(rt: HostRuntime) {
    for (name, bytes) in NO_BLOCKS {
        assert!(rt; is_refused(bytes), "{name}");
    }
}
