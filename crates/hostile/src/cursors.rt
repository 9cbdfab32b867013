//! Cursors. If memory was refused to a step, a cursor has to be where it was, and the step is made
//! again. If it was refused to a seek, or to the merge of a range, a cursor may have lost entries
//! before the key or the range's end.

use crate::fault::{is_memory, wanted};
use crate::refusals::{allow, forbid};
use crate::worked_bytes::{
    A_AT_ONE, A_AT_TWO, BLOCK, C_AT_ONE, TABLE_ABCDE, TABLE_ACE, TABLE_ACF, TABLE_BD,
};
use block::BlockCursor;
use coding::{Fault, FaultName};
use ikey::{Bytewise, InternalKey};
use merge::Merging;
use std::alloc::Global;
use table::{Cursor, TableCursor, check};

/// The user key of a cursor's entry, if it has one, whose value is `x`. It takes no memory.
pub fn first<'a, S: Cursor<'a, Bytewise>>(alloc: Global, cursor: &S) -> Option<u8> {
    forbid(alloc);
    let first = if cursor.valid() && cursor.value() == b"x".as_slice() {
        cursor.key().user().first().copied()
    } else {
        None
    };
    allow(alloc);
    first
}

/// Takes a cursor past its entry, if it has one.
fn step<'a, S: Cursor<'a, Bytewise>>(alloc: Global, cursor: &mut S) -> Result<(), Fault> {
    if !cursor.valid() {
        return Ok(());
    }
    let user = first(alloc, cursor);
    let answer = cursor.advance();
    if !is_memory(&answer) {
        return answer;
    }
    if !cursor.valid() || first(alloc, cursor) != user {
        return Err(Fault::of(FaultName::Lawless));
    }
    cursor.advance()
}

/// Seeks a user key at sequence 1.
fn seek<'a, S: Cursor<'a, Bytewise>>(cursor: &mut S, user: u8) -> Result<(), Fault> {
    let target = [user, 1, 1, 0, 0, 0, 0, 0, 0];
    let answer = cursor.seek(InternalKey::parse(&target)?);
    if !is_memory(&answer) {
        return answer;
    }
    cursor.seek(InternalKey::parse(&target)?)
}

/// More entries than the tables have together.
const ENTRIES: usize = 9;

/// The user keys of a cursor's entries to come. It takes the cursor to its end.
fn users_left<'a, S: Cursor<'a, Bytewise>>(
    alloc: Global,
    cursor: &mut S,
) -> Result<Vec<u8>, Fault> {
    let mut users = Vec::new(alloc);
    for _ in 0..ENTRIES {
        if let Some(user) = first(alloc, cursor) {
            users.push(user)?;
        }
        step(alloc, cursor)?;
    }
    Ok(users)
}

/// Whether a cursor has entries of just these user keys after a step, a seek of `c` and one back to
/// `a`.
fn is_walked<'a, S: Cursor<'a, Bytewise>>(
    alloc: Global,
    cursor: &mut S,
    users: &[u8],
) -> Result<bool, Fault> {
    step(alloc, cursor)?;
    seek(cursor, b'c')?;
    seek(cursor, b'a')?;
    Ok(users_left(alloc, cursor)?.as_slice() == users)
}

/// A cursor over a table.
fn cursor_over<'a>(alloc: Global, bytes: &'a [u8]) -> Result<TableCursor<'a, Bytewise>, Fault> {
    let table = check::<Bytewise>(alloc, bytes)?;
    TableCursor::new(alloc, &table)
}

/// A cursor over five blocks, sought forwards and backwards.
pub fn table_walked(alloc: Global) -> Result<bool, Fault> {
    let mut cursor = cursor_over(alloc, TABLE_ABCDE)?;
    is_walked(alloc, &mut cursor, b"cde")
}

/// Cursors over these tables.
pub fn cursors_over<'a>(
    alloc: Global,
    tables: &[&'a [u8]],
) -> Result<Vec<TableCursor<'a, Bytewise>>, Fault> {
    let mut cursors = Vec::new(alloc);
    for bytes in tables {
        cursors.push(cursor_over(alloc, bytes)?)?;
    }
    Ok(cursors)
}

/// The cursors, merged as one.
fn taken<'a>(
    alloc: Global,
    cursors: &mut Vec<TableCursor<'a, Bytewise>>,
) -> Result<Merging<Bytewise, TableCursor<'a, Bytewise>>, Fault> {
    let count = cursors.len();
    let answer = Merging::take(alloc, cursors);
    if !is_memory(&answer) {
        return answer;
    }
    wanted(cursors.len() == count)?;
    Merging::take(alloc, cursors)
}

/// Three cursors, merged as one over `a`, `a`, `b`, `c`, `c`, `d`, `e` and `f`.
pub fn merged(alloc: Global) -> Result<bool, Fault> {
    let mut cursors = cursors_over(alloc, &[TABLE_ACE, TABLE_BD, TABLE_ACF])?;
    let mut merging = taken(alloc, &mut cursors)?;
    is_walked(alloc, &mut merging, b"ccdef")
}

/// The user keys of a table's entries, and those of them that a seek, or the merge of a range,
/// leaves.
pub type Left<'l> = (&'l [u8], &'l [u8]);

/// What a seek of `c` leaves of three tables.
const SOUGHT: &[Left<'static>] = &[(b"ace", b"ce"), (b"bd", b"d"), (b"acf", b"cf")];

/// Whether a cursor has just the entries that are left; if memory was refused, maybe the last of
/// those before them too.
fn is_left<'a, S: Cursor<'a, Bytewise>>(
    alloc: Global,
    cursor: &mut S,
    (whole, kept): Left<'_>,
    was_refused: bool,
) -> Result<bool, Fault> {
    let users = users_left(alloc, cursor)?;
    if was_refused {
        return Ok(whole.ends_with(users.as_slice()) && users.ends_with(kept));
    }
    Ok(users.as_slice() == kept)
}

/// Whether that holds of each of these cursors. It takes them to their ends.
pub fn are_left(
    alloc: Global,
    cursors: &mut Vec<TableCursor<'_, Bytewise>>,
    lefts: &[Left<'_>],
    was_refused: bool,
) -> Result<bool, Fault> {
    for place in 0..lefts.len() {
        let Some(cursor) = cursors.get_mut(place) else {
            return Ok(false);
        };
        if !is_left(alloc, cursor, lefts[place], was_refused)? {
            return Ok(false);
        }
    }
    Ok(cursors.len() == lefts.len())
}

/// Three cursors, sought as one, and given back.
pub fn sought(alloc: Global) -> Result<bool, Fault> {
    let cursors = cursors_over(alloc, &[TABLE_ACE, TABLE_BD, TABLE_ACF])?;
    let mut merging = Merging::<Bytewise, _>::new(alloc, cursors)?;
    let answer = merging.seek(InternalKey::parse(&C_AT_ONE)?);
    let mut cursors = merging.into_cursors();
    wanted(are_left(alloc, &mut cursors, SOUGHT, is_memory(&answer))?)?;
    answer?;
    Ok(true)
}

/// Whether a cursor's entry is this one. It takes no memory.
fn is_at(alloc: Global, cursor: &BlockCursor<'_>, key: &[u8; 9], value: &[u8; 1]) -> bool {
    forbid(alloc);
    let is_at = cursor.valid()
        && cursor.key() == key.as_slice()
        && cursor.value() == value.as_slice();
    allow(alloc);
    is_at
}

/// Takes a cursor past this entry. Lawless if it has another or none.
fn pass(
    alloc: Global,
    cursor: &mut BlockCursor<'_>,
    key: &[u8; 9],
    value: &[u8; 1],
) -> Result<(), Fault> {
    if !cursor.valid() || !is_at(alloc, cursor, key, value) {
        return Err(Fault::of(FaultName::Lawless));
    }
    let answer = cursor.advance();
    if !is_memory(&answer) {
        return answer;
    }
    if !cursor.valid() || !is_at(alloc, cursor, key, value) {
        return Err(Fault::of(FaultName::Lawless));
    }
    cursor.advance()
}

/// The worked block, walked.
pub fn block_walked(alloc: Global) -> Result<bool, Fault> {
    let block = block::check(BLOCK)?;
    let mut cursor = BlockCursor::new(alloc, &block)?;
    pass(alloc, &mut cursor, &A_AT_TWO, b"x")?;
    pass(alloc, &mut cursor, &A_AT_ONE, b"y")?;
    Ok(!cursor.valid() && block.restarts() == 1)
}
