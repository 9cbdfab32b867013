use crate::compact_tests::tables::A;
use crate::tested_tables::push_cursors;
use ikey::Bytewise;
use merge::{Merging, least_place, merge_law, union_law};
use std::alloc::Global;
use std::process::Abort;
use std::test::*;
use table::{Cursor, TableCursor};

/// `table: u@5 put 1`
const U: &[u8] = b"\
    \0\x09\x01u\x01\x05\0\0\0\0\0\01\0\0\0\0\x01\0\0\0\0\xd0\xc7\xc9\x90\0\0\0\0\x01\0\0\0\0\xc0\
    \xf2\xa1\xb0\0\x09\x02u\x01\x05\0\0\0\0\0\0\0\x15\0\0\0\0\x01\0\0\0\0\xf6U\x18\x14\x1a\x08\x27\
    \x16\0\0\0\0\0\0\0\0\0\0\0\0\0\0\0\0\0\0\0\0\0\0\0\0\0\0\0\0\0\0\0\0\0\0\0\0W\xfb\x80\x8b\x24u\
    G\xdb";

/// `table: u@9 put 2`
const NEWER_U: &[u8] = b"\
    \0\x09\x01u\x01\x09\0\0\0\0\0\02\0\0\0\0\x01\0\0\0\0\xaf\x5c\xd8\xad\0\0\0\0\x01\0\0\0\0\xc0\
    \xf2\xa1\xb0\0\x09\x02u\x01\x09\0\0\0\0\0\0\0\x15\0\0\0\0\x01\0\0\0\0\x9e\xd1\0\xe5\x1a\x08\
    \x27\x16\0\0\0\0\0\0\0\0\0\0\0\0\0\0\0\0\0\0\0\0\0\0\0\0\0\0\0\0\0\0\0\0\0\0\0\0W\xfb\x80\x8b\
    \x24uG\xdb";

/// `table: u@5 put 3`
const OTHER_U: &[u8] = b"\
    \0\x09\x01u\x01\x05\0\0\0\0\0\03\0\0\0\0\x01\0\0\0\0Q\xe5\xb4\x8f\0\0\0\0\x01\0\0\0\0\xc0\xf2\
    \xa1\xb0\0\x09\x02u\x01\x05\0\0\0\0\0\0\0\x15\0\0\0\0\x01\0\0\0\0\xf6U\x18\x14\x1a\x08\x27\x16\
    \0\0\0\0\0\0\0\0\0\0\0\0\0\0\0\0\0\0\0\0\0\0\0\0\0\0\0\0\0\0\0\0\0\0\0\0W\xfb\x80\x8b\x24uG\
    \xdb";

/// `table: a@1 put 1, c@1 put 1, e@1 put 1`
const ACE: &[u8] = b"\
    \0\x09\x01a\x01\x01\0\0\0\0\0\01\0\x09\x01c\x01\x01\0\0\0\0\0\01\0\x09\x01e\x01\x01\0\0\0\0\0\
    \01\0\0\0\0\x01\0\0\0\0\x7dL\xfce\0\0\0\0\x01\0\0\0\0\xc0\xf2\xa1\xb0\0\x09\x02e\x01\x01\0\0\0\
    \0\0\0\0\x2f\0\0\0\0\x01\0\0\0\0\xe9S\x0e\x104\x08A\x16\0\0\0\0\0\0\0\0\0\0\0\0\0\0\0\0\0\0\0\
    \0\0\0\0\0\0\0\0\0\0\0\0\0\0\0\0\0W\xfb\x80\x8b\x24uG\xdb";

/// `table: b@1 put 2, d@1 put 2`
const BD: &[u8] = b"\
    \0\x09\x01b\x01\x01\0\0\0\0\0\02\0\x09\x01d\x01\x01\0\0\0\0\0\02\0\0\0\0\x01\0\0\0\04\xa8\x8d\
    \x85\0\0\0\0\x01\0\0\0\0\xc0\xf2\xa1\xb0\0\x09\x02d\x01\x01\0\0\0\0\0\0\0\x22\0\0\0\0\x01\0\0\
    \0\0\x2dE\x2b\xeb\x27\x084\x16\0\0\0\0\0\0\0\0\0\0\0\0\0\0\0\0\0\0\0\0\0\0\0\0\0\0\0\0\0\0\0\0\
    \0\0\0\0W\xfb\x80\x8b\x24uG\xdb";

/// `table: a@1 put 3, c@1 put 3, f@1 put 3`
const ACF: &[u8] = b"\
    \0\x09\x01a\x01\x01\0\0\0\0\0\03\0\x09\x01c\x01\x01\0\0\0\0\0\03\0\x09\x01f\x01\x01\0\0\0\0\0\
    \03\0\0\0\0\x01\0\0\0\0\xf2\xac1L\0\0\0\0\x01\0\0\0\0\xc0\xf2\xa1\xb0\0\x09\x02f\x01\x01\0\0\0\
    \0\0\0\0\x2f\0\0\0\0\x01\0\0\0\0q\xc5\x88\xfe4\x08A\x16\0\0\0\0\0\0\0\0\0\0\0\0\0\0\0\0\0\0\0\
    \0\0\0\0\0\0\0\0\0\0\0\0\0\0\0\0\0W\xfb\x80\x8b\x24uG\xdb";

/// Tables of one entry each.
const ONE_EACH: &[&[u8]] = &[U, A, NEWER_U, OTHER_U];

/// The cursors over lists of tables.
fn cursors(
    rt: &impl Abort,
    alloc: Global,
    lists: &[&[&'static [u8]]],
) -> Vec<TableCursor<'static, Bytewise>> {
    let mut cursors = Vec::new(alloc);
    for tables in lists {
        push_cursors(rt, alloc, &mut cursors, *tables);
    }
    cursors
}

/// Whether a user key and a value are of one byte each, and these.
fn are(user: &[u8], value: &[u8], pair: &[u8; 2]) -> bool {
    user == [pair[0]].as_slice() && value == [pair[1]].as_slice()
}

/// Takes a cursor past its entry. Whether that has this user key and value.
fn goes<'a, S: Cursor<'a, Bytewise>>(rt: &impl Abort, cursor: &mut S, pair: &[u8; 2]) -> bool {
    if !cursor.valid() {
        return false;
    }
    let is_this = are(cursor.key().user(), cursor.value(), pair);
    cursor.advance().expect(rt, "memory");
    is_this
}

/// Whether a cursor begins with these user keys and values, each key before its value. It is taken
/// past them.
fn begins<'a, S: Cursor<'a, Bytewise>>(rt: &impl Abort, cursor: &mut S, walked: &[u8]) -> bool {
    let (pairs, _) = walked.as_chunks::<2>();
    for pair in pairs {
        if !goes(rt, cursor, pair) {
            return false;
        }
    }
    true
}

/// Lists of tables, the entries with which all of them together begin, and the place of the cursor
/// that comes next, if one has an entry left.
struct Row {
    name: &'static str,
    lists: &'static [&'static [&'static [u8]]],
    walked: &'static [u8],
    next: Option<usize>,
}

const ROWS: &[Row] = &[
    Row {
        name: "no cursor",
        lists: &[],
        walked: b"",
        next: None,
    },
    Row {
        name: "one cursor",
        lists: &[&[ACE]],
        walked: b"a1c1e1",
        next: None,
    },
    Row {
        name: "one key in the order of the cursors",
        lists: &[&[ACE, BD, ACF]],
        walked: b"a1a3b2c1c3d2e1f3",
        next: None,
    },
    Row {
        name: "cursors that are given back where they stand",
        lists: &[&[ACE, BD, ACF]],
        walked: b"a1a3b2c1c3",
        next: Some(1),
    },
    Row {
        name: "as many cursors as a compaction may have, of one entry each",
        lists: &[ONE_EACH; 64],
        walked: b"axaxaxaxaxaxaxaxaxaxaxaxaxaxaxaxaxaxaxaxaxaxaxaxaxaxaxaxaxaxaxaxaxaxaxaxaxaxaxaxa\
            xaxaxaxaxaxaxaxaxaxaxaxaxaxaxaxaxaxaxaxaxaxaxaxu2u2u2u2u2u2u2u2u2u2u2u2u2u2u2u2u2u2u2u2\
            u2u2u2u2u2u2u2u2u2u2u2u2u2u2u2u2u2u2u2u2u2u2u2u2u2u2u2u2u2u2u2u2u2u2u2u2u2u2u2u2u2u2u2u\
            2u1u3u1u3u1u3u1u3u1u3u1u3u1u3u1u3u1u3u1u3u1u3u1u3u1u3u1u3u1u3u1u3u1u3u1u3u1u3u1u3u1u3u1\
            u3u1u3u1u3u1u3u1u3u1u3u1u3u1u3u1u3u1u3u1u3u1u3u1u3u1u3u1u3u1u3u1u3u1u3u1u3u1u3u1u3u1u3u\
            1u3u1u3u1u3u1u3u1u3u1u3u1u3u1u3u1u3u1u3u1u3u1u3u1u3u1u3u1u3u1u3u1u3u1u3u1u3u1u3u1u3",
        next: None,
    },
];

/// Whether tables merged as one are walked so.
fn is_walked(rt: &impl Abort, alloc: Global, row: &Row) -> bool {
    let mut merging = Merging::new(alloc, cursors(rt, alloc, row.lists)).expect(rt, "memory");
    let is_begun = begins(rt, &mut merging, row.walked);
    let place = merging.place();
    let cursors = merging.into_cursors();
    is_begun && place == row.next && least_place::<Bytewise, _>(&cursors) == row.next
}

#[test]
fn cursors_are_walked_as_one(rt: HostRuntime) {
    merge_law::<Bytewise>();
    union_law::<Bytewise>();
    for row in ROWS {
        assert!(rt; is_walked(&rt, rt.alloc(), row), "{}", row.name);
    }
}
