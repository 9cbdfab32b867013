//! Tables that are written, read, walked and sought. The bytes are made from the texts above them,
//! except those of one table that LevelDB wrote.

use ikey::{Bytewise, InternalKey};
use std::alloc::Global;
use std::process::Abort;
use std::test::*;
use table::{
    Cursor, KeyList, MAX_VALUE_LEN, Options, OwnedTable, SoundTable, TableBuilder, TableCursor,
    check,
};

/// `table: a@1 put x`
const ONE_ENTRY: &[u8] = b"\
    \0\x09\x01a\x01\x01\0\0\0\0\0\0x\0\0\0\0\x01\0\0\0\0\x84\xdd\x88t\0\0\0\0\x01\0\0\0\0\xc0\
    \xf2\xa1\xb0\0\x09\x02a\x01\x01\0\0\0\0\0\0\0\x15\0\0\0\0\x01\0\0\0\06I\x25\xbf\x1a\x08\x27\
    \x16\0\0\0\0\0\0\0\0\0\0\0\0\0\0\0\0\0\0\0\0\0\0\0\0\0\0\0\0\0\0\0\0\0\0\0\0W\xfb\x80\x8b\
    \x24uG\xdb";

/// `table: u@4 del, u@2 put x`
const TWO_ENTRIES: &[u8] = b"\
    \0\x09\0u\0\x04\0\0\0\0\0\0\x01\x08\x01\x01\x02\0\0\0\0\0\0x\0\0\0\0\x01\0\0\0\0\xef\xe0\xe5\
    \x28\0\0\0\0\x01\0\0\0\0\xc0\xf2\xa1\xb0\0\x09\x02u\x01\x02\0\0\0\0\0\0\0\x20\0\0\0\0\x01\0\
    \0\0\0\x0a\xb0\x5c\x0c\x25\x082\x16\0\0\0\0\0\0\0\0\0\0\0\0\0\0\0\0\0\0\0\0\0\0\0\0\0\0\0\0\
    \0\0\0\0\0\0\0\0W\xfb\x80\x8b\x24uG\xdb";

/// `table: abcz@9 put x | abfa@8 put y`
const TWO_BLOCKS: &[u8] = b"\
    \0\x0c\x01abcz\x01\x09\0\0\0\0\0\0x\0\0\0\0\x01\0\0\0\0\xaf\x09\xa4\xac\0\x0c\x01abfa\x01\
    \x08\0\0\0\0\0\0y\0\0\0\0\x01\0\0\0\0y\x97\xbd\xa3\0\0\0\0\x01\0\0\0\0\xc0\xf2\xa1\xb0\0\x0b\
    \x02abd\x01\xff\xff\xff\xff\xff\xff\xff\0\x18\0\x09\x02b\x01\xff\xff\xff\xff\xff\xff\xff\x1d\
    \x18\0\0\0\0\x10\0\0\0\x02\0\0\0\0\x7f6J4\x3a\x08G\x2a\0\0\0\0\0\0\0\0\0\0\0\0\0\0\0\0\0\0\0\
    \0\0\0\0\0\0\0\0\0\0\0\0\0\0\0\0\0W\xfb\x80\x8b\x24uG\xdb";

/// The internal key and the value of an entry, and the bytes of the flushed blocks after it; None
/// if its key isn't above the last one.
type Row = (&'static [u8], &'static [u8], Option<u64>);

/// The block size, the entries of a table, and its bytes.
type Written = (u64, &'static [Row], &'static [u8]);

const WRITTEN: &[Written] = &[
    (
        4_096,
        &[(b"a\x01\x01\0\0\0\0\0\0", b"x", Some(0))],
        ONE_ENTRY,
    ),
    (
        4_096,
        &[
            (b"u\0\x04\0\0\0\0\0\0", b"", Some(0)),
            (b"u\0\x04\0\0\0\0\0\0", b"", None),
            (b"u\x01\x02\0\0\0\0\0\0", b"x", Some(0)),
        ],
        TWO_ENTRIES,
    ),
    // Each entry has its own block.
    (
        1,
        &[
            (b"abcz\x01\x09\0\0\0\0\0\0", b"x", Some(29)),
            (b"abfa\x01\x08\0\0\0\0\0\0", b"y", Some(58)),
        ],
        TWO_BLOCKS,
    ),
];

/// Adds an entry to a table, and answers the bytes of the flushed blocks. None if its key isn't
/// above the last one; then nothing is added.
fn added(
    rt: &impl Abort,
    table: &mut TableBuilder<Bytewise>,
    key: &[u8],
    value: &[u8],
) -> Option<u64> {
    let key = InternalKey::parse(key).expect(rt, "a key");
    if !table.is_above_last(&key) || value.len() > MAX_VALUE_LEN {
        return None;
    }
    table.add(key, value).expect(rt, "memory");
    Some(table.flushed())
}

/// Whether a table is written so.
fn is_written(rt: &impl Abort, alloc: Global, wanted: &Written) -> bool {
    let options = Options {
        block_size: wanted.0,
        ..Options::default()
    };
    if !options.are_in_limits() {
        return false;
    }
    let mut table = TableBuilder::<Bytewise>::new(alloc, options);
    for (key, value, flushed) in wanted.1 {
        if added(rt, &mut table, key, value) != *flushed {
            return false;
        }
    }
    table.finish().expect(rt, "memory").as_slice() == wanted.2
}

#[test]
fn tables_are_written(rt: HostRuntime) {
    for wanted in WRITTEN {
        assert!(rt; is_written(&rt, rt.alloc(), wanted), "{:?}", wanted.1);
    }
}

/// `table: a@1 put v | b@1 put v | c@1 put v | d@1 put v | e@1 put v`
const FIVE: &[u8] = b"\
    \0\x09\x01a\x01\x01\0\0\0\0\0\0v\0\0\0\0\x01\0\0\0\0\x1a\x0a\xe3\x8e\0\x09\x01b\x01\x01\0\0\
    \0\0\0\0v\0\0\0\0\x01\0\0\0\0\xd9lTN\0\x09\x01c\x01\x01\0\0\0\0\0\0v\0\0\0\0\x01\0\0\0\0O\
    \xdb\xa1\xd4\0\x09\x01d\x01\x01\0\0\0\0\0\0v\0\0\0\0\x01\0\0\0\07\x9e\xd5k\0\x09\x01e\x01\
    \x01\0\0\0\0\0\0v\0\0\0\0\x01\0\0\0\0\x01\xac\x20\xf3\0\0\0\0\x01\0\0\0\0\xc0\xf2\xa1\xb0\0\
    \x09\x02a\x01\x01\0\0\0\0\0\0\0\x15\0\x09\x02b\x01\x01\0\0\0\0\0\0\x1a\x15\0\x09\x02c\x01\
    \x01\0\0\0\0\0\04\x15\0\x09\x02d\x01\x01\0\0\0\0\0\0N\x15\0\x09\x02e\x01\x01\0\0\0\0\0\0h\
    \x15\0\0\0\0\x0e\0\0\0\x1c\0\0\0\x2a\0\0\08\0\0\0\x05\0\0\0\0\x3c\x0e\xb2\x3f\x82\x01\x08\
    \x8f\x01\x5e\0\0\0\0\0\0\0\0\0\0\0\0\0\0\0\0\0\0\0\0\0\0\0\0\0\0\0\0\0\0\0\0\0\0W\xfb\x80\
    \x8b\x24uG\xdb";

/// `table: 0@1 put v, 1@1 put v, 2@1 put v, 3@1 put v, 4@1 put v, 5@1 put v, 6@1 put v, 7@1 put v,
/// 8@1 put v, 9@1 put v, A@1 put v, B@1 put v, C@1 put v, D@1 put v, E@1 put v, F@1 put v, G@1 put
/// v, H@1 put v, I@1 put v, J@1 put v, K@1 put v, L@1 put v, M@1 put v, N@1 put v, O@1 put v, P@1
/// put v, Q@1 put v, R@1 put v, S@1 put v, T@1 put v, U@1 put v, V@1 put v, W@1 put v, X@1 put v,
/// Y@1 put v, Z@1 put v, a@1 put v, b@1 put v, c@1 put v, d@1 put v`
const FORTY: &[u8] = b"\
    \0\x09\x010\x01\x01\0\0\0\0\0\0v\0\x09\x011\x01\x01\0\0\0\0\0\0v\0\x09\x012\x01\x01\0\0\0\0\
    \0\0v\0\x09\x013\x01\x01\0\0\0\0\0\0v\0\x09\x014\x01\x01\0\0\0\0\0\0v\0\x09\x015\x01\x01\0\0\
    \0\0\0\0v\0\x09\x016\x01\x01\0\0\0\0\0\0v\0\x09\x017\x01\x01\0\0\0\0\0\0v\0\x09\x018\x01\x01\
    \0\0\0\0\0\0v\0\x09\x019\x01\x01\0\0\0\0\0\0v\0\x09\x01A\x01\x01\0\0\0\0\0\0v\0\x09\x01B\x01\
    \x01\0\0\0\0\0\0v\0\x09\x01C\x01\x01\0\0\0\0\0\0v\0\x09\x01D\x01\x01\0\0\0\0\0\0v\0\x09\x01E\
    \x01\x01\0\0\0\0\0\0v\0\x09\x01F\x01\x01\0\0\0\0\0\0v\0\x09\x01G\x01\x01\0\0\0\0\0\0v\0\x09\
    \x01H\x01\x01\0\0\0\0\0\0v\0\x09\x01I\x01\x01\0\0\0\0\0\0v\0\x09\x01J\x01\x01\0\0\0\0\0\0v\0\
    \x09\x01K\x01\x01\0\0\0\0\0\0v\0\x09\x01L\x01\x01\0\0\0\0\0\0v\0\x09\x01M\x01\x01\0\0\0\0\0\
    \0v\0\x09\x01N\x01\x01\0\0\0\0\0\0v\0\x09\x01O\x01\x01\0\0\0\0\0\0v\0\x09\x01P\x01\x01\0\0\0\
    \0\0\0v\0\x09\x01Q\x01\x01\0\0\0\0\0\0v\0\x09\x01R\x01\x01\0\0\0\0\0\0v\0\x09\x01S\x01\x01\0\
    \0\0\0\0\0v\0\x09\x01T\x01\x01\0\0\0\0\0\0v\0\x09\x01U\x01\x01\0\0\0\0\0\0v\0\x09\x01V\x01\
    \x01\0\0\0\0\0\0v\0\x09\x01W\x01\x01\0\0\0\0\0\0v\0\x09\x01X\x01\x01\0\0\0\0\0\0v\0\x09\x01Y\
    \x01\x01\0\0\0\0\0\0v\0\x09\x01Z\x01\x01\0\0\0\0\0\0v\0\x09\x01a\x01\x01\0\0\0\0\0\0v\0\x09\
    \x01b\x01\x01\0\0\0\0\0\0v\0\x09\x01c\x01\x01\0\0\0\0\0\0v\0\x09\x01d\x01\x01\0\0\0\0\0\0v\0\
    \0\0\0\xd0\0\0\0\xa0\x01\0\0\x03\0\0\0\0\x09\xf5mN\0\0\0\0\x01\0\0\0\0\xc0\xf2\xa1\xb0\0\x09\
    \x03d\x01\x01\0\0\0\0\0\0\0\x98\x04\0\0\0\0\x01\0\0\0\0\xaf\xbf\xa6\xce\x9d\x04\x08\xaa\x04\
    \x17\0\0\0\0\0\0\0\0\0\0\0\0\0\0\0\0\0\0\0\0\0\0\0\0\0\0\0\0\0\0\0\0\0\0W\xfb\x80\x8b\x24uG\
    \xdb";

/// A table, internal keys sought one after the other, and the user keys left.
type Sought = (&'static [u8], &'static [&'static [u8]], &'static [u8]);

const SOUGHT: &[Sought] = &[
    (FIVE, &[], b"abcde"),
    (FIVE, &[b"c\x01\x01\0\0\0\0\0\0"], b"cde"),
    // Of one user key the greater sequence comes first.
    (FIVE, &[b"c\x01\0\0\0\0\0\0\0"], b"de"),
    (
        FIVE,
        &[b"c\x01\0\0\0\0\0\0\0", b"a\x01\x01\0\0\0\0\0\0"],
        b"de",
    ),
    (
        FIVE,
        &[
            b"c\x01\0\0\0\0\0\0\0",
            b"a\x01\x01\0\0\0\0\0\0",
            b"f\x01\x09\0\0\0\0\0\0",
        ],
        b"",
    ),
    (
        FORTY,
        &[b"G\x01\x01\0\0\0\0\0\0"],
        b"GHIJKLMNOPQRSTUVWXYZabcd",
    ),
    (FORTY, &[b"d\x01\x01\0\0\0\0\0\0"], b"d"),
];

/// The cursor over a table.
fn cursor_over<'a>(rt: &impl Abort, alloc: Global, bytes: &'a [u8]) -> TableCursor<'a, Bytewise> {
    let table = check::<Bytewise>(alloc, bytes).expect(rt, "a table");
    TableCursor::new(alloc, &table).expect(rt, "memory")
}

/// Seeks internal keys, one after the other.
fn seek_all(rt: &impl Abort, cursor: &mut TableCursor<'_, Bytewise>, targets: &[&[u8]]) {
    for target in targets {
        let key = InternalKey::parse(target).expect(rt, "a key");
        cursor.seek(key).expect(rt, "memory");
    }
}

/// Whether the entries left are of these user keys, each put at 1 with the value `v`. The cursor
/// ends after them.
fn has_users(rt: &impl Abort, cursor: &mut TableCursor<'_, Bytewise>, users: &[u8]) -> bool {
    for user in users {
        let key = [*user, 1, 1, 0, 0, 0, 0, 0, 0];
        if !cursor.valid()
            || cursor.key().bytes() != key.as_slice()
            || cursor.value() != b"v".as_slice()
        {
            return false;
        }
        cursor.advance().expect(rt, "memory");
    }
    !cursor.valid()
}

/// Whether these user keys are left of a table.
fn are_left(rt: &impl Abort, alloc: Global, wanted: &Sought) -> bool {
    let mut cursor = cursor_over(rt, alloc, wanted.0);
    seek_all(rt, &mut cursor, wanted.1);
    has_users(rt, &mut cursor, wanted.2)
}

/// Whether a table has the bytes of `FIVE`, and its bounds.
fn is_five(table: &SoundTable<'_, Bytewise>) -> bool {
    table.bytes() == FIVE
        && table.smallest().user() == b"a".as_slice()
        && table.largest().user() == b"e".as_slice()
}

/// Whether there are five user keys, the last of which is `e`.
fn are_users(users: &[Vec<u8>]) -> bool {
    match users.last() {
        Some(user) => users.len() == 5 && user.as_slice() == b"e".as_slice(),
        None => false,
    }
}

/// The same, of keys in one buffer.
fn are_keys(keys: &KeyList) -> bool {
    !keys.is_empty() && keys.len() == 5 && keys.get(4) == b"e".as_slice()
}

/// Whether the table of five entries is read as it is, with the user keys of its index.
fn is_read(rt: &impl Abort, alloc: Global) -> bool {
    let table = check::<Bytewise>(alloc, FIVE).expect(rt, "a table");
    let users = table.index_users(alloc).expect(rt, "memory");
    let keys = table.index_keys(alloc).expect(rt, "memory");
    is_five(&table) && are_users(&users) && are_keys(&keys)
}

/// Whether a table has the bytes of `FIVE`, its bounds, and is lent as what it is.
fn is_owned(rt: &impl Abort, alloc: Global, table: &OwnedTable<Bytewise>) -> bool {
    let lent = table.lend(alloc).expect(rt, "memory");
    table.bytes() == FIVE
        && table.smallest().user() == b"a".as_slice()
        && table.largest().user() == b"e".as_slice()
        && is_five(&lent)
}

/// Whether that table keeps its bytes and bounds.
fn is_lent(rt: &impl Abort, alloc: Global) -> bool {
    let bytes = Vec::from_slice(alloc, FIVE).expect(rt, "memory");
    let table = OwnedTable::<Bytewise>::check(alloc, bytes).expect(rt, "a table");
    is_owned(rt, alloc, &table)
}

#[test]
fn tables_are_read_and_sought(rt: HostRuntime) {
    assert!(rt; is_read(&rt, rt.alloc()) && is_lent(&rt, rt.alloc()));
    for wanted in SOUGHT {
        assert!(rt; are_left(&rt, rt.alloc(), wanted), "{:?}", wanted.1);
    }
}

/// A table of 160 entries that LevelDB 1.23 wrote, with blocks of 1,024 bytes and a restart at each
/// entry.
const OF_LEVELDB: &[u8] = b"\
    \0\x0d\0r0000\x01\x01\0\0\0\0\0\0\0\x0d\x01r0003\x01\x02\0\0\0\0\0\0z\0\x0d\x02r0006\x01\x03\
    \0\0\0\0\0\0zz\0\x0d\x03r0009\x01\x04\0\0\0\0\0\0zzz\0\x0d\0r0012\0\x05\0\0\0\0\0\0\0\x0d\
    \x05r0015\x01\x06\0\0\0\0\0\0zzzzz\0\x0d\x06r0018\x01\x07\0\0\0\0\0\0zzzzzz\0\x0d\0r0021\x01\
    \x08\0\0\0\0\0\0\0\x0d\x01r0024\x01\x09\0\0\0\0\0\0z\0\x0d\0r0027\0\x0a\0\0\0\0\0\0\0\x0d\
    \x03r0030\x01\x0b\0\0\0\0\0\0zzz\0\x0d\x04r0033\x01\x0c\0\0\0\0\0\0zzzz\0\x0d\x05r0036\x01\
    \x0d\0\0\0\0\0\0zzzzz\0\x0d\x06r0039\x01\x0e\0\0\0\0\0\0zzzzzz\0\x0d\0r0042\0\x0f\0\0\0\0\0\
    \0\0\x0d\x01r0045\x01\x10\0\0\0\0\0\0z\0\x0d\x02r0048\x01\x11\0\0\0\0\0\0zz\0\x0d\x03r0051\
    \x01\x12\0\0\0\0\0\0zzz\0\x0d\x04r0054\x01\x13\0\0\0\0\0\0zzzz\0\x0d\0r0057\0\x14\0\0\0\0\0\
    \0\0\x0d\x06r0060\x01\x15\0\0\0\0\0\0zzzzzz\0\x0d\0r0063\x01\x16\0\0\0\0\0\0\0\x0d\x01r0066\
    \x01\x17\0\0\0\0\0\0z\0\x0d\x02r0069\x01\x18\0\0\0\0\0\0zz\0\x0d\0r0072\0\x19\0\0\0\0\0\0\0\
    \x0d\x04r0075\x01\x1a\0\0\0\0\0\0zzzz\0\x0d\x05r0078\x01\x1b\0\0\0\0\0\0zzzzz\0\x0d\x06r0081\
    \x01\x1c\0\0\0\0\0\0zzzzzz\0\x0d\0r0084\x01\x1d\0\0\0\0\0\0\0\x0d\0r0087\0\x1e\0\0\0\0\0\0\0\
    \x0d\x02r0090\x01\x1f\0\0\0\0\0\0zz\0\x0d\x03r0093\x01\x20\0\0\0\0\0\0zzz\0\x0d\x04r0096\x01\
    \x21\0\0\0\0\0\0zzzz\0\x0d\x05r0099\x01\x22\0\0\0\0\0\0zzzzz\0\x0d\0r0102\0\x23\0\0\0\0\0\0\
    \0\x0d\0r0105\x01\x24\0\0\0\0\0\0\0\x0d\x01r0108\x01\x25\0\0\0\0\0\0z\0\x0d\x02r0111\x01\x26\
    \0\0\0\0\0\0zz\0\x0d\x03r0114\x01\x27\0\0\0\0\0\0zzz\0\x0d\0r0117\0\x28\0\0\0\0\0\0\0\x0d\
    \x05r0120\x01\x29\0\0\0\0\0\0zzzzz\0\x0d\x06r0123\x01\x2a\0\0\0\0\0\0zzzzzz\0\x0d\0r0126\x01\
    \x2b\0\0\0\0\0\0\0\x0d\x01r0129\x01\x2c\0\0\0\0\0\0z\0\x0d\0r0132\0\x2d\0\0\0\0\0\0\0\x0d\
    \x03r0135\x01.\0\0\0\0\0\0zzz\0\0\0\0\x10\0\0\0\x21\0\0\03\0\0\0F\0\0\0V\0\0\0k\0\0\0\x81\0\
    \0\0\x91\0\0\0\xa2\0\0\0\xb2\0\0\0\xc5\0\0\0\xd9\0\0\0\xee\0\0\0\x04\x01\0\0\x14\x01\0\0\x25\
    \x01\0\07\x01\0\0J\x01\0\0\x5e\x01\0\0n\x01\0\0\x84\x01\0\0\x94\x01\0\0\xa5\x01\0\0\xb7\x01\
    \0\0\xc7\x01\0\0\xdb\x01\0\0\xf0\x01\0\0\x06\x02\0\0\x16\x02\0\0\x26\x02\0\08\x02\0\0K\x02\0\
    \0\x5f\x02\0\0t\x02\0\0\x84\x02\0\0\x94\x02\0\0\xa5\x02\0\0\xb7\x02\0\0\xca\x02\0\0\xda\x02\
    \0\0\xef\x02\0\0\x05\x03\0\0\x15\x03\0\0\x26\x03\0\06\x03\0\0.\0\0\0\0\x8c\xeejy\0\x0d\x04r0\
    138\x01\x2f\0\0\0\0\0\0zzzz\0\x0d\x05r0141\x010\0\0\0\0\0\0zzzzz\0\x0d\x06r0144\x011\0\0\0\0\
    \0\0zzzzzz\0\x0d\0r0147\02\0\0\0\0\0\0\0\x0d\x01r0150\x013\0\0\0\0\0\0z\0\x0d\x02r0153\x014\
    \0\0\0\0\0\0zz\0\x0d\x03r0156\x015\0\0\0\0\0\0zzz\0\x0d\x04r0159\x016\0\0\0\0\0\0zzzz\0\x0d\
    \0r0162\07\0\0\0\0\0\0\0\x0d\x06r0165\x018\0\0\0\0\0\0zzzzzz\0\x0d\0r0168\x019\0\0\0\0\0\0\0\
    \x0d\x01r0171\x01\x3a\0\0\0\0\0\0z\0\x0d\x02r0174\x01\x3b\0\0\0\0\0\0zz\0\x0d\0r0177\0\x3c\0\
    \0\0\0\0\0\0\x0d\x04r0180\x01\x3d\0\0\0\0\0\0zzzz\0\x0d\x05r0183\x01\x3e\0\0\0\0\0\0zzzzz\0\
    \x0d\x06r0186\x01\x3f\0\0\0\0\0\0zzzzzz\0\x0d\0r0189\x01\x40\0\0\0\0\0\0\0\x0d\0r0192\0A\0\0\
    \0\0\0\0\0\x0d\x02r0195\x01B\0\0\0\0\0\0zz\0\x0d\x03r0198\x01C\0\0\0\0\0\0zzz\0\x0d\x04r0201\
    \x01D\0\0\0\0\0\0zzzz\0\x0d\x05r0204\x01E\0\0\0\0\0\0zzzzz\0\x0d\0r0207\0F\0\0\0\0\0\0\0\x0d\
    \0r0210\x01G\0\0\0\0\0\0\0\x0d\x01r0213\x01H\0\0\0\0\0\0z\0\x0d\x02r0216\x01I\0\0\0\0\0\0zz\
    \0\x0d\x03r0219\x01J\0\0\0\0\0\0zzz\0\x0d\0r0222\0K\0\0\0\0\0\0\0\x0d\x05r0225\x01L\0\0\0\0\
    \0\0zzzzz\0\x0d\x06r0228\x01M\0\0\0\0\0\0zzzzzz\0\x0d\0r0231\x01N\0\0\0\0\0\0\0\x0d\x01r0234\
    \x01O\0\0\0\0\0\0z\0\x0d\0r0237\0P\0\0\0\0\0\0\0\x0d\x03r0240\x01Q\0\0\0\0\0\0zzz\0\x0d\x04r\
    0243\x01R\0\0\0\0\0\0zzzz\0\x0d\x05r0246\x01S\0\0\0\0\0\0zzzzz\0\x0d\x06r0249\x01T\0\0\0\0\0\
    \0zzzzzz\0\x0d\0r0252\0U\0\0\0\0\0\0\0\x0d\x01r0255\x01V\0\0\0\0\0\0z\0\x0d\x02r0258\x01W\0\
    \0\0\0\0\0zz\0\x0d\x03r0261\x01X\0\0\0\0\0\0zzz\0\x0d\x04r0264\x01Y\0\0\0\0\0\0zzzz\0\x0d\0r\
    0267\0Z\0\0\0\0\0\0\0\x0d\x06r0270\x01\x5b\0\0\0\0\0\0zzzzzz\0\x0d\0r0273\x01\x5c\0\0\0\0\0\
    \0\0\0\0\0\x14\0\0\0\x29\0\0\0\x3f\0\0\0O\0\0\0\x60\0\0\0r\0\0\0\x85\0\0\0\x99\0\0\0\xa9\0\0\
    \0\xbf\0\0\0\xcf\0\0\0\xe0\0\0\0\xf2\0\0\0\x02\x01\0\0\x16\x01\0\0\x2b\x01\0\0A\x01\0\0Q\x01\
    \0\0a\x01\0\0s\x01\0\0\x86\x01\0\0\x9a\x01\0\0\xaf\x01\0\0\xbf\x01\0\0\xcf\x01\0\0\xe0\x01\0\
    \0\xf2\x01\0\0\x05\x02\0\0\x15\x02\0\0\x2a\x02\0\0\x40\x02\0\0P\x02\0\0a\x02\0\0q\x02\0\0\
    \x84\x02\0\0\x98\x02\0\0\xad\x02\0\0\xc3\x02\0\0\xd3\x02\0\0\xe4\x02\0\0\xf6\x02\0\0\x09\x03\
    \0\0\x1d\x03\0\0\x2d\x03\0\0C\x03\0\0.\0\0\0\0\xa5\x7f\x0e\x86\0\x0d\x01r0276\x01\x5d\0\0\0\
    \0\0\0z\0\x0d\x02r0279\x01\x5e\0\0\0\0\0\0zz\0\x0d\0r0282\0\x5f\0\0\0\0\0\0\0\x0d\x04r0285\
    \x01\x60\0\0\0\0\0\0zzzz\0\x0d\x05r0288\x01a\0\0\0\0\0\0zzzzz\0\x0d\x06r0291\x01b\0\0\0\0\0\
    \0zzzzzz\0\x0d\0r0294\x01c\0\0\0\0\0\0\0\x0d\0r0297\0d\0\0\0\0\0\0\0\x0d\x02r0300\x01e\0\0\0\
    \0\0\0zz\0\x0d\x03r0303\x01f\0\0\0\0\0\0zzz\0\x0d\x04r0306\x01g\0\0\0\0\0\0zzzz\0\x0d\x05r03\
    09\x01h\0\0\0\0\0\0zzzzz\0\x0d\0r0312\0i\0\0\0\0\0\0\0\x0d\0r0315\x01j\0\0\0\0\0\0\0\x0d\x01\
    r0318\x01k\0\0\0\0\0\0z\0\x0d\x02r0321\x01l\0\0\0\0\0\0zz\0\x0d\x03r0324\x01m\0\0\0\0\0\0zzz\
    \0\x0d\0r0327\0n\0\0\0\0\0\0\0\x0d\x05r0330\x01o\0\0\0\0\0\0zzzzz\0\x0d\x06r0333\x01p\0\0\0\
    \0\0\0zzzzzz\0\x0d\0r0336\x01q\0\0\0\0\0\0\0\x0d\x01r0339\x01r\0\0\0\0\0\0z\0\x0d\0r0342\0s\
    \0\0\0\0\0\0\0\x0d\x03r0345\x01t\0\0\0\0\0\0zzz\0\x0d\x04r0348\x01u\0\0\0\0\0\0zzzz\0\x0d\
    \x05r0351\x01v\0\0\0\0\0\0zzzzz\0\x0d\x06r0354\x01w\0\0\0\0\0\0zzzzzz\0\x0d\0r0357\0x\0\0\0\
    \0\0\0\0\x0d\x01r0360\x01y\0\0\0\0\0\0z\0\x0d\x02r0363\x01z\0\0\0\0\0\0zz\0\x0d\x03r0366\x01\
    \x7b\0\0\0\0\0\0zzz\0\x0d\x04r0369\x01\x7c\0\0\0\0\0\0zzzz\0\x0d\0r0372\0\x7d\0\0\0\0\0\0\0\
    \x0d\x06r0375\x01\x7e\0\0\0\0\0\0zzzzzz\0\x0d\0r0378\x01\x7f\0\0\0\0\0\0\0\x0d\x01r0381\x01\
    \x80\0\0\0\0\0\0z\0\x0d\x02r0384\x01\x81\0\0\0\0\0\0zz\0\x0d\0r0387\0\x82\0\0\0\0\0\0\0\x0d\
    \x04r0390\x01\x83\0\0\0\0\0\0zzzz\0\x0d\x05r0393\x01\x84\0\0\0\0\0\0zzzzz\0\x0d\x06r0396\x01\
    \x85\0\0\0\0\0\0zzzzzz\0\x0d\0r0399\x01\x86\0\0\0\0\0\0\0\x0d\0r0402\0\x87\0\0\0\0\0\0\0\x0d\
    \x02r0405\x01\x88\0\0\0\0\0\0zz\0\x0d\x03r0408\x01\x89\0\0\0\0\0\0zzz\0\x0d\x04r0411\x01\x8a\
    \0\0\0\0\0\0zzzz\0\0\0\0\x11\0\0\0\x23\0\0\03\0\0\0G\0\0\0\x5c\0\0\0r\0\0\0\x82\0\0\0\x92\0\
    \0\0\xa4\0\0\0\xb7\0\0\0\xcb\0\0\0\xe0\0\0\0\xf0\0\0\0\0\x01\0\0\x11\x01\0\0\x23\x01\0\06\
    \x01\0\0F\x01\0\0\x5b\x01\0\0q\x01\0\0\x81\x01\0\0\x92\x01\0\0\xa2\x01\0\0\xb5\x01\0\0\xc9\
    \x01\0\0\xde\x01\0\0\xf4\x01\0\0\x04\x02\0\0\x15\x02\0\0\x27\x02\0\0\x3a\x02\0\0N\x02\0\0\
    \x5e\x02\0\0t\x02\0\0\x84\x02\0\0\x95\x02\0\0\xa7\x02\0\0\xb7\x02\0\0\xcb\x02\0\0\xe0\x02\0\
    \0\xf6\x02\0\0\x06\x03\0\0\x16\x03\0\0\x28\x03\0\0\x3b\x03\0\0.\0\0\0\0\x14Q\x0b\xef\0\x0d\
    \x05r0414\x01\x8b\0\0\0\0\0\0zzzzz\0\x0d\0r0417\0\x8c\0\0\0\0\0\0\0\x0d\0r0420\x01\x8d\0\0\0\
    \0\0\0\0\x0d\x01r0423\x01\x8e\0\0\0\0\0\0z\0\x0d\x02r0426\x01\x8f\0\0\0\0\0\0zz\0\x0d\x03r04\
    29\x01\x90\0\0\0\0\0\0zzz\0\x0d\0r0432\0\x91\0\0\0\0\0\0\0\x0d\x05r0435\x01\x92\0\0\0\0\0\0z\
    zzzz\0\x0d\x06r0438\x01\x93\0\0\0\0\0\0zzzzzz\0\x0d\0r0441\x01\x94\0\0\0\0\0\0\0\x0d\x01r044\
    4\x01\x95\0\0\0\0\0\0z\0\x0d\0r0447\0\x96\0\0\0\0\0\0\0\x0d\x03r0450\x01\x97\0\0\0\0\0\0zzz\
    \0\x0d\x04r0453\x01\x98\0\0\0\0\0\0zzzz\0\x0d\x05r0456\x01\x99\0\0\0\0\0\0zzzzz\0\x0d\x06r04\
    59\x01\x9a\0\0\0\0\0\0zzzzzz\0\x0d\0r0462\0\x9b\0\0\0\0\0\0\0\x0d\x01r0465\x01\x9c\0\0\0\0\0\
    \0z\0\x0d\x02r0468\x01\x9d\0\0\0\0\0\0zz\0\x0d\x03r0471\x01\x9e\0\0\0\0\0\0zzz\0\x0d\x04r047\
    4\x01\x9f\0\0\0\0\0\0zzzz\0\x0d\0r0477\0\xa0\0\0\0\0\0\0\0\0\0\0\x15\0\0\0\x25\0\0\05\0\0\0F\
    \0\0\0X\0\0\0k\0\0\0\x7b\0\0\0\x90\0\0\0\xa6\0\0\0\xb6\0\0\0\xc7\0\0\0\xd7\0\0\0\xea\0\0\0\
    \xfe\0\0\0\x13\x01\0\0\x29\x01\0\09\x01\0\0J\x01\0\0\x5c\x01\0\0o\x01\0\0\x83\x01\0\0\x16\0\
    \0\0\0\x94Pi\x7e\0\0\0\0\x01\0\0\0\0\xc0\xf2\xa1\xb0\0\x0d\x03r0135\x01.\0\0\0\0\0\0\0\x85\
    \x08\0\x0d\x04r0273\x01\x5c\0\0\0\0\0\0\x8a\x08\x8f\x08\0\x0d\x04r0411\x01\x8a\0\0\0\0\0\0\
    \x9e\x10\x8b\x08\0\x09\x04s\x01\xff\xff\xff\xff\xff\xff\xff\xae\x18\xef\x03\0\0\0\0\x13\0\0\
    \0\x27\0\0\0\x3b\0\0\0\x04\0\0\0\0\xb5\xb1\x2b\xa5\xa2\x1c\x08\xaf\x1c\x5f\0\0\0\0\0\0\0\0\0\
    \0\0\0\0\0\0\0\0\0\0\0\0\0\0\0\0\0\0\0\0\0\0\0\0\0W\xfb\x80\x8b\x24uG\xdb";

/// The options that it was written with.
const OPTIONS: Options = Options {
    block_size: 1_024,
    restart_interval: 1,
    file_size: 2_097_152,
};

/// How many entries it has.
const ENTRIES: usize = 160;

/// Takes a cursor past its entry, and adds that to a table. Whether there was one, and it could be
/// added.
fn is_moved(
    rt: &impl Abort,
    table: &mut TableBuilder<Bytewise>,
    cursor: &mut TableCursor<'_, Bytewise>,
) -> bool {
    if !cursor.valid() {
        return false;
    }
    let answer = added(rt, table, cursor.key().bytes(), cursor.value());
    cursor.advance().expect(rt, "memory");
    answer.is_some()
}

/// Whether all entries of a cursor are moved to a table.
fn are_moved(
    rt: &impl Abort,
    table: &mut TableBuilder<Bytewise>,
    cursor: &mut TableCursor<'_, Bytewise>,
) -> bool {
    for _entry in 0..ENTRIES {
        if !is_moved(rt, table, cursor) {
            return false;
        }
    }
    !cursor.valid()
}

/// Whether the table of the entries of LevelDB's table is that table.
fn is_built_again(rt: &impl Abort, alloc: Global) -> bool {
    if !OPTIONS.are_in_limits() {
        return false;
    }
    let mut cursor = cursor_over(rt, alloc, OF_LEVELDB);
    let mut table = TableBuilder::<Bytewise>::new(alloc, OPTIONS);
    are_moved(rt, &mut table, &mut cursor)
        && table.finish().expect(rt, "memory").as_slice() == OF_LEVELDB
}

#[test]
fn a_table_of_leveldb_is_built_again(rt: HostRuntime) {
    assert!(rt; is_built_again(&rt, rt.alloc()));
}

/// `table: u@4 put x, u@4 del`
const TWINS: &[u8] = b"\
    \0\x09\x01u\x01\x04\0\0\0\0\0\0x\x01\x08\0\0\x04\0\0\0\0\0\0\0\0\0\0\x01\0\0\0\0u\xa6\xf2\x85\
    \0\0\0\0\x01\0\0\0\0\xc0\xf2\xa1\xb0\0\x09\x02u\0\x04\0\0\0\0\0\0\0\x20\0\0\0\0\x01\0\0\0\0\
    \x80\xdce\x8c\x25\x082\x16\0\0\0\0\0\0\0\0\0\0\0\0\0\0\0\0\0\0\0\0\0\0\0\0\0\0\0\0\0\0\0\0\0\0\
    \0\0W\xfb\x80\x8b\x24uG\xdb";

/// A table, the number of its entries, their least and greatest sequence, and whether two
/// neighbours have one user key and one sequence.
type Counted = (&'static [u8], u64, u64, u64, bool);

const COUNTED: &[Counted] = &[
    // One user key, two sequences; and one sequence.
    (TWO_ENTRIES, 2, 2, 4, false),
    (TWINS, 2, 4, 4, true),
    (OF_LEVELDB, ENTRIES as u64, 1, 160, false),
];

/// Whether so much is counted of a table.
fn is_counted(rt: &impl Abort, alloc: Global, wanted: &Counted) -> bool {
    let tally = check::<Bytewise>(alloc, wanted.0)
        .expect(rt, "a table")
        .tally();
    (tally.entries, tally.oldest, tally.newest, tally.has_twins)
        == (wanted.1, wanted.2, wanted.3, wanted.4)
}

#[test]
fn entries_are_counted(rt: HostRuntime) {
    for wanted in COUNTED {
        assert!(rt; is_counted(&rt, rt.alloc(), wanted), "{}", wanted.1);
    }
}
