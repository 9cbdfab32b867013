use coding::Fault;
use ikey::*;
use std::alloc::Global;
use std::cmp::Ordering;
use std::process::Abort;
use std::test::*;

/// Tests that what a row states is true.
fn holds(rt: &impl Abort, is_told: bool, row: &[u8]) {
    assert!(rt; is_told, "{row:?}");
}

/// Whether the answer is this user key.
fn is_user_key(answer: Result<Vec<u8>, Fault>, wanted: &[u8]) -> bool {
    match answer {
        Ok(key) => key.as_slice() == wanted,
        Err(_) => false,
    }
}

/// Two user keys, their separator, and the successor of the first.
type Shorts = (&'static [u8], &'static [u8], &'static [u8], &'static [u8]);

/// Those of the bytewise order. A byte 0xff is not raised.
const BYTEWISE: &[Shorts] = &[
    (b"abcz", b"abfa", b"abd", b"b"),
    (b"ab", b"abc", b"ab", b"b"),
    (b"a", b"b", b"a", b"b"),
    (b"\xffa", b"\xffb", b"\xffa", b"\xffb"),
    (b"\xff\xff", b"\xff\xff\0", b"\xff\xff", b"\xff\xff"),
    (b"", b"a", b"", b""),
];

/// One of the order by length.
const SHORTLEX: Shorts = (b"b", b"aa", b"b", b"b");

/// Whether these are the short user keys of a comparator.
fn are_short<C: Comparator>(alloc: Global, shorts: Shorts) -> bool {
    let (start, limit, separator, successor) = shorts;
    is_user_key(C::separator(alloc, start, limit), separator)
        && is_user_key(C::successor(alloc, start), successor)
}

/// Whether a comparator that threads may share has this name, and the first of two user keys is the
/// lesser.
fn is_order<C: SharedComparator>(name: &str, lesser: &[u8], greater: &[u8]) -> bool {
    C::name() == name
        && C::compare(lesser, greater) == Ordering::Less
        && C::compare(greater, lesser) == Ordering::Greater
}

#[test]
fn comparators_of_user_keys(rt: HostRuntime) {
    let is_bytewise = is_order::<Bytewise>("leveldb.BytewiseComparator", b"aa", b"b");
    holds(&rt, is_bytewise, b"aa");
    let is_shortlex = is_order::<Shortlex>("subcompaction.ShortlexComparator", b"b", b"aa");
    holds(
        &rt,
        is_shortlex && are_short::<Shortlex>(rt.alloc(), SHORTLEX),
        b"b",
    );
    for row in BYTEWISE {
        holds(&rt, are_short::<Bytewise>(rt.alloc(), *row), row.0);
    }
}

/// An internal key, and what is stated of it.
struct Row {
    user: &'static [u8],
    sequence: u8,
    kind: Kind,
    bytes: &'static [u8],
    /// A greater key.
    greater: &'static [u8],
    /// Its short key, below the greater one: the key itself if its user key can't be made shorter.
    separator: &'static [u8],
    /// Its short key without a limit.
    successor: &'static [u8],
}

/// Keys below one of a lesser sequence, of a lesser type, and of a greater user key.
const ROWS: &[Row] = &[
    Row {
        user: b"u",
        sequence: 4,
        kind: Kind::Delete,
        bytes: b"u\0\x04\0\0\0\0\0\0",
        greater: b"u\x01\x02\0\0\0\0\0\0",
        separator: b"u\0\x04\0\0\0\0\0\0",
        successor: b"u\0\x04\0\0\0\0\0\0",
    },
    Row {
        user: b"a",
        sequence: 1,
        kind: Kind::Put,
        bytes: b"a\x01\x01\0\0\0\0\0\0",
        greater: b"a\0\x01\0\0\0\0\0\0",
        separator: b"a\x01\x01\0\0\0\0\0\0",
        successor: b"a\x01\x01\0\0\0\0\0\0",
    },
    Row {
        user: b"abcz",
        sequence: 5,
        kind: Kind::Put,
        bytes: b"abcz\x01\x05\0\0\0\0\0\0",
        greater: b"abfa\x01\x09\0\0\0\0\0\0",
        separator: b"abd\x01\xff\xff\xff\xff\xff\xff\xff",
        successor: b"b\x01\xff\xff\xff\xff\xff\xff\xff",
    },
];

/// Whether the answer is this key.
fn is_key(answer: Result<KeyBuf, Fault>, wanted: &[u8]) -> bool {
    match answer {
        Ok(key) => key.as_key().bytes() == wanted,
        Err(_) => false,
    }
}

/// Whether the answer is a key, and this one takes its place.
fn gives_way(answer: Result<KeyBuf, Fault>, other: InternalKey) -> bool {
    match answer {
        Ok(mut key) => key.set(other).is_ok() && key.as_key().bytes() == other.bytes(),
        Err(_) => false,
    }
}

/// Whether a key has the parts of a row, and the parts give its bytes.
fn has_parts(alloc: Global, key: InternalKey, row: &Row) -> bool {
    let sequence = u64::from(row.sequence);
    row.user.len() <= MAX_USER_KEY
        && key.user() == row.user
        && key.sequence() == sequence
        && key.kind() == row.kind
        && is_key(KeyBuf::new(alloc, row.user, sequence, row.kind), row.bytes)
}

/// Whether a key and a greater one are as a row states.
fn are_as_told(alloc: Global, key: InternalKey, greater: InternalKey, row: &Row) -> bool {
    key.compare::<Bytewise>(&greater) == Ordering::Less
        && is_key(
            internal_separator::<Bytewise>(alloc, key, greater),
            row.separator,
        )
        && is_key(internal_successor::<Bytewise>(alloc, key), row.successor)
        && gives_way(KeyBuf::of(alloc, key), greater)
}

/// Whether all that a row states is true.
fn is_row(alloc: Global, row: &Row) -> bool {
    match (
        InternalKey::parse(row.bytes),
        InternalKey::parse(row.greater),
    ) {
        (Ok(key), Ok(greater)) => {
            has_parts(alloc, key, row) && are_as_told(alloc, key, greater, row)
        }
        _ => false,
    }
}

#[test]
fn internal_keys(rt: HostRuntime) {
    for row in ROWS {
        holds(&rt, is_row(rt.alloc(), row), row.bytes);
    }
}

/// A user key, and its head in each of the two orders.
type Heads = (&'static [u8], u128, u128);

/// In the bytewise order the head is the number in the first 16 bytes, the first of them the most
/// significant, with zeros after a shorter key. In the order by length the upper half is the
/// length, and the lower half the number in the first 8 bytes.
const HEADS: &[Heads] = &[
    (b"", 0, 0),
    (
        b"a",
        0x6100_0000_0000_0000_0000_0000_0000_0000,
        0x1_6100_0000_0000_0000,
    ),
    (
        b"abcdefghijklmnopq",
        0x6162_6364_6566_6768_696a_6b6c_6d6e_6f70,
        0x11_6162_6364_6566_6768,
    ),
];

#[test]
fn heads_of_user_keys(rt: HostRuntime) {
    for row in HEADS {
        let heads = (Bytewise::head(row.0), Shortlex::head(row.0));
        holds(&rt, heads == (row.1, row.2), row.0);
    }
}
