//! A small store: its tables, and the edit that made its version.

/// The edit of the version: two files at level 0, one at level 1. `edit: comparator
/// leveldb.BytewiseComparator, log 3, next 8, last 9, file 0 7 128 a@9 put .. b@8 del, file 0 6 129
/// a@5 put .. c@6 put, file 1 5 130 b@3 put .. d@4 put`
pub const FILES: &[u8] = b"\
    \x01\x1aleveldb.BytewiseComparator\x02\x03\x03\x08\x04\x09\x07\0\x07\x80\x01\x09a\x01\x09\0\0\
    \0\0\0\0\x09b\0\x08\0\0\0\0\0\0\x07\0\x06\x81\x01\x09a\x01\x05\0\0\0\0\0\0\x09c\x01\x06\0\0\0\
    \0\0\0\x07\x01\x05\x82\x01\x09b\x01\x03\0\0\0\0\0\0\x09d\x01\x04\0\0\0\0\0\0";

/// The tables of the inputs of level 0, in the order of the inputs: by level, and in each by
/// smallest key, then number.
pub const TABLES: &[&[u8]] = &[NEWER, OLDER, LOWER];

/// The table of file 7. `table: a@9 put new, b@8 del`
pub const NEWER: &[u8] = b"\
    \0\x09\x03a\x01\x09\0\0\0\0\0\0new\0\x09\0b\0\x08\0\0\0\0\0\0\0\0\0\0\x01\0\0\0\0\xe6\xc3\x18\
    \x1a\0\0\0\0\x01\0\0\0\0\xc0\xf2\xa1\xb0\0\x09\x02b\0\x08\0\0\0\0\0\0\0\x23\0\0\0\0\x01\0\0\0\
    \0\xb5\x1cZ\x06\x28\x085\x16\0\0\0\0\0\0\0\0\0\0\0\0\0\0\0\0\0\0\0\0\0\0\0\0\0\0\0\0\0\0\0\0\0\
    \0\0\0W\xfb\x80\x8b\x24uG\xdb";

/// The table of file 6. `table: a@5 put old, c@6 put x`
pub const OLDER: &[u8] = b"\
    \0\x09\x03a\x01\x05\0\0\0\0\0\0old\0\x09\x01c\x01\x06\0\0\0\0\0\0x\0\0\0\0\x01\0\0\0\0E\xb6\
    \x80N\0\0\0\0\x01\0\0\0\0\xc0\xf2\xa1\xb0\0\x09\x02c\x01\x06\0\0\0\0\0\0\0\x24\0\0\0\0\x01\0\0\
    \0\0\x7fV\x97\xd3\x29\x086\x16\0\0\0\0\0\0\0\0\0\0\0\0\0\0\0\0\0\0\0\0\0\0\0\0\0\0\0\0\0\0\0\0\
    \0\0\0\0W\xfb\x80\x8b\x24uG\xdb";

/// The table of file 5. `table: b@3 put gone, d@4 put y`
pub const LOWER: &[u8] = b"\
    \0\x09\x04b\x01\x03\0\0\0\0\0\0gone\0\x09\x01d\x01\x04\0\0\0\0\0\0y\0\0\0\0\x01\0\0\0\0\xf3\
    \xdfcW\0\0\0\0\x01\0\0\0\0\xc0\xf2\xa1\xb0\0\x09\x02d\x01\x04\0\0\0\0\0\0\0\x25\0\0\0\0\x01\0\
    \0\0\0\x10\xb4\x17\xe5\x2a\x087\x16\0\0\0\0\0\0\0\0\0\0\0\0\0\0\0\0\0\0\0\0\0\0\0\0\0\0\0\0\0\
    \0\0\0\0\0\0\0W\xfb\x80\x8b\x24uG\xdb";
