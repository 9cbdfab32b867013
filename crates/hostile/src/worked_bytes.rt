//! Worked bytes, as the formats of LevelDB and their arithmetic give them.
//!
//! A table of one data block has it first, then a metaindex block of no entry, then an index block
//! of one entry, and then its footer. After each block there are a type and a checksum of four
//! bytes. Index keys are the last keys of their blocks.

/// `block: a@2 put x, a@1 put y`
pub const BLOCK: &[u8] =
    b"\0\x09\x01a\x01\x02\0\0\0\0\0\0x\x02\x07\x01\x01\0\0\0\0\0\0y\0\0\0\0\x01\0\0\0";

/// `block: a@1 put x`
pub const FIRST_BLOCK: &[u8] = b"\0\x09\x01a\x01\x01\0\0\0\0\0\0x\0\0\0\0\x01\0\0\0";

/// `block: b@2 put y`
pub const SECOND_BLOCK: &[u8] = b"\0\x09\x01b\x01\x02\0\0\0\0\0\0y\0\0\0\0\x01\0\0\0";

/// `block: a@1 put x, b@2 put y`
pub const BOTH_ENTRIES: &[u8] =
    b"\0\x09\x01a\x01\x01\0\0\0\0\0\0x\0\x09\x01b\x01\x02\0\0\0\0\0\0y\0\0\0\0\x01\0\0\0";

/// The block of no entry, which has the one restart 0 too.
pub const NO_ENTRY: &[u8] = b"\0\0\0\0\x01\0\0\0";

/// Log 3, and then log 4.
/// `edit: log 3, log 4`
pub const TWO_LOGS: &[u8] = b"\x02\x03\x02\x04";

/// The internal key of `a` put at 1.
pub const A_AT_ONE: [u8; 9] = *b"a\x01\x01\0\0\0\0\0\0";

/// That of `a` at 2.
pub const A_AT_TWO: [u8; 9] = *b"a\x01\x02\0\0\0\0\0\0";

/// That of `b` at 1.
pub const B_AT_ONE: [u8; 9] = *b"b\x01\x01\0\0\0\0\0\0";

/// That of `b` at 2.
pub const B_AT_TWO: [u8; 9] = *b"b\x01\x02\0\0\0\0\0\0";

/// That of `b` at 0.
pub const B_AT_ZERO: [u8; 9] = *b"b\x01\0\0\0\0\0\0\0";

/// That of `c` at 1.
pub const C_AT_ONE: [u8; 9] = *b"c\x01\x01\0\0\0\0\0\0";

/// That of `u` at 1.
pub const U_AT_ONE: [u8; 9] = *b"u\x01\x01\0\0\0\0\0\0";

/// That of `u` at 2.
pub const U_AT_TWO: [u8; 9] = *b"u\x01\x02\0\0\0\0\0\0";

/// `table: a@1 put x`
pub const TABLE: &[u8] = b"\
    \0\x09\x01a\x01\x01\0\0\0\0\0\0x\0\0\0\0\x01\0\0\0\0\x84\xdd\x88t\0\0\0\0\x01\0\0\0\0\xc0\xf2\
    \xa1\xb0\0\x09\x02a\x01\x01\0\0\0\0\0\0\0\x15\0\0\0\0\x01\0\0\0\06I\x25\xbf\x1a\x08\x27\x16\0\
    \0\0\0\0\0\0\0\0\0\0\0\0\0\0\0\0\0\0\0\0\0\0\0\0\0\0\0\0\0\0\0\0\0\0\0W\xfb\x80\x8b\x24uG\xdb";

/// `table: u@4 del, u@2 put x`
pub const TABLE_U_TWICE: &[u8] = b"\
    \0\x09\0u\0\x04\0\0\0\0\0\0\x01\x08\x01\x01\x02\0\0\0\0\0\0x\0\0\0\0\x01\0\0\0\0\xef\xe0\xe5\
    \x28\0\0\0\0\x01\0\0\0\0\xc0\xf2\xa1\xb0\0\x09\x02u\x01\x02\0\0\0\0\0\0\0\x20\0\0\0\0\x01\0\0\
    \0\0\x0a\xb0\x5c\x0c\x25\x082\x16\0\0\0\0\0\0\0\0\0\0\0\0\0\0\0\0\0\0\0\0\0\0\0\0\0\0\0\0\0\0\
    \0\0\0\0\0\0W\xfb\x80\x8b\x24uG\xdb";

/// `table: u@4 del`
pub const TABLE_U_DELETED: &[u8] = b"\
    \0\x09\0u\0\x04\0\0\0\0\0\0\0\0\0\0\x01\0\0\0\0\x0dk\x91\xcc\0\0\0\0\x01\0\0\0\0\xc0\xf2\xa1\
    \xb0\0\x09\x02u\0\x04\0\0\0\0\0\0\0\x14\0\0\0\0\x01\0\0\0\0\xee\x7b\xca\xbd\x19\x08\x26\x16\0\
    \0\0\0\0\0\0\0\0\0\0\0\0\0\0\0\0\0\0\0\0\0\0\0\0\0\0\0\0\0\0\0\0\0\0\0W\xfb\x80\x8b\x24uG\xdb";

/// `table: u@9 put x | u@5 put x | u@3 put x`
pub const TABLE_THREE_BLOCKS: &[u8] = b"\
    \0\x09\x01u\x01\x09\0\0\0\0\0\0x\0\0\0\0\x01\0\0\0\0\xd4\x8b\x9dW\0\x09\x01u\x01\x05\0\0\0\0\0\
    \0x\0\0\0\0\x01\0\0\0\0\xd6\xa8\xb8F\0\x09\x01u\x01\x03\0\0\0\0\0\0x\0\0\0\0\x01\0\0\0\0k\x21\
    \xd5\x7c\0\0\0\0\x01\0\0\0\0\xc0\xf2\xa1\xb0\0\x09\x02u\x01\x09\0\0\0\0\0\0\0\x15\0\x09\x02u\
    \x01\x05\0\0\0\0\0\0\x1a\x15\0\x09\x02u\x01\x03\0\0\0\0\0\04\x15\0\0\0\0\x0e\0\0\0\x1c\0\0\0\
    \x03\0\0\0\0\x9dI\x84TN\x08\x5b\x3a\0\0\0\0\0\0\0\0\0\0\0\0\0\0\0\0\0\0\0\0\0\0\0\0\0\0\0\0\0\
    \0\0\0\0\0\0\0W\xfb\x80\x8b\x24uG\xdb";

/// `table: b@1 put x, a@1 put x`
pub const TABLE_FALLING: &[u8] = b"\
    \0\x09\x01b\x01\x01\0\0\0\0\0\0x\0\x09\x01a\x01\x01\0\0\0\0\0\0x\0\0\0\0\x01\0\0\0\0Qc\xee\x1c\
    \0\0\0\0\x01\0\0\0\0\xc0\xf2\xa1\xb0\0\x09\x02a\x01\x01\0\0\0\0\0\0\0\x22\0\0\0\0\x01\0\0\0\0\
    \xa5y\xbe\xbc\x27\x084\x16\0\0\0\0\0\0\0\0\0\0\0\0\0\0\0\0\0\0\0\0\0\0\0\0\0\0\0\0\0\0\0\0\0\0\
    \0\0W\xfb\x80\x8b\x24uG\xdb";

/// `table: b@1 put x`
pub const TABLE_B_AT_ONE: &[u8] = b"\
    \0\x09\x01b\x01\x01\0\0\0\0\0\0x\0\0\0\0\x01\0\0\0\0\xc7Z78\0\0\0\0\x01\0\0\0\0\xc0\xf2\xa1\
    \xb0\0\x09\x02b\x01\x01\0\0\0\0\0\0\0\x15\0\0\0\0\x01\0\0\0\0\xae\xd8\xaf\xcf\x1a\x08\x27\x16\
    \0\0\0\0\0\0\0\0\0\0\0\0\0\0\0\0\0\0\0\0\0\0\0\0\0\0\0\0\0\0\0\0\0\0\0\0W\xfb\x80\x8b\x24uG\
    \xdb";

/// `table: u@1 put x`
pub const TABLE_U: &[u8] = b"\
    \0\x09\x01u\x01\x01\0\0\0\0\0\0x\0\0\0\0\x01\0\0\0\0\xd83\xb2M\0\0\0\0\x01\0\0\0\0\xc0\xf2\xa1\
    \xb0\0\x09\x02u\x01\x01\0\0\0\0\0\0\0\x15\0\0\0\0\x01\0\0\0\0.\xfbO\x03\x1a\x08\x27\x16\0\0\0\
    \0\0\0\0\0\0\0\0\0\0\0\0\0\0\0\0\0\0\0\0\0\0\0\0\0\0\0\0\0\0\0\0\0W\xfb\x80\x8b\x24uG\xdb";

/// The table of `a` at 1 with a changed first byte.
pub const TABLE_SPOILT: &[u8] =
    b"\x01\x09\x01a\x01\x01\0\0\0\0\0\0x\0\0\0\0\x01\0\0\0\0\x84\xdd\x88t\0\0\0\0\x01\0\0\0\0\xc0\
        \xf2\xa1\xb0\0\x09\x02a\x01\x01\0\0\0\0\0\0\0\x15\0\0\0\0\x01\0\0\0\06I%\xbf\x1a\x08'\x16\0\
        \0\0\0\0\0\0\0\0\0\0\0\0\0\0\0\0\0\0\0\0\0\0\0\0\0\0\0\0\0\0\0\0\0\0\0W\xfb\x80\x8b$uG\xdb";

/// The table of `b` at 1 with a changed first byte.
pub const TABLE_B_SPOILT: &[u8] =
    b"\x01\x09\x01b\x01\x01\0\0\0\0\0\0x\0\0\0\0\x01\0\0\0\0\xc7Z78\0\0\0\0\x01\0\0\0\0\xc0\xf2\xa1\
        \xb0\0\x09\x02b\x01\x01\0\0\0\0\0\0\0\x15\0\0\0\0\x01\0\0\0\0\xae\xd8\xaf\xcf\x1a\x08'\x16\
        \0\0\0\0\0\0\0\0\0\0\0\0\0\0\0\0\0\0\0\0\0\0\0\0\0\0\0\0\0\0\0\0\0\0\0\0W\xfb\x80\x8b$uG\
        \xdb";

/// The table of `a` at 1 with a changed last byte.
pub const TABLE_OF_ANOTHER_MAGIC: &[u8] =
    b"\0\x09\x01a\x01\x01\0\0\0\0\0\0x\0\0\0\0\x01\0\0\0\0\x84\xdd\x88t\0\0\0\0\x01\0\0\0\0\xc0\xf2\
        \xa1\xb0\0\x09\x02a\x01\x01\0\0\0\0\0\0\0\x15\0\0\0\0\x01\0\0\0\06I%\xbf\x1a\x08'\x16\0\0\0\
        \0\0\0\0\0\0\0\0\0\0\0\0\0\0\0\0\0\0\0\0\0\0\0\0\0\0\0\0\0\0\0\0\0W\xfb\x80\x8b$uG\xda";

/// The log of one empty record.
pub const EMPTY_LOG: &[u8] = b"\x05+(C\0\0\x01";

/// Log 3, previous log 0, next file 9, last sequence 4, a compact pointer of `u` at 2 at level 1,
/// and file 7 of level 1 deleted.
/// `edit: log 3, previous 0, next 9, last 4, pointer 1 u@2 put, delete 1 7`
pub const NOTHING_LEFT: &[u8] =
    b"\x02\x03\x09\0\x03\x09\x04\x04\x05\x01\x09u\x01\x02\0\0\0\0\0\0\x06\x01\x07";

/// `edit: log 3, previous 0, next 10, last 4, pointer 1 u@2 put, delete 1 7, file 2 9 113 u@4 del
/// .. u@4 del`
pub const DELETION_LEFT: &[u8] = b"\
    \x02\x03\x09\0\x03\x0a\x04\x04\x05\x01\x09u\x01\x02\0\0\0\0\0\0\x06\x01\x07\x07\x02\x09q\x09u\
    \0\x04\0\0\0\0\0\0\x09u\0\x04\0\0\0\0\0\0";

/// The snapshot of the empty version.
/// `edit: comparator leveldb.BytewiseComparator`
pub const EMPTY_SNAPSHOT: &[u8] = b"\x01\x1aleveldb.BytewiseComparator";

/// `log: comparator leveldb.BytewiseComparator, file 1 7 125 u@4 del .. u@2 put | log 3, previous
/// 0, next 9, last 4`
pub const MANIFEST: &[u8] = b"\
    \x93\xd7h\x1c4\0\x01\x01\x1aleveldb.BytewiseComparator\x07\x01\x07\x7d\x09u\0\x04\0\0\0\0\0\0\
    \x09u\x01\x02\0\0\0\0\0\0\x3d\x24\xf8\xc5\x08\0\x01\x02\x03\x09\0\x03\x09\x04\x04";

/// The text of CURRENT that names manifest 5.
pub const CURRENT_FIVE: &[u8] = b"MANIFEST-000005\x0a";

/// `table: a@1 put x | b@1 put x | c@1 put x | d@1 put x | e@1 put x`
pub const TABLE_ABCDE: &[u8] = b"\
    \0\x09\x01a\x01\x01\0\0\0\0\0\0x\0\0\0\0\x01\0\0\0\0\x84\xdd\x88t\0\x09\x01b\x01\x01\0\0\0\0\0\
    \0x\0\0\0\0\x01\0\0\0\0\xc7Z78\0\x09\x01c\x01\x01\0\0\0\0\0\0x\0\0\0\0\x01\0\0\0\0q\x08\xfe\
    \xae\0\x09\x01d\x01\x01\0\0\0\0\0\0x\0\0\0\0\x01\0\0\0\0\x89I\xba\x99\0\x09\x01e\x01\x01\0\0\0\
    \0\0\0x\0\0\0\0\x01\0\0\0\0\x9f\x17\x7b\x11\0\0\0\0\x01\0\0\0\0\xc0\xf2\xa1\xb0\0\x09\x02a\x01\
    \x01\0\0\0\0\0\0\0\x15\0\x09\x02b\x01\x01\0\0\0\0\0\0\x1a\x15\0\x09\x02c\x01\x01\0\0\0\0\0\04\
    \x15\0\x09\x02d\x01\x01\0\0\0\0\0\0N\x15\0\x09\x02e\x01\x01\0\0\0\0\0\0h\x15\0\0\0\0\x0e\0\0\0\
    \x1c\0\0\0\x2a\0\0\08\0\0\0\x05\0\0\0\0\x3c\x0e\xb2\x3f\x82\x01\x08\x8f\x01\x5e\0\0\0\0\0\0\0\
    \0\0\0\0\0\0\0\0\0\0\0\0\0\0\0\0\0\0\0\0\0\0\0\0\0\0\0W\xfb\x80\x8b\x24uG\xdb";

/// `table: a@1 put x | c@1 put x | e@1 put x`
pub const TABLE_ACE: &[u8] = b"\
    \0\x09\x01a\x01\x01\0\0\0\0\0\0x\0\0\0\0\x01\0\0\0\0\x84\xdd\x88t\0\x09\x01c\x01\x01\0\0\0\0\0\
    \0x\0\0\0\0\x01\0\0\0\0q\x08\xfe\xae\0\x09\x01e\x01\x01\0\0\0\0\0\0x\0\0\0\0\x01\0\0\0\0\x9f\
    \x17\x7b\x11\0\0\0\0\x01\0\0\0\0\xc0\xf2\xa1\xb0\0\x09\x02a\x01\x01\0\0\0\0\0\0\0\x15\0\x09\
    \x02c\x01\x01\0\0\0\0\0\0\x1a\x15\0\x09\x02e\x01\x01\0\0\0\0\0\04\x15\0\0\0\0\x0e\0\0\0\x1c\0\
    \0\0\x03\0\0\0\0\x9f\x82M\xe8N\x08\x5b\x3a\0\0\0\0\0\0\0\0\0\0\0\0\0\0\0\0\0\0\0\0\0\0\0\0\0\0\
    \0\0\0\0\0\0\0\0\0\0W\xfb\x80\x8b\x24uG\xdb";

/// `table: b@1 put x | d@1 put x`
pub const TABLE_BD: &[u8] = b"\
    \0\x09\x01b\x01\x01\0\0\0\0\0\0x\0\0\0\0\x01\0\0\0\0\xc7Z78\0\x09\x01d\x01\x01\0\0\0\0\0\0x\0\
    \0\0\0\x01\0\0\0\0\x89I\xba\x99\0\0\0\0\x01\0\0\0\0\xc0\xf2\xa1\xb0\0\x09\x02b\x01\x01\0\0\0\0\
    \0\0\0\x15\0\x09\x02d\x01\x01\0\0\0\0\0\0\x1a\x15\0\0\0\0\x0e\0\0\0\x02\0\0\0\0bCo\x214\x08A\
    \x28\0\0\0\0\0\0\0\0\0\0\0\0\0\0\0\0\0\0\0\0\0\0\0\0\0\0\0\0\0\0\0\0\0\0\0\0W\xfb\x80\x8b\x24u\
    G\xdb";

/// `table: a@1 put x | c@1 put x | f@1 put x`
pub const TABLE_ACF: &[u8] = b"\
    \0\x09\x01a\x01\x01\0\0\0\0\0\0x\0\0\0\0\x01\0\0\0\0\x84\xdd\x88t\0\x09\x01c\x01\x01\0\0\0\0\0\
    \0x\0\0\0\0\x01\0\0\0\0q\x08\xfe\xae\0\x09\x01f\x01\x01\0\0\0\0\0\0x\0\0\0\0\x01\0\0\0\0\x5c\
    \x9c\xcc\xcb\0\0\0\0\x01\0\0\0\0\xc0\xf2\xa1\xb0\0\x09\x02a\x01\x01\0\0\0\0\0\0\0\x15\0\x09\
    \x02c\x01\x01\0\0\0\0\0\0\x1a\x15\0\x09\x02f\x01\x01\0\0\0\0\0\04\x15\0\0\0\0\x0e\0\0\0\x1c\0\
    \0\0\x03\0\0\0\0\x3a\x3b\x145N\x08\x5b\x3a\0\0\0\0\0\0\0\0\0\0\0\0\0\0\0\0\0\0\0\0\0\0\0\0\0\0\
    \0\0\0\0\0\0\0\0\0\0W\xfb\x80\x8b\x24uG\xdb";

/// `table: a@1 put x | b@1 put x | c@1 put x | d@1 put x`
pub const TABLE_ABCD: &[u8] = b"\
    \0\x09\x01a\x01\x01\0\0\0\0\0\0x\0\0\0\0\x01\0\0\0\0\x84\xdd\x88t\0\x09\x01b\x01\x01\0\0\0\0\0\
    \0x\0\0\0\0\x01\0\0\0\0\xc7Z78\0\x09\x01c\x01\x01\0\0\0\0\0\0x\0\0\0\0\x01\0\0\0\0q\x08\xfe\
    \xae\0\x09\x01d\x01\x01\0\0\0\0\0\0x\0\0\0\0\x01\0\0\0\0\x89I\xba\x99\0\0\0\0\x01\0\0\0\0\xc0\
    \xf2\xa1\xb0\0\x09\x02a\x01\x01\0\0\0\0\0\0\0\x15\0\x09\x02b\x01\x01\0\0\0\0\0\0\x1a\x15\0\x09\
    \x02c\x01\x01\0\0\0\0\0\04\x15\0\x09\x02d\x01\x01\0\0\0\0\0\0N\x15\0\0\0\0\x0e\0\0\0\x1c\0\0\0\
    \x2a\0\0\0\x04\0\0\0\0y\xc4\x8b\x90h\x08uL\0\0\0\0\0\0\0\0\0\0\0\0\0\0\0\0\0\0\0\0\0\0\0\0\0\0\
    \0\0\0\0\0\0\0\0\0\0W\xfb\x80\x8b\x24uG\xdb";

/// `table: a@1 put x, b@1 put x, c@1 put x`
pub const TABLE_ABC: &[u8] = b"\
    \0\x09\x01a\x01\x01\0\0\0\0\0\0x\0\x09\x01b\x01\x01\0\0\0\0\0\0x\0\x09\x01c\x01\x01\0\0\0\0\0\
    \0x\0\0\0\0\x01\0\0\0\0\x10\xf4\xd2\xf1\0\0\0\0\x01\0\0\0\0\xc0\xf2\xa1\xb0\0\x09\x02c\x01\x01\
    \0\0\0\0\0\0\0\x2f\0\0\0\0\x01\0\0\0\0\xd9\xf8\x18\xb14\x08A\x16\0\0\0\0\0\0\0\0\0\0\0\0\0\0\0\
    \0\0\0\0\0\0\0\0\0\0\0\0\0\0\0\0\0\0\0\0\0W\xfb\x80\x8b\x24uG\xdb";

/// `table: b@2 put x`
pub const TABLE_B: &[u8] = b"\
    \0\x09\x01b\x01\x02\0\0\0\0\0\0x\0\0\0\0\x01\0\0\0\0\x8d\x9a\xfa\xfe\0\0\0\0\x01\0\0\0\0\xc0\
    \xf2\xa1\xb0\0\x09\x02b\x01\x02\0\0\0\0\0\0\0\x15\0\0\0\0\x01\0\0\0\0x\xb9Y\xc4\x1a\x08\x27\
    \x16\0\0\0\0\0\0\0\0\0\0\0\0\0\0\0\0\0\0\0\0\0\0\0\0\0\0\0\0\0\0\0\0\0\0\0\0W\xfb\x80\x8b\x24u\
    G\xdb";

/// `table: c@3 put x`
pub const TABLE_C: &[u8] = b"\
    \0\x09\x01c\x01\x03\0\0\0\0\0\0x\0\0\0\0\x01\0\0\0\0\xe2L\x89\x1f\0\0\0\0\x01\0\0\0\0\xc0\xf2\
    \xa1\xb0\0\x09\x02c\x01\x03\0\0\0\0\0\0\0\x15\0\0\0\0\x01\0\0\0\0\xcd\xa9\x7dm\x1a\x08\x27\x16\
    \0\0\0\0\0\0\0\0\0\0\0\0\0\0\0\0\0\0\0\0\0\0\0\0\0\0\0\0\0\0\0\0\0\0\0\0W\xfb\x80\x8b\x24uG\
    \xdb";

/// `table: f@4 put x`
pub const TABLE_F: &[u8] = b"\
    \0\x09\x01f\x01\x04\0\0\0\0\0\0x\0\0\0\0\x01\0\0\0\0\x8b\xe5pA\0\0\0\0\x01\0\0\0\0\xc0\xf2\xa1\
    \xb0\0\x09\x02f\x01\x04\0\0\0\0\0\0\0\x15\0\0\0\0\x01\0\0\0\0\x2b\x1dN\x28\x1a\x08\x27\x16\0\0\
    \0\0\0\0\0\0\0\0\0\0\0\0\0\0\0\0\0\0\0\0\0\0\0\0\0\0\0\0\0\0\0\0\0\0W\xfb\x80\x8b\x24uG\xdb";

/// `table: g@5 put x`
pub const TABLE_G: &[u8] = b"\
    \0\x09\x01g\x01\x05\0\0\0\0\0\0x\0\0\0\0\x01\0\0\0\0\xe4\x21\x1fb\0\0\0\0\x01\0\0\0\0\xc0\xf2\
    \xa1\xb0\0\x09\x02g\x01\x05\0\0\0\0\0\0\0\x15\0\0\0\0\x01\0\0\0\0\xde\x2cj\x11\x1a\x08\x27\x16\
    \0\0\0\0\0\0\0\0\0\0\0\0\0\0\0\0\0\0\0\0\0\0\0\0\0\0\0\0\0\0\0\0\0\0\0\0W\xfb\x80\x8b\x24uG\
    \xdb";

/// `table: c@3 del`
pub const TABLE_C_DELETED: &[u8] = b"\
    \0\x09\0c\0\x03\0\0\0\0\0\0\0\0\0\0\x01\0\0\0\0\xd8j\x2d\x91\0\0\0\0\x01\0\0\0\0\xc0\xf2\xa1\
    \xb0\0\x09\x02c\0\x03\0\0\0\0\0\0\0\x14\0\0\0\0\x01\0\0\0\0\x07E\x01G\x19\x08\x26\x16\0\0\0\0\
    \0\0\0\0\0\0\0\0\0\0\0\0\0\0\0\0\0\0\0\0\0\0\0\0\0\0\0\0\0\0\0\0W\xfb\x80\x8b\x24uG\xdb";

/// `table: a@1 put x, b@2 put x`
pub const TABLE_A_AND_B: &[u8] = b"\
    \0\x09\x01a\x01\x01\0\0\0\0\0\0x\0\x09\x01b\x01\x02\0\0\0\0\0\0x\0\0\0\0\x01\0\0\0\0\x8e\x93\
    \x26\xb9\0\0\0\0\x01\0\0\0\0\xc0\xf2\xa1\xb0\0\x09\x02b\x01\x02\0\0\0\0\0\0\0\x22\0\0\0\0\x01\
    \0\0\0\0\x0b\x09\xd2\xc9\x27\x084\x16\0\0\0\0\0\0\0\0\0\0\0\0\0\0\0\0\0\0\0\0\0\0\0\0\0\0\0\0\
    \0\0\0\0\0\0\0\0W\xfb\x80\x8b\x24uG\xdb";

/// `table: a@1 put x, f@4 put x`
pub const TABLE_A_AND_F: &[u8] = b"\
    \0\x09\x01a\x01\x01\0\0\0\0\0\0x\0\x09\x01f\x01\x04\0\0\0\0\0\0x\0\0\0\0\x01\0\0\0\0\x88\xe8\
    \xbcv\0\0\0\0\x01\0\0\0\0\xc0\xf2\xa1\xb0\0\x09\x02f\x01\x04\0\0\0\0\0\0\0\x22\0\0\0\0\x01\0\0\
    \0\0\x98\xcd\xd5\x25\x27\x084\x16\0\0\0\0\0\0\0\0\0\0\0\0\0\0\0\0\0\0\0\0\0\0\0\0\0\0\0\0\0\0\
    \0\0\0\0\0\0W\xfb\x80\x8b\x24uG\xdb";

/// `table: b@2 put x, g@5 put x`
pub const TABLE_B_AND_G: &[u8] = b"\
    \0\x09\x01b\x01\x02\0\0\0\0\0\0x\0\x09\x01g\x01\x05\0\0\0\0\0\0x\0\0\0\0\x01\0\0\0\0\x1a\xabG4\
    \0\0\0\0\x01\0\0\0\0\xc0\xf2\xa1\xb0\0\x09\x02g\x01\x05\0\0\0\0\0\0\0\x22\0\0\0\0\x01\0\0\0\0m\
    \x7d\x01\x0b\x27\x084\x16\0\0\0\0\0\0\0\0\0\0\0\0\0\0\0\0\0\0\0\0\0\0\0\0\0\0\0\0\0\0\0\0\0\0\
    \0\0W\xfb\x80\x8b\x24uG\xdb";

/// `table: e@1 put x`
pub const TABLE_E: &[u8] = b"\
    \0\x09\x01e\x01\x01\0\0\0\0\0\0x\0\0\0\0\x01\0\0\0\0\x9f\x17\x7b\x11\0\0\0\0\x01\0\0\0\0\xc0\
    \xf2\xa1\xb0\0\x09\x02e\x01\x01\0\0\0\0\0\0\0\x15\0\0\0\0\x01\0\0\0\0\x19\xcf\xceC\x1a\x08\x27\
    \x16\0\0\0\0\0\0\0\0\0\0\0\0\0\0\0\0\0\0\0\0\0\0\0\0\0\0\0\0\0\0\0\0\0\0\0\0W\xfb\x80\x8b\x24uG\
    \xdb";

/// `table: a@1 put x, u@4 del, u@2 put x`
pub const TABLE_A_U_TWICE: &[u8] = b"\
    \0\x09\x01a\x01\x01\0\0\0\0\0\0x\0\x09\0u\0\x04\0\0\0\0\0\0\x01\x08\x01\x01\x02\0\0\0\0\0\0x\0\
    \0\0\0\x01\0\0\0\0\xe0L\x9b\xfc\0\0\0\0\x01\0\0\0\0\xc0\xf2\xa1\xb0\0\x09\x02u\x01\x02\0\0\0\0\
    \0\0\0\x2d\0\0\0\0\x01\0\0\0\0\xc9\x83\x03F2\x08\x3f\x16\0\0\0\0\0\0\0\0\0\0\0\0\0\0\0\0\0\0\0\
    \0\0\0\0\0\0\0\0\0\0\0\0\0\0\0\0\0W\xfb\x80\x8b\x24uG\xdb";

/// `table: a@1 put x | u@4 del`
pub const TABLE_A_U_DELETED: &[u8] = b"\
    \0\x09\x01a\x01\x01\0\0\0\0\0\0x\0\0\0\0\x01\0\0\0\0\x84\xdd\x88t\0\x09\0u\0\x04\0\0\0\0\0\0\0\
    \0\0\0\x01\0\0\0\0\x0dk\x91\xcc\0\0\0\0\x01\0\0\0\0\xc0\xf2\xa1\xb0\0\x09\x02a\x01\x01\0\0\0\0\
    \0\0\0\x15\0\x09\x02u\0\x04\0\0\0\0\0\0\x1a\x14\0\0\0\0\x0e\0\0\0\x02\0\0\0\0o\xa9\x94\xde3\x08\
    \x40\x28\0\0\0\0\0\0\0\0\0\0\0\0\0\0\0\0\0\0\0\0\0\0\0\0\0\0\0\0\0\0\0\0\0\0\0\0W\xfb\x80\x8b\
    \x24uG\xdb";

/// `table: a@1 put x | b@2 put x`
pub const TABLE_A_B_BLOCKS: &[u8] = b"\
    \0\x09\x01a\x01\x01\0\0\0\0\0\0x\0\0\0\0\x01\0\0\0\0\x84\xdd\x88t\0\x09\x01b\x01\x02\0\0\0\0\0\
    \0x\0\0\0\0\x01\0\0\0\0\x8d\x9a\xfa\xfe\0\0\0\0\x01\0\0\0\0\xc0\xf2\xa1\xb0\0\x09\x02a\x01\x01\
    \0\0\0\0\0\0\0\x15\0\x09\x02b\x01\x02\0\0\0\0\0\0\x1a\x15\0\0\0\0\x0e\0\0\0\x02\0\0\0\0\xd7\x29\
    \x7e\x944\x08A\x28\0\0\0\0\0\0\0\0\0\0\0\0\0\0\0\0\0\0\0\0\0\0\0\0\0\0\0\0\0\0\0\0\0\0\0\0W\xfb\
    \x80\x8b\x24uG\xdb";

/// `table: c@3 put x | f@4 put x`
pub const TABLE_C_F_BLOCKS: &[u8] = b"\
    \0\x09\x01c\x01\x03\0\0\0\0\0\0x\0\0\0\0\x01\0\0\0\0\xe2L\x89\x1f\0\x09\x01f\x01\x04\0\0\0\0\0\
    \0x\0\0\0\0\x01\0\0\0\0\x8b\xe5pA\0\0\0\0\x01\0\0\0\0\xc0\xf2\xa1\xb0\0\x09\x02c\x01\x03\0\0\0\
    \0\0\0\0\x15\0\x09\x02f\x01\x04\0\0\0\0\0\0\x1a\x15\0\0\0\0\x0e\0\0\0\x02\0\0\0\0\xf4\x8b\x2f\
    \x154\x08A\x28\0\0\0\0\0\0\0\0\0\0\0\0\0\0\0\0\0\0\0\0\0\0\0\0\0\0\0\0\0\0\0\0\0\0\0\0W\xfb\x80\
    \x8b\x24uG\xdb";

/// `table: f@4 put x | g@5 put x | u@1 put x`
pub const TABLE_F_G_U_BLOCKS: &[u8] = b"\
    \0\x09\x01f\x01\x04\0\0\0\0\0\0x\0\0\0\0\x01\0\0\0\0\x8b\xe5pA\0\x09\x01g\x01\x05\0\0\0\0\0\0x\
    \0\0\0\0\x01\0\0\0\0\xe4\x21\x1fb\0\x09\x01u\x01\x01\0\0\0\0\0\0x\0\0\0\0\x01\0\0\0\0\xd83\xb2M\
    \0\0\0\0\x01\0\0\0\0\xc0\xf2\xa1\xb0\0\x09\x02f\x01\x04\0\0\0\0\0\0\0\x15\0\x09\x02g\x01\x05\0\
    \0\0\0\0\0\x1a\x15\0\x09\x02u\x01\x01\0\0\0\0\0\04\x15\0\0\0\0\x0e\0\0\0\x1c\0\0\0\x03\0\0\0\0c\
    \xf0\x2cjN\x08\x5b\x3a\0\0\0\0\0\0\0\0\0\0\0\0\0\0\0\0\0\0\0\0\0\0\0\0\0\0\0\0\0\0\0\0\0\0\0\0W\
    \xfb\x80\x8b\x24uG\xdb";

/// The table of `b` at 2 with a changed first byte.
pub const TABLE_B_TWO_SPOILT: &[u8] =
    b"\x01\x09\x01b\x01\x02\0\0\0\0\0\0x\0\0\0\0\x01\0\0\0\0\x8d\x9a\xfa\xfe\0\0\0\0\x01\0\0\0\0\
        \xc0\xf2\xa1\xb0\0\x09\x02b\x01\x02\0\0\0\0\0\0\0\x15\0\0\0\0\x01\0\0\0\0x\xb9Y\xc4\x1a\x08\
        '\x16\0\0\0\0\0\0\0\0\0\0\0\0\0\0\0\0\0\0\0\0\0\0\0\0\0\0\0\0\0\0\0\0\0\0\0\0W\xfb\x80\x8b$\
        uG\xdb";

/// Log 3, previous log 0, next file 8, last sequence 9, and at level 0 a compact pointer of `u`
/// at 2. Files 7 to 9 of level 0 are deleted. At level 1 file 5 has 127 bytes, from `a` at 1 to `b`
/// at 2. File 6 there has 114 bytes of `f` at 4, and file 7 has 114 bytes of `g` at 5.
/// `edit: log 3, previous 0, next 8, last 9, pointer 0 u@2 put, delete 0 7, delete 0 8, delete 0
/// 9, file 1 5 127 a@1 put .. b@2 put, file 1 6 114 f@4 put .. f@4 put, file 1 7 114 g@5 put ..
/// g@5 put`
pub const GRANDPARENTS_EDIT: &[u8] = b"\
    \x02\x03\x09\0\x03\x08\x04\x09\x05\0\x09u\x01\x02\0\0\0\0\0\0\x06\0\x07\x06\0\x08\x06\0\x09\
    \x07\x01\x05\x7f\x09a\x01\x01\0\0\0\0\0\0\x09b\x01\x02\0\0\0\0\0\0\x07\x01\x06r\x09f\x01\x04\0\
    \0\0\0\0\0\x09f\x01\x04\0\0\0\0\0\0\x07\x01\x07r\x09g\x01\x05\0\0\0\0\0\0\x09g\x01\x05\0\0\0\0\
    \0\0";

/// Log 3, previous log 0, next file 8, last sequence 9, and at level 1 a compact pointer of `u`
/// at 2. Files 7 to 9 of level 1 are deleted. At level 2 there are the files 5, 6 and 7 of 114
/// bytes each, of `a` at 1, `b` at 2 and `c` at 3.
/// `edit: log 3, previous 0, next 8, last 9, pointer 1 u@2 put, delete 1 7, delete 1 8, delete 1
/// 9, file 2 5 114 a@1 put .. a@1 put, file 2 6 114 b@2 put .. b@2 put, file 2 7 114 c@3 put ..
/// c@3 put`
pub const OUTPUTS_EDIT: &[u8] = b"\
    \x02\x03\x09\0\x03\x08\x04\x09\x05\x01\x09u\x01\x02\0\0\0\0\0\0\x06\x01\x07\x06\x01\x08\x06\
    \x01\x09\x07\x02\x05r\x09a\x01\x01\0\0\0\0\0\0\x09a\x01\x01\0\0\0\0\0\0\x07\x02\x06r\x09b\x01\
    \x02\0\0\0\0\0\0\x09b\x01\x02\0\0\0\0\0\0\x07\x02\x07r\x09c\x01\x03\0\0\0\0\0\0\x09c\x01\x03\0\
    \0\0\0\0\0";

/// `edit: log 3, previous 0, next 10, last 4, pointer 1 u@2 put, delete 1 7, file 2 9 157 a@1 put
/// .. u@4 del`
pub const DELETION_BLOCKS_EDIT: &[u8] = b"\
    \x02\x03\x09\0\x03\x0a\x04\x04\x05\x01\x09u\x01\x02\0\0\0\0\0\0\x06\x01\x07\x07\x02\x09\x9d\x01\
    \x09a\x01\x01\0\0\0\0\0\0\x09u\0\x04\0\0\0\0\0\0";

/// `edit: log 3, previous 0, next 7, last 9, pointer 0 u@2 put, delete 0 7, delete 0 8, delete 0 9,
/// delete 0 10, file 1 5 158 a@1 put .. b@2 put, file 1 6 202 f@4 put .. u@1 put`
pub const GRANDPARENT_BLOCKS_EDIT: &[u8] = b"\
    \x02\x03\x09\0\x03\x07\x04\x09\x05\0\x09u\x01\x02\0\0\0\0\0\0\x06\0\x07\x06\0\x08\x06\0\x09\x06\
    \0\x0a\x07\x01\x05\x9e\x01\x09a\x01\x01\0\0\0\0\0\0\x09b\x01\x02\0\0\0\0\0\0\x07\x01\x06\xca\
    \x01\x09f\x01\x04\0\0\0\0\0\0\x09u\x01\x01\0\0\0\0\0\0";

/// `edit: log 3, previous 0, next 7, last 9, pointer 1 u@2 put, delete 1 7, delete 1 8, delete 1 9,
/// delete 1 10, file 2 5 158 a@1 put .. b@2 put, file 2 6 158 c@3 put .. f@4 put`
pub const SIZE_BLOCKS_EDIT: &[u8] = b"\
    \x02\x03\x09\0\x03\x07\x04\x09\x05\x01\x09u\x01\x02\0\0\0\0\0\0\x06\x01\x07\x06\x01\x08\x06\x01\
    \x09\x06\x01\x0a\x07\x02\x05\x9e\x01\x09a\x01\x01\0\0\0\0\0\0\x09b\x01\x02\0\0\0\0\0\0\x07\x02\
    \x06\x9e\x01\x09c\x01\x03\0\0\0\0\0\0\x09f\x01\x04\0\0\0\0\0\0";

/// The snapshot of a version of one file at level 1, number 7, and log 3, previous log 0, next
/// file 9, last sequence 4.
/// `edit: comparator leveldb.BytewiseComparator, file 1 7 125 u@4 del .. u@2 put, log 3, previous
/// 0, next 9, last 4`
pub const VERSION_SEVEN: &[u8] = b"\
    \x01\x1aleveldb.BytewiseComparator\x07\x01\x07\x7d\x09u\0\x04\0\0\0\0\0\0\x09u\x01\x02\0\0\0\0\
    \0\0\x02\x03\x09\0\x03\x09\x04\x04";

/// The snapshot of the version after the edit that leaves one deletion: its compact pointer, and
/// its new file 9 of level 2. `edit: comparator leveldb.BytewiseComparator, pointer 1 u@2 put, file
/// 2 9 113 u@4 del .. u@4 del`
pub const SNAPSHOT_NINE: &[u8] = b"\
    \x01\x1aleveldb.BytewiseComparator\x05\x01\x09u\x01\x02\0\0\0\0\0\0\x07\x02\x09q\x09u\0\x04\0\
    \0\0\0\0\0\x09u\0\x04\0\0\0\0\0\0";

/// The snapshot of a version of log 3, previous log 0, next file 10 and last sequence 4. It has a
/// compact pointer of `u` at 2 at level 1 and no file.
/// `edit: comparator leveldb.BytewiseComparator, log 3, previous 0, next 10, last 4, pointer 1 u@2
/// put`
pub const VERSION_TEN: &[u8] = b"\
    \x01\x1aleveldb.BytewiseComparator\x02\x03\x09\0\x03\x0a\x04\x04\x05\x01\x09u\x01\x02\0\0\0\0\
    \0\0";

/// What the record `x` adds to a log after a record of 32,754 bytes: an empty first fragment, and
/// the last one.
pub const SHORT_RECORD: &[u8] = b"dQ\xd0\xe9\0\0\x02,t\x1b\xd8\x01\0\x04x";
