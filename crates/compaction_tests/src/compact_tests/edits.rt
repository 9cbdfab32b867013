//! Files of versions, and edits that compactions answer.

/// File 7 of level 1, the deletion of `u` at 4 over `u` at 2.
/// `edit: file 1 7 125 u@4 del .. u@2 put`
pub(crate) const DELETED_FILE: &[u8] =
    b"\x07\x01\x07\x7d\x09u\0\x04\0\0\0\0\0\0\x09u\x01\x02\0\0\0\0\0\0";

/// Log 3, previous log 0, next file 9, last sequence 4, the compact pointer of level 1 at `u` at
/// 2, and file 7 of level 1 deleted.
/// `edit: log 3, previous 0, next 9, last 4, pointer 1 u@2 put, delete 1 7`
pub(crate) const NOTHING_LEFT: &[u8] =
    b"\x02\x03\x09\0\x03\x09\x04\x04\x05\x01\x09u\x01\x02\0\0\0\0\0\0\x06\x01\x07";

/// `edit: file 1 7 125 u@4 del .. u@2 put, file 3 3 1 t@1 put .. v@1 put`
pub(crate) const DELETED_FILE_ABOVE: &[u8] = b"\
    \x07\x01\x07\x7d\x09u\0\x04\0\0\0\0\0\0\x09u\x01\x02\0\0\0\0\0\0\x07\x03\x03\x01\x09t\x01\x01\
    \0\0\0\0\0\0\x09v\x01\x01\0\0\0\0\0\0";

/// `edit: log 3, previous 0, next 10, last 4, pointer 1 u@2 put, delete 1 7, file 2 9 113 u@4 del
/// .. u@4 del`
pub(crate) const DELETION_LEFT: &[u8] = b"\
    \x02\x03\x09\0\x03\x0a\x04\x04\x05\x01\x09u\x01\x02\0\0\0\0\0\0\x06\x01\x07\x07\x02\x09q\x09u\
    \0\x04\0\0\0\0\0\0\x09u\0\x04\0\0\0\0\0\0";

/// Files 7, 8 and 9 of level 0: `a` at 1 and `f` at 4, `b` at 2 and `g` at 5, and the deletion of
/// `c` at 3. Files 4, 5 and 6 of level 2: `bb`, `d` and `ff`, of 120, 60 and 60 bytes.
/// `edit: file 0 7 127 a@1 put .. f@4 put, file 0 8 127 b@2 put .. g@5 put, file 0 9 113 c@3 del
/// .. c@3 del, file 2 4 120 bb@1 put .. bb@1 put, file 2 5 60 d@1 put .. d@1 put, file 2 6 60 ff@1
/// put .. ff@1 put`
pub(crate) const APART_FILES: &[u8] = b"\
    \x07\0\x07\x7f\x09a\x01\x01\0\0\0\0\0\0\x09f\x01\x04\0\0\0\0\0\0\x07\0\x08\x7f\x09b\x01\x02\0\
    \0\0\0\0\0\x09g\x01\x05\0\0\0\0\0\0\x07\0\x09q\x09c\0\x03\0\0\0\0\0\0\x09c\0\x03\0\0\0\0\0\0\
    \x07\x02\x04x\x0abb\x01\x01\0\0\0\0\0\0\x0abb\x01\x01\0\0\0\0\0\0\x07\x02\x05\x3c\x09d\x01\x01\
    \0\0\0\0\0\0\x09d\x01\x01\0\0\0\0\0\0\x07\x02\x06\x3c\x0aff\x01\x01\0\0\0\0\0\0\x0aff\x01\x01\
    \0\0\0\0\0\0";

/// File 7 of level 0: `a` at 1, `f` at 9 and at 4, and `g` at 5. File 4 of level 2: `f` at 6, of
/// 120 bytes.
/// `edit: file 0 7 151 a@1 put .. g@5 put, file 2 4 120 f@6 put .. f@6 put`
pub(crate) const WAITING_FILES: &[u8] = b"\
    \x07\0\x07\x97\x01\x09a\x01\x01\0\0\0\0\0\0\x09g\x01\x05\0\0\0\0\0\0\x07\x02\x04x\x09f\x01\x06\
    \0\0\0\0\0\0\x09f\x01\x06\0\0\0\0\0\0";

/// Files 7 and 8 of level 0: `a` at 1 and `c` at 3, and `b` at 2.
/// `edit: file 0 7 127 a@1 put .. c@3 put, file 0 8 114 b@2 put .. b@2 put`
pub(crate) const A_C_AND_B: &[u8] = b"\
    \x07\0\x07\x7f\x09a\x01\x01\0\0\0\0\0\0\x09c\x01\x03\0\0\0\0\0\0\x07\0\x08r\x09b\x01\x02\0\0\0\
    \0\0\0\x09b\x01\x02\0\0\0\0\0\0";

/// Log 3, previous log 0, next file 8, last sequence 9, and the compact pointer of level 0 at `c`
/// at 3. Files 7 and 8 of level 0 are deleted. The new files 5, 6 and 7 of level 1 have 114 bytes
/// each: `a` at 1, `b` at 2 and `c` at 3.
/// `edit: log 3, previous 0, next 8, last 9, pointer 0 c@3 put, delete 0 7, delete 0 8, file 1 5
/// 114 a@1 put .. a@1 put, file 1 6 114 b@2 put .. b@2 put, file 1 7 114 c@3 put .. c@3 put`
pub(crate) const EACH_EDIT: &[u8] = b"\
    \x02\x03\x09\0\x03\x08\x04\x09\x05\0\x09c\x01\x03\0\0\0\0\0\0\x06\0\x07\x06\0\x08\x07\x01\x05r\
    \x09a\x01\x01\0\0\0\0\0\0\x09a\x01\x01\0\0\0\0\0\0\x07\x01\x06r\x09b\x01\x02\0\0\0\0\0\0\x09b\
    \x01\x02\0\0\0\0\0\0\x07\x01\x07r\x09c\x01\x03\0\0\0\0\0\0\x09c\x01\x03\0\0\0\0\0\0";

/// File 7 of level 0: `u` at 9, 5 and 3.
/// `edit: file 0 7 136 u@9 put .. u@3 put`
pub(crate) const U_THRICE: &[u8] =
    b"\x07\0\x07\x88\x01\x09u\x01\x09\0\0\0\0\0\0\x09u\x01\x03\0\0\0\0\0\0";

/// Log 3, previous log 0, next file 6, last sequence 9, and the compact pointer of level 0 at `u`
/// at 3. File 7 of level 0 is deleted. The new file 5 of level 1 has 202 bytes: `u` from 9 to 3.
/// `edit: log 3, previous 0, next 6, last 9, pointer 0 u@3 put, delete 0 7, file 1 5 202 u@9 put ..
/// u@3 put`
pub(crate) const THRICE_EDIT: &[u8] = b"\
    \x02\x03\x09\0\x03\x06\x04\x09\x05\0\x09u\x01\x03\0\0\0\0\0\0\x06\0\x07\x07\x01\x05\xca\x01\x09\
    u\x01\x09\0\0\0\0\0\0\x09u\x01\x03\0\0\0\0\0\0";

/// Files 7 and 8 of level 0: `u` at 9 and `v` at 1, and `u` at 5 and 3.
/// `edit: file 0 7 127 u@9 put .. v@1 put, file 0 8 125 u@5 put .. u@3 put`
pub(crate) const U_AND_V: &[u8] = b"\
    \x07\0\x07\x7f\x09u\x01\x09\0\0\0\0\0\0\x09v\x01\x01\0\0\0\0\0\0\x07\0\x08\x7d\x09u\x01\x05\0\
    \0\0\0\0\0\x09u\x01\x03\0\0\0\0\0\0";

/// Files 7 and 8 of level 0: `u` at 9 and 5, and `u` at 7 and 3.
/// `edit: file 0 7 125 u@9 put .. u@5 put, file 0 8 125 u@7 put .. u@3 put`
pub(crate) const NEWER_AND_OLDER: &[u8] = b"\
    \x07\0\x07\x7d\x09u\x01\x09\0\0\0\0\0\0\x09u\x01\x05\0\0\0\0\0\0\x07\0\x08\x7d\x09u\x01\x07\0\
    \0\0\0\0\0\x09u\x01\x03\0\0\0\0\0\0";

/// File 7 of level 0: `u` at 12 and 9.
/// `edit: file 0 7 125 u@12 put .. u@9 put`
pub(crate) const ABOVE_LAST: &[u8] =
    b"\x07\0\x07\x7d\x09u\x01\x0c\0\0\0\0\0\0\x09u\x01\x09\0\0\0\0\0\0";

/// Files 7, 8 and 9 of level 0, each `u` at 5.
/// `edit: file 0 7 114 u@5 put .. u@5 put, file 0 8 114 u@5 put .. u@5 put, file 0 9 114 u@5 put
/// .. u@5 put`
pub(crate) const SAME: &[u8] = b"\
    \x07\0\x07r\x09u\x01\x05\0\0\0\0\0\0\x09u\x01\x05\0\0\0\0\0\0\x07\0\x08r\x09u\x01\x05\0\0\0\0\
    \0\0\x09u\x01\x05\0\0\0\0\0\0\x07\0\x09r\x09u\x01\x05\0\0\0\0\0\0\x09u\x01\x05\0\0\0\0\0\0";

/// Files 7 and 8 of level 0: `a` at 1 and `u` at 5, and `u` at 9.
/// `edit: file 0 7 127 a@1 put .. u@5 put, file 0 8 114 u@9 put .. u@9 put`
pub(crate) const A_U_AND_U: &[u8] = b"\
    \x07\0\x07\x7f\x09a\x01\x01\0\0\0\0\0\0\x09u\x01\x05\0\0\0\0\0\0\x07\0\x08r\x09u\x01\x09\0\0\0\
    \0\0\0\x09u\x01\x09\0\0\0\0\0\0";
