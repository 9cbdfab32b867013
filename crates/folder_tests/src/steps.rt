//! Steps of the tests: compactions that are installed.

/// A compaction that is installed. By `docs/RULES.md` each part sets the compact pointer that the
/// level has, or else its greatest key; inputs that the rules pick set their own greatest one.
#[derive(Clone, Copy)]
pub(crate) struct Step {
    pub manifest: u64,
    /// The number and the length of each output.
    pub outputs: &'static [(u64, u64)],
    /// The level and the number of each file that it deletes.
    pub deleted: &'static [(u64, u64)],
    pub edit: &'static [u8],
    /// The names of files that are given after it, for a removal.
    pub listed: &'static [&'static str],
}

/// `edit: log 3, previous 0, next 11, last 4, pointer 1 a@1 put, delete 1 7, file 2 10 114 a@1 put
/// .. a@1 put`
pub(crate) const EDIT: &[u8] = b"\
    \x02\x03\x09\0\x03\x0b\x04\x04\x05\x01\x09a\x01\x01\0\0\0\0\0\0\x06\x01\x07\x07\x02\x0ar\x09a\
    \x01\x01\0\0\0\0\0\0\x09a\x01\x01\0\0\0\0\0\0";

/// That of the folder of one file.
pub(crate) const ONE: Step = Step {
    manifest: 9,
    outputs: &[(10, 114)],
    deleted: &[(1, 7)],
    edit: EDIT,
    listed: &[],
};

/// `edit: log 3, previous 0, next 21, last 4, pointer 1 a@1 put, delete 1 17, file 2 20 114 a@1 put
/// .. a@1 put`
pub(crate) const FIRST_EDIT: &[u8] = b"\
    \x02\x03\x09\0\x03\x15\x04\x04\x05\x01\x09a\x01\x01\0\0\0\0\0\0\x06\x01\x11\x07\x02\x14r\x09a\
    \x01\x01\0\0\0\0\0\0\x09a\x01\x01\0\0\0\0\0\0";

/// Level 1 of the folder of three levels: the first of its two files.
pub(crate) const FIRST: Step = Step {
    manifest: 19,
    outputs: &[(20, 114)],
    deleted: &[(1, 17)],
    edit: FIRST_EDIT,
    listed: &[],
};

/// The other one, if the first was taken before.
/// `edit: log 3, previous 0, next 23, last 4, pointer 1 b@2 put, delete 1 18, file 2 22 114 b@2 put
/// .. b@2 put`
pub(crate) const SECOND_EDIT: &[u8] = b"\
    \x02\x03\x09\0\x03\x17\x04\x04\x05\x01\x09b\x01\x02\0\0\0\0\0\0\x06\x01\x12\x07\x02\x16r\x09b\
    \x01\x02\0\0\0\0\0\0\x09b\x01\x02\0\0\0\0\0\0";

/// `edit: log 3, previous 0, next 23, last 4, pointer 1 b@2 put, pointer 1 b@2 put, delete 1 17,
/// delete 1 18, file 2 20 114 a@1 put .. a@1 put, file 2 22 114 b@2 put .. b@2 put`
const BOTH_EDIT: &[u8] = b"\
    \x02\x03\x09\0\x03\x17\x04\x04\x05\x01\x09b\x01\x02\0\0\0\0\0\0\x05\x01\x09b\x01\x02\0\0\0\0\0\
    \0\x06\x01\x11\x06\x01\x12\x07\x02\x14r\x09a\x01\x01\0\0\0\0\0\0\x09a\x01\x01\0\0\0\0\0\0\x07\
    \x02\x16r\x09b\x01\x02\0\0\0\0\0\0\x09b\x01\x02\0\0\0\0\0\0";

/// Both files of level 1.
pub(crate) const BOTH: Step = Step {
    manifest: 19,
    outputs: &[(20, 114), (22, 114)],
    deleted: &[(1, 17), (1, 18)],
    edit: BOTH_EDIT,
    listed: &[],
};

/// `edit: log 3, previous 0, next 27, last 4, pointer 2 b@2 put, pointer 2 b@2 put, delete 2 20,
/// delete 2 22, delete 3 16, file 3 24 114 a@1 put .. a@1 put, file 3 26 114 b@2 put .. b@2 put`
const LAST_EDIT: &[u8] = b"\
    \x02\x03\x09\0\x03\x1b\x04\x04\x05\x02\x09b\x01\x02\0\0\0\0\0\0\x05\x02\x09b\x01\x02\0\0\0\0\0\
    \0\x06\x02\x14\x06\x02\x16\x06\x03\x10\x07\x03\x18r\x09a\x01\x01\0\0\0\0\0\0\x09a\x01\x01\0\0\
    \0\0\0\0\x07\x03\x1ar\x09b\x01\x02\0\0\0\0\0\0\x09b\x01\x02\0\0\0\0\0\0";

/// Both files of level 2 after that, with the one below the second.
pub(crate) const LAST: Step = Step {
    manifest: 23,
    outputs: &[(24, 114), (26, 114)],
    deleted: &[(2, 20), (2, 22), (3, 16)],
    edit: LAST_EDIT,
    listed: &[],
};

/// `edit: log 3, previous 0, next 25, last 4, pointer 2 b@2 put, delete 2 20, file 3 24 114 a@1 put
/// .. a@1 put`
const THIRD_EDIT: &[u8] = b"\
    \x02\x03\x09\0\x03\x19\x04\x04\x05\x02\x09b\x01\x02\0\0\0\0\0\0\x06\x02\x14\x07\x03\x18r\x09a\
    \x01\x01\0\0\0\0\0\0\x09a\x01\x01\0\0\0\0\0\0";

/// The first file of level 2 alone.
pub(crate) const THIRD: Step = Step {
    manifest: 23,
    outputs: &[(24, 114)],
    deleted: &[(2, 20)],
    edit: THIRD_EDIT,
    listed: &[],
};

/// `edit: log 3, previous 0, next 27, last 4, pointer 2 b@2 put, delete 2 22, delete 3 16, file 3
/// 26 114 b@2 put .. b@2 put`
const FOURTH_EDIT: &[u8] = b"\
    \x02\x03\x09\0\x03\x1b\x04\x04\x05\x02\x09b\x01\x02\0\0\0\0\0\0\x06\x02\x16\x06\x03\x10\x07\
    \x03\x1ar\x09b\x01\x02\0\0\0\0\0\0\x09b\x01\x02\0\0\0\0\0\0";

/// The second one after it, with the one below.
pub(crate) const FOURTH: Step = Step {
    manifest: 25,
    outputs: &[(26, 114)],
    deleted: &[(2, 22), (3, 16)],
    edit: FOURTH_EDIT,
    listed: &[],
};
