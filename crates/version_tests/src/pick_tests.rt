use coding::{Fault, FaultName};
use edit::{CompactPointer, FileMeta, Version, VersionEdit};
use ikey::{Bytewise, InternalKey, KeyBuf, Shortlex};
use pick::{
    InputFile, Inputs, apart_is_closed, apart_share_none, finest_parts, first_missing, inputs,
    is_base, numbered_inputs, one_choice, stays_apart,
};
use std::alloc::Global;
use std::process::Abort;
use std::test::*;

// The bytes of edits that make the versions. A file has a level, a number, a size, and the internal
// keys of its first and last entry.

/// Three files of level 0 that overlap one after the other, and one apart.
/// `edit: file 0 7 100 c@4 put .. e@4 put, file 0 5 100 e@2 put .. g@2 put, file 0 4 100 a@1 put
/// .. c@1 put, file 0 6 100 x@3 put .. z@3 put`
const OVERLAPPING: &[u8] = b"\
    \x07\0\x07d\x09c\x01\x04\0\0\0\0\0\0\x09e\x01\x04\0\0\0\0\0\0\x07\0\x05d\x09e\x01\x02\0\0\0\0\
    \0\0\x09g\x01\x02\0\0\0\0\0\0\x07\0\x04d\x09a\x01\x01\0\0\0\0\0\0\x09c\x01\x01\0\0\0\0\0\0\x07\
    \0\x06d\x09x\x01\x03\0\0\0\0\0\0\x09z\x01\x03\0\0\0\0\0\0";

/// Two files of one user key, and one after it. `edit: file 1 8 100 u@10 put .. u@10 put, file 1 9
/// 100 u@5 put .. u@5 put, file 1 3 100 v@4 put .. w@4 put`
const OF_ONE_KEY: &[u8] = b"\
    \x07\x01\x08d\x09u\x01\x0a\0\0\0\0\0\0\x09u\x01\x0a\0\0\0\0\0\0\x07\x01\x09d\x09u\x01\x05\0\0\
    \0\0\0\0\x09u\x01\x05\0\0\0\0\0\0\x07\x01\x03d\x09v\x01\x04\0\0\0\0\0\0\x09w\x01\x04\0\0\0\0\0\
    \0";

/// Three files each of which shares a user key with the next, and one after them. `edit: file 1 8
/// 100 a@10 put .. u@10 put, file 1 2 100 u@5 put .. v@7 put, file 1 3 100 v@4 put .. v@2 put, file
/// 1 4 100 w@4 put .. w@2 put`
const CHAINED: &[u8] = b"\
    \x07\x01\x08d\x09a\x01\x0a\0\0\0\0\0\0\x09u\x01\x0a\0\0\0\0\0\0\x07\x01\x02d\x09u\x01\x05\0\0\
    \0\0\0\0\x09v\x01\x07\0\0\0\0\0\0\x07\x01\x03d\x09v\x01\x04\0\0\0\0\0\0\x09v\x01\x02\0\0\0\0\0\
    \0\x07\x01\x04d\x09w\x01\x04\0\0\0\0\0\0\x09w\x01\x02\0\0\0\0\0\0";

/// Compact pointers of level 1 and level 2, and three files of level 2, the second of which ends
/// at its pointer.
/// `edit: pointer 1 b@1 put, pointer 2 f@5 put, file 2 4 100 b@3 put .. c@3 put, file 2 2 100 e@5
/// put .. f@5 put, file 2 3 100 h@6 put .. i@6 put`
const POINTED: &[u8] = b"\
    \x05\x01\x09b\x01\x01\0\0\0\0\0\0\x05\x02\x09f\x01\x05\0\0\0\0\0\0\x07\x02\x04d\x09b\x01\x03\0\
    \0\0\0\0\0\x09c\x01\x03\0\0\0\0\0\0\x07\x02\x02d\x09e\x01\x05\0\0\0\0\0\0\x09f\x01\x05\0\0\0\0\
    \0\0\x07\x02\x03d\x09h\x01\x06\0\0\0\0\0\0\x09i\x01\x06\0\0\0\0\0\0";

/// Files of five levels.
/// `edit: file 1 2 100 c@9 put .. e@9 put, file 1 3 100 p@9 put .. q@9 put, file 2 4 100 a@8 put
/// .. b@8 put, file 2 5 100 b@7 put .. c@8 put, file 2 6 100 d@8 put .. g@8 put, file 2 7 100 g@7
/// put .. h@7 put, file 2 8 100 i@8 put .. j@8 put, file 3 9 100 a@4 put .. a@4 put, file 3 10 100
/// h@4 put .. h@4 put, file 3 11 100 i@4 put .. i@4 put, file 5 12 100 x@3 put .. z@3 put, file 6
/// 13 100 r@2 put .. s@2 put`
const LEVELS: &[u8] = b"\
    \x07\x01\x02d\x09c\x01\x09\0\0\0\0\0\0\x09e\x01\x09\0\0\0\0\0\0\x07\x01\x03d\x09p\x01\x09\0\0\
    \0\0\0\0\x09q\x01\x09\0\0\0\0\0\0\x07\x02\x04d\x09a\x01\x08\0\0\0\0\0\0\x09b\x01\x08\0\0\0\0\0\
    \0\x07\x02\x05d\x09b\x01\x07\0\0\0\0\0\0\x09c\x01\x08\0\0\0\0\0\0\x07\x02\x06d\x09d\x01\x08\0\
    \0\0\0\0\0\x09g\x01\x08\0\0\0\0\0\0\x07\x02\x07d\x09g\x01\x07\0\0\0\0\0\0\x09h\x01\x07\0\0\0\0\
    \0\0\x07\x02\x08d\x09i\x01\x08\0\0\0\0\0\0\x09j\x01\x08\0\0\0\0\0\0\x07\x03\x09d\x09a\x01\x04\
    \0\0\0\0\0\0\x09a\x01\x04\0\0\0\0\0\0\x07\x03\x0ad\x09h\x01\x04\0\0\0\0\0\0\x09h\x01\x04\0\0\0\
    \0\0\0\x07\x03\x0bd\x09i\x01\x04\0\0\0\0\0\0\x09i\x01\x04\0\0\0\0\0\0\x07\x05\x0cd\x09x\x01\
    \x03\0\0\0\0\0\0\x09z\x01\x03\0\0\0\0\0\0\x07\x06\x0dd\x09r\x01\x02\0\0\0\0\0\0\x09s\x01\x02\0\
    \0\0\0\0\0";

/// The version that an edit makes of the empty one.
pub(crate) fn version_of(rt: &impl Abort, alloc: Global, edit: &[u8]) -> Version {
    let edit = VersionEdit::decode(alloc, edit).expect(rt, "an edit");
    Version::empty(alloc)
        .applied::<Bytewise>(edit)
        .expect(rt, "a version")
}

/// The inputs of a compaction of a level of that version.
fn chosen(rt: &impl Abort, alloc: Global, edit: &[u8], level: u64) -> Result<Inputs, Fault> {
    inputs::<Bytewise>(alloc, &version_of(rt, alloc, edit), level)
}

/// The inputs of a compaction.
struct Taken {
    /// The levels and the numbers of its files.
    files: &'static [(u64, u64)],
    /// The internal key of its compact pointer.
    pointer: &'static [u8],
    /// The numbers of the grandparents, and of the deeper files.
    grandparents: &'static [u64],
    deeper: &'static [u64],
}

/// A version, a level, and the inputs of its compaction, or their refusal.
type Row = (&'static [u8], u64, Result<Taken, FaultName>);

const ROWS: &[Row] = &[
    (
        OVERLAPPING,
        0,
        Ok(Taken {
            files: &[(0, 4), (0, 7), (0, 5)],
            pointer: b"g\x01\x02\0\0\0\0\0\0",
            grandparents: &[],
            deeper: &[],
        }),
    ),
    (
        OF_ONE_KEY,
        1,
        Ok(Taken {
            files: &[(1, 8), (1, 9)],
            pointer: b"u\x01\x05\0\0\0\0\0\0",
            grandparents: &[],
            deeper: &[],
        }),
    ),
    (
        CHAINED,
        1,
        Ok(Taken {
            files: &[(1, 8), (1, 2), (1, 3)],
            pointer: b"v\x01\x02\0\0\0\0\0\0",
            grandparents: &[],
            deeper: &[],
        }),
    ),
    (
        POINTED,
        2,
        Ok(Taken {
            files: &[(2, 3)],
            pointer: b"i\x01\x06\0\0\0\0\0\0",
            grandparents: &[],
            deeper: &[],
        }),
    ),
    (
        LEVELS,
        1,
        Ok(Taken {
            files: &[(1, 2), (2, 5), (2, 6), (2, 7)],
            pointer: b"e\x01\x09\0\0\0\0\0\0",
            grandparents: &[10],
            deeper: &[9, 10, 11, 12, 13],
        }),
    ),
    // There is nothing below the last level.
    (
        LEVELS,
        5,
        Ok(Taken {
            files: &[(5, 12)],
            pointer: b"z\x01\x03\0\0\0\0\0\0",
            grandparents: &[],
            deeper: &[],
        }),
    ),
    // Levels without a file, and levels above 5.
    (CHAINED, 0, Err(FaultName::NoInput)),
    (CHAINED, 2, Err(FaultName::NoInput)),
    (CHAINED, 5, Err(FaultName::NoInput)),
    (CHAINED, 6, Err(FaultName::Level)),
    (CHAINED, 7, Err(FaultName::Level)),
    (b"", 6, Err(FaultName::Level)),
];

/// Whether inputs have these levels and numbers.
fn are_files(found: &[InputFile], wanted: &[(u64, u64)]) -> bool {
    for (file, place) in found.iter().zip(wanted) {
        if (file.level, file.meta.number) != *place {
            return false;
        }
    }
    found.len() == wanted.len()
}

/// Whether files have these numbers.
fn are_numbered(found: &[FileMeta], wanted: &[u64]) -> bool {
    for (file, number) in found.iter().zip(wanted) {
        if file.number != *number {
            return false;
        }
    }
    found.len() == wanted.len()
}

/// Whether inputs are these, of a compaction of this level.
fn are_taken(found: &Inputs, level: u64, wanted: &Taken) -> bool {
    found.level == level
        && found.pointer.level == level
        && found.pointer.key.as_key().bytes() == wanted.pointer
        && are_files(&found.files, wanted.files)
        && are_numbered(&found.grandparents, wanted.grandparents)
        && are_numbered(&found.deeper, wanted.deeper)
}

/// Whether a compaction has the inputs of its row, or its refusal.
fn is_answered(rt: &impl Abort, alloc: Global, row: &Row) -> bool {
    match (chosen(rt, alloc, row.0, row.1), &row.2) {
        (Ok(found), Ok(wanted)) => are_taken(&found, row.1, wanted),
        (Err(refused), Err(wanted)) => refused.name == *wanted,
        _ => false,
    }
}

/// Whether each of these user keys of one byte is at its base, or none is.
fn are_base(found: &Inputs, users: &[u8], wanted: bool) -> bool {
    for user in users {
        if is_base::<Bytewise>(found, &[*user]) != wanted {
            return false;
        }
    }
    true
}

/// Whether some deeper file's range has each of `h`, `x`, `y`, `z`, `r` and `s`, and none has `g`,
/// `j`, `w`, `t` or `q`.
fn are_told(rt: &impl Abort, alloc: Global) -> bool {
    let found = chosen(rt, alloc, LEVELS, 1).expect(rt, "inputs");
    are_base(&found, b"hxyzrs", false) && are_base(&found, b"gjwtq", true)
}

#[test]
fn inputs_and_user_keys_below_them(rt: HostRuntime) {
    one_choice::<Bytewise>();
    one_choice::<Shortlex>();
    assert!(rt; are_told(&rt, rt.alloc()));
    for (place, row) in ROWS.iter().enumerate() {
        assert!(rt; is_answered(&rt, rt.alloc(), row), "row {place}");
    }
}

/// A version, a level, the numbers of chosen files, and the level and number of the first file that
/// they miss, or the refusal.
type Choice = (
    &'static [u8],
    u64,
    &'static [u64],
    Result<Option<(u64, u64)>, FaultName>,
);

const CHOICES: &[Choice] = &[
    // Level 0: each file whose user keys overlap those of a chosen one, along the chain of them.
    (OVERLAPPING, 0, &[4, 7, 5], Ok(None)),
    (OVERLAPPING, 0, &[4, 7], Ok(Some((0, 5)))),
    (OVERLAPPING, 0, &[7, 5], Ok(Some((0, 4)))),
    (OVERLAPPING, 0, &[4], Ok(Some((0, 7)))),
    (OVERLAPPING, 0, &[7], Ok(Some((0, 4)))),
    // The file that is left is newer.
    (OVERLAPPING, 0, &[5, 4], Ok(Some((0, 7)))),
    // One that lies apart, and all four.
    (OVERLAPPING, 0, &[6], Ok(None)),
    (OVERLAPPING, 0, &[5, 6, 7, 4], Ok(None)),
    // The boundary file of a chosen file, also if that isn't the last one. The newer of two may
    // stay.
    (OF_ONE_KEY, 1, &[8], Ok(Some((1, 9)))),
    (OF_ONE_KEY, 1, &[3, 8], Ok(Some((1, 9)))),
    (OF_ONE_KEY, 1, &[9], Ok(None)),
    (OF_ONE_KEY, 1, &[8, 9], Ok(None)),
    (OF_ONE_KEY, 1, &[3], Ok(None)),
    (CHAINED, 1, &[8], Ok(Some((1, 2)))),
    (CHAINED, 1, &[8, 2], Ok(Some((1, 3)))),
    (CHAINED, 1, &[8, 2, 3], Ok(None)),
    // The next level: files that overlap those of the level.
    (LEVELS, 1, &[2, 5, 6, 7], Ok(None)),
    (LEVELS, 1, &[2], Ok(Some((2, 5)))),
    (LEVELS, 1, &[2, 6, 7], Ok(Some((2, 5)))),
    (LEVELS, 1, &[2, 5], Ok(Some((2, 6)))),
    (LEVELS, 1, &[3], Ok(None)),
    // What lies between files of the level overlaps them.
    (LEVELS, 1, &[2, 3, 5, 6, 7], Ok(Some((2, 8)))),
    (LEVELS, 1, &[2, 3, 5, 6, 7, 8], Ok(None)),
    // The boundary files of the next level.
    (LEVELS, 1, &[2, 5, 6], Ok(Some((2, 7)))),
    (CHAINED, 0, &[8], Ok(Some((1, 2)))),
    (CHAINED, 0, &[8, 3], Ok(Some((1, 2)))),
    (CHAINED, 0, &[8, 2], Ok(Some((1, 3)))),
    (CHAINED, 0, &[3], Ok(None)),
    // What lies between inputs of the two levels, or between two of the next.
    (LEVELS, 1, &[3, 5], Ok(Some((2, 6)))),
    (LEVELS, 1, &[5, 7], Ok(Some((2, 6)))),
    (LEVELS, 1, &[4, 5], Ok(None)),
    (LEVELS, 5, &[12, 13], Ok(None)),
    // Nothing, a number that no file has, and one of another level.
    (LEVELS, 1, &[], Ok(None)),
    (LEVELS, 1, &[99, 9], Ok(None)),
    (LEVELS, 6, &[13], Err(FaultName::Level)),
];

/// Whether a choice misses the file of its row, or is refused as it says.
fn is_told(rt: &impl Abort, alloc: Global, row: &Choice) -> bool {
    let version = version_of(rt, alloc, row.0);
    match (
        first_missing::<Bytewise>(alloc, &version, row.1, row.2),
        &row.3,
    ) {
        (Ok(Some(file)), Ok(Some(place))) => (file.level, file.meta.number) == *place,
        (Ok(None), Ok(None)) => true,
        (Err(refused), Err(wanted)) => refused.name == *wanted,
        _ => false,
    }
}

#[test]
fn closed_choices_and_what_others_miss(rt: HostRuntime) {
    for (place, row) in CHOICES.iter().enumerate() {
        assert!(rt; is_told(&rt, rt.alloc(), row), "choice {place}");
    }
}

/// A version, a level, the numbers of chosen files, and their inputs with a compact pointer, or the
/// refusal.
type Numbered = (&'static [u8], u64, &'static [u64], Result<Taken, FaultName>);

const NUMBERED: &[Numbered] = &[
    (
        LEVELS,
        1,
        &[7, 3, 99, 9],
        Ok(Taken {
            files: &[(1, 3), (2, 7)],
            pointer: b"d\x01\x08\0\0\0\0\0\0",
            grandparents: &[10, 11],
            deeper: &[9, 10, 11, 12, 13],
        }),
    ),
    (
        OVERLAPPING,
        0,
        &[5],
        Ok(Taken {
            files: &[(0, 5)],
            pointer: b"d\x01\x08\0\0\0\0\0\0",
            grandparents: &[],
            deeper: &[],
        }),
    ),
    (LEVELS, 1, &[5], Err(FaultName::NoInput)),
    (LEVELS, 1, &[], Err(FaultName::NoInput)),
    (LEVELS, 6, &[13], Err(FaultName::Level)),
];

/// Whether a choice has the inputs of its row, with a compact pointer that the row gives.
fn are_numbered_so(rt: &impl Abort, alloc: Global, row: &Numbered) -> bool {
    let version = version_of(rt, alloc, row.0);
    let key = InternalKey::parse(b"d\x01\x08\0\0\0\0\0\0").expect(rt, "a key");
    let pointer = CompactPointer {
        level: row.1,
        key: KeyBuf::of(alloc, key).expect(rt, "a copy"),
    };
    match (
        numbered_inputs::<Bytewise>(alloc, &version, &pointer, row.2),
        &row.3,
    ) {
        (Ok(found), Ok(wanted)) => are_taken(&found, row.1, wanted),
        (Err(refused), Err(wanted)) => refused.name == *wanted,
        _ => false,
    }
}

#[test]
fn inputs_that_are_chosen_by_number(rt: HostRuntime) {
    for (place, row) in NUMBERED.iter().enumerate() {
        assert!(rt; are_numbered_so(&rt, rt.alloc(), row), "choice {place}");
    }
}

/// A file that ends before it begins. `edit: file 1 8 100 b@1 put .. a@1 put`
const TURNED: &[u8] = b"\
    \x07\x01\x08d\x09b\x01\x01\0\0\0\0\0\0\x09a\x01\x01\0\0\0\0\0\0";

/// A version, a level, and of each part the files and the compact pointer; or the refusal.
type Parted = (
    &'static [u8],
    u64,
    Result<(&'static [&'static [(u64, u64)]], &'static [u8]), FaultName>,
);

const PARTED: &[Parted] = &[
    // Level 0: a chain of overlaps, and a file apart.
    (
        OVERLAPPING,
        0,
        Ok((
            &[&[(0, 4), (0, 7), (0, 5)], &[(0, 6)]],
            b"z\x01\x03\0\0\0\0\0\0",
        )),
    ),
    // Files that share a user key, and one apart.
    (
        CHAINED,
        1,
        Ok((
            &[&[(1, 8), (1, 2), (1, 3)], &[(1, 4)]],
            b"w\x01\x02\0\0\0\0\0\0",
        )),
    ),
    // Each file is a part, and the compact pointer stays.
    (
        POINTED,
        2,
        Ok((&[&[(2, 4)], &[(2, 2)], &[(2, 3)]], b"f\x01\x05\0\0\0\0\0\0")),
    ),
    // Files of the next level, and those that share a user key with these. One is in no part.
    (
        LEVELS,
        1,
        Ok((
            &[&[(1, 2), (2, 4), (2, 5), (2, 6), (2, 7)], &[(1, 3)]],
            b"q\x01\x09\0\0\0\0\0\0",
        )),
    ),
    // One part, and none.
    (LEVELS, 5, Ok((&[&[(5, 12)]], b"z\x01\x03\0\0\0\0\0\0"))),
    (CHAINED, 0, Ok((&[], b""))),
    (LEVELS, 6, Err(FaultName::Level)),
    (TURNED, 1, Err(FaultName::Lawless)),
    (TURNED, 0, Err(FaultName::Lawless)),
];

/// Whether inputs are these parts, each with this compact pointer.
fn are_parts(found: &[Inputs], parts: &[&[(u64, u64)]], pointer: &[u8]) -> bool {
    for (part, files) in found.iter().zip(parts) {
        if !are_files(&part.files, *files) || part.pointer.key.as_key().bytes() != pointer {
            return false;
        }
    }
    found.len() == parts.len()
}

/// Whether a level has the parts of its row, or its refusal.
fn is_parted(rt: &impl Abort, alloc: Global, row: &Parted) -> bool {
    let version = version_of(rt, alloc, row.0);
    match (finest_parts::<Bytewise>(alloc, &version, row.1), &row.2) {
        (Ok(found), Ok(wanted)) => are_parts(&found, wanted.0, wanted.1),
        (Err(refused), Err(wanted)) => refused.name == *wanted,
        _ => false,
    }
}

#[test]
fn parts_of_levels(rt: HostRuntime) {
    apart_is_closed::<Bytewise>();
    stays_apart::<Shortlex>();
    apart_share_none::<Bytewise>();
    for (place, row) in PARTED.iter().enumerate() {
        assert!(rt; is_parted(&rt, rt.alloc(), row), "row {place}");
    }
}
