use crate::tested_tables::{Parting, keys_of};
use coding::{Fault, FaultName};
use ikey::{Bytewise, InternalKey};
use split::{Split, one_choice};
use std::alloc::Global;
use std::process::Abort;
use std::test::*;
use table::{MAX_VALUE_LEN, Options, TableBuilder, check};

/// `table: a@1 put x | c@1 put x`
const A_AND_C: &[u8] = b"\
    \0\x09\x01a\x01\x01\0\0\0\0\0\0x\0\0\0\0\x01\0\0\0\0\x84\xdd\x88t\0\x09\x01c\x01\x01\0\0\0\0\0\
    \0x\0\0\0\0\x01\0\0\0\0q\x08\xfe\xae\0\0\0\0\x01\0\0\0\0\xc0\xf2\xa1\xb0\0\x09\x02a\x01\x01\0\
    \0\0\0\0\0\0\x15\0\x09\x02c\x01\x01\0\0\0\0\0\0\x1a\x15\0\0\0\0\x0e\0\0\0\x02\0\0\0\0\xf4l\xe2\
    \xb54\x08A\x28\0\0\0\0\0\0\0\0\0\0\0\0\0\0\0\0\0\0\0\0\0\0\0\0\0\0\0\0\0\0\0\0\0\0\0\0W\xfb\
    \x80\x8b\x24uG\xdb";

/// `table: b@1 put x | d@1 put x`
const B_AND_D: &[u8] = b"\
    \0\x09\x01b\x01\x01\0\0\0\0\0\0x\0\0\0\0\x01\0\0\0\0\xc7Z78\0\x09\x01d\x01\x01\0\0\0\0\0\0x\0\
    \0\0\0\x01\0\0\0\0\x89I\xba\x99\0\0\0\0\x01\0\0\0\0\xc0\xf2\xa1\xb0\0\x09\x02b\x01\x01\0\0\0\0\
    \0\0\0\x15\0\x09\x02d\x01\x01\0\0\0\0\0\0\x1a\x15\0\0\0\0\x0e\0\0\0\x02\0\0\0\0bCo\x214\x08A\
    \x28\0\0\0\0\0\0\0\0\0\0\0\0\0\0\0\0\0\0\0\0\0\0\0\0\0\0\0\0\0\0\0\0\0\0\0\0W\xfb\x80\x8b\x24u\
    G\xdb";

/// Which function takes boundaries from tables.
#[derive(Clone, Copy)]
enum Choice {
    OfAll,
    OfSample,
}

/// The boundaries that are taken if the indexes have the user keys a, c and b, d.
fn chosen(
    rt: &impl Abort,
    alloc: Global,
    choice: Choice,
    want: u64,
) -> Result<Split<Bytewise>, Fault> {
    let tables = [
        check::<Bytewise>(alloc, A_AND_C).expect(rt, "a table"),
        check::<Bytewise>(alloc, B_AND_D).expect(rt, "a table"),
    ];
    match choice {
        Choice::OfAll => Split::choose(alloc, &tables, want),
        Choice::OfSample => Split::sample(alloc, &tables, want),
    }
}

/// Whether the range of a number has these bounds.
fn has_bounds(
    split: &Split<Bytewise>,
    number: usize,
    lower: Option<&[u8]>,
    upper: Option<&[u8]>,
) -> bool {
    if number as u64 >= split.len() {
        return false;
    }
    let range = split.range(number as u64);
    range.lower == lower && range.upper == upper
}

/// Whether a split has these boundaries: each ends a range and begins the next.
fn has_boundaries(split: &Split<Bytewise>, boundaries: &[&[u8]]) -> bool {
    let mut lower = None;
    for (number, boundary) in boundaries.iter().enumerate() {
        if !has_bounds(split, number, lower, Some(*boundary)) {
            return false;
        }
        lower = Some(*boundary);
    }
    has_bounds(split, boundaries.len(), lower, None)
}

/// Boundaries, or their refusal.
type Wanted = Result<&'static [&'static [u8]], FaultName>;

/// Whether an answer is the wanted one.
fn is_answer(answer: Result<Split<Bytewise>, Fault>, wanted: &Wanted) -> bool {
    match (answer, wanted) {
        (Ok(split), Ok(boundaries)) => has_boundaries(&split, *boundaries),
        (Err(refused), Err(name)) => refused == Fault::of(*name),
        _ => false,
    }
}

/// How many ranges are wanted, and the boundaries chosen. A sample would be too small, so it is all
/// keys.
const CHOSEN: &[(u64, Wanted)] = &[
    (0, Err(FaultName::SplitCount)),
    (1, Ok(&[])),
    (2, Ok(&[b"c"])),
    (3, Ok(&[b"b", b"c"])),
    (8, Ok(&[b"a", b"b", b"c", b"d"])),
    (4_096, Ok(&[b"a", b"b", b"c", b"d"])),
    (4_097, Err(FaultName::SplitCount)),
];

#[test]
fn boundaries_that_are_chosen(rt: HostRuntime) {
    one_choice::<Bytewise>();
    for (want, wanted) in CHOSEN {
        assert!(rt;
            is_answer(chosen(&rt, rt.alloc(), Choice::OfAll, *want), wanted),
            "{want} ranges"
        );
        assert!(rt;
            is_answer(chosen(&rt, rt.alloc(), Choice::OfSample, *want), wanted),
            "{want} ranges of a sample"
        );
    }
}

/// The internal key of a number, put at 1: its two bytes, the most significant first, and the tag.
fn internal_key(number: u16) -> [u8; 10] {
    let [high, low] = number.to_be_bytes();
    [high, low, 1, 1, 0, 0, 0, 0, 0, 0]
}

/// Adds the entry of a number to a table.
fn add(rt: &impl Abort, table: &mut TableBuilder<Bytewise>, number: u16) {
    let bytes = internal_key(number);
    let key = InternalKey::parse(&bytes).expect(rt, "a key");
    let value = &bytes[..2];
    assert!(rt; table.is_above_last(&key) && value.len() <= MAX_VALUE_LEN);
    table.add(key, value).expect(rt, "memory");
}

/// The table of `count` numbers from `first` on, each in a block of its own.
fn table_of(rt: &impl Abort, alloc: Global, first: u16, count: u16) -> Vec<u8> {
    let options = Options {
        block_size: 1,
        ..Options::default()
    };
    assert!(rt; options.are_in_limits());
    let mut table = TableBuilder::<Bytewise>::new(alloc, options);
    for place in 0..count {
        add(rt, &mut table, first.wrapping_add(place));
    }
    table.finish().expect(rt, "memory")
}

/// Two tables of numbers: how many the first has from 0 on, and the first number of the second and
/// how many it has. Then how many ranges are wanted, how many there are, and the number of the
/// first boundary.
type Sampled = (u16, (u16, u16), u64, u64, u16);

/// Whether a split has as many ranges as its row says and that first boundary.
fn is_cut(split: &Split<Bytewise>, sampled: &Sampled) -> bool {
    let key = internal_key(sampled.4);
    split.len() == sampled.3 && has_bounds(split, 0, None, Some(&key[..2]))
}

/// Whether that is the split by a sample of the tables of these bytes.
fn is_sample(rt: &impl Abort, alloc: Global, files: &[Vec<u8>; 2], sampled: &Sampled) -> bool {
    let tables = [
        check::<Bytewise>(alloc, &files[0]).expect(rt, "a table"),
        check::<Bytewise>(alloc, &files[1]).expect(rt, "a table"),
    ];
    let split = Split::sample(alloc, &tables, sampled.2).expect(rt, "a split");
    is_cut(&split, sampled)
}

/// The same, after the tables are written.
fn is_sampled(rt: &impl Abort, alloc: Global, sampled: &Sampled) -> bool {
    let one = table_of(rt, alloc, 0, sampled.0);
    let other = table_of(rt, alloc, sampled.1.0, sampled.1.1);
    is_sample(rt, alloc, &[one, other], sampled)
}

/// A sample has the numbers 8, 24, 40 and so on up to 984 of a thousand: 62. That is enough for 15
/// ranges.
const SAMPLED: &[Sampled] = &[
    (1_000, (2_000, 1), 15, 15, 72),
    (1_000, (2_000, 1), 16, 16, 62),
];

#[test]
fn boundaries_that_are_sampled(rt: HostRuntime) {
    for sampled in SAMPLED {
        assert!(rt; is_sampled(&rt, rt.alloc(), sampled), "{:?}", sampled);
    }
}

/// How many ranges there are between these boundaries.
fn ranges_between(rt: &impl Abort, alloc: Global, parting: &Parting) -> Result<u64, Fault> {
    let split = Split::<Bytewise>::from_keys(keys_of(rt, alloc, *parting))?;
    Ok(split.len())
}

/// The refusal of boundaries that do not rise.
const NOT_RISING: Fault = Fault {
    name: FaultName::SplitOrder,
    input: None,
};

/// The refusal of too many boundaries.
const TOO_MANY: Fault = Fault {
    name: FaultName::SplitCount,
    input: None,
};

/// Boundaries, and the number of ranges between them.
const GIVEN: &[(&str, Parting, Result<u64, Fault>)] = &[
    ("c and m", (0x6300, 0x0a00, 2), Ok(3)),
    ("m and m", (0x6d00, 0, 2), Err(NOT_RISING)),
    ("n and m", (0x6e00, 0xff00, 2), Err(NOT_RISING)),
    ("as many as there may be", (0, 1, 4_095), Ok(4_096)),
    ("one too many", (0, 1, 4_096), Err(TOO_MANY)),
];

#[test]
fn boundaries_that_are_given(rt: HostRuntime) {
    for (name, parting, wanted) in GIVEN {
        assert!(rt;
            ranges_between(&rt, rt.alloc(), parting) == *wanted,
            "{name}"
        );
    }
}
