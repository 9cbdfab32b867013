use coding::*;
use std::alloc::Global;
use std::test::*;

/// A number and its length in bytes; None if the bytes don't begin with one.
type Found<T> = Option<(T, usize)>;

/// Bytes, and the 64-bit and 32-bit numbers with which they begin.
const NUMBERS: &[(&[u8], Found<u64>, Found<u32>)] = &[
    (b"\0", Some((0, 1)), Some((0, 1))),
    (b"\xac\x02", Some((300, 2)), Some((300, 2))),
    (b"\xac\x02\xff", Some((300, 2)), Some((300, 2))),
    (
        b"\xff\xff\xff\xff\x0f",
        Some((4_294_967_295, 5)),
        Some((4_294_967_295, 5)),
    ),
    // 2^33 - 1.
    (b"\xff\xff\xff\xff\x1f", Some((8_589_934_591, 5)), None),
    (
        b"\xff\xff\xff\xff\xff\xff\xff\xff\xff\x01",
        Some((u64::MAX, 10)),
        None,
    ),
    (b"\xff\xff\xff\xff\xff\xff\xff\xff\xff\x02", None, None),
    // Longer than needed, and without an end.
    (b"\x80\0", None, None),
    (b"\x80", None, None),
    (b"", None, None),
];

/// Whether numbers and a slice are written so, one after the other.
fn are_spelt(alloc: Global) -> bool {
    let mut out = Vec::new(alloc);
    let is_pushed = push_varint(&mut out, 0).is_ok()
        && push_varint(&mut out, 300).is_ok()
        && push_varint(&mut out, u64::MAX).is_ok()
        && push_slice(&mut out, b"abc").is_ok();
    is_pushed
        && out.as_slice() == b"\0\xac\x02\xff\xff\xff\xff\xff\xff\xff\xff\xff\x01\x03abc".as_slice()
}

#[test]
fn numbers_are_spelt_and_read(rt: HostRuntime) {
    assert!(rt; are_spelt(rt.alloc()));
    for (bytes, wide, narrow) in NUMBERS {
        let is_read = read_u64_varint(bytes) == *wide && read_u32_varint(bytes) == *narrow;
        assert!(rt; is_read, "{bytes:?}");
    }
}

/// Two slices, and the length of what they share.
const BEGINNINGS: &[(&[u8], &[u8], usize)] = &[
    (b"abc", b"abd", 2),
    (b"abcdefghijklmnopQr", b"abcdefghijklmnopqr", 16),
];

#[test]
fn beginnings_are_found(rt: HostRuntime) {
    for (first, second, len) in BEGINNINGS {
        assert!(rt; common_len(first, second) == *len, "{first:?}");
    }
}

/// The names of faults, and their numbers.
const CODES: &[(FaultName, u64)] = &[
    (FaultName::NoInput, 1),
    (FaultName::Level, 2),
    (FaultName::Options, 3),
    (FaultName::SplitOrder, 4),
    (FaultName::SplitCount, 5),
    (FaultName::Workers, 6),
    (FaultName::Snapshot, 7),
    (FaultName::Size, 8),
    (FaultName::Short, 9),
    (FaultName::Magic, 10),
    (FaultName::Handle, 11),
    (FaultName::Range, 12),
    (FaultName::Trailer, 13),
    (FaultName::Compressed, 14),
    (FaultName::BlockType, 15),
    (FaultName::Block, 16),
    (FaultName::Key, 17),
    (FaultName::Index, 18),
    (FaultName::Order, 19),
    (FaultName::Empty, 20),
    (FaultName::Bounds, 21),
    (FaultName::Duplicate, 22),
    (FaultName::Numbers, 23),
    (FaultName::TooLarge, 24),
    (FaultName::SnapshotList, 25),
    (FaultName::LogChecksum, 30),
    (FaultName::LogShape, 31),
    (FaultName::EditTag, 32),
    (FaultName::EditField, 33),
    (FaultName::Comparator, 34),
    (FaultName::Apply, 35),
    (FaultName::Lawless, 36),
    (FaultName::Device, 40),
    (FaultName::Missing, 41),
    (FaultName::Locked, 42),
    (FaultName::Changed, 43),
    (FaultName::Logs, 44),
    (FaultName::Memory, 99),
];

#[test]
fn faults_have_numbers(rt: HostRuntime) {
    for (name, number) in CODES {
        assert!(rt; Fault::of(*name).code() == *number, "{number}");
    }
}

/// Bytes, their CRC, and how formats store it: the check value of the catalogues of CRCs, three of
/// RFC 3720, appendix B.4, and short ones as other programs give them.
const VECTORS: &[(&[u8], u32, u32)] = &[
    (b"123456789", 0xe306_9283, 0xc78a_b0e5),
    (&[0; 32], 0x8a91_36aa, 0x0fd7_fffa),
    (&[0xff; 32], 0x62a8_ab43, 0xf909_b029),
    (
        &[
            0, 1, 2, 3, 4, 5, 6, 7, 8, 9, 10, 11, 12, 13, 14, 15, 16, 17, 18, 19, 20, 21, 22, 23,
            24, 25, 26, 27, 28, 29, 30, 31,
        ],
        0x46dd_794e,
        0x951f_7892,
    ),
    (&[1], 0xa016_d052, 0x4328_2b05),
    (&[2], 0xb346_23a6, 0xe9d0_5164),
    (&[4, 0x78], 0x44aa_1acc, 0xd81b_742c),
    (&[0, 0, 0, 0, 1, 0, 0, 0, 0], 0x83f4_070f, 0xb0a1_f2c0),
];

/// Whether this is the CRC of bytes, and of two parts of them.
fn is_crc(bytes: &[u8], crc: u32) -> bool {
    let (first, second) = bytes.split_at(bytes.len() / 3);
    crc32c(bytes) == crc && crc32c_plain(bytes) == crc && crc32c_pair(first, second) == crc
}

#[test]
fn crcs_and_masks_of_other_programs(rt: HostRuntime) {
    for (bytes, crc, masked) in VECTORS {
        let is_masked = mask(*crc) == *masked && unmask(*masked) == *crc;
        assert!(rt; is_crc(bytes, *crc) && is_masked, "{crc:x}");
    }
}
