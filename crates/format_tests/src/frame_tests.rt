use std::alloc::Global;
use std::test::*;
use table::*;

/// The block of no entries.
const EMPTY_BLOCK: &[u8] = b"\0\0\0\0\x01\0\0\0";

/// That block as it is stored, with its trailer.
const STORED: &[u8; 13] = b"\0\0\0\0\x01\0\0\0\0\xc0\xf2\xa1\xb0";

const TRAILER: &[u8; TRAILER_LEN] = b"\0\xc0\xf2\xa1\xb0";

/// The footer of the table of one entry.
const ONE_ENTRY: Footer = Footer {
    metaindex: BlockHandle {
        offset: 26,
        size: 8,
    },
    index: BlockHandle {
        offset: 39,
        size: 22,
    },
};

/// The bytes of that footer: the handles, zeros and the magic.
const FOOTER: &[u8; FOOTER_LEN] =
    b"\x1a\x08\x27\x16\0\0\0\0\0\0\0\0\0\0\0\0\0\0\0\0\0\0\0\0\0\0\0\0\0\0\0\0\0\0\0\0\0\0\0\0\x57\
        \xfb\x80\x8b\x24\x75\x47\xdb";

/// Whether the block's trailer and the footer are written so, one after the other.
fn are_spelt(alloc: Global) -> bool {
    let mut out = Vec::new(alloc);
    Trailer::of(EMPTY_BLOCK).push(&mut out).is_ok()
        && ONE_ENTRY.push(&mut out).is_ok()
        && out.len() == TRAILER_LEN + FOOTER_LEN
        && out.starts_with(TRAILER)
        && out.ends_with(FOOTER)
}

/// Whether the stored block's contents are found, with the tests and without.
fn are_contents() -> bool {
    match contents(STORED) {
        Ok(found) => found == EMPTY_BLOCK && reopen_contents(STORED) == EMPTY_BLOCK,
        Err(_) => false,
    }
}

#[test]
fn a_stored_block_and_a_footer(rt: HostRuntime) {
    assert!(rt; are_spelt(rt.alloc()) && are_contents());
    assert!(rt; Footer::read(FOOTER) == Ok(ONE_ENTRY));
}
