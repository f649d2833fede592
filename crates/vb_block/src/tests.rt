// Digests that others computed, and each call once.
use super::*;
use sha2::{Digest as Hasher, Sha256};
use std::test::Fail;

// The digests of 4,096 zeros and of 4,064 zeros.
const OF_ZERO_PAGE: [u8; 32] = [
    0xad, 0x7f, 0xac, 0xb2, 0x58, 0x6f, 0xc6, 0xe9, 0x66, 0xc0, 0x04, 0xd7, 0xd1, 0xd1, 0x6b, 0x02,
    0x4f, 0x58, 0x05, 0xff, 0x7c, 0xb4, 0x7c, 0x7a, 0x85, 0xda, 0xbd, 0x8b, 0x48, 0x89, 0x2c, 0xa7,
];

const OF_SEALED_ZEROS: [u8; 32] = [
    0x81, 0xac, 0x48, 0xa9, 0xd4, 0xa7, 0x8e, 0xbe, 0xd4, 0x62, 0x83, 0x74, 0x53, 0x9d, 0xbb, 0x2f,
    0xc1, 0x63, 0x37, 0x9c, 0x39, 0x40, 0x99, 0x5e, 0x8b, 0x8f, 0x7b, 0x31, 0x61, 0x4b, 0x8c, 0xde,
];

// The two short messages of FIPS 180-4's examples.
const OF_ABC: [u8; 32] = [
    0xba, 0x78, 0x16, 0xbf, 0x8f, 0x01, 0xcf, 0xea, 0x41, 0x41, 0x40, 0xde, 0x5d, 0xae, 0x22, 0x23,
    0xb0, 0x03, 0x61, 0xa3, 0x96, 0x17, 0x7a, 0x9c, 0xb4, 0x10, 0xff, 0x61, 0xf2, 0x00, 0x15, 0xad,
];

const OF_TWO_BLOCKS: [u8; 32] = [
    0x24, 0x8d, 0x6a, 0x61, 0xd2, 0x06, 0x38, 0xb8, 0xe5, 0xc0, 0x26, 0x93, 0x0c, 0x3e, 0x60, 0x39,
    0xa3, 0x3c, 0xe4, 0x59, 0x64, 0xff, 0x21, 0x67, 0xf6, 0xec, 0xed, 0xd4, 0x19, 0xdb, 0x06, 0xc1,
];

#[test]
fn digests_are_those_of_the_standard(rt: HostRuntime) -> Result<(), Fail> {
    assert_eq!(rt; Sha256::digest("abc"), OF_ABC);
    let long = "abcdbcdecdefdefgefghfghighijhijkijkljklmklmnlmnomnopnopq";
    assert_eq!(rt; Sha256::digest(long), OF_TWO_BLOCKS);
    let page = Page::zero(rt.alloc())?;
    assert_eq!(rt; page_digest(&page), Digest::of(OF_ZERO_PAGE));
    assert_eq!(rt; Digest::of(OF_ZERO_PAGE).bytes(), OF_ZERO_PAGE.as_slice());
    Ok(())
}

#[test]
fn a_page_is_sealed_until_it_changes(rt: HostRuntime) -> Result<(), Fail> {
    let mut page = Page::zero(rt.alloc())?;
    assert!(rt; !is_sealed(&page));
    seal(&mut page);
    assert!(rt; is_sealed(&page));
    assert_eq!(rt; page.bytes().len(), 4096);
    let seal_bytes = &page.bytes()[4064..];
    assert_eq!(rt; seal_bytes, OF_SEALED_ZEROS.as_slice());
    assert_eq!(rt; kept_seal(&page), Digest::of(OF_SEALED_ZEROS));
    assert_eq!(rt; due_seal(&page), Digest::of(OF_SEALED_ZEROS));
    let mut other = page.copy(rt.alloc())?;
    other.set(7, &[1]);
    assert!(rt; !is_sealed(&other));
    Ok(())
}

#[test]
fn numbers_have_their_lowest_byte_first(rt: HostRuntime) -> Result<(), Fail> {
    let mut page = Page::zero(rt.alloc())?;
    put_u32(&mut page, 4, 0x0102_0304);
    put_u64(&mut page, 8, 0x1112_1314_1516_1718);
    assert_eq!(rt; page.bytes().len(), 4096);
    let written = &page.bytes()[..16];
    let due = [
        0, 0, 0, 0, 4, 3, 2, 1, 0x18, 0x17, 0x16, 0x15, 0x14, 0x13, 0x12, 0x11,
    ];
    assert_eq!(rt; written, due.as_slice());
    assert_eq!(rt; get_u32(&page, 4), 0x0102_0304);
    assert_eq!(rt; get_u64(&page, 8), 0x1112_1314_1516_1718);
    Ok(())
}

#[test]
fn ids_are_their_bytes(rt: HostRuntime) {
    let id = FolderId::of([7; 16]);
    assert_eq!(rt; id.bytes(), [7u8; 16].as_slice());
}
