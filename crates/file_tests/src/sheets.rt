//! `rec_sheet`: the sheets of pictures, by hand.
use mv_terms::PicType;
use rec_sheet::{Sheet, fits, read_sheet, write_sheet};
use std::process::Abort;

/// The sequence of a stream of one intra picture of 64x64 samples, its prefix and its headers.
#[rattlefmt::skip]
const CONTEXT: [u8; 22] = [
    0, 0, 0x01, 0xB3, 0x06, 0, 0x40, 0x13, 0xFF, 0xFF, 0xE3, 0x80, 0, 0, 0x01, 0xB5, 0x14, 0x8A, 0, 0x01, 0, 0,
];

#[rattlefmt::skip]
const PREFIX: [u8; 30] = [
    0, 0, 0x01, 0xB3, 0x06, 0, 0x40, 0x13, 0xFF, 0xFF, 0xE3, 0x80, 0, 0, 0x01, 0xB5, 0x14, 0x8A, 0, 0x01, 0, 0,
    0, 0, 0x01, 0xB8, 0, 0x08, 0, 0x40,
];

#[rattlefmt::skip]
const HEAD: [u8; 17] = [
    0, 0, 0x01, 0, 0, 0x0F, 0xFF, 0xF8, 0, 0, 0x01, 0xB5, 0x8F, 0xFF, 0xF3, 0x41, 0x80,
];

/// Its sheet of 16 shares, with zeros for its seal.
#[rattlefmt::skip]
const INTRA: [u8; 192] = [
    b'M', b'R', b'E', b'C', 1, 1, 1, 0, 0, 0, 0, 0, 0, 0, 0, 0, 0, 0, 0, 0, 0, 0, 0, 0, 0, 0, 0, 0, 0, 0, 0, 0,
    0, 0, 0, 0, 0, 0, 0, 0, 0, 0, 0, 0, 0, 0, 0, 0, 0, 0, 0, 0, 0, 0, 0, 0, 0, 0, 0, 0, 0, 0, 0, 0, 0, 0, 0, 0,
    0, 0, 0, 0, 0, 0, 0, 0, 0, 0, 0, 0, 0, 0x16, 0, 0x1E, 0, 0x11, 0, 0, 0x01, 0xB3, 0x06, 0, 0x40, 0x13, 0xFF,
    0xFF, 0xE3, 0x80, 0, 0, 0x01, 0xB5, 0x14, 0x8A, 0, 0x01, 0, 0, 0, 0, 0x01, 0xB3, 0x06, 0, 0x40, 0x13, 0xFF,
    0xFF, 0xE3, 0x80, 0, 0, 0x01, 0xB5, 0x14, 0x8A, 0, 0x01, 0, 0, 0, 0, 0x01, 0xB8, 0, 0x08, 0, 0x40, 0, 0,
    0x01, 0, 0, 0x0F, 0xFF, 0xF8, 0, 0, 0x01, 0xB5, 0x8F, 0xFF, 0xF3, 0x41, 0x80, 0, 0, 0, 0, 0, 0, 0, 0, 0, 0,
    0, 0, 0, 0, 0, 0, 0, 0, 0, 0, 0, 0, 0, 0, 0, 0, 0, 0, 0, 0, 0, 0, 0, 0, 0, 0, 0,
];

/// The sheet of a P picture with a forward link and an end code, without parts.
#[rattlefmt::skip]
const FORWARD: [u8; 118] = [
    b'M', b'R', b'E', b'C', 1, 2, 0x16, 0, 5, 5, 5, 5, 5, 5, 5, 5, 5, 5, 5, 5, 5, 5, 5, 5, 5, 5, 5, 5, 5, 5, 5,
    5, 5, 5, 5, 5, 5, 5, 5, 5, 0, 0, 0, 0, 0, 0, 0, 0, 0, 0, 0, 0, 0, 0, 0, 0, 0, 0, 0, 0, 0, 0, 0, 0, 0, 0, 0,
    0, 0, 0, 0, 0, 1, 2, 3, 4, 0, 0xFF, 0xFF, 0xFE, 0, 0, 0, 0, 0, 0, 0, 0, 0, 0, 0, 0, 0, 0, 0, 0, 0, 0, 0, 0,
    0, 0, 0, 0, 0, 0, 0, 0, 0, 0, 0, 0, 0, 0, 0, 0, 0, 0,
];

const INTRA_SHEET: Sheet<'static> = Sheet {
    pic: PicType::I,
    flags: 1,
    forward: [0; 32],
    backward: [0; 32],
    n1: 0,
    n2: 0,
    context: &CONTEXT,
    prefix: &PREFIX,
    head: &HEAD,
};

const FORWARD_SHEET: Sheet<'static> = Sheet {
    pic: PicType::P,
    flags: 0x16,
    forward: [5; 32],
    backward: [0; 32],
    n1: 0x0102_0304,
    n2: 0x00FF_FFFE,
    context: &[],
    prefix: &[],
    head: &[],
};

fn is_read(rt: &impl Abort, bytes: &[u8], sheet: &Sheet<'_>) {
    let read = read_sheet(bytes);
    assert!(rt; read.is_some());
    if let Some(read) = read {
        assert_eq!(rt; (read.pic, read.flags), (sheet.pic, sheet.flags));
        assert_eq!(rt;
            [read.forward, read.backward],
            [sheet.forward, sheet.backward]
        );
        assert_eq!(rt; [read.n1, read.n2], [sheet.n1, sheet.n2]);
        assert_eq!(rt;
            [read.context, read.prefix, read.head],
            [sheet.context, sheet.prefix, sheet.head]
        );
    }
}

#[test]
fn sheets_are_written_and_read_back(rt: HostRuntime) {
    let mut bytes = [7; 192];
    write_sheet(&INTRA_SHEET, &mut bytes);
    assert_eq!(rt; bytes, INTRA);
    is_read(&rt, &bytes, &INTRA_SHEET);
    let mut bytes = [7; 118];
    write_sheet(&FORWARD_SHEET, &mut bytes);
    assert_eq!(rt; bytes, FORWARD);
    is_read(&rt, &bytes, &FORWARD_SHEET);
}

#[test]
fn a_sheet_is_read_whatever_its_seal_is(rt: HostRuntime) {
    let mut bytes = INTRA;
    bytes[160] = 0xFF;
    bytes[191] = 0xFF;
    is_read(&rt, &bytes, &INTRA_SHEET);
}

/// A place of the sheet, and what mustn't stand there: another name, version or type, a part that is too long, and
/// something behind the parts.
const WRONG: [(usize, u8); 8] = [
    (0, b'm'),
    (4, 2),
    (5, 0),
    (5, 4),
    (7, 1),
    (85, 0x17),
    (155, 1),
    (159, 1),
];

#[test]
fn other_bytes_are_no_sheet(rt: HostRuntime) {
    for (at, byte) in WRONG {
        let mut bytes = INTRA;
        bytes[at % 192] = byte;
        assert!(rt; read_sheet(&bytes).is_none(), "at {at}");
    }
    assert!(rt; read_sheet(&INTRA[..186]).is_none());
    assert!(rt; read_sheet(&FORWARD[..117]).is_none());
}

/// Macroblocks, the lengths of the three parts, and whether they fit: those of pictures of 64x64, 80x48 and 64x16
/// samples, the last byte of ten shares, and the largest numbers.
const SIZES: [(usize, usize, usize, usize, bool); 7] = [
    (16, 22, 30, 17, true),
    (15, 22, 30, 17, false),
    (4, 22, 30, 17, false),
    (10, 2, 0, 0, true),
    (10, 1, 1, 1, false),
    (usize::MAX, usize::MAX, usize::MAX, usize::MAX, true),
    (0, usize::MAX, usize::MAX, usize::MAX, false),
];

#[test]
fn a_sheet_fits_into_the_shares_of_large_pictures_alone(rt: HostRuntime) {
    for (macroblocks, context, prefix, head, holds) in SIZES {
        assert_eq!(rt; fits(macroblocks, context, prefix, head), holds);
    }
}
