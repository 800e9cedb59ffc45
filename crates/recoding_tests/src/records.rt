//! `rec_legal`: records worked by hand, and forged ones.
use crate::fixtures::{B_SHEET, FILE, I_SHEET, P_SHEET, PREFIX, sheet_bytes, slots};
use mv_terms::{Decision, FrameHeader, PicType};
use rec_legal::legal;
use rec_sheet::Sheet;

/// The head of the I picture with a quant matrix extension that loads nothing.
#[rattlefmt::skip]
const EXTENDED_HEAD: [u8; 22] = [
    0, 0, 1, 0, 0, 0x0F, 0xFF, 0xF8, 0, 0, 1, 0xB5, 0x8F, 0xFF, 0xF3, 0x41, 0x80, 0, 0, 1, 0xB5, 0x30,
];

/// A record before a byte of it is changed.
#[derive(Clone, Copy, Debug, PartialEq, Eq)]
enum Made {
    /// An I picture of intra macroblocks, behind a sequence header.
    I,
    /// A P and a B picture that go on without motion.
    P,
    B,
    /// A B picture behind a sequence header.
    BehindSequence,
    /// An I picture with a quant matrix extension.
    Extended,
    /// The I picture in an interlaced file.
    Interlaced,
}

/// What is changed: byte of the slots, or of the sheet.
#[derive(Clone, Copy, Debug, PartialEq, Eq)]
enum In {
    Slots,
    Sheet,
}

/// What is made, where it is changed to which byte, and whether it is a record.
#[rattlefmt::skip]
const CASES: [(Made, In, usize, u8, bool); 40] = [
    (Made::I, In::Slots, 0, 0x90, true),
    (Made::P, In::Slots, 0, 0x88, true),
    (Made::B, In::Slots, 0, 0x88, true),
    (Made::BehindSequence, In::Slots, 0, 0x88, false),
    (Made::Extended, In::Slots, 0, 0x90, false),
    (Made::Interlaced, In::Slots, 0, 0x90, false),
    // version, type, flags
    (Made::I, In::Sheet, 4, 3, false),
    (Made::I, In::Sheet, 5, 2, false),
    (Made::I, In::Sheet, 6, 0, true),
    (Made::I, In::Sheet, 6, 2, false),
    (Made::I, In::Sheet, 6, 8, false),
    (Made::I, In::Sheet, 6, 16, true),
    (Made::I, In::Sheet, 6, 32, false),
    (Made::P, In::Sheet, 6, 4, false),
    (Made::P, In::Sheet, 6, 14, false),
    (Made::B, In::Sheet, 6, 6, false),
    // a link without its flag, too many zero bytes, zero bytes behind no end code
    (Made::I, In::Sheet, 8, 1, false),
    (Made::I, In::Sheet, 75, 5, true),
    (Made::I, In::Sheet, 72, 1, false),
    (Made::I, In::Sheet, 79, 1, false),
    // low_delay, another size in the prefix
    (Made::P, In::Sheet, 107, 0x80, true),
    (Made::B, In::Sheet, 107, 0x80, false),
    (Made::I, In::Sheet, 112, 0x05, false),
    // a scale code, the low nibble of the selects, a slice start in column 0
    (Made::I, In::Slots, 1, 31, true),
    (Made::I, In::Slots, 1, 32, false),
    (Made::I, In::Slots, 2, 1, false),
    (Made::I, In::Slots, 120, 0x10, false),
    // macroblock_quant, a dct type and a vector that aren't sent, a skipped macroblock
    (Made::I, In::Slots, 0, 0xB0, true),
    (Made::I, In::Slots, 0, 0x92, false),
    (Made::I, In::Slots, 4, 1, false),
    (Made::I, In::Slots, 20, 0x40, false),
    // skipped: in the middle and at the end of a slice, in another direction
    (Made::P, In::Slots, 20, 0x40, true),
    (Made::P, In::Slots, 100, 0x40, false),
    (Made::B, In::Slots, 20, 0x48, true),
    (Made::B, In::Slots, 20, 0x44, false),
    // a vector in its range, past it, and outside of the picture; a backward one in a P picture
    (Made::P, In::Slots, 4, 15, true),
    (Made::P, In::Slots, 4, 16, false),
    (Made::P, In::Slots, 104, 1, false),
    (Made::P, In::Slots, 20, 0x0C, false),
    (Made::B, In::Slots, 20, 0x0C, true),
];

fn sheet_of(made: Made) -> Sheet<'static> {
    match made {
        Made::I | Made::Interlaced => I_SHEET,
        Made::P => P_SHEET,
        Made::B => B_SHEET,
        Made::BehindSequence => Sheet {
            prefix: &PREFIX,
            ..B_SHEET
        },
        Made::Extended => Sheet {
            head: &EXTENDED_HEAD,
            ..I_SHEET
        },
    }
}

#[test]
fn forged_records_are_found_where_a_picture_can_be_coded_by_them(rt: HostRuntime) {
    for (made, place, at, byte, found) in CASES {
        let said = sheet_of(made);
        let mut sheet = sheet_bytes(&rt, &said);
        let mut slots = slots(matches!(said.pic, PicType::I));
        match place {
            In::Slots => slots[at % 480] = byte,
            In::Sheet => sheet[at % 288] = byte,
        }
        let file = FrameHeader {
            progressive: made != Made::Interlaced,
            ..FILE
        };
        let mut decisions = [Decision::NONE; 24];
        let record = legal(&slots, &sheet, &file, &mut decisions);
        assert_eq!(rt; record.is_some(), found, "{made:?} {place:?} {at} {byte}");
    }
}

/// Whether the I record stays one where the lowest bit of this byte of its slots is turned: only scale codes may be others,
/// that in force at each macroblock and that of the slice header where a slice starts.
fn slots_may_differ_at(at: usize) -> bool {
    at % 20 == 1 || at % 120 == 19
}

/// The same of its sheet: whether it is certified, the number of zero bytes up to 16,777,215, the time code and flags of the
/// group of pictures, the temporal reference and the vbv delay, two f_codes that an I picture doesn't use, chroma_420_type,
/// and the seal, which is asked for elsewhere.
fn sheet_may_differ_at(at: usize) -> bool {
    matches!(at, 6 | 73..=75 | 134..=137 | 142..=144 | 150 | 151 | 153 | 256..=287)
}

#[test]
fn each_other_byte_of_a_record_counts(rt: HostRuntime) {
    let mut sheet = sheet_bytes(&rt, &I_SHEET);
    let mut slots = slots(true);
    let mut decisions = [Decision::NONE; 24];
    for at in 0..480 {
        slots[at] ^= 1;
        let record = legal(&slots, &sheet, &FILE, &mut decisions);
        assert_eq!(rt; record.is_some(), slots_may_differ_at(at), "slots {at}");
        slots[at] ^= 1;
    }
    for at in 0..288 {
        sheet[at] ^= 1;
        let record = legal(&slots, &sheet, &FILE, &mut decisions);
        assert_eq!(rt; record.is_some(), sheet_may_differ_at(at), "sheet {at}");
        sheet[at] ^= 1;
    }
}
