//! `cert_picture`: pictures of 6x4 macroblocks, by the bytes of their slices, that are certified and that aren't.
use crate::comparison::same;
use crate::fixtures::{GREY, I_HEAD, ends_without_zero, slices_of};
use cert_picture::{certify, certify_decoded};
use mv_bits::has_no_front;
use mv_planes::{Coded, Picture, RefPair};
use mv_recon::reconstruct;
use mv_slices::read_slices;
use mv_terms::{Decision, Head, MacroLevels, Matrices, PicType};
use std::alloc::Global;
use std::process::Abort;
use std::test::Fail;

/// Of a P picture with `f_code` 2.
const P_HEAD: Head = Head {
    pic: PicType::P,
    f_code: [[2; 2]; 2],
    ..I_HEAD
};

/// Whether a picture that is read from these slices is certified, where so many zero bytes stand behind them, as both calls
/// say it. Its references are grey.
fn is_certified(
    rt: &impl Abort,
    alloc: Global,
    head: &Head,
    slices: &[u8],
    zeros: u64,
) -> Result<[bool; 2], Fail> {
    let head = Head {
        mb_wide: 6,
        mb_high: 4,
        ..*head
    };
    assert!(rt; head.is_legal());
    assert!(rt; has_no_front(slices));
    assert!(rt; ends_without_zero(slices));
    let mut decisions = [Decision::NONE; 24];
    let mut levels = [MacroLevels::NONE; 24];
    let mut spare = [MacroLevels::NONE; 24];
    if let Ok(()) = read_slices(&head, slices, &mut decisions, &mut levels) {
        let grey = Picture::grey(alloc, 6, 4)?;
        let mut picture = Picture::grey(alloc, 6, 4)?;
        let refs = RefPair {
            forward: &grey,
            backward: &grey,
        };
        reconstruct(&head, &decisions, &levels, &refs, &mut picture);
        let coded = Coded {
            head: &head,
            decisions: &decisions,
            levels: &levels,
            picture: &picture,
            refs,
            extended: false,
        };
        let certified = certify(&coded, slices, zeros, &mut spare);
        let decoded = certify_decoded(&coded, slices, zeros);
        Ok([certified, decoded])
    } else {
        Err("refused slices")?
    }
}

/// A row of grey macroblocks of a P picture, by scale code 8.
#[rattlefmt::skip]
const P_GREY: &[u8] = &[
    0x42, 0x39, 0x4A, 0x52, 0x22, 0x8E, 0x52, 0x94, 0x88, 0xA3, 0x94, 0xA5,
    0x22, 0x28, 0xE5, 0x29, 0x48, 0x8A, 0x39, 0x4A, 0x52, 0x22, 0x8E, 0x52,
    0x94, 0x88, 0x80,
];

/// A row of 193 bits, without its last byte, which is zero.
#[rattlefmt::skip]
const BRIGHTER: &[u8] = &[
    0x43, 0x94, 0xA5, 0x27, 0x17, 0x29, 0x4A, 0x4A, 0x2E, 0x52, 0x94, 0x9C,
    0x5C, 0xA5, 0x29, 0x28, 0xB9, 0x4A, 0x52, 0x71, 0x72, 0x94, 0xA4, 0xA7,
];

/// The first macroblock isn't intra and has a level 1 at the first place, by scale code 1 and by scale code 8.
#[rattlefmt::skip]
const FINE: &[u8] = &[
    0x0A, 0xD5, 0x47, 0x29, 0x4A, 0x44, 0x51, 0xCA, 0x52, 0x91, 0x14, 0x72,
    0x94, 0xA4, 0x45, 0x1C, 0xA5, 0x29, 0x11, 0x47, 0x29, 0x4A, 0x44, 0x40,
];

#[rattlefmt::skip]
const COARSE: &[u8] = &[
    0x42, 0xD5, 0x47, 0x29, 0x4A, 0x44, 0x51, 0xCA, 0x52, 0x91, 0x14, 0x72,
    0x94, 0xA4, 0x45, 0x1C, 0xA5, 0x29, 0x11, 0x47, 0x29, 0x4A, 0x44, 0x40,
];

/// The first block has a level 4 at row 0 and column 1, and the first level 255, by which samples are cut off, or 200.
#[rattlefmt::skip]
const CUT_OFF: &[u8] = &[
    0x43, 0xFB, 0xF8, 0x65, 0x29, 0x48, 0x8B, 0x94, 0xA5, 0x22, 0x2E, 0x52,
    0x94, 0x88, 0xB9, 0x4A, 0x52, 0x22, 0xE5, 0x29, 0x48, 0x8B, 0x94, 0xA5,
    0x22, 0x20,
];

#[rattlefmt::skip]
const WHOLE: &[u8] = &[
    0x43, 0xFA, 0x40, 0x65, 0x29, 0x48, 0x8B, 0x94, 0xA5, 0x22, 0x2E, 0x52,
    0x94, 0x88, 0xB9, 0x4A, 0x52, 0x22, 0xE5, 0x29, 0x48, 0x8B, 0x94, 0xA5,
    0x22, 0x20,
];

/// Behind the predictor -10 a delta of -32, or of 32, leads to the component 22 of a vector.
#[rattlefmt::skip]
const MINUS_32: &[u8] = &[
    0x42, 0x39, 0x4A, 0x52, 0x22, 0x90, 0xBE, 0x40, 0xCF, 0x1C, 0xA5, 0x29,
    0x11, 0x47, 0x29, 0x4A, 0x44, 0x51, 0xCA, 0x52, 0x91, 0x10,
];

#[rattlefmt::skip]
const PLUS_32: &[u8] = &[
    0x42, 0x39, 0x4A, 0x52, 0x22, 0x90, 0xBE, 0x40, 0xC7, 0x1C, 0xA5, 0x29,
    0x11, 0x47, 0x29, 0x4A, 0x44, 0x51, 0xCA, 0x52, 0x91, 0x10,
];

/// A matrix by which the levels 0 to 7 of blocks that aren't intra are dequantised to 0, where the scale is 2.
const ONES: Head = Head {
    matrices: Matrices {
        intra: [16; 64],
        non_intra: [1; 64],
    },
    ..P_HEAD
};

/// A head, the first three rows and the last one, the zero bytes behind it, and whether the picture is certified.
#[rattlefmt::skip]
const PICTURES: &[(Head, &[u8], &[u8], u64, bool)] = &[
    (I_HEAD, GREY, GREY, 0, true),
    (I_HEAD, GREY, BRIGHTER, 1, true),
    (I_HEAD, GREY, BRIGHTER, 0, false),
    (ONES, P_GREY, FINE, 0, false),
    (P_HEAD, P_GREY, COARSE, 0, true),
    (I_HEAD, GREY, CUT_OFF, 0, false),
    (I_HEAD, GREY, WHOLE, 0, true),
    (P_HEAD, P_GREY, MINUS_32, 0, true),
    (P_HEAD, P_GREY, PLUS_32, 0, false),
];

#[test]
fn pictures_are_certified_where_their_slices_come_back(rt: HostRuntime) -> Result<(), Fail> {
    let alloc = rt.alloc();
    for (head, row, last, zeros, certified) in PICTURES {
        let slices = slices_of(alloc, &[*row, *row, *row, *last])?;
        let answers = is_certified(&rt, alloc, head, &slices, *zeros)?;
        same(&rt, &answers, &[*certified; 2]);
    }
    Ok(())
}
