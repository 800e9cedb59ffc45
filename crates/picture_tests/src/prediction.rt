//! `mv_predict`: predictions against those of an independent transcription of the rules: a weighted sum of each block's
//! samples.
ghost use Rattle.std.specs.Prelude.{◌≡◌, IfOk, IsTrue};
ghost use Rattle.mv_vectors.specs.Predictable.{HasLegalDirections, HasLegalMotion, CanBePredicted};

use crate::comparison::same;
use crate::fixtures::I_HEAD;
use mv_planes::{Picture, RefPair};
use mv_predict::{MacroSamples, predict};
use mv_terms::{Decision, Head, Matrices, NoMemory, PicType, Vector};
use mv_vectors::inside;
use std::alloc::Global;
use std::process::Abort;
use std::test::Fail;

const P: Head = Head {
    pic: PicType::P,
    f_code: [[9; 2]; 2],
    frame_only: false,
    mb_wide: 3,
    mb_high: 2,
    matrices: Matrices::DEFAULT,
    ..I_HEAD
};

const B: Head = Head {
    pic: PicType::B,
    ..P
};

/// A macroblock's column and row, and the weighted sums of its blocks.
type Place = (u16, u16);

type Sums = [i64; 6];

/// A picture of 3 by 2 macroblocks with drawn samples.
fn drawn(alloc: Global, seed: u32) -> Result<Picture, NoMemory>
    ensures { IfOk result (λ p. (p.mb_wide ≡ 3) × (p.mb_high ≡ 2)) }
{
    let mut pic = Picture::grey(alloc, 3, 2)?;
    let mut state = seed;
    for sample in pic.samples_mut() {
        state = state.wrapping_mul(1_664_525).wrapping_add(1_013_904_223);
        *sample = (state / 16_777_216) as u8;
    }
    Ok(pic)
}

/// A picture of 3 by 2 macroblocks whose samples are all the same.
fn filled(alloc: Global, value: u8) -> Result<Picture, NoMemory>
    ensures { IfOk result (λ p. (p.mb_wide ≡ 3) × (p.mb_high ≡ 2)) }
{
    let mut pic = Picture::grey(alloc, 3, 2)?;
    for sample in pic.samples_mut() {
        *sample = value;
    }
    Ok(pic)
}

fn has_legal_directions(pic: PicType, d: &Decision) -> bool
    ensures { IsTrue result → HasLegalDirections pic d.now }
{
    match pic {
        PicType::I => false,
        PicType::P => !d.backward,
        PicType::B => d.forward || d.backward,
    }
}

fn has_legal_motion(head: &Head, d: &Decision) -> bool
    ensures { IsTrue result → HasLegalMotion head.now d.now }
{
    !d.field_motion || (!head.frame_only && !d.skipped && (d.forward || d.backward))
}

/// What `predict` asks of a decision.
fn can_be_predicted(head: &Head, d: &Decision, mb_x: u16, mb_y: u16) -> bool
    ensures { IsTrue result → CanBePredicted head.now mb_x mb_y d.now }
{
    d.intra
        || (has_legal_directions(head.pic, d)
            && has_legal_motion(head, d)
            && inside(head, d, mb_x, mb_y))
}

/// The prediction of a macroblock from these pictures of 3 by 2 macroblocks.
fn predicted(
    rt: &impl Abort,
    refs: &RefPair<'_>,
    head: &Head,
    d: &Decision,
    place: Place,
) -> MacroSamples
    requires forward { (refs.now.forward.now.mb_wide ≡ 3) × (refs.now.forward.now.mb_high ≡ 2) }
    requires backward { (refs.now.backward.now.mb_wide ≡ 3) × (refs.now.backward.now.mb_high ≡ 2) }
{
    let (mb_x, mb_y) = place;
    assert!(rt; head.mb_wide == 3 && head.mb_high == 2 && mb_x < 3 && mb_y < 2);
    assert!(rt; can_be_predicted(head, d, mb_x, mb_y));
    let mut out = MacroSamples {
        blocks: [[77; 64]; 6],
    };
    predict(refs, head, d, mb_x, mb_y, &mut out);
    out
}

/// The sum of the samples of a block, each so many times as its place counts from 1.
fn weighted(block: &[i16; 64]) -> i64 {
    let mut sum = 0i64;
    let mut weight = 0i64;
    for sample in block {
        weight = weight.wrapping_add(1);
        sum = sum.wrapping_add(weight.wrapping_mul(i64::from(*sample)));
    }
    sum
}

/// The prediction has these sums.
fn check(
    rt: &impl Abort,
    refs: &RefPair<'_>,
    head: &Head,
    d: &Decision,
    place: Place,
    expected: &Sums,
)
    requires forward { (refs.now.forward.now.mb_wide ≡ 3) × (refs.now.forward.now.mb_high ≡ 2) }
    requires backward { (refs.now.backward.now.mb_wide ≡ 3) × (refs.now.backward.now.mb_high ≡ 2) }
{
    let out = predicted(rt, refs, head, d, place);
    for b in 0..6 {
        assert_eq!(rt; (b, weighted(&out.blocks[b])), (b, expected[b]));
    }
}

/// The vector of a P macroblock for the lines of the frame, its place, and its sums.
type Moved = ((i16, i16), Place, Sums);

fn check_frame_vectors(rt: &impl Abort, alloc: Global, cases: &[Moved]) -> Result<(), Fail> {
    let forward = drawn(alloc, 1)?;
    let backward = drawn(alloc, 2)?;
    let refs = RefPair {
        forward: &forward,
        backward: &backward,
    };
    for ((x, y), place, expected) in cases {
        let d = Decision {
            forward: true,
            vectors: [
                [Vector { x: *x, y: *y }, Vector::STILL],
                [Vector::STILL, Vector::STILL],
            ],
            ..Decision::NONE
        };
        check(rt, &refs, &P, &d, *place, expected);
    }
    Ok(())
}

#[rattlefmt::skip]
const CORNERS: [Moved; 8] = [
    ((64, 32), (0, 0), [245725, 284382, 283561, 270879, 280975, 263214]),
    ((63, 31), (0, 0), [237617, 271353, 282125, 291597, 271884, 255424]),
    ((-64, -32), (2, 1), [285824, 252326, 244553, 272507, 248656, 242198]),
    ((-63, -31), (2, 1), [283264, 263672, 233250, 281162, 235416, 251889]),
    ((64, -32), (0, 1), [286900, 261341, 253721, 270464, 280847, 253152]),
    ((63, -31), (0, 1), [297027, 271645, 260037, 266928, 273419, 254924]),
    ((-64, 32), (2, 0), [288949, 260765, 241353, 290459, 263795, 285982]),
    ((-63, 31), (2, 0), [294272, 268591, 245204, 285133, 258098, 283969]),
];

#[test]
fn frame_vectors_lead_to_the_corners_of_the_picture(rt: HostRuntime) -> Result<(), Fail> {
    check_frame_vectors(&rt, rt.alloc(), &CORNERS)
}

#[rattlefmt::skip]
const HALVES: [Moved; 4] = [
    ((-3, 0), (1, 0), [284171, 262196, 275094, 237804, 234496, 243967]),
    ((2, 5), (1, 0), [286367, 300565, 214663, 251903, 232397, 255622]),
    ((6, -4), (1, 1), [294404, 274717, 259143, 261978, 238590, 246136]),
    ((8, -5), (1, 1), [274696, 271666, 268501, 236564, 240465, 248652]),
];

#[test]
fn half_samples_lie_to_the_right_below_or_both(rt: HostRuntime) -> Result<(), Fail> {
    check_frame_vectors(&rt, rt.alloc(), &HALVES)
}

#[rattlefmt::skip]
const EACH_HALF: [Moved; 16] = [
    ((4, 4), (1, 0), [291325, 284165, 213284, 253347, 239160, 259777]),
    ((5, 4), (1, 0), [294431, 281596, 217531, 249999, 239160, 259777]),
    ((6, 4), (1, 0), [296467, 277749, 220626, 245847, 233015, 258113]),
    ((7, 4), (1, 0), [297827, 271827, 217381, 248154, 233015, 258113]),
    ((4, 5), (1, 0), [294697, 295868, 217247, 256808, 239160, 259777]),
    ((5, 5), (1, 0), [299521, 289924, 222085, 254003, 239160, 259777]),
    ((6, 5), (1, 0), [304899, 284233, 227563, 251831, 233015, 258113]),
    ((7, 5), (1, 0), [306651, 274541, 223411, 253765, 233015, 258113]),
    ((4, 6), (1, 0), [297065, 306752, 220128, 259140, 245731, 263949]),
    ((5, 6), (1, 0), [305287, 298914, 227365, 258365, 245731, 263949]),
    ((6, 6), (1, 0), [312491, 289795, 233532, 256609, 239488, 259782]),
    ((7, 6), (1, 0), [316136, 277976, 230280, 259578, 239488, 259782]),
    ((4, 7), (1, 0), [302263, 306784, 236260, 257428, 245731, 263949]),
    ((5, 7), (1, 0), [306849, 301043, 244445, 254753, 245731, 263949]),
    ((6, 7), (1, 0), [312079, 295727, 253180, 252669, 239488, 259782]),
    ((7, 7), (1, 0), [312780, 284624, 249713, 253796, 239488, 259782]),
];

#[test]
fn each_half_sample_case_of_luma_meets_each_of_chroma(rt: HostRuntime) -> Result<(), Fail> {
    check_frame_vectors(&rt, rt.alloc(), &EACH_HALF)
}

/// Whether the blocks hold the lines of fields; the vectors of a P macroblock for the lines of each field, and whether they
/// select the bottom field; its place, and its sums.
type MovedFields = (bool, [(i16, i16); 2], [bool; 2], Place, Sums);

fn check_field_vectors(rt: &impl Abort, alloc: Global, cases: &[MovedFields]) -> Result<(), Fail> {
    let forward = drawn(alloc, 1)?;
    let backward = drawn(alloc, 2)?;
    let refs = RefPair {
        forward: &forward,
        backward: &backward,
    };
    for (field_dct, [first, second], selects, place, expected) in cases {
        let d = Decision {
            forward: true,
            field_dct: *field_dct,
            field_motion: true,
            selects: [*selects, [false, false]],
            vectors: [
                [
                    Vector {
                        x: first.0,
                        y: first.1,
                    },
                    Vector {
                        x: second.0,
                        y: second.1,
                    },
                ],
                [Vector::STILL, Vector::STILL],
            ],
            ..Decision::NONE
        };
        check(rt, &refs, &P, &d, *place, expected);
    }
    Ok(())
}

#[rattlefmt::skip]
const FIELDS: [MovedFields; 4] = [
    (false, [(3, 2), (-6, 5)], [false, true], (1, 0), [272283, 300079, 232404, 271558, 263790, 269933]),
    (false, [(3, 2), (-6, 5)], [true, false], (1, 0), [314841, 278825, 254443, 245892, 231764, 260611]),
    (true, [(1, -3), (-2, -7)], [true, true], (1, 1), [268100, 272899, 264896, 283004, 249707, 267313]),
    (true, [(1, -3), (-2, -7)], [false, false], (1, 1), [252931, 253322, 248118, 261612, 265326, 265376]),
];

#[test]
fn each_field_is_predicted_from_the_field_that_it_selects(rt: HostRuntime) -> Result<(), Fail> {
    check_field_vectors(&rt, rt.alloc(), &FIELDS)
}

#[rattlefmt::skip]
const FIELD_CORNERS: [MovedFields; 4] = [
    (false, [(64, 16), (63, 15)], [true, false], (0, 0), [250247, 275141, 272144, 280244, 282033, 251171]),
    (false, [(63, 15), (64, 16)], [true, true], (0, 0), [243001, 271719, 282401, 244515, 290953, 275761]),
    (false, [(-64, -16), (-63, -15)], [false, true], (2, 1), [284563, 263117, 241771, 271581, 241565, 250190]),
    (false, [(-63, -15), (-64, -16)], [false, false], (2, 1), [284863, 241443, 214642, 311852, 217567, 268514]),
];

#[test]
fn field_vectors_lead_to_the_corners_of_the_fields(rt: HostRuntime) -> Result<(), Fail> {
    check_field_vectors(&rt, rt.alloc(), &FIELD_CORNERS)
}

/// The predictions of these macroblocks of a picture with this head have these sums.
fn check_each(
    rt: &impl Abort,
    alloc: Global,
    head: &Head,
    cases: &[(Decision, Place, Sums)],
) -> Result<(), Fail> {
    let forward = drawn(alloc, 1)?;
    let backward = drawn(alloc, 2)?;
    let refs = RefPair {
        forward: &forward,
        backward: &backward,
    };
    for (d, place, expected) in cases {
        check(rt, &refs, head, d, *place, expected);
    }
    Ok(())
}

/// By frame, by field, and from behind alone.
const IN_TWO_DIRECTIONS: [(Decision, Place, Sums); 3] = [
    (
        Decision {
            forward: true,
            backward: true,
            vectors: [
                [Vector { x: -5, y: 7 }, Vector::STILL],
                [Vector { x: 4, y: 2 }, Vector::STILL],
            ],
            ..Decision::NONE
        },
        (1, 0),
        [275913, 294109, 266218, 273931, 261582, 262719],
    ),
    (
        Decision {
            forward: true,
            backward: true,
            field_dct: true,
            field_motion: true,
            selects: [[false, true], [true, false]],
            vectors: [
                [Vector { x: -5, y: 7 }, Vector { x: 3, y: 1 }],
                [Vector { x: 4, y: 2 }, Vector { x: -1, y: 3 }],
            ],
            ..Decision::NONE
        },
        (1, 0),
        [264813, 257394, 279847, 281769, 257785, 251429],
    ),
    (
        Decision {
            backward: true,
            vectors: [
                [Vector::STILL, Vector::STILL],
                [Vector { x: -7, y: -9 }, Vector::STILL],
            ],
            ..Decision::NONE
        },
        (2, 1),
        [266040, 271828, 240959, 249709, 265525, 256927],
    ),
];

#[test]
fn the_mean_of_two_directions_is_rounded_up(rt: HostRuntime) -> Result<(), Fail> {
    check_each(&rt, rt.alloc(), &B, &IN_TWO_DIRECTIONS)
}

/// Without a direction, by lines of the frame and of the fields, and with a vector for blocks of field lines.
const STILL: [(Decision, Place, Sums); 3] = [
    (
        Decision { ..Decision::NONE },
        (1, 1),
        [281057, 279477, 240645, 275833, 251159, 245073],
    ),
    (
        Decision {
            field_dct: true,
            ..Decision::NONE
        },
        (1, 1),
        [268220, 254175, 240794, 287039, 251159, 245073],
    ),
    (
        Decision {
            forward: true,
            field_dct: true,
            vectors: [
                [Vector { x: -5, y: -3 }, Vector::STILL],
                [Vector::STILL, Vector::STILL],
            ],
            ..Decision::NONE
        },
        (1, 1),
        [259487, 259405, 264155, 261978, 228050, 252662],
    ),
];

#[test]
fn without_vectors_a_macroblock_stays_where_it_is(rt: HostRuntime) -> Result<(), Fail> {
    check_each(&rt, rt.alloc(), &P, &STILL)
}

/// The mean of two pictures of one value each is this value in all blocks.
fn check_mean(
    rt: &impl Abort,
    alloc: Global,
    (forward, backward, mean): (u8, u8, i16),
) -> Result<(), Fail> {
    let forward = filled(alloc, forward)?;
    let backward = filled(alloc, backward)?;
    let refs = RefPair {
        forward: &forward,
        backward: &backward,
    };
    let d = Decision {
        forward: true,
        backward: true,
        ..Decision::NONE
    };
    let out = predicted(rt, &refs, &B, &d, (1, 1));
    same(rt, &out.blocks, &[[mean; 64]; 6]);
    Ok(())
}

#[test]
fn halves_between_two_directions_are_rounded_up(rt: HostRuntime) -> Result<(), Fail> {
    for values in [
        (1, 2, 2),
        (2, 1, 2),
        (0, 255, 128),
        (255, 254, 255),
        (255, 255, 255),
    ] {
        check_mean(&rt, rt.alloc(), values)?;
    }
    Ok(())
}

#[test]
fn an_intra_macroblock_is_predicted_by_zeros(rt: HostRuntime) -> Result<(), Fail> {
    let drawn = drawn(rt.alloc(), 1)?;
    let refs = RefPair {
        forward: &drawn,
        backward: &drawn,
    };
    let d = Decision {
        intra: true,
        ..Decision::NONE
    };
    let out = predicted(&rt, &refs, &P, &d, (2, 1));
    same(&rt, &out.blocks, &[[0; 64]; 6]);
    Ok(())
}
