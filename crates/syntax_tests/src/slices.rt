//! `mv_slices`: slices of a picture of 6x4 macroblocks, written as their bits, are read.
use crate::comparison::same;
use crate::fixtures::{
    B_HEAD, CONCEALED_HEAD, FIELD_HEAD, I_HEAD, INTRA as INTRA_DECISION, P_HEAD,
};
use crate::slice_text::{GREY, INTRA, first_and_others, slices_of};
use mv_bits::has_no_front;
use mv_slices::read_slices;
use mv_terms::{Decision, Head, MacroLevels, Vector, Why};
use std::alloc::Global;
use std::process::Abort;
use std::test::Fail;

/// What the lists hold before the slices are read.
const OTHER: Decision = Decision {
    skipped: true,
    vectors: [[Vector { x: 1, y: 1 }; 2]; 2],
    ..INTRA_DECISION
};

#[derive(Clone, Copy)]
struct Outcome {
    answer: Result<(), Why>,
    decisions: [Decision; 24],
    levels: [MacroLevels; 24],
}

/// Reads the slices of a picture of 6 by 4 macroblocks with this head.
fn read(rt: &impl Abort, head: Head, slices: &[u8]) -> Outcome {
    let head = Head {
        mb_wide: 6,
        mb_high: 4,
        ..head
    };
    assert!(rt; head.is_legal());
    assert!(rt; has_no_front(slices));
    let mut decisions = [OTHER; 24];
    let mut levels = [MacroLevels {
        blocks: [[7; 64]; 6],
    }; 24];
    let answer = read_slices(&head, slices, &mut decisions, &mut levels);
    Outcome {
        answer,
        decisions,
        levels,
    }
}

/// Reads a picture with this head whose slices are those of these rows and letters.
fn read_rows(
    rt: &impl Abort,
    alloc: Global,
    head: Head,
    rows: &[(u8, &str)],
) -> Result<Outcome, Fail> {
    Ok(read(rt, head, &slices_of(alloc, rows)?))
}

/// Reads a picture with this head whose first row has these letters, and the others those.
fn read_first(
    rt: &impl Abort,
    alloc: Global,
    head: Head,
    first: &str,
    other: &str,
) -> Result<Outcome, Fail> {
    Ok(read(rt, head, &first_and_others(alloc, first, other)?))
}

/// The answer for an I picture of these rows and letters.
fn answer(rt: &impl Abort, alloc: Global, rows: &[(u8, &str)]) -> Result<Result<(), Why>, Fail> {
    Ok(read_rows(rt, alloc, I_HEAD, rows)?.answer)
}

/// The answers for I pictures whose first rows have these letters and whose others are grey.
fn answers_of_first_rows(
    rt: &impl Abort,
    alloc: Global,
    cases: &[(&str, Result<(), Why>)],
) -> Result<(), Fail> {
    for (text, wanted) in cases {
        same(
            rt,
            &read_first(rt, alloc, I_HEAD, text, GREY)?.answer,
            wanted,
        );
    }
    Ok(())
}

#[test]
fn a_grey_picture_is_read(rt: HostRuntime) -> Result<(), Fail> {
    let outcome = read_first(&rt, rt.alloc(), I_HEAD, GREY, GREY)?;
    same(&rt, &outcome.answer, &Ok(()));
    let mut grey = [0; 64];
    grey[0] = 128;
    for (at, (d, l)) in outcome.decisions.iter().zip(&outcome.levels).enumerate() {
        let slice_start = at % 6 == 0;
        let wanted = Decision {
            slice_start,
            head_scale: if slice_start { 8 } else { 0 },
            ..INTRA_DECISION
        };
        same(&rt, d, &wanted);
        same(&rt, &l.blocks, &[grey; 6]);
    }
    Ok(())
}

/// The DC levels of Y3 and of Cb, the scale code and that of the header.
fn scales_and_dc(d: &Decision, l: &MacroLevels) -> (i16, i16, u8, u8) {
    (l.blocks[3][0], l.blocks[4][0], d.scale, d.head_scale)
}

#[test]
fn predictors_and_scale_begin_anew_at_each_slice_of_a_row(rt: HostRuntime) -> Result<(), Fail> {
    let rows = [(1, "Hbg"), (1, "Xtbgg"), (2, GREY), (3, GREY), (4, GREY)];
    let outcome = read_rows(&rt, rt.alloc(), I_HEAD, &rows)?;
    same(&rt, &outcome.answer, &Ok(()));
    let wanted = [
        (129, 129, 8, 8),
        (129, 129, 8, 0),
        (128, 128, 3, 3),
        (129, 129, 3, 0),
        (129, 129, 3, 0),
        (129, 129, 3, 0),
        (128, 128, 8, 8),
    ];
    for ((d, l), wanted) in outcome.decisions.iter().zip(&outcome.levels).zip(&wanted) {
        same(&rt, &scales_and_dc(d, l), wanted);
    }
    Ok(())
}

const FIRST: (u8, &str) = (1, GREY);

const SECOND: (u8, &str) = (2, GREY);

const THIRD: (u8, &str) = (3, GREY);

const FOURTH: (u8, &str) = (4, GREY);

/// No slice, none of the last row, two in the wrong order, one twice, one of a row below the picture, a row that ends
/// early, and a scale code 0.
#[rattlefmt::skip]
const UNCOVERED: &[&[(u8, &str)]] = &[
    &[],
    &[FIRST, SECOND, THIRD],
    &[FIRST, THIRD, SECOND, FOURTH],
    &[FIRST, SECOND, THIRD, FOURTH, FOURTH],
    &[FIRST, SECOND, THIRD, FOURTH, (5, GREY)],
    &[(1, "Hgg"), SECOND, THIRD, FOURTH],
    &[(1, "000000gggggg"), SECOND, THIRD, FOURTH],
];

#[test]
fn slices_cover_the_picture_in_order(rt: HostRuntime) -> Result<(), Fail> {
    for rows in UNCOVERED {
        same(&rt, &answer(&rt, rt.alloc(), rows)?, &Err(Why::BadSlice));
    }
    Ok(())
}

#[test]
fn increments_lead_to_the_next_macroblock_of_the_row(rt: HostRuntime) -> Result<(), Fail> {
    let cases = [
        // the first one leads elsewhere, or is none
        ("Hs", Err(Why::BadSlice)),
        ("HEg", Err(Why::BadSlice)),
        ("HE000000001", Err(Why::BadCode)),
        // a later one jumps over a macroblock, leads past the row, or is none
        ("Hgsgggg", Err(Why::BadMacro)),
        ("HgEggggg", Err(Why::BadMacro)),
        ("Hggggggg", Err(Why::BadMacro)),
        ("Hg000000001", Err(Why::BadCode)),
    ];
    answers_of_first_rows(&rt, rt.alloc(), &cases)
}

#[test]
fn a_slice_ends_before_zeros_alone(rt: HostRuntime) -> Result<(), Fail> {
    let cases = [
        ("Hgggggg", Ok(())),
        ("Hgggggg000000000000000000000000000000000000", Ok(())),
        ("Hgggggg000000000000000000000001", Err(Why::BadSlice)),
        // 22 zeros don't end it
        ("Hgggggg00000000000000000000001", Err(Why::BadCode)),
    ];
    answers_of_first_rows(&rt, rt.alloc(), &cases)
}

#[test]
fn vectors_of_a_p_picture_begin_anew_behind_skipped_macroblocks(
    rt: HostRuntime,
) -> Result<(), Fail> {
    let alloc = rt.alloc();
    let outcome = read_first(&rt, alloc, P_HEAD, "Hpkpq", INTRA)?;
    same(&rt, &outcome.answer, &Ok(()));
    // whether it is skipped, and the horizontal component of its vector
    let wanted = [
        (false, 1),
        (true, 0),
        (true, 0),
        (false, 0),
        (false, 1),
        (false, 0),
    ];
    for (d, (skipped, x)) in outcome.decisions.iter().zip(&wanted) {
        let told = (d.skipped, d.forward, d.vectors[0][0]);
        same(&rt, &told, &(*skipped, !*skipped, Vector { x: *x, y: 0 }));
    }
    // the last macroblock of the row would move out of the picture
    let outside = read_first(&rt, alloc, P_HEAD, "Hpkpp", INTRA)?;
    same(&rt, &outside.answer, &Err(Why::BadVector));
    Ok(())
}

#[test]
fn a_skipped_macroblock_of_a_b_picture_goes_on_as_the_one_before(
    rt: HostRuntime,
) -> Result<(), Fail> {
    let alloc = rt.alloc();
    let outcome = read_first(&rt, alloc, B_HEAD, "Hwfiii", INTRA)?;
    same(&rt, &outcome.answer, &Ok(()));
    let half = [Vector { x: 1, y: 0 }, Vector::STILL];
    let still = [Vector::STILL; 2];
    let [first, second, third, ..] = outcome.decisions;
    same(&rt, &first.vectors, &[still, half]);
    same(
        &rt,
        &(second.skipped, second.forward, second.backward),
        &(true, false, true),
    );
    same(&rt, &second.vectors, &[still, half]);
    same(&rt, &(third.forward, third.backward), &(true, false));
    same(&rt, &third.vectors, &[still; 2]);
    // none is skipped behind an intra macroblock
    let behind_intra = read_first(&rt, alloc, B_HEAD, "Hwfifi", INTRA)?;
    same(&rt, &behind_intra.answer, &Err(Why::BadMacro));
    Ok(())
}

/// A row at whose second increment no code begins.
const BAD_CODE: &str = "Hggg000000001";

/// Pictures with two refusals, and the first one.
#[rattlefmt::skip]
const REFUSED: &[(&[(u8, &str)], Why)] = &[
    // no code begins an increment of the first slice, and the second one is in another row; and the other way round
    (&[(1, BAD_CODE), (3, GREY)], Why::BadCode),
    (&[(2, BAD_CODE), (1, GREY)], Why::BadSlice),
    // a row before the header, and the header before the increment
    (&[(1, GREY), (2, "000000000000001")], Why::BadSlice),
    // what isn't covered comes last
    (&[(1, GREY), (2, BAD_CODE)], Why::BadCode),
];

#[test]
fn the_first_refusal_of_a_picture_is_answered(rt: HostRuntime) -> Result<(), Fail> {
    for (rows, why) in REFUSED {
        same(&rt, &answer(&rt, rt.alloc(), rows)?, &Err(*why));
    }
    Ok(())
}

/// Pictures whose first row has two slices, the second one from increment 3 on, and the horizontal
/// components of the vectors of a direction in that row.
#[rattlefmt::skip]
const TWO_SLICES: &[(Head, &[(u8, &str)], bool, [i16; 6])] = &[
    (P_HEAD, &[(1, "Hpp"), (1, "X 010 001 010 1 1 001 1 1 q 1 001 1 1"), (2, INTRA), (3, INTRA), (4, INTRA)],
        false, [1, 2, 1, 1, 0, 0]),
    (B_HEAD, &[(1, "Hww"), (1, "X 010 0010 1 1 wii"), (2, INTRA), (3, INTRA), (4, INTRA)],
        true, [1, 2, 0, 1, 0, 0]),
];

/// The horizontal components of the first vectors of a direction in the first row.
fn across(outcome: &Outcome, backward: bool) -> [i16; 6] {
    let mut components = [0; 6];
    for (x, d) in components.iter_mut().zip(&outcome.decisions) {
        *x = d.vectors[usize::from(backward)][0].x;
    }
    components
}

#[test]
fn vectors_begin_anew_at_each_slice_of_a_row(rt: HostRuntime) -> Result<(), Fail> {
    for (head, rows, backward, wanted) in TWO_SLICES {
        let outcome = read_rows(&rt, rt.alloc(), *head, rows)?;
        same(&rt, &outcome.answer, &Ok(()));
        same(&rt, &across(&outcome, *backward), wanted);
    }
    Ok(())
}

/// Heads, the first rows of pictures and their other rows, and the first forward vectors of the first
/// two macroblocks.
#[rattlefmt::skip]
const TWO_VECTORS: &[(Head, &str, &str, [Vector; 2])] = &[
    // by fields, 7 half samples down, which is doubled, and a skipped one
    (FIELD_HEAD, "H 1 0010 01 0 1 00000110 0 1 1 011 0010 10 1 1 jjj", "Hjjjjjj",
        [Vector { x: 0, y: 7 }, Vector { x: 0, y: 14 }]),
    // 8 half samples down: twice that is out of the range, into which a code leads back
    (FIELD_HEAD, "H 1 0010 01 0 1 0000010110 0 1 1 1 0010 10 1 011 jjjj", "Hjjjjjj",
        [Vector { x: 0, y: 8 }, Vector { x: 0, y: 15 }]),
    // intra with a concealment vector that leads outside, and one to the right of it
    (CONCEALED_HEAD, "H 1 00011 011 1 1 10010 10010 10010 10010 0010 0010 1 001 0010 1 cccc", "Hcccccc",
        [Vector { x: -1, y: 0 }, Vector { x: 1, y: 0 }]),
];

fn first_vectors(outcome: &Outcome) -> [Vector; 2] {
    let [first, second, ..] = &outcome.decisions;
    [first.vectors[0][0], second.vectors[0][0]]
}

#[test]
fn a_vector_is_predicted_from_those_of_fields_and_of_concealment(
    rt: HostRuntime,
) -> Result<(), Fail> {
    for (head, text, other, wanted) in TWO_VECTORS {
        let outcome = read_first(&rt, rt.alloc(), *head, text, other)?;
        same(&rt, &outcome.answer, &Ok(()));
        same(&rt, &first_vectors(&outcome), wanted);
    }
    Ok(())
}

#[test]
fn a_skipped_macroblock_takes_no_vector_out_of_its_range(rt: HostRuntime) -> Result<(), Fail> {
    // behind field motion, 8 half samples down
    let text = "H 1 0010 01 0 1 0000010110 0 1 1 011 0010 10 1 1 jjj";
    let outcome = read_first(&rt, rt.alloc(), FIELD_HEAD, text, "Hjjjjjj")?;
    same(&rt, &outcome.answer, &Err(Why::BadVector));
    Ok(())
}

/// A P picture of one row of 40 macroblocks, whose only slice has these letters: the answer, and which of its
/// macroblocks are skipped.
fn read_long_row(
    rt: &impl Abort,
    alloc: Global,
    text: &str,
) -> Result<(Result<(), Why>, [bool; 40]), Fail> {
    let head = Head {
        mb_wide: 40,
        mb_high: 1,
        ..P_HEAD
    };
    assert!(rt; head.is_legal());
    let slices = slices_of(alloc, &[(1, text)])?;
    assert!(rt; has_no_front(&slices));
    let mut decisions = [INTRA_DECISION; 40];
    let mut levels = [MacroLevels::NONE; 40];
    let answer = read_slices(&head, &slices, &mut decisions, &mut levels);
    Ok((answer, decisions.map(|d| d.skipped)))
}

#[test]
fn an_escape_adds_33_to_an_increment(rt: HostRuntime) -> Result<(), Fail> {
    let alloc = rt.alloc();
    // an increment of 40, which leads past the row, and one of 39
    let (answer, _) = read_long_row(&rt, alloc, "H 1 001 1 1 E 00010 001 1 1")?;
    same(&rt, &answer, &Err(Why::BadMacro));
    let (answer, skipped) = read_long_row(&rt, alloc, "H 1 001 1 1 E 00011 001 1 1")?;
    same(&rt, &answer, &Ok(()));
    same(
        &rt,
        &[skipped[1], skipped[38], skipped[39]],
        &[true, true, false],
    );
    Ok(())
}
