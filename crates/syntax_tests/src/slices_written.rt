//! `mv_slices`: slices that were read, most of them of pictures of 6x4 macroblocks, are written again as they were.
use crate::comparison::{same, same_bytes};
use crate::fixtures::{B_HEAD, CONCEALED_HEAD, FIELD_HEAD, I_HEAD, P_HEAD};
use crate::slice_text::{GREY, INTRA, slices_of};
use mv_bits::{CompareWith, Put, Room, has_no_front};
use mv_slices::{read_slices, write_slices};
use mv_terms::{Decision, Head, MacroLevels};
use std::alloc::Global;
use std::process::Abort;
use std::test::Fail;

/// Reads slices of a picture into these lists, and writes them again; writes nothing where they are refused.
fn write_again<P: Put>(
    rt: &impl Abort,
    head: &Head,
    slices: &[u8],
    decisions: &mut [Decision],
    levels: &mut [MacroLevels],
    to: &mut P,
) {
    let size = usize::from(head.mb_wide) * usize::from(head.mb_high);
    assert!(rt; head.is_legal());
    assert!(rt; has_no_front(slices));
    assert!(rt; decisions.len() == size && levels.len() == size);
    if let Ok(()) = read_slices(head, slices, decisions, levels) {
        write_slices(head, decisions, levels, to);
    }
}

/// The same of a picture of 24 macroblocks.
fn write_small_again<P: Put>(rt: &impl Abort, head: &Head, slices: &[u8], to: &mut P) {
    let mut decisions = [Decision::NONE; 24];
    let mut levels = [MacroLevels::NONE; 24];
    write_again(rt, head, slices, &mut decisions, &mut levels, to);
}

/// Whether slices are written again as these bytes and at most so many zero bytes.
fn is_written_as(
    rt: &impl Abort,
    head: &Head,
    slices: &[u8],
    bytes: &[u8],
    zero_count: u64,
) -> bool {
    let mut compare = CompareWith::new(bytes, zero_count);
    write_small_again(rt, head, slices, &mut compare);
    compare.equal()
}

/// Slices are written again as these bytes and so many zero bytes, and not as they are with fewer.
fn written_with_zeros(rt: &impl Abort, head: &Head, slices: &[u8], bytes: &[u8], zero_count: u64) {
    assert!(rt; is_written_as(rt, head, slices, bytes, zero_count));
    if zero_count > 0 {
        assert!(rt; !is_written_as(rt, head, slices, bytes, zero_count - 1));
    }
}

/// Slices are written again as others, and not as these.
fn not_written_as(rt: &impl Abort, head: &Head, slices: &[u8], bytes: &[u8]) {
    assert!(rt; !is_written_as(rt, head, slices, bytes, 0));
}

/// The slices of the example stream: each row has these bytes behind its start code.
#[rattlefmt::skip]
const EXAMPLE_ROW: [u8; 24] = [
    0x43, 0x94, 0xA5, 0x22, 0x2E, 0x52, 0x94, 0x88, 0xB9, 0x4A, 0x52, 0x22,
    0xE5, 0x29, 0x48, 0x8B, 0x94, 0xA5, 0x22, 0x2E, 0x52, 0x94, 0x88, 0x80,
];

fn example(alloc: Global) -> Result<Vec<u8>, Fail> {
    let mut slices = Vec::new(alloc);
    for row in 1..=4u8 {
        slices.extend_from_slice(&[0, 0, 1, row])?;
        slices.extend_from_slice(&EXAMPLE_ROW)?;
    }
    Ok(slices)
}

#[test]
fn the_slices_of_the_example_are_written_again(rt: HostRuntime) -> Result<(), Fail> {
    let slices = example(rt.alloc())?;
    written_with_zeros(&rt, &I_HEAD, &slices, &slices, 0);
    let mut room = Room::take(rt.alloc(), 200)?;
    write_small_again(&rt, &I_HEAD, &slices, &mut room);
    same_bytes(&rt, room.bytes(), &slices);
    // not those of another picture
    let rows = [(1, GREY), (2, "Hgbgggg"), (3, GREY), (4, GREY)];
    not_written_as(&rt, &I_HEAD, &slices, &slices_of(rt.alloc(), &rows)?);
    Ok(())
}

/// Heads, the first rows of pictures, in one slice or two, and the other rows.
#[rattlefmt::skip]
const PICTURES: &[(Head, &[&str], &str)] = &[
    // macroblocks are skipped in P and in B pictures
    (P_HEAD, &["Hpkpq"], INTRA),
    (B_HEAD, &["Hwfiii"], INTRA),
    // prediction in both directions, and a pattern without a vector
    (B_HEAD, &["H 1 10 1 1 1 1 1 10 011 1 010 1 iiii"], INTRA),
    (P_HEAD, &["H 1 01 01011 1 0 10 iiiii"], INTRA),
    // the second slice begins in mid-row
    (P_HEAD, &["Hpp", "000110 010 001 010 1 1 001 1 1 q 1 001 1 1"], INTRA),
    (I_HEAD, &["Hgg", "000110 010 1 10010 10010 10010 10010 0010 0010 ggg"], GREY),
    // prediction by fields, behind which one is skipped, and concealment vectors
    (FIELD_HEAD, &["H 1 0010 01 0 1 00000110 0 1 1 011 0010 10 1 1 jjj"], "Hjjjjjj"),
    (FIELD_HEAD, &["H 1 0010 01 0 1 0000010110 0 1 1 1 0010 10 1 011 jjjj"], "Hjjjjjj"),
    (CONCEALED_HEAD, &["H 1 00011 011 1 1 10010 10010 10010 10010 0010 0010 1 001 0010 1 cccc"], "Hcccccc"),
];

/// A first row of these slices, and three other rows.
fn rows_of(
    alloc: Global,
    first: &[&'static str],
    other: &'static str,
) -> Result<Vec<(u8, &'static str)>, Fail> {
    let mut rows = Vec::new(alloc);
    for text in first {
        rows.push((1, *text))?;
    }
    for row in 2..=4u8 {
        rows.push((row, other))?;
    }
    Ok(rows)
}

#[test]
fn pictures_are_written_again(rt: HostRuntime) -> Result<(), Fail> {
    for (head, first, other) in PICTURES {
        let slices = slices_of(rt.alloc(), &rows_of(rt.alloc(), first, other)?)?;
        written_with_zeros(&rt, head, &slices, &slices, 0);
    }
    Ok(())
}

/// The slices of a P picture whose last row has these letters; the others are intra.
fn last_row(alloc: Global, last: &str) -> Result<Vec<u8>, Fail> {
    slices_of(alloc, &[(1, INTRA), (2, INTRA), (3, INTRA), (4, last)])
}

#[test]
fn a_zero_byte_that_ends_the_last_slice_is_its_tail(rt: HostRuntime) -> Result<(), Fail> {
    // the last macroblock goes half a sample up by f_code 9: its last eight bits are a residual of zero
    let head = Head {
        f_code: [[9; 2]; 2],
        ..P_HEAD
    };
    let whole = last_row(rt.alloc(), "Hiiiii 1 001 1 011 00000000")?;
    let slices = last_row(rt.alloc(), "Hiiiii 1 001 1 011")?;
    same(&rt, &whole.len(), &slices.len().wrapping_add(1));
    // they are read the same without it
    for read in [&whole, &slices] {
        written_with_zeros(&rt, &head, read, &slices, 1);
        written_with_zeros(&rt, &head, read, &whole, 0);
    }
    Ok(())
}

/// A last row of 193 bits: Cb becomes brighter and darker in turns, and Cr brighter in the last macroblock.
const BRIGHTER: &str =
    "H 1 1 10010 10010 10010 10010 01110 0010 1 1 10010 10010 10010 10010 01010 0010
    1 1 10010 10010 10010 10010 01110 0010 1 1 10010 10010 10010 10010 01010 0010
    1 1 10010 10010 10010 10010 01110 0010 1 1 10010 10010 10010 10010 01010 01110";

/// Its bytes behind the start code, but the last one, which is zero.
#[rattlefmt::skip]
const BRIGHTER_BYTES: [u8; 24] = [
    0x43, 0x94, 0xA5, 0x27, 0x17, 0x29, 0x4A, 0x4A, 0x2E, 0x52, 0x94, 0x9C,
    0x5C, 0xA5, 0x29, 0x28, 0xB9, 0x4A, 0x52, 0x71, 0x72, 0x94, 0xA4, 0xA7,
];

#[test]
fn a_row_of_193_bits_ends_with_a_dropped_byte(rt: HostRuntime) -> Result<(), Fail> {
    let whole = slices_of(
        rt.alloc(),
        &[(1, GREY), (2, GREY), (3, GREY), (4, BRIGHTER)],
    )?;
    let mut slices = slices_of(rt.alloc(), &[(1, GREY), (2, GREY), (3, GREY), (4, "")])?;
    slices.extend_from_slice(&BRIGHTER_BYTES)?;
    same(&rt, &whole.len(), &slices.len().wrapping_add(1));
    written_with_zeros(&rt, &I_HEAD, &whole, &slices, 1);
    Ok(())
}

#[test]
fn of_two_deltas_that_lead_to_a_vector_the_negative_one_is_written(
    rt: HostRuntime,
) -> Result<(), Fail> {
    let head = Head {
        f_code: [[2; 2]; 2],
        ..P_HEAD
    };
    // behind the predictor -10 both -32 and 32 lead to 22
    let minus = last_row(
        rt.alloc(),
        "Hi 1 001 0000101 1 1 1 1 001 0000001100 1 1 1 iii",
    )?;
    let plus = last_row(
        rt.alloc(),
        "Hi 1 001 0000101 1 1 1 1 001 0000001100 0 1 1 iii",
    )?;
    written_with_zeros(&rt, &head, &minus, &minus, 0);
    written_with_zeros(&rt, &head, &plus, &minus, 0);
    not_written_as(&rt, &head, &plus, &plus);
    Ok(())
}

/// Rows of a P picture of 72 by 2 macroblocks, with forward macroblocks without a motion behind increments of 33, 34 and
/// 4, and of 71 (H.262, Table B.1).
const ESCAPED: &[(u8, &str)] = &[
    (
        1,
        "H 1 001 1 1 00000011000 001 1 1 00000001000 1 001 1 1 0011 001 1 1",
    ),
    (2, "H 1 001 1 1 00000001000 00000001000 0010 001 1 1"),
];

#[test]
fn an_increment_has_an_escape_for_each_33_macroblocks(rt: HostRuntime) -> Result<(), Fail> {
    let head = Head {
        mb_wide: 72,
        mb_high: 2,
        ..P_HEAD
    };
    let slices = slices_of(rt.alloc(), ESCAPED)?;
    let mut decisions = [Decision::NONE; 144];
    let mut levels = [MacroLevels::NONE; 144];
    let mut compare = CompareWith::new(&slices, 0);
    write_again(
        &rt,
        &head,
        &slices,
        &mut decisions,
        &mut levels,
        &mut compare,
    );
    same(&rt, &compare.equal(), &true);
    Ok(())
}
