//! Slices as texts: letters for headers and macroblocks, and bits.
use std::alloc::Global;
use std::test::Fail;

/// The bits of a letter in the text of a slice: of the header, of an escape, of macroblocks, or one
/// bit.
fn bits_of(letter: u8) -> &'static str {
    match letter {
        b'0' => "0",
        b'1' => "1",
        // a scale code 8 without extra information, and a scale code 3 with two bytes of it
        b'H' => "01000 0",
        b'X' => "00011 1 10101010 1 11111111 0",
        b'E' => "0000 0001 000",
        // a macroblock whose DC levels are their predictors, with an increment of 1 and of 2
        b'g' => "1 1 10010 10010 10010 10010 0010 0010",
        b's' => "011 1 10010 10010 10010 10010 0010 0010",
        // the same with an increment of 3
        b't' => "010 1 10010 10010 10010 10010 0010 0010",
        // an intra macroblock of a P or B picture, with a dct type 0, and with a concealment vector
        // of zero
        b'j' => "1 00011 0 10010 10010 10010 10010 0010 0010",
        b'c' => "1 00011 1 1 1 10010 10010 10010 10010 0010 0010",
        b'i' => "1 00011 10010 10010 10010 10010 0010 0010",
        // forward macroblocks of a P picture without blocks: half a sample to the right of the
        // predictor and to the left, and at it behind two skipped ones
        b'p' => "1 001 010 1",
        b'q' => "1 001 011 1",
        b'k' => "010 001 1 1",
        // macroblocks of a B picture without blocks: backward, half a sample to the right of the
        // predictor, and forward, at it behind a skipped one
        b'w' => "1 010 010 1",
        b'f' => "011 0010 1 1",
        // the first DC levels of luma and of Cb are 1 more than their predictors
        b'b' => "1 1 00110 10010 10010 10010 01110 0010",
        _ => "",
    }
}

/// Appends the slice of a row, with zeros up to the next byte.
fn push_slice(slices: &mut Vec<u8>, row: u8, text: &str) -> Result<(), Fail> {
    slices.extend_from_slice(&[0, 0, 1, row])?;
    let mut byte = 0u8;
    let mut place = 0x80u8;
    for letter in text.bytes() {
        for bit in bits_of(letter).bytes().filter(|c| *c != b' ') {
            if bit == b'1' {
                byte |= place;
            }
            place >>= 1;
            if place == 0 {
                slices.push(byte)?;
                byte = 0;
                place = 0x80;
            }
        }
    }
    if place != 0x80 {
        slices.push(byte)?;
    }
    Ok(())
}

/// A row of grey macroblocks of an I picture, and of intra macroblocks of a P or B picture.
pub const GREY: &str = "Hgggggg";

pub const INTRA: &str = "Hiiiiii";

/// The slices of these rows and letters.
pub fn slices_of(alloc: Global, rows: &[(u8, &str)]) -> Result<Vec<u8>, Fail> {
    let mut slices = Vec::new(alloc);
    for (row, text) in rows {
        push_slice(&mut slices, *row, text)?;
    }
    Ok(slices)
}

/// The slices of four rows: of this one, and of three of the other letters.
pub fn first_and_others(alloc: Global, first: &str, other: &str) -> Result<Vec<u8>, Fail> {
    slices_of(alloc, &[(1, first), (2, other), (3, other), (4, other)])
}
