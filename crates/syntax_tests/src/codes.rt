//! `mv_codes`: codes out of streams that an encoder wrote, read and written one by one.
use crate::comparison::{same, same_bytes};
use mv_bits::{BitWindow, BitWriter, Room};
use mv_codes::{
    Coef, Increment, TypeBits, read_coef, read_dc_size, read_increment, read_motion, read_pattern,
    read_type, write_coefficient, write_dc_size, write_end, write_increment, write_motion,
    write_pattern, write_type,
};
use mv_terms::PicType;
use std::process::Abort;
use std::test::Fail;

const INTRA: TypeBits = TypeBits {
    quant: false,
    forward: false,
    backward: false,
    pattern: false,
    intra: true,
};

/// A macroblock of a P picture with a pattern alone, and one of a B picture with all that may be sent.
const PATTERN: TypeBits = TypeBits {
    pattern: true,
    intra: false,
    ..INTRA
};

const PREDICTED: TypeBits = TypeBits {
    quant: true,
    forward: true,
    backward: true,
    ..PATTERN
};

/// Coefficients behind the first one are read.
fn later_coefficients(
    rt: &impl Abort,
    window: &mut BitWindow<'_>,
    table_15: bool,
    wanted: &[Coef],
) {
    for coefficient in wanted {
        same(rt, &read_coef(window, table_15, false), &Some(*coefficient));
    }
}

/// A macroblock of this type is read, next to the one before it.
fn next_macroblock(rt: &impl Abort, window: &mut BitWindow<'_>, pic: PicType, wanted: TypeBits) {
    same(rt, &read_increment(window), &Some(Increment::Step(1)));
    same(rt, &read_type(window, pic), &Some(wanted));
}

/// The start of a slice of an I picture that an encoder wrote, up to the end of its first block.
#[test]
fn an_intra_block_is_read_by_table_b_14(rt: HostRuntime) {
    let mut window = BitWindow::new(&[
        0x33, 0xF9, 0x58, 0x09, 0x81, 0x0C, 0x01, 0x8A, 0x0F, 0x00, 0x1A, 0xFB,
    ]);
    same(&rt, &window.take(6), &12);
    next_macroblock(&rt, &mut window, PicType::I, INTRA);
    same(&rt, &read_dc_size(&mut window, true), &Some(7));
    same(&rt, &window.take(7), &43);
    later_coefficients(&rt, &mut window, false, &[Coef::Pair(0, 10), Coef::Escape]);
    same(&rt, &window.take(18), &12294);
    let others = [
        Coef::Pair(0, 3),
        Coef::Pair(8, -1),
        Coef::Pair(11, -2),
        Coef::Pair(0, -1),
        Coef::End,
    ];
    later_coefficients(&rt, &mut window, false, &others);
}

/// The same of a picture with `intra_vlc_format`.
#[test]
fn an_intra_block_is_read_by_table_b_15(rt: HostRuntime) {
    let mut window = BitWindow::new(&[0x13, 0xDE, 0x2F, 0x5B]);
    same(&rt, &window.take(6), &4);
    next_macroblock(&rt, &mut window, PicType::I, INTRA);
    same(&rt, &read_dc_size(&mut window, true), &Some(4));
    same(&rt, &window.take(4), &15);
    later_coefficients(&rt, &mut window, true, &[Coef::Pair(0, -6)]);
    same(
        &rt,
        &read_coef(&mut window, true, true),
        &Some(Coef::Pair(0, -2)),
    );
    later_coefficients(&rt, &mut window, true, &[Coef::End]);
}

/// The start of a slice of a P picture that an encoder wrote.
#[test]
fn a_block_that_is_not_intra_has_a_pattern_and_a_first_coefficient(rt: HostRuntime) {
    let mut window = BitWindow::new(&[0x22, 0x82, 0x0E, 0x50, 0x0D, 0x6B]);
    same(&rt, &window.take(6), &8);
    next_macroblock(&rt, &mut window, PicType::P, PATTERN);
    same(&rt, &read_pattern(&mut window), &Some(58));
    same(
        &rt,
        &read_coef(&mut window, false, true),
        &Some(Coef::Pair(5, 1)),
    );
    let others = [Coef::Pair(2, 1), Coef::Pair(18, -1), Coef::End];
    later_coefficients(&rt, &mut window, false, &others);
}

#[test]
fn motion_codes_and_chroma_sizes_are_read(rt: HostRuntime) {
    // an encoder's macroblock that is predicted without a motion, and then the codes of -16 and 16
    let mut window = BitWindow::new(&[0x22, 0x7A]);
    same(&rt, &window.take(10), &0x89);
    same(&rt, &read_motion(&mut window), &Some(0));
    same(&rt, &read_motion(&mut window), &Some(0));
    let mut codes = BitWindow::new(&[0x03, 0x20, 0x60, 0xA0]);
    same(&rt, &read_motion(&mut codes), &Some(-16));
    same(&rt, &read_motion(&mut codes), &Some(16));
    let mut sizes = BitWindow::new(&[0x3F, 0xEF, 0xF0]);
    same(&rt, &read_dc_size(&mut sizes, false), &Some(0));
    same(&rt, &read_dc_size(&mut sizes, false), &Some(10));
    same(&rt, &read_dc_size(&mut sizes, true), &Some(10));
}

#[test]
fn a_window_stays_where_no_code_begins_it(rt: HostRuntime) {
    let mut window = BitWindow::new(&[0x00, 0x01, 0x80]);
    same(&rt, &read_increment(&mut window), &None);
    same(&rt, &read_type(&mut window, PicType::B), &None);
    same(&rt, &read_pattern(&mut window), &None);
    same(&rt, &read_motion(&mut window), &None);
    same(&rt, &read_coef(&mut window, false, false), &None);
    same(&rt, &read_coef(&mut window, true, false), &None);
    same(&rt, &window.take(24), &0x180);
}

/// A slice's first bits.
fn write_intra_block(room: &mut Room) {
    let mut out = BitWriter::new();
    out.put(12, 6, room);
    write_increment(Increment::Step(1), &mut out, room);
    write_type(INTRA, PicType::I, &mut out, room);
    write_dc_size(7, true, &mut out, room);
    out.put(43, 7, room);
    write_coefficient(0, &10, false, false, &mut out, room);
    write_coefficient(3, &6, false, false, &mut out, room);
    write_coefficient(0, &3, false, false, &mut out, room);
    write_coefficient(8, &-1, false, false, &mut out, room);
    write_coefficient(11, &-2, false, false, &mut out, room);
    write_coefficient(0, &-1, false, false, &mut out, room);
    write_end(false, &mut out, room);
    out.align(room);
}

/// As an encoder wrote them.
#[test]
fn the_codes_of_an_intra_block_are_written(rt: HostRuntime) -> Result<(), Fail> {
    let mut room = Room::take(rt.alloc(), 16)?;
    write_intra_block(&mut room);
    let wanted = [
        0x33, 0xF9, 0x58, 0x09, 0x81, 0x0C, 0x01, 0x8A, 0x0F, 0x00, 0x1A, 0xF8,
    ];
    same_bytes(&rt, room.bytes(), &wanted);
    Ok(())
}

fn write_each(room: &mut Room) {
    let mut out = BitWriter::new();
    write_increment(Increment::Escape, &mut out, room);
    write_type(PREDICTED, PicType::B, &mut out, room);
    write_pattern(0, &mut out, room);
    write_motion(-16, &mut out, room);
    write_motion(3, &mut out, room);
    write_dc_size(11, false, &mut out, room);
    write_coefficient(0, &-1, false, true, &mut out, room);
    write_coefficient(31, &1, true, false, &mut out, room);
    write_end(true, &mut out, room);
    out.align(room);
}

fn read_each(rt: &impl Abort, bytes: &[u8]) {
    let mut window = BitWindow::new(bytes);
    same(rt, &read_increment(&mut window), &Some(Increment::Escape));
    same(rt, &read_type(&mut window, PicType::B), &Some(PREDICTED));
    same(rt, &read_pattern(&mut window), &Some(0));
    same(rt, &read_motion(&mut window), &Some(-16));
    same(rt, &read_motion(&mut window), &Some(3));
    same(rt, &read_dc_size(&mut window, false), &Some(11));
    same(
        rt,
        &read_coef(&mut window, false, true),
        &Some(Coef::Pair(0, -1)),
    );
    later_coefficients(rt, &mut window, true, &[Coef::Pair(31, 1), Coef::End]);
    assert!(rt; window.rest_zero());
}

#[test]
fn each_other_table_is_written_and_read_back(rt: HostRuntime) -> Result<(), Fail> {
    let mut room = Room::take(rt.alloc(), 16)?;
    write_each(&mut room);
    read_each(&rt, room.bytes());
    Ok(())
}
