//! `mv_blocks`: blocks read from bits that were written by hand or by another encoder.
ghost use Rattle.std.specs.Prelude.{◌≤◌, ◌<◌};
ghost use Rattle.mv_blocks.specs.Written.{IsWritable};

use crate::comparison::{same, same_bytes};
use mv_bits::{BitWindow, BitWriter, Room};
use mv_blocks::{BlockCode, Pair, pairs, read_block, write_block};
use mv_terms::Why;
use std::process::Abort;
use std::test::Fail;

const INTRA: BlockCode = BlockCode {
    intra: true,
    luma: true,
    table_15: false,
    alternate: false,
    dc_precision: 0,
};

const NON_INTRA: BlockCode = BlockCode {
    intra: false,
    ..INTRA
};

fn read(bytes: &[u8], code: BlockCode) -> (Result<(), Why>, [i16; 64], i16)
    requires { code.dc_precision ≤ 3 }
{
    let mut levels = [7; 64];
    let mut dc = 128;
    let answer = read_block(&mut BitWindow::new(bytes), code, &mut dc, &mut levels);
    (answer, levels, dc)
}

/// The levels of the first block of a picture that an encoder wrote: a pattern of columns.
#[rattlefmt::skip]
const COLUMNS: [i16; 64] = [
    44, 10, 6, 3, 0, -1, -2, -1, 0, 0, 0, 0, 0, 0, 0, 0,
    0, 0, 0, 0, 0, 0, 0, 0, 0, 0, 0, 0, 0, 0, 0, 0,
    0, 0, 0, 0, 0, 0, 0, 0, 0, 0, 0, 0, 0, 0, 0, 0,
    0, 0, 0, 0, 0, 0, 0, 0, 0, 0, 0, 0, 0, 0, 0, 0,
];

#[test]
fn an_intra_block_is_read_by_table_b_14(rt: HostRuntime) {
    let (answer, levels, dc) = read(
        &[
            0xF9, 0x58, 0x09, 0x81, 0x0C, 0x01, 0x8A, 0x0F, 0x00, 0x1A, 0xFB,
        ],
        INTRA,
    );
    same(&rt, &answer, &Ok(()));
    same(&rt, &dc, &44);
    same(&rt, &levels, &COLUMNS);
    let pairs = pairs(&levels, true, false);
    let runs = [(0, 10), (3, 6), (0, 3), (8, -1), (11, -2), (0, -1)];
    same(&rt, &pairs.len(), &runs.len());
    for (pair, (run, level)) in pairs.iter().zip(runs) {
        same(&rt, pair, &Pair { run, level });
    }
}

#[test]
fn an_intra_block_is_read_by_table_b_15_and_the_alternate_scan(rt: HostRuntime) {
    let code = BlockCode {
        table_15: true,
        alternate: true,
        ..INTRA
    };
    let (answer, levels, dc) = read(&[0xDE, 0x2F, 0x5B], code);
    same(&rt, &answer, &Ok(()));
    same(&rt, &dc, &143);
    let mut wanted = [0; 64];
    wanted[0] = 143;
    wanted[8] = -6;
    wanted[16] = -2;
    same(&rt, &levels, &wanted);
}

#[test]
fn no_end_stands_in_first_place(rt: HostRuntime) {
    for (bits, level) in [(0xA0, 1), (0xE0, -1)] {
        let (answer, levels, dc) = read(&[bits], NON_INTRA);
        let mut wanted = [0; 64];
        wanted[0] = level;
        same(&rt, &answer, &Ok(()));
        same(&rt, &dc, &128);
        same(&rt, &levels, &wanted);
    }
}

/// A block that isn't intra has this level in a place, or is refused.
fn ends_with(rt: &impl Abort, bytes: &[u8], place: usize, wanted: Result<i16, Why>)
    requires { place < 64 }
{
    let (answer, levels, _) = read(bytes, NON_INTRA);
    same(rt, &answer.map(|()| levels[place]), &wanted);
}

#[test]
fn escapes_have_each_level_but_0_and_minus_2048(rt: HostRuntime) {
    ends_with(&rt, &[0x04, 0x08, 0x01, 0x80], 0, Ok(-2047));
    ends_with(&rt, &[0x04, 0x08, 0x00, 0x80], 0, Err(Why::BadBlock));
    ends_with(&rt, &[0x04, 0x00, 0x00, 0x80], 0, Err(Why::BadBlock));
}

#[test]
fn the_last_place_is_63(rt: HostRuntime) {
    ends_with(&rt, &[0x07, 0xF0, 0x01, 0x80], 63, Ok(1));
    ends_with(&rt, &[0x07, 0xF0, 0x01, 0xC0], 63, Err(Why::BadBlock));
    ends_with(&rt, &[0x07, 0xF0, 0x01, 0x00], 63, Err(Why::BadCode));
}

#[test]
fn a_dc_level_fits_its_precision(rt: HostRuntime) {
    // from the predictor 128, the differences 127 and 128
    same(&rt, &read(&[0xFB, 0xFC], INTRA).2, &255);
    same(
        &rt,
        &read(&[0xFD, 0x01, 0x00], INTRA).0,
        &Err(Why::BadBlock),
    );
    let precise = BlockCode {
        dc_precision: 1,
        ..INTRA
    };
    same(&rt, &read(&[0xFD, 0x01, 0x00], precise).2, &256);
}

#[rattlefmt::skip]
const LEAST: [i16; 64] = [
    -2047, 0, 0, 0, 0, 0, 0, 0, 0, 0, 0, 0, 0, 0, 0, 0,
    0, 0, 0, 0, 0, 0, 0, 0, 0, 0, 0, 0, 0, 0, 0, 0,
    0, 0, 0, 0, 0, 0, 0, 0, 0, 0, 0, 0, 0, 0, 0, 0,
    0, 0, 0, 0, 0, 0, 0, 0, 0, 0, 0, 0, 0, 0, 0, 0,
];

/// The predictor of the next DC level behind a block, whose bits are put into the room.
fn put(room: &mut Room, code: BlockCode, mut dc: i16, levels: &[i16; 64]) -> i16
    requires { IsWritable code dc levels.now }
{
    let mut out = BitWriter::new();
    room.clear();
    write_block(&mut out, code, &mut dc, levels, room);
    out.align(room);
    dc
}

#[test]
fn blocks_are_written_as_an_encoder_wrote_them(rt: HostRuntime) -> Result<(), Fail> {
    let mut room = Room::take(rt.alloc(), 16)?;
    let columns = [
        0xF9, 0x58, 0x09, 0x81, 0x0C, 0x01, 0x8A, 0x0F, 0x00, 0x1A, 0xF8,
    ];
    same(&rt, &put(&mut room, INTRA, 128, &COLUMNS), &44);
    same_bytes(&rt, room.bytes(), &columns);
    same(&rt, &put(&mut room, NON_INTRA, 128, &LEAST), &128);
    same_bytes(&rt, room.bytes(), &[0x04, 0x08, 0x01, 0x80]);
    Ok(())
}
