//! `mv_macro`: macroblocks, read from bits that were written by hand, and written as these.
use crate::comparison::{same, same_bytes};
use crate::fixtures::{I_HEAD, INTRA, MOVED_HEAD};
use mv_bits::{BitWindow, BitWriter, Room};
use mv_macro::SliceState;
use mv_terms::{Decision, Head, MacroLevels, PicType, Vector, Why, unsupported};
use std::process::Abort;
use std::test::Fail;

/// What is decided for an intra macroblock that stands first in its slice, with scale code 9 in
/// force.
const FIRST: Decision = Decision {
    slice_start: true,
    scale: 9,
    head_scale: 9,
    ..INTRA
};

/// What reading a macroblock leaves, with the column of the next one.
#[derive(Clone, Copy)]
struct Outcome {
    answer: Result<(), Why>,
    next: u16,
    decision: Decision,
    levels: MacroLevels,
}

/// Reads the first macroblock of a slice with scale code 9.
fn read(rt: &impl Abort, bytes: &[u8], head: &Head) -> Outcome {
    assert!(rt; head.is_legal());
    let mut state = SliceState::new(head, 9, 0, 0);
    let mut decision = Decision {
        skipped: true,
        ..FIRST
    };
    let mut levels = MacroLevels {
        blocks: [[7; 64]; 6],
    };
    let mut w = BitWindow::new(bytes);
    let answer = state.read_macro(&mut w, head, &mut decision, &mut levels);
    Outcome {
        answer,
        next: state.mb_x(),
        decision,
        levels,
    }
}

/// The bits that a text of 0 and 1 writes, and zeros behind them.
fn bytes_of(text: &str) -> [u8; 24] {
    let mut bytes = [0u8; 24];
    for (place, bit) in text.bytes().filter(|c| *c != b' ').enumerate() {
        if bit == b'1' && place < 192 {
            bytes[place / 8] |= 0x80 >> (place % 8);
        }
    }
    bytes
}

/// Reads a macroblock written by 0 and 1.
fn read_text(rt: &impl Abort, text: &str, head: &Head) -> Outcome {
    read(rt, &bytes_of(text), head)
}

/// A block with these levels at their places, and zero elsewhere.
fn block(levels: &[(usize, i16)]) -> [i16; 64] {
    let mut block = [0; 64];
    for (place, level) in levels {
        if *place < 64 {
            block[*place] = *level;
        }
    }
    block
}

/// The first macroblock of a picture that an encoder wrote with a DC precision of 10 bits, and its levels.
const PRECISE: &[u8] = &[
    0xF5, 0x12, 0x9B, 0xBA, 0x59, 0x76, 0x62, 0xD3, 0x7A, 0x50, 0xD4, 0xDF, 0x46, 0x1A, 0x5B, 0x5F,
    0xA0, 0x90, 0xC9, 0xAD, 0x00,
];

const PRECISE_LEVELS: &[&[(usize, i16)]] = &[
    &[(0, 532), (1, -2), (8, -2)],
    &[(0, 561), (1, -3), (8, -3)],
    &[(0, 552), (1, -3), (8, -2)],
    &[(0, 589), (1, -4), (8, -2)],
    &[(0, 547), (1, -4), (8, -3), (9, 1)],
    &[(0, 577), (1, -6), (8, -5), (9, 1)],
];

#[test]
fn a_macroblock_is_read_with_its_blocks(rt: HostRuntime) {
    let head = Head {
        dc_precision: 2,
        ..I_HEAD
    };
    let read = read(&rt, PRECISE, &head);
    same(&rt, &read.answer, &Ok(()));
    same(&rt, &read.decision, &FIRST);
    same(&rt, &PRECISE_LEVELS.len(), &6);
    for (levels, wanted) in read.levels.blocks.iter().zip(PRECISE_LEVELS) {
        same(&rt, levels, &block(wanted));
    }
    same(&rt, &read.next, &1);
}

#[test]
fn a_scale_code_and_a_dct_type_are_read_where_they_are_sent(rt: HostRuntime) {
    let grey = MacroLevels {
        blocks: [block(&[(0, 128)]); 6],
    };
    let by_fields = Head {
        frame_only: false,
        ..I_HEAD
    };
    let sent = Decision {
        quant: true,
        field_dct: true,
        scale: 21,
        ..FIRST
    };
    let cases: [(&[u8], Head, Decision); 2] = [
        (&[0xCA, 0x52, 0x91, 0x10], I_HEAD, FIRST),
        (&[0x75, 0x94, 0xA5, 0x22, 0x20], by_fields, sent),
    ];
    for (bytes, head, decision) in cases {
        let read = read(&rt, bytes, &head);
        same(&rt, &read.answer, &Ok(()));
        same(&rt, &read.decision, &decision);
        same(&rt, &read.levels, &grey);
    }
}

#[test]
fn the_first_refusal_is_answered(rt: HostRuntime) {
    let cases: [(&[u8], Why); 3] = [
        (&[0x25, 0x29, 0x48, 0x88], Why::BadCode),
        (&[0x41, 0x29, 0x4A, 0x44, 0x40], Why::BadMacro),
        (&[0xFE, 0x80], Why::BadBlock),
    ];
    for (bytes, why) in cases {
        same(&rt, &read(&rt, bytes, &I_HEAD).answer, &Err(why));
    }
}

#[test]
fn no_macroblock_of_an_i_picture_is_skipped(rt: HostRuntime) {
    assert!(rt; I_HEAD.is_legal());
    let mut state = SliceState::new(&I_HEAD, 9, 0, 0);
    let mut d = FIRST;
    same(
        &rt,
        &state.read_skipped(&I_HEAD, &mut d),
        &Err(Why::BadMacro),
    );
}

/// What the bytes behind it say of a P picture with field motion: type 001; field motion 01; top field, 5 with residual 1
/// and 0; bottom field, 1 with residual 0 and 0.
const MOVED: Decision = Decision {
    intra: false,
    forward: true,
    field_motion: true,
    selects: [[false, true], [false, false]],
    vectors: [
        [Vector { x: 10, y: 0 }, Vector { x: 1, y: 0 }],
        [Vector::STILL; 2],
    ],
    ..FIRST
};

const MOVED_BYTES: &[u8] = &[0b0010_1000, 0b0010_1011, 0b1010_0100];

#[test]
fn field_vectors_are_read_with_their_selects(rt: HostRuntime) {
    let read = read(&rt, MOVED_BYTES, &MOVED_HEAD);
    same(&rt, &read.answer, &Ok(()));
    same(&rt, &read.decision, &MOVED);
    same(&rt, &read.levels, &MacroLevels::NONE);
}

#[test]
fn the_blocks_of_a_pattern_are_read(rt: HostRuntime) {
    let head = Head {
        f_code: [[1, 1], [15, 15]],
        frame_only: true,
        ..MOVED_HEAD
    };
    // type 01: a pattern without motion; pattern 4, which is Y3; a first coefficient 1 and the end
    let read = read(&rt, &[0b0111_0110, 0b1000_0000], &head);
    same(&rt, &read.answer, &Ok(()));
    same(&rt, &read.levels.blocks[3], &block(&[(0, 1)]));
    same(&rt, &read.levels.blocks[0], &block(&[]));
}

#[test]
fn the_first_coefficient_of_a_block_has_a_code_of_its_own(rt: HostRuntime) {
    // type 01, dct type 0, pattern 1010 for Y0 alone; the first coefficient, and the end of the
    // block
    for (text, level) in [("01 0 1010 10 10", 1), ("01 0 1010 11 10", -1)] {
        let read = read_text(&rt, text, &MOVED_HEAD);
        same(&rt, &read.answer, &Ok(()));
        same(&rt, &read.levels.blocks[0], &block(&[(0, level)]));
    }
}

/// A P picture with field motion and concealment vectors, and a B picture with both.
const P_CONCEALED: Head = Head {
    concealment: true,
    ..MOVED_HEAD
};

const B_CONCEALED: Head = Head {
    pic: PicType::B,
    f_code: [[2; 2]; 2],
    ..P_CONCEALED
};

/// Reads macroblocks that are right, and those that differ from them from the first bit on that is
/// refused.
fn refuse(rt: &impl Abort, head: &Head, cases: &[(&str, &str, Why)]) {
    for (right, wrong, why) in cases {
        same(rt, &read_text(rt, right, head).answer, &Ok(()));
        same(rt, &read_text(rt, wrong, head).answer, &Err(*why));
    }
}

/// Intra with a concealment vector, and DC levels that are their predictors.
const CONCEALED: &str = "00011 0 1 1 1 10010 10010 10010 10010 0010 0010";

/// A pattern for a block with an escape.
const ESCAPED: &str = "01 0 1010 000001 111111 000000000001 10";

/// Forward without a pattern, a pattern with a scale code, a pattern, and intra with a concealment
/// vector.
#[rattlefmt::skip]
const P_CASES: &[(&str, &str, Why)] = &[
    ("001 10 1 1", "000000", Why::BadCode),
    ("001 10 1 1", "001 00 1 1", Why::BadMacro),
    ("001 10 1 1", "001 11 1 1", Why::Unsupported(unsupported::DUAL_PRIME)),
    ("001 10 1 1", "001 10 00000000000 1", Why::BadCode),
    ("001 10 1 1", "001 10 1 00000000000", Why::BadCode),
    // half a sample to the right, and to the left, which leads outside
    ("001 10 010 0 1", "001 10 011 0 1", Why::BadVector),
    ("00001 0 00001 1010 10 10", "00001 0 00000 1010 10 10", Why::BadMacro),
    ("01 0 1010 10 10", "01 0 000000000 1", Why::BadCode),
    ("01 0 1010 10 10", "01 0 000000001 1", Why::BadMacro),
    ("01 0 1010 10 10", "01 0 1010 000000000000", Why::BadCode),
    // the level of an escape, and a level behind place 63
    (ESCAPED, "01 0 1010 000001 111111 000000000000", Why::BadBlock),
    (ESCAPED, "01 0 1010 000001 111111 000000000001 110", Why::BadBlock),
    // the marker, and a DC level below 0
    (CONCEALED, "00011 0 1 1 0", Why::BadMacro),
    (CONCEALED, "00011 0 1 1 1 1111110 00000000", Why::BadBlock),
];

/// Both directions without a pattern, backward with a pattern and a scale code, backward with a
/// pattern, and intra with a concealment vector.
#[rattlefmt::skip]
const B_CASES: &[(&str, &str, Why)] = &[
    ("10 10 1 1 1 1", "000000", Why::BadCode),
    ("10 10 1 1 1 1", "10 00 1 1 1 1", Why::BadMacro),
    ("10 10 1 1 1 1", "10 11 1 1 1 1", Why::Unsupported(unsupported::DUAL_PRIME)),
    ("10 10 1 1 1 1", "10 10 1 1 1 00000000000", Why::BadCode),
    // half a sample to the left; the same of the second of two field vectors
    ("010 10 010 0 1", "010 10 011 0 1", Why::BadVector),
    ("010 01 0 1 1 1 010 0 1", "010 01 0 1 1 1 011 0 1", Why::BadVector),
    ("000010 10 0 00001 1 1 1010 10 10", "000010 10 0 00000 1 1 1010 10 10", Why::BadMacro),
    ("011 10 0 1 1 1010 10 10", "011 10 0 1 1 000000000 1", Why::BadCode),
    ("011 10 0 1 1 1010 10 10", "011 10 0 1 1 000000001 1", Why::BadMacro),
    ("011 10 0 1 1 1010 10 10", "011 10 0 1 1 1010 000000000000", Why::BadCode),
    ("011 10 0 1 1 1010 10 10", "011 10 0 1 1 1010 000001 000000 100000000000 10", Why::BadBlock),
    (CONCEALED, "00011 0 1 1 0", Why::BadMacro),
    (CONCEALED, "00011 0 1 1 1 1111110 00000000", Why::BadBlock),
];

/// Two refusals, of which the first one is answered: a motion type before a scale code, and this
/// before a vector; a vector that leads outside behind its last component, and before a pattern 0;
/// a marker before the first block.
#[rattlefmt::skip]
const TWO_CASES: &[(&str, &str, Why)] = &[
    ("001 10 1 1", "00010 11 0 00000", Why::Unsupported(unsupported::DUAL_PRIME)),
    ("001 10 1 1", "00010 10 0 00000 00000000000", Why::BadMacro),
    ("001 10 1 1", "1 10 0 011 0 00000000000", Why::BadCode),
    ("001 10 1 1", "1 10 0 011 0 1 000000001", Why::BadVector),
    ("001 10 1 1", "00011 0 1 1 0 1111110 00000000 10", Why::BadMacro),
];

#[test]
fn each_part_of_a_macroblock_of_a_p_picture_is_refused(rt: HostRuntime) {
    refuse(&rt, &P_CONCEALED, P_CASES);
}

#[test]
fn each_part_of_a_macroblock_of_a_b_picture_is_refused(rt: HostRuntime) {
    refuse(&rt, &B_CONCEALED, B_CASES);
}

#[test]
fn the_first_of_two_refusals_is_answered(rt: HostRuntime) {
    refuse(&rt, &P_CONCEALED, TWO_CASES);
}

#[test]
fn a_concealment_vector_may_lead_outside(rt: HostRuntime) {
    let head = Head {
        concealment: true,
        f_code: [[1, 1], [15, 15]],
        ..I_HEAD
    };
    // half a sample to the left and down
    let read = read_text(&rt, "1 011 010 1 10010 10010 10010 10010 0010 0010", &head);
    same(&rt, &read.answer, &Ok(()));
    let wanted = Decision {
        vectors: [[Vector { x: -1, y: 1 }, Vector::STILL], [Vector::STILL; 2]],
        ..FIRST
    };
    same(&rt, &read.decision, &wanted);
}

#[test]
fn field_vectors_are_written_with_their_selects(rt: HostRuntime) -> Result<(), Fail> {
    let mut room = Room::take(rt.alloc(), 16)?;
    let mut out = BitWriter::new();
    assert!(rt; MOVED_HEAD.is_legal());
    let mut state = SliceState::new(&MOVED_HEAD, 9, 0, 0);
    state.write_macro(&mut out, &MOVED_HEAD, &MOVED, &MacroLevels::NONE, &mut room);
    out.align(&mut room);
    same_bytes(&rt, room.bytes(), MOVED_BYTES);
    Ok(())
}

/// The settled decision of a macroblock without levels that stands first in a slice with scale code 9.
fn settled(decision: &Decision, last: bool) -> Decision {
    let state = SliceState::new(&MOVED_HEAD, 9, 0, 0);
    state.settle(&MOVED_HEAD, last, decision, &MacroLevels::NONE)
}

#[test]
fn decisions_are_settled(rt: HostRuntime) {
    // one that says nothing is sent with a vector at the edge of its slice
    let nothing = Decision {
        intra: false,
        quant: true,
        scale: 12,
        ..FIRST
    };
    let still = Decision {
        intra: false,
        forward: true,
        ..FIRST
    };
    same(&rt, &settled(&nothing, false), &still);
    // a scale code is sent where it is another one
    let changed = Decision { scale: 12, ..FIRST };
    let sent = Decision {
        quant: true,
        ..changed
    };
    same(&rt, &settled(&changed, true), &sent);
}
