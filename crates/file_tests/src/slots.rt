//! `rec_slot`: slots worked by hand.
use mv_terms::{Decision, PicType, Vector};
use rec_slot::{read_slot, slot_bytes, uses_forward};

/// An intra macroblock that starts its slice, with scale code 8 in the slice header.
const FIRST: Decision = Decision {
    slice_start: true,
    intra: true,
    scale: 8,
    head_scale: 8,
    ..Decision::NONE
};

/// A macroblock with four vectors of fields and a scale code of its own.
const FOUR_VECTORS: Decision = Decision {
    quant: true,
    forward: true,
    backward: true,
    field_dct: true,
    field_motion: true,
    scale: 31,
    selects: [[true, false], [false, true]],
    vectors: [
        [Vector { x: -1, y: 2 }, Vector { x: -2048, y: 2047 }],
        [
            Vector { x: 258, y: -257 },
            Vector {
                x: 32767,
                y: -32768,
            },
        ],
    ],
    ..Decision::NONE
};

/// A skipped macroblock of a P picture, and one of a B picture.
const SKIPPED: Decision = Decision {
    skipped: true,
    scale: 1,
    ..Decision::NONE
};

const SKIPPED_BACKWARD: Decision = Decision {
    backward: true,
    ..SKIPPED
};

#[rattlefmt::skip]
const SLOTS: [(Decision, [u8; 20]); 3] = [
    (FIRST, [0x90, 8, 0, 0, 0, 0, 0, 0, 0, 0, 0, 0, 0, 0, 0, 0, 0, 0, 0, 8]),
    (FOUR_VECTORS, [0x2F, 31, 0x90, 0xFF, 0xFF, 0, 2, 0xF8, 0, 7, 0xFF, 1, 2, 0xFE, 0xFF, 0x7F, 0xFF, 0x80, 0, 0]),
    (SKIPPED_BACKWARD, [0x44, 1, 0, 0, 0, 0, 0, 0, 0, 0, 0, 0, 0, 0, 0, 0, 0, 0, 0, 0]),
];

#[test]
fn slots_are_written_and_read_back(rt: HostRuntime) {
    for (decision, bytes) in SLOTS {
        assert_eq!(rt; slot_bytes(&decision), bytes);
        assert_eq!(rt; read_slot(&bytes), Some(decision));
    }
}

#[rattlefmt::skip]
const NO_SLOTS: [[u8; 20]; 4] = [
    [0x90, 8, 1, 0, 0, 0, 0, 0, 0, 0, 0, 0, 0, 0, 0, 0, 0, 0, 0, 8],
    [0x90, 0, 0, 0, 0, 0, 0, 0, 0, 0, 0, 0, 0, 0, 0, 0, 0, 0, 0, 8],
    [0x90, 32, 0, 0, 0, 0, 0, 0, 0, 0, 0, 0, 0, 0, 0, 0, 0, 0, 0, 8],
    [0x90, 8, 0, 0, 0, 0, 0, 0, 0, 0, 0, 0, 0, 0, 0, 0, 0, 0, 0, 32],
];

#[test]
fn other_bytes_are_no_slot(rt: HostRuntime) {
    for bytes in NO_SLOTS {
        assert_eq!(rt; read_slot(&bytes), None);
    }
}

#[test]
fn a_skipped_macroblock_uses_forward_in_p_pictures_alone(rt: HostRuntime) {
    let cases: [(PicType, Decision, bool); 5] = [
        (PicType::I, FIRST, false),
        (PicType::P, FIRST, false),
        (PicType::P, SKIPPED, true),
        (PicType::B, SKIPPED_BACKWARD, false),
        (PicType::B, FOUR_VECTORS, true),
    ];
    for (pic, decision, uses) in cases {
        assert_eq!(rt; uses_forward(pic, &[FIRST, decision]), uses);
    }
}
