//! `mv_heads`: headers that encoders wrote, and refusals.
use crate::comparison::same;
use crate::fixtures::{B_BYTES, GROUP, I_BYTES, P_BYTES, PART};
use mv_heads::{HeadState, extends, is_prefix, read_context, read_head, sequence_part};
use mv_terms::{Context, Head, Matrices, PicType, UnitParts, Why, unsupported};
use std::alloc::{AllocError, Global};
use std::test::Fail;

// No prefix, and user data.
const NONE: &[u8] = b"";

const USER_DATA: &[u8] = b"\x00\x00\x01\xB2\xFF\x61\x6E\x79";

/// The bytes with one of them changed.
fn changed(alloc: Global, bytes: &[u8], place: usize, value: u8) -> Result<Vec<u8>, AllocError> {
    let mut bytes = bytes.to_vec(alloc)?;
    if let Some(byte) = bytes.get_mut(place) {
        *byte = value;
    }
    Ok(bytes)
}

fn joined(alloc: Global, parts: &[&[u8]]) -> Result<Vec<u8>, AllocError> {
    let mut bytes = Vec::new(alloc);
    for part in parts {
        bytes.extend_from_slice(part)?;
    }
    Ok(bytes)
}

fn head_behind(part: &[u8], head: &[u8]) -> Result<Head, Why> {
    let context = read_context(part)?;
    read_head(head, &context)
}

/// What these joined bytes are read as: as a sequence part, and as a head behind the example's sequence part.
fn joined_context(alloc: Global, parts: &[&[u8]]) -> Result<Result<Context, Why>, AllocError> {
    Ok(read_context(&joined(alloc, parts)?))
}

fn joined_head(alloc: Global, parts: &[&[u8]]) -> Result<Result<Head, Why>, AllocError> {
    Ok(head_behind(PART, &joined(alloc, parts)?))
}

/// Whether these joined bytes are a prefix.
fn are_prefix(alloc: Global, parts: &[&[u8]]) -> Result<bool, AllocError> {
    Ok(is_prefix(&joined(alloc, parts)?))
}

/// The first of these sequence parts that isn't refused so.
fn wrong_part(parts: &[(&[u8], Why)]) -> Option<usize> {
    for (i, (part, why)) in parts.iter().enumerate() {
        if read_context(part) != Err(*why) {
            return Some(i);
        }
    }
    None
}

/// The first of these heads behind the example's sequence part that isn't refused so.
fn wrong_head(heads: &[(&[u8], Why)]) -> Option<usize> {
    for (i, (head, why)) in heads.iter().enumerate() {
        if head_behind(PART, head) != Err(*why) {
            return Some(i);
        }
    }
    None
}

/// The first of these bytes whose change in the sequence part isn't refused so.
fn wrong_part_byte(
    alloc: Global,
    changes: &[(usize, u8, Why)],
) -> Result<Option<usize>, AllocError> {
    for (i, (place, value, why)) in changes.iter().enumerate() {
        if read_context(&changed(alloc, PART, *place, *value)?) != Err(*why) {
            return Ok(Some(i));
        }
    }
    Ok(None)
}

/// The first of these bytes whose change in the head isn't refused so.
fn wrong_head_byte(
    alloc: Global,
    changes: &[(usize, u8, Why)],
) -> Result<Option<usize>, AllocError> {
    for (i, (place, value, why)) in changes.iter().enumerate() {
        if head_behind(PART, &changed(alloc, I_BYTES, *place, *value)?) != Err(*why) {
            return Ok(Some(i));
        }
    }
    Ok(None)
}

/// The first of these units, a prefix and a head, that isn't refused so, or isn't accepted.
fn wrong_unit(state: &mut HeadState, units: &[(&[u8], &[u8], Option<Why>)]) -> Option<usize> {
    for (i, (prefix, head, why)) in units.iter().enumerate() {
        let parts = UnitParts {
            prefix,
            head,
            slices: &[],
            zeros: 0,
            end: None,
        };
        if state.unit(&parts).err() != *why {
            return Some(i);
        }
    }
    None
}

#[test]
fn reads_the_sequence_part_of_the_example(rt: HostRuntime) {
    let context = Context {
        width: 96,
        height: 64,
        mb_wide: 6,
        mb_high: 4,
        progressive: true,
        low_delay: false,
        rate_code: 3,
        rate_n: 0,
        rate_d: 0,
        matrices: Matrices::DEFAULT,
    };
    same(&rt, &read_context(PART), &Ok(context));
}

/// The type, the temporal reference and the f_codes of a head behind the example's sequence part.
fn kind(head: &[u8]) -> Option<(PicType, u16, [[u8; 2]; 2])> {
    let head = head_behind(PART, head).ok()?;
    let f_code = head.f_code;
    Some((head.pic, head.temporal, f_code))
}

#[test]
fn reads_heads_of_each_type(rt: HostRuntime) {
    for (bytes, wanted) in [
        (I_BYTES, (PicType::I, 0, [[15, 15], [15, 15]])),
        (P_BYTES, (PicType::P, 1, [[1, 1], [15, 15]])),
        (B_BYTES, (PicType::B, 2, [[1, 1], [1, 1]])),
    ] {
        same(&rt, &kind(bytes), &Some(wanted));
    }
}

/// What the flags of a head behind the example's sequence part say: the top field first, frames alone, concealment, the
/// non-linear scale, table B.15 and the alternate scan.
fn flags(head: &[u8]) -> Option<[bool; 6]> {
    let head = head_behind(PART, head).ok()?;
    Some([
        head.top_first,
        head.frame_only,
        head.concealment,
        head.non_linear,
        head.table_15,
        head.alternate,
    ])
}

/// Heads as FFmpeg wrote them, and their flags; the fourth one with concealment and f_codes of 1 besides.
#[rattlefmt::skip]
const FLAGS: &[(&[u8], [bool; 6])] = &[
    (b"\x00\x00\x01\x00\x00\x0F\xFF\xF8\x00\x00\x01\xB5\x8F\xFF\xF3\x51\x80", [false, true, false, true, false, false]),
    (b"\x00\x00\x01\x00\x00\x0F\xFF\xF8\x00\x00\x01\xB5\x8F\xFF\xF3\x49\x80", [false, true, false, false, true, false]),
    (b"\x00\x00\x01\x00\x00\x0F\xFF\xF8\x00\x00\x01\xB5\x8F\xFF\xF3\x04\x00", [false, false, false, false, false, true]),
    (b"\x00\x00\x01\x00\x00\x0F\xFF\xF8\x00\x00\x01\xB5\x81\x1F\xF3\x61\x80", [false, true, true, false, false, false]),
    (b"\x00\x00\x01\x00\x01\x4F\xFF\xF8\x00\x00\x01\xB5\x8F\xFF\xFB\x9C\x00", [true, false, false, true, true, true]),
];

#[test]
fn each_flag_of_a_coding_extension_is_read_from_its_own_bit(rt: HostRuntime) {
    for (head, wanted) in FLAGS {
        same(&rt, &flags(head), &Some(*wanted));
    }
}

/// The size of a sequence part in samples and in macroblocks.
fn size(part: &[u8]) -> Option<[u16; 4]> {
    let context = read_context(part).ok()?;
    Some([
        context.width,
        context.height,
        context.mb_wide,
        context.mb_high,
    ])
}

#[test]
fn sizes_are_rounded_up_to_macroblocks(rt: HostRuntime) {
    // 356x244 progressive, as FFmpeg wrote it, and 356x260 interlaced.
    let progressive = size(
        b"\x00\x00\x01\xB3\x16\x40\xF4\x13\xFF\xFF\xE0\x18\x00\x00\x01\xB5\x14\x8A\x00\x01\x00\x00",
    );
    same(&rt, &progressive, &Some([356, 244, 23, 16]));
    let interlaced = size(
        b"\x00\x00\x01\xB3\x16\x41\x04\x13\xFF\xFF\xE0\x18\x00\x00\x01\xB5\x14\x82\x00\x01\x00\x00",
    );
    same(&rt, &interlaced, &Some([356, 260, 23, 18]));
}

// FFmpeg was given the matrix 8, 9, 10 .. by rows.
const OWN_MATRIX: &[u8] = b"\x00\x00\x01\xB3\x16\x01\x20\x13\xFF\xFF\xE0\x1A\
    \x10\x12\x20\x30\x22\x14\x16\x24\x32\x40\x50\x42\x34\x26\x18\x1A\
    \x28\x36\x44\x52\x60\x70\x62\x54\x46\x38\x2A\x1C\x1E\x2C\x3A\x48\
    \x56\x64\x72\x80\x82\x74\x66\x58\x4A\x3C\x2E\x3E\x4C\x5A\x68\x76\
    \x84\x86\x78\x6A\x5C\x4E\x5E\x6C\x7A\x88\x8A\x7C\x6E\x7E\x8C\x8E\
    \x00\x00\x01\xB5\x14\x8A\x00\x01\x00\x00";

fn is_counted_from_8(matrix: &[u8; 64]) -> bool {
    matrix.iter().enumerate().all(|(place, entry)| (*entry as usize).wrapping_sub(8) == place)
}

#[test]
fn a_sent_matrix_stands_in_raster_order(rt: HostRuntime) -> Result<(), Fail> {
    let context = read_context(OWN_MATRIX).ok().ok_or("refused")?;
    assert!(rt; is_counted_from_8(&context.matrices.intra));
    same(&rt, &context.matrices.non_intra, &[16; 64]);
    // its last entry is 0
    let with_zero = changed(rt.alloc(), OWN_MATRIX, 75, 1)?;
    same(&rt, &read_context(&with_zero).err(), &Some(Why::BadHead));
    Ok(())
}

#[test]
fn other_extensions_and_user_data_are_carried(rt: HostRuntime) -> Result<(), Fail> {
    let alloc = rt.alloc();
    // A sequence display extension, and a picture display extension.
    let display: &[u8] = b"\x00\x00\x01\xB5\x23\x01\x02\x03\xFF";
    let part = joined_context(alloc, &[PART, USER_DATA, display])?;
    same(&rt, &part, &read_context(PART));
    let picture_display: &[u8] = b"\x00\x00\x01\xB5\x7F\xFF";
    let head = joined_head(alloc, &[I_BYTES, picture_display, USER_DATA])?;
    same(&rt, &head, &head_behind(PART, I_BYTES));
    // Extra information behind the vbv delay.
    let extra = b"\x00\x00\x01\x00\x00\x0F\xFF\xFC\xAB\x40\x00\x00\x01\xB5\x8F\xFF\xF3\x41\x80";
    same(&rt, &head_behind(PART, extra), &head_behind(PART, I_BYTES));
    Ok(())
}

#[test]
fn a_sequence_part_is_refused_at_its_first_offence(rt: HostRuntime) -> Result<(), Fail> {
    // Rate codes 0 and 9, the marker, and a bit behind the header; user data as second element; 4:2:2, a width above
    // 1920, and the marker of the extension.
    let bytes = wrong_part_byte(
        rt.alloc(),
        &[
            (7, 0x10, Why::BadHead),
            (7, 0x19, Why::BadHead),
            (10, 0xC3, Why::BadHead),
            (15, 0xB2, Why::BadHead),
            (17, 0x8C, Why::Unsupported(unsupported::CHROMA_FORMAT)),
            (18, 0x80, Why::Unsupported(unsupported::SIZE)),
            (19, 0x00, Why::BadHead),
        ],
    )?;
    same(&rt, &bytes, &None);
    let parts = wrong_part(&[
        // Nothing, a zero in front, a group behind a refused header; a header alone, bits behind each of the two; no
        // width; a second sequence extension, and a scalable one.
        (b"", Why::BadOrder),
        (
            b"\x00\x00\x00\x01\xB3\x06\x00\x40\x13\xFF\xFF\xE3\x80\x00\x00\x01\xB5\x14\x8A\x00\x01\x00\x00",
            Why::BadOrder,
        ),
        (
            b"\x00\x00\x01\xB3\x06\x00\x40\x10\xFF\xFF\xE3\x80\x00\x00\x01\xB8\x00\x08\x00\x40",
            Why::BadOrder,
        ),
        (
            b"\x00\x00\x01\xB3\x06\x00\x40\x13\xFF\xFF\xE3\x80",
            Why::BadHead,
        ),
        (
            b"\x00\x00\x01\xB3\x06\x00\x40\x13\xFF\xFF\xE3\x80\x01\x00\x00\x01\xB5\x14\x8A\x00\x01\x00\x00",
            Why::BadHead,
        ),
        (
            b"\x00\x00\x01\xB3\x06\x00\x40\x13\xFF\xFF\xE3\x80\x00\x00\x01\xB5\x14\x8A\x00\x01\x00\x00\x02",
            Why::BadHead,
        ),
        (
            b"\x00\x00\x01\xB3\x00\x00\x40\x13\xFF\xFF\xE3\x80\x00\x00\x01\xB5\x14\x8A\x00\x01\x00\x00",
            Why::BadHead,
        ),
        (
            b"\x00\x00\x01\xB3\x06\x00\x40\x13\xFF\xFF\xE3\x80\x00\x00\x01\xB5\x14\x8A\x00\x01\x00\x00\x00\x00\x01\xB5\x14\x8A\x00\x01\x00\x00",
            Why::BadHead,
        ),
        (
            b"\x00\x00\x01\xB3\x06\x00\x40\x13\xFF\xFF\xE3\x80\x00\x00\x01\xB5\x14\x8A\x00\x01\x00\x00\x00\x00\x01\xB5\x50",
            Why::Unsupported(unsupported::SCALABLE_EXTENSION),
        ),
        // A bit behind before 4:2:2, 4:2:2 before a width above 1920, no height before such a width.
        (
            b"\x00\x00\x01\xB3\x06\x00\x40\x13\xFF\xFF\xE3\x80\x00\x00\x01\xB5\x14\x8C\x00\x01\x00\x00\x02",
            Why::BadHead,
        ),
        (
            b"\x00\x00\x01\xB3\x06\x00\x40\x13\xFF\xFF\xE3\x80\x00\x00\x01\xB5\x14\x8C\x80\x01\x00\x00",
            Why::Unsupported(unsupported::CHROMA_FORMAT),
        ),
        (
            b"\x00\x00\x01\xB3\x06\x00\x00\x13\xFF\xFF\xE3\x80\x00\x00\x01\xB5\x14\x8A\x80\x01\x00\x00",
            Why::BadHead,
        ),
    ]);
    same(&rt, &parts, &None);
    Ok(())
}

#[test]
fn a_head_is_refused_at_its_first_offence(rt: HostRuntime) -> Result<(), Fail> {
    // Types 0, 4, 5, 6 and 7, and a bit behind the header; user data or another extension as second element;
    // structures 0, 1 and 2; concealment with an f_code of 15; a bit behind the extension.
    let bytes = wrong_head_byte(
        rt.alloc(),
        &[
            (5, 0x07, Why::BadHead),
            (5, 0x27, Why::Unsupported(unsupported::D_PICTURE)),
            (5, 0x2F, Why::BadHead),
            (5, 0x37, Why::BadHead),
            (5, 0x3F, Why::BadHead),
            (7, 0xF9, Why::BadHead),
            (11, 0xB2, Why::BadHead),
            (12, 0x7F, Why::BadHead),
            (14, 0xF0, Why::BadHead),
            (14, 0xF1, Why::Unsupported(unsupported::FIELD_PICTURE)),
            (14, 0xF2, Why::Unsupported(unsupported::FIELD_PICTURE)),
            (15, 0x61, Why::BadHead),
            (16, 0x81, Why::BadHead),
        ],
    )?;
    same(&rt, &bytes, &None);
    let heads = wrong_head(&[
        // Nothing, two picture headers, an extension alone; a header alone; a backward f_code of 10 in B.
        (b"", Why::BadOrder),
        (
            b"\x00\x00\x01\x00\x00\x0F\xFF\xF8\x00\x00\x01\x00\x00\x0F\xFF\xF8",
            Why::BadOrder,
        ),
        (b"\x00\x00\x01\xB5\x8F\xFF\xF3\x41\x80", Why::BadOrder),
        (b"\x00\x00\x01\x00\x00\x0F\xFF\xF8", Why::BadHead),
        (
            b"\x00\x00\x01\x00\x00\x9F\xFF\xFB\xB8\x00\x00\x01\xB5\x81\x11\xA3\x41\x80",
            Why::BadHead,
        ),
        // A D picture before a bit behind its header, an f_code of 0 before a field, a field before a bit behind.
        (
            b"\x00\x00\x01\x00\x00\x27\xFF\xF9\x00\x00\x01\xB5\x8F\xFF\xF3\x41\x80",
            Why::Unsupported(unsupported::D_PICTURE),
        ),
        (
            b"\x00\x00\x01\x00\x00\x57\xFF\xFB\x80\x00\x00\x01\xB5\x80\x1F\xF1\x41\x80",
            Why::BadHead,
        ),
        (
            b"\x00\x00\x01\x00\x00\x57\xFF\xFB\x80\x00\x00\x01\xB5\x81\x1F\xF1\x41\x81",
            Why::Unsupported(unsupported::FIELD_PICTURE),
        ),
    ]);
    same(&rt, &heads, &None);
    Ok(())
}

#[test]
fn a_further_extension_is_refused_at_its_first_offence(rt: HostRuntime) {
    let heads = wrong_head(&[
        // A second coding extension, two scalable ones; of a matrix extension an entry 0, two loads for chroma, and a
        // bit behind.
        (
            b"\x00\x00\x01\x00\x00\x0F\xFF\xF8\x00\x00\x01\xB5\x8F\xFF\xF3\x41\x80\x00\x00\x01\xB5\x8F",
            Why::BadHead,
        ),
        (
            b"\x00\x00\x01\x00\x00\x0F\xFF\xF8\x00\x00\x01\xB5\x8F\xFF\xF3\x41\x80\x00\x00\x01\xB5\x90",
            Why::Unsupported(unsupported::SCALABLE_EXTENSION),
        ),
        (
            b"\x00\x00\x01\x00\x00\x0F\xFF\xF8\x00\x00\x01\xB5\x8F\xFF\xF3\x41\x80\x00\x00\x01\xB5\xA0",
            Why::Unsupported(unsupported::SCALABLE_EXTENSION),
        ),
        (
            b"\x00\x00\x01\x00\x00\x0F\xFF\xF8\x00\x00\x01\xB5\x8F\xFF\xF3\x41\x80\x00\x00\x01\xB5\x38",
            Why::BadHead,
        ),
        (
            b"\x00\x00\x01\x00\x00\x0F\xFF\xF8\x00\x00\x01\xB5\x8F\xFF\xF3\x41\x80\x00\x00\x01\xB5\x32",
            Why::BadHead,
        ),
        (
            b"\x00\x00\x01\x00\x00\x0F\xFF\xF8\x00\x00\x01\xB5\x8F\xFF\xF3\x41\x80\x00\x00\x01\xB5\x31",
            Why::BadHead,
        ),
        (
            b"\x00\x00\x01\x00\x00\x0F\xFF\xF8\x00\x00\x01\xB5\x8F\xFF\xF3\x41\x80\x00\x00\x01\xB5\x30\x01",
            Why::BadHead,
        ),
    ]);
    same(&rt, &heads, &None);
}

#[test]
fn the_sequence_part_of_a_prefix_is_found_behind_zeros(rt: HostRuntime) -> Result<(), Fail> {
    let prefix = joined(rt.alloc(), &[&[0, 0], PART, USER_DATA, GROUP])?;
    same(&rt, &sequence_part(&prefix), &Some((2, 30)));
    same(&rt, &sequence_part(GROUP), &None);
    Ok(())
}

#[test]
fn a_prefix_has_a_sequence_part_or_a_group_and_nothing_else(rt: HostRuntime) -> Result<(), Fail> {
    let cases: [(&[&[u8]], bool); 5] = [
        (&[PART, USER_DATA, GROUP], true),
        (&[&[0, 0], GROUP], true),
        (&[&[0, 0]], false),
        (&[GROUP, PART], false),
        (&[PART, I_BYTES], false),
    ];
    for (parts, wanted) in cases {
        same(&rt, &are_prefix(rt.alloc(), parts)?, &wanted);
    }
    Ok(())
}

// Heads with a quant matrix extension that loads nothing, and with one behind which another element is refused.
const EXTENDED: &[u8] =
    b"\x00\x00\x01\x00\x00\x0F\xFF\xF8\x00\x00\x01\xB5\x8F\xFF\xF3\x41\x80\x00\x00\x01\xB5\x30";

const REFUSED: &[u8] =
    b"\x00\x00\x01\x00\x00\x0F\xFF\xF8\x00\x00\x01\xB5\x8F\xFF\xF3\x41\x80\x00\x00\x01\xB5\x30\x00\x00\x01\xB5\x8F\xFF\xF3\x41\x80";

#[test]
fn a_refused_unit_leaves_the_state_as_it_was(rt: HostRuntime) {
    let mut state = HeadState::new();
    let group = [(GROUP, I_BYTES, Some(Why::BadOrder))];
    same(&rt, &wrong_unit(&mut state, &group), &None);
    assert!(rt; state.context().is_none());
    let units = wrong_unit(
        &mut state,
        &[
            (PART, I_BYTES, None),
            // Another size, behind which a scalable extension would be refused, and fields.
            (
                b"\x00\x00\x01\xB3\x07\x00\x40\x13\xFF\xFF\xE0\x18\x00\x00\x01\xB5\x14\x8A\x00\x01\x00\x00\x00\x00\x01\xB5\x50",
                I_BYTES,
                Some(Why::SizeChanged),
            ),
            (
                b"\x00\x00\x01\xB3\x06\x00\x40\x13\xFF\xFF\xE3\x80\x00\x00\x01\xB5\x14\x82\x00\x01\x00\x00",
                I_BYTES,
                Some(Why::SizeChanged),
            ),
            (NONE, REFUSED, Some(Why::BadHead)),
            // The refusal of the prefix comes before that of the head.
            (
                b"\x00\x00\x01\xB3\x06\x00\x40\x13\xFF\xFF\xE3\x80\x00\x00\x01\xB5\x14\x8A\x80\x01\x00\x00",
                REFUSED,
                Some(Why::Unsupported(unsupported::SIZE)),
            ),
        ],
    );
    same(&rt, &units, &None);
    assert!(rt; !state.extended());
    same(&rt, &state.context().copied(), &read_context(PART).ok());
}

#[test]
fn a_matrix_extension_is_in_force_until_the_next_sequence_part(rt: HostRuntime) {
    let mut state = HeadState::new();
    let extended = [(PART, EXTENDED, None), (GROUP, P_BYTES, None)];
    same(&rt, &wrong_unit(&mut state, &extended), &None);
    assert!(rt; state.extended());
    assert!(rt; extends(EXTENDED) && !extends(P_BYTES));
    same(
        &rt,
        &wrong_unit(&mut state, &[(PART, I_BYTES, None)]),
        &None,
    );
    assert!(rt; !state.extended());
}

#[test]
fn a_copy_puts_the_state_back(rt: HostRuntime) {
    let mut state = HeadState::new();
    let before = state;
    same(
        &rt,
        &wrong_unit(&mut state, &[(PART, I_BYTES, None)]),
        &None,
    );
    assert!(rt; state.context().is_some());
    state = before;
    let group = [(GROUP, I_BYTES, Some(Why::BadOrder))];
    same(&rt, &wrong_unit(&mut state, &group), &None);
}

/// The answer for the unit of this prefix and this joined head, which is next.
fn joined_unit(
    alloc: Global,
    state: &mut HeadState,
    prefix: &[u8],
    head: &[&[u8]],
) -> Result<Result<Head, Why>, AllocError> {
    let head = joined(alloc, head)?;
    Ok(state.unit(&UnitParts {
        prefix,
        head: &head,
        slices: &[],
        zeros: 0,
        end: None,
    }))
}

#[test]
fn a_matrix_of_an_extension_stands_until_another_comes(rt: HostRuntime) -> Result<(), Fail> {
    let alloc = rt.alloc();
    // All entries of both matrices are 255; and an extension that loads nothing.
    let load: [&[u8]; 4] = [I_BYTES, &[0, 0, 1, 0xB5, 0x3F], &[0xFF; 127], &[0xFC]];
    let keep: [&[u8]; 2] = [P_BYTES, &[0, 0, 1, 0xB5, 0x30]];
    let full = Matrices {
        intra: [255; 64],
        non_intra: [255; 64],
    };
    let mut state = HeadState::new();
    let loaded = joined_unit(alloc, &mut state, PART, &load)?;
    assert!(rt; loaded.is_ok());
    let kept = joined_unit(alloc, &mut state, NONE, &keep)?;
    same(&rt, &kept.map(|head| head.matrices), &Ok(full));
    Ok(())
}

#[test]
fn at_most_sixteen_b_pictures_come_behind_an_anchor(rt: HostRuntime) {
    let mut state = HeadState::new();
    let first = [(PART, B_BYTES, Some(Why::BadOrder)), (PART, I_BYTES, None)];
    let sixteen = [(NONE, B_BYTES, None); 16];
    let last = [
        (GROUP, B_BYTES, Some(Why::BadOrder)),
        (NONE, P_BYTES, None),
        (NONE, B_BYTES, None),
    ];
    same(&rt, &wrong_unit(&mut state, &first), &None);
    same(&rt, &wrong_unit(&mut state, &sixteen), &None);
    same(&rt, &wrong_unit(&mut state, &last), &None);
    // A low delay.
    let low_delay: &[u8] =
        b"\x00\x00\x01\xB3\x06\x00\x40\x13\xFF\xFF\xE3\x80\x00\x00\x01\xB5\x14\x8A\x00\x01\x00\x80";
    let units = [
        (low_delay, I_BYTES, None),
        (NONE, B_BYTES, Some(Why::BadOrder)),
    ];
    same(&rt, &wrong_unit(&mut state, &units), &None);
}
