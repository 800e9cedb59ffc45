//! Picture coding extensions (H.262, 6.2.3.1).
ghost use Rattle.std.specs.Prelude.{◌≡◌, ◌≤◌, IsTrue, IfOk};
ghost use Rattle.std.specs.Bool.{OnTrue};
ghost use Rattle.mv_terms.specs.Ranges.{IsUsed};
ghost use Rattle.mv_bits.specs.Reader.{whole};
ghost use Rattle.mv_heads.specs.Legal.{IsPictureCoding};
ghost use Rattle.mv_heads.specs.Headers.{are_f_codes, composite_bits, frame_structure, is_f_code, picture_coding_extension};

use crate::fields::{check, skip};
use mv_bits::BitWindow;
use mv_terms::{PicType, Why, unsupported};

/// What a picture coding extension says.
#[derive(Clone, Copy)]
pub struct PictureCoding {
    pub f_code: [[u8; 2]; 2],
    pub dc_precision: u8,
    pub top_first: bool,
    pub frame_only: bool,
    pub concealment: bool,
    pub non_linear: bool,
    pub table_15: bool,
    pub alternate: bool,
}

/// Reads a picture coding extension (H.262, 6.2.3.1).
#[tactic(auto, unfolding(crate::specs::Headers::picture_coding_extension))]
pub(crate) fn read_picture_coding_extension(
    pic: PicType,
    w: &mut BitWindow<'_>,
) -> Result<PictureCoding, Why>
    ensures read { result ≡ whole (picture_coding_extension pic) w.old }
    ensures legal { IfOk result (IsPictureCoding pic) }
{
    skip(w, 4); // extension_start_code_identifier
    let forward_horizontal = w.take(4);
    let forward_vertical = w.take(4);
    let backward_horizontal = w.take(4);
    let backward_vertical = w.take(4);
    let dc_precision = w.take(2);
    let structure = w.take(2);
    let top_first = w.take(1);
    let frame_only = w.take(1);
    let concealment = w.take(1);
    let non_linear = w.take(1);
    let table_15 = w.take(1);
    let alternate = w.take(1);
    skip(w, 1); // repeat_first_field
    skip(w, 1); // chroma_420_type
    skip(w, 1); // progressive_frame
    let composite = w.take(1);
    skip(w, composite_bits(composite));
    let has_forward = pic.has_forward(concealment == 1);
    check(
        are_f_codes(has_forward, forward_horizontal, forward_vertical),
        Why::BadHead,
    )?;
    let has_backward = pic.has_backward();
    check(
        are_f_codes(has_backward, backward_horizontal, backward_vertical),
        Why::BadHead,
    )?;
    frame_structure(structure)?;
    check(w.rest_zero(), Why::BadHead)?;
    Ok(PictureCoding {
        f_code: [
            [forward_horizontal as u8, forward_vertical as u8],
            [backward_horizontal as u8, backward_vertical as u8],
        ],
        dc_precision: dc_precision as u8,
        top_first: top_first == 1,
        frame_only: frame_only == 1,
        concealment: concealment == 1,
        non_linear: non_linear == 1,
        table_15: table_15 == 1,
        alternate: alternate == 1,
    })
}

#[tactic(auto, unfolding(crate::specs::Headers::are_f_codes))]
fn are_f_codes(used: bool, horizontal: u32, vertical: u32) -> bool
    ensures value { result ≡ are_f_codes used horizontal vertical }
    ensures meaning { OnTrue result (IsTrue used → IsUsed horizontal × IsUsed vertical) }
{
    if used {
        is_f_code(horizontal) && is_f_code(vertical)
    } else {
        true
    }
}

fn is_f_code(code: u32) -> bool
    ensures value { result ≡ is_f_code code }
    ensures meaning { OnTrue result (IsUsed code) }
{
    1 <= code && code <= 9
}

#[tactic(auto, unfolding(crate::specs::Headers::frame_structure))]
fn frame_structure(structure: u32) -> Result<(), Why>
    ensures { result ≡ frame_structure structure }
{
    match structure {
        3 => Ok(()),
        0 => Err(Why::BadHead),
        _ => Err(Why::Unsupported(unsupported::FIELD_PICTURE)),
    }
}

#[tactic(auto, unfolding(crate::specs::Headers::composite_bits))]
fn composite_bits(composite: u32) -> u32
    ensures value { result ≡ composite_bits composite }
    ensures few { result ≤ 20 }
{
    if composite == 1 { 20 } else { 0 }
}
