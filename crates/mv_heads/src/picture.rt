//! Heads of pictures: a picture header, its coding extension, and further extensions and user data (H.262, 6.2.3).
ghost use Rattle.std.specs.Prelude.{◌≡◌, ◌<◌, IsTrue, IfOk};
ghost use Rattle.mv_terms.specs.Ranges.{HasNoZero, IsContext, IsHead};
ghost use Rattle.mv_bits.specs.Elements.{cut, are_elements};
ghost use Rattle.mv_heads.specs.Legal.{IsPictureCoding, IsPictureHead};
ghost use Rattle.mv_heads.specs.HeadElements.{extended_picture, extends, further_of_picture, further_picture_extension, head_from, head_of, picture, picture_of, sequence_matrices};

use crate::head_elements::{
    PICTURE_CODING_EXTENSION, PICTURE_SPATIAL_SCALABLE_EXTENSION,
    PICTURE_TEMPORAL_SCALABLE_EXTENSION, QUANT_MATRIX_EXTENSION, bits, is_extension_of,
    is_one_part, split_front,
};
use crate::matrices::read_quant_matrix_extension;
use crate::picture_coding::{PictureCoding, read_picture_coding_extension};
use crate::picture_header::{PictureHeader, read_picture_header};
use mv_bits::start_codes::PICTURE;
use mv_bits::{has_no_front, split_element};
use mv_terms::{Context, Head, Matrices, Structure, Why, unsupported};

/// Reads a head that stands directly behind a sequence part with this context (H.262, 6.2.3).
///
/// Before all else the answer is `BadOrder` where the bytes aren't one head and nothing else.
#[tactic(auto, unfolding(crate::specs::HeadElements::head_of))]
pub fn read_head(bytes: &[u8], context: &Context) -> Result<Head, Why>
    requires { IsContext context.now }
    ensures read { result ≡ head_of context.now (cut bytes.now) }
    ensures legal { IfOk result IsHead }
    ensures wide { IfOk result (λ head. head.mb_wide ≡ context.now.mb_wide) }
    ensures high { IfOk result (λ head. head.mb_high ≡ context.now.mb_high) }
{
    let picture = read_picture_head(context, &sequence_matrices(context), bytes)?;
    Ok(picture.head)
}

/// Whether a quant matrix extension stands in a head (H.262, 6.2.3.2).
pub fn extends(head: &[u8]) -> bool
    ensures { result ≡ extends (cut head.now).elements }
{
    let (_, mut rest) = split_front(head);
    'elements: while let Some((element, others)) = split_element(rest) {
        if is_extension_of(QUANT_MATRIX_EXTENSION, element) {
            return true;
        }
        rest = others;
    }
    false
}

/// The matrices in force, and whether a quant matrix extension is.
#[derive(Clone, Copy)]
pub struct InForce {
    pub matrices: Matrices,
    pub extended: bool,
}

/// A head, and what is in force with it.
#[derive(Clone, Copy)]
pub struct PictureHead {
    pub head: Head,
    pub in_force: InForce,
}

/// Reads a head, with what was in force before it.
#[tactic(auto, unfolding(crate::specs::HeadElements::picture_of))]
pub(crate) fn read_picture_head(
    context: &Context,
    in_force: &InForce,
    bytes: &[u8],
) -> Result<PictureHead, Why>
    requires context { IsContext context.now }
    requires matrices { HasNoZero in_force.now.matrices }
    ensures read { result ≡ picture_of context.now in_force.now (cut bytes.now) }
    ensures legal { IfOk result (IsPictureHead context.now) }
{
    if has_no_front(bytes) && is_one_part(PICTURE, bytes) {
        read_picture(context, in_force, bytes)
    } else {
        Err(Why::BadOrder)
    }
}

pub(crate) fn sequence_matrices(context: &Context) -> InForce
    ensures { result ≡ sequence_matrices context.now }
{
    InForce {
        matrices: context.matrices,
        extended: false,
    }
}

#[tactic(auto, unfolding(crate::specs::HeadElements::picture))]
fn read_picture(context: &Context, in_force: &InForce, bytes: &[u8]) -> Result<PictureHead, Why>
    requires context { IsContext context.now }
    requires matrices { HasNoZero in_force.now.matrices }
    requires elements { IsTrue (are_elements bytes.now) }
    ensures read { result ≡ picture context.now in_force.now (cut bytes.now).elements }
    ensures legal { IfOk result (IsPictureHead context.now) }
{
    let Some((element, others)) = split_element(bytes) else {
        return Err(Why::BadOrder);
    };
    let header = read_picture_header(&mut bits(element))?;
    read_extended_picture(context, in_force, &header, others)
}

#[tactic(auto, unfolding(crate::specs::HeadElements::extended_picture))]
fn read_extended_picture(
    context: &Context,
    in_force: &InForce,
    header: &PictureHeader,
    bytes: &[u8],
) -> Result<PictureHead, Why>
    requires context { IsContext context.now }
    requires matrices { HasNoZero in_force.now.matrices }
    requires header { header.now.temporal < 1024 }
    requires elements { IsTrue (are_elements bytes.now) }
    ensures read { result ≡
        extended_picture context.now in_force.now header.now (cut bytes.now).elements }
    ensures legal { IfOk result (IsPictureHead context.now) }
{
    match split_element(bytes) {
        Some((element, others)) if is_extension_of(PICTURE_CODING_EXTENSION, element) => {
            let coding = read_picture_coding_extension(header.pic, &mut bits(element))?;
            let current = read_further_of_picture(in_force, others)?;
            Ok(PictureHead {
                head: head_from(context, &current, header, &coding),
                in_force: current,
            })
        }
        _ => Err(Why::BadHead),
    }
}

fn head_from(
    context: &Context,
    in_force: &InForce,
    header: &PictureHeader,
    coding: &PictureCoding,
) -> Head
    requires context { IsContext context.now }
    requires matrices { HasNoZero in_force.now.matrices }
    requires header { header.now.temporal < 1024 }
    requires coding { IsPictureCoding header.now.pic coding.now }
    ensures value { result ≡ head_from context.now in_force.now header.now coding.now }
    ensures legal { IsHead result }
{
    Head {
        pic: header.pic,
        temporal: header.temporal,
        f_code: coding.f_code,
        dc_precision: coding.dc_precision,
        structure: Structure::Frame,
        top_first: coding.top_first,
        frame_only: coding.frame_only,
        concealment: coding.concealment,
        non_linear: coding.non_linear,
        table_15: coding.table_15,
        alternate: coding.alternate,
        second: false,
        mb_wide: context.mb_wide,
        mb_high: context.mb_high,
        matrices: in_force.matrices,
    }
}

#[tactic(auto, unfolding(crate::specs::HeadElements::further_of_picture))]
fn read_further_of_picture(in_force: &InForce, bytes: &[u8]) -> Result<InForce, Why>
    requires matrices { HasNoZero in_force.now.matrices }
    requires elements { IsTrue (are_elements bytes.now) }
    ensures read { result ≡ further_of_picture in_force.now (cut bytes.now).elements }
    ensures legal { IfOk result (λ current. HasNoZero current.matrices) }
{
    let mut current = *in_force;
    let mut rest = bytes;
    'elements: while let Some((element, others)) = split_element(rest) {
        current = read_further_picture_extension(&current, element)?;
        rest = others;
    }
    Ok(current)
}

#[tactic(auto, unfolding(crate::specs::HeadElements::further_picture_extension))]
fn read_further_picture_extension(in_force: &InForce, element: &[u8]) -> Result<InForce, Why>
    requires { HasNoZero in_force.now.matrices }
    ensures read { result ≡ further_picture_extension in_force.now element.now }
    ensures legal { IfOk result (λ current. HasNoZero current.matrices) }
{
    if is_extension_of(QUANT_MATRIX_EXTENSION, element) {
        let matrices = read_quant_matrix_extension(&in_force.matrices, &mut bits(element))?;
        Ok(InForce {
            matrices,
            extended: true,
        })
    } else if is_extension_of(PICTURE_CODING_EXTENSION, element) {
        Err(Why::BadHead)
    } else if is_extension_of(PICTURE_SPATIAL_SCALABLE_EXTENSION, element)
        || is_extension_of(PICTURE_TEMPORAL_SCALABLE_EXTENSION, element)
    {
        Err(Why::Unsupported(unsupported::SCALABLE_EXTENSION))
    } else {
        Ok(*in_force)
    }
}
