//! The context and the heads of fresh pictures.
ghost use Rattle.std.specs.Prelude.{◌≡◌, ◌<◌};
ghost use Rattle.mv_terms.specs.Ranges.{HasNoZero, IsContext, IsFrameHeader, IsHead};
ghost use Rattle.enc_fresh.specs.Fresh.{default_context, default_rate, fresh_f_code, fresh_head, is_progressive, top_first};

use crate::rate::{FrameRate, exact_rate};
use mv_terms::{
    Context, FrameHeader, Head, Matrices, PicType, Structure, macroblock_columns, macroblock_rows,
};

/// The context of a frame file that brings none: its size, scan and frame rate, and the default matrices. The rate is
/// 25 frames a second where the file has none, or one that headers can't say exactly.
pub fn default_context(size: &FrameHeader) -> Context
    requires { IsFrameHeader size.now }
    ensures value { result ≡ default_context size.now }
    ensures legal { IsContext result }
{
    let rate = default_rate(size);
    Context {
        width: size.wide,
        height: size.high,
        mb_wide: macroblock_columns(size.wide),
        mb_high: macroblock_rows(size.progressive, size.high),
        progressive: size.progressive,
        low_delay: false,
        rate_code: rate.code,
        rate_n: rate.n,
        rate_d: rate.d,
        matrices: Matrices::DEFAULT,
    }
}

/// 25 frames a second.
const RATE_25: FrameRate = FrameRate {
    n: 0,
    d: 0,
    code: 3,
};

fn default_rate(size: &FrameHeader) -> FrameRate
    requires { IsFrameHeader size.now }
    ensures { result ≡ default_rate size.now }
{
    exact_rate(size.rate_num, size.rate_den).unwrap_or(RATE_25)
}

/// The head of a fresh picture of a frame file under a context of its size, with this temporal reference.
pub fn fresh_head(size: &FrameHeader, context: &Context, pic: PicType, temporal: u16) -> Head
    requires size { IsFrameHeader size.now }
    requires matrices { HasNoZero context.now.matrices }
    requires temporal { temporal < 1024 }
    ensures value { result ≡ fresh_head size.now context.now pic temporal }
    ensures legal { IsHead result }
{
    let f_code = fresh_f_code(pic);
    Head {
        pic,
        temporal,
        f_code: [[f_code; 2]; 2],
        dc_precision: 0,
        structure: Structure::Frame,
        top_first: top_first(size),
        frame_only: true,
        concealment: false,
        non_linear: false,
        table_15: false,
        alternate: false,
        second: false,
        mb_wide: macroblock_columns(size.wide),
        mb_high: macroblock_rows(size.progressive, size.high),
        matrices: context.matrices,
    }
}

fn fresh_f_code(pic: PicType) -> u8
    ensures { result ≡ fresh_f_code pic }
{
    match pic {
        PicType::I => 15,
        PicType::P | PicType::B => 1,
    }
}

/// `top_field_first` of a fresh picture.
pub fn top_first(size: &FrameHeader) -> bool
    ensures { result ≡ top_first size.now }
{
    !size.progressive && !size.bottom_first
}

/// `progressive_frame` and `chroma_420_type` of a fresh picture.
pub fn is_progressive(size: &FrameHeader) -> bool
    ensures { result ≡ is_progressive size.now }
{
    size.progressive
}
