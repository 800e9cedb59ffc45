//! What the headers of a sequence and of a picture say (H.262, 6.2.2 and 6.2.3).
ghost use Rattle.std.specs.Prelude.{◌≡◌, ◌<◌, ◌≤◌, ◌^◌, ◌↔◌, IsTrue, All};
ghost use Rattle.mv_terms.specs.Structures.{IsOfFrame, is_frame};
ghost use Rattle.mv_terms.specs.Matrices.{default_matrices};
ghost use Rattle.mv_terms.specs.Ranges.{IsUsed, has_forward, has_backward, HasNoZero, HasLegalSize, HasLegalRate, HasLegalFCodes, IsPictureSize, IsContext, IsHead, macroblock_columns, macroblock_rows};

/// The type of a picture, `picture_coding_type` 1 to 3 (H.262, 6.3.9). I and P pictures are anchors: other
/// pictures refer to them.
#[derive(Clone, Copy, Debug, PartialEq, Eq)]
pub enum PicType {
    I,
    P,
    B,
}

/// The structure of a picture, `picture_structure` (H.262, 6.3.10): a frame, or a field of one, that of its even lines or
/// that of its odd lines.
#[derive(Clone, Copy, Debug, PartialEq, Eq)]
pub enum Structure {
    Frame,
    Top,
    Bottom,
}

/// The quantiser matrices, in raster order; no entry is 0 (H.262, 6.3.11).
#[derive(Clone, Copy, Debug, PartialEq, Eq)]
pub struct Matrices {
    pub intra: [u8; 64],
    pub non_intra: [u8; 64],
}

/// What a sequence header and its sequence extension say (H.262, 6.2.2.1 and 6.2.2.3).
///
/// The size is in luma samples, 1 to 1920 by 1 to 1152; `mb_wide` and `mb_high` are the same size in macroblocks,
/// rounded up, and for an interlaced sequence to whole macroblocks of each field.
#[derive(Clone, Copy, Debug, PartialEq, Eq)]
pub struct Context {
    pub width: u16,
    pub height: u16,
    pub mb_wide: u16,
    pub mb_high: u16,
    /// `progressive_sequence`.
    pub progressive: bool,
    pub low_delay: bool,
    /// `frame_rate_code`, 1 to 8.
    pub rate_code: u8,
    /// `frame_rate_extension_n`, at most 3.
    pub rate_n: u8,
    /// `frame_rate_extension_d`, at most 31.
    pub rate_d: u8,
    pub matrices: Matrices,
}

/// What a picture header and its picture coding extension say (H.262, 6.2.3 and 6.2.3.1), with the size and the
/// matrices that are in force.
#[derive(Clone, Copy, Debug, PartialEq, Eq)]
pub struct Head {
    pub pic: PicType,
    /// `temporal_reference`, below 1024.
    pub temporal: u16,
    /// `f_code[s][t]`: s is 0 for forward and 1 for backward, t is 0 for horizontal and 1 for vertical. At most
    /// 15, and 1 to 9 where vectors of this direction may come.
    pub f_code: [[u8; 2]; 2],
    /// `intra_dc_precision`, 0 to 3 for 8 to 11 bits.
    pub dc_precision: u8,
    pub structure: Structure,
    /// `top_field_first`.
    pub top_first: bool,
    /// `frame_pred_frame_dct`.
    pub frame_only: bool,
    /// `concealment_motion_vectors`.
    pub concealment: bool,
    /// `q_scale_type`.
    pub non_linear: bool,
    /// `intra_vlc_format`: table B.15 for the coefficients of intra blocks.
    pub table_15: bool,
    /// `alternate_scan`.
    pub alternate: bool,
    /// The picture is the second field of its frame.
    pub second: bool,
    pub mb_wide: u16,
    /// The rows of macroblocks of this picture: a field has half of those of its frame.
    pub mb_high: u16,
    pub matrices: Matrices,
}

/// The parts of a unit: a picture with all that stands before it since the picture before.
#[derive(Clone, Copy, Debug)]
pub struct UnitParts<'a> {
    /// The sequence header and the group of pictures header with their extensions, or nothing.
    pub prefix: &'a [u8],
    /// The picture header with its extensions.
    pub head: &'a [u8],
    /// The slices, without the zero bytes that end the last of them.
    pub slices: &'a [u8],
    /// How many zero bytes stand behind the slices.
    pub zeros: u64,
    /// How many zero bytes stand behind the end code, where there is one.
    pub end: Option<u64>,
}

/// The matrix of intra blocks where a sequence header loads none (H.262, 6.3.11).
#[rattlefmt::skip]
const DEFAULT_INTRA: [u8; 64] = [
    8, 16, 19, 22, 26, 27, 29, 34,
    16, 16, 22, 24, 27, 29, 34, 37,
    19, 22, 26, 27, 29, 34, 34, 38,
    22, 22, 26, 27, 29, 34, 37, 40,
    22, 26, 27, 29, 32, 35, 40, 48,
    26, 27, 29, 32, 35, 40, 48, 58,
    26, 27, 29, 34, 38, 46, 56, 69,
    27, 29, 35, 38, 46, 56, 69, 83,
];

impl Matrices {
    /// The matrices where a sequence header loads none.
    pub const DEFAULT: Matrices = Matrices {
        intra: DEFAULT_INTRA,
        non_intra: [16; 64],
    };

    /// Whether no entry is 0.
    pub fn is_legal(&self) -> bool
        ensures { IsTrue result ↔ HasNoZero self.now }
    {
        self.intra.iter().all(|w| *w > 0) && self.non_intra.iter().all(|w| *w > 0)
    }
}

impl PicType {
    /// Whether its macroblocks may have forward vectors; those of an I picture are for concealment.
    pub fn has_forward(self, concealment: bool) -> bool
        ensures { result ≡ has_forward self concealment }
    {
        match self {
            PicType::I => concealment,
            _ => true,
        }
    }

    /// Whether its macroblocks may have backward vectors.
    pub fn has_backward(self) -> bool
        ensures { result ≡ has_backward self }
    {
        matches!(self, PicType::B)
    }
}

/// The default matrices are those of the standard.
pub fn default_matrices_law()
    ensures { Matrices.DEFAULT ≡ default_matrices }
{}

fn fit_their_bits(f_codes: &[u8; 2]) -> bool
    ensures { IsTrue result ↔ All (λ n. n ≤ 15) f_codes.now }
{
    f_codes.iter().all(|n| *n <= 15)
}

fn are_used(f_codes: &[u8; 2]) -> bool
    ensures { IsTrue result ↔ All IsUsed f_codes.now }
{
    f_codes.iter().all(|n| *n > 0 && *n <= 9)
}

fn is_frame(structure: Structure) -> bool
    ensures { result ≡ is_frame structure }
{
    matches!(structure, Structure::Frame)
}

/// The width in macroblocks of a picture that is so many luma samples wide (H.262, 6.3.3).
pub fn macroblock_columns(width: u16) -> u16
    requires { width < 2 ^ 14 }
    ensures { result ≡ macroblock_columns width }
{
    (width + 15) / 16
}

/// The height in macroblocks of a picture that has so many lines of luma samples; of an interlaced sequence each
/// field has whole macroblocks (H.262, 6.3.3).
pub fn macroblock_rows(progressive: bool, height: u16) -> u16
    requires { height < 2 ^ 14 }
    ensures { result ≡ macroblock_rows progressive height }
{
    if progressive {
        (height + 15) / 16
    } else {
        (height + 31) / 32 * 2
    }
}

impl Context {
    /// Whether each field is in its legal range and the sizes agree.
    pub fn is_legal(&self) -> bool
        ensures { IsTrue result ↔ IsContext self.now }
    {
        self.has_legal_size() && self.has_legal_rate() && self.matrices.is_legal()
    }

    fn has_legal_size(&self) -> bool
        ensures { IsTrue result ↔ HasLegalSize self.now }
    {
        (1..=1920).contains(&self.width)
            && (1..=1152).contains(&self.height)
            && self.mb_wide == macroblock_columns(self.width)
            && self.mb_high == macroblock_rows(self.progressive, self.height)
    }

    fn has_legal_rate(&self) -> bool
        ensures { IsTrue result ↔ HasLegalRate self.now }
    {
        (1..=8).contains(&self.rate_code) && self.rate_n <= 3 && self.rate_d <= 31
    }
}

impl Head {
    /// Stands where no head is read yet: that of an I frame picture without macroblocks.
    pub const NONE: Head = Head {
        pic: PicType::I,
        temporal: 0,
        f_code: [[0; 2]; 2],
        dc_precision: 0,
        structure: Structure::Frame,
        top_first: false,
        frame_only: true,
        concealment: false,
        non_linear: false,
        table_15: false,
        alternate: false,
        second: false,
        mb_wide: 0,
        mb_high: 0,
        matrices: Matrices::DEFAULT,
    };

    /// Whether each field is in its legal range, and the picture is a frame.
    pub fn is_legal(&self) -> bool
        ensures { IsTrue result ↔ IsHead self.now }
    {
        self.temporal < 1024
            && self.is_of_frame()
            && self.has_legal_f_codes()
            && self.dc_precision <= 3
            && self.has_legal_size()
            && self.matrices.is_legal()
    }

    fn is_of_frame(&self) -> bool
        ensures { IsTrue result ↔ IsOfFrame self.now }
    {
        is_frame(self.structure) && !self.second
    }

    fn has_legal_size(&self) -> bool
        ensures { IsTrue result ↔ IsPictureSize self.now.mb_wide self.now.mb_high }
    {
        (1..=120).contains(&self.mb_wide) && (1..=72).contains(&self.mb_high)
    }

    fn has_legal_f_codes(&self) -> bool
        ensures { IsTrue result ↔ HasLegalFCodes self.now }
    {
        let [forward, backward] = &self.f_code;
        fit_their_bits(forward)
            && fit_their_bits(backward)
            && (!self.pic.has_forward(self.concealment) || are_used(forward))
            && (!self.pic.has_backward() || are_used(backward))
    }
}

#[cfg(test)]
mod tests {
    use super::*;

    fn head(pic: PicType, f_code: [[u8; 2]; 2]) -> Head {
        Head {
            pic,
            f_code,
            mb_wide: 6,
            mb_high: 4,
            ..Head::NONE
        }
    }

    #[test]
    fn field_pictures_are_not_legal(rt: HostRuntime) {
        let frame = head(PicType::I, [[15; 2]; 2]);
        let cases: [(Structure, bool, bool); 4] = [
            (Structure::Frame, false, true),
            (Structure::Frame, true, false),
            (Structure::Top, false, false),
            (Structure::Bottom, true, false),
        ];
        for (structure, second, legal) in cases {
            let head = Head {
                structure,
                second,
                ..frame
            };
            assert_eq!(rt; head.is_legal(), legal);
        }
    }

    #[test]
    fn f_codes_are_1_to_9_where_vectors_may_come(rt: HostRuntime) {
        assert!(rt; head(PicType::I, [[15; 2]; 2]).is_legal());
        assert!(rt; !head(PicType::P, [[15; 2]; 2]).is_legal());
        assert!(rt; head(PicType::P, [[9; 2], [15; 2]]).is_legal());
        assert!(rt; !head(PicType::B, [[9; 2], [15; 2]]).is_legal());
        assert!(rt; head(PicType::B, [[1; 2], [9; 2]]).is_legal());
        assert!(rt; !head(PicType::B, [[1; 2], [0, 9]]).is_legal());
        let mut concealed = head(PicType::I, [[15; 2]; 2]);
        concealed.concealment = true;
        assert!(rt; !concealed.is_legal());
    }
}
