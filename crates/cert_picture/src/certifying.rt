//! Whether the slices of a decoded picture come back from its samples alone.
ghost use Rattle.std.specs.Prelude.{◌≡◌, length};
ghost use Rattle.mv_terms.specs.CodedPicture.{macroblocks};
ghost use Rattle.mv_terms.specs.Ranges.{IsHead};
ghost use Rattle.mv_bits.specs.Zeros.{zeros_at_end};
ghost use Rattle.mv_macro.specs.Legal.{AreLegalDecisions};
ghost use Rattle.mv_predict.specs.Blocks.{HasSizeOf};
ghost use Rattle.mv_planes.specs.References.{references_lent};
ghost use Rattle.mv_recon.specs.Pictures.{picture_from};
ghost use Rattle.mv_slices.specs.CanonicalLaws.{IsLegalPicture};
ghost use Rattle.mv_slices.specs.Slices.{Slices};
ghost use Rattle.cert_picture.specs.Records.{FrameParts, returns_slices};
ghost use Rattle.cert_picture.specs.Certifying.{IsMadeFrom, coded_lent};
ghost use Rattle.cert_picture.specs.Steps.{are_canonical};

use crate::stay::levels_stay;
use cert_requant::requantise;
use mv_bits::CompareWith;
use mv_planes::Coded;
use mv_slices::write_slices;
use mv_terms::{Decision, Head, MacroLevels};

/// Whether the slices of a picture come back from its samples alone: the levels that come nearest to the samples, less
/// their prediction, have these slices as their canonical coding, with a tail of at most so many zero bytes.
///
/// The slices have no zero byte at their end, as those of a unit. `spare` has a place for each macroblock, and anything
/// stands there afterwards. The levels of the picture aren't looked at.
pub fn certify(coded: &Coded<'_>, slices: &[u8], zeros: u64, spare: &mut [MacroLevels]) -> bool
    requires head { IsHead coded.now.head.now }
    requires decisions { AreLegalDecisions coded.now.head.now coded.now.decisions.now }
    requires picture { HasSizeOf coded.now.head.now coded.now.picture.now }
    requires forward { HasSizeOf coded.now.head.now coded.now.refs.forward.now }
    requires backward { HasSizeOf coded.now.head.now coded.now.refs.backward.now }
    requires spare { length spare.old ≡ macroblocks coded.now.head.now }
    requires slices { zeros_at_end slices.now ≡ 0 }
    ensures { (p : FrameParts) → IsMadeFrom p coded.now slices.now zeros
        → result ≡ returns_slices p }
{
    requantise(
        coded.head,
        coded.decisions,
        coded.picture,
        &coded.refs,
        spare,
    );
    are_canonical(coded.head, coded.decisions, spare, slices, zeros)
}

/// The same of a picture that was decoded from these slices. Its levels are compared with the nearest ones without
/// requantising where that isn't needed (`src/stay.rt`), and no memory is asked for: that they are the picture's own follows from
/// equal slices.
pub fn certify_decoded(coded: &Coded<'_>, slices: &[u8], zeros: u64) -> bool
    requires head { IsHead coded.now.head.now }
    requires coded { Slices coded.now.head.now slices.now
        coded.now.decisions.now coded.now.levels.now }
    requires decoded { coded.now.picture.now ≡
        picture_from (references_lent coded.now.refs) (coded_lent coded.now) }
    requires forward { HasSizeOf coded.now.head.now coded.now.refs.forward.now }
    requires backward { HasSizeOf coded.now.head.now coded.now.refs.backward.now }
    requires slices { zeros_at_end slices.now ≡ 0 }
    ensures { (p : FrameParts) → IsMadeFrom p coded.now slices.now zeros
        → result ≡ returns_slices p }
{
    if !levels_stay(coded) {
        return false;
    }
    are_canonical(coded.head, coded.decisions, coded.levels, slices, zeros)
}

/// Whether the canonical slices of legal decisions and levels are these, with a tail of at most so many zero bytes. They are
/// compared slice by slice, up to the first one that differs.
fn are_canonical(
    head: &Head,
    decisions: &[Decision],
    levels: &[MacroLevels],
    slices: &[u8],
    zeros: u64,
) -> bool
    requires legal { IsLegalPicture head.now decisions.now levels.now }
    requires slices { zeros_at_end slices.now ≡ 0 }
    ensures { result ≡ are_canonical head.now decisions.now levels.now slices.now zeros }
{
    let mut compare = CompareWith::new(slices, zeros);
    write_slices(head, decisions, levels, &mut compare);
    compare.equal()
}
