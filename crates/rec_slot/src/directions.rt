//! What a picture uses of its references.
ghost use Rattle.std.specs.Prelude.{◌≡◌, not};
ghost use Rattle.std.specs.List.{list_any};
ghost use Rattle.rec_slot.specs.Directions.{uses_forward};

use mv_terms::{Decision, PicType};

/// Whether a picture with these decisions is predicted from its forward reference. A skipped macroblock of a P
/// picture is, although no direction is decided for it.
pub fn uses_forward(pic: PicType, decisions: &[Decision]) -> bool
    ensures { result ≡ uses_forward pic decisions.now }
{
    match pic {
        PicType::I => false,
        PicType::P => is_any_predicted(decisions),
        PicType::B => is_any_forward(decisions),
    }
}

fn is_any_predicted(decisions: &[Decision]) -> bool
    ensures { result ≡ list_any (λ d. not d.intra) decisions.now }
{
    decisions.iter().any(|d| !d.intra)
}

fn is_any_forward(decisions: &[Decision]) -> bool
    ensures { result ≡ list_any (λ d. d.forward) decisions.now }
{
    decisions.iter().any(|d| d.forward)
}
