//! Laws of what the specs define, for crates above.
ghost use Rattle.std.specs.Prelude.{◌≡◌};
ghost use Rattle.mv_bits.specs.Elements.{CutIsWhole, ElementsAreCutAgain, JoinedIsCut};
ghost use Rattle.mv_bits.specs.StartCodes.{extension, group, picture, sequence_end, sequence_header, user_data};

use crate::start_codes::{EXTENSION, GROUP, PICTURE, SEQUENCE_END, SEQUENCE_HEADER, USER_DATA};

/// Bytes are cut at their start codes and nowhere else.
pub fn cut_law()
    ensures whole { CutIsWhole }
    ensures joined { JoinedIsCut }
    ensures again { ElementsAreCutAgain }
{}

/// The constants are the codes of the table.
pub fn start_codes_law()
    ensures picture { PICTURE ≡ picture }
    ensures user_data { USER_DATA ≡ user_data }
    ensures sequence_header { SEQUENCE_HEADER ≡ sequence_header }
    ensures extension { EXTENSION ≡ extension }
    ensures sequence_end { SEQUENCE_END ≡ sequence_end }
    ensures group { GROUP ≡ group }
{}
