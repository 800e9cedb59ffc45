//! The flags of a sheet, and what goes with them.
ghost use Rattle.std.specs.Prelude.{◌≡◌, ◌<◌, ◌/◌, ◌%◌, ◌==◌, nat_lt, nat_le, not, ◌&&◌, ◌||◌};
ghost use Rattle.std.specs.Str.{bytes_eq};
ghost use Rattle.rec_slot.specs.Directions.{uses_forward};
ghost use Rattle.rec_sheet.specs.Sheets.{lent_sheet};
ghost use Rattle.rec_legal.specs.Conditions.{has_flag, no_link};
ghost use Rattle.rec_legal.specs.Tests.{has_legal_flags, has_links_of, has_no_strays, has_few_zeros};

use crate::headers::is_same_flag;
use mv_terms::{Decision, PicType};
use rec_sheet::Sheet;
use rec_slot::uses_forward;

const USES_FORWARD: u8 = 2;

const FORWARD_LINK: u8 = 4;

const BACKWARD_LINK: u8 = 8;

const END_CODE: u8 = 16;

/// The most zero bytes that may stand behind a picture, and behind an end code.
const MOST_ZEROS: u32 = 16_777_215;

/// Whether flags, links and numbers of zero bytes agree with each other and with the decisions.
pub(crate) fn has_legal_flags(sheet: &Sheet<'_>, decisions: &[Decision]) -> bool
    ensures { result ≡ has_legal_flags (lent_sheet sheet.now) decisions.now }
{
    sheet.flags < 32
        && is_same_flag(
            has_flag(sheet, USES_FORWARD),
            uses_forward(sheet.pic, decisions),
        )
        && has_links_of(sheet)
        && has_no_strays(sheet)
        && has_few_zeros(sheet)
}

fn has_flag(sheet: &Sheet<'_>, worth: u8) -> bool
    requires { 0 < worth }
    ensures { result ≡ has_flag (lent_sheet sheet.now) worth }
{
    sheet.flags / worth % 2 == 1
}

/// Whether the links are those that a picture of its type may have.
fn has_links_of(sheet: &Sheet<'_>) -> bool
    ensures { result ≡ has_links_of sheet.now.pic (lent_sheet sheet.now) }
{
    let forward = has_flag(sheet, FORWARD_LINK);
    let backward = has_flag(sheet, BACKWARD_LINK);
    match sheet.pic {
        PicType::I => !forward && !backward,
        PicType::P => !backward,
        PicType::B => backward,
    }
}

/// Whether there is neither a link nor a number of zero bytes behind the end code where the flag isn't set.
fn has_no_strays(sheet: &Sheet<'_>) -> bool
    ensures { result ≡ has_no_strays (lent_sheet sheet.now) }
{
    (has_flag(sheet, FORWARD_LINK) || is_no_link(&sheet.forward))
        && (has_flag(sheet, BACKWARD_LINK) || is_no_link(&sheet.backward))
        && (has_flag(sheet, END_CODE) || sheet.n2 == 0)
}

fn is_no_link(link: &[u8; 32]) -> bool
    ensures { result ≡ bytes_eq link.now no_link }
{
    *link == [0; 32]
}

fn has_few_zeros(sheet: &Sheet<'_>) -> bool
    ensures { result ≡ has_few_zeros (lent_sheet sheet.now) }
{
    sheet.n1 <= MOST_ZEROS && sheet.n2 <= MOST_ZEROS
}
