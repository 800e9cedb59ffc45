//! The context, the prefix and the head in a sheet.
ghost use Rattle.std.specs.Prelude.{◌≡◌, ◌==◌, ◌&&◌, ◌||◌, not, length, is_some, IfSome};
ghost use Rattle.mv_terms.specs.Ranges.{IsContext, IsHead};
ghost use Rattle.mv_bits.specs.Elements.{cut};
ghost use Rattle.mv_heads.specs.Headers.{coded_size, is_same_flag, is_same_size};
ghost use Rattle.mv_heads.specs.HeadElements.{context_of, head_of, sequence_bytes};
ghost use Rattle.rec_sheet.specs.Sheets.{lent_sheet};
ghost use Rattle.rec_legal.specs.Conditions.{file_size};
ghost use Rattle.rec_legal.specs.Tests.{has_legal_prefix, is_head_of, is_same_part, is_same_type, may_be};
ghost use Rattle.rec_legal.specs.Said.{context_said, head_said};

use mv_heads::{extends, is_prefix, read_context, read_head, sequence_part};
use mv_terms::{Context, FrameHeader, Head, PicType};
use rec_sheet::Sheet;

/// What the context of a sheet says, where it is one sequence part and has the size of the file.
#[tactic(auto, unfolding(crate::specs::Said::context_said))]
pub(crate) fn read_context_of(sheet: &Sheet<'_>, file: &FrameHeader) -> Option<Context>
    ensures said { result ≡ context_said (file_size file.now) (lent_sheet sheet.now) }
    ensures legal { IfSome result IsContext }
    ensures size { IfSome result (λ context. coded_size context ≡ file_size file.now) }
{
    match read_context(sheet.context) {
        Ok(context) if has_size_of(&context, file) => Some(context),
        _ => None,
    }
}

/// Whether a context has the size of a file and its progressive flag.
fn has_size_of(context: &Context, file: &FrameHeader) -> bool
    ensures { result ≡ is_same_size (coded_size context.now) (file_size file.now) }
{
    context.mb_wide == file.wide / 16
        && context.mb_high == file.high / 16
        && is_same_flag(context.progressive, file.progressive)
}

pub(crate) fn is_same_flag(a: bool, b: bool) -> bool
    ensures { result ≡ is_same_flag a b }
{
    if a { b } else { !b }
}

/// What the head of a sheet says under this context, where it is a head of the sheet's type without a quant matrix
/// extension that may come there.
#[tactic(auto, unfolding(crate::specs::Said::head_said))]
pub(crate) fn read_head_of(sheet: &Sheet<'_>, context: &Context) -> Option<Head>
    requires { IsContext context.now }
    ensures said { result ≡ head_said (lent_sheet sheet.now) context.now }
    ensures legal { IfSome result IsHead }
    ensures wide { IfSome result (λ head. head.mb_wide ≡ context.now.mb_wide) }
    ensures high { IfSome result (λ head. head.mb_high ≡ context.now.mb_high) }
{
    match read_head(sheet.head, context) {
        Ok(head) if is_head_of(sheet, context, &head) => Some(head),
        _ => None,
    }
}

fn is_head_of(sheet: &Sheet<'_>, context: &Context, head: &Head) -> bool
    ensures { result ≡ is_head_of (lent_sheet sheet.now) context.now head.now }
{
    !extends(sheet.head) && is_same_type(head.pic, sheet.pic) && may_be(head.pic, sheet, context)
}

fn is_same_type(a: PicType, b: PicType) -> bool
    ensures { result ≡ is_same_type a b }
{
    match a {
        PicType::I => matches!(b, PicType::I),
        PicType::P => matches!(b, PicType::P),
        PicType::B => matches!(b, PicType::B),
    }
}

/// Whether a picture of this type may come: a B picture comes without a sequence part, and not where `low_delay` is 1.
fn may_be(pic: PicType, sheet: &Sheet<'_>, context: &Context) -> bool
    ensures { result ≡ may_be pic (lent_sheet sheet.now) context.now }
{
    !matches!(pic, PicType::B) || (!has_part(sheet.prefix) && !context.low_delay)
}

/// Whether a prefix has a sequence part.
fn has_part(prefix: &[u8]) -> bool
    ensures { result ≡ is_some (sequence_bytes prefix.now) }
{
    sequence_part(prefix).is_some()
}

/// Whether the prefix of a sheet is empty or a prefix, and a sequence part in it is the context.
pub(crate) fn has_legal_prefix(sheet: &Sheet<'_>) -> bool
    ensures { result ≡ has_legal_prefix (lent_sheet sheet.now) }
{
    (sheet.prefix.is_empty() || is_prefix(sheet.prefix))
        && has_same_part(sheet.prefix, sheet.context)
}

fn has_same_part(prefix: &[u8], context: &[u8]) -> bool
    ensures { result ≡ is_same_part (sequence_bytes prefix.now) context.now }
{
    match sequence_part(prefix) {
        None => true,
        Some((at, len)) => &prefix[at..at + len] == context,
    }
}
