//! The words behind the program's name.
ghost use Rattle.std.specs.Prelude.{◌≡◌};
ghost use Rattle.std.specs.Option.{ForSome, option_map};
ghost use Rattle.mv_terms.specs.Ranges.{IsScaleCode};
ghost use Rattle.recoder_cli.specs.Words.{IsLegal, form_of, named_form, scale_by, scale_of, scaled_form, texts};
ghost use Rattle.recoder_cli.specs.Commands.{form_given};

use y4m_frames::number;

/// A command, with the names that it was given.
#[derive(Clone, Copy, Debug)]
pub enum Command<'a> {
    /// Decodes the stream of this name.
    Decode(&'a str),
    /// Joins the frames that the list of this name lists.
    Cut(&'a str),
    /// Codes the frames of this name, fresh pictures with this quantiser scale code.
    Recode(&'a str, u8),
    /// Says of each frame of this name what `Recode` does with it.
    Audit(&'a str),
}

/// The quantiser scale code where the words give none.
const DEFAULT_SCALE: u8 = 8;

// What a verb with a name asks for.
fn named<'a>(verb: &str, name: &'a str) -> Option<Command<'a>>
    ensures form { option_map form_given result ≡ named_form verb.now name.now }
    ensures legal { ForSome result (λ command. IsLegal (form_given command)) }
{
    if name.is_empty() {
        return None;
    }
    match verb {
        "decode" => Some(Command::Decode(name)),
        "cut" => Some(Command::Cut(name)),
        "recode" => Some(Command::Recode(name, DEFAULT_SCALE)),
        "audit" => Some(Command::Audit(name)),
        _ => None,
    }
}

// A number as a quantiser scale code.
fn scale_by(number: Option<u32>) -> Option<u8>
    ensures value { result ≡ scale_by number }
    ensures legal { ForSome result (λ scale. IsScaleCode scale) }
{
    match number {
        Some(n) if 1 <= n && n <= 31 => Some(n as u8),
        _ => None,
    }
}

// The quantiser scale code of `q=N`.
fn scale_of(option: &str) -> Option<u8>
    ensures value { result ≡ scale_of option.now }
    ensures legal { ForSome result (λ scale. IsScaleCode scale) }
{
    let bytes = option.as_bytes();
    if bytes.len() < 3 || bytes[2] == b'0' {
        return None;
    }
    if &bytes[..2] == b"q=".as_slice() {
        scale_by(number(&bytes[2..]))
    } else {
        None
    }
}

// What a verb with a name and an option asks for.
fn scaled<'a>(verb: &str, name: &'a str, option: &str) -> Option<Command<'a>>
    ensures form { option_map form_given result ≡ scaled_form verb.now name.now option.now }
    ensures legal { ForSome result (λ command. IsLegal (form_given command)) }
{
    match verb {
        "recode" if !name.is_empty() => Some(Command::Recode(name, scale_of(option)?)),
        _ => None,
    }
}

/// The command that the words give, or nothing where they are of no form.
pub fn parse(words: &[String]) -> Option<Command<'_>>
    ensures form { option_map form_given result ≡ form_of (texts words.now) }
    ensures legal { ForSome result (λ command. IsLegal (form_given command)) }
{
    match words {
        [verb, name] => named(verb.as_str(), name.as_str()),
        [verb, name, option] => scaled(verb.as_str(), name.as_str(), option.as_str()),
        _ => None,
    }
}
