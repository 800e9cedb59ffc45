//! The words of a line, and numbers.
ghost use Rattle.std.specs.Prelude.{◌≡◌, ◌<◌, ◌+◌, ◌∷◌, length};
ghost use Rattle.y4m_frames.specs.Lines.{words, words_left, to_read, number};

use memchr::memchr;

/// The first word of a line, and what stands behind the space that ends it.
pub fn first_word(line: &[u8]) -> (&[u8], Option<&[u8]>)
    ensures parts { words line.now ≡ result.0.now ∷ words_left result.1 }
    ensures less { to_read result.1 < length line.now + 1 }
{
    match memchr(b' ', line) {
        Some(end) => (&line[..end], Some(&line[end + 1..])),
        None => (line, None),
    }
}

/// A number of 1 to 9 decimal digits.
#[tactic(auto, unfolding(crate::specs::Lines::number))]
pub fn number(digits: &[u8]) -> Option<u32>
    ensures { result ≡ number digits.now }
{
    if digits.is_empty() || digits.len() > 9 {
        return None;
    }
    let mut value = 0;
    for digit in digits {
        if *digit < b'0' || b'9' < *digit {
            return None;
        }
        value = value * 10 + u32::from(*digit - b'0');
    }
    Some(value)
}
