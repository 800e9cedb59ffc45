//! The decision that a slot says.
ghost use Rattle.std.specs.Prelude.{◌≡◌, ◌+◌, ◌*◌, ◌/◌, ◌%◌, ◌<◌, ◌≤◌, nat_eq, slice_index, MatchOption};
ghost use Rattle.std.specs.Int.{cast_signed, w16};
ghost use Rattle.rec_slot.specs.Slot.{IsSlot, IsSlotOf};

use mv_terms::{Decision, Vector};

/// The decision that these bytes are the slot of. There is none where the low nibble of byte 2 isn't 0, byte 1 isn't
/// a scale code or byte 19 is above 31. Its motion is plain or of fields. Whether it may stand in its picture isn't
/// looked at.
pub fn read_slot(bytes: &[u8; 20]) -> Option<Decision>
    ensures { MatchOption result (¬ IsSlot bytes.now) (λ d. IsSlotOf d bytes.now) }
{
    if bytes[2] % 16 != 0 || bytes[1] == 0 || bytes[1] > 31 || bytes[19] > 31 {
        return None;
    }
    Some(Decision {
        slice_start: is_set(bytes[0], 128),
        skipped: is_set(bytes[0], 64),
        quant: is_set(bytes[0], 32),
        intra: is_set(bytes[0], 16),
        forward: is_set(bytes[0], 8),
        backward: is_set(bytes[0], 4),
        field_dct: is_set(bytes[0], 2),
        field_motion: is_set(bytes[0], 1),
        half: false,
        dual: false,
        scale: bytes[1],
        selects: [
            [is_set(bytes[2], 128), is_set(bytes[2], 64)],
            [is_set(bytes[2], 32), is_set(bytes[2], 16)],
        ],
        vectors: [
            [vector_at(bytes, 3), vector_at(bytes, 7)],
            [vector_at(bytes, 11), vector_at(bytes, 15)],
        ],
        dual_delta: [0; 2],
        head_scale: bytes[19],
    })
}

/// Whether the bit of this worth is set.
fn is_set(byte: u8, worth: u8) -> bool
    requires { 0 < worth }
    ensures { result ≡ nat_eq (byte / worth % 2) 1 }
{
    byte / worth % 2 == 1
}

/// A component of a vector.
fn component(high: u8, low: u8) -> i16
    ensures { result ≡ cast_signed w16 (256 * high + low) }
{
    (256 * u16::from(high) + u16::from(low)).cast_signed()
}

/// The vector in the four bytes from a place on.
fn vector_at(bytes: &[u8; 20], at: usize) -> Vector
    requires { at + 4 ≤ 20 }
    ensures x { result.x
        ≡ cast_signed w16 (256 * slice_index bytes.now at + slice_index bytes.now (at + 1)) }
    ensures y { result.y
        ≡ cast_signed w16 (256 * slice_index bytes.now (at + 2) + slice_index bytes.now (at + 3)) }
{
    Vector {
        x: component(bytes[at], bytes[at + 1]),
        y: component(bytes[at + 2], bytes[at + 3]),
    }
}
