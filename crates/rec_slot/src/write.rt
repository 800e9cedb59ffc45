//! A decision as the bytes of a slot.
ghost use Rattle.std.specs.Prelude.{◌≡◌, ◌≤◌, ◌<◌, if◌then◌else◌};
ghost use Rattle.mv_terms.specs.Decisions.{vector_of};
ghost use Rattle.rec_slot.specs.Slot.{slot_of, number_of, kind_bits, select_bits, vector_bytes};

use mv_terms::Decision;

/// The slot of a decision of plain or field motion: nothing in it says another motion.
pub fn slot_bytes(decision: &Decision) -> [u8; 20]
    ensures { result ≡ slot_of decision.now }
{
    let forward_first = vector_bytes(decision, 0, 0);
    let forward_second = vector_bytes(decision, 0, 1);
    let backward_first = vector_bytes(decision, 1, 0);
    let backward_second = vector_bytes(decision, 1, 1);
    [
        kind_byte(decision),
        decision.scale,
        select_byte(decision),
        forward_first[0],
        forward_first[1],
        forward_first[2],
        forward_first[3],
        forward_second[0],
        forward_second[1],
        forward_second[2],
        forward_second[3],
        backward_first[0],
        backward_first[1],
        backward_first[2],
        backward_first[3],
        backward_second[0],
        backward_second[1],
        backward_second[2],
        backward_second[3],
        decision.head_scale,
    ]
}

/// A bit of this worth, where it is set.
fn bit(set: bool, worth: u8) -> u8
    ensures value { result ≡ (if set then worth else 0) }
    ensures size { result ≤ worth }
{
    if set { worth } else { 0 }
}

fn kind_byte(decision: &Decision) -> u8
    ensures { result ≡ number_of (kind_bits decision.now) }
{
    bit(decision.slice_start, 128)
        + bit(decision.skipped, 64)
        + bit(decision.quant, 32)
        + bit(decision.intra, 16)
        + bit(decision.forward, 8)
        + bit(decision.backward, 4)
        + bit(decision.field_dct, 2)
        + bit(decision.field_motion, 1)
}

fn select_byte(decision: &Decision) -> u8
    ensures { result ≡ number_of (select_bits decision.now) }
{
    bit(decision.selects[0][0], 128)
        + bit(decision.selects[0][1], 64)
        + bit(decision.selects[1][0], 32)
        + bit(decision.selects[1][1], 16)
}

/// The bytes of vector r of direction s.
fn vector_bytes(decision: &Decision, s: usize, r: usize) -> [u8; 4]
    requires direction { s < 2 }
    requires number { r < 2 }
    ensures { result ≡ vector_bytes (vector_of decision.now s r) }
{
    let x = decision.vectors[s][r].x.cast_unsigned();
    let y = decision.vectors[s][r].y.cast_unsigned();
    [
        (x / 256) as u8,
        (x % 256) as u8,
        (y / 256) as u8,
        (y % 256) as u8,
    ]
}
