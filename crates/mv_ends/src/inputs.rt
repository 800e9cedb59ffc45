//! Inputs in a list, in which the first of two of one name counts.
ghost use Rattle.std.specs.Prelude.{◌≡◌, ◌+◌, ◌-◌, ◌≤◌, ◌<◌, length, drop, slice_get, max, min, take, [], ◌++◌};
ghost use Rattle.mv_ends.specs.Places.{place_of, bytes_of};

/// Where the first input of this name stands, or how many there are.
pub(crate) fn index_of(inputs: &[(String, Vec<u8>)], name: &str) -> usize
    ensures place { result ≡ place_of inputs.now name.now }
    ensures within { result ≤ length inputs.now }
{
    for (i, input) in inputs.iter().enumerate() {
        if name == input.0.as_str() {
            return i;
        }
    }
    inputs.len()
}

/// The bytes of the input at a place. Behind the last there are none.
pub(crate) fn input_at(inputs: &[(String, Vec<u8>)], place: usize) -> &[u8]
    ensures { result.now ≡ bytes_of (slice_get inputs.now place) }
{
    match inputs.get(place) {
        Some(input) => input.1.as_slice(),
        None => &[],
    }
}

/// Moves the front of what is left behind a place into the buffer, and answers how many bytes.
pub(crate) fn copy_front(bytes: &[u8], at: usize, most: usize, buf: &mut [u8]) -> usize
    requires moves { 0 < most }
    ensures count { result ≡ min (min (length buf.new) most) (length bytes.now - at) }
    ensures place { at + result ≤ max at (length bytes.now) }
    ensures end { result ≡ 0 → 0 < length buf.new → drop (at + result) bytes.now ≡ [] }
    ensures front { drop at bytes.now ≡ take result buf.new ++ drop (at + result) bytes.now }
{
    if at >= bytes.len() {
        return 0;
    }
    let count = buf.len().min(most).min(bytes.len() - at);
    buf[..count].copy_from_slice(&bytes[at..at + count]);
    count
}
