//! Bytes that are kept, and numbers as bytes.
ghost use Rattle.std.specs.Prelude.{◌≡◌, ◌≤◌, length};
ghost use Rattle.plan_numbers.specs.Numbered.{number_bytes};
ghost use Rattle.plan_numbers.specs.Stands.{HasRoom, context_limit};

use mv_bits::{Put, Room};

/// A number, in 32 bytes with the low one first.
pub(crate) fn number_bytes(n: u64) -> [u8; 32]
    ensures { result ≡ number_bytes n }
{
    let mut bytes = [0; 32];
    bytes[..8].copy_from_slice(&n.to_le_bytes());
    bytes
}

/// Keeps these bytes in place of those before.
pub(crate) fn keep(room: &mut Room, bytes: &[u8])
    requires room { HasRoom room.old }
    requires short { length bytes.now ≤ context_limit }
    ensures room { HasRoom room.new }
    ensures kept { room.new.bytes ≡ bytes.now }
{
    room.clear();
    'bytes: for i in 0..bytes.len() {
        room.put_byte(bytes[i]);
    }
}
