//! Start codes by their names (H.262, table 6-1).
ghost use Rattle.std.specs.Prelude.{◌≡◌};
ghost use Rattle.mv_bits.specs.StartCodes.{is_extension_or_user_data, is_slice};

/// `picture_start_code`
pub const PICTURE: u8 = 0x00;

/// `user_data_start_code`
pub const USER_DATA: u8 = 0xB2;

/// `sequence_header_code`
pub const SEQUENCE_HEADER: u8 = 0xB3;

/// `extension_start_code`
pub const EXTENSION: u8 = 0xB5;

/// `sequence_end_code`
pub const SEQUENCE_END: u8 = 0xB7;

/// `group_start_code`
pub const GROUP: u8 = 0xB8;

/// Whether it is a `slice_start_code`: 01 to AF.
pub fn is_slice(code: u8) -> bool
    ensures { result ≡ is_slice code }
{
    0x01 <= code && code <= 0xAF
}

/// Whether it is of what a header carries behind it.
pub fn is_extension_or_user_data(code: u8) -> bool
    ensures { result ≡ is_extension_or_user_data code }
{
    code == EXTENSION || code == USER_DATA
}
