//! A sheet as bytes.
ghost use Rattle.std.specs.Prelude.{◌≡◌, ◌+◌, ◌-◌, ◌<◌, ◌≤◌, ◌++◌, length, take, replicate};
ghost use Rattle.mv_terms.specs.PicTypes.{picture_coding_type};
ghost use Rattle.rec_sheet.specs.Sheets.{sheet_of, lent_sheet, two_bytes, four_bytes};

use crate::Sheet;
use mv_terms::PicType;

/// Writes a sheet over all these bytes, with zeros in place of its seal.
pub fn write_sheet(sheet: &Sheet<'_>, to: &mut [u8])
    requires context { length sheet.now.context.now < 65536 }
    requires prefix { length sheet.now.prefix.now < 65536 }
    requires head { length sheet.now.head.now < 65536 }
    requires fits { 118 + length sheet.now.context.now + length sheet.now.prefix.now
        + length sheet.now.head.now
        ≤ length to.old }
    ensures { to.new ≡ sheet_of (lent_sheet sheet.now) (length to.old) (replicate 32 0) }
{
    let name = [b'M', b'R', b'E', b'C'];
    let kind = [1, picture_coding_type(sheet.pic), sheet.flags, 0];
    let n1 = four_bytes(sheet.n1);
    let n2 = four_bytes(sheet.n2);
    let context = two_bytes(sheet.context.len());
    let prefix = two_bytes(sheet.prefix.len());
    let head = two_bytes(sheet.head.len());
    let _end = put(to, 0, &name);
    let _end = put(to, 4, &kind);
    let _end = put(to, 8, &sheet.forward);
    let _end = put(to, 40, &sheet.backward);
    let _end = put(to, 72, &n1);
    let _end = put(to, 76, &n2);
    let _end = put(to, 80, &context);
    let _end = put(to, 82, &prefix);
    let _end = put(to, 84, &head);
    let end = put(to, 86, sheet.context);
    let end = put(to, end, sheet.prefix);
    let end = put(to, end, sheet.head);
    clear(to, end);
}

fn picture_coding_type(pic: PicType) -> u8
    ensures { result ≡ picture_coding_type pic }
{
    match pic {
        PicType::I => 1,
        PicType::P => 2,
        PicType::B => 3,
    }
}

fn two_bytes(n: usize) -> [u8; 2]
    requires { n < 65536 }
    ensures { result ≡ two_bytes n }
{
    [(n / 256) as u8, (n % 256) as u8]
}

fn four_bytes(n: u32) -> [u8; 4]
    ensures { result ≡ four_bytes n }
{
    [
        (n / 16_777_216) as u8,
        (n / 65_536 % 256) as u8,
        (n / 256 % 256) as u8,
        (n % 256) as u8,
    ]
}

/// Copies a piece to a place, and says where it ends.
fn put(to: &mut [u8], at: usize, piece: &[u8]) -> usize
    requires { at + length piece.now ≤ length to.old }
    ensures end { result ≡ at + length piece.now }
    ensures bytes { take result to.new ≡ take at to.old ++ piece.now }
{
    'bytes: for i in 0..piece.len() {
        to[at + i] = piece[i];
    }
    at + piece.len()
}

/// Clears all bytes from a place on.
fn clear(to: &mut [u8], at: usize)
    requires { at ≤ length to.old }
    ensures { to.new ≡ take at to.old ++ replicate (length to.old - at) 0 }
{
    'bytes: for i in at..to.len() {
        to[i] = 0;
    }
}
