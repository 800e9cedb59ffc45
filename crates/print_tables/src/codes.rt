//! The codes of each table: of all values of up to 17 bits, those that a reader takes whole.
ghost use Rattle.std.specs.Prelude.{◌≡◌, ◌-◌, ◌^◌, ◌<◌, ◌∷◌, ◌++◌, true, false, replicate};
ghost use Rattle.mv_bits.specs.Bits.{bits_of, digits};

use crate::table::Table;
use mv_bits::BitWindow;
use std::io;

const LONGEST: usize = 17;

/// Prints the codes of each table, the short ones first.
pub(crate) fn print_codes(rt: &impl Print) -> io::Result<()> {
    for table in Table::ALL {
        for size in 1..=LONGEST {
            print_codes_of_size(rt, table, size)?;
        }
    }
    Ok(())
}

fn print_codes_of_size(rt: &impl Print, table: Table, size: usize) -> io::Result<()>
    requires { size < 64 }
{
    for value in 0..1u64 << size {
        print_code(rt, table, value, size)?;
    }
    Ok(())
}

/// Prints the line of a code, where the table has it.
fn print_code(rt: &impl Print, table: Table, value: u64, size: usize) -> io::Result<()>
    requires room { size < 64 }
    requires fits { value < 2 ^ size }
{
    let bytes = code_bytes(value, size);
    let mut window = BitWindow::new(&bytes);
    match table.read(&mut window) {
        Some(meaning) if window.peek(32) == 1 << 31 => {
            let name = table.name();
            println!(rt; "{name}\t{value:0size$b}\t{meaning}")
        }
        _ => Ok(()),
    }
}

/// The bytes of a code of `size` bits that are the number `value`: behind it a bit 1, then zeros.
fn code_bytes(value: u64, size: usize) -> [u8; 8]
    requires room { size < 64 }
    requires fits { value < 2 ^ size }
    ensures { bits_of result ≡ digits size value ++ true ∷ replicate (63 - size) false }
{
    ((2 * value + 1) << (63 - size)).to_be_bytes()
}
