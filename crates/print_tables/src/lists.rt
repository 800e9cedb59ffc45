//! The tables that are lists of numbers: scans, matrices, scales and rates.
use mv_quant::scale_value;
use mv_terms::{ALTERNATE, FRAME_RATES, Matrices, ZIGZAG};
use std::io;

/// Prints each list, on a line of its own.
pub(crate) fn print_lists(rt: &impl Print) -> io::Result<()> {
    print_numbers(rt, "zigzag", &ZIGZAG)?;
    print_numbers(rt, "alternate", &ALTERNATE)?;
    print_numbers(rt, "intra-matrix", &Matrices::DEFAULT.intra)?;
    print_numbers(rt, "non-intra-matrix", &Matrices::DEFAULT.non_intra)?;
    print_numbers(rt, "scale-linear", &scales(false))?;
    print_numbers(rt, "scale-non-linear", &scales(true))?;
    print_rates(rt)
}

/// The quantiser scales of the codes 1 to 31.
fn scales(non_linear: bool) -> [u8; 31] {
    let mut scales = [0; 31];
    for code in 1..32 {
        scales[code as usize - 1] = scale_value(code, non_linear);
    }
    scales
}

fn print_numbers(rt: &impl Print, name: &str, numbers: &[u8]) -> io::Result<()> {
    print!(rt; "{name}\t-\t")?;
    let mut gap = "";
    for number in numbers {
        print!(rt; "{gap}{number}")?;
        gap = " ";
    }
    println!(rt; "")
}

fn print_rates(rt: &impl Print) -> io::Result<()> {
    print!(rt; "rates\t-\t")?;
    let mut gap = "";
    for (frames, seconds) in FRAME_RATES {
        print!(rt; "{gap}{frames}:{seconds}")?;
        gap = " ";
    }
    println!(rt; "")
}
