//! Blocks that are written (H.262, 6.2.6 and 7.2).
ghost use Rattle.std.specs.Prelude.{◌≡◌, ◌==◌, ◌<◌, ◌≤◌, ◌||◌, not, ◌^◌, ◌-ℤ◌, drop, take, unsigned_abs};
ghost use Rattle.mv_bits.specs.Writing.{Writes};
ghost use Rattle.mv_blocks.specs.Blocks.{codes_at, in_scan, next_predictor, pairs_in};
ghost use Rattle.mv_blocks.specs.Written.{Fit, IsCoded, IsWritable, block_bits, dc_bits, differential, has_level, pair_bits, pairs_bits, size_within};
ghost use Rattle.mv_blocks.specs.Steps.{count_levels, counted, level_places};

use crate::block::{BlockCode, Pair, has_table_15, is_first, level_at};
use mv_bits::{BitWriter, Put};
use mv_codes::{write_coefficient, write_dc_size, write_end};
use mv_terms::raster_place;

/// Writes a block: its 64 levels, which are in raster order. In an intra block `dc` is the predictor of its DC level,
/// and becomes this level; else it stays. Each run and level has its code where the table has one, and else an escape.
/// (H.262, 6.2.6 and 7.2.)
pub fn write_block<P: Put>(
    out: &mut BitWriter,
    code: BlockCode,
    dc: &mut i16,
    levels: &[i16; 64],
    to: &mut P,
)
    requires { IsWritable code dc.old levels.now }
    ensures written { Writes P.stands to.old to.new out.old out.new
        (block_bits code dc.old levels.now) }
    ensures predictor { dc.new ≡ next_predictor code dc.old levels.now }
{
    if code.intra {
        write_difference(code.luma, &difference(dc, &levels[0]), out, to);
        write_levels(code, 1, levels, out, to);
        *dc = levels[0];
    } else {
        write_levels(code, 0, levels, out, to);
    }
}

/// Whether a level of a block isn't zero.
pub fn has_level(levels: &[i16; 64]) -> bool
    ensures { result ≡ has_level levels.now }
{
    let mut found = false;
    'levels: for level in levels {
        found = either(found, is_some(level));
    }
    found
}

fn is_some(level: &i16) -> bool
    ensures { result ≡ not (unsigned_abs level.now == 0) }
{
    *level != 0
}

fn either(a: bool, b: bool) -> bool
    ensures { result ≡ (a || b) }
{
    a || b
}

/// The difference of a DC level from its predictor.
fn difference(predictor: &i16, level: &i16) -> i32
    ensures { result ≡ level.now -ℤ predictor.now }
{
    i32::from(*level) - i32::from(*predictor)
}

/// Writes the difference of a DC level from its predictor (H.262, 7.2.1).
fn write_difference<P: Put>(luma: bool, difference: &i32, out: &mut BitWriter, to: &mut P)
    requires { unsigned_abs difference.now < 2 ^ 11 }
    ensures { Writes P.stands to.old to.new out.old out.new (dc_bits luma difference.now) }
{
    let size = dc_size(magnitude(difference));
    write_dc_size(size, luma, out, to);
    out.put(differential(size, difference), u32::from(size), to);
}

fn magnitude(difference: &i32) -> u32
    ensures { result ≡ unsigned_abs difference.now }
{
    difference.unsigned_abs()
}

/// The size in bits of DC differences of this magnitude (H.262, Table B.12).
fn dc_size(magnitude: u32) -> u8
    requires { magnitude < 2 ^ 11 }
    ensures value { result ≡ size_within 11 magnitude }
    ensures few { result ≤ 11 }
    ensures room { magnitude < 2 ^ result }
{
    (32 - magnitude.leading_zeros()) as u8
}

/// The bits behind the size of a DC difference.
fn differential(size: u8, difference: &i32) -> u32
    requires few { size ≤ 11 }
    requires room { unsigned_abs difference.now < 2 ^ size }
    ensures value { result ≡ differential size difference.now }
    ensures fits { result < 2 ^ size }
{
    let magnitude = difference.unsigned_abs();
    if *difference < 0 {
        (1u32 << u32::from(size)) - 1 - magnitude
    } else {
        magnitude
    }
}

/// Writes the levels from the first place of the scan on, or from the one behind it, as runs and levels, and the end
/// of the block. That the places are listed first spares a branch at each of them that can't be foretold.
fn write_levels<P: Put>(
    code: BlockCode,
    start: usize,
    levels: &[i16; 64],
    out: &mut BitWriter,
    to: &mut P,
)
    requires start { start ≤ 1 }
    requires fit { Fit start (pairs_in 0 (drop start (in_scan code.alternate levels.now))) }
    ensures { Writes P.stands to.old to.new out.old out.new
        (pairs_bits code start (pairs_in 0 (drop start (in_scan code.alternate levels.now)))) }
{
    let mut places = [0; 64];
    let listed = list_places(code.alternate, start, levels, &mut places);
    write_listed(code, start, levels, &places[..listed], out, to);
}

/// Lists the places of the scan, from the first one or the one behind it on, whose level isn't zero, and answers how
/// many these are. No place is looked at behind the last of them.
fn list_places(alternate: bool, start: usize, levels: &[i16; 64], places: &mut [u8; 64]) -> usize
    requires { start ≤ 1 }
    ensures few { result ≤ 64 }
    ensures listed { take result places.new
        ≡ level_places start (drop start (in_scan alternate levels.now)) }
{
    let all = usize::from(levels_from(start, levels));
    let mut listed = 0;
    let mut k = start;
    'places: while listed < all {
        places[listed] = k as u8;
        listed += usize::from(counted(&levels[raster_place(alternate, k)]));
        k += 1;
    }
    listed
}

/// Writes the levels at the places of the scan that are listed, and the end of the block.
fn write_listed<P: Put>(
    code: BlockCode,
    start: usize,
    levels: &[i16; 64],
    places: &[u8],
    out: &mut BitWriter,
    to: &mut P,
)
    requires listed { places.now
        ≡ level_places start (drop start (in_scan code.alternate levels.now)) }
    requires fit { Fit start (pairs_in 0 (drop start (in_scan code.alternate levels.now))) }
    ensures { Writes P.stands to.old to.new out.old out.new
        (pairs_bits code start (pairs_in 0 (drop start (in_scan code.alternate levels.now)))) }
{
    let mut next = start;
    'places: for place in places {
        let k = usize::from(*place);
        let level = level_at(levels, code.alternate, k);
        let run = (k - next) as u8;
        write_pair(code, next, Pair { run, level }, out, to);
        next = k + 1;
    }
    write_end(has_table_15(code), out, to);
}

/// How many levels from the first or second one on aren't zero.
fn levels_from(start: usize, levels: &[i16; 64]) -> u16
    requires { start ≤ 1 }
    ensures { result ≡ count_levels (drop start levels.now) }
{
    let all = count_levels(levels);
    if start == 0 {
        all
    } else {
        all - counted(&levels[0])
    }
}

/// How many levels aren't zero.
fn count_levels(levels: &[i16; 64]) -> u16
    ensures { result ≡ count_levels levels.now }
{
    let mut count = 0;
    'levels: for level in levels {
        count += counted(level);
    }
    count
}

fn counted(level: &i16) -> u16
    ensures { result ≡ counted level.now }
{
    if *level != 0 { 1 } else { 0 }
}

/// Writes a run and a level by its code, or else by an escape (H.262, 7.2.2).
#[inline(always)]
fn write_pair<P: Put>(code: BlockCode, place: usize, p: Pair, out: &mut BitWriter, to: &mut P)
    requires run { p.run < 64 }
    requires level { IsCoded p.level }
    ensures { Writes P.stands to.old to.new out.old out.new (pair_bits (codes_at code place) p) }
{
    let table_15 = has_table_15(code);
    let first = is_first(code, place);
    write_coefficient(p.run, &p.level, table_15, first, out, to);
}
