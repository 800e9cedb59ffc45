//! Reading a block, and listing the runs and levels of one.
ghost use Rattle.std.specs.Prelude.{◌≡◌, ◌+◌, ◌^◌, ◌<◌, ◌≤◌, ◌≤ℤ◌, ◌<ℤ◌, ◌+ℤ◌, pos, neg_ℤ, IsTrue, ◌↔◌, OnOk, IfOk, slice_index_or, MatchOption, not, ◌&&◌, ◌==◌};
ghost use Rattle.mv_bits.specs.Readings.{ReadsAs};
ghost use Rattle.mv_terms.specs.Scans.{raster_place};
ghost use Rattle.mv_terms.specs.Ranges.{IsDcLevel};
ghost use Rattle.mv_blocks.specs.Blocks.{signed_12, IsForbidden, Coefficient, Escaped, Next, IsInside, Pairs, ReadsPairs, dct_diff, DcLevel, IntraReads, ReadsBlock, next_predictor, first_place, pairs_of};

use arrayvec::ArrayVec;
use mv_bits::BitWindow;
use mv_codes::{Coef, read_coef, read_dc_size};
use mv_terms::{Why, raster_place};

/// How a block is coded.
#[derive(Clone, Copy, Debug, PartialEq, Eq)]
pub struct BlockCode {
    /// It is a block of an intra macroblock.
    pub intra: bool,
    /// It is a block of luma.
    pub luma: bool,
    /// `intra_vlc_format`: intra blocks use Table B.15.
    pub table_15: bool,
    /// `alternate_scan`.
    pub alternate: bool,
    /// `intra_dc_precision`, 0 to 3 for 8 to 11 bits.
    pub dc_precision: u8,
}

/// A run of zeros, and the level behind it.
#[derive(Clone, Copy, Debug, Default, PartialEq, Eq)]
pub struct Pair {
    pub run: u8,
    pub level: i16,
}

/// Reads a block: its 64 levels, in raster order. In an intra block `dc` is the predictor of its DC level, and becomes
/// this level; else it stays. A DC level that doesn't fit the precision, a forbidden level of an escape and a
/// coefficient behind the last place are `BadBlock`; bits that no code begins are `BadCode`. After a refusal `dc` and
/// the levels are anything. (H.262, 6.2.6 and 7.2.)
pub fn read_block(
    w: &mut BitWindow<'_>,
    code: BlockCode,
    dc: &mut i16,
    levels: &mut [i16; 64],
) -> Result<(), Why>
    requires precision { code.dc_precision ≤ 3 }
    // the levels of the bits, or the first refusal in them
    ensures reads { ReadsBlock code dc.old w.old w.new levels.new result }
    ensures predictor { OnOk result (dc.new ≡ next_predictor code dc.old levels.new) }
{
    if code.intra {
        read_intra(w, code, dc, levels)
    } else {
        read_pairs(w, code, 0, levels)
    }
}

fn signed_12(n: u32) -> i16
    requires { n < 4096 }
    ensures { result ≡ signed_12 n }
{
    let level = n as i16;
    if n < 2048 { level } else { level - 4096 }
}

fn is_forbidden(level: i16) -> bool
    ensures { IsTrue result ↔ IsForbidden level }
{
    level == 0 || level == -2048
}

/// Reads what stands behind an escape.
fn read_escaped(w: &mut BitWindow<'_>) -> Result<Option<Pair>, Why>
    ensures { ReadsAs Escaped w.old w.new result }
{
    let run = w.take(6) as u8;
    let level = signed_12(w.take(12));
    if is_forbidden(level) {
        Err(Why::BadBlock)
    } else {
        Ok(Some(Pair { run, level }))
    }
}

pub(crate) fn is_first(code: BlockCode, place: usize) -> bool
    ensures { result ≡ (not code.intra && (place == 0)) }
{
    !code.intra && place == 0
}

pub(crate) fn has_table_15(code: BlockCode) -> bool
    ensures { result ≡ (code.intra && code.table_15) }
{
    code.intra && code.table_15
}

fn read_coefficient(
    w: &mut BitWindow<'_>,
    code: BlockCode,
    place: usize,
) -> Result<Option<Pair>, Why>
    ensures { ReadsAs (Coefficient code place) w.old w.new result }
{
    match read_coef(w, has_table_15(code), is_first(code, place)) {
        None => Err(Why::BadCode),
        Some(Coef::End) => Ok(None),
        Some(Coef::Pair(run, level)) => Ok(Some(Pair { run, level })),
        Some(Coef::Escape) => read_escaped(w),
    }
}

/// Reads the next run and level from a place of the scan on, or the end.
fn read_next(w: &mut BitWindow<'_>, code: BlockCode, place: usize) -> Result<Option<Pair>, Why>
    requires { place ≤ 64 }
    ensures reads { ReadsAs (Next code place) w.old w.new result }
    ensures inside { IfOk result (λ found. IsInside place found) }
{
    match read_coefficient(w, code, place)? {
        None => Ok(None),
        Some(pair) => {
            if place + pair.run as usize >= 64 {
                Err(Why::BadBlock)
            } else {
                Ok(Some(pair))
            }
        }
    }
}

/// Reads runs and levels from a place of the scan on, up to the end.
fn read_pairs(
    w: &mut BitWindow<'_>,
    code: BlockCode,
    start: usize,
    levels: &mut [i16; 64],
) -> Result<(), Why>
    requires { start ≤ 64 }
    ensures { ReadsPairs code start w.old w.new levels.new result }
{
    *levels = [0; 64];
    let mut place = start;
    'pairs: loop {
        match read_next(w, code, place)? {
            None => return Ok(()),
            Some(pair) => {
                let at = place + pair.run as usize;
                levels[raster_place(code.alternate, at)] = pair.level;
                place = at + 1;
            }
        }
    }
}

/// The difference from the predictor, at a size of 1 or more (H.262, 7.2.1).
fn dct_diff(size: u32, differential: u32) -> i32
    requires few { size ≤ 11 }
    requires fits { differential < 2 ^ size }
    ensures value { result ≡ dct_diff size differential }
    ensures low { pos 0 ≤ℤ (result +ℤ pos 2048) }
    ensures high { result <ℤ pos 2048 }
{
    let half_range = (1u32 << size) / 2;
    if differential < half_range {
        differential as i32 + 1 - (1i32 << size)
    } else {
        differential as i32
    }
}

/// The level, or none where it doesn't fit the precision.
fn fitting(precision: u8, level: i32) -> Option<i16>
    requires { precision ≤ 3 }
    ensures { MatchOption result (IsDcLevel precision level → ⊥)
        (λ v. (v ≡ level) × IsDcLevel precision level) }
{
    if level >= 0 && level < 1 << (8 + precision) {
        Some(level as i16)
    } else {
        None
    }
}

/// The DC level, or none where it doesn't fit the precision.
fn dc_level(precision: u8, predictor: i16, size: u32, differential: u32) -> Option<i16>
    requires precision { precision ≤ 3 }
    requires few { size ≤ 11 }
    requires fits { differential < 2 ^ size }
    ensures { let level = predictor +ℤ dct_diff size differential in
        MatchOption result (IsDcLevel precision level → ⊥)
        (λ v. (v ≡ level) × IsDcLevel precision level) }
{
    let difference = dct_diff(size, differential);
    fitting(precision, i32::from(predictor) + difference)
}

fn read_dc_level(w: &mut BitWindow<'_>, code: BlockCode, predictor: i16) -> Result<i16, Why>
    requires precision { code.dc_precision ≤ 3 }
    ensures { ReadsAs (DcLevel code predictor) w.old w.new result }
{
    match read_dc_size(w, code.luma) {
        None => Err(Why::BadCode),
        Some(size) => {
            let differential = w.take(u32::from(size));
            match dc_level(code.dc_precision, predictor, u32::from(size), differential) {
                None => Err(Why::BadBlock),
                Some(level) => Ok(level),
            }
        }
    }
}

fn read_intra(
    w: &mut BitWindow<'_>,
    code: BlockCode,
    dc: &mut i16,
    levels: &mut [i16; 64],
) -> Result<(), Why>
    requires precision { code.dc_precision ≤ 3 }
    ensures reads { IntraReads code dc.old w.old w.new levels.new result }
    ensures predictor { OnOk result (dc.new ≡ slice_index_or levels.new 0 (pos 0)) }
{
    let level = read_dc_level(w, code, *dc)?;
    read_pairs(w, code, 1, levels)?;
    levels[0] = level;
    *dc = level;
    Ok(())
}

/// The level at a place of the scan.
pub(crate) fn level_at(levels: &[i16; 64], alternate: bool, k: usize) -> i16
    requires { k < 64 }
    ensures { result ≡ slice_index_or levels.now (raster_place alternate k) (pos 0) }
{
    levels[raster_place(alternate, k)]
}

/// The first place of the scan whose level is read as a run and a level.
fn first_place(intra: bool) -> usize
    ensures value { result ≡ first_place intra }
    ensures bound { result ≤ 1 }
{
    if intra { 1 } else { 0 }
}

/// The runs and levels of a block in the order of the scan, without the DC level of an intra block.
pub fn pairs(levels: &[i16; 64], intra: bool, alternate: bool) -> ArrayVec<Pair, 64>
    ensures { result.items ≡ pairs_of levels.now intra alternate }
{
    let mut pairs = ArrayVec::new();
    let mut run: u8 = 0;
    'places: for k in first_place(intra)..64 {
        let level = level_at(levels, alternate, k);
        if level == 0 {
            run += 1;
        } else {
            pairs.push(Pair { run, level });
            run = 0;
        }
    }
    pairs
}
