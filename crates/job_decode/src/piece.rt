//! The bytes of a stream: read a piece at a time, and fed to the cutter.
ghost use Rattle.std.specs.Prelude.{◌≡◌, ◌<◌, List, [], ℕ, Option, IfOk, OnOk, OnErr, length};
ghost use Rattle.mv_units.specs.Units.{cut_of};
ghost use Rattle.mv_ends.specs.Causes.{FailedRead};
ghost use Rattle.mv_ends.specs.Moves.{Inputs};
ghost use Rattle.mv_ends.specs.Kept.{KeepsShelf};
ghost use Rattle.mv_terms.specs.UnitLists.{UnitLists};
ghost use Rattle.job_decode.specs.Steps.{Fits, IsFed, left_to_do, unfed};
ghost use Rattle.job_decode.specs.Stream.{piece_limit};

use mv_ends::{Failed, Shelf};
use mv_terms::NoMemory;
use mv_units::{Cut, Cutter};
use std::alloc::Global;

/// The most bytes of an input that are read at once.
const PIECE_LIMIT: usize = 65_536;

/// The bytes that were read last, up to `end`; those from `at` on aren't fed yet.
#[derive(Drop)]
pub(crate) struct Piece {
    pub(crate) bytes: Vec<u8>,
    pub(crate) at: usize,
    pub(crate) end: usize,
}

impl Piece {
    /// One of which nothing was read.
    pub(crate) fn start(alloc: Global) -> Result<Piece, NoMemory>
        ensures { IfOk result
            (λ piece. (piece.at ≡ 0) × (piece.end ≡ 0) × (length piece.bytes.items ≡ piece_limit)) }
    {
        Ok(Piece {
            bytes: vec![in alloc; 0; PIECE_LIMIT].map_err(|_| NoMemory)?,
            at: 0,
            end: 0,
        })
    }
}

/// Brings the cutter on, where it waits for bytes: feeds it what is left of the piece, or reads the next piece where all
/// of it is fed, or tells it the end. It fails only where reading does.
pub(crate) fn advance<S: Shelf>(
    shelf: &mut S,
    piece: &mut Piece,
    cutter: &mut Cutter,
) -> Result<(), Failed>
    requires more { cut_of cutter.old ≡ Cut.More }
    requires fits { Fits piece.old cutter.old }
    ensures fed { (named : Option Inputs) (name : List ℕ) (let_go : List UnitLists)
        → IsFed named name (S.told shelf.old).rest cutter.old (unfed piece.old) let_go
        → IsFed named name (S.told shelf.new).rest cutter.new (unfed piece.new) let_go }
    ensures fits { OnOk result (Fits piece.new cutter.new) }
    ensures room { cutter.new.room ≡ cutter.old.room }
    ensures less { OnOk result (left_to_do piece.new cutter.new < left_to_do piece.old cutter.old) }
    ensures none { OnErr result ((unfed piece.new ≡ []) × (cutter.new ≡ cutter.old)) }
    ensures failed { OnErr result
        (FailedRead (S.told shelf.old) (S.told shelf.new)) }
    ensures chosen { (S.told shelf.new).selected ≡ (S.told shelf.old).selected }
    ensures kept { KeepsShelf (S.told shelf.old) (S.told shelf.new) }
{
    if piece.at < piece.end {
        piece.at += cutter.feed(&piece.bytes[piece.at..piece.end]);
        return Ok(());
    }
    let count = shelf.read(&mut piece.bytes)?;
    piece.at = 0;
    piece.end = count;
    if count == 0 {
        cutter.close();
    }
    Ok(())
}
