//! Frame files are read, frame by frame.
ghost use Rattle.std.specs.Prelude.{◌≡◌, ◌≢◌, ◌+◌, ◌*◌, ◌^◌, ◌≤◌, ◌<◌, ℕ, List, [], ◌∷◌, ◌++◌, length, true, false, None, Some, Err, IfOk, IfErr, OnOk, IsErrOf, IsTrue};
ghost use Rattle.std.specs.Option.{ForSome};
ghost use Rattle.std.specs.Io.KnownBytes.{Consumes, IsAtEnd};
ghost use Rattle.mv_ends.specs.Causes.{FailedRead};
ghost use Rattle.mv_ends.specs.Kept.{KeepsShelf};
ghost use Rattle.y4m_frames.specs.declared.halt.Halt.{Halt};
ghost use Rattle.y4m_frames.specs.declared.halt.Halt.TheVariants as halts;
ghost use Rattle.y4m_frames.specs.Frames.{frame_len};
ghost use Rattle.y4m_frames.specs.Reading.{Reading, left_of, StandsFor, Starts, HasNoHeader, Hands, NextTells, StandsForItsFrames, FrameFilesAreRead, FramesAreInFront, HeadersAreLegal, OnlyFrameFilesAreRead, WrittenHeadersAreRead};
ghost use Rattle.y4m_frames.specs.Behind.{IsBehind, AnswersBehind, HeaderFaultsAreFaults, BeginsItsFrames, FramesEndWithin, ReadsNear};

use crate::ahead::Ahead;
use crate::frame::take_frame;
use crate::halt::Halt;
use crate::header::header_of;
use mv_ends::Shelf;
use mv_terms::{FrameFault, FrameHeader};
use std::alloc::Global;
use std::marker::Model;

const FILE_LIMIT: u64 = 1 << 44;

const HEADER_LIMIT: usize = 1_024;

/// Reads a frame file, frame by frame.
#[derive(Drop)]
pub struct FrameReader {
    header: FrameHeader,
    line: Vec<u8>,
    ahead: Ahead,
    count: u64,
    room: u64,
    failed: Option<Halt>,
}

impl Model for FrameReader {
    ghost Value = { Reading };

    ghost view = { λ r. record {
      header = r.header;
      line = r.line.items;
      count = r.count;
      room = r.room;
      ahead = r.ahead;
      failed = r.failed;
    } };

    ghost invariant = { λ r. (r.count + r.room ≤ 2 ^ 44) × (r.failed ≢ Some halts.NoMemory) };
}

impl FrameReader {
    /// A reader of the selected input of a shelf, whose header line it reads.
    pub fn start<S: Shelf>(alloc: Global, shelf: &mut S) -> Result<FrameReader, Halt>
        ensures starts { IfOk result (λ r.
            Starts (S.told shelf.old).rest (S.told shelf.new).rest r) }

        // Where the shelf tells its bytes, the reader stands at the first frame of these.
        ensures behind { IfOk result (λ r. ForSome (S.told shelf.old).rest
            (λ file. IsBehind r (S.told shelf.new).rest file [])) }

        // Fewer than 65,536 bytes are read ahead of what stands behind the header line.
        ensures less { IfOk result (λ r. length r.ahead < 65536) }

        // Where the shelf tells its bytes, a fault is that of their header line.
        ensures tells { ForSome (S.told shelf.old).rest
            (λ s. IfErr result (λ halt. HasNoHeader s halt)) }
        ensures read { IsErrOf result Halt.Read → FailedRead (S.told shelf.old) (S.told shelf.new) }
        ensures chosen { (S.told shelf.new).selected ≡ (S.told shelf.old).selected }
        ensures keeps { KeepsShelf (S.told shelf.old) (S.told shelf.new) }
    {
        let mut ahead = Ahead::start(alloc)?;
        let Some(text) = ahead.line(shelf, HEADER_LIMIT)? else {
            return Err(Halt::Fault(FrameFault::BadHeader));
        };
        let held = ahead.bytes();
        let header = header_of(&held[..text])?;
        let line = Vec::from_slice(alloc, &held[..text + 1])?;
        ahead.skip(text + 1);
        Ok(FrameReader {
            header,
            line,
            ahead,
            count: 0,
            room: FILE_LIMIT - (text as u64 + 1),
            failed: None,
        })
    }

    /// The meaning of the header line.
    pub fn header(&self) -> &FrameHeader
        ensures { result.now ≡ self.now.header }
    {
        &self.header
    }

    /// The header line, with its line feed.
    pub fn line(&self) -> &[u8]
        ensures { result.now ≡ self.now.line }
    {
        &self.line
    }

    /// Reads the next frame; false at the end. After an error it answers the same again.
    #[tactic(auto, using(mv_ends::proofs::Known::keeps_shelf_refl))]
    pub fn next<S: Shelf>(&mut self, shelf: &mut S, frame: &mut [u8]) -> Result<bool, Halt>
        requires { length frame.old ≡ frame_len self.old.header }
        // A frame that is handed out stands in front of what was left.
        ensures hands { IfOk result (λ some. some ≡ true → Hands self.old self.new
            (S.told shelf.old).rest (S.told shelf.new).rest frame.new) }

        // At the end nothing is taken, and the shelf has nothing left.
        ensures ends { IfOk result (λ some. some ≡ false → Consumes
            (left_of self.old (S.told shelf.old).rest)
            (left_of self.new (S.told shelf.new).rest) []) }
        ensures at_end { IfOk result (λ some. some ≡ false → IsAtEnd (S.told shelf.new).rest) }

        // Behind the first frames of a file it answers the next one, the end, or the first fault.
        ensures behind { (file : List ℕ) (frames : List (List ℕ))
            → IsBehind self.old (S.told shelf.old).rest file frames
            → AnswersBehind self.old self.new (S.told shelf.new).rest file frames frame.new result }

        // Fewer bytes may belong to the file behind each frame.
        ensures room { self.new.room ≤ self.old.room }
        ensures falls { IfOk result (λ some. some ≡ true → self.new.room < self.old.room) }

        // Where the shelf tells its bytes: at the end, and only there, it answers false, and a
        // fault is the first one.
        ensures tells { self.old.failed ≡ None
            → ForSome (left_of self.old (S.told shelf.old).rest) (λ s.
            NextTells self.old s result) }
        ensures read { IsErrOf result Halt.Read → self.old.failed ≡ None
            → FailedRead (S.told shelf.old) (S.told shelf.new) }

        // At most 65,536 bytes are read ahead, and fewer behind a frame that was handed out.
        ensures most { self.old.failed ≡ None → length self.new.ahead ≤ 65536 }
        ensures less { IfOk result (λ some. some ≡ true → length self.new.ahead < 65536) }
        ensures memory { result ≢ Err Halt.NoMemory }

        // After an error it answers the same again.
        ensures stays { IfErr result (λ halt. self.new.failed ≡ Some halt) }
        ensures again { (halt : Halt) → self.old.failed ≡ Some halt → (result ≡ Err halt)
            × (self.new ≡ self.old) × ((S.told shelf.new).rest ≡ (S.told shelf.old).rest) }
        ensures runs { OnOk result (self.new.failed ≡ None) }
        ensures header { (self.new.header ≡ self.old.header) × (self.new.line ≡ self.old.line) }
        ensures chosen { (S.told shelf.new).selected ≡ (S.told shelf.old).selected }
        ensures keeps { KeepsShelf (S.told shelf.old) (S.told shelf.new) }
    {
        if let Some(halt) = self.failed {
            return Err(halt);
        }
        match take_frame(&mut self.ahead, shelf, self.count, self.room, frame) {
            Ok(None) => Ok(false),
            Ok(Some(taken)) => {
                self.count += 1;
                self.room -= taken;
                Ok(true)
            }
            Err(halt) => {
                self.failed = Some(halt);
                Err(halt)
            }
        }
    }
}

/// Whatever comes, the frames of the file are those that a reader stands for, and then those of
/// what is left.
pub fn stands_law()
    ensures { StandsForItsFrames }
{}

/// A reader behind frames of a file: they are its first ones, they are those that end within the
/// bytes up to there, and fewer than 65,536 bytes were taken beyond. Where no reader starts, the
/// fault of the header line is that of the file.
pub fn behind_law()
    ensures header { HeaderFaultsAreFaults }
    ensures begins { BeginsItsFrames }
    ensures within { FramesEndWithin }
    ensures near { ReadsNear }
{}

/// A frame file is read as what it holds, and only a frame file is read without a fault. Of any bytes, what is read stands
/// in front of them.
pub fn holds_law()
    ensures read { FrameFilesAreRead }
    ensures only { OnlyFrameFilesAreRead }
    ensures front { FramesAreInFront }
{}

/// The header line that `write_header` writes is read as its header, and a header that is read is legal.
pub fn header_law()
    ensures written { WrittenHeadersAreRead }
    ensures legal { HeadersAreLegal }
{}
