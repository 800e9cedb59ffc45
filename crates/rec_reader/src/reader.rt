//! What is found in a frame.
use crate::room::Room;
use mv_terms::{Decision, FrameHeader, NoMemory};
use rec_legal::Record;
use std::alloc::Global;
use std::marker::Model;

/// A record with its decisions.
#[derive(Clone, Copy)]
pub struct Found<'a> {
    pub record: Record<'a>,
    /// One for each macroblock, row after row.
    pub decisions: &'a [Decision],
}

/// Reads the records of the frames of a file. It has room for those of one frame.
#[derive(Drop)]
pub struct RecordReader {
    header: FrameHeader,
    room: Room,
}

impl Model for RecordReader {
    ghost use Rattle.mv_terms.specs.declared.frame_header.FrameHeader.{FrameHeader};
    ghost use Rattle.rec_reader.specs.Room.{HasRoom};

    ghost Value = { FrameHeader };

    ghost view = { λ r. r.header };

    ghost invariant = { λ r. HasRoom r.header r.room };
}

impl RecordReader {
    ghost use Rattle.std.specs.Prelude.{◌≡◌, ◌*◌, ◌<◌, true, length, is_some, option_map, IfOk, IfSome};
    ghost use Rattle.std.specs.Borrow.{sem};
    ghost use Rattle.mv_terms.specs.Ranges.{IsContext, IsFrameHeader, IsHead};
    ghost use Rattle.rec_legal.specs.Conditions.{file_size};
    ghost use Rattle.rec_legal.specs.Found.{found};
    ghost use Rattle.rec_reader.specs.Lending.{StaysSame};
    ghost use Rattle.rec_reader.specs.Lent.{lent_found};
    ghost use Rattle.rec_reader.specs.Room.{file_macroblocks};

    /// Takes the room for the frames of a file with this header. No other call takes memory.
    pub fn start(alloc: Global, header: &FrameHeader) -> Result<RecordReader, NoMemory>
        requires { IsFrameHeader header.now }
        ensures { IfOk result (λ reader. reader ≡ header.now) }
    {
        Ok(RecordReader {
            header: *header,
            room: Room::start(alloc, header)?,
        })
    }

    /// Lends the record of a frame, or answers that it has none.
    pub fn read(&mut self, frame: &[u8]) -> Option<Found<'_>>
        requires { length frame.now ≡ 768 * file_macroblocks self.old }
        ensures* same { sem 𝓛 (StaysSame self.entry) }
        ensures found { option_map lent_found result ≡ found (file_size self.old) frame.now }
        ensures legal { IfSome result (λ f. IsContext f.record.context × IsHead f.record.head) }
        ensures short { IfSome result (λ f. length f.record.sheet.context.now < 65536) }
    {
        // a copy, since the room stays lent
        let header = self.header;
        self.room.find(&header, frame, false)
    }

    /// Lends the record of a frame again, where it is known to have one: the seal isn't looked at.
    pub fn read_again(&mut self, frame: &[u8]) -> Option<Found<'_>>
        requires size { length frame.now ≡ 768 * file_macroblocks self.old }
        requires known { is_some (found (file_size self.old) frame.now) ≡ true }
        ensures* same { sem 𝓛 (StaysSame self.entry) }
        ensures found { option_map lent_found result ≡ found (file_size self.old) frame.now }
        ensures legal { IfSome result (λ f. IsContext f.record.context × IsHead f.record.head) }
        ensures short { IfSome result (λ f. length f.record.sheet.context.now < 65536) }
    {
        // a copy, since the room stays lent
        let header = self.header;
        self.room.find(&header, frame, true)
    }
}
