//! The room that the record of a frame is read into.
ghost use Rattle.std.specs.Prelude.{◌≡◌, ◌*◌, ◌<◌, true, length, is_some, option_map, IfOk, IfSome};
ghost use Rattle.std.specs.Borrow.{sem};
ghost use Rattle.mv_terms.specs.Ranges.{IsContext, IsFrameHeader, IsHead};
ghost use Rattle.rec_legal.specs.Conditions.{file_size};
ghost use Rattle.rec_legal.specs.Found.{found};
ghost use Rattle.rec_reader.specs.Lending.{KeepsRoom};
ghost use Rattle.rec_reader.specs.Lent.{lent_found};
ghost use Rattle.rec_reader.specs.Room.{HasRoom, file_macroblocks};

use crate::parts::find_parts;
use crate::reader::Found;
use mv_terms::{Decision, FrameHeader, NoMemory};
use rec_legal::Record;
use rec_sheet::{read_sheet, sheet_law};
use std::alloc::Global;

/// Room for the slots, the sheet and the decisions of a frame.
#[derive(Drop)]
pub(crate) struct Room {
    slots: Vec<u8>,
    sheet: Vec<u8>,
    decisions: Vec<Decision>,
}

impl Room {
    /// Room for the frames of a file with this header.
    pub(crate) fn start(alloc: Global, file: &FrameHeader) -> Result<Room, NoMemory>
        requires { IsFrameHeader file.now }
        ensures { IfOk result (λ room. HasRoom file.now room) }
    {
        let count = usize::from(file.wide / 16) * usize::from(file.high / 16);
        Ok(Room {
            slots: vec![in alloc; 0; 20 * count].map_err(|_| NoMemory)?,
            sheet: vec![in alloc; 0; 12 * count].map_err(|_| NoMemory)?,
            decisions: vec![in alloc; Decision::NONE; count].map_err(|_| NoMemory)?,
        })
    }

    /// Lends the record of a frame of this file, or answers that it has none. Where it is known to have one, its seal isn't
    /// looked at.
    pub(crate) fn find(
        &mut self,
        file: &FrameHeader,
        frame: &[u8],
        is_known: bool,
    ) -> Option<Found<'_>>
        requires frame { length frame.now ≡ 768 * file_macroblocks file.now }
        requires room { HasRoom file.now self.old }
        requires known { is_known ≡ true → is_some (found (file_size file.now) frame.now) ≡ true }
        ensures* room { sem 𝓛 (KeepsRoom file.now self.entry) }
        ensures found { option_map lent_found result ≡ found (file_size file.now) frame.now }
        ensures legal { IfSome result (λ f. IsContext f.record.context × IsHead f.record.head) }
        ensures short { IfSome result (λ f. length f.record.sheet.context.now < 65536) }
    {
        // for the proof: the sheet that is read again is the same
        sheet_law();
        let parts = find_parts(
            file,
            frame,
            &mut self.slots,
            &mut self.sheet,
            &mut self.decisions,
            is_known,
        )?;
        let room = &*self;
        Some(Found {
            record: Record {
                sheet: read_sheet(&room.sheet)?,
                context: parts.context,
                head: parts.head,
                seal: parts.seal,
            },
            decisions: &room.decisions,
        })
    }
}
