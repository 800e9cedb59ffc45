//! The frames of units, one after the other.
ghost use Rattle.std.specs.Prelude.{◌≡◌, ◌*◌, List, [], IfOk, length};
ghost use Rattle.mv_terms.specs.CodedPicture.{frame_macroblocks};
ghost use Rattle.mv_terms.specs.UnitLists.{lent_unit};
ghost use Rattle.mv_bits.specs.Zeros.{zeros_at_end};
ghost use Rattle.mv_units.specs.Profile.{Accepts, CodedUnit, heads_in};
ghost use Rattle.mv_decode.specs.Stands.{IsLent, LendsLegal};
ghost use Rattle.cert_picture.specs.FrameFileOf.{frames_of};
ghost use Rattle.job_decode.specs.Steps.{HasMade, MakesFrames};

use crate::links::Links;
use crate::sequence::SequenceFront;
use cert_picture::{FrameRoom, StreamParts, make_frame};
use mv_planes::Coded;
use mv_terms::{NoMemory, UnitParts};
use std::alloc::Global;

/// Makes the frames of units in turn. It keeps what their records say of the units before: the sequence part in force,
/// and the links.
#[derive(Drop)]
pub(crate) struct FrameMaker {
    sequence: SequenceFront,
    links: Links,
    room: FrameRoom,
}

impl FrameMaker {
    /// One that made no frame yet, for pictures of this size in macroblocks.
    pub(crate) fn start(alloc: Global, mb_wide: u16, mb_high: u16) -> Result<FrameMaker, NoMemory>
        ensures { IfOk result (λ maker. MakesFrames (mb_wide * mb_high) maker []) }
    {
        Ok(FrameMaker {
            sequence: SequenceFront::start(alloc)?,
            links: Links {
                last: None,
                older: None,
            },
            room: FrameRoom::start(alloc, mb_wide, mb_high)?,
        })
    }

    /// Makes the sample bytes of the frame of a unit, with its record where it has one.
    pub(crate) fn make(&mut self, coded: &Coded<'_>, unit: &UnitParts<'_>, to: &mut Vec<u8>)
        requires legal { LendsLegal coded.now }
        requires slices { zeros_at_end unit.now.slices.now ≡ 0 }
        requires stands { (u : CodedUnit) × (before : List CodedUnit)
            × MakesFrames (frame_macroblocks coded.now.head.now) self.old (frames_of before)
            × IsLent coded.now u before × Accepts (heads_in before) (lent_unit unit.now) u }
        requires room { length to.old.items ≡ 2 * length coded.now.picture.now.samples }
        ensures made { (u : CodedUnit) (before : List CodedUnit)
            → MakesFrames (frame_macroblocks coded.now.head.now) self.old (frames_of before)
            → IsLent coded.now u before → u.lists ≡ lent_unit unit.now
            → HasMade (frame_macroblocks coded.now.head.now) self.new to.new.items (frames_of before) u }
        ensures length { length to.new.items ≡ length to.old.items }
    {
        let pic = coded.head.pic;
        self.sequence.note(unit.prefix);
        let stream = StreamParts {
            unit: *unit,
            context: self.sequence.bytes(),
            forward: self.links.forward(pic),
            backward: self.links.backward(pic),
        };
        let seal = make_frame(coded, &stream, &mut self.room, to);
        self.links.push(pic, seal);
    }
}
