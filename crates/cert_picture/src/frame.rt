//! The frame of a unit.
ghost use Rattle.std.specs.Prelude.{◌≡◌, ℕ, ◌*◌, ◌≤◌, ◌++◌, List, length, IfOk};
ghost use Rattle.sha2.specs.Sha256.{sha256};
ghost use Rattle.mv_bits.specs.Zeros.{zeros_at_end};
ghost use Rattle.mv_terms.specs.CodedPicture.{frame_macroblocks};
ghost use Rattle.mv_terms.specs.Ranges.{IsHead};
ghost use Rattle.mv_planes.specs.References.{references_lent};
ghost use Rattle.mv_predict.specs.Blocks.{HasSizeOf};
ghost use Rattle.mv_recon.specs.Pictures.{picture_from};
ghost use Rattle.mv_slices.specs.Slices.{Slices};
ghost use Rattle.rec_bury.specs.Buried.{frame_of};
ghost use Rattle.cert_picture.specs.Certifying.{coded_lent};
ghost use Rattle.cert_picture.specs.Lent.{lent_parts, HasRoomFor};
ghost use Rattle.cert_picture.specs.Records.{frame_samples, frame_seal, no_seal, returns_slices};

use crate::certify_decoded;
use crate::record::{put, write_record};
use crate::recorded::is_recordable;
use mv_planes::{Coded, Picture};
use mv_terms::{NoMemory, UnitParts};
use rec_bury::{bury, bury_law, seal, write_unrecorded};
use std::alloc::Global;

/// What a record says of the stream around its picture.
#[derive(Clone, Copy, Debug)]
pub struct StreamParts<'a> {
    /// The unit of the picture.
    pub unit: UnitParts<'a>,
    /// The sequence header in force, with its extensions.
    pub context: &'a [u8],
    /// The seal of the frame that the picture refers to forward, zeros if that frame has no record; None where there is
    /// no such frame.
    pub forward: Option<[u8; 32]>,
    /// The same of the frame that it refers to backward.
    pub backward: Option<[u8; 32]>,
}

/// Room for the frames of pictures of one size: for the slots and the sheet of a record.
#[derive(Drop)]
pub struct FrameRoom {
    slots: Vec<u8>,
    sheet: Vec<u8>,
}

impl FrameRoom {
    /// Room for pictures of this size in macroblocks. It takes 32 bytes for each of them.
    pub fn start(alloc: Global, mb_wide: u16, mb_high: u16) -> Result<FrameRoom, NoMemory>
        ensures { IfOk result (HasRoomFor (mb_wide * mb_high)) }
    {
        let count = usize::from(mb_wide) * usize::from(mb_high);
        let slots = vec![in alloc; 0; 20 * count].map_err(|_| NoMemory)?;
        let sheet = vec![in alloc; 0; 12 * count].map_err(|_| NoMemory)?;
        Ok(FrameRoom { slots, sheet })
    }
}

/// Makes the sample bytes of the frame of a decoded picture, and answers their seal. A picture that has a record has it
/// in the low bits of its chroma samples; any other has zeros there, and no seal. `to` has two bytes for each sample of
/// the picture. What stood in `to` and in the room before has no effect.
pub fn make_frame(
    coded: &Coded<'_>,
    stream: &StreamParts<'_>,
    room: &mut FrameRoom,
    to: &mut Vec<u8>,
) -> Option<[u8; 32]>
    requires head { IsHead coded.now.head.now }
    requires coded { Slices coded.now.head.now stream.now.unit.slices.now
        coded.now.decisions.now coded.now.levels.now }
    requires decoded { coded.now.picture.now ≡
        picture_from (references_lent coded.now.refs) (coded_lent coded.now) }
    requires forward { HasSizeOf coded.now.head.now coded.now.refs.forward.now }
    requires backward { HasSizeOf coded.now.head.now coded.now.refs.backward.now }
    requires slices { zeros_at_end stream.now.unit.slices.now ≡ 0 }
    requires room { HasRoomFor (frame_macroblocks coded.now.head.now) room.old }
    requires frame { length to.old.items ≡ 2 * length coded.now.picture.now.samples }
    ensures frame { to.new.items ≡ frame_samples (lent_parts coded.now stream.now) }
    ensures seal { result ≡ frame_seal (lent_parts coded.now stream.now) }
    ensures room { HasRoomFor (frame_macroblocks coded.now.head.now) room.new }
    ensures length { length to.new.items ≡ length to.old.items }
{
    if !is_recordable(coded, stream) {
        write_unrecorded(coded.picture, to);
        return None;
    }
    let certified = returns_slices(coded, stream);
    write_record(coded, stream, certified, &mut room.slots, &mut room.sheet);
    Some(bury_sealed(coded.picture, &room.slots, &mut room.sheet, to))
}

/// Whether the slices come back.
fn returns_slices(coded: &Coded<'_>, stream: &StreamParts<'_>) -> bool
    requires head { IsHead coded.now.head.now }
    requires coded { Slices coded.now.head.now stream.now.unit.slices.now
        coded.now.decisions.now coded.now.levels.now }
    requires decoded { coded.now.picture.now ≡
        picture_from (references_lent coded.now.refs) (coded_lent coded.now) }
    requires forward { HasSizeOf coded.now.head.now coded.now.refs.forward.now }
    requires backward { HasSizeOf coded.now.head.now coded.now.refs.backward.now }
    requires slices { zeros_at_end stream.now.unit.slices.now ≡ 0 }
    ensures { result ≡ returns_slices (lent_parts coded.now stream.now) }
{
    certify_decoded(coded, stream.unit.slices, stream.unit.zeros)
}

/// Buries slots and a sheet that ends with zeros, and then again with the seal of that frame in their place. Answers
/// the seal.
fn bury_sealed(picture: &Picture, slots: &[u8], sheet: &mut Vec<u8>, to: &mut Vec<u8>) -> [u8; 32]
    requires slots { length slots.now ≡ 20 * (picture.now.mb_wide * picture.now.mb_high) }
    requires sheet { length sheet.old.items ≡ 12 * (picture.now.mb_wide * picture.now.mb_high) }
    requires seal { 32 ≤ length sheet.old.items }
    requires room { length to.old.items ≡ 2 * length picture.now.samples }
    ensures seal { (body : List ℕ) → sheet.old.items ≡ body ++ no_seal
        → result ≡ sha256 (frame_of picture.now slots.now (body ++ no_seal)) }
    ensures frame { (body : List ℕ) → sheet.old.items ≡ body ++ no_seal
        → to.new.items ≡ frame_of picture.now slots.now (body ++ result) }
    ensures size { length sheet.new.items ≡ length sheet.old.items }
    ensures length { length to.new.items ≡ length to.old.items }
{
    // for the proof: the seal of a frame is that of the frame with zeros in its place
    bury_law();
    bury_into(picture, slots, sheet, to);
    let digest = seal(to, picture.mb_wide(), picture.mb_high());
    let end = sheet.len() - 32;
    put(sheet, end, &digest);
    bury_into(picture, slots, sheet, to);
    digest
}

/// Buries slots and a sheet.
fn bury_into(picture: &Picture, slots: &[u8], sheet: &[u8], to: &mut Vec<u8>)
    requires slots { length slots.now ≡ 20 * (picture.now.mb_wide * picture.now.mb_high) }
    requires sheet { length sheet.now ≡ 12 * (picture.now.mb_wide * picture.now.mb_high) }
    requires room { length to.old.items ≡ 2 * length picture.now.samples }
    ensures value { to.new.items ≡ frame_of picture.now slots.now sheet.now }
    ensures size { length to.new.items ≡ length to.old.items }
{
    bury(picture, slots, sheet, to);
}
