//! The state of coding pictures, one behind the other, and what is written of each.
ghost use Rattle.std.specs.Prelude.{◌≡◌, ◌≤◌, ◌*◌, List, [], ◌∷◌, ℕ, IfOk, option_map, vec_len};
ghost use Rattle.mv_terms.specs.declared.frame_header.FrameHeader.{FrameHeader};
ghost use Rattle.mv_terms.specs.PicTypes.{is_anchor};
ghost use Rattle.mv_terms.specs.Ranges.{IsFrameHeader, IsScaleCode};
ghost use Rattle.mv_bits.specs.Receivers.{KeepsFirst};
ghost use Rattle.mv_ends.specs.Sends.{Sends};
ghost use Rattle.rec_reader.specs.Lent.{lent_found};
ghost use Rattle.enc_guided.specs.Recoded.{CodedStep, ending_of, fresh_picture, guided_picture};
ghost use Rattle.enc_guided.specs.Stands.{HasCoded, MayBeFresh, MayBeGuided, lent_part};

use crate::front::Anchor;
use crate::part::{Part, context_under, is_sent_before, own_part};
use enc_fresh::default_context;
use enc_glue::send_zeros;
use mv_bits::Room;
use mv_ends::{Failed, Sink, send};
use mv_heads::write_context;
use mv_planes::Picture;
use mv_store::RefStore;
use mv_terms::{Context, Decision, FrameHeader, MacroLevels, NoMemory, PicType};
use plan_window::{Mode, Step};
use rec_legal::coded_law;
use rec_reader::Found;
use std::alloc::Global;

/// Codes pictures of one size, one behind the other, from source pictures: by records, and anew.
#[derive(Drop)]
pub struct PictureCoder {
    pub(crate) header: FrameHeader,
    /// The quantiser scale code of fresh pictures.
    pub(crate) scale: u8,
    /// The sequence part that a picture without one of its own is read under: that of the last anchor, or before the first
    /// one the default one.
    pub(crate) part: Room,
    pub(crate) context: Context,
    pub(crate) store: RefStore,
    /// The type of the picture that was coded last.
    pub(crate) pic: PicType,
    pub(crate) decisions: Vec<Decision>,
    pub(crate) levels: Vec<MacroLevels>,
    /// The prefix and the head of a fresh picture.
    pub(crate) front: Room,
    pub(crate) slices: Room,
    /// How many pictures were coded.
    pub(crate) count: u64,
    /// The anchor that was coded last.
    pub(crate) anchor: Option<Anchor>,
    /// How many zero bytes stand behind the end code of the last picture, where its record has one.
    pub(crate) end: Option<u64>,
}

/// A sequence part has at most so many bytes.
const PART_ROOM: usize = 65_536;

/// A group of pictures header and a picture's head.
const FRONT_ROOM: usize = 26;

/// The slices of a picture have fewer bytes for each macroblock.
const SLICES_ROOM: usize = 1200;

impl PictureCoder {
    /// A coder that has coded no picture of a file with this header. Fresh pictures have this quantiser scale code. It takes
    /// all memory that it needs.
    pub fn start(alloc: Global, header: &FrameHeader, scale: u8) -> Result<PictureCoder, NoMemory>
        requires header { IsFrameHeader header.now }
        requires scale { IsScaleCode scale }
        ensures { IfOk result (λ coder. HasCoded coder header.now scale []) }
    {
        let context = default_context(header);
        let count = usize::from(context.mb_wide) * usize::from(context.mb_high);
        let (decisions, levels) = macroblock_lists(alloc, count)?;
        let (front, slices) = picture_rooms(alloc, count)?;
        let mut part = empty_room(alloc, PART_ROOM)?;
        write_context(&context, &mut part);
        Ok(PictureCoder {
            header: *header,
            scale,
            part,
            context,
            store: RefStore::start(alloc, context.mb_wide, context.mb_high)?,
            pic: PicType::I,
            decisions,
            levels,
            front,
            slices,
            count: 0,
            anchor: None,
            end: None,
        })
    }

    /// Codes the picture of a frame by a record, whose levels are those nearest to the source, and writes what it has in the
    /// stream. It has coded the picture even where writing failed.
    pub fn guided<O: Sink>(
        &mut self,
        frame: u64,
        guide: &Found<'_>,
        source: &Picture,
        out: &mut O,
    ) -> Result<(), Failed>
        requires { (header : FrameHeader) × (scale : ℕ) × (before : List CodedStep)
            × HasCoded self.old header scale before
            × MayBeGuided header before (lent_found guide.now) source.now }
        ensures codes { (header : FrameHeader) (scale : ℕ) (before : List CodedStep)
            → HasCoded self.old header scale before
            → MayBeGuided header before (lent_found guide.now) source.now
            → HasCoded self.new header scale
            (guided_picture header frame (lent_found guide.now) source.now before ∷ before) }
        ensures sends { (header : FrameHeader) (scale : ℕ) (before : List CodedStep)
            → HasCoded self.old header scale before
            → MayBeGuided header before (lent_found guide.now) source.now
            → Sends (O.told out.old) (O.told out.new)
            (guided_picture header frame (lent_found guide.now) source.now before).bytes result }
    {
        // for the proof: what legal decisions say can be reconstructed
        coded_law();
        let step = Step {
            frame,
            anchor: is_anchor(guide.record.sheet.pic),
            mode: Mode::Guided,
        };
        let changes = self.bring_into_force(&step, &own_part(&Some(*guide)));
        let repeats = is_sent_before(changes, guide.record.sheet.prefix);
        self.code_guided(&step, guide, source);
        self.send_guided(repeats, &guide.record.sheet, out)
    }

    /// Codes the picture of a frame anew, as an anchor or as a B, under its own sequence part or the one in force, and writes
    /// what it has in the stream. It has coded the picture even where writing failed.
    pub fn fresh<O: Sink>(
        &mut self,
        frame: u64,
        anchor: bool,
        own: Option<Part<'_>>,
        source: &Picture,
        out: &mut O,
    ) -> Result<(), Failed>
        requires { (header : FrameHeader) × (scale : ℕ) × (before : List CodedStep)
            × HasCoded self.old header scale before
            × MayBeFresh header before frame anchor (option_map lent_part own) source.now }
        ensures codes { (header : FrameHeader) (scale : ℕ) (before : List CodedStep)
            → HasCoded self.old header scale before
            → MayBeFresh header before frame anchor (option_map lent_part own.entry) source.now
            → HasCoded self.new header scale
            (fresh_picture header scale frame anchor (option_map lent_part own.entry) source.now before
            ∷ before) }
        ensures sends { (header : FrameHeader) (scale : ℕ) (before : List CodedStep)
            → HasCoded self.old header scale before
            → MayBeFresh header before frame anchor (option_map lent_part own.entry) source.now
            → Sends (O.told out.old) (O.told out.new)
            (fresh_picture header scale frame anchor (option_map lent_part own.entry) source.now
            before).bytes result }
    {
        let step = Step {
            frame,
            anchor,
            mode: Mode::Fresh,
        };
        let repeats = self.bring_into_force(&step, &own);
        let context = context_under(&own, &self.context);
        self.code_fresh(&step, &context, source);
        self.send_fresh(repeats, out)
    }

    /// Writes what stands behind the last picture: its end code with the zero bytes behind it, where its record has one.
    pub fn finish<O: Sink>(&self, out: &mut O) -> Result<(), Failed>
        requires { (header : FrameHeader) × (scale : ℕ) × (steps : List CodedStep)
            × HasCoded self.now header scale steps }
        ensures { (header : FrameHeader) (scale : ℕ) (steps : List CodedStep)
            → HasCoded self.now header scale steps
            → Sends (O.told out.old) (O.told out.new) (ending_of steps) result }
    {
        match self.end {
            None => Ok(()),
            Some(zeros) => {
                send(out, &END_CODE)?;
                send_zeros(zeros, out)
            }
        }
    }

    /// What the last picture decodes to.
    pub fn picture(&self) -> &Picture
        ensures { (header : FrameHeader) (scale : ℕ) (s : CodedStep) (before : List CodedStep)
            → HasCoded self.now header scale (s ∷ before) → result.now ≡ s.decoded.picture }
    {
        self.store.last(self.pic).picture
    }
}

fn is_anchor(pic: PicType) -> bool
    ensures { result ≡ is_anchor pic }
{
    !matches!(pic, PicType::B)
}

/// The decisions and the levels of so many macroblocks.
fn macroblock_lists(
    alloc: Global,
    count: usize,
) -> Result<(Vec<Decision>, Vec<MacroLevels>), NoMemory>
    ensures { IfOk result (λ lists. (vec_len lists.0 ≡ count) × (vec_len lists.1 ≡ count)) }
{
    let decisions = vec![in alloc; Decision::NONE; count].map_err(|_| NoMemory)?;
    let levels = vec![in alloc; MacroLevels::NONE; count].map_err(|_| NoMemory)?;
    Ok((decisions, levels))
}

/// Room for the front and for the slices of a picture of so many macroblocks.
fn picture_rooms(alloc: Global, count: usize) -> Result<(Room, Room), NoMemory>
    requires { count ≤ 65536 }
    ensures { IfOk result (λ rooms. KeepsFirst rooms.0 26 []
        × KeepsFirst rooms.1 (1200 * count) []) }
{
    let front = empty_room(alloc, FRONT_ROOM)?;
    let slices = empty_room(alloc, SLICES_ROOM * count)?;
    Ok((front, slices))
}

/// Room for so many bytes.
fn empty_room(alloc: Global, bytes: usize) -> Result<Room, NoMemory>
    ensures { IfOk result (λ room. KeepsFirst room bytes []) }
{
    Room::take(alloc, bytes).map_err(|_| NoMemory)
}

/// `sequence_end_code` (H.262, 6.2.1).
const END_CODE: [u8; 4] = [0, 0, 1, 0xB7];
