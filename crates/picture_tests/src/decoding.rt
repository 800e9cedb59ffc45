//! `mv_decode`: streams of pictures of one macroblock, whose luma samples are all the same.
ghost use Rattle.std.specs.Prelude.{IsTrue};
ghost use Rattle.mv_bits.specs.Elements.{are_elements};

use crate::comparison::same;
use mv_bits::has_no_front;
use mv_decode::{Decoder, first_context};
use mv_planes::Picture;
use mv_store::Shown;
use mv_terms::PicType::{self, B, I, P};
use mv_terms::{UnitParts, Why};
use std::alloc::Global;
use std::marker::Model;
use std::process::Abort;
use std::test::Fail;

/// What stands before the head of a picture.
#[derive(Clone, Copy)]
enum Prefix {
    Nothing,
    /// The sequence header and extension of a progressive stream of 16x16 samples.
    Sequence,
    /// The same with `low_delay`.
    LowDelay,
    /// The same for 32x16 samples.
    Wider,
}

/// The one slice of a picture.
#[derive(Clone, Copy)]
enum Slice {
    /// Of an I picture whose luma samples are 130.
    Is130,
    /// Of a P picture whose luma samples are 140.
    Is140,
    /// Of a P picture that is its reference.
    Same,
    /// Of a B picture that is its forward reference, its backward reference, and the mean of both.
    Forward,
    Backward,
    Mean,
    /// Of another row.
    Lower,
}

use Prefix::{LowDelay, Nothing, Sequence, Wider};
use Slice::{Backward, Forward, Is130, Is140, Lower, Mean, Same};

fn prefix_of(prefix: Prefix) -> &'static [u8] {
    match prefix {
        Nothing => b"",
        Sequence => {
            b"\x00\x00\x01\xB3\x01\x00\x10\x13\xFF\xFF\xE3\x80\x00\x00\x01\xB5\x14\x8A\x00\x01\x00\x00"
        }
        LowDelay => {
            b"\x00\x00\x01\xB3\x01\x00\x10\x13\xFF\xFF\xE3\x80\x00\x00\x01\xB5\x14\x8A\x00\x01\x00\x80"
        }
        Wider => {
            b"\x00\x00\x01\xB3\x02\x00\x10\x13\xFF\xFF\xE3\x80\x00\x00\x01\xB5\x14\x8A\x00\x01\x00\x00"
        }
    }
}

fn head_of(pic: PicType) -> &'static [u8] {
    match pic {
        I => b"\x00\x00\x01\x00\x00\x0F\xFF\xF8\x00\x00\x01\xB5\x8F\xFF\xF3\x41\x80",
        P => b"\x00\x00\x01\x00\x00\x57\xFF\xFB\x80\x00\x00\x01\xB5\x81\x1F\xF3\x41\x80",
        B => b"\x00\x00\x01\x00\x00\x9F\xFF\xFB\xB8\x00\x00\x01\xB5\x81\x11\x13\x41\x80",
    }
}

fn slices_of(slice: Slice) -> &'static [u8] {
    match slice {
        Is130 => b"\x00\x00\x01\x01\x43\x6A\x52\x91\x10",
        Is140 => b"\x00\x00\x01\x01\x42\x3D\x94\xA5\x22\x20",
        Same => b"\x00\x00\x01\x01\x42\x70",
        Forward => b"\x00\x00\x01\x01\x42\x58",
        Backward => b"\x00\x00\x01\x01\x42\xB0",
        Mean => b"\x00\x00\x01\x01\x43\x78",
        Lower => b"\x00\x00\x01\x02\x42\x58",
    }
}

/// Such a unit. The start code of its slice stands in front.
fn unit(rt: &impl Abort, prefix: Prefix, pic: PicType, slice: Slice) -> UnitParts<'static>
    ensures { IsTrue (are_elements result.slices.now) }
{
    let slices = slices_of(slice);
    assert!(rt; has_no_front(slices));
    UnitParts {
        prefix: prefix_of(prefix),
        head: head_of(pic),
        slices,
        zeros: 0,
        end: None,
    }
}

/// A decoder that has accepted the first unit of a stream.
#[derive(Drop)]
struct Stream {
    decoder: Decoder,
}

impl Model for Stream {
    ghost use Rattle.mv_decode.specs.declared.decoder.Decoder.{Decoder};
    ghost use Rattle.mv_decode.specs.Steps.{IsBehindFirst};

    ghost Value = { Decoder };

    ghost view = { λ s. s.decoder };

    ghost inverse = { λ decoder. record { decoder = decoder } };

    ghost invariant = { λ s. IsBehindFirst s.decoder };
}

impl Stream {
    /// Behind an I picture whose luma samples are 130.
    fn start(rt: &impl Abort, alloc: Global) -> Result<Stream, Fail> {
        let first = unit(rt, Sequence, I, Is130);
        let Ok(context) = first_context(&first) else {
            return Err("refused headers")?;
        };
        let mut decoder = Decoder::start(alloc, &context)?;
        match decoder.unit(&first) {
            Ok(_) => Ok(Stream { decoder }),
            Err(_) => Err("a refused unit")?,
        }
    }

    fn next(
        &mut self,
        rt: &impl Abort,
        prefix: Prefix,
        pic: PicType,
        slice: Slice,
    ) -> Result<Shown, Why> {
        self.decoder.unit(&unit(rt, prefix, pic, slice))
    }

    /// Decodes a picture that no sequence part stands before.
    fn show(&mut self, rt: &impl Abort, pic: PicType, slice: Slice, shown: Shown) {
        assert_eq!(rt; self.next(rt, Nothing, pic, slice), Ok(shown));
    }

    /// This unit is refused.
    fn refuse(&mut self, rt: &impl Abort, prefix: Prefix, pic: PicType, slice: Slice, why: Why) {
        assert_eq!(rt; self.next(rt, prefix, pic, slice), Err(why));
    }

    /// Decodes an anchor that this stands before, and the anchor before it is shown.
    fn show_previous(&mut self, rt: &impl Abort, prefix: Prefix, pic: PicType, slice: Slice) {
        assert_eq!(rt; self.next(rt, prefix, pic, slice), Ok(Shown::Previous));
    }

    /// The luma of the picture decoded last, and of its forward and backward references.
    fn is_at(&self, rt: &impl Abort, picture: u8, forward: u8, backward: u8) {
        let coded = self.decoder.coded();
        let last = [coded.picture, coded.refs.forward, coded.refs.backward];
        assert_eq!(rt; last.map(luma_of), [picture, forward, backward]);
    }
}

fn luma_of(picture: &Picture) -> u8 {
    picture.samples().first().copied().unwrap_or(0)
}

#[test]
fn pictures_refer_to_the_anchors_before_them(rt: HostRuntime) -> Result<(), Fail> {
    let mut stream = Stream::start(&rt, rt.alloc())?;
    stream.is_at(&rt, 130, 128, 128);
    // before the first anchor stands a grey one
    stream.show(&rt, B, Mean, Shown::Current);
    stream.is_at(&rt, 129, 128, 130);
    stream.show(&rt, P, Is140, Shown::Previous);
    stream.is_at(&rt, 140, 130, 128);
    stream.show(&rt, B, Forward, Shown::Current);
    stream.is_at(&rt, 130, 130, 140);
    stream.show(&rt, B, Backward, Shown::Current);
    stream.is_at(&rt, 140, 130, 140);
    stream.show(&rt, P, Same, Shown::Previous);
    stream.is_at(&rt, 140, 140, 130);
    Ok(())
}

#[test]
fn a_refused_unit_leaves_references_context_and_count(rt: HostRuntime) -> Result<(), Fail> {
    let mut stream = Stream::start(&rt, rt.alloc())?;
    stream.show(&rt, P, Is140, Shown::Previous);
    for _ in 0..15 {
        stream.show(&rt, B, Forward, Shown::Current);
    }
    for pic in [I, P, B] {
        stream.refuse(&rt, Nothing, pic, Lower, Why::BadSlice);
    }
    stream.refuse(&rt, LowDelay, I, Lower, Why::BadSlice);
    stream.refuse(&rt, Wider, I, Is130, Why::SizeChanged);
    // it is the sixteenth B picture, and low_delay is 0
    stream.show(&rt, B, Mean, Shown::Current);
    stream.is_at(&rt, 135, 130, 140);
    stream.refuse(&rt, Nothing, B, Mean, Why::BadOrder);
    stream.show(&rt, P, Same, Shown::Previous);
    stream.show(&rt, B, Mean, Shown::Current);
    stream.is_at(&rt, 140, 140, 140);
    Ok(())
}

#[test]
fn b_pictures_come_without_a_sequence_part_and_low_delay(rt: HostRuntime) -> Result<(), Fail> {
    let mut stream = Stream::start(&rt, rt.alloc())?;
    stream.refuse(&rt, Sequence, B, Mean, Why::BadOrder);
    stream.show(&rt, B, Mean, Shown::Current);
    stream.show_previous(&rt, LowDelay, I, Is130);
    stream.refuse(&rt, Nothing, B, Mean, Why::BadOrder);
    stream.show_previous(&rt, Sequence, P, Is140);
    stream.show(&rt, B, Mean, Shown::Current);
    stream.is_at(&rt, 135, 130, 140);
    Ok(())
}

#[test]
fn the_first_unit_has_a_sequence_part_and_no_b_picture(rt: HostRuntime) -> Result<(), Fail> {
    let context = first_context(&unit(&rt, Sequence, I, Is130));
    let context = context.ok().ok_or("refused headers")?;
    same(&rt, &(context.mb_wide, context.mb_high), &(1, 1));
    let refused = Err(Why::BadOrder);
    same(&rt, &first_context(&unit(&rt, Nothing, I, Is130)), &refused);
    same(&rt, &first_context(&unit(&rt, Sequence, B, Mean)), &refused);
    Ok(())
}
