//! Where in a picture the samples lie that a block is predicted from.
ghost use Rattle.std.specs.Prelude.{◌≡◌, ℕ, ◌+◌, ◌*◌, ◌/◌, ◌%◌, ◌^◌, ◌<◌, ◌≤◌, length, pos, unsigned_abs, ◌+ℤ◌, ◌≤ℤ◌, ◌&&◌};
ghost use Rattle.mv_vectors.specs.Inside.{whole_samples, half_sample};
ghost use Rattle.mv_predict.specs.Steps.{IsReadable};
ghost use Rattle.mv_predict.specs.Prediction.{moved, line_in, vector_in, has_direction, source_of};
ghost use Rattle.mv_predict.specs.Steps.{source_given, lines_at, apart_in, distance, half_left, AreInside, SourcesInside};

use crate::kernel::Lines;
use mv_planes::{Part, Picture, Plane};
use mv_terms::{Decision, Vector};
use mv_vectors::chroma;

/// Where the prediction of a place comes from.
#[derive(Clone, Copy)]
pub(crate) struct Source {
    /// The lines of one field, the bottom one where that is true; else those of the frame.
    pub(crate) field: Option<bool>,
    /// The luma vector.
    pub(crate) vector: Vector,
    /// The place's own line among these lines.
    pub(crate) line: usize,
}

/// The source in direction s for line y of a frame.
#[tactic(auto, unfolding(crate::specs::Prediction::source_of))]
pub(crate) fn source_of(d: &Decision, s: usize, y: usize) -> Source
    requires { s < 2 }
    ensures value { source_given result ≡ source_of d.now s y }
    ensures line { result.line ≤ y }
{
    let has_direction = if s == 0 { d.forward } else { d.backward };
    if !has_direction {
        Source {
            field: None,
            vector: Vector::STILL,
            line: y,
        }
    } else if d.field_motion {
        Source {
            field: Some(d.selects[s][y % 2]),
            vector: d.vectors[s][y % 2],
            line: y / 2,
        }
    } else {
        Source {
            field: None,
            vector: d.vectors[s][0],
            line: y,
        }
    }
}

/// The lines of every other row of a block.
pub(crate) fn lines_at(pic: &Picture, plane: Plane, x: usize, source: Source, step: usize) -> Lines
    requires step { step ≤ 2 }
    requires small { (x < 2 ^ 22) × (source.line < 2 ^ 22) }
    requires inside { AreInside pic.now plane x (source_given source) step }
    ensures value { result ≡ lines_at pic.now plane x (source_given source) step }
    ensures readable { IsReadable pic.now.samples result }
{
    // for the proof: the picture is whole
    let _wide = pic.mb_wide();
    places_at(pic, plane, x, source, step)
}

// The same lines.
fn places_at(pic: &Picture, plane: Plane, x: usize, source: Source, step: usize) -> Lines
    requires step { step ≤ 2 }
    requires small { (x < 2 ^ 22) × (source.line < 2 ^ 22) }
    requires inside { AreInside pic.now plane x (source_given source) step }
    ensures { result ≡ lines_at pic.now plane x (source_given source) step }
{
    let v = vector_in(plane, source.vector);
    let across = moved(x, v.x);
    let down = moved(source.line, v.y);
    Lines {
        at: pic.place(plane, across, line_in(source.field, down)),
        apart: apart_in(pic, plane),
        stride: 2 * step * pic.width(plane),
        right: half_left(v.x),
        down: half_left(v.y) * distance(pic, plane, source.field),
    }
}

/// The lines of the rows between those of `even`, a step further on.
pub(crate) fn odd_lines(pic: &Picture, part: Part, d: &Decision, s: usize, even: &Lines) -> Lines
    requires step { part.step ≤ 2 }
    requires small { (part.x < 2 ^ 21) × (part.y < 2 ^ 21) }
    requires s { s < 2 }
    requires inside { SourcesInside pic.now d.now s part }
    requires even { even.now
        ≡ lines_at pic.now part.plane part.x (source_of d.now s part.y) part.step }
    requires readable { IsReadable pic.now.samples even.now }
    ensures value { result
        ≡ lines_at pic.now part.plane part.x (source_of d.now s (part.y + part.step)) part.step }
    ensures readable { IsReadable pic.now.samples result }
{
    // for the proof: the picture is whole
    let _wide = pic.mb_wide();
    odd_places(pic, part, d, s, even)
}

// The same lines. By frame prediction they differ from the even ones in their place alone.
fn odd_places(pic: &Picture, part: Part, d: &Decision, s: usize, even: &Lines) -> Lines
    requires step { part.step ≤ 2 }
    requires small { (part.x < 2 ^ 21) × (part.y < 2 ^ 21) }
    requires s { s < 2 }
    requires inside { SourcesInside pic.now d.now s part }
    requires even { even.now
        ≡ lines_at pic.now part.plane part.x (source_of d.now s part.y) part.step }
    requires readable { IsReadable pic.now.samples even.now }
    ensures { result
        ≡ lines_at pic.now part.plane part.x (source_of d.now s (part.y + part.step)) part.step }
{
    // for the proof: the list is short
    let _samples = pic.samples();
    if has_fields(d, s) {
        let source = source_of(d, s, part.y + part.step);
        places_at(pic, part.plane, part.x, source, part.step)
    } else {
        Lines {
            at: even.at + even.stride / 2,
            ..*even
        }
    }
}

// Whether direction s has vectors for fields.
fn has_fields(d: &Decision, s: usize) -> bool
    requires { s < 2 }
    ensures { result ≡ (has_direction d.now s && d.now.field_motion) }
{
    let has_direction = if s == 0 { d.forward } else { d.backward };
    has_direction && d.field_motion
}

fn vector_in(plane: Plane, v: Vector) -> Vector
    ensures { result ≡ vector_in plane v }
{
    match plane {
        Plane::Y => v,
        Plane::Cb | Plane::Cr => chroma(v),
    }
}

fn line_in(field: Option<bool>, y: usize) -> usize
    requires { y < 2 ^ 30 }
    ensures { result ≡ line_in field y }
{
    match field {
        None => y,
        Some(bottom) => 2 * y + usize::from(bottom),
    }
}

fn apart_in(pic: &Picture, plane: Plane) -> usize
    ensures { result ≡ apart_in pic.now plane }
{
    match plane {
        Plane::Y => 8,
        Plane::Cb => 64 * (usize::from(pic.mb_wide()) * usize::from(pic.mb_high())),
        Plane::Cr => 0,
    }
}

fn distance(pic: &Picture, plane: Plane, field: Option<bool>) -> usize
    ensures value { result ≡ distance pic.now plane field }
    ensures small { result < 2 ^ 21 }
{
    match field {
        None => pic.width(plane),
        Some(_) => 2 * pic.width(plane),
    }
}

// A place moved by the whole samples of a component.
fn moved(at: usize, component: i16) -> usize
    requires small { at < 2 ^ 22 }
    requires first { pos 0 ≤ℤ (pos at +ℤ whole_samples component) }
    ensures value { result ≡ moved at component }
    ensures small { result < 2 ^ 23 }
{
    (at as i32 + i32::from(component.div_euclid(2))) as usize
}

// The half sample that may be left.
fn half_left(component: i16) -> usize
    ensures value { result ≡ half_left component }
    ensures small { result ≤ 1 }
{
    component.rem_euclid(2) as usize
}
