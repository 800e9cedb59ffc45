//! `mv_vectors`: vectors worked by hand.
use crate::comparison::same;
use crate::fixtures::MOVED_HEAD;
use mv_bits::BitWindow;
use mv_terms::{Decision, Vector, Why};
use mv_vectors::{Predictors, chroma};
use std::process::Abort;

#[test]
fn a_chroma_vector_is_half_of_that_of_luma_toward_zero(rt: HostRuntime) {
    same(
        &rt,
        &chroma(Vector { x: -3, y: 5 }),
        &Vector { x: -1, y: 2 },
    );
    let farthest = Vector { x: i16::MIN, y: -1 };
    same(&rt, &chroma(farthest), &Vector { x: -16384, y: 0 });
}

/// The forward vectors of the next macroblock of a P picture: one, or two by field motion, of which the second stays 0
/// where it is one.
fn reads_forward(
    rt: &impl Abort,
    predictors: &mut Predictors,
    window: &mut BitWindow<'_>,
    field_motion: bool,
    wanted: [Vector; 2],
) {
    let mut d = Decision {
        field_motion,
        ..Decision::NONE
    };
    let answer = predictors.read(window, &MOVED_HEAD, &mut d, false);
    same(rt, &answer, &Ok(()));
    same(rt, &d.vectors[0], &wanted);
}

#[test]
fn two_deltas_lead_to_one_vector(rt: HostRuntime) {
    // behind a delta of -10 one of -32, and one of 32: both lead from -10 to 22
    for bytes in [[0x0B, 0xC0, 0xCE], [0x0B, 0xC0, 0xC6]] {
        let mut window = BitWindow::new(&bytes);
        let mut predictors = Predictors::new();
        for x in [-10, 22] {
            let wanted = [Vector { x, y: 0 }, Vector::STILL];
            reads_forward(&rt, &mut predictors, &mut window, false, wanted);
        }
    }
}

#[test]
fn field_motion_halves_the_vertical_predictor_and_doubles_the_vector(rt: HostRuntime) {
    // a vertical delta of -5, and then none
    let mut window = BitWindow::new(&[0b1000_1100, 0b1101_1110]);
    let mut predictors = Predictors::new();
    let [first, halved, doubled] = [-5, -3, -6].map(|y| Vector { x: 0, y });
    for (field_motion, wanted) in [
        (false, [first, Vector::STILL]),
        (true, [halved; 2]),
        (false, [doubled, Vector::STILL]),
    ] {
        reads_forward(&rt, &mut predictors, &mut window, field_motion, wanted);
    }
}

#[test]
fn bits_that_no_code_begins_are_refused(rt: HostRuntime) {
    let mut predictors = Predictors::new();
    let mut d = Decision::NONE;
    let answer = predictors.read(&mut BitWindow::new(&[0, 0]), &MOVED_HEAD, &mut d, false);
    same(&rt, &answer, &Err(Why::BadCode));
}
