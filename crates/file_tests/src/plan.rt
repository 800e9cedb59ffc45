//! `plan_window`: a plan by hand, as a window gives it while the frames come.
ghost use Rattle.std.specs.Prelude.{◌≡◌};
ghost use Rattle.plan_window.specs.State.{count_pushed};

use crate::comparison::same;
use mv_terms::PicType;
use plan_window::{AHEAD, Mode, Step, Summary, Window};
use std::process::Abort;
use std::test::Fail;

/// The type of its record, whether it has low delay and whether it uses forward, the bytes of its two links and of its
/// seal, of which 0 forward is none, and the byte of its context.
type Row = (Option<PicType>, bool, bool, [u8; 3], u8);

const NONE: Row = (None, false, false, [0; 3], 0);

#[rattlefmt::skip]
const FRAMES: [Row; 30] = [
    // in front of the first anchor, with its context and with another one
    (Some(PicType::B), false, true, [0, 3, 1], 1),
    (Some(PicType::B), false, true, [0, 3, 2], 2),
    (Some(PicType::I), false, false, [0, 0, 3], 1),
    (Some(PicType::B), false, true, [3, 5, 4], 1),
    // an altered B
    NONE,
    (Some(PicType::P), false, true, [3, 0, 5], 1),
    // links that are no longer right: backward, then forward
    (Some(PicType::B), false, true, [5, 9, 6], 1),
    (Some(PicType::P), false, true, [3, 0, 7], 1),
    // in front of a record with low delay
    (Some(PicType::B), false, true, [7, 9, 8], 1),
    (Some(PicType::P), true, true, [8, 0, 9], 1),
    // 18 frames without an anchor record, of which the last one has a record
    NONE, NONE, NONE, NONE, NONE, NONE, NONE, NONE, NONE,
    NONE, NONE, NONE, NONE, NONE, NONE, NONE, NONE,
    (Some(PicType::B), false, false, [0, 28, 27], 1),
    (Some(PicType::I), false, false, [0, 0, 28], 1),
    // at the end
    (Some(PicType::B), false, true, [28, 40, 29], 1),
];

#[rattlefmt::skip]
const STEPS: [(u64, bool, Mode); 30] = [
    (2, true, Mode::Guided), (0, false, Mode::Guided), (1, false, Mode::Fresh),
    (5, true, Mode::Guided), (3, false, Mode::Guided), (4, false, Mode::Fresh),
    (7, true, Mode::Fresh), (6, false, Mode::Fresh),
    (8, true, Mode::Fresh), (9, true, Mode::Guided), (10, true, Mode::Fresh), (11, true, Mode::Fresh),
    (28, true, Mode::Guided), (12, false, Mode::Fresh), (13, false, Mode::Fresh),
    (14, false, Mode::Fresh), (15, false, Mode::Fresh), (16, false, Mode::Fresh), (17, false, Mode::Fresh),
    (18, false, Mode::Fresh), (19, false, Mode::Fresh), (20, false, Mode::Fresh), (21, false, Mode::Fresh),
    (22, false, Mode::Fresh), (23, false, Mode::Fresh), (24, false, Mode::Fresh), (25, false, Mode::Fresh),
    (26, false, Mode::Fresh), (27, false, Mode::Guided), (29, true, Mode::Fresh),
];

fn summary(row: Row) -> Summary {
    let (kind, low_delay, uses_forward, [forward, backward, seal], context) = row;
    Summary {
        kind,
        low_delay,
        uses_forward,
        forward: if forward == 0 {
            None
        } else {
            Some([forward; 32])
        },
        backward: [backward; 32],
        seal: [seal; 32],
        context: [context; 32],
    }
}

/// The steps that the window gives are those from this one on. The answer is the next one behind them.
fn compare(rt: &impl Abort, window: &mut Window, from: usize) -> usize
    ensures count { count_pushed window.new ≡ count_pushed window.old }
    ensures closed { window.new.closed ≡ window.old.closed }
{
    for at in from..STEPS.len() {
        let Some(step) = window.plan_next() else {
            return at;
        };
        let (frame, anchor, mode) = STEPS[at];
        assert_eq!(rt;
            step,
            Step {
                frame,
                anchor,
                mode
            }
        );
    }
    STEPS.len()
}

#[test]
fn the_plan_is_given_as_frames_come(rt: HostRuntime) -> Result<(), Fail> {
    let mut window = Window::start(rt.alloc())?;
    let mut at = 0;
    for i in 0..FRAMES.len() {
        assert!(rt; window.len() <= AHEAD);
        window.push(summary(FRAMES[i]));
        at = compare(&rt, &mut window, at);
        same(&rt, &(i, at > 0), &(i, i >= AHEAD));
    }
    same(&rt, &at, &15);
    window.close();
    same(&rt, &compare(&rt, &mut window, at), &30);
    same(&rt, &window.plan_next(), &None);
    Ok(())
}
