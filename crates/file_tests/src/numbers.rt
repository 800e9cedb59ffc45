//! `plan_numbers`: contexts that come again after some frames.
ghost use Rattle.std.specs.Prelude.{◌<◌};

use crate::comparison::same;
use plan_numbers::ContextNumbers;
use std::alloc::Global;
use std::process::Abort;
use std::test::Fail;

/// Numbers 40 frames with a context that comes again after so many, and asks each for its own number or for that of the
/// first frame with its context.
fn number_frames(rt: &impl Abort, alloc: Global, period: u8, own: bool) -> Result<(), Fail>
    requires { 0 < period }
{
    let mut numbers = ContextNumbers::start(alloc).map_err(|_| "no memory")?;
    'frames: for i in 0..40 {
        let first = i % period;
        let number = numbers.number(&[first, 7]);
        same(
            rt,
            &(i, period, number[0]),
            &(i, period, if own { i } else { first }),
        );
    }
    Ok(())
}

#[test]
fn a_context_has_its_number_again_within_16_frames(rt: HostRuntime) -> Result<(), Fail> {
    let alloc = rt.alloc();
    number_frames(&rt, alloc, 1, false)?;
    number_frames(&rt, alloc, 16, false)?;
    number_frames(&rt, alloc, 17, true)
}
