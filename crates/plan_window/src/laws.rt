//! What follows from what a window stands for.
ghost use Rattle.std.specs.Prelude.{◌≡◌};
ghost use Rattle.plan_window.specs.Plan.{ahead};
ghost use Rattle.plan_window.specs.PlanLaws.{OfWindows, BeginPlan, ArePlan, AreHeldFromOpen, AreCounted};
ghost use Rattle.plan_window.specs.Fits.{PlanFits, PlanStandsInOrder, PlanRefersToNearest, PlanIsShownInOrder, StepsAreShownInOrder, LastStepFits, AreShownInOrder};
ghost use Rattle.plan_window.specs.Numbers.{NumbersServe, NumbersAreAdded, NumbersBegin};

use crate::window::AHEAD;

/// The steps that a window gave are the first ones of the plan of all summaries that are ever pushed, and all of them
/// where nothing is held any more. Those held are the summaries from the first frame without a step on.
pub fn plan_law()
    ensures ahead { AHEAD ≡ ahead }
    ensures begins { OfWindows BeginPlan }
    ensures whole { OfWindows ArePlan }
    ensures held { OfWindows AreHeldFromOpen }
    ensures counted { OfWindows AreCounted }
{}

/// Each step of the plan fits behind the steps before it: it refers to the nearest anchors of the plan, these were coded
/// before it, and it is coded by its record exactly where that names them. What the steps show are the frames in their
/// order. The same holds of the steps that a window gives.
pub fn steps_law()
    ensures fits { PlanFits }
    ensures order { PlanStandsInOrder }
    ensures refers { PlanRefersToNearest }
    ensures shown { PlanIsShownInOrder }
    ensures shown_first { StepsAreShownInOrder }
    ensures given_fits { OfWindows LastStepFits }
    ensures given_shown { OfWindows AreShownInOrder }
{}

/// The plan is the same where each context is a number, if two frames that are at most 16 apart have the same number
/// exactly where they have the same context; and whether that holds is seen frame by frame. So the steps
/// that a window of numbers gives are the first ones of the plan over the contexts.
pub fn numbers_law()
    ensures serve { NumbersServe }
    ensures added { NumbersAreAdded }
    ensures begins { NumbersBegin }
{}
