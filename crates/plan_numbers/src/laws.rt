//! What numbers are worth.
ghost use Rattle.plan_numbers.specs.Numbered.{NumbersPlan};
ghost use Rattle.plan_numbers.specs.Stands.{NumbersAgree};

/// Of two frames at most 16 apart the numbers are equal exactly where the contexts are; so summaries with these
/// numbers serve in place of those with the contexts.
pub fn numbered_law()
    ensures agree { NumbersAgree }
    ensures plan { NumbersPlan }
{}
