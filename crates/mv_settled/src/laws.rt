//! The law of settled decisions, for crates above.
ghost use Rattle.mv_settled.specs.Settling.{SettlingKeepsPicture};

/// Legal decisions and the settled ones decode to the same picture.
pub fn settling_law()
    ensures { SettlingKeepsPicture }
{}
