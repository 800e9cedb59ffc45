//! What the plan has to know of a frame.
ghost use Rattle.std.specs.Prelude.{◌≡◌, ◌<◌};
ghost use Rattle.plan_window.specs.Numbers.{without_context};
ghost use Rattle.rec_legal.specs.Conditions.{has_flag};
ghost use Rattle.rec_reader.specs.Lent.{lent_found};
ghost use Rattle.rec_reader.specs.Summaries.{forward_link, no_record, record_summary};

use crate::reader::Found;
use plan_window::Summary;

/// The flag of a picture that uses its forward reference, and that of one with a forward link.
const USES_FORWARD: u8 = 2;

const FORWARD_LINK: u8 = 4;

/// The summary of a frame without a record.
pub fn no_summary() -> Summary
    ensures { without_context result ≡ without_context no_record }
{
    Summary {
        kind: None,
        low_delay: false,
        uses_forward: false,
        forward: None,
        backward: [0; 32],
        seal: [0; 32],
        context: [0; 32],
    }
}

impl Found<'_> {
    /// The summary of the frame, where the caller still has to put the number of its context.
    pub fn summary(&self) -> Summary
        ensures { without_context result
            ≡ without_context (record_summary (lent_found self.now)) }
    {
        let sheet = &self.record.sheet;
        Summary {
            kind: Some(sheet.pic),
            low_delay: self.record.context.low_delay,
            uses_forward: self.has_flag(USES_FORWARD),
            forward: self.forward_link(),
            backward: sheet.backward,
            seal: self.record.seal,
            context: [0; 32],
        }
    }

    /// The link to the frame that the picture refers to forward, where it has one.
    fn forward_link(&self) -> Option<[u8; 32]>
        ensures { result ≡ forward_link (lent_found self.now) }
    {
        if self.has_flag(FORWARD_LINK) {
            Some(self.record.sheet.forward)
        } else {
            None
        }
    }

    /// Whether the flag of this worth is set.
    fn has_flag(&self, worth: u8) -> bool
        requires { 0 < worth }
        ensures { result ≡ has_flag (lent_found self.now).sheet worth }
    {
        self.record.sheet.flags / worth % 2 == 1
    }
}
