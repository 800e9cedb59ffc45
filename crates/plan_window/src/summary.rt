//! What the plan knows of a frame, and whether the frame is coded by its record.
ghost use Rattle.std.specs.Prelude.{◌≡◌};
ghost use Rattle.plan_window.specs.Links.{is_anchor_record, is_sealed_by, is_forward_right, is_in_group_of, mode_by};

use mv_terms::PicType;

/// What the plan has to know of a frame. Without a record only `kind` counts.
#[derive(Clone, Copy, Debug)]
pub struct Summary {
    /// The type of the record that was found, if one was.
    pub kind: Option<PicType>,
    /// Whether the sequence in its record has low delay.
    pub low_delay: bool,
    /// Whether the picture of its record uses the forward reference.
    pub uses_forward: bool,
    /// The seal of the frame that it refers to forward.
    pub forward: Option<[u8; 32]>,
    /// The seal of the frame that it refers to backward.
    pub backward: [u8; 32],
    /// The seal of the frame itself.
    pub seal: [u8; 32],
    /// A number that the caller gives to each context, in 32 bytes.
    pub context: [u8; 32],
}

/// How a frame is coded.
#[derive(Clone, Copy, Debug, PartialEq, Eq)]
pub enum Mode {
    /// By its record.
    Guided,
    /// Anew, by intra macroblocks alone.
    Fresh,
}

/// A step of the plan: the frame that is coded, and how.
#[derive(Clone, Copy, Debug, PartialEq, Eq)]
pub struct Step {
    /// The number of the frame, from 0.
    pub frame: u64,
    /// Whether it is coded as an anchor; else it is coded as a B picture.
    pub anchor: bool,
    pub mode: Mode,
}

impl Summary {
    /// How the frame is coded, where these are the nearest anchor before it and, for a B, the anchor of its group.
    pub(crate) fn mode(&self, nearest: &Option<Summary>, group: &Option<Summary>) -> Mode
        ensures { result ≡ mode_by self.now nearest.now group.now }
    {
        let linked = match self.kind {
            None => false,
            Some(PicType::I) => true,
            Some(PicType::P) => self.is_forward_right(nearest),
            Some(PicType::B) => self.is_forward_right(nearest) && self.is_in_group_of(group),
        };
        if linked { Mode::Guided } else { Mode::Fresh }
    }

    /// Whether a record of type I or P was found.
    pub(crate) fn is_anchor(&self) -> bool
        ensures { result ≡ is_anchor_record self.now }
    {
        match self.kind {
            Some(PicType::I) | Some(PicType::P) => true,
            Some(PicType::B) | None => false,
        }
    }

    /// Whether the forward side of its record is that anchor, or is not used.
    fn is_forward_right(&self, nearest: &Option<Summary>) -> bool
        ensures { result ≡ is_forward_right self.now nearest.now }
    {
        if !self.uses_forward {
            return true;
        }
        match (&self.forward, nearest) {
            (None, None) => true,
            (Some(link), Some(anchor)) => anchor.is_sealed_by(link),
            (None, Some(_)) | (Some(_), None) => false,
        }
    }

    /// Whether the backward side of its record is that anchor, and both have the same context.
    fn is_in_group_of(&self, group: &Option<Summary>) -> bool
        ensures { result ≡ is_in_group_of self.now group.now }
    {
        match group {
            None => false,
            Some(anchor) => self.context == anchor.context && anchor.is_sealed_by(&self.backward),
        }
    }

    /// Whether a record with this seal was found.
    fn is_sealed_by(&self, link: &[u8; 32]) -> bool
        ensures { result ≡ is_sealed_by link.now self.now }
    {
        self.kind.is_some() && self.seal == *link
    }
}
