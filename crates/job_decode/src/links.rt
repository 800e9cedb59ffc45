//! The links to the frames of the last two anchors.
ghost use Rattle.std.specs.Prelude.{◌≡◌};
ghost use Rattle.job_decode.specs.Steps.{backward_link, forward_link, with_seal};

use mv_terms::PicType;

/// The seals of the frames of the last two anchors, zeros where one has no record; None where there is no such anchor.
#[derive(Clone, Copy)]
pub(crate) struct Links {
    pub(crate) last: Option<[u8; 32]>,
    pub(crate) older: Option<[u8; 32]>,
}

impl Links {
    /// The link to the frame that a picture of this type refers to forward.
    pub(crate) fn forward(&self, pic: PicType) -> Option<[u8; 32]>
        ensures { result ≡ forward_link pic self.now }
    {
        match pic {
            PicType::I => None,
            PicType::P => self.last,
            PicType::B => self.older,
        }
    }

    /// The link to the frame that it refers to backward.
    pub(crate) fn backward(&self, pic: PicType) -> Option<[u8; 32]>
        ensures { result ≡ backward_link pic self.now }
    {
        match pic {
            PicType::I | PicType::P => None,
            PicType::B => self.last,
        }
    }

    /// Takes the seal of the next frame, where that has a record.
    pub(crate) fn push(&mut self, pic: PicType, seal: Option<[u8; 32]>)
        ensures { self.new ≡ with_seal pic seal self.old }
    {
        match pic {
            PicType::B => {}
            PicType::I | PicType::P => {
                self.older = self.last;
                self.last = Some(seal.unwrap_or([0; 32]));
            }
        }
    }
}
