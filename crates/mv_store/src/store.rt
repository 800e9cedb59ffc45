//! Three pictures that change places: the last two anchors, and the picture that is decoded next.
ghost use Rattle.std.specs.Prelude.{◌≡◌, ℕ, [], List, true, false, IfOk};
ghost use Rattle.std.specs.Borrow.{sem};
ghost use Rattle.mv_planes.specs.Planes.{Planes};
ghost use Rattle.mv_planes.specs.References.{DecodedPicture, type_of, last_anchor, older_anchor};
ghost use Rattle.mv_store.specs.Answers.{answer_to};
ghost use Rattle.mv_store.specs.Lending.{LendsCurrent};
ghost use Rattle.mv_store.specs.Stored.{StandsFor, HasCommitted, HasReferences};

use mv_planes::{Picture, RefPair};
use mv_terms::{NoMemory, PicType};
use std::alloc::Global;
use std::mem;

/// The last two anchors, grey where there are none, and the picture that is decoded next.
#[derive(Drop)]
pub struct RefStore {
    older: Picture,
    newer: Picture,
    current: Picture,
    /// An anchor was committed.
    started: bool,
}

/// The picture that is decoded next, and its references.
#[derive(Drop)]
pub struct Lent<'a> {
    pub refs: RefPair<'a>,
    pub current: &'a mut Picture,
}

/// A picture and its references, for reading.
#[derive(Clone, Copy)]
pub struct Held<'a> {
    pub refs: RefPair<'a>,
    pub picture: &'a Picture,
}

/// What is shown when a picture is committed.
#[derive(Clone, Copy, Debug, PartialEq, Eq)]
pub enum Shown {
    /// It is the first anchor, and is held itself.
    Nothing,
    /// The anchor before it, which was held until now.
    Previous,
    /// The picture itself, a B picture.
    Current,
}

impl RefStore {
    /// A store to which no picture was committed. All its pictures are grey and of this size in macroblocks.
    pub fn start(alloc: Global, mb_wide: u16, mb_high: u16) -> Result<RefStore, NoMemory>
        ensures { IfOk result (λ store. StandsFor mb_wide mb_high store []) }
    {
        Ok(RefStore {
            older: Picture::grey(alloc, mb_wide, mb_high)?,
            newer: Picture::grey(alloc, mb_wide, mb_high)?,
            current: Picture::grey(alloc, mb_wide, mb_high)?,
            started: false,
        })
    }

    /// Lends the picture that is decoded next, and the references that it has if it is of this type. Until a picture is
    /// committed it is the same one for each type, with the samples that were left there.
    pub fn lend(&mut self, pic: PicType) -> Lent<'_>
        ensures* writes_back { sem 𝓛 (LendsCurrent self.entry result.current) }
        ensures refs { (mb_wide mb_high : ℕ) (before : List DecodedPicture)
            → StandsFor mb_wide mb_high self.old before
            → HasReferences result.refs pic mb_wide mb_high before }
        ensures current { result.current.now ≡ self.old.current }
    {
        Lent {
            refs: references(pic, &self.newer, &self.older),
            current: &mut self.current,
        }
    }

    /// The picture that was decoded is the next of the list, and of this type. The answer is what is shown now.
    pub fn commit(&mut self, pic: PicType) -> Shown
        ensures stands { (mb_wide mb_high : ℕ) (before : List DecodedPicture)
            → StandsFor mb_wide mb_high self.old before
            → HasCommitted mb_wide mb_high self.new
            (record { pic = pic; picture = self.old.current }) before }
        ensures shown { (mb_wide mb_high : ℕ) (before : List DecodedPicture)
            → StandsFor mb_wide mb_high self.old before → result ≡ answer_to type_of pic before }
    {
        match pic {
            PicType::B => Shown::Current,
            PicType::I | PicType::P => {
                let started = self.started;
                self.started = true;
                mem::swap(&mut self.older, &mut self.newer);
                mem::swap(&mut self.newer, &mut self.current);
                if started {
                    Shown::Previous
                } else {
                    Shown::Nothing
                }
            }
        }
    }

    /// Lends for reading what `lend` lends for this type.
    pub fn next(&self, pic: PicType) -> Held<'_>
        ensures refs { (mb_wide mb_high : ℕ) (before : List DecodedPicture)
            → StandsFor mb_wide mb_high self.now before
            → HasReferences result.refs pic mb_wide mb_high before }
        ensures picture { result.picture.now ≡ self.now.current }
    {
        Held {
            refs: references(pic, &self.newer, &self.older),
            picture: &self.current,
        }
    }

    /// Lends for reading the picture that was committed last, if that one has this type and nothing was lent since, with
    /// the references that it had.
    pub fn last(&self, pic: PicType) -> Held<'_>
        ensures refs { (mb_wide mb_high : ℕ) (picture : Planes) (before : List DecodedPicture)
            → HasCommitted mb_wide mb_high self.now (record { pic = pic; picture = picture }) before
            → HasReferences result.refs pic mb_wide mb_high before }
        ensures picture { (mb_wide mb_high : ℕ) (picture : Planes) (before : List DecodedPicture)
            → HasCommitted mb_wide mb_high self.now (record { pic = pic; picture = picture }) before
            → result.picture.now ≡ picture }
    {
        match pic {
            // it took the place of the anchor before it, and left its own to the oldest one
            PicType::I | PicType::P => Held {
                refs: references(pic, &self.older, &self.current),
                picture: &self.newer,
            },
            PicType::B => Held {
                refs: references(pic, &self.newer, &self.older),
                picture: &self.current,
            },
        }
    }
}

/// The references of a picture of this type, by the last two anchors before it.
fn references<'a>(pic: PicType, last: &'a Picture, older: &'a Picture) -> RefPair<'a>
    ensures { (mb_wide mb_high : ℕ) (before : List DecodedPicture)
        → last.now ≡ last_anchor mb_wide mb_high before
        → older.now ≡ older_anchor mb_wide mb_high before
        → HasReferences result pic mb_wide mb_high before }
{
    match pic {
        PicType::B => RefPair {
            forward: older,
            backward: last,
        },
        PicType::I | PicType::P => RefPair {
            forward: last,
            backward: older,
        },
    }
}
